//! Readings after further facts.
ghost use Rattle.std.specs.Prelude.{◌≡◌, ◌+◌, List, [], ◌∷◌, ◌++◌, length, Some, None, is_some, true};
ghost use Rattle.venue_rules.specs.declared.facts.Fact.{Fact};
ghost use Rattle.venue_rules.specs.declared.facts.Fact.TheVariants.{Quoted};
ghost use Rattle.venue_rules.specs.declared.facts.Room.{Room};
ghost use Rattle.venue_rules.specs.declared.facts.RoomQuote.{RoomQuote};
ghost use Rattle.venue_rules.specs.declared.trail.RoomFact.{RoomFact};
ghost use Rattle.venue_rules.specs.Book.{picture};
ghost use Rattle.venue_rules.specs.Facts.{quotes, trades};
ghost use Rattle.venue_rules.specs.Readings.{trade_facts};
ghost use Rattle.venue_rules.specs.Rooms.{first_quote, room_by_number};
ghost use Rattle.rfq_room.specs.Contents.{Contents};
ghost use Rattle.rfq_room.specs.RoomFacts.{room_facts};
ghost use Rattle.rfq_room.specs.Steps.{IsPlanOf};
ghost use Rattle.trade_history.specs.Numbered.{AreNumbered};
ghost use Rattle.trade_history.specs.Quoted.{room_shown};
ghost use Rattle.trade_history.specs.ReadOf.{IsReadOf, are_later};
ghost use Rattle.trade_history.specs.Traded.{read_from};

/// The trades among further facts are read after the earlier ones, with the numbers that follow theirs.
pub fn trades_are_read()
    ensures more { (fs gs : List Fact) → trade_facts (fs ++ gs) ≡ trade_facts fs ++ read_from (length (trade_facts fs) + 1) (trades gs) }
    ensures count { (fs : List Fact) → length (trade_facts fs) ≡ length (trades fs) }
{}

/// A step of the rooms keeps their requests and quotes numbered in order.
pub fn numbers_go_on()
    ensures none { AreNumbered [] }
    ensures more { (rooms : Contents) (added : List Fact) → AreNumbered rooms.facts → IsPlanOf rooms added → AreNumbered (rooms.facts ++ added) }
{}

/// A quote that the rooms add comes alone, in a room that was asked for; a step that begins with no quote has none.
pub fn quotes_come_alone()
    ensures alone { (rooms : Contents) (q : RoomQuote) (more : List Fact) → IsPlanOf rooms (Quoted q ∷ more) → more ≡ [] }
    ensures asked { (rooms : Contents) (q : RoomQuote) (more : List Fact) → IsPlanOf rooms (Quoted q ∷ more) → is_some (room_by_number rooms.facts q.room) ≡ true }
    ensures first { (rooms : Contents) (f : Fact) (more : List Fact) → IsPlanOf rooms (f ∷ more) → quotes (f ∷ more) ≡ quotes (f ∷ []) }
{}

/// The readings of rooms are unchanged by facts with quotes only in rooms that had one before. An empty history has
/// none.
pub fn later_quotes_are_read()
    ensures none { IsReadOf [] [] }
    ensures more { (rs : List RoomFact) (hs added : List Fact) → AreNumbered (room_facts hs) → are_later (room_facts hs) (room_facts added) ≡ true → IsReadOf rs hs → IsReadOf rs (hs ++ added) }
{}

/// The first quote in a room adds the reading of that room, with what rests in the book at that moment.
pub fn first_quote_is_read()
    ensures { (rs : List RoomFact) (hs : List Fact) (r : Room) (q : RoomQuote) → AreNumbered (room_facts hs ++ Quoted q ∷ []) → room_by_number (room_facts hs) q.room ≡ Some r → first_quote (room_facts hs) q.room ≡ None → IsReadOf rs hs → IsReadOf (rs ++ room_shown r q.number (picture hs r.instrument) ∷ []) (hs ++ Quoted q ∷ []) }
{}
