//! From the decisions of the rooms to the answers of the rules.
ghost use Rattle.std.specs.Prelude.{◌≡◌, ℕ, List, is_some};
ghost use Rattle.fix_dictionary.specs.declared.messages.QuoteRequest.{QuoteRequest};
ghost use Rattle.fix_dictionary.specs.declared.messages.Quote.{Quote};
ghost use Rattle.fix_dictionary.specs.declared.messages.QuoteCancel.{QuoteCancel};
ghost use Rattle.fix_dictionary.specs.declared.messages.QuoteResponse.{QuoteResponse};
ghost use Rattle.venue_rules.specs.declared.facts.Fact.{Fact};
ghost use Rattle.venue_rules.specs.Market.{Market};
ghost use Rattle.venue_rules.specs.Facts.{History, next_quote, next_room, quotes, rooms};
ghost use Rattle.venue_rules.specs.Answer.{Sender};
ghost use Rattle.venue_rules.specs.Requests.{answer_request, opened};
ghost use Rattle.venue_rules.specs.Quotes.{answer_quote, quoted};
ghost use Rattle.venue_rules.specs.Withdrawals.{answer_withdrawal};
ghost use Rattle.venue_rules.specs.Responses.{answer_response};
ghost use Rattle.venue_rules.specs.Rooms.{find_quote, find_room, first_quote, is_live, is_open, room_by_number};
ghost use Rattle.venue_rules.specs.declared.facts.Room.{Room};
ghost use Rattle.venue_rules.specs.declared.facts.RoomQuote.{RoomQuote};
ghost use Rattle.rfq_room.specs.Causes.{decide, quote_cause, request_cause, withdrawal_cause, withdrawal_id};
ghost use Rattle.rfq_room.specs.Named.{named_quotes, quote_room};
ghost use Rattle.rfq_room.specs.Plans.{quote_made, room_asked};
ghost use Rattle.rfq_room.specs.RoomFacts.{room_facts};
ghost use Rattle.rfq_room.specs.Emitted.{quote_emitted, request_emitted, response_emitted, withdrawal_emitted};

/// The rules' answers to a request, a quote, a withdrawal and a quote response are those by the rooms' cause or
/// decision. The rules' other readings of rooms are the same off all facts of a venue as off the facts of its rooms.
pub fn rooms_decide()
    ensures request { (m : Market) (h : History) (s : Sender) (d : QuoteRequest) (t : ℕ) → answer_request m h s d t ≡ request_emitted m h s d t (request_cause m (room_facts h.facts) s.who d t) }
    ensures quote { (m : Market) (h : History) (s : Sender) (d : Quote) (t : ℕ) → answer_quote m h s d t ≡ quote_emitted m h s d (find_room (room_facts h.facts) d.request_id) (quote_cause m (room_facts h.facts) s.who d t) }
    ensures withdrawal { (m : Market) (h : History) (s : Sender) (d : QuoteCancel) (t : ℕ) → answer_withdrawal m h s d t ≡ withdrawal_emitted m h s d (named_quotes (room_facts h.facts) s.who t (withdrawal_id d)) (withdrawal_cause (room_facts h.facts) s.who d t) }
    ensures response { (m : Market) (h : History) (s : Sender) (d : QuoteResponse) (t : ℕ) → answer_response m h s d t ≡ response_emitted m h s d t (find_quote (room_facts h.facts) d.quote_id) (quote_room (room_facts h.facts) d.quote_id) (decide (room_facts h.facts) s.who d t) }
    ensures opened { (m : Market) (h : History) (s : Sender) (d : QuoteRequest) (t : ℕ) → opened m h s d t ≡ room_asked m (room_facts h.facts) s.who d t }
    ensures quoted { (h : History) (s : Sender) (r : Room) (d : Quote) → quoted h s r d ≡ quote_made (room_facts h.facts) s.who r d }
    ensures first { (fs : List Fact) (room : ℕ) → first_quote fs room ≡ first_quote (room_facts fs) room }
    ensures room { (fs : List Fact) (number : ℕ) → room_by_number fs number ≡ room_by_number (room_facts fs) number }
{}

/// The rooms and quotes, and whether a room may still trade and a quote may be hit, are the same by all facts of a
/// venue as by the facts of its rooms.
pub fn rooms_are_read_alone()
    ensures rooms { (fs : List Fact) → rooms (room_facts fs) ≡ rooms fs }
    ensures quotes { (fs : List Fact) → quotes (room_facts fs) ≡ quotes fs }
    ensures opened { (fs : List Fact) (t : ℕ) (r : Room) → is_open (room_facts fs) t r ≡ is_open fs t r }
    ensures live { (fs : List Fact) (t : ℕ) (q : RoomQuote) → is_live (room_facts fs) t q ≡ is_live fs t q }
{}
