//! Laws of all boards and of all lists of their ends.
ghost use Rattle.std.specs.Prelude.{◌≡◌, ℕ, List, slice_get, slice_set, Option, Some, None};
ghost use Rattle.atomic_table.specs.Table.{State};
ghost use Rattle.atomic_table.specs.Seated.{TableId};
ghost use Rattle.intake_seats.specs.Given.{HandEnd, TakeEnd};
ghost use Rattle.intake_seats.specs.Ends.{AreHands, AreTakes, IsSameHander, IsSameTaker};
ghost use Rattle.intake_seats.specs.Rule.{IsBoard, AreAhead};
ghost use Rattle.intake_seats.specs.declared.views.View.{View};

/// In every state that meets `BoardRule` for a board of n seats, the two ends of a seat agree, whatever threads have
/// them: the messages given are those taken, then one at most, in the seat or in hand.
pub fn ends_agree<M>()
    ensures { (n : ℕ) (s : State (Option M) (View M)) → IsBoard n s → AreAhead s }
{}

/// A list of a board's hander ends in order stays one where an end is used in its place.
pub fn hands_stay<M>()
    ensures { (board : TableId) (hands : List (HandEnd M)) (k : ℕ) (old new : HandEnd M) → slice_get hands k ≡ Some old → IsSameHander old new → AreHands board hands → AreHands board (slice_set hands k new) }
{}

/// The same of a taker's end with nothing in hand.
pub fn takes_stay<M>()
    ensures { (board : TableId) (takes : List (TakeEnd M)) (k : ℕ) (old new : TakeEnd M) → slice_get takes k ≡ Some old → IsSameTaker old new → new.in_hand ≡ None → AreTakes board takes → AreTakes board (slice_set takes k new) }
{}
