//! Laws of a venue that takes inputs one after another.
ghost use Rattle.std.specs.Prelude.{◌≡◌, List, [], ◌∷◌, ◌++◌};
ghost use Rattle.venue_rules.specs.declared.replies.Reply.{Reply};
ghost use Rattle.venue_rules.specs.declared.trail.TrailRow.{TrailRow};
ghost use Rattle.venue_rules.specs.Answer.{Answer};
ghost use Rattle.venue_rules.specs.Facts.{no_history};
ghost use Rattle.venue_rules.specs.Lawful.{Lawful};
ghost use Rattle.venue_rules.specs.Market.{Market};
ghost use Rattle.venue_rules.specs.Run.{Input, rows, run};
ghost use Rattle.venue_core.specs.Replay.{AreFitting, AreEmitted};
ghost use Rattle.venue_core.specs.VenueFacts.{IsAfter, IsAnswer, IsHistory};
ghost use Rattle.venue_core.specs.State.{State};
ghost use Rattle.venue_core.specs.Taking.{IsSame, Stands, Takes, TakesAll};

use fix_decoder::printed_is_read;
use venue_rules::every_run_is_lawful;

/// A new venue that takes inputs one after another is in the state of the rules' run of these inputs, with the run's
/// replies; so it keeps all laws of the venue.
pub fn every_day_is_lawful()
    ensures run { (m : Market) (is : List Input) (s s' : State) (replies : List Reply) → s.market ≡ m → IsHistory s no_history → TakesAll s is replies s' → Stands m is s' × (replies ≡ (run m is).replies) }
    ensures lawful { (m : Market) (is : List Input) → Lawful m is }
{
    every_run_is_lawful();
}

/// Applying the plan that answers an input takes the input. A venue in the state of some inputs that takes a further
/// one is in the state of those and that one; the run's replies are those before, then the answer's.
pub fn day_goes_on()
    ensures takes { (i : Input) (s between s' : State) (a : Answer) → IsSame s between → IsAnswer s i a → s'.market ≡ between.market → IsAfter between a s' → Takes s i a s' }
    ensures stands { (m : Market) (is : List Input) (i : Input) (s s' : State) (a : Answer) → Stands m is s → Takes s i a s' → Stands m (is ++ i ∷ []) s' }
    ensures replies { (m : Market) (is : List Input) (i : Input) (s s' : State) (a : Answer) → Stands m is s → Takes s i a s' → (run m (is ++ i ∷ [])).replies ≡ (run m is).replies ++ a.replies }
{}

/// The rows of inputs stand for these inputs, where their messages have values of the dictionary's forms.
pub fn rows_emit_their_inputs()
    ensures { (rs : List TrailRow) (is emitted : List Input) → rs ≡ rows is → AreFitting is → AreEmitted rs emitted → emitted ≡ is }
{
    printed_is_read();
}
