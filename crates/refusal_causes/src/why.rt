//! Why a message was refused, and from when on it would pass.

ghost use Rattle.std.specs.Prelude.{◌≡◌, ◌≤◌, ◌<◌, ◌+◌, ◌-◌, ℕ, IfOk, Some};
ghost use Rattle.venue_rules.specs.Answers.{answer};
ghost use Rattle.venue_rules.specs.Facts.{History};
ghost use Rattle.venue_rules.specs.Run.{Message, answer_input};
ghost use Rattle.venue_core.specs.Plan.{most_items};
ghost use Rattle.venue_core.specs.VenueFacts.{IsHistory};
ghost use Rattle.venue_core.specs.State.{standing};
ghost use Rattle.row_replay.specs.Inputs.{input_of};
ghost use Rattle.refusal_causes.specs.Places.{waits};
ghost use Rattle.refusal_causes.specs.Why.{IsBetween, IsPassing, IsRefusedFor, PassesFrom, Waits, count_at, place_at};

use crate::laws::causes_are_first;
use crate::places::{count, count_due, place, place_due, waits};
use row_replay::plan_item;
use sef_moment::Moment;
use std::alloc::AllocError;
use venue_core::Venue;
use venue_rules::{Reply, Taken};

/// The longest life of a request, in milliseconds: longer than each delay between linked orders.
const LONGEST_WAIT: u64 = 86_400_000;

/// Why a message is refused.
#[derive(Clone, Copy)]
pub struct Why {
    /// the number of the first cause that holds, from 1; 0 where none of the list does
    pub cause: u64,
    /// of how many
    pub count: u64,
    /// the first moment at which it no longer holds, if it ends by time alone
    pub passes: Option<Moment>,
}

/// Whether a message would be refused at a moment for a cause that ends by time alone.
pub(crate) fn waits_at(venue: &mut Venue, taken: &Taken, moment: Moment) -> Result<bool, AllocError>
    requires few { venue.old.items ≤ most_items }
    ensures market { venue.new.market ≡ venue.old.market }
    ensures day { standing venue.new.day ≡ standing venue.old.day }
    ensures items { venue.new.items ≡ venue.old.items }
    ensures emitted { (h : History) → IsHistory venue.old h → IfOk result (λ b. b ≡ waits taken.now.item.app (answer venue.old.market h taken.now moment).replies) }
{
    let plan = venue.plan(taken, moment)?;
    let emitted = waits(taken.item.app.get(), plan.replies());
    drop(plan);
    Ok(emitted)
}

/// A moment between two that are not next to each other.
fn middle(low: Moment, high: Moment) -> Moment
    requires apart { low + 1 < high }
    ensures above { low < result }
    ensures below { result < high }
{
    low.plus((high.ms() - low.ms()) / 2)
}

/// Two moments that are nearer to each other, of which at the one the cause holds, and at the other it does not.
fn halved(
    venue: &mut Venue,
    taken: &Taken,
    low: Moment,
    high: Moment,
) -> Result<(Moment, Moment), AllocError>
    requires few { venue.old.items ≤ most_items }
    requires apart { low + 1 < high }
    ensures market { venue.new.market ≡ venue.old.market }
    ensures day { standing venue.new.day ≡ standing venue.old.day }
    ensures items { venue.new.items ≡ venue.old.items }
    ensures nearer { IfOk result (λ two. two.1 - two.0 < high - low) }
    ensures between { (h : History) (t : ℕ) → IsHistory venue.old h → IsBetween venue.old.market h taken.now t low high → IfOk result (λ two. IsBetween venue.old.market h taken.now t two.0 two.1) }
{
    let between = middle(low, high);
    if waits_at(venue, taken, between)? {
        Ok((between, high))
    } else {
        Ok((low, between))
    }
}

/// The first moment at which the cause no longer holds, between one at which it does and one at which it does not:
/// found by halves, since what holds at a moment holds at each earlier one.
fn first_between(
    venue: &mut Venue,
    taken: &Taken,
    low: Moment,
    high: Moment,
) -> Result<Moment, AllocError>
    requires few { venue.old.items ≤ most_items }
    ensures market { venue.new.market ≡ venue.old.market }
    ensures day { standing venue.new.day ≡ standing venue.old.day }
    ensures items { venue.new.items ≡ venue.old.items }
    ensures passes { (h : History) (t : ℕ) → IsHistory venue.old h → IsBetween venue.old.market h taken.now t low high → IfOk result (λ p. PassesFrom venue.old.market h taken.now t p) }
{
    causes_are_first();
    let mut low = low;
    let mut high = high;
    'halves: while low.ms() + 1 < high.ms() {
        let (next_low, next_high) = halved(venue, taken, low, high)?;
        low = next_low;
        high = next_high;
    }
    Ok(high)
}

/// The first moment at which a message, refused at this one for a cause that ends by time alone, no longer is; nothing
/// where it is even after the longest wait.
fn first_passing(
    venue: &mut Venue,
    taken: &Taken,
    moment: Moment,
) -> Result<Option<Moment>, AllocError>
    requires few { venue.old.items ≤ most_items }
    ensures market { venue.new.market ≡ venue.old.market }
    ensures day { standing venue.new.day ≡ standing venue.old.day }
    ensures items { venue.new.items ≡ venue.old.items }
    ensures passes { (h : History) → IsHistory venue.old h → Waits venue.old.market h taken.now moment → IfOk result (λ p. IsPassing p venue.old.market h (Message taken.now moment)) }
{
    causes_are_first();
    let last = moment.plus(LONGEST_WAIT);
    if waits_at(venue, taken, last)? {
        return Ok(None);
    }
    let passes = first_between(venue, taken, moment, last)?;
    Ok(Some(passes))
}

/// The same of a message that is refused for another cause, or not: then nothing.
fn message_passing(
    venue: &mut Venue,
    taken: &Taken,
    moment: Moment,
) -> Result<Option<Moment>, AllocError>
    requires few { venue.old.items ≤ most_items }
    ensures market { venue.new.market ≡ venue.old.market }
    ensures day { standing venue.new.day ≡ standing venue.old.day }
    ensures items { venue.new.items ≡ venue.old.items }
    ensures passes { (h : History) → IsHistory venue.old h → IfOk result (λ p. IsPassing p venue.old.market h (Message taken.now moment)) }
{
    if waits_at(venue, taken, moment)? {
        first_passing(venue, taken, moment)
    } else {
        Ok(None)
    }
}

/// The same of a message, or of a row of the clock: then nothing.
fn passing_at(
    venue: &mut Venue,
    taken: &Option<Taken>,
    moment: Moment,
) -> Result<Option<Moment>, AllocError>
    requires few { venue.old.items ≤ most_items }
    ensures market { venue.new.market ≡ venue.old.market }
    ensures day { standing venue.new.day ≡ standing venue.old.day }
    ensures items { venue.new.items ≡ venue.old.items }
    ensures passes { (h : History) → IsHistory venue.old h → IfOk result (λ p. IsPassing p venue.old.market h (input_of taken.now moment)) }
{
    match taken {
        Some(taken) => message_passing(venue, taken, moment),
        None => Ok(None),
    }
}

fn place_in(taken: &Option<Taken>, replies: &[Reply]) -> u64
    ensures { (t : ℕ) → result ≡ place_at (input_of taken.now t) replies.now }
{
    match taken {
        Some(taken) => place(taken.item.app.get(), replies),
        None => place_due(replies),
    }
}

fn count_in(taken: &Option<Taken>, replies: &[Reply]) -> u64
    ensures { (t : ℕ) → result ≡ count_at (input_of taken.now t) replies.now }
{
    match taken {
        Some(taken) => count(taken.item.app.get(), replies),
        None => count_due(replies),
    }
}

/// The number of the cause for which a message would be refused at a moment, and the length of the list.
fn cause_at(
    venue: &mut Venue,
    taken: &Option<Taken>,
    moment: Moment,
) -> Result<(u64, u64), AllocError>
    requires few { venue.old.items ≤ most_items }
    ensures market { venue.new.market ≡ venue.old.market }
    ensures day { standing venue.new.day ≡ standing venue.old.day }
    ensures items { venue.new.items ≡ venue.old.items }
    ensures named { (h : History) → IsHistory venue.old h → IfOk result (λ emitted. emitted.0 ≡ place_at (input_of taken.now moment) (answer_input venue.old.market h (input_of taken.now moment)).replies) }
    ensures counted { (h : History) → IsHistory venue.old h → IfOk result (λ emitted. emitted.1 ≡ count_at (input_of taken.now moment) (answer_input venue.old.market h (input_of taken.now moment)).replies) }
{
    let plan = plan_item(venue, taken, moment)?;
    let cause = place_in(taken, plan.replies());
    let count = count_in(taken, plan.replies());
    drop(plan);
    Ok((cause, count))
}

/// Why a message would be refused at a moment, or a held side at a row of the clock, as the venue stands; the venue
/// stays as it is.
pub fn why_at(venue: &mut Venue, taken: &Option<Taken>, moment: Moment) -> Result<Why, AllocError>
    requires few { venue.old.items ≤ most_items }
    ensures market { venue.new.market ≡ venue.old.market }
    ensures day { standing venue.new.day ≡ standing venue.old.day }
    ensures items { venue.new.items ≡ venue.old.items }
    ensures named { (h : History) → IsHistory venue.old h → IfOk result (λ why. why.cause ≡ place_at (input_of taken.now moment) (answer_input venue.old.market h (input_of taken.now moment)).replies) }
    ensures counted { (h : History) → IsHistory venue.old h → IfOk result (λ why. why.count ≡ count_at (input_of taken.now moment) (answer_input venue.old.market h (input_of taken.now moment)).replies) }
    ensures first { (h : History) → IsHistory venue.old h → IfOk result (λ why. 1 ≤ why.cause → IsRefusedFor venue.old.market h (input_of taken.now moment) why.cause why.count) }
    ensures passes { (h : History) → IsHistory venue.old h → IfOk result (λ why. IsPassing why.passes venue.old.market h (input_of taken.now moment)) }
{
    causes_are_first();
    let (cause, count) = cause_at(venue, taken, moment)?;
    let passes = passing_at(venue, taken, moment)?;
    Ok(Why {
        cause,
        count,
        passes,
    })
}
