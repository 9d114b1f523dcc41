//! What every answer keeps, whatever the market, the history, the message and the moment are.

ghost use Rattle.refusal_causes.specs.Meanings.{PrintsWhatHolds, SaysWhatHolds};
ghost use Rattle.refusal_causes.specs.Why.{CausesAreFirst, HoldsBefore, PassesAfterLinked};
ghost use Rattle.refusal_causes.specs.Worked.{WorkedRow};

/// The cause that an answer names is the first of the list that holds. A cause that ends by time, and holds at a
/// moment, holds at each earlier one. Where that is the delay between linked orders, the message would trade with one
/// that entered just the delay before the moment from which on it passes. The sentence of a cause is printed exactly
/// where the rules' own test of it holds, and none of those before it.
pub fn causes_are_first()
    ensures first { CausesAreFirst }
    ensures before { HoldsBefore }
    ensures linked { PassesAfterLinked }
    ensures says { SaysWhatHolds }
    ensures printed { PrintsWhatHolds }
{}

/// The refused order of BETA in the sample day, worked out by hand from the rules.
pub fn worked_example()
    ensures { WorkedRow }
{}
