//! What it says that replies differ, and that none do.
ghost use Rattle.trail_comparison.specs.Laws.{NothingLeftOut, SameIsSentAlike};

/// Replies are the same exactly where the same texts are sent to participants of the same names, in order.
#[tactic(auto, using(crate::proofs::Replies::sent_alike))]
pub fn same_is_sent_alike()
    ensures { SameIsSentAlike }
{}

/// Where a participant sent nothing, all answers are the same without its rows.
#[tactic(auto, using(crate::proofs::Silent::nothing_left_out))]
pub fn a_silent_participant_changes_nothing()
    ensures { NothingLeftOut }
{}
