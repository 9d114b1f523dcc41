//! What the rows of every day keep.
ghost use Rattle.row_replay.specs.Laws.{AreTheirs};

use venue_core::rows_emit_their_inputs;

/// Inputs that rows stand for are theirs: where the rows are those of a run, these are its inputs.
#[tactic(auto, using(crate::proofs::Theirs::are_theirs))]
pub fn rows_have_their_inputs()
    ensures { AreTheirs }
{
    rows_emit_their_inputs();
}
