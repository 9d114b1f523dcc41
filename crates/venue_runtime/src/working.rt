//! The worker's part, in parallel to the sessions' threads.

ghost use Rattle.std.specs.Prelude.{IfErr, IfOk};
ghost use Rattle.intake_seats.specs.Ends.{AreTakes};
ghost use Rattle.venue_rules.specs.Kept.{IsRisen};
ghost use Rattle.venue_worker.specs.Turns.{AreTokensUntaken};
ghost use Rattle.venue_runtime.specs.Working.{HasStopped, HasWorked};

use intake_seats::{Board, TakeSeat};
use venue_rules::{EventFault, Keep};
use venue_worker::{Clock, Parts, Worker};

/// The end of a worker's turns, and all its parts.
#[derive(Drop)]
pub(crate) struct Worked<K: Keep + Drop> {
    pub(crate) ran: Result<(), EventFault>,
    pub(crate) parts: Parts<K>,
}

// Runs a worker for its turns, and takes it apart. Where the trail stopped it, the clock is called and the sessions end
// first.
fn run_out<W: Clock, K: Keep + Drop>(
    worker: Worker<'_, K>,
    clock: &mut W,
    ends: &Board<()>,
    end_tokens: Vec<TakeSeat<()>>,
    turns: u64,
) -> Worked<K>
    requires end_tokens { AreTakes ends.now end_tokens.items × AreTokensUntaken end_tokens.items }
    ensures worked { IfOk result.ran (λ _. HasWorked turns (W.answered clock.old) (W.answered clock.new) result.ran worker.entry result.parts.venue (K.rows result.parts.keeper) (K.is_clean result.parts.keeper) (K.refused result.parts.keeper) result.parts.queues.items result.parts.takes.items result.parts.hands.items) }
    ensures stopped { IfErr result.ran (λ _. IsRisen worker.entry.ledger.refused (K.refused result.parts.keeper)) }
    ensures shut_down { IfErr result.ran (λ _. HasStopped turns (W.answered clock.old) (W.answered clock.new) result.ran worker.entry result.parts.venue (K.rows result.parts.keeper) (K.is_clean result.parts.keeper) (K.refused result.parts.keeper) result.parts.queues.items result.parts.takes.items result.parts.hands.items) }
{
    let mut worker = worker;
    let mut end_tokens = end_tokens;
    match worker.run(clock, ends, &mut end_tokens, turns) {
        Ok(()) => Worked {
            ran: Ok(()),
            parts: worker.into_parts(),
        },
        Err(fault) => {
            clock.refused();
            worker.shut_down(clock, turns);
            Worked {
                ran: Err(fault),
                parts: worker.into_parts(),
            }
        }
    }
}

/// Runs a worker for its turns, calls its clock as it ends, and takes it apart. Where the trail stopped it, the
/// sessions end first.
pub(crate) fn work_out<W: Clock, K: Keep + Drop>(
    worker: Worker<'_, K>,
    clock: &mut W,
    ends: &Board<()>,
    end_tokens: Vec<TakeSeat<()>>,
    turns: u64,
) -> Worked<K>
    requires end_tokens { AreTakes ends.now end_tokens.items × AreTokensUntaken end_tokens.items }
    ensures worked { IfOk result.ran (λ _. HasWorked turns (W.answered clock.old) (W.answered clock.new) result.ran worker.entry result.parts.venue (K.rows result.parts.keeper) (K.is_clean result.parts.keeper) (K.refused result.parts.keeper) result.parts.queues.items result.parts.takes.items result.parts.hands.items) }
    ensures stopped { IfErr result.ran (λ _. IsRisen worker.entry.ledger.refused (K.refused result.parts.keeper)) }
    ensures shut_down { IfErr result.ran (λ _. HasStopped turns (W.answered clock.old) (W.answered clock.new) result.ran worker.entry result.parts.venue (K.rows result.parts.keeper) (K.is_clean result.parts.keeper) (K.refused result.parts.keeper) result.parts.queues.items result.parts.takes.items result.parts.hands.items) }
{
    let worked = run_out(worker, clock, ends, end_tokens, turns);
    clock.ended();
    worked
}

/// The same with a clock that is given, and given back.
pub(crate) fn work_with<W: Clock, K: Keep + Drop>(
    worker: Worker<'_, K>,
    clock: W,
    ends: &Board<()>,
    end_tokens: Vec<TakeSeat<()>>,
    turns: u64,
) -> (Worked<K>, W)
    requires end_tokens { AreTakes ends.now end_tokens.items × AreTokensUntaken end_tokens.items }
    ensures worked { IfOk result.0.ran (λ _. HasWorked turns (W.answered clock) (W.answered result.1) result.0.ran worker.entry result.0.parts.venue (K.rows result.0.parts.keeper) (K.is_clean result.0.parts.keeper) (K.refused result.0.parts.keeper) result.0.parts.queues.items result.0.parts.takes.items result.0.parts.hands.items) }
    ensures stopped { IfErr result.0.ran (λ _. IsRisen worker.entry.ledger.refused (K.refused result.0.parts.keeper)) }
    ensures shut_down { IfErr result.0.ran (λ _. HasStopped turns (W.answered clock) (W.answered result.1) result.0.ran worker.entry result.0.parts.venue (K.rows result.0.parts.keeper) (K.is_clean result.0.parts.keeper) (K.refused result.0.parts.keeper) result.0.parts.queues.items result.0.parts.takes.items result.0.parts.hands.items) }
{
    let mut clock = clock;
    let worked = work_out(worker, &mut clock, ends, end_tokens, turns);
    (worked, clock)
}
