//! The run of a venue, from its start to its closing.

ghost use Rattle.std.specs.Prelude.{◌≡◌, ◌≤◌, ◌^◌, All, IfOk, List, length, map, true};
ghost use Rattle.gateway.specs.Served.{AreServed, IsReady};
ghost use Rattle.intake_seats.specs.Ends.{AreTakes};
ghost use Rattle.venue_core.specs.VenueFacts.{IsHistory};
ghost use Rattle.venue_core.specs.State.{standing};
ghost use Rattle.venue_rules.specs.Run.{Input, rows, run};
ghost use Rattle.venue_worker.specs.Inputs.{AreRising};
ghost use Rattle.venue_worker.specs.Turns.{AreTokensUntaken};
ghost use Rattle.venue_runtime.specs.Closing.{HasClosed, closing};
ghost use Rattle.venue_runtime.specs.Starting.{outside};
ghost use Rattle.venue_runtime.specs.Working.{HasWorked};

use crate::ending::ended_of;
use crate::making::{Made, make};
use crate::working::{Worked, work_with};
use fix_dictionary::Item;
use fix_session::laws;
use gateway::closing::{Closed, close_venue};
use gateway::line::{Gate, Line};
use gateway::threads::{Finish, RunFault, Start, run_in_parallel};
use intake_seats::{Board, TakeSeat};
use std::alloc::Global;
use std::mem::drop;
use std::sync::Wait;
use std::thread::Threads;
use venue_core::Venue;
use venue_rules::{Keep, every_run_is_lawful};
use venue_worker::{Clock, Outgoing, Worker, behind_is_owed_much};

// Runs the turns of all threads and those of the worker in parallel, and gives the worker's clock back.
fn run_threads<
    R: Threads + Wait + Sync,
    L: Line + Send + Drop,
    C: Clock + Send + Drop,
    G: Gate + Send + Drop,
    W: Clock + Drop,
    K: Keep + Drop,
>(
    rt: &R,
    alloc: Global,
    starts: Vec<Start<L, C, G>>,
    worker: Worker<'_, K>,
    clock: W,
    intake: &Board<Item>,
    replies: &Board<Outgoing>,
    ends: &Board<()>,
    end_tokens: Vec<TakeSeat<()>>,
    turns: u64,
) -> Result<(Vec<Finish<L, C, G>>, Worked<K>, W), RunFault>
    requires own { All (λ s. IsReady intake.now replies.now ends.now s) starts.items }
    requires end_tokens { AreTakes ends.now end_tokens.items × AreTokensUntaken end_tokens.items }
    ensures served { IfOk result (λ r. AreServed turns starts.items r.0.items) }
    ensures worked { IfOk result (λ r. IfOk r.1.ran (λ _. HasWorked turns (W.answered clock) (W.answered r.2) r.1.ran worker.entry r.1.parts.venue (K.rows r.1.parts.keeper) (K.is_clean r.1.parts.keeper) (K.refused r.1.parts.keeper) r.1.parts.queues.items r.1.parts.takes.items r.1.parts.hands.items)) }
{
    let (finished, (worked, clock_after)) = run_in_parallel(
        rt,
        alloc,
        starts,
        intake,
        replies,
        ends,
        turns,
        move || -> (Worked<K>, W)
            requires end_tokens { AreTakes ends.now end_tokens.items × AreTokensUntaken end_tokens.items }
            ensures worked { IfOk result.0.ran (λ _. HasWorked turns (W.answered clock) (W.answered result.1) result.0.ran worker.entry result.0.parts.venue (K.rows result.0.parts.keeper) (K.is_clean result.0.parts.keeper) (K.refused result.0.parts.keeper) result.0.parts.queues.items result.0.parts.takes.items result.0.parts.hands.items) }
        { work_with(worker, clock, ends, end_tokens, turns) },
    )?;
    Ok((finished, worked, clock_after))
}

/// Runs a venue and closes it. Each participant has a session in a thread of its own, with the line, the clock and the
/// gate at its place in `lines`; the worker runs on the caller's thread, at the moments that `clock` answers, which is
/// given back. Where the keeper's rows outlive the process, its sessions begin as those of a later one. Each thread and
/// the worker take `turns` turns; a session ends earlier where its line is over or it
/// collected the sentinel, and the worker where all sessions ended and nothing is left to do.
///
/// Conditions: a line for each participant; the venue is where the run of the keeper's rows leads, their moments do not
/// fall, and the store is clean.
///
/// `NoMemory`: an allocation failed for a board, a session, a list or the worker. `NoThread`: the system made no
/// thread; those that were started are joined first. `TrailRefused`: the keeper refused a row; the worker then ran
/// `Worker::shut_down`, to give the sessions what they were owed and to cut them, and those that it did not reach had
/// their turns. After each of these, all that was given is dropped.
pub fn run_venue<
    R: Threads + Wait + Sync,
    L: Line + Send + Drop,
    C: Clock + Send + Drop,
    G: Gate + Send + Drop,
    W: Clock + Drop,
    K: Keep + Drop,
>(
    rt: &R,
    alloc: Global,
    venue: Venue,
    keeper: K,
    lines: Vec<(L, C, G)>,
    clock: W,
    turns: u64,
) -> Result<(Closed<L, K>, W), RunFault>
    requires lines { length lines.items ≡ length venue.market.participants.names }
    requires clean { K.is_clean keeper ≡ true }
    requires history { (before : List Input) × (K.rows keeper ≡ rows before) × (length before ≤ 10 ^ 15) × IsHistory venue (run venue.market before).history × AreRising before }
    requires items { venue.items ≤ length (K.rows keeper) }
    ensures closed { IfOk result (λ r. HasClosed turns venue.market (K.rows keeper) (K.outlives keeper) (map (λ o. outside (L.said o.0) (C.answered o.1) (G.passed o.2)) lines.items) (W.answered clock) (W.answered r.1) (closing (map (λ s. s.state) r.0.sessions.items) (map (λ l. L.said l) r.0.lines.items) r.0.left.items r.0.replies_left.items r.0.queues.items (standing r.0.venue.day) (K.rows r.0.keeper) (K.is_clean r.0.keeper))) }
    ensures market { IfOk result (λ r. r.0.venue.market ≡ venue.market) }
    ensures unrefused { IfOk result (λ r. K.refused r.0.keeper ≡ K.refused keeper) }
{
    laws::one_reader();
    every_run_is_lawful();
    behind_is_owed_much();
    // (Here and below a call drops a venue: otherwise a proof sees the drop of each part at each place.)
    let restarted = keeper.outlives();
    let Ok(made) = make(alloc, venue.participants(), restarted, lines) else {
        drop(venue);
        return Err(RunFault::NoMemory);
    };
    let Made {
        intake,
        takes,
        replies,
        hands,
        ends,
        end_tokens,
        starts,
    } = made;
    let Ok(worker) = Worker::new(alloc, venue, keeper, &intake, takes, &replies, hands) else {
        return Err(RunFault::NoMemory);
    };
    let (finished, worked, clock_after) = run_threads(
        rt, alloc, starts, worker, clock, &intake, &replies, &ends, end_tokens, turns,
    )?;
    let Worked { ran, parts } = worked;
    if ran.is_err() {
        drop(parts);
        return Err(RunFault::TrailRefused);
    }
    let Ok(ended) = ended_of(alloc, finished) else {
        drop(parts);
        return Err(RunFault::NoMemory);
    };
    match close_venue(alloc, parts, ended, intake, replies) {
        Ok(closed) => Ok((closed, clock_after)),
        Err(_) => Err(RunFault::NoMemory),
    }
}
