//! Two sessions and the worker run in parallel: each session waits within one turn for the answer to the other's order.

use super::fixture::{ScenarioFault, both, run_for_two};
use super::pace::{PacedClock, PacedGate, SessionIo};
use super::signal::Signal;
use super::watched::WatchedLine;
use crate::messages::{bytes_of, start};
use gateway::line::Accept;
use gateway::mem_line::{MemLine, ScriptedRead};
use std::alloc::{AllocError, Global};
use std::mem::drop;
use std::sync::Wait;
use std::test::*;
use std::thread::Threads;
use std::time::Clock;

const TURNS: u64 = 100_000;

const ALPHA: &str =
    "8=FIXT.1.1|9=66|35=A|49=ALPHA|56=SEF|34=1|52=20250303-14:30:00|98=0|108=30|1137=9|10=000|\
     8=FIXT.1.1|9=107|35=D|49=ALPHA|56=SEF|34=2|52=20250303-14:30:00|11=a1|55=IRS5Y|54=1|38=100|40=2|44=2.5|60=20250303-14:30:00|10=071|";

/// An order that does not trade with ALPHA's.
const BETA: &str =
    "8=FIXT.1.1|9=65|35=A|49=BETA|56=SEF|34=1|52=20250303-14:30:00|98=0|108=30|1137=9|10=181|\
     8=FIXT.1.1|9=84|35=D|49=BETA|56=SEF|34=2|52=20250303-14:30:00|11=b1|55=IRS5Y|54=2|38=60|40=2|44=2.6|10=173|";

// A line with one connection, on which this comes.
fn line_of(alloc: Global, text: &str) -> Result<MemLine, AllocError> {
    let accepts = vec![in alloc; Accept::Up]?;
    let reads = vec![in alloc; ScriptedRead::Piece(bytes_of(alloc, text)?)]?;
    Ok(MemLine::new(alloc, accepts, reads, Vec::new(alloc)))
}

/// The signals of both orders.
#[derive(Drop)]
struct Emitted {
    /// Given from the start.
    now: Signal,
    /// An order was answered.
    alpha: Signal,
    beta: Signal,
    gave_up: Signal,
}

// No signal was given.
fn nothing_emitted() -> Emitted {
    let now = Signal::new();
    now.give();
    Emitted {
        now,
        alpha: Signal::new(),
        beta: Signal::new(),
        gave_up: Signal::new(),
    }
}

// A session whose line signals the answer to its order, and whose gate waits, after one signal, for another. All is
// over as ALPHA's order is answered, which is the last.
fn outside<'a, T: Clock + Copy + Drop>(
    clock: T,
    line: MemLine,
    emitted: &'a Emitted,
    answered: &'a Signal,
    after: &'a Signal,
    until: &'a Signal,
) -> SessionIo<'a, T> {
    (
        WatchedLine::new(line, answered, &emitted.alpha),
        PacedClock::new(clock, start(), 0, &emitted.now),
        PacedGate::new(clock, after, until, &emitted.gave_up),
    )
}

// ALPHA's gate waits for BETA's answer, and BETA's, once that came, for ALPHA's.
fn lines_of<'a, T: Clock + Copy + Drop>(
    alloc: Global,
    clock: T,
    emitted: &'a Emitted,
) -> Result<Vec<SessionIo<'a, T>>, AllocError> {
    let alpha = line_of(alloc, ALPHA)?;
    let Ok(beta) = line_of(alloc, BETA) else {
        drop(alpha);
        return Err(AllocError);
    };
    both(
        alloc,
        outside(
            clock,
            alpha,
            emitted,
            &emitted.alpha,
            &emitted.now,
            &emitted.beta,
        ),
        outside(
            clock,
            beta,
            emitted,
            &emitted.beta,
            &emitted.beta,
            &emitted.alpha,
        ),
    )
}

/// What came of both orders.
#[derive(Clone, Copy, Debug, PartialEq, Eq)]
struct Answered {
    taken: usize,
    alpha: bool,
    beta: bool,
    gave_up: bool,
}

// ALPHA's first turn lasts until BETA's order is answered, and BETA's next one until ALPHA's is.
fn answered_side_by_side<R: Threads + Wait + Send + Sync + Clock + Copy + Drop>(
    rt: &R,
    alloc: Global,
) -> Result<Answered, ScenarioFault> {
    let emitted = nothing_emitted();
    let lines = lines_of(alloc, *rt, &emitted)?;
    let clock = PacedClock::new(*rt, start(), 0, &emitted.now);
    let outcome = run_for_two(rt, alloc, lines, clock, TURNS)?;
    Ok(Answered {
        taken: outcome.taken,
        alpha: emitted.alpha.is_given(),
        beta: emitted.beta.is_given(),
        gave_up: emitted.gave_up.is_given(),
    })
}

#[test]
fn two_sessions_and_the_worker_run_side_by_side(rt: HostRuntime) {
    let answered = answered_side_by_side(&rt, rt.alloc());
    let both = Answered {
        taken: 2,
        alpha: true,
        beta: true,
        gave_up: false,
    };
    assert_eq!(rt; answered, Ok(both));
}
