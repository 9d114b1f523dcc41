//! The fixture of the tests.
ghost use Rattle.std.specs.Prelude.{◌≡◌, IfOk};
ghost use Rattle.venue_core.specs.VenueFacts.{IsHistory};
ghost use Rattle.venue_rules.specs.Facts.{no_history};

use gateway::closing::Closed;
use gateway::line::{Gate, Line};
use gateway::threads::RunFault;
use participants::{Name, Participants};
use sef_client::ClientFault;
use std::alloc::{AllocError, Global};
use std::mem::drop;
use std::sync::Wait;
use std::thread::Threads;
use venue_core::Venue;
use venue_rules::{TrailRow, fixture_instruments};
use venue_runtime::run_venue;
use venue_worker::Clock;
use venue_world::ListTrail;

/// The longest delay between linked orders, in milliseconds: no held side comes due during a test.
const LONGEST_DELAY: u64 = 3_600_000;

/// Why a scenario did not come to its end.
#[derive(Clone, Copy, Debug, PartialEq, Eq)]
pub enum ScenarioFault {
    NoMemory,
    /// All ports were taken.
    NoPort,
    /// There was not a line for each participant.
    Lines,
    /// A line of a day is no step.
    Line,
    Run(RunFault),
    Client(ClientFault),
}

impl From<AllocError> for ScenarioFault {
    fn from(_error: AllocError) -> ScenarioFault {
        ScenarioFault::NoMemory
    }
}

impl From<RunFault> for ScenarioFault {
    fn from(fault: RunFault) -> ScenarioFault {
        ScenarioFault::Run(fault)
    }
}

impl From<ClientFault> for ScenarioFault {
    fn from(fault: ClientFault) -> ScenarioFault {
        ScenarioFault::Client(fault)
    }
}

/// These two, in a list.
pub fn both<T: Drop>(alloc: Global, first: T, second: T) -> Result<Vec<T>, AllocError> {
    let mut list = Vec::with_capacity(alloc, 2)?;
    list.push(first)?;
    list.push(second)?;
    Ok(list)
}

/// The venue SEF with ALPHA and BETA, who are not related.
pub fn two_participants(alloc: Global) -> Result<Participants, AllocError> {
    let venue = Name::from_slice(alloc, b"SEF")?;
    let names = vec![in alloc;
        Name::from_slice(alloc, b"ALPHA")?,
        Name::from_slice(alloc, b"BETA")?,
    ]?;
    Participants::from_rows(alloc, venue, names, Vec::new(alloc))
}

/// A venue of these participants and the two instruments of the worked rows, on which nothing has happened.
pub fn new_venue(alloc: Global, participants: Participants) -> Result<Venue, AllocError>
    ensures participants { IfOk result (λ venue. venue.market.participants ≡ participants) }
    ensures history { IfOk result (λ venue. IsHistory venue no_history) }
    ensures items { IfOk result (λ venue. venue.items ≡ 0) }
{
    let Ok(instruments) = fixture_instruments(alloc, LONGEST_DELAY) else {
        drop(participants);
        return Err(AllocError);
    };
    Venue::open(alloc, participants, instruments)
}

/// What a venue had as it was closed.
#[derive(Clone, Copy, Debug, PartialEq, Eq)]
pub struct Outcome {
    pub sessions: usize,
    /// How many messages were taken.
    pub taken: usize,
    /// The numbers (34) of the first two of its rows, and 0 where there is none.
    pub numbers: [u32; 2],
}

// How many of these rows are messages; the others are ticks.
fn messages_in(rows: &[TrailRow]) -> usize {
    rows.iter().filter(|row| row.who != 0).count()
}

// The number of the row at this place, if there is one.
fn number_at(rows: &[TrailRow], place: usize) -> u32 {
    match rows.get(place) {
        Some(row) => row.number,
        None => 0,
    }
}

fn outcome_of<L: Drop>(closed: Closed<L, ListTrail>) -> Outcome {
    let rows = closed.keeper.rows();
    let outcome = Outcome {
        sessions: closed.sessions.len(),
        taken: messages_in(rows),
        numbers: [number_at(rows, 0), number_at(rows, 1)],
    };
    drop(closed);
    outcome
}

/// Runs a venue on which nothing has happened, with the two instruments of the worked rows, over rows in memory. There
/// is to be a line for each participant.
pub fn run_afresh<
    R: Threads + Wait + Sync,
    L: Line + Send + Drop,
    C: Clock + Send + Drop,
    G: Gate + Send + Drop,
    W: Clock + Drop,
>(
    rt: &R,
    alloc: Global,
    participants: Participants,
    lines: Vec<(L, C, G)>,
    clock: W,
    turns: u64,
) -> Result<Outcome, ScenarioFault> {
    if lines.len() != participants.len() {
        drop(lines);
        drop(participants);
        return Err(ScenarioFault::Lines);
    }
    let venue = new_venue(alloc, participants)?;
    let trail = ListTrail::new(alloc);
    let (closed, _) = run_venue(rt, alloc, venue, trail, lines, clock, turns)?;
    Ok(outcome_of(closed))
}

/// The same for ALPHA and BETA.
pub fn run_for_two<
    R: Threads + Wait + Sync,
    L: Line + Send + Drop,
    C: Clock + Send + Drop,
    G: Gate + Send + Drop,
    W: Clock + Drop,
>(
    rt: &R,
    alloc: Global,
    lines: Vec<(L, C, G)>,
    clock: W,
    turns: u64,
) -> Result<Outcome, ScenarioFault> {
    let participants = two_participants(alloc)?;
    run_afresh(rt, alloc, participants, lines, clock, turns)
}
