//! The account of a line, for contracts alone, and the count of its faults.
ghost use Rattle.std.specs.Prelude.{◌≡◌, ◌^◌, ◌-◌, [], ◌∷◌, ◌++◌, min};
ghost use Rattle.gateway.specs.Said.{fault_of, faults_in};
ghost use Rattle.gateway.specs.Memory.{said_of, fault_count};

use gateway::line::Accept;
use gateway::mem_line::LineEvent;
use gateway::piece::Given;
use ghost_history::GhostHistory;
use std::marker::Model;

/// The account of a line. Contracts see all of it; only the count of faults takes memory.
pub struct LineLog {
    past: GhostHistory<LineEvent>,
    faults: u64,
    ghost counted: { faults ≡ min (fault_count past) (2 ^ 64 - 1) },
}

// Written-out drop (docs/ARCHITECTURE.md).
impl Drop for LineLog {
    fn drop(self) {
        let LineLog {
            past: _past,
            faults: _faults,
        } = self;
    }
}

impl Model for LineLog {
    ghost use Rattle.std.specs.Prelude.{List};
    ghost use Rattle.gateway.specs.Said.{Said};
    ghost use Rattle.gateway.specs.Memory.{said_in};

    ghost Value = { List Said };

    ghost view = { λ a. said_in a.past };
}

impl LineLog {
    /// The account of a line without events.
    pub fn new() -> LineLog
        ensures { result ≡ [] }
    {
        LineLog {
            past: GhostHistory::new(),
            faults: 0,
        }
    }

    /// Adds an event.
    pub fn note(&mut self, spoken: LineEvent)
        ensures { self.new ≡ self.old ++ said_of spoken ∷ [] }
    {
        let faults = faults_of(&spoken);
        self.past.add(&spoken);
        self.faults = self.faults.saturating_add(faults);
    }

    /// The count of faults reported; it saturates.
    pub fn faults(&self) -> u64
        ensures { result ≡ min (faults_in self.now) (2 ^ 64 - 1) }
    {
        self.faults
    }
}

// 1 for a fault, else 0.
fn faults_of(spoken: &LineEvent) -> u64
    ensures { result ≡ fault_of (said_of spoken.now) }
{
    match spoken {
        LineEvent::Accepted { answer } => match answer {
            Accept::Fault => 1,
            Accept::Up => 0,
            Accept::Quiet => 0,
            Accept::Over => 0,
        },
        LineEvent::Gave { given } => match given {
            Given::Fault => 1,
            Given::Got { piece: _ } => 0,
            Given::Quiet => 0,
            Given::Ended => 0,
        },
        LineEvent::Took { bytes: _ } => 0,
        LineEvent::BrokeOff { bytes: _ } => 1,
    }
}
