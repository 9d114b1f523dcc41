//! The ports of a served venue, and its count of turns.

ghost use Rattle.std.specs.Prelude.{◌≡◌, ◌≤◌, IfSome, is_some};
ghost use Rattle.venue_main.specs.Serve.{is_service};

/// The least and the greatest port of the first participant.
const FIRST_PORT: u64 = 1_024;

const LAST_PORT: u64 = 65_500;

/// The greatest count of turns.
const MAX_TURNS: u64 = 1_000_000_000;

/// The ports of a served venue, and its count of turns.
#[derive(Clone, Copy)]
pub struct Service {
    /// The first participant's; each other has the next.
    port: u16,
    /// For each session's thread, and for the worker.
    turns: u64,
    ghost last_port: { port ≤ 65_500 },
}

impl Service {
    /// A port from 1,024 to 65,500, and 1 to 1,000,000,000 turns; none for others.
    pub fn of(port: u64, turns: u64) -> Option<Service>
        ensures range { is_some result ≡ is_service port turns }
        ensures given { IfSome result (λ s. (s.port ≡ port) × (s.turns ≡ turns)) }
    {
        if port < FIRST_PORT || port > LAST_PORT {
            return None;
        }
        if turns < 1 || turns > MAX_TURNS {
            return None;
        }
        Some(Service {
            port: port as u16,
            turns,
        })
    }

    pub fn port(&self) -> u16
        ensures value { result ≡ self.now.port }
        ensures last { result ≤ 65_500 }
    {
        self.port
    }

    pub fn turns(&self) -> u64
        ensures { result ≡ self.now.turns }
    {
        self.turns
    }
}
