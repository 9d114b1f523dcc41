//! What the clients of a day wait for, and the signals that they get.

use super::signal::Signal;

// What a message is held back for.
#[derive(Clone, Copy)]
enum Until {
    /// How many application messages were written to the client at this place.
    Emitted(usize, u64),
    /// A client gave its connection up.
    Broken,
}

// A part of a message, and what the message is held back for.
type Cue = (&'static str, Until);

const ALPHA: usize = 0;

const DELTA: usize = 3;

const EPSILON: usize = 4;

/// The scenarios with cues.
#[derive(Clone, Copy)]
pub enum Plan {
    TwoOrders,
    FiveClients,
}

// DELTA sells once ALPHA has the report that its order is new.
const OF_TWO_ORDERS: [Cue; 1] = [("11=d1", Until::Emitted(ALPHA, 1))];

// What orders the steps of different clients in `five_clients`.
const OF_FIVE_CLIENTS: [Cue; 6] = [
    ("11=d1", Until::Emitted(ALPHA, 1)),
    ("262=v1", Until::Emitted(ALPHA, 3)),
    ("131=q0", Until::Emitted(EPSILON, 8)),
    ("117=bq", Until::Emitted(ALPHA, 6)),
    ("117=eq", Until::Emitted(ALPHA, 7)),
    ("11=d2", Until::Broken),
];

// ALPHA reconnects once DELTA has the report of the trade that ALPHA missed.
const AGAIN: Until = Until::Emitted(DELTA, 7);

fn cues_of(plan: Plan) -> &'static [Cue] {
    match plan {
        Plan::TwoOrders => &OF_TWO_ORDERS,
        Plan::FiveClients => &OF_FIVE_CLIENTS,
    }
}

/// A day of five clients.
#[derive(Drop)]
pub struct Day {
    /// The application messages that were written to each client.
    emitted: [Signal; 5],
    /// A client gave its connection up.
    pub broken: Signal,
    /// The day is over.
    pub over: Signal,
    plan: Plan,
}

// Whether one text is a part of another.
fn has(bytes: &[u8], part: &[u8]) -> bool {
    for at in 0..bytes.len() {
        if bytes[at..].starts_with(part) {
            return true;
        }
    }
    false
}

impl Day {
    pub fn new(plan: Plan) -> Day {
        Day {
            emitted: [
                Signal::new(),
                Signal::new(),
                Signal::new(),
                Signal::new(),
                Signal::new(),
            ],
            broken: Signal::new(),
            over: Signal::new(),
            plan,
        }
    }

    /// The signal of the messages to the client at this place; past the last client, of the end of the day.
    pub fn emitted(&self, client: usize) -> &Signal {
        match self.emitted.get(client) {
            Some(signal) => signal,
            None => &self.over,
        }
    }

    fn has_come(&self, until: Until) -> bool {
        match until {
            Until::Emitted(client, times) => self.emitted(client).times() >= times,
            Until::Broken => self.broken.is_given(),
        }
    }

    /// Whether nothing holds this message back.
    pub fn lets(&self, message: &[u8]) -> bool {
        for (part, until) in cues_of(self.plan) {
            if has(message, part.as_bytes()) && !self.has_come(*until) {
                return false;
            }
        }
        true
    }

    /// Whether a client that gave its connection up may call again.
    pub fn lets_call_again(&self) -> bool {
        self.has_come(AGAIN)
    }
}
