//! The worked items: a request for quotes, by which one trade is made.
ghost use Rattle.std.specs.Prelude.{◌≡◌, IfOk};

use crate::scenario::{Scenario, start_moment};
use anyhow::{Result, anyhow};
use fix_decoder::read_app;
use fix_dictionary::{BoxedApp, Item, SequenceNumber};
use fix_fields::{FieldFault, split};
use fix_validation::DictFault;
use sef_moment::Moment;
use std::alloc::{AllocError, Global};
use venue_rules::{RowText, TrailRow};

/// A message of a participant, or a tick.
#[derive(Clone, Copy)]
pub struct Sent {
    /// The participant's place, counted from 1; 0 for a tick.
    pub who: u32,
    /// The era of its session; 0 for a tick.
    pub era: u32,
    /// Its number (34).
    pub number: u32,
    /// Milliseconds after the start.
    pub later: u64,
    pub text: &'static str,
}

impl Sent {
    /// The participant's place, counted from 0.
    pub fn place(&self) -> usize {
        (self.who as usize).saturating_sub(1)
    }

    /// When it comes.
    pub fn moment(&self) -> Moment {
        start_moment().plus(self.later)
    }
}

/// A request for quotes to four participants, three quotes of which the first is off tick, a response that is late, one
/// that trades, and one too many.
pub const ITEMS: [Sent; 7] = [
    Sent {
        who: 1,
        era: 1,
        number: 2,
        later: 0,
        text: "35=R\x01131=q1\x01146=1\x0155=IRS5Y\x0154=1\x0138=100\x01453=4\x01448=BETA\x01447=D\x01452=35\x01448=GAMMA\x01447=D\x01452=35\x01448=DELTA\x01447=D\x01452=35\x01448=EPSILON\x01447=D\x01452=35\x01",
    },
    Sent {
        who: 2,
        era: 1,
        number: 2,
        later: 0,
        text: "35=S\x01117=b1\x01131=R1\x0155=IRS5Y\x01133=2.501\x01",
    },
    Sent {
        who: 2,
        era: 1,
        number: 3,
        later: 0,
        text: "35=S\x01117=b1\x01131=R1\x0155=IRS5Y\x01133=2.5025\x0162=20250303-14:30:10.000\x01",
    },
    Sent {
        who: 4,
        era: 1,
        number: 2,
        later: 0,
        text: "35=S\x01117=d1\x01131=R1\x0155=IRS5Y\x01133=2.5\x01",
    },
    Sent {
        who: 1,
        era: 1,
        number: 3,
        later: 10_001,
        text: "35=AJ\x01693=h1\x01117=Q1\x01694=1\x01",
    },
    Sent {
        who: 1,
        era: 1,
        number: 4,
        later: 30_000,
        text: "35=AJ\x01693=h2\x01117=Q2\x01694=1\x0154=1\x01",
    },
    Sent {
        who: 1,
        era: 1,
        number: 5,
        later: 30_000,
        text: "35=AJ\x01693=h2\x01117=Q2\x01694=1\x0154=1\x01",
    },
];

/// A cross, of which the first side is entered at once, and the second fifteen seconds later.
pub const CROSS: Sent = Sent {
    who: 1,
    era: 1,
    number: 6,
    later: 30_000,
    text: "35=s\x01548=c1\x01549=4\x01550=1\x01552=2\x0154=1\x0111=x1\x0138=10\x0154=2\x0111=x2\x0138=10\x0155=IRS5Y\x0140=2\x0144=2.5\x01",
};

/// A tick, after the last of the items.
const TICK: Sent = Sent {
    who: 0,
    era: 0,
    number: 0,
    later: 30_000,
    text: "",
};

/// The item with this number, counted from 1, and a tick after the last.
pub fn item(n: u64) -> Sent {
    match ITEMS.get(n.saturating_sub(1) as usize) {
        Some(sent) => *sent,
        None => TICK,
    }
}

/// The row of an item.
pub fn row_of(alloc: Global, n: u64, sent: &Sent) -> Result<TrailRow, AllocError>
    ensures { IfOk result (λ row. row.n ≡ n) }
{
    let text = Vec::from_slice(alloc, sent.text.as_bytes())?;
    Ok(TrailRow {
        n,
        who: sent.who,
        era: sent.era,
        number: sent.number,
        moment: sent.moment(),
        text: RowText::from_vec(text),
    })
}

/// The row of an item, made again where an allocation failed.
pub fn new_row(scenario: &mut Scenario, n: u64, sent: &Sent) -> Result<TrailRow>
    ensures { IfOk result (λ row. row.n ≡ n) }
{
    if let Ok(row) = row_of(scenario.alloc, n, sent) {
        return Ok(row);
    }
    scenario.refused()?;
    Ok(row_of(scenario.alloc, n, sent)?)
}

fn is_row_of(row: &TrailRow, n: u64, sent: &Sent) -> bool {
    row.n == n
        && row.who == sent.who
        && row.era == sent.era
        && row.number == sent.number
        && row.moment == sent.moment()
        && row.text.as_slice() == sent.text.as_bytes()
}

/// How many rows there are, if they are the items and then ticks.
pub fn items_in(rows: &[TrailRow]) -> Option<u64> {
    let mut n = 0u64;
    for row in rows {
        n = n.saturating_add(1);
        if !is_row_of(row, n, &item(n)) {
            return None;
        }
    }
    Some(n)
}

// The message that a text spells.
fn app_in(alloc: Global, text: &str) -> Result<Option<BoxedApp>, AllocError> {
    let fields = match split(alloc, text.as_bytes()) {
        Ok(fields) => fields,
        Err(FieldFault::NoMemory) => return Err(AllocError),
        Err(_) => return Ok(None),
    };
    match read_app(alloc, &fields) {
        Ok(app) => Ok(Some(BoxedApp::new(alloc, app)?)),
        Err(DictFault::NoMemory) => Err(AllocError),
        Err(_) => Ok(None),
    }
}

/// The message as its session hands it over, if it is one.
pub fn message_of(alloc: Global, sent: &Sent) -> Result<Option<Item>, AllocError> {
    if sent.number < 1 || 999_999_999 < sent.number {
        return Ok(None);
    }
    let Some(app) = app_in(alloc, sent.text)? else {
        return Ok(None);
    };
    Ok(Some(Item {
        era: sent.era,
        number: SequenceNumber::new(sent.number),
        app,
    }))
}

// The same, made again where an allocation failed.
fn message_again(scenario: &mut Scenario, sent: &Sent) -> Result<Option<Item>> {
    if let Ok(message) = message_of(scenario.alloc, sent) {
        return Ok(message);
    }
    scenario.refused()?;
    Ok(message_of(scenario.alloc, sent)?)
}

/// The message as its session hands it over, made again where an allocation failed.
pub fn new_message(scenario: &mut Scenario, sent: &Sent) -> Result<Item> {
    match message_again(scenario, sent)? {
        Some(message) => Ok(message),
        None => Err(anyhow!("no message")),
    }
}
