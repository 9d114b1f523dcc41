//! A small market for examples and tests: five participants, two instruments.

ghost use Rattle.std.specs.Prelude.{◌≡◌, true, IfOk};
ghost use Rattle.instruments.specs.Rows.{is_delay};
ghost use Rattle.venue_rules.specs.Fixture.{fixture_instrument, fixture_instruments, fixture_participants};

use instruments::{Instrument, Instruments, Symbol};
use participants::{Name, Participants, Who};
use std::alloc::{AllocError, Global};

/// The venue SEF with ALPHA, BETA, GAMMA, DELTA and EPSILON; BETA and GAMMA are related.
pub fn fixture_participants(alloc: Global) -> Result<Participants, AllocError>
    ensures { IfOk result (λ file. file ≡ fixture_participants) }
{
    let venue = Name::from_slice(alloc, b"SEF")?;
    let names = vec![in alloc;
        Name::from_slice(alloc, b"ALPHA")?,
        Name::from_slice(alloc, b"BETA")?,
        Name::from_slice(alloc, b"GAMMA")?,
        Name::from_slice(alloc, b"DELTA")?,
        Name::from_slice(alloc, b"EPSILON")?,
    ]?;
    let pairs = vec![in alloc; (Who::of(1), Who::of(2))]?;
    Participants::from_rows(alloc, venue, names, pairs)
}

/// Tick 0.0025, least quantity 1, requests open for 30 seconds.
fn fixture_instrument(symbol: Symbol, delay: u64) -> Instrument
    ensures { result ≡ fixture_instrument symbol delay }
{
    Instrument {
        symbol,
        tick: 2_500,
        least: 1,
        request_life: 30,
        delay,
    }
}

/// IRS5Y and BASIS1Y; `delay` between linked orders, in milliseconds: 1,000 to 3,600,000.
pub fn fixture_instruments(alloc: Global, delay: u64) -> Result<Instruments, AllocError>
    requires { is_delay delay ≡ true }
    ensures { IfOk result (λ file. file ≡ fixture_instruments delay) }
{
    let swap = Symbol::from_slice(alloc, b"IRS5Y")?;
    let basis = Symbol::from_slice(alloc, b"BASIS1Y")?;
    let rows = vec![in alloc;
        fixture_instrument(swap, delay),
        fixture_instrument(basis, delay),
    ]?;
    Instruments::from_rows(alloc, rows)
}
