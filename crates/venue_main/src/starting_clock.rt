//! The clock at the start of a venue whose trail has rows: no row may be earlier than the last.

ghost use Rattle.std.specs.Prelude.{◌≡◌, ◌≤◌, ◌<◌, ◌+◌, ◌-◌, IfOk, IfErr};

use sef_moment::{Moment, print_utc};
use std::fmt::{self, Debug, Display, Formatter, Write};
use std::thread;
use std::time::{Clock, Duration};

/// The most that the clock may be behind the last row, in milliseconds: steps from there on are events of a running
/// venue.
const MAX_BEHIND_MS: u64 = 2_000;

/// How often a clock that was waited for may still be behind.
const MAX_WAITS: u32 = 10;

/// A clock that is behind the last row.
#[derive(Clone, Copy, PartialEq, Eq)]
pub struct ClockFault {
    /// The moment of the last row.
    pub last: Moment,
    /// What the clock shows.
    pub shown: Moment,
    ghost behind: { shown < last },
}

impl Display for ClockFault {
    fn fmt<W: Write>(&self, f: &mut Formatter<W>) -> fmt::Result {
        let last = print_utc(self.last);
        let shown = print_utc(self.shown);
        let (Ok(last), Ok(shown)) = (str::from_utf8(&last), str::from_utf8(&shown)) else {
            return Ok(());
        };
        write!(f, "the last row is of {last}, and the clock shows {shown}")
    }
}

impl Debug for ClockFault {
    fn fmt<W: Write>(&self, f: &mut Formatter<W>) -> fmt::Result {
        Display::fmt(self, f)
    }
}

/// The moment that a clock shows: the start of 1970 where it cannot be read.
pub(crate) fn moment_of<T: Clock>(clock: &T) -> Moment {
    let start = Moment::EPOCH;
    match clock.since_1970() {
        Ok(elapsed) => start.plus(elapsed.as_millis().min(u64::MAX as u128) as u64),
        Err(_) => start,
    }
}

/// How many milliseconds a clock has to go on until it is not behind the last row, or how it is too far behind.
fn wait_before(last: Moment, shown: Moment) -> Result<u64, ClockFault>
    ensures wait { IfOk result (λ ms. ms ≡ last - shown) }
    ensures near { IfOk result (λ ms. ms ≤ 2_000) }
    ensures moments { IfErr result (λ fault. (fault.last ≡ last) × (fault.shown ≡ shown)) }
    ensures far { IfErr result (λ _. shown + 2_000 < last) }
{
    let ms = last.ms().saturating_sub(shown.ms());
    if ms > MAX_BEHIND_MS {
        return Err(ClockFault { last, shown });
    }
    Ok(ms)
}

/// Waits until a clock is not behind the last row. It is not waited for where it is more than two seconds behind, nor
/// where it does not go on.
pub fn await_clock<T: Clock>(clock: &T, last: Moment) -> Result<(), ClockFault>
    ensures { IfErr result (λ fault. fault.last ≡ last) }
{
    for _ in 0..MAX_WAITS {
        let ms = match wait_before(last, moment_of(clock)) {
            Ok(ms) => ms,
            Err(fault) => return Err(fault),
        };
        if ms == 0 {
            return Ok(());
        }
        thread::sleep(clock, Duration::from_millis(ms));
    }
    let shown = moment_of(clock);
    if shown.ms() < last.ms() {
        return Err(ClockFault { last, shown });
    }
    Ok(())
}
