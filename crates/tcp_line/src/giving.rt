//! Writes to the system: all bytes, within a limited time.
ghost use Rattle.std.specs.Prelude.{◌≡◌, MatchResult};
ghost use Rattle.std.specs.Io.KnownBytes.{Appends};
ghost use Rattle.tcp_line.specs.Link.{TookPart};

use gateway::line::LineFault;
use std::io::{ErrorKind, Write};
use std::time::{Clock, Duration, Instant};
use std::{io, thread};

/// The time that a peer which does not read is waited for, in seconds.
const MAX_WAIT_SECONDS: u64 = 5;

/// The pause after the system took nothing, in microseconds.
const PAUSE: u64 = 50;

/// The greatest count of tries, whatever the clock answers.
const MAX_TRIES: u64 = 1_000_000;

/// Gives all of these bytes to the system, or a first part of them and then reports a fault. Where the system takes
/// nothing it is asked again after a pause, for five seconds.
pub(crate) fn give<O: Write, T: Clock>(
    clock: &T,
    output: &mut O,
    bytes: &[u8],
) -> Result<(), LineFault>
    ensures { MatchResult result (λ _. Appends (O.contents output.old) (O.contents output.new) bytes.now) (λ _. TookPart (O.contents output.old) (O.contents output.new) bytes.now) }
{
    let mut park = bytes;
    let mut waited_since = None;
    for _ in 0..MAX_TRIES {
        if park.is_empty() {
            return Ok(());
        }
        match output.write(park) {
            Ok(0) => return Err(LineFault),
            Ok(count) => park = &park[count..],
            Err(error) => {
                if !may_try_again(clock, error.kind(), &mut waited_since) {
                    return Err(LineFault);
                }
            }
        }
    }
    Err(LineFault)
}

// Whether a write that took nothing is to be tried again: after a signal at once, and where the system's buffer is full
// after a pause, unless it was full for too long.
fn may_try_again<T: Clock>(clock: &T, kind: ErrorKind, waited_since: &mut Option<Instant>) -> bool {
    match kind {
        ErrorKind::Interrupted => true,
        ErrorKind::WouldBlock => {
            let Ok(now) = Instant::now(clock) else {
                return false;
            };
            let began = *waited_since.get_or_insert(now);
            if now.duration_since(began) >= Duration::from_secs(MAX_WAIT_SECONDS) {
                return false;
            }
            thread::sleep(clock, Duration::from_micros(PAUSE));
            true
        }
        _ => false,
    }
}
