//! The worker's times: the rest of a venue that closes, and the steps of its clock. All are milliseconds.
ghost use Rattle.std.specs.Prelude.{◌≡◌};
ghost use Rattle.tcp_line.specs.Endings as endings;

use crate::events::ClockStep;

/// The time without a message moved after which all that was heard is answered.
const QUIET_MS: u64 = 500;

/// The time after which a venue that closes ends, whatever moves. Each session may have a thousand messages that were
/// heard, for which a slow disk takes its time.
const MAX_CLOSING_MS: u64 = 120_000;

/// The time between two looks at the stop and the clock.
const LOOK_MS: u64 = 500;

/// The step of a clock that is reported.
const MIN_STEP_MS: u64 = 2_000;

// Whether a venue that has closed for this time, and moved nothing for that, ends.
fn is_at_rest(closing: u64, quiet: u64) -> bool
    ensures { result ≡ endings.is_at_rest closing quiet }
{
    quiet >= QUIET_MS || closing >= MAX_CLOSING_MS
}

/// The closing of a venue.
#[derive(Clone, Copy)]
pub(crate) struct ClosingTimer {
    /// None before it began.
    since: Option<u64>,
    moved: u64,
}

impl ClosingTimer {
    pub(crate) fn new() -> ClosingTimer {
        ClosingTimer {
            since: None,
            moved: 0,
        }
    }

    /// The closing begins.
    pub(crate) fn begin(&mut self, now: u64) {
        self.since = Some(now);
        self.moved = now;
    }

    pub(crate) fn has_begun(&self) -> bool {
        self.since.is_some()
    }

    /// Whether the venue ends, after a turn that moved a message or did not.
    pub(crate) fn is_at_rest(&mut self, now: u64, has_progressed: bool) -> bool {
        let Some(since) = self.since else {
            return false;
        };
        if has_progressed {
            self.moved = now;
        }
        is_at_rest(now.saturating_sub(since), now.saturating_sub(self.moved))
    }
}

// The step of a clock that went on by this while another one, which never goes back, went on by that.
fn step_of(from: u64, to: u64, passed: u64) -> Option<(ClockStep, u64)>
    ensures { result ≡ endings.step_of from to passed }
{
    let due = from.saturating_add(passed);
    if to >= due.saturating_add(MIN_STEP_MS) {
        return Some((ClockStep::Forth, to - due));
    }
    if due >= to.saturating_add(MIN_STEP_MS) {
        return Some((ClockStep::Back, due - to));
    }
    None
}

/// Looks at a clock for steps.
#[derive(Clone, Copy)]
pub(crate) struct StepMeter {
    /// Both clocks at the last look; none before the first.
    last: Option<(u64, u64)>,
}

impl StepMeter {
    pub(crate) fn new() -> StepMeter {
        StepMeter { last: None }
    }

    /// Whether it is time to look.
    pub(crate) fn is_due(&self, moment: u64) -> bool {
        match self.last {
            None => true,
            Some((last, _)) => moment < last || moment - last >= LOOK_MS,
        }
    }

    /// The step since the last look.
    pub(crate) fn step_to(&mut self, moment: u64, now: u64) -> Option<(ClockStep, u64)> {
        let last = self.last;
        self.last = Some((moment, now));
        match last {
            None => None,
            Some((from, since)) => step_of(from, moment, now.saturating_sub(since)),
        }
    }
}
