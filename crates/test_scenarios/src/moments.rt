//! The moments of a transcript.

use sef_moment::Moment;

/// The moment from which those of a session, a venue and a world count, in milliseconds: 3 March 2025, 14:30 UTC.
pub const START: u64 = 1_741_012_200_000;

/// That moment.
pub fn start() -> Moment {
    match Moment::of_ms(START) {
        Some(moment) => moment,
        None => unreachable!(),
    }
}

/// The moment this many milliseconds after 1970.
pub fn moment_in(text: &str) -> Option<Moment> {
    Moment::of_ms(text.parse::<u64>().ok()?)
}

/// The moment this many milliseconds after the start.
pub fn moment_after(text: &str) -> Option<Moment> {
    let after = text.parse::<u64>().ok()?;
    Moment::of_ms(START.checked_add(after)?)
}
