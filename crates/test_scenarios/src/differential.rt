//! Differential test: frames through the world, and through the sessions alone and the venue alone.

mod apart;
mod batch;
mod market;
pub mod running;
mod sent;
mod sessions;
mod together;

/// What a message takes in each of the three, in nanoseconds, by these places.
type Turn = [u64; 3];

/// The place of what it takes in the world.
const WORLD: usize = 0;

/// Of what it takes in the sessions alone.
const SESSIONS: usize = 1;

/// Of what it takes in the venue alone.
const VENUE: usize = 2;
