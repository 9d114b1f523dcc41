//! A session that is fed by a reader.

use crate::moments::start;
use crate::session::running::new_session;
use anyhow::{Result, bail};
use fix_session::{Session, Step};
use sef_moment::Moment;
use std::alloc::{AllocError, Global};
use std::io::Read;

/// How many bytes are received at once.
const PIECE: usize = 4_096;

/// What was taken of a session.
#[derive(Clone, Copy)]
pub struct Taken {
    pub frames: u64,
    pub orders: u64,
    /// The bytes that the session wrote.
    pub written: u64,
}

impl Taken {
    /// What was taken, in words.
    pub fn text(self, alloc: Global) -> Result<String, AllocError> {
        format!(in alloc;
            "frames: {}, orders: {}, bytes written: {}",
            self.frames, self.orders, self.written
        )
    }
}

/// Does what the next frame asks, and drops an order that it made ready. No frame is left where the answer is false.
fn take_next(session: &mut Session, t: Moment, taken: &mut Taken) -> Result<bool> {
    match session.step(t)? {
        Step::Idle => return Ok(false),
        Step::Did => {}
        Step::App(_) => {
            session.pop_ready();
            taken.orders = taken.orders.saturating_add(1);
        }
        Step::Dropped(why) => bail!("the line was dropped: {why:?}"),
    }
    taken.frames = taken.frames.saturating_add(1);
    Ok(true)
}

/// Receives a piece, in which no more frames than bytes can end.
fn hear(session: &mut Session, piece: &[u8], t: Moment, taken: &mut Taken) -> Result<()> {
    session.push_bytes(piece)?;
    for _ in 0..=piece.len() {
        if !take_next(session, t, taken)? {
            break;
        }
    }
    taken.written = taken
        .written
        .saturating_add(session.take_wire().len() as u64);
    Ok(())
}

// Receives all that a reader gives.
fn hear_all<R: Read>(session: &mut Session, reader: &mut R, t: Moment) -> Result<Taken> {
    let mut taken = Taken {
        frames: 0,
        orders: 0,
        written: 0,
    };
    let mut buffer = [0u8; PIECE];
    for _ in 0..u64::MAX {
        let count = reader.read(&mut buffer)?;
        if count == 0 {
            break;
        }
        hear(session, &buffer[..count], t, &mut taken)?;
    }
    Ok(taken)
}

/// What a session with a line that is up takes of all that a reader gives.
pub fn feed<R: Read>(alloc: Global, reader: &mut R) -> Result<Taken> {
    let t = start();
    let mut session = new_session(alloc, "SEF", "ALPHA")?;
    session.resume(t);
    let taken = hear_all(&mut session, reader, t);
    drop(session);
    taken
}
