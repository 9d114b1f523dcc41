//! The sessions and the venue, each timed by itself.

use crate::differential::market::{Addressed, Market};
use crate::differential::sent::Sent;
use crate::differential::sessions::Sessions;
use crate::differential::{SESSIONS, Turn, VENUE};
use crate::times::since;
use anyhow::Result;
use sef_moment::Moment;
use std::time::Instant;

/// The sessions and the venue, without seats, queues and trail.
#[derive(Drop)]
pub(crate) struct Apart {
    pub(crate) sessions: Sessions,
    pub(crate) market: Market,
}

fn send_all(
    sessions: &mut Sessions,
    all_addressed: Vec<Addressed>,
    t: Moment,
    written: &mut Vec<u8>,
) -> Result<()> {
    for addressed in all_addressed {
        sessions.send(addressed, t, written)?;
    }
    Ok(())
}

fn note_emitted(all_addressed: &[Addressed], sent: &mut Sent) -> Result<()> {
    for addressed in all_addressed {
        sent.emitted.push(addressed.to)?;
    }
    Ok(())
}

/// A frame goes through its session, the message through the venue, and the replies through their sessions.
pub(crate) fn scenario(
    rt: &HostRuntime,
    apart: &mut Apart,
    sent: &mut Sent,
    t: Moment,
    written: &mut Vec<u8>,
    spent: &mut Turn,
) -> Result<()> {
    let start = Instant::now(rt)?;
    let heard = apart.sessions.hear(sent, t)?;
    spent[SESSIONS] = spent[SESSIONS].saturating_add(since(rt, start)?);
    let Some(taken) = heard else {
        return Ok(());
    };
    let start = Instant::now(rt)?;
    let all_addressed = apart.market.answer(rt.alloc(), &taken, t)?;
    spent[VENUE] = spent[VENUE].saturating_add(since(rt, start)?);
    note_emitted(&all_addressed, sent)?;
    let start = Instant::now(rt)?;
    send_all(&mut apart.sessions, all_addressed, t, written)?;
    spent[SESSIONS] = spent[SESSIONS].saturating_add(since(rt, start)?);
    Ok(())
}
