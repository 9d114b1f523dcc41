//! The participants' sessions, without the world.

use crate::differential::market::Addressed;
use crate::differential::sent::Sent;
use anyhow::{Result, bail};
use fix_session::{Session, Step};
use participants::Participants;
use sef_moment::Moment;
use std::alloc::{AllocError, Global};
use venue_rules::{Taken, Who, name_identifier};

/// A session for each participant.
#[derive(Drop)]
pub(crate) struct Sessions {
    sessions: Vec<Session>,
}

impl Sessions {
    /// Sessions on lines that are up, with no Logon yet.
    pub(crate) fn open(
        alloc: Global,
        participants: &Participants,
        t: Moment,
    ) -> Result<Sessions, AllocError> {
        let own = name_identifier(participants.venue());
        let mut sessions = Vec::new(alloc);
        for place in 0..participants.len() {
            let peer = name_identifier(participants.name(Who::of(place as u32)));
            let mut session = Session::new(alloc, &own, &peer)?;
            session.resume(t);
            sessions.push(session)?;
        }
        Ok(Sessions { sessions })
    }

    fn of(&mut self, who: Who) -> Result<&mut Session> {
        let place = who.place() as usize;
        if place >= self.sessions.len() {
            bail!("a frame of nobody");
        }
        Ok(&mut self.sessions[place])
    }

    /// The session receives a frame, and the message that it made ready is taken out.
    pub(crate) fn hear(&mut self, sent: &Sent, t: Moment) -> Result<Option<Taken>> {
        let session = self.of(sent.from)?;
        session.push_bytes(&sent.frame)?;
        match session.step(t)? {
            Step::Dropped(_) => bail!("a line was dropped"),
            _ => {}
        }
        let Some(item) = session.pop_ready() else {
            return Ok(None);
        };
        Ok(Some(Taken {
            from: sent.from,
            item,
        }))
    }

    /// The session sends a reply, and what it wrote is appended.
    pub(crate) fn send(
        &mut self,
        addressed: Addressed,
        t: Moment,
        written: &mut Vec<u8>,
    ) -> Result<()> {
        let session = self.of(addressed.to)?;
        if let Err(unsent) = session.send_boxed(addressed.app, t) {
            return Err(unsent.fault.into());
        }
        written.extend_from_slice(&session.take_wire())?;
        Ok(())
    }
}
