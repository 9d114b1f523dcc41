//! Numbering, storing and resending a counterparty's messages.

ghost use Rattle.std.specs.Prelude.{◌≡◌, ◌+◌, IfSome, length};

use crate::frames::{CompIds, Frames};
use fix_dictionary::{
    Admin, App, BodyRef, Header, NewSequenceNumber, ResendRequest, SequenceNumber, SequenceReset,
};
use resend_store::{Resend, Store};
use sef_moment::Moment;
use std::alloc::{AllocError, Global};

/// The greatest sequence number (34).
const MAX_SEQ_NUM: u32 = 999_999_999;

/// The messages that a counterparty numbered, stored for resends, and the frames that wait to be written.
#[derive(Drop)]
pub(crate) struct Outgoing {
    ids: CompIds,
    store: Store,
    frames: Frames,
}

// The SequenceReset of a gap fill up to this number.
fn gap_fill(new: NewSequenceNumber) -> Admin {
    Admin::SequenceReset(SequenceReset {
        gap_fill: Some(true),
        new_number: new,
    })
}

// Queues a resend: a message under its old number, with the moment of its first sending, or a gap fill.
fn queue_again(
    frames: &mut Frames,
    ids: &CompIds,
    resend: &Resend,
    t: Moment,
) -> Result<(), AllocError> {
    match resend {
        Resend::Repeat {
            number,
            app,
            first_sent,
        } => frames.append(ids, *number, t, Some(*first_sent), BodyRef::App(app)),
        Resend::GapFill { number, new } => {
            let fill = gap_fill(*new);
            frames.append(ids, *number, t, Some(t), BodyRef::Admin(&fill))
        }
    }
}

impl Outgoing {
    /// Nothing numbered yet.
    pub(crate) fn new(alloc: Global, ids: CompIds) -> Outgoing {
        Outgoing {
            ids,
            store: Store::new(alloc),
            frames: Frames::new(alloc),
        }
    }

    /// The frames that wait to be written.
    pub(crate) fn waiting(&self) -> &[u8] {
        &self.frames.bytes
    }

    /// Drops the frames that wait.
    pub(crate) fn clear(&mut self) {
        self.frames.clear();
    }

    /// Whether a header has the peer as its sender (49) and us as its target (56).
    pub(crate) fn is_to_us(&self, header: &Header) -> bool {
        header.sender.is(&self.ids.peer) && header.target.is(&self.ids.own)
    }

    // The next number, if one is left.
    fn next_number(&self) -> Option<SequenceNumber>
        ensures { IfSome result (λ number. number ≡ length self.now.store.entries + 1) }
    {
        let number = self.store.next_number();
        if number > MAX_SEQ_NUM {
            return None;
        }
        Some(SequenceNumber::new(number))
    }

    /// Numbers a session message and queues its frame, where a number is left.
    pub(crate) fn send_admin(&mut self, admin: &Admin, t: Moment) -> Result<(), AllocError> {
        let Some(number) = self.next_number() else {
            return Ok(());
        };
        if self.store.add_admin(number.get()).is_err() {
            return Err(AllocError);
        }
        self.frames
            .append(&self.ids, number, t, None, BodyRef::Admin(admin))
    }

    /// Numbers and stores an application message, where a number is left, and queues its frame where that is to be
    /// written.
    pub(crate) fn send_app(
        &mut self,
        app: &App,
        t: Moment,
        is_written: bool,
    ) -> Result<(), AllocError> {
        let Some(number) = self.next_number() else {
            return Ok(());
        };
        if self.store.add_app(number.get(), app, t).is_err() {
            return Err(AllocError);
        }
        if !is_written {
            return Ok(());
        }
        self.frames
            .append(&self.ids, number, t, None, BodyRef::App(app))
    }

    /// Queues what the peer asks for again: each application message under its old number, with 43=Y and the moment of
    /// its first sending (122), and a gap fill for each run of session messages.
    pub(crate) fn send_again(&mut self, asked: ResendRequest, t: Moment) -> Result<(), AllocError> {
        let mut resends = self.store.resends(asked.begin(), asked.end().get());
        while let Some(resend) = resends.next() {
            queue_again(&mut self.frames, &self.ids, &resend, t)?;
        }
        Ok(())
    }
}
