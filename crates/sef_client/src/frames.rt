//! The frames that wait to be written.

ghost use Rattle.std.specs.Prelude.{◌≡◌, [], ◌++◌, OnOk};
ghost use Rattle.fix_dictionary.specs.Lent.{lent_body, lent_header};
ghost use Rattle.sef_client.specs.Sent.{framed, header_of};

use fix_dictionary::{BodyRef, HeaderRef, Identifier, SequenceNumber};
use fix_encoder::print_parts;
use fix_frame::write_frame;
use sef_moment::Moment;
use std::alloc::{AllocError, Global};

/// Sender and target (49, 56).
#[derive(Clone, Copy)]
pub(crate) struct CompIds {
    pub own: Identifier,
    pub peer: Identifier,
}

/// The frames that wait to be written, and the text of the last one, whose memory is reused.
#[derive(Drop)]
pub(crate) struct Frames {
    pub(crate) bytes: Vec<u8>,
    text: Vec<u8>,
}

// The header of a message sent at moment t, with the moment of its first sending where it is resent.
fn header(
    ids: &CompIds,
    number: SequenceNumber,
    t: Moment,
    first_sent: Option<Moment>,
) -> HeaderRef<'_>
    ensures { lent_header result ≡ header_of ids.now number t first_sent }
{
    // 43=Y where the message is resent.
    let possible_duplicate = match first_sent {
        Some(_) => Some(true),
        None => None,
    };
    HeaderRef {
        sender: &ids.own,
        target: &ids.peer,
        number,
        sending_time: t,
        possible_duplicate,
        possible_resend: None,
        original_sending_time: first_sent,
        application_version: None,
    }
}

impl Frames {
    /// No frame waits.
    pub(crate) fn new(alloc: Global) -> Frames
        ensures { result.bytes.items ≡ [] }
    {
        Frames {
            bytes: Vec::new(alloc),
            text: Vec::new(alloc),
        }
    }

    /// Drops all frames.
    pub(crate) fn clear(&mut self)
        ensures { self.new.bytes.items ≡ [] }
    {
        self.bytes.clear();
    }

    /// Appends the frame of a message, with the moment of its first sending where it is resent.
    #[tactic(auto, unfolding(crate::specs::Sent::framed))]
    pub(crate) fn append(
        &mut self,
        ids: &CompIds,
        number: SequenceNumber,
        t: Moment,
        first_sent: Option<Moment>,
        body: BodyRef,
    ) -> Result<(), AllocError>
        ensures { OnOk result (self.new.bytes.items ≡ self.old.bytes.items ++ framed (record { header = header_of ids.now number t first_sent; body = lent_body body.entry })) }
    {
        let header = header(ids, number, t, first_sent);
        self.text.clear();
        print_parts(&header, body, &mut self.text)?;
        // A message is never too long to be written.
        match write_frame(&self.text, &mut self.bytes) {
            Ok(()) => Ok(()),
            Err(_) => Err(AllocError),
        }
    }
}
