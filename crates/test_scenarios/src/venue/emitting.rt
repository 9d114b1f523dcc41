//! Answers as lines of a transcript.

use crate::emitting::end_line;
use fix_encoder::print_app;
use participants::{Participants, Who};
use std::alloc::{AllocError, Global};
use venue_core::message_of;
use venue_rules::Reply;

/// A participant's name.
pub fn name_of(participants: &Participants, who: Who) -> &[u8] {
    if (who.place() as usize) < participants.len() {
        participants.name(who)
    } else {
        b"nobody"
    }
}

// The text of a reply's message.
fn text_of(alloc: Global, reply: &Reply) -> Result<Vec<u8>, AllocError> {
    let app = message_of(alloc, reply)?;
    let mut text = Vec::new(alloc);
    let printed = print_app(&app, &mut text);
    drop(app);
    printed?;
    Ok(text)
}

fn emit_reply(
    alloc: Global,
    participants: &Participants,
    reply: &Reply,
    emitted: &mut Vec<u8>,
) -> Result<(), AllocError> {
    let text = text_of(alloc, reply)?;
    emitted.extend_from_slice(b"  ")?;
    emitted.extend_from_slice(name_of(participants, reply.to))?;
    emitted.push(b' ')?;
    end_line(&text, emitted)
}

/// Appends a line for each reply: to whom, and the text with `|` for SOH.
pub fn emit_replies(
    alloc: Global,
    participants: &Participants,
    replies: &[Reply],
    emitted: &mut Vec<u8>,
) -> Result<(), AllocError> {
    if replies.is_empty() {
        return emitted.extend_from_slice(b"  nothing\n");
    }
    for reply in replies {
        emit_reply(alloc, participants, reply, emitted)?;
    }
    Ok(())
}
