//! Replies as they are sent: to whom, by name, and what.

ghost use Rattle.std.specs.Prelude.{◌≡◌, IfOk};
ghost use Rattle.fix_dictionary.specs.Text.{app_text};
ghost use Rattle.venue_rules.specs.Messages.{message};
ghost use Rattle.trail_comparison.specs.Sent.{are_same, is_same};

use fix_encoder::print_app;
use participants::Participants;
use std::alloc::{AllocError, Global};
use trade_blotter::name_at;
use venue_core::message_of;
use venue_rules::Reply;

/// The participants of A and of B.
#[derive(Clone, Copy)]
pub(crate) struct Names<'a> {
    pub a: &'a Participants,
    pub b: &'a Participants,
}

/// The text of a reply, as FIX has it.
fn text_of(alloc: Global, reply: &Reply) -> Result<Vec<u8>, AllocError>
    ensures { IfOk result (λ text. text.items ≡ app_text (message reply.now.what)) }
{
    let app = message_of(alloc, reply)?;
    let mut text = Vec::new(alloc);
    print_app(&app, &mut text)?;
    Ok(text)
}

/// Whether a reply of A and one of B are sent alike.
fn is_same(alloc: Global, names: &Names, one: &Reply, other: &Reply) -> Result<bool, AllocError>
    ensures { IfOk result (λ same. same ≡ is_same names.now.a.now names.now.b.now one.now other.now) }
{
    let text = text_of(alloc, one)?;
    let other_text = text_of(alloc, other)?;
    let same = name_at(names.a, one.to) == name_at(names.b, other.to)
        && text.as_slice() == other_text.as_slice();
    Ok(same)
}

/// Whether the replies of A and those of B are sent alike, in order.
pub(crate) fn are_same(
    alloc: Global,
    names: &Names,
    replies: &[Reply],
    others: &[Reply],
) -> Result<bool, AllocError>
    ensures { IfOk result (λ same. same ≡ are_same names.now.a.now names.now.b.now replies.now others.now) }
{
    if replies.len() != others.len() {
        return Ok(false);
    }
    for k in 0..replies.len() {
        if !is_same(alloc, names, &replies[k], &others[k])? {
            return Ok(false);
        }
    }
    Ok(true)
}
