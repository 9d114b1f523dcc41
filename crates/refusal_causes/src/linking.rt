//! Whether a link (583) alone is why an order would trade with a linked one too early.

ghost use Rattle.std.specs.Prelude.{◌≡◌, ◌≤◌, ◌++◌, IfOk, OnOk};
ghost use Rattle.message_words.specs.Parts.{parts_text};
ghost use Rattle.venue_rules.specs.Answers.{answer};
ghost use Rattle.venue_rules.specs.Facts.{History};
ghost use Rattle.venue_core.specs.Plan.{most_items};
ghost use Rattle.venue_core.specs.State.{standing};
ghost use Rattle.venue_core.specs.VenueFacts.{IsHistory};
ghost use Rattle.refusal_causes.specs.Linking.{link_line, link_lines, link_parts, without_link};

use crate::why::waits_at;
use fix_dictionary::{App, BoxedApp, Identifier, Item, NewOrderSingle};
use message_words::{Part, append_parts, bytes};
use sef_moment::Moment;
use std::alloc::{AllocError, Global};
use venue_core::Venue;
use venue_rules::Taken;

/// An order as its sender would have sent it without a link.
fn unlinked(alloc: Global, taken: &Taken, order: &NewOrderSingle) -> Result<Taken, AllocError>
    ensures { IfOk result (λ other. other ≡ without_link taken.now order.now) }
{
    let app = App::NewOrderSingle(NewOrderSingle {
        link_id: None,
        ..*order
    });
    Ok(Taken {
        from: taken.from,
        item: Item {
            era: taken.item.era,
            number: taken.item.number,
            app: BoxedApp::new(alloc, app)?,
        },
    })
}

fn append_link_parts(alloc: Global, text: &mut Vec<u8>, link: &Identifier) -> Result<(), AllocError>
    ensures { OnOk result (text.new.items ≡ text.old.items ++ parts_text (link_parts link.now)) }
{
    append_parts(
        alloc,
        text,
        &[
            Part {
                before: b"\n    ClOrdLinkID (583) ",
                value: bytes(link.as_slice()),
            },
            Part {
                before: b" alone links it with such an order: without it this cause would not hold",
                value: bytes(b""),
            },
        ],
    )
}

/// Appends that its link alone is the cause, if it is.
fn append_link_line(
    alloc: Global,
    text: &mut Vec<u8>,
    venue: &mut Venue,
    taken: &Taken,
    order: &NewOrderSingle,
    link: &Identifier,
    moment: Moment,
) -> Result<(), AllocError>
    requires few { venue.old.items ≤ most_items }
    ensures market { venue.new.market ≡ venue.old.market }
    ensures day { standing venue.new.day ≡ standing venue.old.day }
    ensures items { venue.new.items ≡ venue.old.items }
    ensures text { (h : History) → IsHistory venue.old h → OnOk result (text.new.items ≡ text.old.items ++ link_line venue.old.market h taken.now order.now link.now moment) }
{
    let other = unlinked(alloc, taken, order)?;
    let waits = waits_at(venue, &other, moment)?;
    drop(other);
    if waits {
        return Ok(());
    }
    append_link_parts(alloc, text, link)
}

/// Appends which link (583) alone is why an order would trade with a linked one too early, if one is.
pub(crate) fn append_link(
    alloc: Global,
    text: &mut Vec<u8>,
    venue: &mut Venue,
    taken: &Taken,
    moment: Moment,
) -> Result<(), AllocError>
    requires few { venue.old.items ≤ most_items }
    ensures market { venue.new.market ≡ venue.old.market }
    ensures day { standing venue.new.day ≡ standing venue.old.day }
    ensures items { venue.new.items ≡ venue.old.items }
    ensures text { (h : History) → IsHistory venue.old h → OnOk result (text.new.items ≡ text.old.items ++ link_lines venue.old.market h taken.now moment) }
{
    match taken.item.app.get() {
        App::NewOrderSingle(order) => match &order.link_id {
            None => Ok(()),
            Some(link) => append_link_line(alloc, text, venue, taken, order, link, moment),
        },
        _ => Ok(()),
    }
}
