//! The lines of a row of a trail.
ghost use Rattle.std.specs.Prelude.{◌≡◌, ◌++◌, OnOk};
ghost use Rattle.message_words.specs.Parts.{parts_text};
ghost use Rattle.message_words.specs.RowLines.{came_parts, came_said, clock_parts, clock_words, reply_parts, reply_said, sender_name};

use crate::parts::{Part, Value, append_parts, bytes, number};
use crate::visible::{fix_text, readable_text};
use crate::words::{came_words_of, words_of};
use fix_dictionary::App;
use participants::{Participants, Who};
use std::alloc::{AllocError, Global};
use trade_blotter::name_at;
use venue_rules::TrailRow;

macro_rules! part {
    ($before:expr, $value:expr) => {
        Part {
            before: $before,
            value: $value,
        }
    };
}

/// The sender of a row's message; nobody at a row of the clock.
pub fn sender_name(participants: &Participants, who: u32) -> &[u8]
    ensures { result.now ≡ sender_name participants.now who }
{
    if who == 0 {
        b""
    } else {
        name_at(participants, Who::of(who - 1))
    }
}

/// What a row of the clock says.
pub fn clock_words() -> &'static [u8]
    ensures { result.now ≡ clock_words }
{
    b"the clock, without a message: the first held side of a cross that is due enters or is refused"
}

fn append_came_said<'a>(
    alloc: Global,
    out: &mut Vec<u8>,
    row: &TrailRow,
    from: &'a [u8],
    text: &'a [u8],
    words: &'a [u8],
) -> Result<(), AllocError>
    ensures { OnOk result (out.new.items ≡ out.old.items ++ parts_text (came_said row.now from.now text.now words.now)) }
{
    append_parts(
        alloc,
        out,
        &[
            part!(b"row ", number(row.n)),
            part!(b" at ", Some(Value::Moment(row.moment))),
            part!(b" from ", bytes(from)),
            part!(b", sequence number ", number(u64::from(row.number))),
            part!(b" in era ", number(u64::from(row.era))),
            part!(b": ", bytes(text)),
            part!(b"\n    ", bytes(words)),
            part!(b"\n", bytes(b"")),
        ],
    )
}

/// Appends the lines of the message of a row: the row's own text, and the message that it spells in words.
pub fn append_came_lines(
    alloc: Global,
    text: &mut Vec<u8>,
    participants: &Participants,
    row: &TrailRow,
    app: &App,
) -> Result<(), AllocError>
    ensures { OnOk result (text.new.items ≡ text.old.items ++ parts_text (came_parts participants.now row.now app.now)) }
{
    let kept = readable_text(alloc, row.text.as_slice())?;
    let said = came_words_of(alloc, app)?;
    let from = sender_name(participants, row.who);
    append_came_said(alloc, text, row, from, &kept, &said)
}

/// Appends the line of a row of the clock.
pub fn append_clock_line(
    alloc: Global,
    text: &mut Vec<u8>,
    row: &TrailRow,
) -> Result<(), AllocError>
    ensures { OnOk result (text.new.items ≡ text.old.items ++ parts_text (clock_parts row.now)) }
{
    append_parts(
        alloc,
        text,
        &[
            part!(b"row ", number(row.n)),
            part!(b" at ", Some(Value::Moment(row.moment))),
            part!(b": ", bytes(clock_words())),
            part!(b"\n", bytes(b"")),
        ],
    )
}

fn append_reply_said<'a>(
    alloc: Global,
    out: &mut Vec<u8>,
    n: u64,
    to: &'a [u8],
    text: &'a [u8],
    words: &'a [u8],
) -> Result<(), AllocError>
    ensures { OnOk result (out.new.items ≡ out.old.items ++ parts_text (reply_said n to.now text.now words.now)) }
{
    append_parts(
        alloc,
        out,
        &[
            part!(b"row ", number(n)),
            part!(b" to ", bytes(to)),
            part!(b": ", bytes(text)),
            part!(b"\n    ", bytes(words)),
            part!(b"\n", bytes(b"")),
        ],
    )
}

/// Appends the lines of a reply at a row.
pub fn append_reply_lines(
    alloc: Global,
    text: &mut Vec<u8>,
    participants: &Participants,
    row: &TrailRow,
    to: Who,
    app: &App,
) -> Result<(), AllocError>
    ensures { OnOk result (text.new.items ≡ text.old.items ++ parts_text (reply_parts participants.now row.now to app.now)) }
{
    let fix = fix_text(alloc, app)?;
    let said = words_of(alloc, app)?;
    let name = name_at(participants, to);
    append_reply_said(alloc, text, row.n, name, &fix, &said)
}
