//! One message as an object of JSON, on a line of its own (JSON Lines).
ghost use Rattle.std.specs.Prelude.{◌≡◌, ◌++◌, OnOk};
ghost use Rattle.message_words.specs.Json.{json_shown, object_line};
ghost use Rattle.trail_answers.specs.Entries.{came_members, clock_members, members, reply_members, sender_json, sent_json};

use fix_dictionary::App;
use message_words::{
    JsonMember, JsonValue, append_object, came_words_of, clock_words, kind_of, message_text,
    sender_name, words_of,
};
use participants::{Participants, Who};
use sef_moment::print_utc;
use std::alloc::{AllocError, Global};
use trade_blotter::name_at;
use venue_rules::TrailRow;

macro_rules! member {
    ($name:expr, $value:expr) => {
        JsonMember {
            name: $name,
            value: $value,
        }
    };
}

/// What an object says of a message, but for its row: who sent it, its sequence number and era, to whom it is, its
/// kind, and its text, byte by byte, and in words.
#[derive(Clone, Copy)]
pub struct Said<'a> {
    pub from: JsonValue<'a>,
    pub number: JsonValue<'a>,
    pub era: JsonValue<'a>,
    pub to: JsonValue<'a>,
    pub kind: JsonValue<'a>,
    pub text: JsonValue<'a>,
    pub words: JsonValue<'a>,
}

/// The sender of a row's message; null at a row of the clock.
fn sender_value<'a>(participants: &'a Participants, who: u32) -> JsonValue<'a>
    ensures { json_shown result ≡ sender_json participants.now who }
{
    if who == 0 {
        JsonValue::Null
    } else {
        JsonValue::Text(sender_name(participants, who))
    }
}

/// A number of the message; null at a row of the clock.
fn sent_value<'a>(who: u32, number: u32) -> JsonValue<'a>
    ensures { json_shown result ≡ sent_json who number }
{
    if who == 0 {
        JsonValue::Null
    } else {
        JsonValue::Number(u64::from(number))
    }
}

fn append_said(out: &mut Vec<u8>, row: &TrailRow, said: &Said) -> Result<(), AllocError>
    ensures { OnOk result (out.new.items ≡ out.old.items ++ object_line (members row.now (json_shown said.now.from) (json_shown said.now.number) (json_shown said.now.era) (json_shown said.now.to) (json_shown said.now.kind) (json_shown said.now.text) (json_shown said.now.words))) }
{
    let moment = print_utc(row.moment);
    append_object(
        out,
        &[
            member!(b"row", JsonValue::Number(row.n)),
            member!(b"moment_utc", JsonValue::Text(&moment)),
            member!(b"from", said.from),
            member!(b"number", said.number),
            member!(b"era", said.era),
            member!(b"to", said.to),
            member!(b"kind", said.kind),
            member!(b"text", said.text),
            member!(b"words", said.words),
        ],
    )
}

pub(crate) fn append_came_object(
    alloc: Global,
    out: &mut Vec<u8>,
    participants: &Participants,
    row: &TrailRow,
    app: &App,
) -> Result<(), AllocError>
    ensures { OnOk result (out.new.items ≡ out.old.items ++ object_line (came_members participants.now row.now app.now)) }
{
    let words = came_words_of(alloc, app)?;
    append_said(
        out,
        row,
        &Said {
            from: sender_value(participants, row.who),
            number: sent_value(row.who, row.number),
            era: sent_value(row.who, row.era),
            to: JsonValue::Null,
            kind: JsonValue::Text(kind_of(app)),
            text: JsonValue::Text(row.text.as_slice()),
            words: JsonValue::Text(&words),
        },
    )
}

pub(crate) fn append_clock_object(
    out: &mut Vec<u8>,
    participants: &Participants,
    row: &TrailRow,
) -> Result<(), AllocError>
    ensures { OnOk result (out.new.items ≡ out.old.items ++ object_line (clock_members participants.now row.now)) }
{
    append_said(
        out,
        row,
        &Said {
            from: sender_value(participants, row.who),
            number: sent_value(row.who, row.number),
            era: sent_value(row.who, row.era),
            to: JsonValue::Null,
            kind: JsonValue::Text(b"clock"),
            text: JsonValue::Null,
            words: JsonValue::Text(clock_words()),
        },
    )
}

pub(crate) fn append_reply_object(
    alloc: Global,
    out: &mut Vec<u8>,
    participants: &Participants,
    row: &TrailRow,
    to: Who,
    app: &App,
) -> Result<(), AllocError>
    ensures { OnOk result (out.new.items ≡ out.old.items ++ object_line (reply_members participants.now row.now to app.now)) }
{
    let text = message_text(alloc, app)?;
    let words = words_of(alloc, app)?;
    append_said(
        out,
        row,
        &Said {
            from: JsonValue::Null,
            number: JsonValue::Null,
            era: JsonValue::Null,
            to: JsonValue::Text(name_at(participants, to)),
            kind: JsonValue::Text(kind_of(app)),
            text: JsonValue::Text(&text),
            words: JsonValue::Text(&words),
        },
    )
}
