//! One message as a row of a table for a spreadsheet: comma-separated values (RFC 4180).
ghost use Rattle.std.specs.Prelude.{◌≡◌, ◌++◌, ◌∷◌, [], IfOk, OnOk};
ghost use Rattle.csv.specs.Records.{fields_of, partial_of};
ghost use Rattle.csv.specs.Writing.{row_text};
ghost use Rattle.message_words.specs.Cells.{setup};
ghost use Rattle.trail_answers.specs.Entries.{answered_at, came_at, came_fields, clock_fields, field_names, fields, heading, reply_fields, said_fields, sent_number};

use csv::ByteRecord;
use fix_dictionary::App;
use message_words::{
    Form, came_words_of, clock_words, fix_text, kind_of, push_moment, push_number, readable_text,
    row_bytes, sender_name, words_of,
};
use participants::{Participants, Who};
use std::alloc::{AllocError, Global};
use trade_blotter::name_at;
use venue_rules::TrailRow;

/// The names of the fields.
fn field_names(alloc: Global) -> Result<ByteRecord, AllocError>
    ensures { IfOk result (λ row. fields_of row ≡ field_names) }
{
    ByteRecord::from_fields(
        alloc,
        &[
            b"row",
            b"moment_utc",
            b"from",
            b"number",
            b"era",
            b"to",
            b"kind",
            b"text",
            b"words",
        ],
    )
}

fn append_names(alloc: Global, out: &mut Vec<u8>) -> Result<(), AllocError>
    ensures { OnOk result (out.new.items ≡ out.old.items ++ row_text setup field_names) }
{
    let names = field_names(alloc)?;
    let bytes = row_bytes(alloc, &names)?;
    out.extend_from_slice(&bytes)
}

/// Appends the names of the fields, above a table.
pub(crate) fn append_heading(alloc: Global, out: &mut Vec<u8>, form: Form) -> Result<(), AllocError>
    ensures { OnOk result (out.new.items ≡ out.old.items ++ heading form) }
{
    match form {
        Form::Lines | Form::Json => Ok(()),
        Form::Table => append_names(alloc, out),
    }
}

/// Adds a number of the message; none at a row of the clock.
fn push_sent(made: &mut ByteRecord, who: u32, number: u32) -> Result<(), AllocError>
    requires { partial_of made.old ≡ [] }
    ensures partial { OnOk result (partial_of made.new ≡ []) }
    ensures fields { OnOk result (fields_of made.new ≡ fields_of made.old ++ sent_number who number ∷ []) }
{
    if who == 0 {
        made.push_field(b"")
    } else {
        push_number(made, u64::from(number))
    }
}

/// Adds the row, its moment, and the sender of its message with the sequence number and the era; none at a row of the
/// clock.
fn push_came(
    made: &mut ByteRecord,
    participants: &Participants,
    row: &TrailRow,
) -> Result<(), AllocError>
    requires { partial_of made.old ≡ [] }
    ensures partial { OnOk result (partial_of made.new ≡ []) }
    ensures fields { OnOk result (fields_of made.new ≡ fields_of made.old ++ came_at participants.now row.now) }
{
    push_number(made, row.n)?;
    push_moment(made, row.moment)?;
    made.push_field(sender_name(participants, row.who))?;
    push_sent(made, row.who, row.number)?;
    push_sent(made, row.who, row.era)
}

/// Adds the recipient of a message, its kind, and its text as FIX has it and in words.
fn push_said(
    made: &mut ByteRecord,
    to: &[u8],
    kind: &[u8],
    text: &[u8],
    words: &[u8],
) -> Result<(), AllocError>
    requires { partial_of made.old ≡ [] }
    ensures partial { OnOk result (partial_of made.new ≡ []) }
    ensures fields { OnOk result (fields_of made.new ≡ fields_of made.old ++ said_fields to.now kind.now text.now words.now) }
{
    made.push_field(to)?;
    made.push_field(kind)?;
    made.push_field(text)?;
    made.push_field(words)
}

/// The fields of one message.
fn fields_emitted(
    alloc: Global,
    participants: &Participants,
    row: &TrailRow,
    to: &[u8],
    kind: &[u8],
    text: &[u8],
    words: &[u8],
) -> Result<ByteRecord, AllocError>
    ensures { IfOk result (λ made. fields_of made ≡ fields participants.now row.now to.now kind.now text.now words.now) }
{
    let mut made = ByteRecord::new(alloc);
    push_came(&mut made, participants, row)?;
    push_said(&mut made, to, kind, text, words)?;
    Ok(made)
}

/// Adds the row of a reply and its moment; the fields of a sender stay empty.
fn push_answered(made: &mut ByteRecord, row: &TrailRow) -> Result<(), AllocError>
    requires { partial_of made.old ≡ [] }
    ensures partial { OnOk result (partial_of made.new ≡ []) }
    ensures fields { OnOk result (fields_of made.new ≡ fields_of made.old ++ answered_at row.now) }
{
    push_number(made, row.n)?;
    push_moment(made, row.moment)?;
    made.push_field(b"")?;
    made.push_field(b"")?;
    made.push_field(b"")
}

/// The fields of a reply.
fn reply_fields(
    alloc: Global,
    row: &TrailRow,
    to: &[u8],
    kind: &[u8],
    text: &[u8],
    words: &[u8],
) -> Result<ByteRecord, AllocError>
    ensures { IfOk result (λ made. fields_of made ≡ answered_at row.now ++ said_fields to.now kind.now text.now words.now) }
{
    let mut made = ByteRecord::new(alloc);
    push_answered(&mut made, row)?;
    push_said(&mut made, to, kind, text, words)?;
    Ok(made)
}

/// Appends a row.
fn append_fields(
    alloc: Global,
    out: &mut Vec<u8>,
    participants: &Participants,
    row: &TrailRow,
    to: &[u8],
    kind: &[u8],
    text: &[u8],
    words: &[u8],
) -> Result<(), AllocError>
    ensures { OnOk result (out.new.items ≡ out.old.items ++ row_text setup (fields participants.now row.now to.now kind.now text.now words.now)) }
{
    let made = fields_emitted(alloc, participants, row, to, kind, text, words)?;
    let bytes = row_bytes(alloc, &made)?;
    out.extend_from_slice(&bytes)
}

pub(crate) fn append_came_row(
    alloc: Global,
    out: &mut Vec<u8>,
    participants: &Participants,
    row: &TrailRow,
    app: &App,
) -> Result<(), AllocError>
    ensures { OnOk result (out.new.items ≡ out.old.items ++ row_text setup (came_fields participants.now row.now app.now)) }
{
    let kept = readable_text(alloc, row.text.as_slice())?;
    let said = came_words_of(alloc, app)?;
    append_fields(
        alloc,
        out,
        participants,
        row,
        b"",
        kind_of(app),
        &kept,
        &said,
    )
}

pub(crate) fn append_clock_row(
    alloc: Global,
    out: &mut Vec<u8>,
    participants: &Participants,
    row: &TrailRow,
) -> Result<(), AllocError>
    ensures { OnOk result (out.new.items ≡ out.old.items ++ row_text setup (clock_fields participants.now row.now)) }
{
    append_fields(
        alloc,
        out,
        participants,
        row,
        b"",
        b"clock",
        b"",
        clock_words(),
    )
}

pub(crate) fn append_reply_row(
    alloc: Global,
    out: &mut Vec<u8>,
    participants: &Participants,
    row: &TrailRow,
    to: Who,
    app: &App,
) -> Result<(), AllocError>
    ensures { OnOk result (out.new.items ≡ out.old.items ++ row_text setup (reply_fields participants.now row.now to app.now)) }
{
    let fix = fix_text(alloc, app)?;
    let said = words_of(alloc, app)?;
    let name = name_at(participants, to);
    let made = reply_fields(alloc, row, name, kind_of(app), &fix, &said)?;
    let bytes = row_bytes(alloc, &made)?;
    out.extend_from_slice(&bytes)
}
