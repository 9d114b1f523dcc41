//! The lines of a row to which the venues of two trails reply differently.

ghost use Rattle.std.specs.Prelude.{◌≡◌, ◌++◌, ◌==◌, ℕ, List, length, if◌then◌else◌, codes, IfOk, OnOk};
ghost use Rattle.std.specs.List.{flat_map};
ghost use Rattle.row_replay.specs.Inputs.{input_of};
ghost use Rattle.trail_comparison.specs.Differences.{have, count_line, count_pieces, difference_at, difference_text, none_line};
ghost use Rattle.trail_comparison.specs.Lines.{came_text, input_text, label_a, label_b, replies_text, reply_text};

use crate::sent::{Names, are_same};
use itoa::Buffer;
use message_words::{append_came_lines, append_clock_line, append_reply_lines, sender_name};
use participants::Participants;
use std::alloc::{AllocError, Global};
use trade_blotter::append;
use venue_core::message_of;
use venue_rules::{Reply, Taken, TrailRow};

/// A row, what came at it, and the replies of A and of B.
#[derive(Clone, Copy)]
pub(crate) struct Replied<'a> {
    pub row: &'a TrailRow,
    pub taken: &'a Option<Taken>,
    pub a: &'a [Reply],
    pub b: &'a [Reply],
}

/// Appends the message of a row, or the clock.
fn append_input(
    alloc: Global,
    text: &mut Vec<u8>,
    participants: &Participants,
    row: &TrailRow,
    taken: &Option<Taken>,
) -> Result<(), AllocError>
    ensures { OnOk result (text.new.items ≡ text.old.items ++ input_text participants.now row.now (input_of taken.now row.now.moment)) }
{
    match taken {
        Some(taken) => append_came_lines(alloc, text, participants, row, taken.item.app.get()),
        None => append_clock_line(alloc, text, row),
    }
}

/// Appends it as each trail has it.
fn append_inputs(
    alloc: Global,
    text: &mut Vec<u8>,
    names: &Names,
    row: &TrailRow,
    taken: &Option<Taken>,
) -> Result<(), AllocError>
    ensures { OnOk result (text.new.items ≡ text.old.items ++ ((label_a ++ input_text names.now.a.now row.now (input_of taken.now row.now.moment)) ++ (label_b ++ input_text names.now.b.now row.now (input_of taken.now row.now.moment)))) }
{
    append(text, &[b"A: "])?;
    append_input(alloc, text, names.a, row, taken)?;
    append(text, &[b"B: "])?;
    append_input(alloc, text, names.b, row, taken)
}

/// Appends what came at a row: once, and as each trail has it where its sender has another name.
#[tactic(auto, unfolding(crate::specs::Lines::came_text))]
fn append_came(
    alloc: Global,
    text: &mut Vec<u8>,
    names: &Names,
    row: &TrailRow,
    taken: &Option<Taken>,
) -> Result<(), AllocError>
    ensures { OnOk result (text.new.items ≡ text.old.items ++ came_text names.now.a.now names.now.b.now row.now (input_of taken.now row.now.moment)) }
{
    if sender_name(names.a, row.who) == sender_name(names.b, row.who) {
        append_input(alloc, text, names.a, row, taken)
    } else {
        append_inputs(alloc, text, names, row, taken)
    }
}

fn append_reply(
    alloc: Global,
    text: &mut Vec<u8>,
    label: &[u8],
    participants: &Participants,
    row: &TrailRow,
    reply: &Reply,
) -> Result<(), AllocError>
    ensures { OnOk result (text.new.items ≡ text.old.items ++ reply_text label.now participants.now row.now reply.now) }
{
    let app = message_of(alloc, reply)?;
    append(text, &[label])?;
    append_reply_lines(alloc, text, participants, row, reply.to, &app)
}

fn append_each(
    alloc: Global,
    text: &mut Vec<u8>,
    label: &[u8],
    participants: &Participants,
    row: &TrailRow,
    replies: &[Reply],
) -> Result<(), AllocError>
    ensures { OnOk result (text.new.items ≡ text.old.items ++ flat_map (reply_text label.now participants.now row.now) replies.now) }
{
    for reply in replies {
        append_reply(alloc, text, label, participants, row, reply)?;
    }
    Ok(())
}

/// Appends the replies of one venue.
#[tactic(auto, unfolding(crate::specs::Lines::replies_text))]
fn append_replies(
    alloc: Global,
    text: &mut Vec<u8>,
    label: &[u8],
    participants: &Participants,
    row: &TrailRow,
    replies: &[Reply],
) -> Result<(), AllocError>
    ensures { OnOk result (text.new.items ≡ text.old.items ++ replies_text label.now participants.now row.now replies.now) }
{
    if replies.len() == 0 {
        append(text, &[label, b"no replies\n"])
    } else {
        append_each(alloc, text, label, participants, row, replies)
    }
}

/// Appends a row and the replies of both venues.
fn append_difference(
    alloc: Global,
    text: &mut Vec<u8>,
    names: &Names,
    replied: &Replied,
) -> Result<(), AllocError>
    ensures { OnOk result (text.new.items ≡ text.old.items ++ difference_text names.now.a.now names.now.b.now (record { row = replied.now.row.now; input = input_of replied.now.taken.now replied.now.row.now.moment; one = replied.now.a.now; other = replied.now.b.now })) }
{
    append_came(alloc, text, names, replied.row, replied.taken)?;
    append_replies(alloc, text, b"A: ", names.a, replied.row, replied.a)?;
    append_replies(alloc, text, b"B: ", names.b, replied.row, replied.b)
}

/// The lines of a row whose replies differ, or none; and how many rows that are.
#[tactic(auto, using(crate::proofs::Differing::none_differs, crate::proofs::Differing::one_differs))]
pub(crate) fn difference_lines(
    alloc: Global,
    names: &Names,
    replied: &Replied,
) -> Result<(Vec<u8>, usize), AllocError>
    ensures text { IfOk result (λ found. found.0.items ≡ flat_map (difference_text names.now.a.now names.now.b.now) (difference_at names.now.a.now names.now.b.now replied.now.row.now (input_of replied.now.taken.now replied.now.row.now.moment) replied.now.a.now replied.now.b.now)) }
    ensures count { IfOk result (λ found. found.1 ≡ length (difference_at names.now.a.now names.now.b.now replied.now.row.now (input_of replied.now.taken.now replied.now.row.now.moment) replied.now.a.now replied.now.b.now)) }
{
    let mut text = Vec::new(alloc);
    if are_same(alloc, names, replied.a, replied.b)? {
        return Ok((text, 0));
    }
    append_difference(alloc, &mut text, names, replied)?;
    Ok((text, 1))
}

fn have(count: usize) -> &'static [u8]
    ensures { result.now ≡ have count }
{
    if count == 1 {
        b" has others\n"
    } else {
        b" have others\n"
    }
}

/// That none of the shared rows has other answers, in a line.
fn none_line(alloc: Global, rows: usize) -> Result<Vec<u8>, AllocError>
    ensures { IfOk result (λ text. text.items ≡ none_line rows) }
{
    let mut text = Vec::new(alloc);
    if rows == 0 {
        text.extend_from_slice(b"answers: no row is shared, none is compared\n")?;
        return Ok(text);
    }
    let mut of = Buffer::new();
    let pieces = [
        b"answers: each of ",
        of.format(rows).as_bytes(),
        b" shared rows has the same\n",
    ];
    append(&mut text, &pieces)?;
    Ok(text)
}

/// How many of the shared rows have other answers, in a line.
fn some_line(alloc: Global, count: usize, rows: usize) -> Result<Vec<u8>, AllocError>
    ensures { IfOk result (λ text. text.items ≡ flat_map (λ (p : List ℕ). p) (count_pieces count rows)) }
{
    let mut text = Vec::new(alloc);
    let mut of = Buffer::new();
    let mut digits = Buffer::new();
    let pieces = [
        b"answers: ",
        digits.format(count).as_bytes(),
        b" of ",
        of.format(rows).as_bytes(),
        b" shared rows",
        have(count),
    ];
    append(&mut text, &pieces)?;
    Ok(text)
}

/// How many of the shared rows have other answers, or that none has, in a line.
#[tactic(auto, unfolding(crate::specs::Differences::count_line))]
pub(crate) fn count_line(alloc: Global, count: usize, rows: usize) -> Result<Vec<u8>, AllocError>
    ensures { IfOk result (λ text. text.items ≡ count_line count rows) }
{
    if count == 0 {
        return none_line(alloc, rows);
    }
    some_line(alloc, count, rows)
}
