//! Figures, as lines or as rows of a table.

ghost use Rattle.std.specs.Prelude.{◌≡◌, ◌++◌, decimal, IfOk, OnOk};
ghost use Rattle.std.specs.List.{flat_map};
ghost use Rattle.csv.specs.Records.{fields_of};
ghost use Rattle.csv.specs.Writing.{row_text};
ghost use Rattle.sef_moment.specs.Utc.{utc_text};
ghost use Rattle.message_words.specs.Cells.{setup};
ghost use Rattle.participant_activity.specs.Figures.{behind_comma, field_names, fields, figure_text, heading, lent_text, line, shown};

use crate::form::Form;
use csv::ByteRecord;
use itoa::Buffer;
use message_words::row_bytes;
use sef_moment::{Moment, print_utc};
use std::alloc::{AllocError, Global};
use trade_blotter::append;

/// What a figure is.
#[derive(Clone, Copy)]
pub enum Figured {
    Count(u64),
    Quantity(u128),
    At(Moment),
}

/// A figure, of an instrument or a cause where it has one.
#[derive(Clone, Copy)]
pub struct Figure<'a> {
    pub name: &'a [u8],
    pub instrument: &'a [u8],
    pub cause: &'a [u8],
    pub value: Figured,
}

fn number_text(alloc: Global, number: u128) -> Result<Vec<u8>, AllocError>
    ensures { IfOk result (λ text. text.items ≡ decimal number) }
{
    let mut buffer = Buffer::new();
    Vec::from_slice(alloc, buffer.format(number).as_bytes())
}

fn moment_text(alloc: Global, moment: Moment) -> Result<Vec<u8>, AllocError>
    ensures { IfOk result (λ text. text.items ≡ utc_text moment) }
{
    let text = print_utc(moment);
    Vec::from_slice(alloc, &text)
}

fn shown(alloc: Global, value: Figured) -> Result<Vec<u8>, AllocError>
    ensures { IfOk result (λ text. text.items ≡ shown value) }
{
    match value {
        Figured::Count(number) => number_text(alloc, u128::from(number)),
        Figured::Quantity(number) => number_text(alloc, number),
        Figured::At(moment) => moment_text(alloc, moment),
    }
}

fn append_behind_comma(text: &mut Vec<u8>, words: &[u8]) -> Result<(), AllocError>
    ensures { OnOk result (text.new.items ≡ text.old.items ++ behind_comma words.now) }
{
    if words.is_empty() {
        Ok(())
    } else {
        append(text, &[b", ", words])
    }
}

fn append_line(text: &mut Vec<u8>, figure: &Figure, value: &[u8]) -> Result<(), AllocError>
    ensures { OnOk result (text.new.items ≡ text.old.items ++ line figure.now.name.now figure.now.instrument.now figure.now.cause.now value.now) }
{
    append(text, &[figure.name])?;
    append_behind_comma(text, figure.instrument)?;
    append_behind_comma(text, figure.cause)?;
    append(text, &[b": ", value, b"\n"])
}

/// Appends a row of a table.
fn append_row(alloc: Global, text: &mut Vec<u8>, row: &ByteRecord) -> Result<(), AllocError>
    ensures { OnOk result (text.new.items ≡ text.old.items ++ row_text setup (fields_of row.now)) }
{
    let made = row_bytes(alloc, row)?;
    text.extend_from_slice(&made)
}

fn append_fields(
    alloc: Global,
    text: &mut Vec<u8>,
    figure: &Figure,
    value: &[u8],
) -> Result<(), AllocError>
    ensures { OnOk result (text.new.items ≡ text.old.items ++ row_text setup (fields figure.now.name.now figure.now.instrument.now figure.now.cause.now value.now)) }
{
    let row = ByteRecord::from_fields(
        alloc,
        &[figure.name, figure.instrument, figure.cause, value],
    )?;
    append_row(alloc, text, &row)
}

/// Appends a figure.
pub(crate) fn append_figure(
    alloc: Global,
    text: &mut Vec<u8>,
    form: Form,
    figure: &Figure,
) -> Result<(), AllocError>
    ensures { OnOk result (text.new.items ≡ text.old.items ++ lent_text form figure.now) }
{
    let value = shown(alloc, figure.value)?;
    match form {
        Form::Lines => append_line(text, figure, &value),
        Form::Table => append_fields(alloc, text, figure, &value),
    }
}

/// Appends figures, one behind the other.
pub(crate) fn append_figures(
    alloc: Global,
    text: &mut Vec<u8>,
    form: Form,
    figures: &[Figure],
) -> Result<(), AllocError>
    ensures { OnOk result (text.new.items ≡ text.old.items ++ flat_map (lent_text form) figures.now) }
{
    for figure in figures {
        append_figure(alloc, text, form, figure)?;
    }
    Ok(())
}

fn append_names(alloc: Global, text: &mut Vec<u8>) -> Result<(), AllocError>
    ensures { OnOk result (text.new.items ≡ text.old.items ++ row_text setup field_names) }
{
    let names = ByteRecord::from_fields(alloc, &[b"figure", b"instrument", b"cause", b"value"])?;
    append_row(alloc, text, &names)
}

/// Appends what stands above the figures.
pub(crate) fn append_heading(
    alloc: Global,
    text: &mut Vec<u8>,
    form: Form,
    name: &[u8],
) -> Result<(), AllocError>
    ensures { OnOk result (text.new.items ≡ text.old.items ++ heading form name.now) }
{
    match form {
        Form::Lines => append(text, &[b"activity of ", name, b"\n"]),
        Form::Table => append_names(alloc, text),
    }
}
