//! The lines of a table, in QuickFIX's XML.
ghost use Rattle.std.specs.Prelude.{◌≡◌, ◌++◌, OnOk};
ghost use Rattle.std.specs.List.{flat_map};
ghost use Rattle.fix_fields.specs.Views.{joined};
ghost use Rattle.data_dictionary.specs.Dictionaries.{answer, attributes, fields_asked, line_text, table_text};
ghost use Rattle.data_dictionary.specs.Layout.{is_counted, lines_in, required, stated};

use crate::fields::name_of;
use fix_validation::Row;
use std::alloc::AllocError;

/// The reference of a line to a field: its tag, and whether it is required.
#[derive(Clone, Copy)]
pub(crate) struct Mention {
    pub tag: u32,
    pub required: bool,
}

/// A line of a message.
#[derive(Clone, Copy)]
pub(crate) enum Line {
    /// a field
    Field(Mention),
    /// the count field of a group; the lines up to the group's end are those of its instances' rows
    GroupBegin(Mention),
    GroupEnd,
}

/// Appends texts in order.
pub(crate) fn append(text: &mut Vec<u8>, parts: &[&str]) -> Result<(), AllocError>
    ensures { OnOk result (text.new.items ≡ text.old.items ++ joined parts.now) }
{
    for part in parts {
        text.extend_from_slice(part.as_bytes())?;
    }
    Ok(())
}

#[tactic(auto, unfolding(crate::specs::Dictionaries::answer))]
fn answer(required: bool) -> &'static str
    ensures { result.now ≡ answer required }
{
    if required { "Y" } else { "N" }
}

/// A required field.
pub(crate) fn required(tag: u32) -> Mention
    ensures { result ≡ required tag }
{
    Mention {
        tag,
        required: true,
    }
}

// The line of a row.
fn stated(row: &Row) -> Mention
    ensures { result ≡ stated row.now }
{
    Mention {
        tag: row.tag,
        required: row.required,
    }
}

// Appends the field's name, and whether it is required.
#[tactic(auto, unfolding(crate::specs::Dictionaries::attributes))]
fn append_attributes(text: &mut Vec<u8>, field: Mention) -> Result<(), AllocError>
    ensures { OnOk result (text.new.items ≡ text.old.items ++ attributes field) }
{
    append(
        text,
        &[
            " name='",
            name_of(field.tag),
            "' required='",
            answer(field.required),
            "'",
        ],
    )
}

#[tactic(auto, unfolding(crate::specs::Dictionaries::line_text))]
fn append_line(text: &mut Vec<u8>, line: Line) -> Result<(), AllocError>
    ensures { OnOk result (text.new.items ≡ text.old.items ++ line_text line) }
{
    match line {
        Line::Field(field) => {
            append(text, &["      <field"])?;
            append_attributes(text, field)?;
            append(text, &["/>\n"])
        }
        Line::GroupBegin(field) => {
            append(text, &["      <group"])?;
            append_attributes(text, field)?;
            append(text, &[">\n"])
        }
        Line::GroupEnd => append(text, &["      </group>\n"]),
    }
}

fn is_counted(tag: u32, rows: &[Row]) -> bool
    ensures { result ≡ is_counted tag rows.now }
{
    rows.iter().any(|row| row.group == tag)
}

// Appends the lines of the rows of this group, 0 for outside of groups. The lines of a group's instances follow its
// count field.
fn append_rows(text: &mut Vec<u8>, group: u32, rows: &[Row]) -> Result<(), AllocError>
    ensures { OnOk result (text.new.items ≡ text.old.items ++ flat_map line_text (lines_in group rows.now)) }
{
    let Some((row, rest)) = rows.split_first() else {
        return Ok(());
    };
    if row.group != group {
        return append_rows(text, group, rest);
    }
    if !is_counted(row.tag, rest) {
        append_line(text, Line::Field(stated(row)))?;
        return append_rows(text, group, rest);
    }
    append_line(text, Line::GroupBegin(stated(row)))?;
    append_rows(text, row.tag, rest)?;
    append_line(text, Line::GroupEnd)?;
    append_rows(text, group, rest)
}

/// Appends the lines of a table.
#[tactic(auto, unfolding(crate::specs::Dictionaries::table_text))]
pub(crate) fn append_table(text: &mut Vec<u8>, rows: &[Row]) -> Result<(), AllocError>
    ensures { OnOk result (text.new.items ≡ text.old.items ++ table_text rows.now) }
{
    append_rows(text, 0, rows)
}

/// Appends the lines of fields outside of groups.
#[tactic(auto, unfolding(crate::specs::Dictionaries::fields_asked))]
pub(crate) fn append_fields_asked(text: &mut Vec<u8>, fields: &[Mention]) -> Result<(), AllocError>
    ensures { OnOk result (text.new.items ≡ text.old.items ++ fields_asked fields.now) }
{
    for field in fields {
        append_line(text, Line::Field(*field))?;
    }
    Ok(())
}
