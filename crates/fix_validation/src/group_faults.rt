//! The first fault of the fields of a message with repeating groups.
ghost use Rattle.std.specs.Prelude.{◌≡◌, ◌+◌, length, [], Some, None};
ghost use Rattle.fix_fields.specs.Views.{entry, entries};
ghost use Rattle.fix_fields.specs.GroupParts.{emits};
ghost use Rattle.fix_validation.specs.Faults.{has_tag};
ghost use Rattle.fix_validation.specs.Positions.{places, part, begins};
ghost use Rattle.fix_validation.specs.GroupFaults.{repeats, twice, is_wrong, miscounts, miscounted, lacks, lacking, is_lacking, missing_in, located_fault};

use crate::faults::{DictFault, misfit};
use crate::positions::{FieldPosition, LocatedField, first_tag, group_of, is_count, is_in};
use crate::table::Row;
use fix_fields::{Field, read_integer};

// Whether a part has a field with the tag.
fn has_tag(tag: u32, place: usize, located: &[LocatedField]) -> bool
    ensures { result ≡ has_tag tag (part place (places located.now)) }
{
    for one in located {
        if is_in(place, one.position) && one.field.tag == tag {
            return true;
        }
    }
    false
}

fn repeats(tag: u32, position: FieldPosition, earlier: &[LocatedField]) -> bool
    ensures { result ≡ repeats tag position (places earlier.now) }
{
    match position {
        FieldPosition::Unknown => false,
        FieldPosition::InPart(place)
        | FieldPosition::Begins(place, _)
        | FieldPosition::Misplaced(place) => { has_tag(tag, place, earlier) }
    }
}

// The first field whose tag occurs earlier in its part.
fn twice(located: &[LocatedField]) -> Option<u32>
    ensures { result ≡ twice [] (places located.now) }
{
    for (index, one) in located.iter().enumerate() {
        if repeats(one.field.tag, one.position, &located[..index]) {
            return Some(one.field.tag);
        }
    }
    None
}

// The number of instances of a group in a part, by the first tag of the group.
fn number_of(first: u32, place: usize, located: &[LocatedField]) -> usize
    ensures { result ≡ length (begins first place (places located.now)) }
{
    let mut number: usize = 0;
    for one in located {
        if let FieldPosition::Begins(_, around) = one.position {
            if one.field.tag == first && around == place {
                number += 1;
            }
        }
    }
    number
}

// Whether a text spells the number.
fn emits(text: &[u8], number: usize) -> bool
    ensures { result ≡ emits number text.now }
{
    match read_integer(text, 0, 1_000_000_000_000_000_000) {
        Ok(stated) => stated == number as u64,
        Err(_) => false,
    }
}

fn is_wrong(rows: &[Row], all: &[LocatedField], place: usize, field: &Field) -> bool
    ensures { result ≡ is_wrong rows.now (places all.now) place field.now.tag field.now.value.now }
{
    is_count(field.tag, rows)
        && !emits(
            field.value,
            number_of(first_tag(field.tag, rows), place, all),
        )
}

// The group that a field shows to be miscounted: that of a stray member, or the field's own.
fn miscounts(
    rows: &[Row],
    all: &[LocatedField],
    field: &Field,
    position: FieldPosition,
) -> Option<u32>
    ensures { result ≡ miscounts rows.now (places all.now) (entry field.now) position }
{
    match position {
        FieldPosition::Unknown => None,
        FieldPosition::InPart(place) | FieldPosition::Begins(place, _) => {
            if is_wrong(rows, all, place, field) {
                Some(field.tag)
            } else {
                None
            }
        }
        FieldPosition::Misplaced(_) => Some(group_of(field.tag, rows).unwrap_or(0)),
    }
}

// The count field of the first group that is miscounted.
fn miscounted(rows: &[Row], located: &[LocatedField]) -> Option<u32>
    ensures { result ≡ miscounted rows.now (places located.now) (places located.now) }
{
    for one in located {
        if let Some(tag) = miscounts(rows, located, &one.field, one.position) {
            return Some(tag);
        }
    }
    None
}

// Whether an instance that begins with the first field lacks the tag.
fn lacks(first: u32, tag: u32, begin: &LocatedField, onwards: &[LocatedField]) -> bool
    ensures { result ≡ lacks first tag begin.now.field.tag begin.now.position (places onwards.now) }
{
    match begin.position {
        FieldPosition::Begins(place, _) => begin.field.tag == first
            && !has_tag(tag, place, onwards),
        FieldPosition::Unknown | FieldPosition::InPart(_) | FieldPosition::Misplaced(_) => false,
    }
}

// Whether an instance of a group, by the group's first tag, lacks the tag.
fn lacking(first: u32, tag: u32, located: &[LocatedField]) -> bool
    ensures { result ≡ lacking first tag (places located.now) }
{
    for (index, one) in located.iter().enumerate() {
        if lacks(first, tag, one, &located[index..]) {
            return true;
        }
    }
    false
}

// Whether a row lacks a field.
fn is_lacking(rows: &[Row], row: &Row, located: &[LocatedField]) -> bool
    ensures { result ≡ is_lacking rows.now row.now (places located.now) }
{
    if row.group == 0 {
        !has_tag(row.tag, 0, located)
    } else {
        lacking(first_tag(row.group, rows), row.tag, located)
    }
}

// The first of some rows that is required and lacks a field.
fn missing_in(rows: &[Row], some: &[Row], located: &[LocatedField]) -> Option<u32>
    ensures { result ≡ missing_in rows.now some.now (places located.now) }
{
    for row in some {
        if row.required && is_lacking(rows, row, located) {
            return Some(row.tag);
        }
    }
    None
}

/// The first fault of the fields, by their positions.
#[tactic(auto, unfolding(crate::specs::GroupFaults::located_fault))]
pub fn located_fault(
    header: &[Row],
    rows: &[Row],
    located: &[LocatedField],
    fields: &[Field],
) -> Option<DictFault>
    ensures { result ≡ located_fault header.now rows.now (places located.now) (entries fields.now) }
{
    if let Some(tag) = twice(located) {
        return Some(DictFault::Twice(tag));
    }
    if let Some(tag) = miscounted(rows, located) {
        return Some(DictFault::Count(tag));
    }
    if let Some(tag) = missing_in(rows, header, located) {
        return Some(DictFault::Missing(tag));
    }
    if let Some(tag) = missing_in(rows, rows, located) {
        return Some(DictFault::Missing(tag));
    }
    misfit(header, rows, fields)
}
