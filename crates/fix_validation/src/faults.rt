//! The first fault of a body's fields.
ghost use Rattle.std.specs.Prelude.{◌≡◌, ◌++◌, ◌+◌, [], is_some, Some, None, ◌&&◌};
ghost use Rattle.fix_fields.specs.Views.{entries};
ghost use Rattle.fix_validation.specs.Faults.{form_of, has_tag, repeated, missing, fault_as, misfit, first_fault};

use crate::by_tag::are_faultless;
use crate::forms::value_fault;
use crate::table::{Form, Row};
use fix_fields::{Field, ValueFault};
use thiserror::Error;

/// Why fields are not a message. Each fault names a tag.
#[derive(Clone, Copy, Debug, PartialEq, Eq, Drop, Error)]
pub enum DictFault {
    /// 1: the tag occurs twice outside of groups, or in one instance of a group.
    #[error("tag {0} stands twice")]
    Twice(u32),
    /// 2: the group of this count field has another number of instances, or a member is outside of an instance.
    #[error("the group of tag {0} is miscounted")]
    Count(u32),
    /// 3: the required tag is absent.
    #[error("tag {0} is missing")]
    Missing(u32),
    /// 4: the value of the tag lacks its form.
    #[error("the value of tag {0} has not its form")]
    Format(u32),
    /// 5: the value of the tag is outside its range.
    #[error("the value of tag {0} is out of range")]
    Range(u32),
    /// An allocation failed.
    #[error("out of memory")]
    NoMemory,
}

// The form that a table gives a tag, if it names it.
fn form_of(tag: u32, rows: &[Row]) -> Option<Form>
    ensures { result ≡ form_of tag rows.now }
{
    for row in rows {
        if row.tag == tag {
            return Some(row.form);
        }
    }
    None
}

pub(crate) fn has_tag(tag: u32, fields: &[Field]) -> bool
    ensures { result ≡ has_tag tag (entries fields.now) }
{
    for field in fields {
        if field.tag == tag {
            return true;
        }
    }
    false
}

// The first row that is required and has no field.
fn missing(rows: &[Row], fields: &[Field]) -> Option<u32>
    ensures { result ≡ missing rows.now (entries fields.now) }
{
    for row in rows {
        if row.required && !has_tag(row.tag, fields) {
            return Some(row.tag);
        }
    }
    None
}

// The fault of a value, by the form that the tables give its tag.
fn fault_as(form: Option<Form>, value: &[u8]) -> Option<ValueFault>
    ensures { result ≡ fault_as form value.now }
{
    match form {
        Some(form) => value_fault(form, value),
        None => None,
    }
}

// The form that a header or a table gives a tag.
#[tactic(auto, using(crate::proofs::RowLemmas::form_of_append))]
fn form_in(header: &[Row], rows: &[Row], tag: u32) -> Option<Form>
    ensures { result ≡ form_of tag (header.now ++ rows.now) }
{
    match form_of(tag, header) {
        Some(form) => Some(form),
        None => form_of(tag, rows),
    }
}

// The first field that is named and repeats the tag of an earlier one. Each named field is compared with those before
// it, and there are no more of them than rows until one repeats.
fn repeated(header: &[Row], rows: &[Row], fields: &[Field]) -> Option<u32>
    ensures { result ≡ repeated (header.now ++ rows.now) [] (entries fields.now) }
{
    for (place, field) in fields.iter().enumerate() {
        let named = form_in(header, rows, field.tag).is_some();
        if named && has_tag(field.tag, &fields[..place]) {
            return Some(field.tag);
        }
    }
    None
}

// The first required row, of the header or the table, that has no field.
#[tactic(auto, using(crate::proofs::RowLemmas::missing_append))]
fn missing_in(header: &[Row], rows: &[Row], fields: &[Field]) -> Option<u32>
    ensures { result ≡ missing (header.now ++ rows.now) (entries fields.now) }
{
    match missing(header, fields) {
        Some(tag) => Some(tag),
        None => missing(rows, fields),
    }
}

/// The first field whose value lacks its form, or else the first whose value is outside its range.
pub(crate) fn misfit(header: &[Row], rows: &[Row], fields: &[Field]) -> Option<DictFault>
    ensures { result ≡ misfit (header.now ++ rows.now) (entries fields.now) }
{
    let mut outside = None;
    for field in fields {
        match fault_as(form_in(header, rows, field.tag), field.value) {
            Some(ValueFault::Format) => return Some(DictFault::Format(field.tag)),
            Some(ValueFault::Range) => outside = outside.or(Some(DictFault::Range(field.tag))),
            None => {}
        }
    }
    outside
}

// The first fault of the fields, searched kind by kind.
#[tactic(auto, unfolding(crate::specs::Faults::first_fault))]
fn fault_by_kinds(header: &[Row], rows: &[Row], fields: &[Field]) -> Option<DictFault>
    ensures { result ≡ first_fault (header.now ++ rows.now) (entries fields.now) }
{
    if let Some(tag) = repeated(header, rows, fields) {
        return Some(DictFault::Twice(tag));
    }
    if let Some(tag) = missing_in(header, rows, fields) {
        return Some(DictFault::Missing(tag));
    }
    misfit(header, rows, fields)
}

/// The first fault of the fields. Most have none, and a quick check of that comes first.
pub fn first_fault(header: &[Row], rows: &[Row], fields: &[Field]) -> Option<DictFault>
    ensures { result ≡ first_fault (header.now ++ rows.now) (entries fields.now) }
{
    if are_faultless(header, rows, fields) {
        None
    } else {
        fault_by_kinds(header, rows, fields)
    }
}
