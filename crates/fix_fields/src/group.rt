//! Repeating groups.
ghost use Rattle.std.specs.Prelude.{◌≡◌, ℕ, ◌≤◌, ◌==◌, ◌↔◌, IsTrue, false, List, [], ◌∷◌, length, map, MatchOption};
ghost use Rattle.std.specs.List.{count_by, position_or_len};
ghost use Rattle.std.specs.Iterator.{YieldsFirstBy, item_count};
ghost use Rattle.fix_fields.specs.Fields.{Entry};
ghost use Rattle.fix_fields.specs.Views.{entry, entries};
ghost use Rattle.fix_fields.specs.Groups.{has, is_member, is_own, is_named, is_end, kept, cut_before, shown, HasNo, IsGroup, IsInRange, GroupGives};
ghost use Rattle.fix_fields.specs.GroupParts.{begins_with, has_no, emits, is_whole, IsCut};

use crate::fields::Field;
use crate::value::read_integer;
use thiserror::Error;

// Above the number of fields of any list.
const MAX_COUNT: u64 = 1_000_000_000_000_000_000;

/// A repeating group, as the table of a message type names it.
#[derive(Clone, Copy)]
pub struct Group<'t> {
    /// The tag of the field with the number of instances.
    pub count: u32,
    /// The least number of instances.
    pub low: usize,
    /// The greatest number of instances.
    pub high: usize,
    /// The tag that begins each instance.
    pub first: u32,
    /// The other tags of an instance, including those of groups nested in it.
    pub others: &'t [u32],
    /// The tags that the type names outside of this group.
    pub outside: &'t [u32],
}

/// Why fields do not have the group.
#[derive(Clone, Copy, Debug, PartialEq, Eq, Drop, Error)]
pub enum GroupFault {
    /// The count is wrong, or a member is outside of an instance.
    #[error("wrong count, or a member outside of an instance")]
    Count,
    /// Too few instances, or too many.
    #[error("number of instances outside the range")]
    Range,
}

/// The instances of a group, in order: slices of the fields, with the fields among them that the message type does not
/// name.
#[derive(Drop)]
pub struct Instances<'f, 'a> {
    rest: &'f [Field<'a>],
    first: u32,
}

impl<'f, 'a> Instances<'f, 'a> {
    /// The number of instances that remain.
    pub fn number(&self) -> usize
        ensures { result ≡ length (shown self.now) }
    {
        count_of(self.rest, self.first)
    }
}

impl<'f, 'a> Iterator for Instances<'f, 'a> {
    type Item = &'f [Field<'a>];

    ghost next_gives = { YieldsFirstBy (λ instance. entries instance.now) shown };

    ghost remaining = { item_count shown };

    fn next(&mut self) -> Option<&'f [Field<'a>]> {
        let first = self.first;
        let (instance, rest) = first_instance(self.rest, first)?;
        *self = Instances { rest, first };
        Some(instance)
    }
}

// The first field with the tag and those up to the next one, and the fields after them.
fn first_instance<'f, 'a>(
    fields: &'f [Field<'a>],
    tag: u32,
) -> Option<(&'f [Field<'a>], &'f [Field<'a>])>
    ensures { MatchOption result
        (cut_before tag (entries fields.now) ≡ [])
        (λ parts. cut_before tag (entries fields.now) ≡ entries parts.0.now ∷ cut_before tag (entries parts.1.now)) }
{
    let (_, found) = fields.split_at(place_of(fields, tag));
    match found {
        [] => None,
        [_, behind @ ..] => Some(found.split_at(1 + place_of(behind, tag))),
    }
}

// The place of the first field with the tag, or the number of fields.
fn place_of(fields: &[Field<'_>], tag: u32) -> usize
    ensures exact { result ≡ position_or_len (λ field. field.tag == tag) fields.now }
    ensures bound { result ≤ length fields.now }
{
    for (place, field) in fields.iter().enumerate() {
        if field.tag == tag {
            return place;
        }
    }
    fields.len()
}

fn count_of(fields: &[Field<'_>], tag: u32) -> usize
    ensures { result ≡ count_by (λ field. field.tag == tag) fields.now }
{
    fields.iter().filter(|field| field.tag == tag).count()
}

fn has(tags: &[u32], tag: u32) -> bool
    ensures { result ≡ has tags.now tag }
{
    tags.iter().any(|other| *other == tag)
}

fn is_member(group: &Group<'_>, tag: u32) -> bool
    ensures { result ≡ is_member group.now tag }
{
    tag == group.first || has(group.others, tag)
}

fn is_own(group: &Group<'_>, tag: u32) -> bool
    ensures { result ≡ is_own group.now tag }
{
    tag == group.count || is_member(group, tag)
}

fn is_named(group: &Group<'_>, tag: u32) -> bool
    ensures { result ≡ is_named group.now tag }
{
    is_own(group, tag) || has(group.outside, tag)
}

fn is_end(group: &Group<'_>, tag: u32) -> bool
    ensures { result ≡ is_end group.now tag }
{
    is_named(group, tag) && !is_member(group, tag)
}

// The first field of a group, its candidate instances, and the fields after them.
#[derive(Clone, Copy)]
struct Parts<'f, 'a> {
    count: Field<'a>,
    body: &'f [Field<'a>],
    rest: &'f [Field<'a>],
}

// The place of the first field of the group, or the number of fields.
fn own_place(fields: &[Field<'_>], group: &Group<'_>) -> usize
    ensures exact { result ≡ position_or_len (λ field. is_own group.now field.tag) fields.now }
    ensures bound { result ≤ length fields.now }
{
    for (place, field) in fields.iter().enumerate() {
        if is_own(group, field.tag) {
            return place;
        }
    }
    fields.len()
}

// The place of the first field that ends the group, or the number of fields.
fn end_place(fields: &[Field<'_>], group: &Group<'_>) -> usize
    ensures exact { result ≡ position_or_len (λ field. is_end group.now field.tag) fields.now }
    ensures bound { result ≤ length fields.now }
{
    for (place, field) in fields.iter().enumerate() {
        if is_end(group, field.tag) {
            return place;
        }
    }
    fields.len()
}

// The parts of the group, if a field belongs to it.
fn parts_of<'f, 'a>(fields: &'f [Field<'a>], group: &Group<'_>) -> Option<Parts<'f, 'a>>
    ensures { MatchOption result
        (HasNo (is_own group.now) (entries fields.now))
        (λ parts. IsCut group.now (entries fields.now) (entry parts.count) (entries parts.body.now) (entries parts.rest.now)) }
{
    let (_, found) = fields.split_at(own_place(fields, group));
    let [count, behind @ ..] = found else {
        return None;
    };
    let (body, rest) = behind.split_at(end_place(behind, group));
    Some(Parts {
        count: *count,
        body,
        rest,
    })
}

// Whether the first field that the type names begins an instance.
fn begins_right(fields: &[Field<'_>], group: &Group<'_>) -> bool
    ensures { result ≡ begins_with group.now.first (kept group.now (entries fields.now)) }
{
    for field in fields {
        if is_named(group, field.tag) {
            return field.tag == group.first;
        }
    }
    true
}

fn has_no_member(fields: &[Field<'_>], group: &Group<'_>) -> bool
    ensures { result ≡ has_no (is_member group.now) (entries fields.now) }
{
    for field in fields {
        if is_member(group, field.tag) {
            return false;
        }
    }
    true
}

// Whether a text spells the number.
fn emits(text: &[u8], number: usize) -> bool
    ensures { result ≡ emits number text.now }
{
    match read_integer(text, 0, MAX_COUNT) {
        Ok(stated) => stated == number as u64,
        Err(_) => false,
    }
}

// Whether the parts are a group with that many instances.
fn is_whole(parts: &Parts<'_, '_>, group: &Group<'_>, number: usize) -> bool
    ensures { result ≡ is_whole group.now (entry parts.now.count) (entries parts.now.body.now) (entries parts.now.rest.now) number }
{
    parts.count.tag == group.count
        && begins_right(parts.body, group)
        && has_no_member(parts.rest, group)
        && emits(parts.count.value, number)
}

fn is_in_range(group: &Group<'_>, number: usize) -> bool
    ensures { IsTrue result ↔ IsInRange group.now number }
{
    group.low <= number && number <= group.high
}

/// The instances of a group among fields, or `None` where no field belongs to the group. The fields of the instances
/// are borrowed.
pub fn group_among<'f, 'a>(
    fields: &'f [Field<'a>],
    group: &Group<'_>,
) -> Result<Option<Instances<'f, 'a>>, GroupFault>
    requires { has group.now.others.now group.now.first ≡ false }
    ensures { GroupGives group.now (entries fields.now) result }
{
    let Some(parts) = parts_of(fields, group) else {
        return Ok(None);
    };
    let instances = Instances {
        rest: parts.body,
        first: group.first,
    };
    let number = instances.number();
    if !is_whole(&parts, group, number) {
        return Err(GroupFault::Count);
    }
    if !is_in_range(group, number) {
        return Err(GroupFault::Range);
    }
    Ok(Some(instances))
}

/// Law call (docs/ARCHITECTURE.md): the fields determine the instances of a group.
pub fn one_group()
    ensures { (g : Group) (fields : List Entry) (instances others : List (List Entry)) → has g.others.now g.first ≡ false
        → IsGroup g fields instances → IsGroup g fields others → instances ≡ others }
{}
