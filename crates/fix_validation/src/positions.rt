//! The positions of the fields of a message with repeating groups.
ghost use Rattle.std.specs.Prelude.{◌≡◌, ◌≤◌, ◌<◌, ◌+◌, length, IfOk};
ghost use Rattle.fix_fields.specs.Views.{entries};
ghost use Rattle.fix_validation.specs.Positions.{group_of, first_tag, is_count, opened, opened_in, goes_on, entered, misplaced, unopened, outer_step, inner_step, step_in, header_step, step, start, located, places, is_in, part, begins, first_begin, second_begin};

use crate::table::Row;
use fix_fields::Field;
use smallvec::SmallVec;
use std::alloc::{AllocError, Global};

/// The position of a field. Part 0 of a message is everything outside of its groups; each instance of a group is a
/// part, numbered in the order in which they begin.
#[derive(Clone, Copy, Default)]
pub enum FieldPosition {
    /// none: its tag is not named
    #[default]
    Unknown,
    /// in this part
    InPart(usize),
    /// at the beginning of this part, an instance of a group of another part
    Begins(usize, usize),
    /// in this part, though it is a member of one of its groups
    Misplaced(usize),
}

/// A group whose count field was read.
#[derive(Clone, Copy)]
pub struct OpenGroup {
    /// the tag of the count field
    pub group: u32,
    /// the part with the count field
    pub around: usize,
    /// the instance that began last
    pub instance: Option<usize>,
}

/// The open groups after some fields.
#[derive(Clone, Copy)]
pub struct State {
    /// the number of instances that have begun
    pub begun: usize,
    pub outer: Option<OpenGroup>,
    /// a group within an instance of the outer one
    pub inner: Option<OpenGroup>,
}

/// The position of one field, and the state after it.
#[derive(Clone, Copy)]
pub struct Stepped {
    pub position: FieldPosition,
    pub state: State,
}

/// The position of a member of an open group, and the group after it.
#[derive(Clone, Copy)]
pub struct Membership {
    pub position: FieldPosition,
    pub opening: OpenGroup,
    pub begun: usize,
}

/// A field and its position.
#[derive(Clone, Copy, Default)]
pub struct LocatedField<'a> {
    pub field: Field<'a>,
    pub position: FieldPosition,
}

/// The fields of a message with their positions. Up to 64 are kept without allocating.
pub type LocatedFields<'a> = SmallVec<LocatedField<'a>, 64>;

/// The fields of a part. Up to 24 are kept without allocating.
pub type Part<'a> = SmallVec<Field<'a>, 24>;

/// Part numbers. Up to 16 are kept without allocating.
pub type PartNumbers = SmallVec<usize, 16>;

// The group that a table puts a tag in, 0 for none, if it names the tag.
pub(crate) fn group_of(tag: u32, rows: &[Row]) -> Option<u32>
    ensures { result ≡ group_of tag rows.now }
{
    for row in rows {
        if row.tag == tag {
            return Some(row.group);
        }
    }
    None
}

// The first tag of a group, which is named by its count field.
pub(crate) fn first_tag(group: u32, rows: &[Row]) -> u32
    ensures { result ≡ first_tag group rows.now }
{
    for row in rows {
        if row.group == group {
            return row.tag;
        }
    }
    0
}

pub(crate) fn is_count(tag: u32, rows: &[Row]) -> bool
    ensures { result ≡ is_count tag rows.now }
{
    rows.iter().any(|row| row.group == tag)
}

fn opened(rows: &[Row], tag: u32, part: usize) -> Option<OpenGroup>
    ensures { result ≡ opened rows.now tag part }
{
    if is_count(tag, rows) {
        Some(OpenGroup {
            group: tag,
            around: part,
            instance: None,
        })
    } else {
        None
    }
}

fn opened_in(rows: &[Row], tag: u32, part: Option<usize>) -> Option<OpenGroup>
    ensures { result ≡ opened_in rows.now tag part }
{
    match part {
        Some(part) => opened(rows, tag, part),
        None => None,
    }
}

fn goes_on(opening: OpenGroup, instance: Option<usize>) -> FieldPosition
    ensures { result ≡ goes_on opening instance }
{
    match instance {
        Some(part) => FieldPosition::InPart(part),
        None => FieldPosition::Misplaced(opening.around),
    }
}

fn entered(rows: &[Row], begun: usize, opening: OpenGroup, tag: u32) -> Membership
    requires { begun < 18446744073709551615 }
    ensures value { result ≡ entered rows.now begun opening tag }
    ensures bound { result.begun ≤ begun + 1 }
{
    if tag == first_tag(opening.group, rows) {
        let begun = begun + 1;
        Membership {
            position: FieldPosition::Begins(begun, opening.around),
            opening: OpenGroup {
                group: opening.group,
                around: opening.around,
                instance: Some(begun),
            },
            begun,
        }
    } else {
        Membership {
            position: goes_on(opening, opening.instance),
            opening,
            begun,
        }
    }
}

fn misplaced(state: State) -> Stepped
    ensures { result ≡ misplaced state }
{
    Stepped {
        position: FieldPosition::Misplaced(0),
        state: State {
            begun: state.begun,
            outer: None,
            inner: None,
        },
    }
}

fn unopened(
    rows: &[Row],
    state: State,
    opening: OpenGroup,
    group: u32,
    instance: Option<usize>,
) -> Stepped
    ensures value { result ≡ unopened rows.now state opening group instance }
    ensures bound { result.state.begun ≤ state.begun + 1 }
{
    match instance {
        Some(part) => {
            if group_of(group, rows).unwrap_or(0) == opening.group {
                Stepped {
                    position: FieldPosition::Misplaced(part),
                    state: State {
                        begun: state.begun,
                        outer: state.outer,
                        inner: None,
                    },
                }
            } else {
                misplaced(state)
            }
        }
        None => misplaced(state),
    }
}

fn outer_step(rows: &[Row], state: State, tag: u32, group: u32, outer: Option<OpenGroup>) -> Stepped
    requires { state.begun < 18446744073709551615 }
    ensures value { result ≡ outer_step rows.now state tag group outer }
    ensures bound { result.state.begun ≤ state.begun + 1 }
{
    match outer {
        Some(opening) => {
            if opening.group == group {
                let entered = entered(rows, state.begun, opening, tag);
                Stepped {
                    position: entered.position,
                    state: State {
                        begun: entered.begun,
                        outer: Some(entered.opening),
                        inner: opened_in(rows, tag, entered.opening.instance),
                    },
                }
            } else {
                unopened(rows, state, opening, group, opening.instance)
            }
        }
        None => misplaced(state),
    }
}

fn inner_step(rows: &[Row], state: State, tag: u32, group: u32, inner: Option<OpenGroup>) -> Stepped
    requires { state.begun < 18446744073709551615 }
    ensures value { result ≡ inner_step rows.now state tag group inner }
    ensures bound { result.state.begun ≤ state.begun + 1 }
{
    match inner {
        Some(opening) => {
            if opening.group == group {
                let entered = entered(rows, state.begun, opening, tag);
                Stepped {
                    position: entered.position,
                    state: State {
                        begun: entered.begun,
                        outer: state.outer,
                        inner: Some(entered.opening),
                    },
                }
            } else {
                outer_step(rows, state, tag, group, state.outer)
            }
        }
        None => outer_step(rows, state, tag, group, state.outer),
    }
}

fn step_in(rows: &[Row], state: State, tag: u32, group: Option<u32>) -> Stepped
    requires { state.begun < 18446744073709551615 }
    ensures value { result ≡ step_in rows.now state tag group }
    ensures bound { result.state.begun ≤ state.begun + 1 }
{
    match group {
        Some(group) => {
            if group == 0 {
                Stepped {
                    position: FieldPosition::InPart(0),
                    state: State {
                        begun: state.begun,
                        outer: opened(rows, tag, 0),
                        inner: None,
                    },
                }
            } else {
                inner_step(rows, state, tag, group, state.inner)
            }
        }
        None => Stepped {
            position: FieldPosition::Unknown,
            state,
        },
    }
}

// The position of the next field. The header's fields are outside of groups, and leave them open.
fn step(header: &[Row], rows: &[Row], state: State, tag: u32) -> Stepped
    requires { state.begun < 18446744073709551615 }
    ensures value { result ≡ step header.now rows.now state tag }
    ensures bound { result.state.begun ≤ state.begun + 1 }
{
    match group_of(tag, header) {
        Some(_) => Stepped {
            position: FieldPosition::InPart(0),
            state,
        },
        None => step_in(rows, state, tag, group_of(tag, rows)),
    }
}

pub fn located<'a>(
    alloc: Global,
    header: &[Row],
    rows: &[Row],
    fields: &[Field<'a>],
) -> Result<LocatedFields<'a>, AllocError>
    ensures { IfOk result (λ all. places all.items ≡ located header.now rows.now start (entries fields.now)) }
{
    let mut all = SmallVec::new(alloc);
    let mut state = State {
        begun: 0,
        outer: None,
        inner: None,
    };
    for field in fields {
        let step = step(header, rows, state, field.tag);
        all.push(LocatedField {
            field: *field,
            position: step.position,
        })?;
        state = step.state;
    }
    Ok(all)
}

pub(crate) fn is_in(part: usize, position: FieldPosition) -> bool
    ensures { result ≡ is_in part position }
{
    match position {
        FieldPosition::Unknown => false,
        FieldPosition::InPart(place)
        | FieldPosition::Begins(place, _)
        | FieldPosition::Misplaced(place) => place == part,
    }
}

/// The fields of a part.
pub fn part<'a>(
    alloc: Global,
    located: &[LocatedField<'a>],
    place: usize,
) -> Result<Part<'a>, AllocError>
    ensures { IfOk result (λ fields. entries fields.items ≡ part place (places located.now)) }
{
    let mut fields = SmallVec::new(alloc);
    for one in located {
        if is_in(place, one.position) {
            fields.push(one.field)?;
        }
    }
    Ok(fields)
}

/// The instances of a group in a part, by the first tag of the group.
pub fn begins(
    alloc: Global,
    located: &[LocatedField],
    first: u32,
    around: usize,
) -> Result<PartNumbers, AllocError>
    ensures { IfOk result (λ parts. parts.items ≡ begins first around (places located.now)) }
{
    let mut parts = SmallVec::new(alloc);
    for one in located {
        if let FieldPosition::Begins(part, other) = one.position {
            if one.field.tag == first && other == around {
                parts.push(part)?;
            }
        }
    }
    Ok(parts)
}

/// The part of the first instance of a group outside of groups, or 0 where there is none.
pub fn first_begin(located: &[LocatedField], first: u32) -> usize
    ensures { result ≡ first_begin first (places located.now) }
{
    for one in located {
        if let FieldPosition::Begins(part, around) = one.position {
            if one.field.tag == first && around == 0 {
                return part;
            }
        }
    }
    0
}

/// The part of the second instance of a group outside of groups, or 0 where there is none.
pub fn second_begin(
    alloc: Global,
    located: &[LocatedField],
    first: u32,
) -> Result<usize, AllocError>
    ensures { IfOk result (λ part. part ≡ second_begin first (places located.now)) }
{
    let parts = begins(alloc, located, first, 0)?;
    match parts.as_slice() {
        [_, second, ..] => Ok(*second),
        [_] => Ok(0),
        [] => Ok(0),
    }
}
