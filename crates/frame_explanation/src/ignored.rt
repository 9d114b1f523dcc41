//! The fields that the venue does not read.

ghost use Rattle.std.specs.Prelude.{◌≡◌, ◌≢◌, ◌==◌, ◌++◌, [], OnOk, IfOk, count_by};
ghost use Rattle.std.specs.List.{flat_map};
ghost use Rattle.fix_fields.specs.Views.{entries};
ghost use Rattle.fix_session.specs.Reader.{Reader};
ghost use Rattle.frame_explanation.specs.Ignored as ignored;

use crate::log_items::{Heard, Source};
use crate::names::ignored_name;
use crate::parts::{Part, append_parts};
use crate::pieces::value_in;
use fix_dictionary::MessageType;
use fix_fields::{Field, FieldFault, Fields, one_fault, one_list};
use fix_validation::{Row, header, resend_request_rows, rows_of, type_of};
use std::alloc::{AllocError, Global};

pub(crate) fn is_unsupported(kind: MessageType) -> bool
    ensures { result ≡ ignored.is_unsupported kind }
{
    matches!(kind, MessageType::Unsupported)
}

pub(crate) fn kind_of(body: &[u8]) -> MessageType
    ensures { result ≡ ignored.kind_of body.now }
{
    type_of(value_in(b"35=", body))
}

fn has_row(rows: &[Row], tag: u32) -> bool
    ensures { result ≡ ignored.has_row rows.now tag }
{
    rows.iter().any(|row| row.tag == tag)
}

/// Whether the rows of a type have a tag.
fn has_own_row(kind: MessageType, tag: u32) -> bool
    ensures { result ≡ ignored.has_own_row kind tag }
{
    match kind {
        MessageType::ResendRequest => has_row(&resend_request_rows(1), tag),
        _ => has_row(rows_of(kind), tag),
    }
}

/// Whether the venue reads a field in messages of a type.
fn is_read(kind: MessageType, tag: u32) -> bool
    ensures { result ≡ ignored.is_read kind tag }
{
    has_row(header(), tag) || has_own_row(kind, tag)
}

fn has_tag(tags: &[u32], tag: u32) -> bool
    ensures { result ≡ ignored.has_tag tags.now tag }
{
    tags.iter().any(|other| *other == tag)
}

/// Appends a tag, unless it is there.
fn add_tag(tags: &mut Vec<u32>, tag: u32) -> Result<(), AllocError>
    ensures { OnOk result (tags.new.items ≡ ignored.with_tag tags.old.items tag) }
{
    if has_tag(tags, tag) {
        return Ok(());
    }
    tags.push(tag)?;
    Ok(())
}

fn add_unread(tags: &mut Vec<u32>, kind: MessageType, tag: u32) -> Result<(), AllocError>
    ensures { OnOk result (tags.new.items ≡ ignored.unread_after kind tags.old.items tag) }
{
    if is_read(kind, tag) {
        return Ok(());
    }
    add_tag(tags, tag)
}

/// The tags of fields that the venue does not read in messages of a type, each once.
fn unread_tags(alloc: Global, kind: MessageType, fields: &[Field]) -> Result<Vec<u32>, AllocError>
    ensures { IfOk result (λ tags. tags.items ≡ ignored.unread_from kind [] (entries fields.now)) }
{
    let mut tags = Vec::new(alloc);
    for field in fields {
        add_unread(&mut tags, kind, field.tag)?;
    }
    Ok(tags)
}

/// The same; none in messages of a type that the venue does not know.
fn unread_in(alloc: Global, kind: MessageType, fields: &Fields) -> Result<Vec<u32>, AllocError>
    ensures { IfOk result (λ tags. tags.items ≡ ignored.unread_in kind fields.now) }
{
    if is_unsupported(kind) {
        return Ok(Vec::new(alloc));
    }
    unread_tags(alloc, kind, fields.as_slice())
}

fn none_of(alloc: Global, fault: FieldFault) -> Result<Vec<u32>, AllocError>
    ensures empty { IfOk result (λ tags. tags.items ≡ []) }
    ensures real { OnOk result (fault ≢ FieldFault.NoMemory) }
{
    match fault {
        FieldFault::BadTag => Ok(Vec::new(alloc)),
        FieldFault::NoValue(_) => Ok(Vec::new(alloc)),
        FieldFault::NoMemory => Err(AllocError),
    }
}

/// The tags of a message that the venue does not read, each once.
fn unread_of(alloc: Global, body: &[u8]) -> Result<Vec<u32>, AllocError>
    ensures { (r : Reader) → IfOk result (λ tags. tags.items ≡ ignored.unread_of body.now (r.fields body.now)) }
{
    one_list();
    one_fault();
    let kind = kind_of(body);
    let mut fields = Fields::new(alloc);
    match fields.read(body) {
        Ok(()) => unread_in(alloc, kind, &fields),
        Err(fault) => none_of(alloc, fault),
    }
}

/// The tags that the venue does not read of a participant's message.
fn ignored_in(alloc: Global, heard: &Heard) -> Result<Vec<u32>, AllocError>
    ensures { (r : Reader) → IfOk result (λ tags. tags.items ≡ ignored.ignored_in r heard.now) }
{
    match heard.item.source {
        Source::Participant => unread_of(alloc, &heard.item.body),
        Source::Venue => Ok(Vec::new(alloc)),
        Source::Assumed => Ok(Vec::new(alloc)),
        Source::Broken => Ok(Vec::new(alloc)),
    }
}

/// The tags of all messages, once for each message.
pub(crate) fn ignored_tags(alloc: Global, heard: &[Heard]) -> Result<Vec<u32>, AllocError>
    ensures { (r : Reader) → IfOk result (λ tags. tags.items ≡ ignored.ignored r heard.now) }
{
    let mut tags = Vec::new(alloc);
    for one in heard {
        let more = ignored_in(alloc, one)?;
        tags.extend_from_slice(&more)?;
    }
    Ok(tags)
}

fn distinct(alloc: Global, tags: &[u32]) -> Result<Vec<u32>, AllocError>
    ensures { IfOk result (λ kinds. kinds.items ≡ ignored.distinct_from [] tags.now) }
{
    let mut kinds = Vec::new(alloc);
    for tag in tags {
        add_tag(&mut kinds, *tag)?;
    }
    Ok(kinds)
}

/// How often a tag is among some.
fn count_of(tags: &[u32], tag: u32) -> u64
    ensures { result ≡ count_by (λ other. other == tag) tags.now }
{
    tags.iter().filter(|other| **other == tag).count() as u64
}

fn append_counted<'a>(
    out: &mut Vec<u8>,
    tag: u32,
    name: &'a [u8],
    count: u64,
) -> Result<(), AllocError>
    ensures { OnOk result (out.new.items ≡ out.old.items ++ ignored.counted_line tag name.now count) }
{
    append_parts(
        out,
        &[
            Part::Bytes(b"    ignored: "),
            Part::Number(u64::from(tag)),
            Part::Bytes(b" ("),
            Part::Bytes(name),
            Part::Bytes(b") in "),
            Part::Number(count),
            Part::Bytes(b" of the messages\n"),
        ],
    )
}

fn append_ignored(out: &mut Vec<u8>, tags: &[u32], tag: u32) -> Result<(), AllocError>
    ensures { OnOk result (out.new.items ≡ out.old.items ++ ignored.ignored_line tags.now tag) }
{
    append_counted(out, tag, ignored_name(tag), count_of(tags, tag))
}

fn append_each(out: &mut Vec<u8>, tags: &[u32], kinds: &[u32]) -> Result<(), AllocError>
    ensures { OnOk result (out.new.items ≡ out.old.items ++ flat_map (ignored.ignored_line tags.now) kinds.now) }
{
    for tag in kinds {
        append_ignored(out, tags, *tag)?;
    }
    Ok(())
}

/// Appends each of the tags once, with the number of its places.
pub(crate) fn append_tags(alloc: Global, out: &mut Vec<u8>, tags: &[u32]) -> Result<(), AllocError>
    ensures { OnOk result (out.new.items ≡ out.old.items ++ ignored.ignored_lines tags.now) }
{
    let kinds = distinct(alloc, tags)?;
    append_each(out, tags, &kinds)
}
