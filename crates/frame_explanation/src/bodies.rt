//! The fields of a body by name, and its fault or its words.

ghost use Rattle.std.specs.Prelude.{◌≡◌, ◌≢◌, ◌++◌, [], OnOk, IfOk};
ghost use Rattle.std.specs.List.{flat_map};
ghost use Rattle.fix_fields.specs.Views.{entry, entries};
ghost use Rattle.fix_decoder.specs.Messages.{fault_in, message_in};
ghost use Rattle.fix_session.specs.Reader.{Reader};
ghost use Rattle.frame_explanation.specs.Bodies as bodies;

use crate::names::field_name;
use crate::parts::{Part, append_parts};
use fix_decoder::read_body;
use fix_dictionary::{App, Body};
use fix_fields::{Field, FieldFault, Fields, one_fault, one_list};
use fix_validation::DictFault;
use message_words::{came_words_of, readable_text, words_of};
use std::alloc::{AllocError, Global};

/// Which words a message has: those of a message that came, or of one that the venue sent.
#[derive(Clone, Copy)]
pub enum Direction {
    Came,
    Sent,
}

/// The rule of the dictionary that a field breaks, with the reason of the Reject for it.
fn rule_of(fault: DictFault) -> &'static [u8]
    ensures { result.now ≡ bodies.rule_of fault }
{
    match fault {
        DictFault::Twice(_) =>
            b"occurs twice, outside of groups or in one instance of a group (373=13)",
        DictFault::Count(_) =>
            b"counts another number of instances than there are, or a member is outside of an instance (373=16)",
        DictFault::Missing(_) => b"is required, and missing (373=1)",
        DictFault::Format(_) => b"has a value that is not of its form (373=6)",
        DictFault::Range(_) => b"has a value out of its range (373=5)",
        DictFault::NoMemory => b"",
    }
}

/// Appends the line of a fault of a tag.
fn append_tag_fault(out: &mut Vec<u8>, tag: u32, rule: &'static [u8]) -> Result<(), AllocError>
    ensures { OnOk result (out.new.items ≡ out.old.items ++ bodies.tag_fault tag rule.now) }
{
    append_parts(
        out,
        &[
            Part::Bytes(b"    fault: "),
            Part::Number(u64::from(tag)),
            Part::Bytes(b" ("),
            Part::Bytes(field_name(tag)),
            Part::Bytes(b") "),
            Part::Bytes(rule),
            Part::Bytes(b"\n"),
        ],
    )
}

fn append_fault(out: &mut Vec<u8>, fault: DictFault) -> Result<(), AllocError>
    ensures line { OnOk result (out.new.items ≡ out.old.items ++ bodies.fault_line fault) }
    ensures real { OnOk result (fault ≢ DictFault.NoMemory) }
{
    match fault {
        DictFault::NoMemory => Err(AllocError),
        DictFault::Twice(tag) => append_tag_fault(out, tag, rule_of(fault)),
        DictFault::Count(tag) => append_tag_fault(out, tag, rule_of(fault)),
        DictFault::Missing(tag) => append_tag_fault(out, tag, rule_of(fault)),
        DictFault::Format(tag) => append_tag_fault(out, tag, rule_of(fault)),
        DictFault::Range(tag) => append_tag_fault(out, tag, rule_of(fault)),
    }
}

/// Appends the line of the first piece that is no field.
fn append_piece_fault(out: &mut Vec<u8>, fault: FieldFault) -> Result<(), AllocError>
    ensures line { OnOk result (out.new.items ≡ out.old.items ++ bodies.piece_line fault) }
    ensures real { OnOk result (fault ≢ FieldFault.NoMemory) }
{
    match fault {
        FieldFault::BadTag => out.extend_from_slice(
            b"    fault: a piece between two SOHs is no tag=value (373=0)\n",
        ),
        FieldFault::NoValue(tag) => append_tag_fault(out, tag, b"has no value (373=4)"),
        FieldFault::NoMemory => Err(AllocError),
    }
}

/// Appends the line of a field of this tag, value and name.
fn append_named_field<'a>(
    out: &mut Vec<u8>,
    tag: u32,
    value: &'a [u8],
    name: &'a [u8],
) -> Result<(), AllocError>
    ensures { OnOk result (out.new.items ≡ out.old.items ++ bodies.named_field tag value.now name.now) }
{
    append_parts(
        out,
        &[
            Part::Bytes(b"    "),
            Part::Number(u64::from(tag)),
            Part::Bytes(b"="),
            Part::Bytes(value),
            Part::Bytes(b" ("),
            Part::Bytes(name),
            Part::Bytes(b")\n"),
        ],
    )
}

/// Appends the line of a field: its tag, its value and its name.
fn append_field(alloc: Global, out: &mut Vec<u8>, field: &Field) -> Result<(), AllocError>
    ensures { OnOk result (out.new.items ≡ out.old.items ++ bodies.field_line (entry field.now)) }
{
    let value = readable_text(alloc, field.value)?;
    append_named_field(out, field.tag, &value, field_name(field.tag))
}

fn append_fields(alloc: Global, out: &mut Vec<u8>, fields: &[Field]) -> Result<(), AllocError>
    ensures { OnOk result (out.new.items ≡ out.old.items ++ flat_map bodies.field_line (entries fields.now)) }
{
    for field in fields {
        append_field(alloc, out, field)?;
    }
    Ok(())
}

/// The words of a message of the venue.
fn app_words(alloc: Global, direction: Direction, app: &App) -> Result<Vec<u8>, AllocError>
    ensures { IfOk result (λ text. text.items ≡ bodies.app_words direction app.now) }
{
    match direction {
        Direction::Came => came_words_of(alloc, app),
        Direction::Sent => words_of(alloc, app),
    }
}

/// The words of a message; the session's own have none.
fn words_in(alloc: Global, direction: Direction, body: &Body) -> Result<Vec<u8>, AllocError>
    ensures { IfOk result (λ text. text.items ≡ bodies.words_in direction body.now) }
{
    match body {
        Body::App(app) => app_words(alloc, direction, app.get()),
        Body::Admin(_) => Ok(Vec::new(alloc)),
    }
}

/// Appends a line of words, if there are some.
pub(crate) fn append_words_line(
    out: &mut Vec<u8>,
    margin: &'static [u8],
    words: &[u8],
) -> Result<(), AllocError>
    ensures { OnOk result (out.new.items ≡ out.old.items ++ bodies.words_line margin.now words.now) }
{
    if words.is_empty() {
        return Ok(());
    }
    append_parts(
        out,
        &[Part::Bytes(margin), Part::Bytes(words), Part::Bytes(b"\n")],
    )
}

/// Appends the first fault of fields, or their message in words.
fn append_verdict(
    alloc: Global,
    out: &mut Vec<u8>,
    direction: Direction,
    fields: &Fields,
) -> Result<(), AllocError>
    ensures { OnOk result (out.new.items ≡ out.old.items ++ bodies.verdict direction (fault_in fields.now) (message_in fields.now).body) }
{
    match read_body(alloc, fields) {
        Ok(body) => {
            let words = words_in(alloc, direction, &body)?;
            append_words_line(out, b"    ", &words)
        }
        Err(fault) => append_fault(out, fault),
    }
}

fn append_named(
    alloc: Global,
    out: &mut Vec<u8>,
    direction: Direction,
    fields: &Fields,
) -> Result<(), AllocError>
    ensures { OnOk result (out.new.items ≡ out.old.items ++ bodies.named direction fields.now) }
{
    append_fields(alloc, out, fields.as_slice())?;
    append_verdict(alloc, out, direction, fields)
}

/// Appends a body that is not read as fields, and its first piece that is none.
fn append_unnamed(
    alloc: Global,
    out: &mut Vec<u8>,
    body: &[u8],
    fault: FieldFault,
) -> Result<(), AllocError>
    ensures line { OnOk result (out.new.items ≡ out.old.items ++ bodies.unnamed body.now fault) }
    ensures real { OnOk result (fault ≢ FieldFault.NoMemory) }
{
    let shown = readable_text(alloc, body)?;
    append_parts(
        out,
        &[
            Part::Bytes(b"    "),
            Part::Bytes(&shown),
            Part::Bytes(b"\n"),
        ],
    )?;
    append_piece_fault(out, fault)
}

/// Appends the lines of a body: each field by name, and then its fault or its words.
pub(crate) fn append_body(
    alloc: Global,
    out: &mut Vec<u8>,
    direction: Direction,
    body: &[u8],
) -> Result<(), AllocError>
    ensures { (r : Reader) → OnOk result (out.new.items ≡ out.old.items ++ bodies.body_text direction body.now (r.fields body.now)) }
{
    one_list();
    one_fault();
    let mut fields = Fields::new(alloc);
    match fields.read(body) {
        Ok(()) => append_named(alloc, out, direction, &fields),
        Err(fault) => append_unnamed(alloc, out, body, fault),
    }
}

fn line_of_fault(alloc: Global, fault: DictFault) -> Result<Vec<u8>, AllocError>
    ensures line { IfOk result (λ text. text.items ≡ bodies.fault_line fault) }
    ensures real { OnOk result (fault ≢ DictFault.NoMemory) }
{
    let mut line = Vec::new(alloc);
    append_fault(&mut line, fault)?;
    Ok(line)
}

fn line_of_piece(alloc: Global, fault: FieldFault) -> Result<Vec<u8>, AllocError>
    ensures line { IfOk result (λ text. text.items ≡ bodies.piece_line fault) }
    ensures real { OnOk result (fault ≢ FieldFault.NoMemory) }
{
    let mut line = Vec::new(alloc);
    append_piece_fault(&mut line, fault)?;
    Ok(line)
}

fn fault_of_fields(alloc: Global, fields: &Fields) -> Result<Vec<u8>, AllocError>
    ensures { IfOk result (λ text. text.items ≡ bodies.first_fault (fault_in fields.now)) }
{
    match read_body(alloc, fields) {
        Ok(_body) => Ok(Vec::new(alloc)),
        Err(fault) => line_of_fault(alloc, fault),
    }
}

/// The line of the fault of a body, if it has one.
pub(crate) fn body_fault(alloc: Global, body: &[u8]) -> Result<Vec<u8>, AllocError>
    ensures { (r : Reader) → IfOk result (λ text. text.items ≡ bodies.body_fault (r.fields body.now)) }
{
    one_list();
    one_fault();
    let mut fields = Fields::new(alloc);
    match fields.read(body) {
        Ok(()) => fault_of_fields(alloc, &fields),
        Err(fault) => line_of_piece(alloc, fault),
    }
}

fn no_words(alloc: Global, fault: DictFault) -> Result<Vec<u8>, AllocError>
    ensures empty { IfOk result (λ text. text.items ≡ []) }
    ensures real { OnOk result (fault ≢ DictFault.NoMemory) }
{
    match fault {
        DictFault::NoMemory => Err(AllocError),
        DictFault::Twice(_) => Ok(Vec::new(alloc)),
        DictFault::Count(_) => Ok(Vec::new(alloc)),
        DictFault::Missing(_) => Ok(Vec::new(alloc)),
        DictFault::Format(_) => Ok(Vec::new(alloc)),
        DictFault::Range(_) => Ok(Vec::new(alloc)),
    }
}

fn no_field_words(alloc: Global, fault: FieldFault) -> Result<Vec<u8>, AllocError>
    ensures empty { IfOk result (λ text. text.items ≡ []) }
    ensures real { OnOk result (fault ≢ FieldFault.NoMemory) }
{
    match fault {
        FieldFault::BadTag => Ok(Vec::new(alloc)),
        FieldFault::NoValue(_) => Ok(Vec::new(alloc)),
        FieldFault::NoMemory => Err(AllocError),
    }
}

/// The words of fields; none where they have a fault.
fn words_of_fields(alloc: Global, fields: &Fields) -> Result<Vec<u8>, AllocError>
    ensures { IfOk result (λ text. text.items ≡ bodies.sent_words (fault_in fields.now) (message_in fields.now).body) }
{
    match read_body(alloc, fields) {
        Ok(body) => words_in(alloc, Direction::Sent, &body),
        Err(fault) => no_words(alloc, fault),
    }
}

/// The words of a body that the venue sends; none where it has a fault, which no message of the venue has.
pub(crate) fn words_of_body(alloc: Global, body: &[u8]) -> Result<Vec<u8>, AllocError>
    ensures { (r : Reader) → IfOk result (λ text. text.items ≡ bodies.words_of_body (r.fields body.now)) }
{
    one_list();
    one_fault();
    let mut fields = Fields::new(alloc);
    match fields.read(body) {
        Ok(()) => words_of_fields(alloc, &fields),
        Err(fault) => no_field_words(alloc, fault),
    }
}
