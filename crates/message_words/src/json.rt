//! JSON Lines: objects of JSON (RFC 8259), each on a line of its own.
ghost use Rattle.std.specs.Prelude.{◌≡◌, ◌<◌, ◌++◌, ◌∷◌, OnOk};
ghost use Rattle.std.specs.List.{flat_map};
ghost use Rattle.message_words.specs.Json.{escaped, hex_digit, json_byte, json_shown, json_text, lent_line, member_text, next_member};

use std::alloc::AllocError;
use trade_blotter::{append, append_number};

/// A value of JSON.
#[derive(Clone, Copy)]
pub enum JsonValue<'a> {
    /// bytes, each as the character of the same number
    Text(&'a [u8]),
    Number(u64),
    Null,
}

/// A member of an object.
#[derive(Clone, Copy)]
pub struct JsonMember<'a> {
    pub name: &'a [u8],
    pub value: JsonValue<'a>,
}

pub(crate) fn hex_digit(n: u8) -> u8
    requires { n < 16 }
    ensures { result ≡ hex_digit n }
{
    if n < 10 { n + b'0' } else { n + 87 }
}

fn append_escaped(out: &mut Vec<u8>, byte: u8) -> Result<(), AllocError>
    ensures { OnOk result (out.new.items ≡ out.old.items ++ escaped byte) }
{
    append(
        out,
        &[b"\\u00", &[hex_digit(byte / 16), hex_digit(byte % 16)]],
    )
}

fn append_byte(out: &mut Vec<u8>, byte: u8) -> Result<(), AllocError>
    ensures { OnOk result (out.new.items ≡ out.old.items ++ json_byte byte) }
{
    if byte == b'"' || byte == b'\\' {
        append(out, &[b"\\", &[byte]])
    } else if byte < 32 || 126 < byte {
        append_escaped(out, byte)
    } else {
        append(out, &[&[byte]])
    }
}

fn append_bytes(out: &mut Vec<u8>, text: &[u8]) -> Result<(), AllocError>
    ensures { OnOk result (out.new.items ≡ out.old.items ++ flat_map json_byte text.now) }
{
    for byte in text {
        append_byte(out, *byte)?;
    }
    Ok(())
}

/// Appends a text as JSON has it.
pub fn append_json_text(out: &mut Vec<u8>, text: &[u8]) -> Result<(), AllocError>
    ensures { OnOk result (out.new.items ≡ out.old.items ++ json_text text.now) }
{
    append(out, &[b"\""])?;
    append_bytes(out, text)?;
    append(out, &[b"\""])
}

fn append_json_value(out: &mut Vec<u8>, value: &JsonValue) -> Result<(), AllocError>
    ensures { OnOk result (out.new.items ≡ out.old.items ++ json_shown value.now) }
{
    match value {
        JsonValue::Text(text) => append_json_text(out, text),
        JsonValue::Number(number) => append_number(out, b"", *number),
        JsonValue::Null => append(out, &[b"null"]),
    }
}

fn append_member(out: &mut Vec<u8>, member: &JsonMember) -> Result<(), AllocError>
    ensures { OnOk result (out.new.items ≡ out.old.items ++ member_text member.now.name.now (json_shown member.now.value)) }
{
    append_json_text(out, member.name)?;
    append(out, &[b":"])?;
    append_json_value(out, &member.value)
}

/// Appends a member behind another.
fn append_next(out: &mut Vec<u8>, member: &JsonMember) -> Result<(), AllocError>
    ensures { OnOk result (out.new.items ≡ out.old.items ++ next_member member.now.name.now (json_shown member.now.value)) }
{
    append(out, &[b","])?;
    append_member(out, member)
}

fn append_others(out: &mut Vec<u8>, members: &[JsonMember]) -> Result<(), AllocError>
    ensures { OnOk result (out.new.items ≡ out.old.items ++ flat_map (λ m. next_member m.name.now (json_shown m.value)) members.now) }
{
    for member in members {
        append_next(out, member)?;
    }
    Ok(())
}

/// Appends an object, on a line of its own.
pub fn append_object(out: &mut Vec<u8>, members: &[JsonMember]) -> Result<(), AllocError>
    ensures { OnOk result (out.new.items ≡ out.old.items ++ lent_line members.now) }
{
    match members.split_first() {
        None => append(out, &[b"{}\n"]),
        Some((first, others)) => {
            append(out, &[b"{"])?;
            append_member(out, first)?;
            append_others(out, others)?;
            append(out, &[b"}\n"])
        }
    }
}
