//! A message as FIX has it, so that one can see it.
ghost use Rattle.std.specs.Prelude.{◌≡◌, ◌++◌, OnOk, IfOk};
ghost use Rattle.fix_dictionary.specs.Text.{app_text};
ghost use Rattle.message_words.specs.Visible.{fix_text, readable, readable_byte, visible, visible_byte};

use crate::json::hex_digit;
use fix_dictionary::App;
use fix_encoder::print_app;
use std::alloc::{AllocError, Global};
use trade_blotter::append;

/// What stands in the place of a byte.
fn visible_byte(byte: u8) -> u8
    ensures { result ≡ visible_byte byte }
{
    if byte == 1 { b'|' } else { byte }
}

/// Appends a text of FIX with | for the byte 1.
fn append_visible(out: &mut Vec<u8>, text: &[u8]) -> Result<(), AllocError>
    ensures { OnOk result (out.new.items ≡ out.old.items ++ visible text.now) }
{
    for byte in text {
        out.push(visible_byte(*byte))?;
    }
    Ok(())
}

/// A text of FIX with | for the byte 1.
fn visible_text(alloc: Global, text: &[u8]) -> Result<Vec<u8>, AllocError>
    ensures { IfOk result (λ out. out.items ≡ visible text.now) }
{
    let mut out = Vec::with_capacity(alloc, text.len())?;
    append_visible(&mut out, text)?;
    Ok(out)
}

fn append_readable_byte(out: &mut Vec<u8>, byte: u8) -> Result<(), AllocError>
    ensures { OnOk result (out.new.items ≡ out.old.items ++ readable_byte byte) }
{
    if byte == 1 {
        append(out, &[b"|"])
    } else if byte < 32 || 126 < byte {
        append(
            out,
            &[b"\\x", &[hex_digit(byte / 16), hex_digit(byte % 16)]],
        )
    } else {
        append(out, &[&[byte]])
    }
}

fn append_readable(out: &mut Vec<u8>, text: &[u8]) -> Result<(), AllocError>
    ensures { OnOk result (out.new.items ≡ out.old.items ++ readable text.now) }
{
    for byte in text {
        append_readable_byte(out, *byte)?;
    }
    Ok(())
}

/// The text of a row with | for the byte 1, and \x and two hexadecimal digits for each other byte that is not printed.
pub fn readable_text(alloc: Global, text: &[u8]) -> Result<Vec<u8>, AllocError>
    ensures { IfOk result (λ out. out.items ≡ readable text.now) }
{
    let mut out = Vec::with_capacity(alloc, text.len())?;
    append_readable(&mut out, text)?;
    Ok(out)
}

/// A message as FIX has it, byte by byte.
pub fn message_text(alloc: Global, app: &App) -> Result<Vec<u8>, AllocError>
    ensures { IfOk result (λ text. text.items ≡ app_text app.now) }
{
    let mut text = Vec::new(alloc);
    print_app(app, &mut text)?;
    Ok(text)
}

/// A message as FIX has it, with | for the byte 1.
pub fn fix_text(alloc: Global, app: &App) -> Result<Vec<u8>, AllocError>
    ensures { IfOk result (λ text. text.items ≡ fix_text app.now) }
{
    let text = message_text(alloc, app)?;
    visible_text(alloc, &text)
}
