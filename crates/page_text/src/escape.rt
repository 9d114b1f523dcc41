//! Escaping.
ghost use Rattle.std.specs.Prelude.{◌≡◌, ◌++◌, ◌∷◌, [], ◌<◌, OnOk};
ghost use Rattle.page_text.specs.Escapes.{digit, escaped, escaped_all};

use std::alloc::AllocError;

/// The hexadecimal digit of a number below 16.
fn digit_of(number: u8) -> u8
    requires { number < 16 }
    ensures { result ≡ digit number }
{
    if number < 10 {
        b'0' + number
    } else {
        b'W' + number
    }
}

/// Appends a byte as it is.
pub(crate) fn push(out: &mut Vec<u8>, byte: u8) -> Result<(), AllocError>
    ensures { OnOk result (out.new.items ≡ out.old.items ++ byte ∷ []) }
{
    match out.push(byte) {
        Ok(()) => Ok(()),
        Err(_) => Err(AllocError),
    }
}

/// Appends a byte as HTML has it in text and in double-quoted values.
fn escape(out: &mut Vec<u8>, byte: u8) -> Result<(), AllocError>
    ensures { OnOk result (out.new.items ≡ out.old.items ++ escaped byte) }
{
    match byte {
        b'&' => out.extend_from_slice(b"&amp;"),
        b'<' => out.extend_from_slice(b"&lt;"),
        b'>' => out.extend_from_slice(b"&gt;"),
        b'"' => out.extend_from_slice(b"&quot;"),
        b'\'' => out.extend_from_slice(b"&#39;"),
        b' '..=b'~' => push(out, byte),
        _ => {
            let digits = [
                b'&',
                b'#',
                b'x',
                digit_of(byte / 16),
                digit_of(byte % 16),
                b';',
            ];
            out.extend_from_slice(&digits)
        }
    }
}

/// Appends a value, byte by byte.
pub(crate) fn escape_all(out: &mut Vec<u8>, value: &[u8]) -> Result<(), AllocError>
    ensures { OnOk result (out.new.items ≡ out.old.items ++ escaped_all value.now) }
{
    for byte in value {
        escape(out, *byte)?;
    }
    Ok(())
}
