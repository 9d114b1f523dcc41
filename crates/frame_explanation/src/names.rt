//! The FIX names of fields and message types.

ghost use Rattle.std.specs.Prelude.{◌≡◌, map};
ghost use Rattle.data_dictionary.specs.MessageTypes as listed;
ghost use Rattle.frame_explanation.specs.Names as names;

use data_dictionary::{Listed, application_types, name_of, session_types};

/// The name of the type among these; empty where none of them is it.
fn name_among(kinds: &[Listed], code: &[u8]) -> &'static [u8]
    ensures { result.now ≡ names.name_among (map listed.seen kinds.now) code.now }
{
    for kind in kinds {
        if kind.code.as_bytes() == code {
            return kind.name.as_bytes();
        }
    }
    b""
}

/// The FIX name of a message type, by the value of 35.
pub(crate) fn kind_name(code: &[u8]) -> &'static [u8]
    ensures { result.now ≡ names.kind_name code.now }
{
    let own = name_among(session_types(), code);
    if !own.is_empty() {
        return own;
    }
    let application = name_among(application_types(), code);
    if application.is_empty() {
        b"a type that the venue does not know"
    } else {
        application
    }
}

/// The FIX name of a field.
pub(crate) fn field_name(tag: u32) -> &'static [u8]
    ensures { result.now ≡ names.field_name tag }
{
    let name = name_of(tag).as_bytes();
    if name.is_empty() {
        b"no field of the venue"
    } else {
        name
    }
}

/// The FIX name of a field that changes what an order means, and that the venue does not read; else empty.
fn order_name(tag: u32) -> &'static [u8]
    ensures { result.now ≡ names.order_name tag }
{
    match tag {
        1 => b"Account",
        18 => b"ExecInst",
        110 => b"MinQty",
        111 => b"MaxFloor",
        210 => b"MaxShow",
        432 => b"ExpireDate",
        582 => b"CustOrderCapacity",
        1138 => b"DisplayQty",
        _ => b"",
    }
}

/// The FIX name of a field that the venue does not read.
pub(crate) fn ignored_name(tag: u32) -> &'static [u8]
    ensures { result.now ≡ names.ignored_name tag }
{
    let name = order_name(tag);
    if name.is_empty() {
        field_name(tag)
    } else {
        name
    }
}
