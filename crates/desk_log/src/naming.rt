//! What a message is, in a few words.

ghost use Rattle.std.specs.Prelude.{◌≡◌, bytes_eq, codes};
ghost use Rattle.desk_log.specs.Naming as specs;

use fix_pieces::first_value;

/// The value of a field of a text, or nothing.
pub(crate) fn field<'a>(prefix: &[u8], text: &'a [u8]) -> &'a [u8]
    ensures { result.now ≡ specs.field prefix.now text.now }
{
    match first_value(prefix, text) {
        Some(value) => value,
        None => b"",
    }
}

fn is(value: &[u8], other: &[u8]) -> bool
    ensures { result ≡ bytes_eq value.now other.now }
{
    value == other
}

/// The type of a message.
pub(crate) fn kind_of(text: &[u8]) -> &[u8]
    ensures { result.now ≡ specs.field (codes "35=") text.now }
{
    field(b"35=", text)
}

/// The number of an order, or its own identifier where it has none.
fn order_named(text: &[u8]) -> &[u8]
    ensures { result.now ≡ specs.order_named text.now }
{
    let order = field(b"37=", text);
    if is(order, b"NONE") {
        return field(b"11=", text);
    }
    order
}

/// The words for a type.
pub(crate) fn kind_words(kind: &[u8]) -> &'static [u8]
    ensures { result.now ≡ specs.kind_words kind.now }
{
    if is(kind, b"8") {
        b"an execution report on "
    } else if is(kind, b"9") {
        b"an order cancel reject on "
    } else if is(kind, b"R") {
        b"a quote request, "
    } else if is(kind, b"S") {
        b"a quote, "
    } else if is(kind, b"AI") {
        b"a quote status report on "
    } else if is(kind, b"AG") {
        b"a quote request reject on "
    } else if is(kind, b"W") {
        b"a market data snapshot for "
    } else if is(kind, b"Y") {
        b"a market data request reject on "
    } else if is(kind, b"j") {
        b"a business message reject of number "
    } else {
        b"a message of type "
    }
}

/// The identifier of what a message of a type is about.
pub(crate) fn named_of<'a>(kind: &'a [u8], text: &'a [u8]) -> &'a [u8]
    ensures { result.now ≡ specs.named_of kind.now text.now }
{
    if is(kind, b"8") {
        order_named(text)
    } else if is(kind, b"9") {
        order_named(text)
    } else if is(kind, b"R") {
        field(b"131=", text)
    } else if is(kind, b"S") {
        field(b"117=", text)
    } else if is(kind, b"AI") {
        field(b"117=", text)
    } else if is(kind, b"AG") {
        field(b"131=", text)
    } else if is(kind, b"W") {
        field(b"262=", text)
    } else if is(kind, b"Y") {
        field(b"262=", text)
    } else if is(kind, b"j") {
        field(b"45=", text)
    } else {
        kind
    }
}
