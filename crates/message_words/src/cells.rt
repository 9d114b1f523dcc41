//! Rows of a table for a spreadsheet: comma-separated values (RFC 4180).
ghost use Rattle.std.specs.Prelude.{◌≡◌, ◌++◌, ◌∷◌, [], decimal, IfOk, OnOk};
ghost use Rattle.csv.specs.Records.{fields_of, partial_of};
ghost use Rattle.csv.specs.Writing.{row_text};
ghost use Rattle.sef_moment.specs.Utc.{utc_text};
ghost use Rattle.message_words.specs.Cells.{setup};

use csv::{ByteRecord, Terminator, WriterBuilder};
use itoa::Buffer;
use sef_moment::{Moment, print_utc};
use std::alloc::{AllocError, Global};

/// The bytes of a row.
pub fn row_bytes(alloc: Global, row: &ByteRecord) -> Result<Vec<u8>, AllocError>
    ensures { IfOk result (λ bytes. bytes.items ≡ row_text setup (fields_of row.now)) }
{
    let mut writer = WriterBuilder::new()
        .terminator(Terminator::CRLF)
        .from_writer(Vec::new(alloc));
    // A write into memory fails only where an allocation fails.
    if writer.write_byte_record(row).is_err() {
        return Err(AllocError);
    }
    match writer.into_inner() {
        Ok(bytes) => Ok(bytes),
        Err(_) => Err(AllocError),
    }
}

/// Adds a number.
pub fn push_number(row: &mut ByteRecord, number: u64) -> Result<(), AllocError>
    requires { partial_of row.old ≡ [] }
    ensures partial { OnOk result (partial_of row.new ≡ []) }
    ensures fields { OnOk result (fields_of row.new ≡ fields_of row.old ++ decimal number ∷ []) }
{
    let mut buffer = Buffer::new();
    row.push_field(buffer.format(number).as_bytes())
}

/// Adds a moment.
pub fn push_moment(made: &mut ByteRecord, moment: Moment) -> Result<(), AllocError>
    requires { partial_of made.old ≡ [] }
    ensures partial { OnOk result (partial_of made.new ≡ []) }
    ensures fields { OnOk result (fields_of made.new ≡ fields_of made.old ++ utc_text moment ∷ []) }
{
    let emitted = print_utc(moment);
    made.push_field(&emitted)
}
