//! Fields that are written.

use crate::bytes::emitting::emit_last;
use fix_fields::FieldWriter;
use sef_moment::Moment;
use std::alloc::{AllocError, Global};

// Puts the fields of an execution report.
fn put_report(writer: &mut FieldWriter) -> Result<(), AllocError> {
    writer.put_bytes(35, b"8")?;
    writer.put_int(34, 1)?;
    writer.put_price(31, -250_000)?;
    writer.put_price(44, 2_502_500)?;
    writer.put_qty(32, 100)?;
    match Moment::of_ms(1_741_012_200_000) {
        Some(moment) => writer.put_utc(52, moment),
        None => Ok(()),
    }
}

// Puts fields with the least and the greatest tag and numbers, and with the longest text.
fn put_limits(writer: &mut FieldWriter) -> Result<(), AllocError> {
    writer.put_bytes(1, &[b'x'; 200])?;
    writer.put_int(999_999_999, u64::MAX)?;
    writer.put_int(36, 0)?;
    writer.put_qty(38, 1_000_000_000_000_000)?;
    writer.put_price(44, 7)?;
    writer.put_price(44, 0)?;
    writer.put_price(44, 1_000_000_000_000_000_000)?;
    writer.put_price(44, -1_000_000_000_000_000_000)
}

/// Writes a report and fields at their limits, and prints them.
pub fn emit_written(alloc: Global, emitted: &mut Vec<u8>) -> Result<(), AllocError> {
    let mut writer = FieldWriter::new(alloc);
    put_report(&mut writer)?;
    emit_last(alloc, "", writer.bytes(), emitted)?;
    let mut writer = FieldWriter::new(alloc);
    put_limits(&mut writer)?;
    emit_last(alloc, "", writer.bytes(), emitted)
}
