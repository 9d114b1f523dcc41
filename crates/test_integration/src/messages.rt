//! When the tests begin, and messages as texts.

use fix_decoder::read_app;
use fix_dictionary::App;
use fix_fields::split;
use sef_moment::Moment;
use std::alloc::{AllocError, Global};

/// 20250303-14:30:00, in milliseconds since 1970.
const START: u64 = 1_741_012_200_000;

pub fn start() -> Moment {
    Moment::of_ms(START).unwrap()
}

/// The bytes of a text in which `|` stands for SOH.
pub fn bytes_of(alloc: Global, text: &str) -> Result<Vec<u8>, AllocError> {
    let mut bytes = Vec::new(alloc);
    for byte in text.as_bytes() {
        bytes.push(if *byte == b'|' { 1 } else { *byte })?;
    }
    Ok(bytes)
}

/// The application message of a body without a header, if it is one.
pub fn app_of(alloc: Global, body: &[u8]) -> Option<App> {
    let Ok(fields) = split(alloc, body) else {
        return None;
    };
    match read_app(alloc, &fields) {
        Ok(app) => Some(app),
        Err(_) => None,
    }
}
