//! The cause for which an instrument file is refused.

ghost use Rattle.std.specs.Prelude.{◌≡◌};
ghost use Rattle.toml.specs.View.{view};
ghost use Rattle.file_diagnosis.specs.Instruments.{count_cause, instruments_cause, missing_cause, repeat_cause, value_cause};

use crate::cause::{Cause, Key, Look, Part, Wrong};
use crate::search::{first_in, whole};
use config_format::{entries, is_absent, is_no_list, is_without_entry};
use toml::Value;

/// The most instruments of a file.
pub(crate) const MAX_INSTRUMENTS: usize = 256;

fn missing_cause(file: &Value) -> Option<Cause>
    ensures { result ≡ missing_cause (view file.now) }
{
    if is_absent(file, "instrument") {
        return Some(whole(Part::Instruments, Wrong::Absent));
    }
    if is_without_entry(file, "instrument") {
        return Some(whole(Part::Instruments, Wrong::NoEntry));
    }
    if let Some(cause) = first_in(file, Part::Instruments, Look::Lack(Key::Symbol)) {
        return Some(cause);
    }
    if let Some(cause) = first_in(file, Part::Instruments, Look::Lack(Key::Tick)) {
        return Some(cause);
    }
    if let Some(cause) = first_in(file, Part::Instruments, Look::Lack(Key::Least)) {
        return Some(cause);
    }
    first_in(file, Part::Instruments, Look::Lack(Key::RequestLife))
}

fn value_cause(file: &Value) -> Option<Cause>
    ensures { result ≡ value_cause (view file.now) }
{
    if is_no_list(file, "instrument") {
        return Some(whole(Part::Instruments, Wrong::NoList));
    }
    first_in(file, Part::Instruments, Look::BadInstrument)
}

fn count_cause(file: &Value) -> Option<Cause>
    ensures { result ≡ count_cause (view file.now) }
{
    if entries(file, "instrument").len() > MAX_INSTRUMENTS {
        Some(whole(Part::Instruments, Wrong::TooMany))
    } else {
        None
    }
}

fn repeat_cause(file: &Value) -> Option<Cause>
    ensures { result ≡ repeat_cause (view file.now) }
{
    first_in(file, Part::Instruments, Look::Repeat(Key::Symbol))
}

/// The cause for which a document is refused as an instrument file, if it is: the first one, in the order in which its
/// reader searches.
pub fn instruments_cause(file: &Value) -> Option<Cause>
    ensures { result ≡ instruments_cause (view file.now) }
{
    if let Some(cause) = missing_cause(file) {
        return Some(cause);
    }
    if let Some(cause) = value_cause(file) {
        return Some(cause);
    }
    if let Some(cause) = count_cause(file) {
        return Some(cause);
    }
    repeat_cause(file)
}
