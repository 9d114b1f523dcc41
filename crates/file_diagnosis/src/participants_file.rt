//! The cause for which a participant file is refused.

ghost use Rattle.std.specs.Prelude.{◌≡◌};
ghost use Rattle.toml.specs.View.{view};
ghost use Rattle.file_diagnosis.specs.Participants.{count_cause, missing_cause, participants_cause, repeat_cause, unknown_cause, value_cause};

use crate::cause::{Cause, Key, Look, Part, Wrong};
use crate::search::{first_in, whole};
use config_format::{entries, is_absent, is_no_list, is_no_name, is_without_entry};
use toml::Value;

/// The most participants of a file.
pub(crate) const MAX_PARTICIPANTS: usize = 32;

fn missing_cause(file: &Value) -> Option<Cause>
    ensures { result ≡ missing_cause (view file.now) }
{
    if is_absent(file, "venue") {
        return Some(whole(Part::Venue, Wrong::Absent));
    }
    if is_absent(file, "participant") {
        return Some(whole(Part::Participants, Wrong::Absent));
    }
    if is_without_entry(file, "participant") {
        return Some(whole(Part::Participants, Wrong::NoEntry));
    }
    if let Some(cause) = first_in(file, Part::Participants, Look::Lack(Key::Name)) {
        return Some(cause);
    }
    if is_without_entry(file, "related") {
        return Some(whole(Part::Related, Wrong::NoEntry));
    }
    if let Some(cause) = first_in(file, Part::Related, Look::Lack(Key::A)) {
        return Some(cause);
    }
    first_in(file, Part::Related, Look::Lack(Key::B))
}

fn value_cause(file: &Value) -> Option<Cause>
    ensures { result ≡ value_cause (view file.now) }
{
    if is_no_name(file, "venue") {
        return Some(whole(Part::Venue, Wrong::NoVenue));
    }
    if is_no_list(file, "participant") {
        return Some(whole(Part::Participants, Wrong::NoList));
    }
    if let Some(cause) = first_in(file, Part::Participants, Look::BadParticipant) {
        return Some(cause);
    }
    if is_no_list(file, "related") {
        return Some(whole(Part::Related, Wrong::NoList));
    }
    first_in(file, Part::Related, Look::BadPair)
}

fn count_cause(file: &Value) -> Option<Cause>
    ensures { result ≡ count_cause (view file.now) }
{
    if entries(file, "participant").len() > MAX_PARTICIPANTS {
        Some(whole(Part::Participants, Wrong::TooMany))
    } else {
        None
    }
}

fn repeat_cause(file: &Value) -> Option<Cause>
    ensures { result ≡ repeat_cause (view file.now) }
{
    if let Some(cause) = first_in(file, Part::Participants, Look::VenueName) {
        return Some(cause);
    }
    if let Some(cause) = first_in(file, Part::Participants, Look::Repeat(Key::Name)) {
        return Some(cause);
    }
    first_in(file, Part::Related, Look::RepeatedPair)
}

fn unknown_cause(file: &Value) -> Option<Cause>
    ensures { result ≡ unknown_cause (view file.now) }
{
    first_in(file, Part::Related, Look::UnknownName)
}

/// The cause for which a document is refused as a participant file, if it is: the first one, in the order in which its
/// reader searches.
pub fn participants_cause(file: &Value) -> Option<Cause>
    ensures { result ≡ participants_cause (view file.now) }
{
    if let Some(cause) = missing_cause(file) {
        return Some(cause);
    }
    if let Some(cause) = value_cause(file) {
        return Some(cause);
    }
    if let Some(cause) = count_cause(file) {
        return Some(cause);
    }
    if let Some(cause) = repeat_cause(file) {
        return Some(cause);
    }
    unknown_cause(file)
}
