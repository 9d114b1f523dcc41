//! The first entry of a list with a fault.

ghost use Rattle.std.specs.Prelude.{◌≡◌, [], map};
ghost use Rattle.toml.specs.View.{view};
ghost use Rattle.file_diagnosis.specs.Causes.{first_from, first_in, whole};

use crate::cause::{Cause, Look, Part, Wrong};
use crate::entry::wrong_in;
use crate::words::part_word;
use config_format::entries;
use toml::Value;

/// A part at fault as a whole.
pub(crate) fn whole(part: Part, wrong: Wrong) -> Cause
    ensures { result ≡ whole part wrong }
{
    Cause {
        part,
        entry: None,
        wrong,
    }
}

fn first_among(file: &Value, part: Part, look: Look, list: &[Value]) -> Option<Cause>
    ensures { result ≡ first_from (view file.now) part look [] (map view list.now) }
{
    for (place, entry) in list.iter().enumerate() {
        if let Some(wrong) = wrong_in(file, look, &list[..place], entry) {
            return Some(Cause {
                part,
                entry: Some(place + 1),
                wrong,
            });
        }
    }
    None
}

/// The first entry of a part with the fault that is looked for.
pub(crate) fn first_in(file: &Value, part: Part, look: Look) -> Option<Cause>
    ensures { result ≡ first_in (view file.now) part look }
{
    first_among(file, part, look, entries(file, part_word(part)))
}
