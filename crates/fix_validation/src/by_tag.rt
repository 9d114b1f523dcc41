//! Whether fields are without fault, by a table whose rows find their fields by the tag.
ghost use Rattle.std.specs.Prelude.{◌≡◌, ◌++◌, [], true, false, MatchOption, None, Some};
ghost use Rattle.fix_fields.specs.Fields.{value_of};
ghost use Rattle.fix_fields.specs.Views.{entries};
ghost use Rattle.fix_validation.specs.ByTag.{any_twice, AreNoted, row_holds, rows_hold};
ghost use Rattle.fix_validation.specs.Faults.{first_fault};

use crate::faults::has_tag;
use crate::forms::value_fault;
use crate::table::Row;
use fix_fields::{Field, first_value};

// For each remainder of a tag by 128, a place before which no field has a tag with that remainder.
type Noted = [u8; 128];

// The number of fields whose places are noted.
const TYPICAL_FIELDS: usize = 64;

// The places of the fields, unless a tag occurs twice or there are more fields than usual.
fn noted(fields: &[Field]) -> Option<Noted>
    ensures { MatchOption result (Unit {0}) (λ places. (any_twice [] (entries fields.now) ≡ false) × AreNoted places (entries fields.now)) }
{
    if fields.len() > TYPICAL_FIELDS {
        return None;
    }
    let mut places = [TYPICAL_FIELDS as u8; 128];
    for (place, field) in fields.iter().enumerate() {
        let remainder = (field.tag % 128) as usize;
        if usize::from(places[remainder]) >= place {
            places[remainder] = place as u8;
        } else if has_tag(field.tag, &fields[..place]) {
            return None;
        }
    }
    Some(places)
}

fn value_at<'a>(places: &Noted, fields: &[Field<'a>], tag: u32) -> Option<&'a [u8]>
    requires { AreNoted places.now (entries fields.now) }
    ensures { MatchOption result (value_of tag (entries fields.now) ≡ None) (λ value. value_of tag (entries fields.now) ≡ Some value.now) }
{
    let place = usize::from(places[(tag % 128) as usize]);
    let Some(rest) = fields.get(place..) else {
        return None;
    };
    first_value(rest, tag)
}

fn row_holds(row: &Row, places: &Noted, fields: &[Field]) -> bool
    requires { AreNoted places.now (entries fields.now) }
    ensures { result ≡ row_holds row.now (value_of row.now.tag (entries fields.now)) }
{
    match value_at(places, fields, row.tag) {
        Some(value) => value_fault(row.form, value).is_none(),
        None => !row.required,
    }
}

fn rows_hold(rows: &[Row], places: &Noted, fields: &[Field]) -> bool
    requires { AreNoted places.now (entries fields.now) }
    ensures { result ≡ rows_hold rows.now (entries fields.now) }
{
    for row in rows {
        if !row_holds(row, places, fields) {
            return false;
        }
    }
    true
}

/// Whether the fields are found to be without fault; never where a tag occurs twice or there are many fields.
pub(crate) fn are_faultless(header: &[Row], rows: &[Row], fields: &[Field]) -> bool
    ensures { result ≡ true → first_fault (header.now ++ rows.now) (entries fields.now) ≡ None }
{
    match noted(fields) {
        Some(places) => rows_hold(header, &places, fields) && rows_hold(rows, &places, fields),
        None => false,
    }
}
