//! The first line at which two texts differ.

ghost use Rattle.std.specs.Prelude.{◌≡◌, ◌+◌, take};
ghost use Rattle.std.specs.List.{count_by};
ghost use Rattle.file_diagnosis.specs.Lines.{is_end};

/// The line, from 1 on, at which two texts first differ; none where they are the same.
pub fn differing_line(one: &[u8], other: &[u8]) -> Option<usize> {
    match differing_place(one, other) {
        Some(place) => Some(line_at(one, place)),
        None => None,
    }
}

/// The place at which two texts first differ.
fn differing_place(one: &[u8], other: &[u8]) -> Option<usize> {
    for place in 0..one.len() {
        if place >= other.len() || one[place] != other[place] {
            return Some(place);
        }
    }
    if other.len() > one.len() {
        return Some(one.len());
    }
    None
}

/// The line of a place in a text, from 1 on; the last where the text is shorter.
pub(crate) fn line_at(text: &[u8], place: usize) -> usize
    ensures { result ≡ count_by is_end (take place text.now) + 1 }
{
    let before = match text.get(..place) {
        Some(before) => before,
        None => text,
    };
    let ends = before.iter().filter(|byte| **byte == b'\n').count();
    ends + 1
}
