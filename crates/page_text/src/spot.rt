//! Where the bytes of a page stand, and how a template is read.
ghost use Rattle.std.specs.Prelude.{◌≡◌};
ghost use Rattle.page_text.specs.Spots.{step};
ghost use Rattle.page_text.specs.Parts.{next, spot_of};

/// Where a byte of HTML stands, in a text whose attributes are double-quoted and that has no comment.
#[derive(Clone, Copy, Drop)]
pub enum Spot {
    /// Between the tags.
    Text,
    /// In a tag, outside its quoted values.
    Tag,
    /// In a quoted value of a tag.
    Quoted,
}

/// What a byte of a template belongs to.
#[derive(Clone, Copy, Drop)]
pub enum Reading {
    /// The template's own text.
    Own(Spot),
    /// The name of a place, from `$` to `;`.
    Name(Spot),
}

/// Where the byte after this one stands.
pub(crate) fn step_of(spot: Spot, byte: u8) -> Spot
    ensures { result ≡ step spot byte }
{
    match spot {
        Spot::Text => if byte == b'<' { Spot::Tag } else { Spot::Text },
        Spot::Tag => {
            if byte == b'>' {
                Spot::Text
            } else if byte == b'"' {
                Spot::Quoted
            } else {
                Spot::Tag
            }
        }
        Spot::Quoted => if byte == b'"' {
            Spot::Tag
        } else {
            Spot::Quoted
        },
    }
}

/// What the byte of the template after this one belongs to.
pub(crate) fn next_of(reading: Reading, byte: u8) -> Reading
    ensures { result ≡ next reading byte }
{
    match reading {
        Reading::Own(spot) => {
            if byte == b'$' {
                Reading::Name(spot)
            } else {
                Reading::Own(step_of(spot, byte))
            }
        }
        Reading::Name(spot) => {
            if byte == b';' {
                Reading::Own(spot)
            } else {
                Reading::Name(spot)
            }
        }
    }
}

/// Where the template's own text goes on.
pub(crate) fn spot_at(reading: Reading) -> Spot
    ensures { result ≡ spot_of reading }
{
    match reading {
        Reading::Own(spot) => spot,
        Reading::Name(spot) => spot,
    }
}
