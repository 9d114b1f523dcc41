//! What a digest says, of all trails.

ghost use Rattle.std.specs.Prelude.{◌≡◌, codes};
ghost use Rattle.trail_digest.specs.Head.{digest_text};
ghost use Rattle.trail_digest.specs.Laws.{ABeginningHasItsDigest, ItsDigestIsItsBeginning, OneDigestIsOneTrail, worked_trail};

/// Two trails with one digest have the same files, delays and rows, or a text hashed in each chain is named: two
/// different byte strings with one SHA-256. The same of one trail and the first rows of another.
pub fn one_digest_is_one_trail()
    ensures whole { OneDigestIsOneTrail }
    ensures first { ItsDigestIsItsBeginning }
{}

/// The digest of a trail's first rows is the chain's value there, and further rows go on from it.
pub fn beginning_has_its_digest()
    ensures { ABeginningHasItsDigest }
{}

/// The digest of a small trail, as another program computed it.
pub fn worked_digest()
    ensures { digest_text worked_trail ≡ codes "72d500ef046a165772993cf1ad0b4947b8f116d1ede557275835a7315a5bc654" }
{}
