//! Laws of every participant file and every list.
ghost use Rattle.unrelated_recipients.specs.Pairs.{NoneAreRelated};
ghost use Rattle.unrelated_recipients.specs.Threes.{FoundAreUnrelated, ThreeAreFound};

/// Three are found if and only if three recipients are unrelated to the requester and to each other; those that are
/// found are (17 CFR 37.9(a)(2), (a)(3)).
pub fn three_are_found()
    ensures found { ThreeAreFound }
    ensures unrelated { FoundAreUnrelated }
{}

/// Where no pair is listed, no two of a list are related.
pub fn none_are_related()
    ensures { NoneAreRelated }
{}
