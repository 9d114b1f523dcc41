//! The first three recipients of a request that are unrelated to its requester and to each other.

ghost use Rattle.std.specs.Prelude.{◌≡◌, IfSome, is_some};
ghost use Rattle.std.specs.List.{find};
ghost use Rattle.participants.specs.Relations.{apart, three_unrelated};
ghost use Rattle.unrelated_recipients.specs.Threes.{AreUnrelated, first_three, is_unrelated, threes_of_one, threes_of_two};

use participants::{Participants, Who};

/// Three recipients of a request.
#[derive(Clone, Copy, Debug, PartialEq, Eq)]
pub struct Three {
    pub first: Who,
    pub second: Who,
    pub third: Who,
}

/// Whether two are different and not related.
fn are_apart(participants: &Participants, a: Who, b: Who) -> bool
    ensures { result ≡ apart participants.now a b }
{
    a.place() != b.place() && !participants.related(a, b)
}

/// Whether three are unrelated to the requester and to each other.
fn is_unrelated(participants: &Participants, requester: Who, three: &Three) -> bool
    ensures { result ≡ is_unrelated participants.now requester three.now }
{
    are_apart(participants, requester, three.first)
        && are_apart(participants, requester, three.second)
        && are_apart(participants, requester, three.third)
        && are_apart(participants, three.first, three.second)
        && are_apart(participants, three.first, three.third)
        && are_apart(participants, three.second, three.third)
}

/// The first three that begin with these two.
fn first_of_two(
    participants: &Participants,
    requester: Who,
    first: Who,
    second: Who,
    recipients: &[Who],
) -> Option<Three>
    ensures { result ≡ find (is_unrelated participants.now requester) (threes_of_two first second recipients.now) }
{
    for third in recipients {
        let three = Three {
            first,
            second,
            third: *third,
        };
        if is_unrelated(participants, requester, &three) {
            return Some(three);
        }
    }
    None
}

/// The first three that begin with this one.
fn first_of_one(
    participants: &Participants,
    requester: Who,
    first: Who,
    recipients: &[Who],
) -> Option<Three>
    ensures { result ≡ find (is_unrelated participants.now requester) (threes_of_one first recipients.now) }
{
    for second in recipients {
        match first_of_two(participants, requester, first, *second, recipients) {
            None => {}
            Some(three) => return Some(three),
        }
    }
    None
}

/// The first three.
fn first_of_all(participants: &Participants, requester: Who, recipients: &[Who]) -> Option<Three>
    ensures { result ≡ first_three participants.now requester recipients.now }
{
    for first in recipients {
        match first_of_one(participants, requester, *first, recipients) {
            None => {}
            Some(three) => return Some(three),
        }
    }
    None
}

/// Of the lists of three recipients that are unrelated to the requester and to each other the first, by their places.
pub fn first_three(participants: &Participants, requester: Who, recipients: &[Who]) -> Option<Three>
    ensures first { result ≡ first_three participants.now requester recipients.now }
    ensures found { is_some result ≡ three_unrelated participants.now requester recipients.now }
    ensures unrelated { IfSome result (AreUnrelated participants.now requester recipients.now) }
{
    first_of_all(participants, requester, recipients)
}
