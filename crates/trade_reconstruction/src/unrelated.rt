//! Three recipients of a request that are unrelated to the requester and to each other (17 CFR 37.9(a)(3)).

ghost use Rattle.std.specs.Prelude.{◌≡◌, ◌++◌, find, IfOk, OnOk};
ghost use Rattle.participants.specs.Relations.{apart, are_unrelated};
ghost use Rattle.trade_reconstruction.specs.Lines.{recipient_in, recipients_of};
ghost use Rattle.trade_reconstruction.specs.Unrelated.{has_second, has_third, three_of, with_first, with_second, with_third};

use crate::evidence_event::EvidenceEvent;
use crate::finding::is_asked;
use participants::{Participants, Who};
use std::alloc::{AllocError, Global};

/// Three recipients, in the order in which they were asked.
#[derive(Clone, Copy)]
pub struct Three {
    pub first: Who,
    pub second: Who,
    pub third: Who,
}

/// Appends the recipient of an event, if it is of this room's request.
fn push_recipient(
    recipients: &mut Vec<Who>,
    room: u64,
    word: &EvidenceEvent,
) -> Result<(), AllocError>
    ensures { OnOk result (recipients.new.items ≡ recipients.old.items ++ recipient_in room word.now) }
{
    if !is_asked(word, room) {
        return Ok(());
    }
    match recipients.push(word.to) {
        Ok(()) => Ok(()),
        Err(_) => Err(AllocError),
    }
}

/// The recipients of a room's request.
pub(crate) fn recipients_of(
    alloc: Global,
    room: u64,
    words: &[EvidenceEvent],
) -> Result<Vec<Who>, AllocError>
    ensures { IfOk result (λ recipients. recipients.items ≡ recipients_of room words.now) }
{
    let mut recipients = Vec::new(alloc);
    for word in words {
        push_recipient(&mut recipients, room, word)?;
    }
    Ok(recipients)
}

fn apart(participants: &Participants, a: Who, b: Who) -> bool
    ensures { result ≡ apart participants.now a b }
{
    a.place() != b.place() && !participants.related(a, b)
}

fn are_unrelated(participants: &Participants, requester: Who, a: Who, b: Who, c: Who) -> bool
    ensures { result ≡ are_unrelated participants.now requester a b c }
{
    apart(participants, requester, a)
        && apart(participants, requester, b)
        && apart(participants, requester, c)
        && apart(participants, a, b)
        && apart(participants, a, c)
        && apart(participants, b, c)
}

fn has_third(
    participants: &Participants,
    requester: Who,
    a: Who,
    b: Who,
    recipients: &[Who],
) -> bool
    ensures { result ≡ has_third participants.now requester a b recipients.now }
{
    recipients
        .iter()
        .any(|c| are_unrelated(participants, requester, a, b, *c))
}

fn has_second(participants: &Participants, requester: Who, a: Who, recipients: &[Who]) -> bool
    ensures { result ≡ has_second participants.now requester a recipients.now }
{
    recipients
        .iter()
        .any(|b| has_third(participants, requester, a, *b, recipients))
}

/// The first recipient that has a second and a third.
fn find_first(participants: &Participants, requester: Who, recipients: &[Who]) -> Option<Who>
    ensures { result ≡ find (λ a. has_second participants.now requester a recipients.now) recipients.now }
{
    for a in recipients {
        if has_second(participants, requester, *a, recipients) {
            return Some(*a);
        }
    }
    None
}

/// The first second for a first.
fn find_second(
    participants: &Participants,
    requester: Who,
    a: Who,
    recipients: &[Who],
) -> Option<Who>
    ensures { result ≡ find (λ b. has_third participants.now requester a b recipients.now) recipients.now }
{
    for b in recipients {
        if has_third(participants, requester, a, *b, recipients) {
            return Some(*b);
        }
    }
    None
}

/// The first third for both.
fn find_third(
    participants: &Participants,
    requester: Who,
    a: Who,
    b: Who,
    recipients: &[Who],
) -> Option<Who>
    ensures { result ≡ find (are_unrelated participants.now requester a b) recipients.now }
{
    for c in recipients {
        if are_unrelated(participants, requester, a, b, *c) {
            return Some(*c);
        }
    }
    None
}

fn with_third(
    participants: &Participants,
    requester: Who,
    a: Who,
    b: Who,
    recipients: &[Who],
) -> Option<Three>
    ensures { result ≡ with_third a b (find (are_unrelated participants.now requester a b) recipients.now) }
{
    match find_third(participants, requester, a, b, recipients) {
        Some(c) => Some(Three {
            first: a,
            second: b,
            third: c,
        }),
        None => None,
    }
}

fn with_second(
    participants: &Participants,
    requester: Who,
    a: Who,
    recipients: &[Who],
) -> Option<Three>
    ensures { result ≡ with_second participants.now requester a recipients.now (find (λ b. has_third participants.now requester a b recipients.now) recipients.now) }
{
    match find_second(participants, requester, a, recipients) {
        Some(b) => with_third(participants, requester, a, b, recipients),
        None => None,
    }
}

/// Three of the recipients that are unrelated to the requester and to each other.
pub(crate) fn three_of(
    participants: &Participants,
    requester: Who,
    recipients: &[Who],
) -> Option<Three>
    ensures { result ≡ three_of participants.now requester recipients.now }
{
    match find_first(participants, requester, recipients) {
        Some(a) => with_second(participants, requester, a, recipients),
        None => None,
    }
}
