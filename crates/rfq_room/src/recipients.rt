//! Recipients of a request.
ghost use Rattle.std.specs.Prelude.{◌≡◌, ◌==◌, filter, length, is_none, IfOk};
ghost use Rattle.std.specs.List.{list_any};
ghost use Rattle.venue_rules.specs.Requests.{has_twice};
ghost use Rattle.participants.specs.ParticipantFile.{ParticipantFile};
ghost use Rattle.rfq_room.specs.Views.{is_recipient, places_of, recipients_of};

use fix_dictionary::Party;
use participants::{Participants, Who};
use std::alloc::{AllocError, Global};

// A party with source D (447) and role 35 (452), a liquidity provider.
fn is_recipient(party: &Party) -> bool
    ensures { result ≡ is_recipient party.now }
{
    party.source.get() == b'D' && party.role.get() == 35
}

// The number of recipients named, in the file or not.
fn count_named(parties: &[Party]) -> usize
    ensures { result ≡ length (filter is_recipient parties.now) }
{
    parties.iter().filter(|party| is_recipient(party)).count()
}

/// Whether a named recipient is not in the file: fewer were found than named.
#[tactic(auto, using(crate::proofs::Parties::fewer_found))]
pub(crate) fn has_unknown(parties: &[Party], recipients: &[Who]) -> bool
    ensures { (file : ParticipantFile) → recipients.now ≡ recipients_of file parties.now → result ≡ list_any is_none (places_of file parties.now) }
{
    recipients.len() < count_named(parties)
}

pub(crate) fn is_among(recipients: &[Who], who: Who) -> bool
    ensures { result ≡ list_any (λ r. r == who) recipients.now }
{
    recipients.iter().any(|r| r.place() == who.place())
}

/// Whether a recipient occurs twice.
#[tactic(auto, using(crate::proofs::Parties::parties))]
pub(crate) fn has_twice(recipients: &[Who]) -> bool
    ensures { result ≡ has_twice recipients.now }
{
    for k in 0..recipients.len() {
        if is_among(&recipients[k + 1..], recipients[k]) {
            return true;
        }
    }
    false
}

/// The recipients found in the file, in the request's order.
#[tactic(auto, using(crate::proofs::Parties::parties))]
pub(crate) fn recipients(
    alloc: Global,
    participants: &Participants,
    parties: &[Party],
) -> Result<Vec<Who>, AllocError>
    ensures { IfOk result (λ v. v.items ≡ recipients_of participants.now parties.now) }
{
    let mut recipients = Vec::new(alloc);
    for party in parties {
        if is_recipient(party) {
            if let Some(who) = participants.find(party.id.as_slice()) {
                recipients.push(who)?;
            }
        }
    }
    Ok(recipients)
}
