//! The participant file as it is read.

ghost use Rattle.std.specs.Prelude.{◌≡◌, ◌<◌, true, length, position, bytes_eq, Ok, IfOk, IfErr, IfSome};
ghost use Rattle.std.specs.List.{list_any};
ghost use Rattle.participants.specs.Names.{is_name};
ghost use Rattle.participants.specs.ParticipantFile.{ParticipantFile};
ghost use Rattle.participants.specs.Rows.{is_participant_file};
ghost use Rattle.participants.specs.Reading.{IsFaultOf, Reads};
ghost use Rattle.participants.specs.Relations.{apart, are_unrelated, find_participant, name_of, related, three_unrelated, Emits};

use crate::fault::FileFault;
use crate::reading::read_document;
use crate::table::related_table;
use crate::who::Who;
use config_format::Name;
use std::alloc::{AllocError, Global};
use std::marker::Model;
use toml::Value;

/// The venue's name, the participants in the file's order, and the related pairs by their places.
pub struct Participants {
    venue: Name,
    names: Vec<Name>,
    pairs: Vec<(Who, Who)>,
    /// whether two are related, indexed by both places
    table: Vec<bool>,
}

// Written-out drop (docs/ARCHITECTURE.md).
impl Drop for Participants {
    fn drop(self) {
        let Participants {
            venue: _venue,
            names: _names,
            pairs: _pairs,
            table: _table,
        } = self;
    }
}

impl Model for Participants {
    ghost use Rattle.std.specs.Prelude.{◌≡◌, true};
    ghost use Rattle.participants.specs.ParticipantFile.{ParticipantFile};
    ghost use Rattle.participants.specs.Rows.{is_participant_file};
    ghost use Rattle.participants.specs.Table.{related_table};

    ghost Value = { ParticipantFile };

    ghost view = { λ p. record { venue = p.venue; names = p.names.items; pairs = p.pairs.items } };

    ghost invariant = { λ p. (is_participant_file (record { venue = p.venue; names = p.names.items; pairs = p.pairs.items }) ≡ true) × (p.table.items ≡ related_table p.pairs.items) };
}

/// The first place of a name.
pub(crate) fn place_of(names: &[Name], name: &[u8]) -> Option<usize>
    ensures place { result ≡ position (bytes_eq name.now) names.now }
    ensures within { IfSome result (λ place. place < length names.now) }
{
    names.iter().position(|other| other.is(name))
}

impl Participants {
    /// The file of these rows, which must keep its rules.
    pub fn from_rows(
        alloc: Global,
        venue: Name,
        names: Vec<Name>,
        pairs: Vec<(Who, Who)>,
    ) -> Result<Participants, AllocError>
        requires { is_participant_file (record { venue = venue; names = names.items; pairs = pairs.items }) ≡ true }
        ensures { IfOk result (λ p. p ≡ record { venue = venue; names = names.items; pairs = pairs.items }) }
    {
        let table = related_table(alloc, &pairs)?;
        Ok(Participants {
            venue,
            names,
            pairs,
            table,
        })
    }

    /// Reads a participant file, or returns its first fault.
    pub fn read(alloc: Global, text: &[u8]) -> Result<Participants, FileFault>
        ensures rows { IfOk result (λ file. Reads text.now (Ok file)) }
        ensures fault { IfErr result (IsFaultOf text.now) }
    {
        match toml::table_from_slice(alloc, text) {
            Ok(table) => read_document(alloc, &Value::Table(table)),
            Err(error) => {
                if error.is_memory() {
                    Err(FileFault::NoMemory)
                } else {
                    Err(FileFault::NotToml)
                }
            }
        }
    }

    /// The number of participants: 1 to 32.
    pub fn len(&self) -> usize
        ensures count { result ≡ length self.now.names }
        ensures rule { is_participant_file self.now ≡ true }
    {
        self.names.len()
    }

    /// The related pairs, in the file's order.
    pub fn pairs(&self) -> &[(Who, Who)]
        ensures { result.now ≡ self.now.pairs }
    {
        &self.pairs
    }

    pub fn venue(&self) -> &[u8]
        ensures value { result.now ≡ self.now.venue }
        ensures form { is_name result.now ≡ true }
    {
        self.venue.as_slice()
    }

    pub fn name(&self, who: Who) -> &[u8]
        requires { who < length self.now.names }
        ensures value { result.now ≡ name_of self.now who }
        ensures form { is_name result.now ≡ true }
    {
        self.names[who.place() as usize].as_slice()
    }

    pub fn find(&self, name: &[u8]) -> Option<Who>
        ensures { result ≡ find_participant self.now name.now }
    {
        match place_of(&self.names, name) {
            Some(place) => Some(Who::of(place as u32)),
            None => None,
        }
    }

    /// Whether the file lists the pair, in either order.
    pub fn related(&self, a: Who, b: Who) -> bool
        ensures { result ≡ related self.now a b }
    {
        let table = &self.table;
        let (a, b) = (a.place(), b.place());
        if a >= 32 {
            return false;
        }
        if b >= 32 {
            return false;
        }
        table[(a * 32 + b) as usize]
    }

    /// Whether two are different and not related.
    fn apart(&self, a: Who, b: Who) -> bool
        ensures { result ≡ apart self.now a b }
    {
        a.place() != b.place() && !self.related(a, b)
    }

    /// Whether one of the recipients completes three with two others.
    fn has_third(&self, requester: Who, a: Who, b: Who, recipients: &[Who]) -> bool
        ensures { result ≡ list_any (λ c. are_unrelated self.now requester a b c) recipients.now }
    {
        recipients.iter().any(|c| {
            self.apart(requester, a)
                && self.apart(requester, b)
                && self.apart(requester, *c)
                && self.apart(a, b)
                && self.apart(a, *c)
                && self.apart(b, *c)
        })
    }

    /// Whether two of the recipients complete three with another.
    fn has_second(&self, requester: Who, a: Who, recipients: &[Who]) -> bool
        ensures { result ≡ list_any (λ b. list_any (λ c. are_unrelated self.now requester a b c) recipients.now) recipients.now }
    {
        recipients
            .iter()
            .any(|b| self.has_third(requester, a, *b, recipients))
    }

    /// Whether three of the recipients are pairwise apart, and each apart from the requester.
    fn has_three(&self, requester: Who, recipients: &[Who]) -> bool
        ensures { result ≡ three_unrelated self.now requester recipients.now }
    {
        recipients
            .iter()
            .any(|a| self.has_second(requester, *a, recipients))
    }

    /// Whether three of the recipients are pairwise different and unrelated, and each different from and unrelated to
    /// the requester (17 CFR 37.9(a)(3)).
    pub fn three_unrelated(&self, requester: Who, recipients: &[Who]) -> bool
        ensures test { result ≡ three_unrelated self.now requester recipients.now }
        ensures related { Emits self.now requester recipients.now result }
    {
        self.has_three(requester, recipients)
    }
}
