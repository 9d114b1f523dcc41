//! The participant file as a TOML document: its faults in order, and its rows.

ghost use Rattle.std.specs.Prelude.{◌≡◌, ◌≤◌, true, codes, length, map, nat_le, bytes_eq, Ok, IfOk, IfErr};
ghost use Rattle.std.specs.List.{list_all, list_any, position_or_len};
ghost use Rattle.toml.specs.View.{view};
ghost use Rattle.participants.specs.Names.{is_name};
ghost use Rattle.participants.specs.Rows.{are_distinct, most_participants};
ghost use Rattle.config_format.specs.Document.{text_at};
ghost use Rattle.participants.specs.Reading.{Refuses, are_distinct_named, has_bad_value, has_too_many, has_twice, has_unknown, is_apart, is_bad_pair, is_bad_participant, is_known, is_missing, is_same_named, named, participants, places, read_of, related_pairs, rows_of};

use crate::fault::FileFault;
use crate::participants::{Participants, place_of};
use crate::who::Who;
use config_format::{
    Name, entries, is_absent, is_no_list, is_no_name, is_without_entry, list_lacks, text_at,
};
use std::alloc::{AllocError, Global};
use toml::Value;

/// The most participants of a file.
const MAX_PARTICIPANTS: usize = 32;

/// Whether a required key is absent, or a list has no entry.
pub(crate) fn is_missing(file: &Value) -> bool
    ensures { result ≡ is_missing (view file.now) }
{
    is_absent(file, "venue")
        || is_absent(file, "participant")
        || is_without_entry(file, "participant")
        || list_lacks(file, "participant", "name")
        || is_without_entry(file, "related")
        || list_lacks(file, "related", "a")
        || list_lacks(file, "related", "b")
}

fn is_bad_participant(entry: &Value) -> bool
    ensures { result ≡ is_bad_participant (view entry.now) }
{
    !entry.is_table() || is_no_name(entry, "name")
}

fn is_bad_pair(entry: &Value) -> bool
    ensures { result ≡ is_bad_pair (view entry.now) }
{
    !entry.is_table()
        || is_no_name(entry, "a")
        || is_no_name(entry, "b")
        || text_at(entry, "a") == text_at(entry, "b")
}

fn any_bad_participant(list: &[Value]) -> bool
    ensures { result ≡ list_any (λ entry. is_bad_participant (view entry)) list.now }
{
    list.iter().any(|entry| is_bad_participant(entry))
}

fn any_bad_pair(list: &[Value]) -> bool
    ensures { result ≡ list_any (λ entry. is_bad_pair (view entry)) list.now }
{
    list.iter().any(|entry| is_bad_pair(entry))
}

fn has_bad_participant(file: &Value) -> bool
    ensures { result ≡ list_any is_bad_participant (participants (view file.now)) }
{
    any_bad_participant(entries(file, "participant"))
}

fn has_bad_pair(file: &Value) -> bool
    ensures { result ≡ list_any is_bad_pair (related_pairs (view file.now)) }
{
    any_bad_pair(entries(file, "related"))
}

/// Whether a stated value is invalid.
pub(crate) fn has_bad_value(file: &Value) -> bool
    ensures { result ≡ has_bad_value (view file.now) }
{
    is_no_name(file, "venue")
        || is_no_list(file, "participant")
        || has_bad_participant(file)
        || is_no_list(file, "related")
        || has_bad_pair(file)
}

pub(crate) fn has_too_many(file: &Value) -> bool
    ensures { result ≡ has_too_many (view file.now) }
{
    entries(file, "participant").len() > MAX_PARTICIPANTS
}

pub(crate) fn names_in(alloc: Global, list: &[Value]) -> Result<Vec<Name>, AllocError>
    requires { list_all (λ entry. is_name (text_at (codes "name") (view entry))) list.now ≡ true }
    ensures { IfOk result (λ names. names.items ≡ map (λ entry. text_at (codes "name") (view entry)) list.now) }
{
    let mut names = Vec::new(alloc);
    for entry in list {
        let name = Name::from_slice(alloc, text_at(entry, "name"))?;
        names.push(name)?;
    }
    Ok(names)
}

pub(crate) fn pairs_in(alloc: Global, list: &[Value]) -> Result<Vec<(Name, Name)>, AllocError>
    requires first { list_all (λ entry. is_name (named (view entry)).0) list.now ≡ true }
    requires second { list_all (λ entry. is_name (named (view entry)).1) list.now ≡ true }
    ensures { IfOk result (λ pairs. pairs.items ≡ map (λ entry. named (view entry)) list.now) }
{
    let mut pairs = Vec::new(alloc);
    for entry in list {
        let a = Name::from_slice(alloc, text_at(entry, "a"))?;
        let b = Name::from_slice(alloc, text_at(entry, "b"))?;
        pairs.push((a, b))?;
    }
    Ok(pairs)
}

pub(crate) fn is_known(names: &[Name], name: &Name) -> bool
    ensures { result ≡ is_known names.now name.now }
{
    names.iter().any(|other| name.is(other.as_slice()))
}

pub(crate) fn are_distinct(names: &[Name]) -> bool
    ensures { result ≡ are_distinct names.now }
{
    for (place, name) in names.iter().enumerate() {
        if is_known(&names[place + 1..], name) {
            return false;
        }
    }
    true
}

fn is_same_named(p: &(Name, Name), q: &(Name, Name)) -> bool
    ensures { result ≡ is_same_named p.now q.now }
{
    (p.0.is(q.0.as_slice()) && p.1.is(q.1.as_slice()))
        || (p.0.is(q.1.as_slice()) && p.1.is(q.0.as_slice()))
}

fn is_among(pairs: &[(Name, Name)], pair: &(Name, Name)) -> bool
    ensures { result ≡ list_any (is_same_named pair.now) pairs.now }
{
    pairs.iter().any(|other| is_same_named(pair, other))
}

/// Whether no pair occurs twice, in either order.
pub(crate) fn are_distinct_named(pairs: &[(Name, Name)]) -> bool
    ensures { result ≡ are_distinct_named pairs.now }
{
    for (place, pair) in pairs.iter().enumerate() {
        if is_among(&pairs[place + 1..], pair) {
            return false;
        }
    }
    true
}

/// Whether a name occurs twice, the venue's included, or a pair does.
fn has_twice(venue: &Name, names: &[Name], pairs: &[(Name, Name)]) -> bool
    ensures { result ≡ has_twice venue.now names.now pairs.now }
{
    is_known(names, venue) || !are_distinct(names) || !are_distinct_named(pairs)
}

fn has_unknown(names: &[Name], pair: &(Name, Name)) -> bool
    ensures { result ≡ has_unknown names.now pair.now }
{
    !(is_known(names, &pair.0) && is_known(names, &pair.1))
}

/// Whether a pair names an unknown participant.
pub(crate) fn any_unknown(names: &[Name], pairs: &[(Name, Name)]) -> bool
    ensures { result ≡ list_any (has_unknown names.now) pairs.now }
{
    pairs.iter().any(|pair| has_unknown(names, pair))
}

/// The first place of a name, or the number of names where it is absent.
fn place_in(names: &[Name], name: &Name) -> usize
    ensures place { result ≡ position_or_len (bytes_eq name.now) names.now }
    ensures within { result ≤ length names.now }
{
    place_of(names, name.as_slice()).unwrap_or(names.len())
}

fn places_of(
    alloc: Global,
    names: &[Name],
    pairs: &[(Name, Name)],
) -> Result<Vec<(Who, Who)>, AllocError>
    requires { length names.now ≤ 32 }
    ensures { IfOk result (λ found. found.items ≡ map (places names.now) pairs.now) }
{
    let mut found = Vec::new(alloc);
    for pair in pairs {
        let a = Who::of(place_in(names, &pair.0) as u32);
        let b = Who::of(place_in(names, &pair.1) as u32);
        found.push((a, b))?;
    }
    Ok(found)
}

/// The rows of these names and pairs, or the first of the last faults.
fn rows_of(
    alloc: Global,
    venue: Name,
    names: Vec<Name>,
    pairs: &[(Name, Name)],
) -> Result<Participants, FileFault>
    requires some { nat_le 1 (length names.items) ≡ true }
    requires few { nat_le (length names.items) most_participants ≡ true }
    requires name { is_name venue ≡ true }
    requires all { list_all is_name names.items ≡ true }
    requires apart { list_all is_apart pairs.now ≡ true }
    ensures rows { IfOk result (λ file. rows_of venue names.items pairs.now ≡ Ok file) }
    ensures fault { IfErr result (Refuses (rows_of venue names.items pairs.now)) }
{
    if has_twice(&venue, &names, pairs) {
        return Err(FileFault::Twice);
    }
    if any_unknown(&names, pairs) {
        return Err(FileFault::UnknownName);
    }
    let Ok(pairs) = places_of(alloc, &names, pairs) else {
        return Err(FileFault::NoMemory);
    };
    let Ok(file) = Participants::from_rows(alloc, venue, names, pairs) else {
        return Err(FileFault::NoMemory);
    };
    Ok(file)
}

/// Reads a document, or returns its first fault.
pub(crate) fn read_document(alloc: Global, file: &Value) -> Result<Participants, FileFault>
    ensures rows { IfOk result (λ rows. read_of (view file.now) ≡ Ok rows) }
    ensures fault { IfErr result (Refuses (read_of (view file.now))) }
{
    if is_missing(file) {
        return Err(FileFault::Missing);
    }
    if has_bad_value(file) {
        return Err(FileFault::BadValue);
    }
    if has_too_many(file) {
        return Err(FileFault::TooMany);
    }
    let Ok(venue) = Name::from_slice(alloc, text_at(file, "venue")) else {
        return Err(FileFault::NoMemory);
    };
    let Ok(names) = names_in(alloc, entries(file, "participant")) else {
        return Err(FileFault::NoMemory);
    };
    let Ok(pairs) = pairs_in(alloc, entries(file, "related")) else {
        return Err(FileFault::NoMemory);
    };
    rows_of(alloc, venue, names, &pairs)
}
