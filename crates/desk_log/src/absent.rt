//! Which of the messages that are owed are in a log, in order.

ghost use Rattle.std.specs.Prelude.{◌≡◌, ℕ, ◌<◌, ◌++◌, ◌∷◌, List, IfOk, IfSome, OnOk, false, length, replicate};
ghost use Rattle.desk_log.specs.Absent as specs;
ghost use Rattle.desk_log.specs.Numbered.{Logged, text_at, texts_in};

use crate::comparing::is_owed;
use crate::frames::Span;
use crate::gap::rest_of;
use crate::numbered::{Place, text_at};
use crate::owed::Owed;
use std::alloc::{AllocError, Global};

/// What of the one is in the other, in order.
#[derive(Drop)]
pub struct Aligned {
    /// Of each message that is owed, whether the log has it.
    pub found: Vec<bool>,
    /// The messages of the log that are none of these.
    pub left: Vec<(Place, Span)>,
}

/// The place of the first message that is owed with this text.
fn place_of(text: &[u8], owed: &[Owed]) -> Option<usize>
    ensures place { result ≡ specs.place_from 0 text.now owed.now }
    ensures within { IfSome result (λ k. k < length owed.now) }
{
    for k in 0..owed.len() {
        if owed[k].text.as_slice() == text {
            return Some(k);
        }
    }
    None
}

/// Adds that messages which are owed were passed.
fn pass(found: &mut Vec<bool>, count: usize) -> Result<(), AllocError>
    ensures { OnOk result (found.new.items ≡ found.old.items ++ replicate count false) }
{
    for k in 0..count {
        found.push(false)?;
    }
    Ok(())
}

/// Takes one message of a log. Returns what is owed behind those found so far.
fn take<'a>(
    alloc: Global,
    aligned: &mut Aligned,
    log: &[u8],
    message: (Place, Span),
    rest: &'a [Owed],
) -> Result<&'a [Owed], AllocError>
    ensures found { IfOk result (λ behind. (ts : List (List ℕ)) → aligned.new.found.items ++ specs.found_in ts behind.now ≡ aligned.old.found.items ++ specs.found_in (text_at log.now message.1 ∷ ts) rest.now) }
    ensures left { IfOk result (λ behind. (ts : List (List ℕ)) (ls : List Logged) → aligned.new.left.items ++ specs.others (specs.taken_in ts behind.now) ls ≡ aligned.old.left.items ++ specs.others (specs.taken_in (text_at log.now message.1 ∷ ts) rest.now) (message ∷ ls)) }
{
    let text = text_at(alloc, log, message.1)?;
    match place_of(text.as_slice(), rest) {
        None => {
            aligned.left.push(message)?;
            Ok(rest)
        }
        Some(k) => {
            pass(&mut aligned.found, k)?;
            aligned.found.push(true)?;
            Ok(rest_of(rest, k + 1))
        }
    }
}

/// What is owed, along a log.
#[tactic(auto, using(crate::proofs::Aligning::found_more, crate::proofs::Aligning::left_more))]
pub(crate) fn align(
    alloc: Global,
    log: &[u8],
    once: &[(Place, Span)],
    owed: &[Owed],
) -> Result<Aligned, AllocError>
    ensures found { IfOk result (λ aligned. aligned.found.items ≡ specs.found_in (texts_in log.now once.now) owed.now) }
    ensures left { IfOk result (λ aligned. aligned.left.items ≡ specs.left_in log.now once.now owed.now) }
{
    let mut aligned = Aligned {
        found: Vec::new(alloc),
        left: Vec::new(alloc),
    };
    let mut rest = owed;
    for message in once {
        rest = take(alloc, &mut aligned, log, *message, rest)?;
    }
    pass(&mut aligned.found, rest.len())?;
    Ok(aligned)
}

/// The places of what is not found.
#[tactic(auto, using(crate::proofs::Aligning::place_more))]
pub(crate) fn places_of(alloc: Global, found: &[bool]) -> Result<Vec<usize>, AllocError>
    ensures { IfOk result (λ places. places.items ≡ specs.places_from 0 found.now) }
{
    let mut places = Vec::new(alloc);
    for k in 0..found.len() {
        if !found[k] {
            places.push(k)?;
        }
    }
    Ok(places)
}

/// The first message that is left over with the text of one that is owed.
#[tactic(auto, using(crate::proofs::Aligning::left_here, crate::proofs::Aligning::left_behind))]
pub(crate) fn first_left(
    alloc: Global,
    log: &[u8],
    left: &[(Place, Span)],
    owed: &Owed,
) -> Result<Option<(Place, Span)>, AllocError>
    ensures { IfOk result (λ first. first ≡ specs.first_left log.now left.now owed.now) }
{
    for message in left {
        if is_owed(alloc, log, message.1, owed)? {
            return Ok(Some(*message));
        }
    }
    Ok(None)
}
