//! Three who are unrelated to the requester and to each other, and who are related.

ghost use Rattle.std.specs.Prelude.{◌≡◌, ◌∷◌, IfOk, OnOk, map};
ghost use Rattle.std.specs.List.{flat_map};
ghost use Rattle.page_text.specs.Parts.{with_part, with_parts};
ghost use Rattle.recipient_sections.specs.Threes.{asked_of, no_three_part, pair_parts, related_parts, requester_of, some_related, three_found, three_part, three_section, whole_section};

use crate::template::{NO_THREE, NONE_RELATED, RELATED, RELATED_PAIR, THREE, THREE_RULE};
use day_events::Event;
use day_sections::sender_at;
use day_tables::name_at;
use page_text::Page;
use participants::{Participants, Who};
use std::alloc::{AllocError, Global};
use unrelated_recipients::{Three, first_three, related_pairs};

/// Adds three who are unrelated.
fn add_three(
    page: &mut Page,
    participants: &Participants,
    from: u32,
    three: &Three,
) -> Result<(), AllocError>
    ensures { OnOk result (page.new ≡ with_part page.old (three_part participants.now from three.now)) }
{
    let first = name_at(participants, three.first);
    let second = name_at(participants, three.second);
    let third = name_at(participants, three.third);
    let requester = sender_at(participants, from);
    page.add(THREE, &[first, second, third, requester])
}

/// Adds that there are none.
fn add_no_three(page: &mut Page, participants: &Participants, from: u32) -> Result<(), AllocError>
    ensures { OnOk result (page.new ≡ with_part page.old (no_three_part participants.now from)) }
{
    let requester = sender_at(participants, from);
    page.add(NO_THREE, &[requester])
}

fn add_found(
    page: &mut Page,
    participants: &Participants,
    from: u32,
    found: &Option<Three>,
) -> Result<(), AllocError>
    ensures { OnOk result (page.new ≡ with_part page.old (three_found participants.now from found.now)) }
{
    match found {
        None => add_no_three(page, participants, from),
        Some(three) => add_three(page, participants, from, three),
    }
}

/// Adds two who are related.
fn add_pair(
    page: &mut Page,
    participants: &Participants,
    pair: (Who, Who),
) -> Result<(), AllocError>
    ensures { OnOk result (page.new ≡ with_parts page.old (pair_parts participants.now pair)) }
{
    let one = name_at(participants, pair.0);
    let other = name_at(participants, pair.1);
    page.add(RELATED_PAIR, &[one, other])
}

fn add_pairs(
    page: &mut Page,
    participants: &Participants,
    pairs: &[(Who, Who)],
) -> Result<(), AllocError>
    ensures { OnOk result (page.new ≡ with_parts page.old (flat_map (pair_parts participants.now) pairs.now)) }
{
    for pair in pairs {
        add_pair(page, participants, *pair)?;
    }
    Ok(())
}

fn add_some_related(
    page: &mut Page,
    participants: &Participants,
    pairs: &[(Who, Who)],
) -> Result<(), AllocError>
    ensures { OnOk result (page.new ≡ with_parts page.old (some_related participants.now pairs.now)) }
{
    page.add(RELATED, &[])?;
    add_pairs(page, participants, pairs)
}

/// Adds who are related, in pairs, or that nobody is.
fn add_related(
    page: &mut Page,
    participants: &Participants,
    pairs: &[(Who, Who)],
) -> Result<(), AllocError>
    ensures { OnOk result (page.new ≡ with_parts page.old (related_parts participants.now pairs.now)) }
{
    if pairs.len() == 0 {
        page.add(NONE_RELATED, &[])
    } else {
        add_some_related(page, participants, pairs)
    }
}

/// The requester of a request.
fn requester_of(opened: &Event) -> Who
    ensures { result ≡ requester_of opened.now }
{
    Who::of(opened.at.from.saturating_sub(1))
}

/// Those who were asked.
fn asked_of(alloc: Global, asked: &[Event]) -> Result<Vec<Who>, AllocError>
    ensures { IfOk result (λ made. made.items ≡ asked_of asked.now) }
{
    let mut made = Vec::new(alloc);
    for event in asked {
        made.push(event.to)?;
    }
    Ok(made)
}

/// The requester, and those who were asked.
fn named_of(alloc: Global, requester: Who, asked: &[Who]) -> Result<Vec<Who>, AllocError>
    ensures { IfOk result (λ made. made.items ≡ requester ∷ asked.now) }
{
    let mut made = Vec::new(alloc);
    made.push(requester)?;
    made.extend_from_slice(asked)?;
    Ok(made)
}

/// Adds the three among those who were asked, and who of all named are related.
fn add_whole(
    alloc: Global,
    page: &mut Page,
    participants: &Participants,
    opened: &Event,
    asked: &[Who],
) -> Result<(), AllocError>
    ensures { OnOk result (page.new ≡ with_parts page.old (whole_section participants.now opened.now asked.now)) }
{
    let requester = requester_of(opened);
    let named = named_of(alloc, requester, asked)?;
    let pairs = related_pairs(alloc, participants, &named)?;
    let found = first_three(participants, requester, asked);
    add_found(page, participants, opened.at.from, &found)?;
    add_related(page, participants, &pairs)?;
    page.add(THREE_RULE, &[])
}

/// Adds the three among those whom a request asked, and who of all named are related.
pub(crate) fn add_three_of(
    alloc: Global,
    page: &mut Page,
    participants: &Participants,
    opened: &Event,
    asked: &[Event],
) -> Result<(), AllocError>
    ensures { OnOk result (page.new ≡ with_parts page.old (three_section participants.now opened.now asked.now)) }
{
    let recipients = asked_of(alloc, asked)?;
    add_whole(alloc, page, participants, opened, &recipients)
}
