//! Live quotes, among those not known to be over.
ghost use Rattle.std.specs.Prelude.{◌≡◌, ◌≤◌, filter, length, option_map, IfOk, ◌+◌, ◌++◌};
ghost use Rattle.std.specs.Vec.{vec_capacity, vec_len};
ghost use Rattle.venue_rules.specs.Facts.{quotes};
ghost use Rattle.venue_rules.specs.Rooms.{is_live};
ghost use Rattle.rfq_room.specs.Views.{is_named, is_taken};

use crate::facts::quote_in;
use crate::room_index::RoomIndex;
use fix_dictionary::Identifier;
use participants::Who;
use sef_moment::Moment;
use std::alloc::{AllocError, Global};
use venue_rules::{Fact, RoomQuote};

// Whether an identifier is the named one, if any.
fn is_named(id: &Identifier, named: Option<&Identifier>) -> bool
    ensures { result ≡ is_named id.now (option_map (λ n. n.now) named.entry) }
{
    match named {
        Some(named) => id.is(named),
        None => true,
    }
}

// Whether a withdrawal withdraws the quote.
fn is_taken(
    known_flags: &RoomIndex,
    maker: Who,
    moment: Moment,
    named: Option<&Identifier>,
    quote: &RoomQuote,
) -> bool
    ensures { result ≡ is_taken known_flags.now.facts maker moment (option_map (λ n. n.now) named.entry) quote.now }
{
    (quote.maker.place() == maker.place() && known_flags.is_live(moment, quote))
        && is_named(&quote.id, named)
}

/// A maker's live quotes among these; with a name, those with this identifier.
#[tactic(auto, using(crate::proofs::Taking::takings))]
pub(crate) fn taken_quotes(
    alloc: Global,
    known_flags: &RoomIndex,
    maker: Who,
    moment: Moment,
    named: Option<&Identifier>,
    quotes: &[RoomQuote],
) -> Result<Vec<RoomQuote>, AllocError>
    ensures { IfOk result (λ v. v.items ≡ filter (is_taken known_flags.now.facts maker moment (option_map (λ n. n.now) named.entry)) quotes.now) }
{
    let mut taken = Vec::new(alloc);
    for quote in quotes {
        if is_taken(known_flags, maker, moment, named, quote) {
            taken.push(*quote)?;
        }
    }
    Ok(taken)
}

/// Removes the quotes that are over at a moment.
pub(crate) fn clear_live(known_flags: &RoomIndex, moment: Moment, live: &mut Vec<RoomQuote>)
    ensures items { live.new.items ≡ filter (is_live known_flags.now.facts moment) live.old.items }
    ensures len { vec_len live.new ≤ vec_len live.old }
    ensures capacity { vec_capacity live.new ≡ vec_capacity live.old }
{
    live.retain(|quote| known_flags.is_live(moment, quote));
}

/// Appends the quotes among facts, within reserved capacity.
#[tactic(auto, using(crate::proofs::Adding::quotes_on))]
pub(crate) fn add_quotes(kept: &mut Vec<RoomQuote>, facts: &[Fact])
    requires { vec_len kept.old + length facts.now ≤ vec_capacity kept.old }
    ensures { kept.new.items ≡ kept.old.items ++ quotes facts.now }
{
    for fact in facts {
        if let Some(quote) = quote_in(fact) {
            kept.push_reserved(*quote);
        }
    }
}
