//! Plans of quotes, with the reading of a room's first quote.
ghost use Rattle.std.specs.Prelude.{◌≡◌, option_map, IfOk};
ghost use Rattle.venue_rules.specs.Quotes.{answer_quote};
ghost use Rattle.venue_rules.specs.Market.{market_of as lent_market};
ghost use Rattle.venue_request.specs.Senders.{sender};
ghost use Rattle.venue_core.specs.Plan.{IsFit, IsListed, IsPlanned};
ghost use Rattle.venue_core.specs.Read.{picture_in, quote_read};
ghost use Rattle.venue_core.specs.State.{standing};

use crate::plan::Plan;
use crate::venue_state::VenueState;
use fix_dictionary::Quote;
use price_book::book_is_read_alone;
use rfq_handler::RoomAnswer;
use rfq_room::{Rooms, rooms_decide};
use std::alloc::{AllocError, Global};
use trade_history::quoted_room;
use venue_request::Request;
use venue_rules::{Reply, ReplyBody, RoomFact, SnapshotEntries};

// The book snapshot in a reply, if it is one.
fn picture_in(reply: Option<&Reply>) -> Option<&SnapshotEntries>
    ensures { option_map (λ e. e.now) result ≡ picture_in (option_map (λ r. r.now) reply.entry) }
{
    match &reply?.what {
        ReplyBody::BookSnapshot(prices) => Some(&prices.entries),
        _ => None,
    }
}

// Reading of a room's first quote; there the second reply is the book snapshot.
fn quote_read(
    alloc: Global,
    rooms: &Rooms,
    answer: &RoomAnswer,
) -> Result<Option<RoomFact>, AllocError>
    ensures { IfOk result (λ read. read ≡ quote_read rooms.now.facts answer.now) }
{
    let Some(entries) = picture_in(answer.replies().get(1)) else {
        return Ok(None);
    };
    let Some(quote) = answer.made() else {
        return Ok(None);
    };
    let Some(room) = rooms.room(quote.room) else {
        return Ok(None);
    };
    let read = quoted_room(alloc, room, quote.number, entries.as_slice())?;
    Ok(Some(read))
}

/// Plans a quote (Quote, S), and reserves memory for its facts and its reading.
pub(crate) fn plan_quote(
    request: &Request<'_>,
    day: &mut VenueState,
    quote: &Quote,
) -> Result<Plan, AllocError>
    requires listed { IsListed (lent_market request.now.turn.market) day.old }
    ensures kept { standing day.new ≡ standing day.old }
    ensures planned { IfOk result (IsPlanned (standing day.old) (λ h. answer_quote (lent_market request.now.turn.market) h (sender request.now.taken.now) quote.now request.now.turn.moment)) }
    ensures fit { IfOk result (IsFit (lent_market request.now.turn.market) day.new) }
{
    rooms_decide();
    book_is_read_alone();
    let answer = rfq_handler::plan_quote(request, &day.book, &mut day.rooms, quote)?;
    let read = quote_read(request.turn.alloc, &day.rooms, &answer)?;
    day.quoted.reserve()?;
    Ok(Plan::of_rooms(answer, read))
}
