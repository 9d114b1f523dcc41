//! Quote (S): with the room's first quote the requester is sent the book snapshot (17 CFR 37.9(a)(3)).
ghost use Rattle.std.specs.Prelude.{◌≡◌, ◌<◌, ℕ, [], ◌∷◌, ◌++◌, true, length, Some, IfOk};
ghost use Rattle.venue_rules.specs.Answer.{answers};
ghost use Rattle.venue_rules.specs.Facts.{History};
ghost use Rattle.venue_rules.specs.Quotes.{answer_quote, quote_status};
ghost use Rattle.venue_rules.specs.Rooms.{find_room};
ghost use Rattle.venue_rules.specs.declared.replies.QuoteState.TheVariants as state;
ghost use Rattle.price_book.specs.BookFacts.{book_facts};
ghost use Rattle.rfq_room.specs.RoomStore.{are_listed};
ghost use Rattle.rfq_room.specs.Plans.{IsQuotePlanned};
ghost use Rattle.rfq_room.specs.RoomFacts.{room_facts};
ghost use Rattle.rfq_room.specs.Steps.{IsPlanOf};
ghost use Rattle.rfq_handler.specs.Known.{are_known};
ghost use Rattle.rfq_handler.specs.Quoted.{IsQuoteAnswer, quote_replies};
ghost use Rattle.venue_rules.specs.Market.{market_of};
ghost use Rattle.venue_request.specs.Senders.{sender};
ghost use Rattle.rfq_handler.specs.Sent.{prices_sent, quote_sent, rests, shown_unless, symbol_in};

use crate::answer::{RoomAnswer, made};
use crate::listing::symbol_in;
use crate::refusals::of_quote;
use fix_dictionary::{Identifier, Quote};
use participants::Participants;
use price_book::{PriceBook, book_is_read_alone};
use rfq_room::{RoomPlan, Rooms, rooms_decide};
use std::alloc::AllocError;
use venue_request::Request;
use venue_rules::{
    BookSnapshot, QuoteRefusal, QuoteSent, QuoteState, QuoteStatus, Reply, ReplyBody, Room,
    RoomQuote, SnapshotEntries, name_identifier, symbol_of,
};

// The room of a quote, its symbol, and whether it has a quote already.
#[derive(Clone, Copy)]
struct RoomOfQuote<'a> {
    room: &'a Room,
    symbol: &'a Identifier,
    quoted: bool,
}

// The status of a quote to its maker, by the maker's identifiers.
fn status(
    request: &Request<'_>,
    quote: &Quote,
    symbol: Option<Identifier>,
    state: QuoteState,
) -> Reply
    ensures { result ≡ quote_status (sender request.now.taken.now) quote.now symbol state }
{
    let what = ReplyBody::QuoteStatus(QuoteStatus {
        quote_id: Some(quote.quote_id),
        request_id: Some(quote.request_id),
        response_id: None,
        symbol,
        state,
    });
    Reply {
        to: request.taken.from,
        what,
    }
}

// The refusal of a quote, in the room that it names if that exists.
fn refused(
    request: &Request<'_>,
    rooms: &Rooms,
    quote: &Quote,
    cause: QuoteRefusal,
) -> Result<RoomAnswer, AllocError>
    requires { are_listed (length request.now.turn.market.instruments.now) rooms.now.facts ≡ true }
    ensures quiet { IfOk result (λ a. a.facts ≡ []) }
    ensures emitted { IfOk result (λ a. a ≡ answers (quote_status (sender request.now.taken.now) quote.now (symbol_in request.now.turn.market.instruments.now (find_room rooms.now.facts quote.now.request_id)) (state.Refused cause) ∷ [])) }
{
    let alloc = request.turn.alloc;
    let room = rooms.find_room(&quote.request_id);
    let symbol = symbol_in(request.turn.market.instruments, room);
    let reply = status(request, quote, symbol, QuoteState::Refused(cause));
    let replies = vec![in alloc; reply]?;
    Ok(RoomAnswer::of(RoomPlan::nothing(alloc), replies, 0, 0))
}

// The quote, as sent on to the requester.
fn quote_sent(
    participants: &Participants,
    room: &Room,
    symbol: &Identifier,
    quote: &RoomQuote,
) -> Reply
    requires { quote.now.maker < length participants.now.names }
    ensures { result ≡ quote_sent participants.now room.now symbol.now quote.now }
{
    let what = ReplyBody::QuoteSent(QuoteSent {
        quote: quote.number,
        request_id: room.id,
        maker: name_identifier(participants.name(quote.maker)),
        symbol: *symbol,
        bid: quote.bid,
        offer: quote.offer,
        quantity: room.quantity,
        end: quote.end,
    });
    Reply {
        to: room.requester,
        what,
    }
}

// The book snapshot of an instrument.
fn rests(book: &PriceBook, instrument: u32) -> Result<SnapshotEntries, AllocError>
    ensures { IfOk result (λ entries. entries ≡ rests book.now.facts instrument) }
{
    Ok(SnapshotEntries::from_vec(book.picture(instrument)?))
}

// The book snapshot, as sent to the requester.
fn prices_sent(room: &Room, symbol: &Identifier, entries: SnapshotEntries) -> Reply
    ensures { result ≡ prices_sent room.now symbol.now entries }
{
    let what = ReplyBody::BookSnapshot(BookSnapshot {
        request_id: room.id,
        symbol: *symbol,
        entries,
    });
    Reply {
        to: room.requester,
        what,
    }
}

// Adds the snapshot, unless the room has a quote.
fn show(
    book: &PriceBook,
    room: &Room,
    symbol: &Identifier,
    quoted: bool,
    replies: &mut Vec<Reply>,
) -> Result<(), AllocError>
    ensures { IfOk result (λ _. replies.new.items ≡ replies.old.items ++ shown_unless quoted room.now symbol.now (rests book.now.facts room.now.instrument)) }
{
    if quoted {
        return Ok(());
    }
    let entries = rests(book, room.instrument)?;
    replies.push(prices_sent(room, symbol, entries))?;
    Ok(())
}

// The status of an accepted quote to its maker.
fn notify_maker(
    request: &Request<'_>,
    quote: &Quote,
    symbol: &Identifier,
) -> Result<Vec<Reply>, AllocError>
    ensures { IfOk result (λ v. v.items ≡ quote_status (sender request.now.taken.now) quote.now (Some symbol.now) state.Accepted ∷ []) }
{
    let alloc = request.turn.alloc;
    let status = status(request, quote, Some(*symbol), QuoteState::Accepted);
    Ok(vec![in alloc; status]?)
}

// All replies to a quote.
fn emitted(
    request: &Request<'_>,
    book: &PriceBook,
    quote: &Quote,
    place: &RoomOfQuote<'_>,
    made: &RoomQuote,
) -> Result<Vec<Reply>, AllocError>
    requires { made.now.maker < length request.now.turn.market.participants.now.names }
    ensures { IfOk result (λ v. v.items ≡ quote_replies request.now.turn.market.participants.now book.now.facts (sender request.now.taken.now) quote.now place.now.quoted place.now.room.now place.now.symbol.now made.now) }
{
    let participants = request.turn.market.participants;
    let (room, symbol) = (place.room, place.symbol);
    let mut replies = notify_maker(request, quote, symbol)?;
    show(book, room, symbol, place.quoted, &mut replies)?;
    replies.push(quote_sent(participants, room, symbol, made))?;
    Ok(replies)
}

// The answer to an accepted quote.
fn accepted(
    request: &Request<'_>,
    book: &PriceBook,
    rooms: &Rooms,
    quote: &Quote,
    plan: RoomPlan,
) -> Result<RoomAnswer, AllocError>
    requires listed { are_listed (length request.now.turn.market.instruments.now) rooms.now.facts ≡ true }
    requires known { request.now.taken.now.from < length request.now.turn.market.participants.now.names }
    requires planned { IsQuotePlanned rooms.now.facts request.now.taken.now.from quote.now plan }
    ensures facts { IfOk result (λ a. a.facts ≡ plan.facts) }
    ensures emitted { IfOk result (IsQuoteAnswer request.now.turn.market.participants.now request.now.turn.market.instruments.now rooms.now.facts book.now.facts (sender request.now.taken.now) quote.now) }
{
    let made = made(&plan).unwrap();
    let room = rooms.room(made.room).unwrap();
    let quoted = rooms.has_quote(room.number);
    let symbol = symbol_of(request.turn.market.instruments, room.instrument);
    let place = RoomOfQuote {
        room,
        symbol: &symbol,
        quoted,
    };
    let replies = emitted(request, book, quote, &place, made)?;
    Ok(RoomAnswer::of(plan, replies, 0, 0))
}

/// The answer to a quote; reserves memory for its plan.
pub fn plan_quote(
    request: &Request<'_>,
    book: &PriceBook,
    rooms: &mut Rooms,
    quote: &Quote,
) -> Result<RoomAnswer, AllocError>
    requires listed { are_listed (length request.now.turn.market.instruments.now) rooms.old.facts ≡ true }
    requires known { are_known (length request.now.turn.market.participants.now.names) rooms.old.facts ≡ true }
    ensures kept { rooms.new.facts ≡ rooms.old.facts }
    ensures planned { IfOk result (λ a. (h : History) → room_facts h.facts ≡ rooms.old.facts → book_facts h.facts ≡ book.now.facts → a ≡ answer_quote (market_of request.now.turn.market) h (sender request.now.taken.now) quote.now request.now.turn.moment) }
    ensures made { IfOk result (λ a. IsPlanOf rooms.new a.facts) }
    ensures listed { IfOk result (λ a. (count : ℕ) → are_listed count a.facts ≡ true) }
    ensures known { IfOk result (λ a. (count : ℕ) → are_known count a.facts ≡ true) }
{
    rooms_decide();
    book_is_read_alone();
    match rooms.plan_quote(
        request.turn.market,
        request.taken.from,
        quote,
        request.turn.moment,
    ) {
        Ok(plan) => accepted(request, book, rooms, quote, plan),
        Err(refusal) => match of_quote(refusal.cause()) {
            Some(cause) => refused(request, rooms, quote, cause),
            None => Err(AllocError),
        },
    }
}
