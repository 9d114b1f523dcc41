//! Terms of a cross, and refusals before the book is asked.
ghost use Rattle.std.specs.Prelude.{◌≡◌, ◌<◌, length, IfOk, IfErr};
ghost use Rattle.cross_handler.specs.Crossing.{IsSound, IsTermsOf, IsTurnedAway, are_ids_taken, is_quantity_wrong, is_unsupported};

use crate::refusing::{Named, named_orders};
use cross_delay::Held;
use fix_dictionary::{NewOrderCross, Price};
use instruments::Instruments;
use order_handler::{is_limit, is_used};
use price_book::PriceBook;
use venue_rules::{CrossRefusal, Who, instrument_of, is_below_least, is_off_tick, is_side};

/// Cause of a refusal before the book is asked.
#[derive(Clone, Copy)]
pub(crate) enum Cause {
    Refused(CrossRefusal),
    /// with the sender's orders that rest under the identifiers of the sides
    Duplicate(Named, CrossRefusal),
    PriceMissing,
}

/// Instrument and price of a cross.
#[derive(Clone, Copy)]
pub(crate) struct Terms {
    pub instrument: u32,
    pub price: Price,
}

/// CrossType (549) is not 4, CrossPrioritization (550) is neither 1 nor 2, or OrdType (40) is not 2.
fn is_unsupported(cross: &NewOrderCross) -> bool
    ensures { result ≡ is_unsupported cross.now }
{
    let prioritization = cross.prioritization.get();
    !(cross.cross_type.get() == 4)
        || (!(prioritization == 1 || prioritization == 2) || !is_limit(cross.order_type))
}

/// Whether a side's identifier is used, or both are the same.
fn are_ids_taken(book: &PriceBook, held: &Held, who: Who, cross: &NewOrderCross) -> bool
    ensures { result ≡ are_ids_taken book.now.facts held.now.facts who cross.now }
{
    is_used(book, held, who, &cross.first.order_id)
        || (is_used(book, held, who, &cross.second.order_id)
            || cross.first.order_id.is(&cross.second.order_id))
}

/// Whether the quantities differ, or are below the instrument's least.
fn is_quantity_wrong(instruments: &Instruments, instrument: u32, cross: &NewOrderCross) -> bool
    requires { instrument < length instruments.now }
    ensures { result ≡ is_quantity_wrong instruments.now instrument cross.now }
{
    !(cross.first.quantity.get() == cross.second.quantity.get())
        || is_below_least(instruments, instrument, cross.first.quantity)
}

/// The terms of a cross that may enter, or the first cause to refuse it before the book is asked.
#[tactic(auto, using(crate::proofs::Turning::turnings))]
pub(crate) fn cross_terms(
    instruments: &Instruments,
    book: &PriceBook,
    held: &Held,
    who: Who,
    cross: &NewOrderCross,
) -> Result<Terms, Cause>
    ensures sound { IfOk result (λ terms. IsSound instruments.now book.now.facts held.now.facts who cross.now) }
    ensures terms { IfOk result (λ terms. IsTermsOf instruments.now cross.now terms) }
    ensures turned { IfErr result (λ cause. IsTurnedAway instruments.now book.now.facts held.now.facts who cross.now cause) }
{
    let Some(instrument) = instrument_of(instruments, &cross.symbol) else {
        return Err(Cause::Refused(CrossRefusal::UnknownInstrument));
    };
    if held.crossed(who, &cross.cross_id) {
        let named = named_orders(book, who, cross);
        return Err(Cause::Duplicate(named, CrossRefusal::DuplicateCrossId));
    }
    if are_ids_taken(book, held, who, cross) {
        let named = named_orders(book, who, cross);
        return Err(Cause::Duplicate(named, CrossRefusal::DuplicateClOrdId));
    }
    if is_unsupported(cross) {
        return Err(Cause::Refused(CrossRefusal::UnsupportedOrder));
    }
    let Some(price) = cross.price else {
        return Err(Cause::PriceMissing);
    };
    if is_side(cross.first.side, cross.second.side) {
        return Err(Cause::Refused(CrossRefusal::OneBuyAndOneSell));
    }
    if is_off_tick(instruments, instrument, price) {
        return Err(Cause::Refused(CrossRefusal::PriceOffTick));
    }
    if is_quantity_wrong(instruments, instrument, cross) {
        return Err(Cause::Refused(CrossRefusal::Quantity));
    }
    Ok(Terms { instrument, price })
}
