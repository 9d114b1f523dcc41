//! What each input changes of the held sides of crosses.

ghost use Rattle.std.specs.Prelude.{◌≡◌, ◌≤◌, ◌++◌, ◌∷◌, [], false, IfSome, OnOk};
ghost use Rattle.instruments.specs.Listing.{delay_of, instrument_of, is_unknown_instrument};
ghost use Rattle.venue_rules.specs.Crosses.{is_first, second_side};
ghost use Rattle.venue_rules.specs.Orders.{price_or_zero};
ghost use Rattle.row_replay.specs.Inputs.{input_of};
ghost use Rattle.resting_orders.specs.declared.holding.HeldChange.TheVariants.{Ends};
ghost use Rattle.resting_orders.specs.Holding.{change_at, change_by_app, change_by_cancel, change_by_cross, change_by_due, changed, entry_moment, first_due, first_ends, first_enters, held_after, is_entered, is_held_cancelled, is_other, moment_from, second_held, sooner, sooner_due};

use fix_dictionary::{App, CrossSide, Identifier, NewOrderCross, Price, Quantity, Side};
use instruments::Instruments;
use participants::Who;
use sef_moment::Moment;
use std::alloc::AllocError;
use venue_rules::{HeldSide, OrderFact, Reply, ReplyBody, Taken, TimeInForce, is_side};

/// What an input changes of the held sides.
#[derive(Clone, Copy)]
pub enum HeldChange {
    Same,
    Holds(HeldSide),
    /// The owner's side with this identifier (11) is held no longer.
    Ends(Who, Identifier),
}

fn is_first(cross: &NewOrderCross, side: &CrossSide) -> bool
    ensures { result ≡ is_first cross.now side.now }
{
    if cross.prioritization.get() == 1 {
        is_side(side.side, Side::Buy)
    } else {
        is_side(side.side, Side::Sell)
    }
}

fn second_side(cross: &NewOrderCross) -> &CrossSide
    ensures { result.now ≡ second_side cross.now }
{
    if is_first(cross, &cross.first) {
        &cross.second
    } else {
        &cross.first
    }
}

fn price_or_zero(price: Option<Price>) -> Price
    ensures { result ≡ price_or_zero price }
{
    match price {
        Some(price) => price,
        None => Price::new(0),
    }
}

/// The second side of a cross in an instrument, as the venue holds it.
fn held_in(
    instruments: &Instruments,
    who: Who,
    cross: &NewOrderCross,
    instrument: u32,
    moment: Moment,
) -> HeldSide
    requires known { is_unknown_instrument instruments.now cross.now.symbol ≡ false }
    requires there { instrument ≡ instrument_of instruments.now cross.now.symbol }
    ensures { result ≡ second_held instruments.now who cross.now moment }
{
    let side = second_side(cross);
    let order = OrderFact {
        who,
        id: side.order_id,
        link: None,
        instrument,
        side: side.side,
        quantity: side.quantity,
        price: price_or_zero(cross.price),
        life: TimeInForce::Day,
    };
    HeldSide {
        order,
        cross: cross.cross_id,
        due: moment.ms() + instruments.delay(instrument),
    }
}

fn is_entered(what: &ReplyBody) -> bool
    ensures { result ≡ is_entered what.now }
{
    matches!(what, ReplyBody::OrderEntered(_))
}

fn first_enters(replies: &[Reply]) -> bool
    ensures { result ≡ first_enters replies.now }
{
    match replies.split_first() {
        Some((first, _)) => is_entered(&first.what),
        None => false,
    }
}

fn is_held_cancelled(what: &ReplyBody) -> bool
    ensures { result ≡ is_held_cancelled what.now }
{
    match what {
        ReplyBody::OrderCancelled(report) => report.order.order.is_none(),
        _ => false,
    }
}

fn first_ends(replies: &[Reply]) -> bool
    ensures { result ≡ first_ends replies.now }
{
    match replies.split_first() {
        Some((first, _)) => is_held_cancelled(&first.what),
        None => false,
    }
}

fn change_by_cross(
    instruments: &Instruments,
    who: Who,
    cross: &NewOrderCross,
    moment: Moment,
    enters: bool,
) -> HeldChange
    ensures { result ≡ change_by_cross instruments.now who cross.now moment enters }
{
    if !enters {
        return HeldChange::Same;
    }
    let Some(instrument) = instruments.find(cross.symbol.as_slice()) else {
        return HeldChange::Same;
    };
    HeldChange::Holds(held_in(instruments, who, cross, instrument, moment))
}

fn change_by_cancel(who: Who, id: Identifier, ends: bool) -> HeldChange
    ensures { result ≡ change_by_cancel who id ends }
{
    if ends {
        HeldChange::Ends(who, id)
    } else {
        HeldChange::Same
    }
}

fn change_by_app(
    instruments: &Instruments,
    who: Who,
    app: &App,
    moment: Moment,
    replies: &[Reply],
) -> HeldChange
    ensures { result ≡ change_by_app instruments.now who app.now moment replies.now }
{
    match app {
        App::NewOrderCross(cross) => {
            change_by_cross(instruments, who, cross, moment, first_enters(replies))
        }
        App::OrderCancelRequest(cancel) => {
            change_by_cancel(who, cancel.original_id, first_ends(replies))
        }
        App::QuoteRequest(_) => HeldChange::Same,
        App::Quote(_) => HeldChange::Same,
        App::QuoteCancel(_) => HeldChange::Same,
        App::QuoteResponse(_) => HeldChange::Same,
        App::QuoteStatusReport(_) => HeldChange::Same,
        App::QuoteRequestReject(_) => HeldChange::Same,
        App::NewOrderSingle(_) => HeldChange::Same,
        App::OrderCancelReplaceRequest(_) => HeldChange::Same,
        App::ExecutionReport(_) => HeldChange::Same,
        App::OrderCancelReject(_) => HeldChange::Same,
        App::MarketDataRequest(_) => HeldChange::Same,
        App::MarketDataSnapshot(_) => HeldChange::Same,
        App::MarketDataRequestReject(_) => HeldChange::Same,
        App::BusinessMessageReject(_) => HeldChange::Same,
        App::Unsupported(_) => HeldChange::Same,
    }
}

/// The first due so far, or this side where it is due before that.
fn sooner(due: Option<HeldSide>, side: &HeldSide) -> Option<HeldSide>
    ensures { result ≡ sooner due side.now }
{
    match due {
        None => Some(*side),
        Some(first) => {
            if side.due < first.due {
                Some(*side)
            } else {
                Some(first)
            }
        }
    }
}

/// The same where this side is due.
fn sooner_due(due: Option<HeldSide>, side: &HeldSide, moment: Moment) -> Option<HeldSide>
    ensures { result ≡ sooner_due moment due side.now }
{
    if side.due <= moment.ms() {
        sooner(due, side)
    } else {
        due
    }
}

/// The first side due at a moment: by due moment, then by arrival.
fn first_due(held: &[HeldSide], moment: Moment) -> Option<HeldSide>
    ensures due { result ≡ first_due moment held.now }
    ensures passed { IfSome result (λ side. side.due ≤ moment) }
{
    let mut due = None;
    for side in held {
        due = sooner_due(due, side, moment);
    }
    due
}

/// The due moment of a side that is due.
fn moment_from(moment: Moment, due: Option<HeldSide>) -> Moment
    requires { IfSome due (λ side. side.due ≤ moment) }
    ensures { result ≡ moment_from moment due }
{
    let _milliseconds = moment.ms();
    match due {
        None => moment,
        Some(side) => Moment::of_ms(side.due).unwrap(),
    }
}

/// The moment at which an order enters: of a held side its due moment, and else that of the input.
pub(crate) fn entry_moment(held: &[HeldSide], taken: &Option<Taken>, moment: Moment) -> Moment
    ensures { result ≡ entry_moment held.now (input_of taken.now moment) }
{
    match taken {
        Some(_) => moment,
        None => moment_from(moment, first_due(held, moment)),
    }
}

fn change_by_due(due: Option<HeldSide>) -> HeldChange
    ensures { result ≡ change_by_due due }
{
    match due {
        None => HeldChange::Same,
        Some(side) => HeldChange::Ends(side.order.who, side.order.id),
    }
}

fn change_at(
    instruments: &Instruments,
    held: &[HeldSide],
    taken: &Option<Taken>,
    moment: Moment,
    replies: &[Reply],
) -> HeldChange
    ensures { result ≡ change_at instruments.now held.now (input_of taken.now moment) replies.now }
{
    match taken {
        Some(taken) => change_by_app(
            instruments,
            taken.from,
            taken.item.app.get(),
            moment,
            replies,
        ),
        None => change_by_due(first_due(held, moment)),
    }
}

fn is_other(who: Who, id: &Identifier, side: &HeldSide) -> bool
    ensures { result ≡ is_other who id.now side.now }
{
    !(side.order.who == who && side.order.id.is(id))
}

fn remove_named(held: &mut Vec<HeldSide>, who: Who, id: &Identifier)
    ensures { held.new.items ≡ changed (Ends who id.now) held.old.items }
{
    held.retain(|side| is_other(who, id, side));
}

fn push_side(held: &mut Vec<HeldSide>, side: HeldSide) -> Result<(), AllocError>
    ensures { OnOk result (held.new.items ≡ held.old.items ++ side ∷ []) }
{
    // Types of a held side's content, named here because the proof of the push needs each.
    let _order: Option<OrderFact> = None;
    let _name: Option<Identifier> = None;
    let _side: Option<Side> = None;
    let _quantity: Option<Quantity> = None;
    let _price: Option<Price> = None;
    let _life: Option<TimeInForce> = None;
    let _who: Option<Who> = None;
    match held.push(side) {
        Ok(()) => Ok(()),
        Err(_) => Err(AllocError),
    }
}

fn change_held(held: &mut Vec<HeldSide>, change: HeldChange) -> Result<(), AllocError>
    ensures { OnOk result (held.new.items ≡ changed change held.old.items) }
{
    match change {
        HeldChange::Same => Ok(()),
        HeldChange::Holds(side) => push_side(held, side),
        HeldChange::Ends(who, id) => {
            remove_named(held, who, &id);
            Ok(())
        }
    }
}

/// Keeps what an input changes of the held sides, by the replies to it.
pub(crate) fn keep_held(
    instruments: &Instruments,
    held: &mut Vec<HeldSide>,
    taken: &Option<Taken>,
    moment: Moment,
    replies: &[Reply],
) -> Result<(), AllocError>
    ensures { OnOk result (held.new.items ≡ held_after instruments.now held.old.items (input_of taken.now moment) replies.now) }
{
    let change = change_at(instruments, held, taken, moment, replies);
    change_held(held, change)
}
