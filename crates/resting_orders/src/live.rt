//! The quotes that are live after a day.

ghost use Rattle.std.specs.Prelude.{◌≡◌, ◌++◌, ◌∷◌, ◌≤◌, [], false, filter, cond, IfOk, OnOk};
ghost use Rattle.venue_core.specs.Plan.{most_items};
ghost use Rattle.venue_core.specs.State.{standing};
ghost use Rattle.venue_core.specs.VenueFacts.{IsHistory};
ghost use Rattle.venue_rules.specs.Facts.{History};
ghost use Rattle.venue_rules.specs.Run.{Message, answer_input};
ghost use Rattle.resting_orders.specs.Quoting.{first_withdraws, is_withdrawn_state, still_live, still_live_at, withdrawal, withdraws_what};

use crate::quoting::OwnQuote;
use fix_dictionary::{App, BoxedApp, FixInt, Item, Price, QuoteCancel, SequenceNumber};
use sef_moment::Moment;
use std::alloc::{AllocError, Global};
use venue_core::Venue;
use venue_rules::{QuoteState, Reply, ReplyBody, Taken};

/// The withdrawal of a quote by its maker.
fn withdrawal(alloc: Global, quote: &OwnQuote) -> Result<Taken, AllocError>
    ensures { IfOk result (λ taken. taken ≡ withdrawal quote.now) }
{
    let cancel = QuoteCancel {
        quote_id: Some(quote.id),
        cancel_type: FixInt::new(5),
    };
    let app = BoxedApp::new(alloc, App::QuoteCancel(cancel))?;
    Ok(Taken {
        from: quote.maker,
        item: Item {
            era: 1,
            number: SequenceNumber::new(1),
            app,
        },
    })
}

fn is_withdrawn_state(state: &QuoteState) -> bool
    ensures { result ≡ is_withdrawn_state state.now }
{
    match state {
        QuoteState::Withdrawn => true,
        QuoteState::Accepted => false,
        QuoteState::Refused(_) => false,
        QuoteState::ResponseRefused(_) => false,
        QuoteState::CancelUnsupported => false,
        QuoteState::Expired => false,
        QuoteState::NotFound => false,
        QuoteState::Passed => false,
    }
}

fn withdraws_what(what: &ReplyBody) -> bool
    ensures { result ≡ withdraws_what what.now }
{
    match what {
        ReplyBody::QuoteStatus(status) => is_withdrawn_state(&status.state),
        _ => false,
    }
}

fn first_withdraws(replies: &[Reply]) -> bool
    ensures { result ≡ first_withdraws replies.now }
{
    match replies.split_first() {
        Some((first, _)) => withdraws_what(&first.what),
        None => false,
    }
}

/// Whether the venue would withdraw a quote for its maker at a moment.
fn would_withdraw(
    alloc: Global,
    venue: &mut Venue,
    quote: &OwnQuote,
    moment: Moment,
) -> Result<bool, AllocError>
    requires few { venue.old.items ≤ most_items }
    ensures market { venue.new.market ≡ venue.old.market }
    ensures day { standing venue.new.day ≡ standing venue.old.day }
    ensures items { venue.new.items ≡ venue.old.items }
    ensures withdraws { (h : History) → IsHistory venue.old h → IfOk result (λ b. b ≡ first_withdraws (answer_input venue.old.market h (Message (withdrawal quote.now) moment)).replies) }
{
    let asked = withdrawal(alloc, quote)?;
    let plan = venue.plan(&asked, moment)?;
    let withdraws = first_withdraws(plan.replies());
    drop(plan);
    Ok(withdraws)
}

/// Whether a quote is live at a moment.
fn still_live(
    alloc: Global,
    venue: &mut Venue,
    quote: &OwnQuote,
    moment: Moment,
) -> Result<bool, AllocError>
    requires few { venue.old.items ≤ most_items }
    ensures market { venue.new.market ≡ venue.old.market }
    ensures day { standing venue.new.day ≡ standing venue.old.day }
    ensures items { venue.new.items ≡ venue.old.items }
    ensures live { (h : History) → IsHistory venue.old h → IfOk result (λ b. b ≡ still_live venue.old.market h moment quote.now) }
{
    if moment.ms() <= quote.end.ms() {
        would_withdraw(alloc, venue, quote, moment)
    } else {
        Ok(false)
    }
}

fn push_where(quotes: &mut Vec<OwnQuote>, quote: &OwnQuote, is_live: bool) -> Result<(), AllocError>
    ensures { OnOk result (quotes.new.items ≡ quotes.old.items ++ cond is_live (quote.now ∷ []) []) }
{
    if is_live {
        let quote: OwnQuote = *quote;
        let _bid: Option<Price> = quote.bid;
        match quotes.push(quote) {
            Ok(()) => Ok(()),
            Err(_) => Err(AllocError),
        }
    } else {
        Ok(())
    }
}

/// Adds a quote that is live at a moment.
fn push_if_live(
    alloc: Global,
    venue: &mut Venue,
    quote: &OwnQuote,
    moment: Moment,
    live: &mut Vec<OwnQuote>,
) -> Result<(), AllocError>
    requires few { venue.old.items ≤ most_items }
    ensures market { venue.new.market ≡ venue.old.market }
    ensures day { standing venue.new.day ≡ standing venue.old.day }
    ensures items { venue.new.items ≡ venue.old.items }
    ensures live { (h : History) → IsHistory venue.old h → OnOk result (live.new.items ≡ live.old.items ++ cond (still_live venue.old.market h moment quote.now) (quote.now ∷ []) []) }
{
    let is_live = still_live(alloc, venue, quote, moment)?;
    push_where(live, quote, is_live)
}

/// Adds the quotes that are live at a moment.
fn push_live(
    alloc: Global,
    venue: &mut Venue,
    quotes: &[OwnQuote],
    moment: Moment,
    live: &mut Vec<OwnQuote>,
) -> Result<(), AllocError>
    requires few { venue.old.items ≤ most_items }
    ensures market { venue.new.market ≡ venue.old.market }
    ensures day { standing venue.new.day ≡ standing venue.old.day }
    ensures items { venue.new.items ≡ venue.old.items }
    ensures live { (h : History) → IsHistory venue.old h → OnOk result (live.new.items ≡ live.old.items ++ filter (still_live venue.old.market h moment) quotes.now) }
{
    for quote in quotes {
        push_if_live(alloc, venue, quote, moment, live)?;
    }
    Ok(())
}

/// Adds the quotes that are live at a moment; none where there is no moment.
pub(crate) fn push_live_at(
    alloc: Global,
    venue: &mut Venue,
    quotes: &[OwnQuote],
    moment: Option<Moment>,
    live: &mut Vec<OwnQuote>,
) -> Result<(), AllocError>
    requires few { venue.old.items ≤ most_items }
    ensures market { venue.new.market ≡ venue.old.market }
    ensures day { standing venue.new.day ≡ standing venue.old.day }
    ensures items { venue.new.items ≡ venue.old.items }
    ensures live { (h : History) → IsHistory venue.old h → OnOk result (live.new.items ≡ live.old.items ++ still_live_at venue.old.market h moment quotes.now) }
{
    match moment {
        Some(moment) => push_live(alloc, venue, quotes, moment, live),
        None => Ok(()),
    }
}
