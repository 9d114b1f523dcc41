//! The figures of a participant's day, group by group.

ghost use Rattle.std.specs.Prelude.{◌≡◌, ◌++◌, OnOk};
ghost use Rattle.std.specs.List.{flat_map};
ghost use Rattle.participant_activity.specs.Kept.{activity_of};
ghost use Rattle.participant_activity.specs.Figures.{activity_text, cause_figure, day_text, end_figures, figure_at, figure_if, figures_text, order_figures, orders_text, own_figures, quote_figures, quotes_text, ranked, request_figures, text_of, times_text, trade_figures};

use crate::activity::{Activity, OrderCounts, QuoteCounts, Traded, plus};
use crate::closing::{QuoteEnds, ends_at, greatest, least, median, resting};
use crate::figures::{Figure, Figured, append_figure, append_figures, append_heading};
use crate::form::Form;
use crate::key::{Cause, Name};
use crate::ranking::{Rank, ranked};
use sef_moment::Moment;
use std::alloc::{AllocError, Global};
use std::collections::BTreeMap;

macro_rules! counted {
    ($name:expr, $value:expr) => {
        Figure {
            name: $name,
            instrument: b"",
            cause: b"",
            value: Figured::Count($value),
        }
    };
}

macro_rules! of_instrument {
    ($name:expr, $instrument:expr, $value:expr) => {
        Figure {
            name: $name,
            instrument: $instrument,
            cause: b"",
            value: $value,
        }
    };
}

fn append_moment(
    alloc: Global,
    text: &mut Vec<u8>,
    form: Form,
    name: &[u8],
    moment: Option<Moment>,
) -> Result<(), AllocError>
    ensures { OnOk result (text.new.items ≡ text.old.items ++ figures_text form (figure_at name.now moment)) }
{
    match moment {
        Some(moment) => append_figures(
            alloc,
            text,
            form,
            &[Figure {
                name,
                instrument: b"",
                cause: b"",
                value: Figured::At(moment),
            }],
        ),
        None => Ok(()),
    }
}

fn append_if(
    alloc: Global,
    text: &mut Vec<u8>,
    form: Form,
    name: &[u8],
    number: Option<u64>,
) -> Result<(), AllocError>
    ensures { OnOk result (text.new.items ≡ text.old.items ++ figures_text form (figure_if name.now number)) }
{
    match number {
        Some(number) => append_figures(alloc, text, form, &[counted!(name, number)]),
        None => Ok(()),
    }
}

fn append_day(
    alloc: Global,
    text: &mut Vec<u8>,
    form: Form,
    activity: &Activity,
) -> Result<(), AllocError>
    ensures { OnOk result (text.new.items ≡ text.old.items ++ day_text form (activity_of activity.now)) }
{
    append_moment(
        alloc,
        text,
        form,
        b"first message sent or owed (UTC)",
        activity.first,
    )?;
    append_moment(
        alloc,
        text,
        form,
        b"last message sent or owed (UTC)",
        activity.last,
    )
}

fn append_requests(
    alloc: Global,
    text: &mut Vec<u8>,
    form: Form,
    counts: &QuoteCounts,
) -> Result<(), AllocError>
    ensures { OnOk result (text.new.items ≡ text.old.items ++ figures_text form (request_figures counts.now)) }
{
    append_figures(
        alloc,
        text,
        form,
        &[
            counted!(b"requests received", counts.asked),
            counted!(b"requests quoted", counts.quoted),
        ],
    )
}

fn append_times(
    alloc: Global,
    text: &mut Vec<u8>,
    form: Form,
    times: &BTreeMap<u64, u64>,
    count: u64,
) -> Result<(), AllocError>
    ensures { OnOk result (text.new.items ≡ text.old.items ++ times_text form times.now.entries count) }
{
    let shortest = least(times);
    let middle = median(times, count);
    let longest = greatest(times, count);
    append_if(
        alloc,
        text,
        form,
        b"least milliseconds to a first quote",
        shortest,
    )?;
    append_if(
        alloc,
        text,
        form,
        b"median milliseconds to a first quote",
        middle,
    )?;
    append_if(
        alloc,
        text,
        form,
        b"greatest milliseconds to a first quote",
        longest,
    )
}

fn append_quotes(
    alloc: Global,
    text: &mut Vec<u8>,
    form: Form,
    counts: &QuoteCounts,
    ends: QuoteEnds,
) -> Result<(), AllocError>
    ensures { OnOk result (text.new.items ≡ text.old.items ++ figures_text form (quote_figures counts.now ends)) }
{
    let lapsed = plus(counts.lapsed, ends.lapsed);
    append_figures(
        alloc,
        text,
        form,
        &[
            counted!(b"quotes sent", counts.sent),
            counted!(b"quotes accepted", counts.accepted),
            counted!(b"quotes hit", counts.hit),
            counted!(b"quotes passed", counts.passed),
            counted!(b"quotes withdrawn", counts.withdrawn),
            counted!(b"quotes replaced", counts.replaced),
            counted!(b"quotes whose own end (62) passed", lapsed),
            counted!(
                b"quotes whose end no message states (run out or traded elsewhere or live)",
                ends.unreported
            ),
        ],
    )
}

fn append_own(
    alloc: Global,
    text: &mut Vec<u8>,
    form: Form,
    counts: &QuoteCounts,
) -> Result<(), AllocError>
    ensures { OnOk result (text.new.items ≡ text.old.items ++ figures_text form (own_figures counts.now)) }
{
    append_figures(
        alloc,
        text,
        form,
        &[
            counted!(b"requests sent", counts.requests),
            counted!(b"requests traded", counts.requests_traded),
            counted!(
                b"withdrawals and responses that named no live quote",
                counts.not_live
            ),
        ],
    )
}

fn append_dealing(
    alloc: Global,
    text: &mut Vec<u8>,
    form: Form,
    activity: &Activity,
) -> Result<(), AllocError>
    ensures { OnOk result (text.new.items ≡ text.old.items ++ quotes_text form (activity_of activity.now)) }
{
    let ends = ends_at(activity.last, &activity.asked);
    append_requests(alloc, text, form, &activity.quotes)?;
    append_times(alloc, text, form, &activity.times, activity.quotes.quoted)?;
    append_quotes(alloc, text, form, &activity.quotes, ends)?;
    append_own(alloc, text, form, &activity.quotes)
}

fn append_orders(
    alloc: Global,
    text: &mut Vec<u8>,
    form: Form,
    counts: &OrderCounts,
) -> Result<(), AllocError>
    ensures { OnOk result (text.new.items ≡ text.old.items ++ figures_text form (order_figures counts.now)) }
{
    append_figures(
        alloc,
        text,
        form,
        &[
            counted!(b"orders sent", counts.orders),
            counted!(b"crosses sent", counts.crosses),
            counted!(b"orders and cross sides entered", counts.entered),
            counted!(b"orders filled in part or whole", counts.filled),
            counted!(b"orders filled whole", counts.whole),
            counted!(b"orders cancelled", counts.cancelled),
            counted!(b"orders cancelled at entry", counts.unfilled),
            counted!(b"orders replaced", counts.replaced),
        ],
    )
}

fn append_ends(
    alloc: Global,
    text: &mut Vec<u8>,
    form: Form,
    counts: &OrderCounts,
) -> Result<(), AllocError>
    ensures { OnOk result (text.new.items ≡ text.old.items ++ figures_text form (end_figures counts.now)) }
{
    let resting = resting(counts);
    append_figures(
        alloc,
        text,
        form,
        &[
            counted!(b"orders resting at the end", resting),
            counted!(b"held cross sides cancelled", counts.held),
            counted!(b"refusals received", counts.refused),
        ],
    )
}

fn append_cause(
    alloc: Global,
    text: &mut Vec<u8>,
    form: Form,
    rank: &Rank,
    count: u64,
) -> Result<(), AllocError>
    ensures { OnOk result (text.new.items ≡ text.old.items ++ text_of form (cause_figure (rank.now, count))) }
{
    append_figure(
        alloc,
        text,
        form,
        &Figure {
            name: b"refused",
            instrument: b"",
            cause: rank.cause.text.as_slice(),
            value: Figured::Count(count),
        },
    )
}

fn append_causes(
    alloc: Global,
    text: &mut Vec<u8>,
    form: Form,
    causes: &BTreeMap<Cause, u64>,
) -> Result<(), AllocError>
    ensures { OnOk result (text.new.items ≡ text.old.items ++ flat_map (λ r. text_of form (cause_figure r)) (ranked causes.now.entries)) }
{
    let ranks = ranked(alloc, causes)?;
    for (rank, count) in ranks.iter() {
        append_cause(alloc, text, form, rank, *count)?;
    }
    Ok(())
}

fn append_instrument(
    alloc: Global,
    text: &mut Vec<u8>,
    form: Form,
    name: &Name,
    traded: &Traded,
) -> Result<(), AllocError>
    ensures { OnOk result (text.new.items ≡ text.old.items ++ figures_text form (trade_figures (name.now, traded.now))) }
{
    let symbol = name.id.as_slice();
    append_figures(
        alloc,
        text,
        form,
        &[
            of_instrument!(b"trades bought", symbol, Figured::Count(traded.bought)),
            of_instrument!(
                b"quantity bought",
                symbol,
                Figured::Quantity(traded.quantity_bought)
            ),
            of_instrument!(b"trades sold", symbol, Figured::Count(traded.sold)),
            of_instrument!(
                b"quantity sold",
                symbol,
                Figured::Quantity(traded.quantity_sold)
            ),
        ],
    )
}

fn append_trades(
    alloc: Global,
    text: &mut Vec<u8>,
    form: Form,
    trades: &BTreeMap<Name, Traded>,
) -> Result<(), AllocError>
    ensures { OnOk result (text.new.items ≡ text.old.items ++ flat_map (λ d. figures_text form (trade_figures d)) trades.now.entries) }
{
    for (name, traded) in trades.iter() {
        append_instrument(alloc, text, form, name, traded)?;
    }
    Ok(())
}

fn append_ordering(
    alloc: Global,
    text: &mut Vec<u8>,
    form: Form,
    activity: &Activity,
) -> Result<(), AllocError>
    ensures { OnOk result (text.new.items ≡ text.old.items ++ orders_text form (activity_of activity.now)) }
{
    append_orders(alloc, text, form, &activity.orders)?;
    append_ends(alloc, text, form, &activity.orders)?;
    append_causes(alloc, text, form, &activity.causes)?;
    append_trades(alloc, text, form, &activity.trades)
}

/// Appends the whole, of a participant with this name.
pub(crate) fn append_activity(
    alloc: Global,
    text: &mut Vec<u8>,
    form: Form,
    name: &[u8],
    activity: &Activity,
) -> Result<(), AllocError>
    ensures { OnOk result (text.new.items ≡ text.old.items ++ activity_text form name.now (activity_of activity.now)) }
{
    append_heading(alloc, text, form, name)?;
    append_day(alloc, text, form, activity)?;
    append_dealing(alloc, text, form, activity)?;
    append_ordering(alloc, text, form, activity)
}
