//! The quotes of a participant, by request.

ghost use Rattle.std.specs.Prelude.{◌≡◌, OnOk};
ghost use Rattle.participant_activity.specs.Kept.{activity_of};
ghost use Rattle.participant_activity.specs.Noting.{accepted, after_hit, after_pass, after_withdrawal, asked_at, asked_in, count_hit, count_pass, count_withdrawal, ended, ended_at, followed, followed_until, if_first, is_live, is_past, live_in, put_request, quoted, quoted_in, request_at, timed, timed_first};

use crate::activity::{Activity, OwnRequest, QuoteCounts, plus};
use crate::key::Name;
use fix_dictionary::Identifier;
use sef_moment::Moment;
use std::alloc::AllocError;
use std::collections::BTreeMap;

fn request_at(asked: &BTreeMap<Name, OwnRequest>, id: Identifier) -> Option<OwnRequest>
    ensures { result ≡ request_at asked.now.entries id }
{
    asked.get(&Name { id }).copied()
}

fn put_request(
    asked: &mut BTreeMap<Name, OwnRequest>,
    id: Identifier,
    request: OwnRequest,
) -> Result<(), AllocError>
    ensures { OnOk result (asked.new.entries ≡ put_request asked.old.entries id request) }
{
    asked.insert(Name { id }, request)?;
    Ok(())
}

fn live_in(request: Option<OwnRequest>) -> bool
    ensures { result ≡ live_in request }
{
    match request {
        Some(request) => request.live,
        None => false,
    }
}

/// Whether its last quote in a request is live.
fn is_live(asked: &BTreeMap<Name, OwnRequest>, id: &Option<Identifier>) -> bool
    ensures { result ≡ is_live asked.now.entries id.now }
{
    match id {
        Some(id) => live_in(request_at(asked, *id)),
        None => false,
    }
}

fn end_at(
    asked: &mut BTreeMap<Name, OwnRequest>,
    id: Identifier,
    request: Option<OwnRequest>,
) -> Result<(), AllocError>
    ensures { OnOk result (asked.new.entries ≡ ended_at asked.old.entries id request) }
{
    match request {
        Some(request) => put_request(
            asked,
            id,
            OwnRequest {
                live: false,
                ..request
            },
        ),
        None => Ok(()),
    }
}

/// Notes that it has no live quote in a request.
fn end_quote(
    asked: &mut BTreeMap<Name, OwnRequest>,
    id: Option<Identifier>,
) -> Result<(), AllocError>
    ensures { OnOk result (asked.new.entries ≡ ended asked.old.entries id) }
{
    match id {
        Some(id) => {
            let request = request_at(asked, id);
            end_at(asked, id, request)
        }
        None => Ok(()),
    }
}

fn count_pass(counts: QuoteCounts, live: bool) -> QuoteCounts
    ensures { result ≡ count_pass counts live }
{
    if live {
        QuoteCounts {
            passed: plus(counts.passed, 1),
            ..counts
        }
    } else {
        counts
    }
}

/// Notes that its live quote in a request is passed.
pub(crate) fn pass(activity: &mut Activity, id: Option<Identifier>) -> Result<(), AllocError>
    ensures { OnOk result (activity_of activity.new ≡ after_pass (activity_of activity.old) id) }
{
    let live = is_live(&activity.asked, &id);
    activity.quotes = count_pass(activity.quotes, live);
    end_quote(&mut activity.asked, id)
}

fn count_withdrawal(counts: QuoteCounts, live: bool) -> QuoteCounts
    ensures { result ≡ count_withdrawal counts live }
{
    if live {
        QuoteCounts {
            withdrawn: plus(counts.withdrawn, 1),
            ..counts
        }
    } else {
        counts
    }
}

/// Notes that its live quote in a request is withdrawn.
pub(crate) fn withdraw(activity: &mut Activity, id: Option<Identifier>) -> Result<(), AllocError>
    ensures { OnOk result (activity_of activity.new ≡ after_withdrawal (activity_of activity.old) id) }
{
    let live = is_live(&activity.asked, &id);
    activity.quotes = count_withdrawal(activity.quotes, live);
    end_quote(&mut activity.asked, id)
}

fn count_hit(counts: QuoteCounts, live: bool) -> QuoteCounts
    ensures { result ≡ count_hit counts live }
{
    if live {
        QuoteCounts {
            hit: plus(counts.hit, 1),
            ..counts
        }
    } else {
        counts
    }
}

/// Notes that its live quote in a request is hit.
pub(crate) fn hit(activity: &mut Activity, id: Option<Identifier>) -> Result<(), AllocError>
    ensures { OnOk result (activity_of activity.new ≡ after_hit (activity_of activity.old) id) }
{
    let live = is_live(&activity.asked, &id);
    activity.quotes = count_hit(activity.quotes, live);
    end_quote(&mut activity.asked, id)
}

/// Whether a quote's own end (62) passed before a moment, both in milliseconds since 1970.
pub(crate) fn is_past(end: Option<u64>, ms: u64) -> bool
    ensures { result ≡ is_past end ms }
{
    match end {
        Some(end) => end < ms,
        None => false,
    }
}

fn followed_until(counts: QuoteCounts, past: bool) -> QuoteCounts
    ensures { result ≡ followed_until counts past }
{
    if past {
        QuoteCounts {
            lapsed: plus(counts.lapsed, 1),
            ..counts
        }
    } else {
        QuoteCounts {
            replaced: plus(counts.replaced, 1),
            ..counts
        }
    }
}

/// The counts after another quote in a request.
fn followed(counts: QuoteCounts, moment: Moment, request: &OwnRequest) -> QuoteCounts
    ensures { result ≡ followed counts moment request.now }
{
    if request.live {
        followed_until(counts, is_past(request.end, moment.ms()))
    } else {
        counts
    }
}

fn accepted(counts: QuoteCounts) -> QuoteCounts
    ensures { result ≡ accepted counts }
{
    QuoteCounts {
        accepted: plus(counts.accepted, 1),
        ..counts
    }
}

fn if_first(counts: QuoteCounts, was_quoted: bool) -> QuoteCounts
    ensures { result ≡ if_first counts was_quoted }
{
    if was_quoted {
        counts
    } else {
        QuoteCounts {
            quoted: plus(counts.quoted, 1),
            ..counts
        }
    }
}

fn time(times: &mut BTreeMap<u64, u64>, ms: u64) -> Result<(), AllocError>
    ensures { OnOk result (times.new.entries ≡ timed times.old.entries ms) }
{
    let before = times.get(&ms).copied().unwrap_or(0);
    times.insert(ms, plus(before, 1))?;
    Ok(())
}

/// Notes the time to a first quote.
fn time_first(
    times: &mut BTreeMap<u64, u64>,
    moment: Moment,
    request: &OwnRequest,
) -> Result<(), AllocError>
    ensures { OnOk result (times.new.entries ≡ timed_first times.old.entries moment request.now request.now.quoted) }
{
    if request.quoted {
        Ok(())
    } else {
        time(times, moment.ms().saturating_sub(request.moment))
    }
}

fn quote_in(
    activity: &mut Activity,
    moment: Moment,
    end: Option<u64>,
    id: Identifier,
    request: Option<OwnRequest>,
) -> Result<(), AllocError>
    ensures { OnOk result (activity_of activity.new ≡ quoted_in (activity_of activity.old) moment end id request) }
{
    let Some(request) = request else {
        return Ok(());
    };
    time_first(&mut activity.times, moment, &request)?;
    put_request(
        &mut activity.asked,
        id,
        OwnRequest {
            moment: request.moment,
            quoted: true,
            live: true,
            end,
        },
    )?;
    let counts = if_first(activity.quotes, request.quoted);
    activity.quotes = accepted(followed(counts, moment, &request));
    Ok(())
}

/// Notes an accepted quote in a request, with the end (62) that it gave.
pub(crate) fn quote(
    activity: &mut Activity,
    moment: Moment,
    end: Option<u64>,
    id: Option<Identifier>,
) -> Result<(), AllocError>
    ensures { OnOk result (activity_of activity.new ≡ quoted (activity_of activity.old) moment end id) }
{
    let Some(id) = id else {
        return Ok(());
    };
    let request = request_at(&activity.asked, id);
    quote_in(activity, moment, end, id, request)
}

fn ask_at(
    asked: &mut BTreeMap<Name, OwnRequest>,
    moment: Moment,
    id: Identifier,
    request: Option<OwnRequest>,
) -> Result<(), AllocError>
    ensures { OnOk result (asked.new.entries ≡ asked_at asked.old.entries moment id request) }
{
    match request {
        Some(_) => Ok(()),
        None => put_request(
            asked,
            id,
            OwnRequest {
                moment: moment.ms(),
                quoted: false,
                live: false,
                end: None,
            },
        ),
    }
}

/// Notes a request that it is asked in.
pub(crate) fn ask(activity: &mut Activity, moment: Moment, id: Identifier) -> Result<(), AllocError>
    ensures { OnOk result (activity_of activity.new ≡ asked_in (activity_of activity.old) moment id) }
{
    let request = request_at(&activity.asked, id);
    ask_at(&mut activity.asked, moment, id, request)?;
    activity.quotes.asked = plus(activity.quotes.asked, 1);
    Ok(())
}
