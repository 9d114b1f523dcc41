//! The notices of a turn.

ghost use Rattle.std.specs.Prelude.{◌≡◌};
ghost use Rattle.gateway.specs.Notices as notices;

use crate::line::{Accept, Gate};
use crate::notice::{Notice, SessionReport};
use crate::piece::Given;
use crate::stepping::StepsEnd;
use crate::turn::{
    CollectOutcome, HandOutcome, Reading, Stepped, TickOutcome, Turn, Work, WriteOutcome,
};
use fix_dictionary::SequenceNumber;
use sef_moment::Moment;

fn of_accepted(accepted: Option<Accept>) -> Option<Notice>
    ensures { result ≡ notices.of_accepted accepted }
{
    match accepted {
        Some(Accept::Up) => Some(Notice::Connected),
        Some(Accept::Fault) => Some(Notice::LineFault),
        Some(Accept::Quiet) => None,
        Some(Accept::Over) => None,
        None => None,
    }
}

fn of_collected(collected: &Option<CollectOutcome>) -> Option<Notice>
    ensures { result ≡ notices.of_collected collected.now }
{
    match collected {
        Some(CollectOutcome::Cut) => Some(Notice::Cut),
        Some(CollectOutcome::Sent { .. }) => Some(Notice::Sent),
        Some(CollectOutcome::Nothing) => None,
        Some(CollectOutcome::Refused { .. }) => None,
        None => None,
    }
}

fn of_wrote(wrote: WriteOutcome) -> Option<Notice>
    ensures { result ≡ notices.of_wrote wrote }
{
    match wrote {
        WriteOutcome::Fault => Some(Notice::LineFault),
        WriteOutcome::Nothing => None,
        WriteOutcome::All => None,
    }
}

fn of_given(given: &Given) -> Option<Notice>
    ensures { result ≡ notices.of_given given.now }
{
    match given {
        Given::Ended => Some(Notice::LineEnded),
        Given::Fault => Some(Notice::LineFault),
        Given::Got { .. } => None,
        Given::Quiet => None,
    }
}

fn of_reading(reading: &Option<Reading>) -> Option<Notice>
    ensures { result ≡ notices.of_reading reading.now }
{
    match reading {
        Some(Reading::Answered { given }) => of_given(given),
        Some(Reading::Plenty) => None,
        Some(Reading::Kept { .. }) => None,
        None => None,
    }
}

// A new era, where one began between these reports.
fn of_era(before: &SessionReport, after: &SessionReport) -> Option<Notice>
    ensures { result ≡ notices.of_era before.now after.now }
{
    if before.era == after.era {
        None
    } else {
        Some(Notice::EraBegun { era: after.era })
    }
}

// The steps dropped a line whose Logon had been accepted.
fn was_logged_on(end: StepsEnd) -> bool
    ensures { result ≡ notices.was_logged_on end }
{
    match end {
        StepsEnd::Dropped { was_logged_on, .. } => was_logged_on,
        StepsEnd::Idle => false,
        StepsEnd::Refused => false,
    }
}

// Whether a Logon was accepted.
fn has_logged_on(stepped: &Stepped) -> bool
    ensures { result ≡ notices.has_logged_on stepped.now }
{
    let is_logged_on = stepped.after.line.logged_on || was_logged_on(stepped.end);
    !stepped.before.line.logged_on && is_logged_on
}

fn of_logon(stepped: &Stepped) -> Option<Notice>
    ensures { result ≡ notices.of_logon stepped.now }
{
    let after = &stepped.after;
    if has_logged_on(stepped) {
        Some(Notice::LoggedOn {
            incoming: after.line.next_incoming.get(),
            outgoing: after.outgoing,
            heartbeat: u32::from(after.line.heartbeat.get()),
            era: after.era,
        })
    } else {
        None
    }
}

// A ResendRequest that a frame of this number raised is not yet satisfied.
fn is_outstanding(request: Option<SequenceNumber>, expected: u32) -> bool
    ensures { result ≡ notices.is_outstanding request expected }
{
    match request {
        None => false,
        Some(number) => expected <= number.get(),
    }
}

// An outstanding ResendRequest that is another than before.
fn is_raised(after: Option<SequenceNumber>, before: Option<SequenceNumber>, expected: u32) -> bool
    ensures { result ≡ notices.is_raised after before expected }
{
    match after {
        None => false,
        Some(number) => match before {
            None => expected <= number.get(),
            Some(earlier) => earlier.get() != number.get() && expected <= number.get(),
        },
    }
}

fn of_gap(before: &SessionReport, after: &SessionReport) -> Option<Notice>
    ensures { result ≡ notices.of_gap before.now after.now }
{
    let expected = after.line.next_incoming.get();
    if is_raised(
        after.line.outstanding_request,
        before.line.outstanding_request,
        expected,
    ) {
        Some(Notice::GapRequested { from: expected })
    } else {
        None
    }
}

fn of_progress(before: &SessionReport, after: &SessionReport) -> Option<Notice>
    ensures { result ≡ notices.of_progress before.now after.now }
{
    let earlier = before.line.next_incoming.get();
    let expected = after.line.next_incoming.get();
    let was_outstanding = is_outstanding(before.line.outstanding_request, earlier);
    let outstanding = is_outstanding(after.line.outstanding_request, expected);
    if has_progressed(was_outstanding, outstanding, earlier == expected) {
        Some(Notice::Progress {
            expected,
            outstanding,
        })
    } else {
        None
    }
}

// A request was raised or satisfied, or the number expected moved under it.
fn has_progressed(was_outstanding: bool, outstanding: bool, same: bool) -> bool
    ensures { result ≡ notices.has_progressed was_outstanding outstanding same }
{
    if outstanding {
        !was_outstanding || !same
    } else {
        was_outstanding
    }
}

// The next numbers.
fn of_numbers(after: &SessionReport) -> Option<Notice>
    ensures { result ≡ notices.of_numbers after.now }
{
    Some(Notice::Numbers {
        incoming: after.line.next_incoming.get(),
        outgoing: after.outgoing,
    })
}

fn of_drop(end: StepsEnd) -> Option<Notice>
    ensures { result ≡ notices.of_drop end }
{
    match end {
        StepsEnd::Dropped {
            why,
            was_logged_on,
            fault,
        } => Some(Notice::Dropped {
            why,
            was_logged_on,
            fault,
        }),
        StepsEnd::Idle => None,
        StepsEnd::Refused => None,
    }
}

fn of_handed(handed: HandOutcome) -> Option<Notice>
    ensures { result ≡ notices.of_handed handed }
{
    match handed {
        HandOutcome::Given => Some(Notice::Taken),
        HandOutcome::Nothing => None,
        HandOutcome::Refused => None,
    }
}

fn of_tick(ticked: TickOutcome) -> Option<Notice>
    ensures { result ≡ notices.of_tick ticked }
{
    match ticked {
        TickOutcome::Dropped { why, was_logged_on } => Some(Notice::Dropped {
            why,
            was_logged_on,
            fault: None,
        }),
        TickOutcome::Done => None,
        TickOutcome::Refused => None,
    }
}

fn of_connection(turn: &Turn) -> [Option<Notice>; 2]
    ensures { result ≡ notices.of_connection turn.now }
{
    [of_accepted(turn.accepted), of_collected(&turn.collected)]
}

fn of_work(work: &Work) -> [Option<Notice>; 12]
    ensures { result ≡ notices.of_work work.now }
{
    let stepped = &work.stepped;
    let before = &stepped.before;
    let after = &stepped.after;
    [
        of_wrote(work.wrote),
        of_reading(&work.reading),
        of_era(before, after),
        of_logon(stepped),
        of_gap(before, after),
        of_progress(before, after),
        of_numbers(after),
        of_drop(stepped.end),
        of_wrote(stepped.wrote),
        of_handed(work.handed),
        of_tick(work.beat.ticked),
        of_wrote(work.beat.wrote),
    ]
}

/// The notice of the end of the turns.
pub(crate) fn of_end(report: &SessionReport) -> Notice
    ensures { result ≡ notices.of_end report.now }
{
    Notice::Ended {
        incoming: report.line.next_incoming.get(),
        outgoing: report.outgoing,
        era: report.era,
    }
}

// Notifies a gate of each notice that there is.
fn notify_all<G: Gate>(gate: &mut G, all: &[Option<Notice>], moment: Moment)
    ensures { G.passed gate.new ≡ G.passed gate.old }
{
    for notice in all {
        match notice {
            None => {}
            Some(notice) => gate.notify(*notice, moment),
        }
    }
}

/// Notifies a gate of what happened in a turn.
pub(crate) fn report<G: Gate>(gate: &mut G, turn: &Turn)
    ensures { G.passed gate.new ≡ G.passed gate.old }
{
    notify_all(gate, &of_connection(turn), turn.moment);
    match &turn.work {
        None => {}
        Some(work) => notify_all(gate, &of_work(work), turn.moment),
    }
}
