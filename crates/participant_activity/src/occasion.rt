//! Which message a reply answers, and what a status says of it.

ghost use Rattle.std.specs.Prelude.{◌≡◌, option_map};
ghost use Rattle.participant_activity.specs.Noting.{is_another, occasion_by, occasion_of, notice_of, notice_of_another, notice_of_quote, notice_of_response, notice_of_withdrawal};

use fix_dictionary::App;
use sef_moment::Moment;

/// Which message a participant is answered.
#[derive(Clone, Copy)]
pub enum Occasion {
    /// A message of somebody else, or the clock.
    Another,
    /// Its own quote, with the end (62) that it gave, in milliseconds since 1970.
    Quote(Option<u64>),
    /// Its own withdrawal.
    Withdrawal,
    /// Another message of its own.
    Own,
}

/// What a status (297) says to a participant.
#[derive(Clone, Copy)]
pub enum Notice {
    /// Its quote is accepted; the end (62) that it gave, in milliseconds since 1970.
    Accepted(Option<u64>),
    Refused,
    /// Its quote was passed by the requester.
    Passed,
    /// Its quote is withdrawn, as it asked.
    Withdrawn,
    /// It named no live quote.
    NotLive,
    /// Nothing that is counted.
    Nothing,
}

fn end_ms(end: Option<Moment>) -> Option<u64>
    ensures { result ≡ end }
{
    match end {
        Some(end) => Some(end.ms()),
        None => None,
    }
}

#[tactic(auto, unfolding(crate::specs::Noting::occasion_by))]
fn occasion_by(app: &App) -> Occasion
    ensures { result ≡ occasion_by app.now }
{
    match app {
        App::Quote(quote) => Occasion::Quote(end_ms(quote.valid_until)),
        App::QuoteCancel(_) => Occasion::Withdrawal,
        _ => Occasion::Own,
    }
}

/// What is answered, by the message that the participant sent, if it sent one.
pub(crate) fn occasion_of(sent: Option<&App>) -> Occasion
    ensures { result ≡ occasion_of (option_map (λ a. a.now) sent.entry) }
{
    match sent {
        Some(app) => occasion_by(app),
        None => Occasion::Another,
    }
}

pub(crate) fn is_another(occasion: Occasion) -> bool
    ensures { result ≡ is_another occasion }
{
    match occasion {
        Occasion::Another => true,
        Occasion::Quote(_) => false,
        Occasion::Withdrawal => false,
        Occasion::Own => false,
    }
}

fn notice_of_quote(end: Option<u64>, status: u32) -> Notice
    ensures { result ≡ notice_of_quote end status }
{
    if status == 0 {
        Notice::Accepted(end)
    } else if status == 5 {
        Notice::Refused
    } else {
        Notice::Nothing
    }
}

fn notice_of_withdrawal(status: u32) -> Notice
    ensures { result ≡ notice_of_withdrawal status }
{
    if status == 17 {
        Notice::Withdrawn
    } else if status == 5 {
        Notice::Refused
    } else {
        Notice::NotLive
    }
}

fn notice_of_response(status: u32) -> Notice
    ensures { result ≡ notice_of_response status }
{
    if status == 11 {
        Notice::Nothing
    } else if status == 5 {
        Notice::Refused
    } else {
        Notice::NotLive
    }
}

fn notice_of_another(status: u32) -> Notice
    ensures { result ≡ notice_of_another status }
{
    if status == 11 {
        Notice::Passed
    } else {
        Notice::Nothing
    }
}

/// What a status says, by what it answers.
pub(crate) fn notice_of(occasion: Occasion, status: u32) -> Notice
    ensures { result ≡ notice_of occasion status }
{
    match occasion {
        Occasion::Another => notice_of_another(status),
        Occasion::Quote(end) => notice_of_quote(end, status),
        Occasion::Withdrawal => notice_of_withdrawal(status),
        Occasion::Own => notice_of_response(status),
    }
}
