//! Answers about orders, before they are applied.
ghost use Rattle.std.specs.Prelude.{◌≡◌, ◌≤◌, ◌++◌, false, [], ◌∷◌, length, count_by};
ghost use Rattle.venue_rules.specs.declared.replies.Reply.{Reply as ReplyValue};
ghost use Rattle.venue_rules.specs.Facts.{trades};
ghost use Rattle.venue_rules.specs.Run.{is_report};
ghost use Rattle.order_handler.specs.Counting.{is_reported};
ghost use Rattle.order_handler.specs.Parts.{answer_of};

use cross_delay::HoldPlan;
use price_book::FillPlan;
use std::alloc::Global;
use std::marker::Model;
use venue_rules::{Fact, Reply, ReplyBody};

/// The plans of the book and of the held sides, which of them comes first, and the replies in order.
pub struct OrderAnswer {
    delay_first: bool,
    delay: HoldPlan,
    book: FillPlan,
    replies: Vec<Reply>,
    reports: u64,
    traded: u64,
}

// Written-out drop (docs/ARCHITECTURE.md).
impl Drop for OrderAnswer {
    fn drop(self) {
        let OrderAnswer {
            delay_first: _delay_first,
            delay: _delay,
            book: _book,
            replies: _replies,
            reports: _reports,
            traded: _traded,
        } = self;
    }
}

impl Model for OrderAnswer {
    ghost use Rattle.std.specs.Prelude.{◌≡◌, ◌≤◌, count_by, length};
    ghost use Rattle.venue_rules.specs.Facts.{trades};
    ghost use Rattle.order_handler.specs.Counting.{is_reported};
    ghost use Rattle.order_handler.specs.Parts.{Parts};

    ghost Value = { Parts };

    ghost view = { λ a. record { delay_first = a.delay_first; delay = a.delay.facts; book = a.book.facts; replies = a.replies.items } };

    ghost invariant = { λ a. (a.reports ≡ count_by is_reported a.replies.items) × (a.reports ≤ 402) × (a.traded ≡ length (trades a.book.facts)) × (a.traded ≤ 200) };
}

/// Whether this is an execution report (message 8).
#[tactic(auto, unfolding(crate::specs::Counting::is_reported))]
fn is_reported(reply: &Reply) -> bool
    ensures { result ≡ is_reported reply.now }
{
    match &reply.what {
        ReplyBody::OrderRefused(_)
        | ReplyBody::CrossRefused(_)
        | ReplyBody::OrderEntered(_)
        | ReplyBody::OrderFilled(_)
        | ReplyBody::OrderUnfilled(_)
        | ReplyBody::OrderCancelled(_)
        | ReplyBody::OrderReplaced(_)
        | ReplyBody::RoomTraded(_) => true,
        ReplyBody::ChangeRefused(_)
        | ReplyBody::RequestRefused(_)
        | ReplyBody::RequestSent(_)
        | ReplyBody::QuoteStatus(_)
        | ReplyBody::QuoteSent(_)
        | ReplyBody::BookSnapshot(_)
        | ReplyBody::MarketDataReject(_)
        | ReplyBody::BusinessReject(_) => false,
    }
}

fn count_reports(replies: &[Reply]) -> u64
    ensures value { result ≡ count_by is_reported replies.now }
    ensures bound { result ≤ length replies.now }
{
    let mut count = 0u64;
    for reply in replies {
        if is_reported(reply) {
            count += 1;
        }
    }
    count
}

// 1 for a trade, else 0.
fn traded_in(fact: &Fact) -> u64
    ensures value { result ≡ length (trades (fact.now ∷ [])) }
    ensures bound { result ≤ 1 }
{
    match fact {
        Fact::Traded(_) => 1,
        _ => 0,
    }
}

#[tactic(auto, using(crate::proofs::Readings::trades_more))]
fn count_trades(facts: &[Fact]) -> u64
    ensures { result ≡ length (trades facts.now) }
{
    let mut count: u64 = 0;
    for fact in facts {
        count += traded_in(fact);
    }
    count
}

impl OrderAnswer {
    /// At most 402 replies for one input, with at most 200 trades, and both plans; the held sides' facts come first
    /// where `delay_first` is set.
    pub fn of(
        delay_first: bool,
        delay: HoldPlan,
        book: FillPlan,
        replies: Vec<Reply>,
    ) -> OrderAnswer
        requires replies { length replies.items ≤ 402 }
        requires trades { length (trades book.facts) ≤ 200 }
        ensures { result ≡ record { delay_first = delay_first; delay = delay.facts; book = book.facts; replies = replies.items } }
    {
        let reports = count_reports(&replies);
        let traded = count_trades(book.facts());
        OrderAnswer {
            delay_first,
            delay,
            book,
            replies,
            reports,
            traded,
        }
    }

    /// Replies alone, at most 402 for one input.
    pub fn of_replies(alloc: Global, replies: Vec<Reply>) -> OrderAnswer
        requires { length replies.items ≤ 402 }
        ensures { result ≡ record { delay_first = false; delay = []; book = []; replies = replies.items } }
    {
        OrderAnswer::of(
            false,
            HoldPlan::nothing(alloc),
            FillPlan::nothing(alloc),
            replies,
        )
    }

    /// Whether the facts of the held sides come before those of the book.
    pub fn delay_first(&self) -> bool
        ensures { result ≡ self.now.delay_first }
    {
        self.delay_first
    }

    /// The replies, in order.
    pub fn replies(&self) -> &[Reply]
        ensures { result.now ≡ self.now.replies }
    {
        &self.replies
    }

    /// The number of execution reports (message 8) among the replies.
    #[tactic(auto, unfolding(crate::specs::Counting::is_reported))]
    pub fn reports(&self) -> u64
        ensures value { result ≡ count_by (λ (r : ReplyValue). is_report r.what) self.now.replies }
        ensures bound { result ≤ 402 }
    {
        self.reports
    }

    /// The number of trades that the book gains.
    pub fn trades(&self) -> u64
        ensures value { result ≡ length (trades self.now.book) }
        ensures bound { result ≤ 200 }
    {
        self.traded
    }

    /// The facts, in two lists, one after the other.
    pub fn facts(&self) -> (&[Fact], &[Fact])
        ensures { result.0.now ++ result.1.now ≡ (answer_of self.now).facts }
    {
        if self.delay_first {
            (self.delay.facts(), self.book.facts())
        } else {
            (self.book.facts(), self.delay.facts())
        }
    }

    /// The plans for the book and for the held sides.
    pub fn into_parts(self) -> (FillPlan, HoldPlan)
        ensures book { result.0.facts ≡ self.book }
        ensures delay { result.1.facts ≡ self.delay }
    {
        let OrderAnswer {
            delay_first: _delay_first,
            delay,
            book,
            replies: _replies,
            reports: _reports,
            traded: _traded,
        } = self;
        (book, delay)
    }

    /// The same answer with the held sides' plan: before the book's facts where `delay_first` is set, else after them.
    pub fn with_delay(self, delay_first: bool, delay: HoldPlan) -> OrderAnswer
        ensures { result ≡ record { delay_first = delay_first; delay = delay.facts; book = self.book; replies = self.replies } }
    {
        let mut answer = self;
        answer.delay_first = delay_first;
        answer.delay = delay;
        answer
    }
}
