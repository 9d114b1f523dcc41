//! State of a venue's day, and the effect of a plan on it.
ghost use Rattle.std.specs.Prelude.{◌≡◌, ◌≤◌, ◌+◌, ◌++◌, [], length};
ghost use Rattle.venue_rules.specs.Facts.{History};
ghost use Rattle.venue_rules.specs.Run.{after};
ghost use Rattle.order_handler.specs.Reads.{IsRead};
ghost use Rattle.trade_history.specs.Numbered.{AreNumbered};
ghost use Rattle.venue_core.specs.Plan.{AreFew, IsAddedTo, answer_of, with_part};
ghost use Rattle.venue_core.specs.Read.{read_count, rooms_of};
ghost use Rattle.venue_core.specs.VenueFacts.{IsStanding};
ghost use Rattle.venue_core.specs.State.{standing};
ghost use Rattle.venue_core.specs.declared.plan.Part.TheVariants.{OfOrders, OfRooms};

use crate::plan::{Part, Plan};
use cross_delay::Held;
use order_handler::OrderAnswer;
use price_book::PriceBook;
use rfq_handler::RoomAnswer;
use rfq_room::Rooms;
use std::alloc::Global;
use trade_history::{
    QuotedRooms, Trades, first_quote_is_read, later_quotes_are_read, numbers_go_on, trades_are_read,
};
use venue_request::Counts;
use venue_rules::RoomFact;

/// Book, rooms and held sides of a day, the count of execution reports (message 8), and the readings of its trades and
/// of its rooms with a quote.
pub(crate) struct VenueState {
    pub book: PriceBook,
    pub rooms: Rooms,
    pub held: Held,
    pub reports: u64,
    pub traded: Trades,
    pub quoted: QuotedRooms,
}

// Written-out drop (docs/ARCHITECTURE.md).
impl Drop for VenueState {
    fn drop(self) {
        let VenueState {
            book: _book,
            rooms: _rooms,
            held: _held,
            reports: _reports,
            traded: _traded,
            quoted: _quoted,
        } = self;
    }
}

pub(crate) fn new_day(alloc: Global) -> VenueState
    ensures { standing result ≡ record { book = []; rooms = []; delay = []; reports = 0; trades = []; quoted = [] } }
{
    VenueState {
        book: PriceBook::new(alloc),
        rooms: Rooms::new(alloc),
        held: Held::new(alloc),
        reports: 0,
        traded: Trades::new(alloc),
        quoted: QuotedRooms::new(alloc),
    }
}

/// Counts of reports and trades.
pub(crate) fn counts(day: &VenueState) -> Counts
    ensures value { result ≡ record { reports = day.now.reports; trades = length day.now.traded.trades } }
    ensures read { (h : History) → IsStanding (standing day.now) h → IsRead h day.now.book.facts day.now.held.facts result }
{
    trades_are_read();
    Counts {
        reports: day.reports,
        trades: day.traded.count(),
    }
}

// Adds an answer about orders; the book and the held sides each get their own facts.
fn add_of_orders(day: &mut VenueState, answer: OrderAnswer)
    requires few { AreFew day.old }
    requires numbered { AreNumbered day.old.rooms.facts }
    requires room { IsAddedTo day.old (OfOrders answer) }
    ensures added { standing day.new ≡ with_part (standing day.old) (OfOrders answer) }
    ensures reports { day.new.reports ≤ day.old.reports + 402 }
    ensures trades { length day.new.traded.trades ≤ length day.old.traded.trades + 200 }
    ensures after { (h : History) → IsStanding (standing day.old) h → IsStanding (standing day.new) (after h (answer_of (OfOrders answer))) }
{
    trades_are_read();
    later_quotes_are_read();
    day.reports += answer.reports();
    let (fills, holds) = answer.into_parts();
    day.traded.add(fills.facts());
    day.book.apply(fills);
    day.held.apply(holds);
    let _book = day.book.facts_are_own();
    let _held = day.held.facts_are_own();
}

// Adds the reading of a room's first quote.
fn add_read(quoted: &mut QuotedRooms, read: Option<RoomFact>)
    requires { read_count read ≤ quoted.old.room }
    ensures { quoted.new.rooms ≡ quoted.old.rooms ++ rooms_of read }
{
    if let Some(read) = read {
        quoted.add(read);
    }
}

// Adds an answer about rooms, and its reading; the rooms get their own facts.
fn add_of_rooms(day: &mut VenueState, answer: RoomAnswer, read: Option<RoomFact>)
    requires few { AreFew day.old }
    requires numbered { AreNumbered day.old.rooms.facts }
    requires room { IsAddedTo day.old (OfRooms answer read) }
    ensures added { standing day.new ≡ with_part (standing day.old) (OfRooms answer read) }
    ensures numbered { AreNumbered day.new.rooms.facts }
    ensures reports { day.new.reports ≤ day.old.reports + 402 }
    ensures trades { length day.new.traded.trades ≤ length day.old.traded.trades + 200 }
    ensures after { (h : History) → IsStanding (standing day.old) h → IsStanding (standing day.new) (after h (answer_of (OfRooms answer read))) }
{
    trades_are_read();
    numbers_go_on();
    later_quotes_are_read();
    first_quote_is_read();
    day.reports += answer.reports();
    let plan = answer.into_plan();
    day.traded.add(plan.facts());
    add_read(&mut day.quoted, read);
    day.rooms.apply(plan);
    let _rooms = day.rooms.facts_are_own();
}

/// Adds a plan, within reserved capacity.
pub(crate) fn add_plan(day: &mut VenueState, plan: Plan)
    requires few { AreFew day.old }
    requires numbered { AreNumbered day.old.rooms.facts }
    requires room { IsAddedTo day.old plan }
    ensures added { standing day.new ≡ with_part (standing day.old) plan }
    ensures numbered { AreNumbered day.new.rooms.facts }
    ensures reports { day.new.reports ≤ day.old.reports + 402 }
    ensures trades { length day.new.traded.trades ≤ length day.old.traded.trades + 200 }
    ensures after { (h : History) → IsStanding (standing day.old) h → IsStanding (standing day.new) (after h (answer_of plan)) }
{
    match plan.into_part() {
        Part::OfOrders(answer) => add_of_orders(day, answer),
        Part::OfRooms(answer, read) => add_of_rooms(day, answer, read),
    }
}
