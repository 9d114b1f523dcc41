//! An alarm.

ghost use Rattle.std.specs.Prelude.{◌≡◌, ◌++◌, ◌∷◌, [], OnOk};

use fix_dictionary::Price;
use participants::Who;
use sef_moment::Moment;
use std::alloc::AllocError;

/// A row and its moment.
#[derive(Clone, Copy)]
pub struct Place {
    pub row: u64,
    pub moment: Moment,
}

/// What raises an alarm.
#[derive(Clone, Copy)]
pub enum Kind {
    /// a trade of a participant with itself
    OwnTrade,
    /// the same, where one of its orders was a held side: of its cross, whose customers no trail has, or another
    OwnWithHeld,
    /// a trade of two participants that the file lists as related
    RelatedTrade,
    /// an order that was cancelled soon after it entered
    CancelledSoon,
    /// a trade of two linked orders, of which the second entered soon after the delay
    LinkedSoon,
    /// a participant's next order of an instrument and side after one refused, since a linked one was too recent
    SentAgain,
    /// a trade in a request at a worse price than the book that was shown with its first quote
    WorseThanShown,
    /// many orders and replacements for each trade in the book
    ManyOrders,
    /// most orders are cancelled
    ManyCancels,
    /// most quotes are hit
    ManyHits,
    /// each request of the day goes to the same three, and there are others
    SameThree,
}

/// A figure of an alarm.
#[derive(Clone, Copy)]
pub enum Figure {
    Number(u64),
    Price(Price),
}

/// Who else an alarm names.
#[derive(Clone, Copy)]
pub enum Others {
    None,
    One(Who),
    Three(Who, Who, Who),
}

/// An alarm: of whom, where, and the figure that raised it, with its bound.
#[derive(Clone, Copy)]
pub struct Alarm {
    pub kind: Kind,
    /// none of what is counted over the day
    pub at: Option<Place>,
    pub who: Who,
    pub others: Others,
    pub trade: Option<u64>,
    pub order: Option<u64>,
    pub found: Option<Figure>,
    /// of a ratio, what the figure is compared with
    pub base: Option<u64>,
    pub bound: Option<Figure>,
}

/// Appends an alarm.
pub(crate) fn push_alarm(alarms: &mut Vec<Alarm>, alarm: Alarm) -> Result<(), AllocError>
    ensures { OnOk result (alarms.new.items ≡ alarms.old.items ++ alarm ∷ []) }
{
    // Types of an alarm's content, named here because the proof of the push needs each.
    let _kind: Option<Kind> = None;
    let _place: Option<Place> = None;
    let _who: Option<Who> = None;
    let _others: Option<Others> = None;
    let _figure: Option<Figure> = None;
    let _price: Option<Price> = None;
    let _moment: Option<Moment> = None;
    match alarms.push(alarm) {
        Ok(()) => Ok(()),
        Err(_) => Err(AllocError),
    }
}
