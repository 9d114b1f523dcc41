//! A day of the worked items: a venue begins where its trail leads, and a worker answers the items that are left.
ghost use Rattle.std.specs.Prelude.{◌≡◌, length};
ghost use Rattle.intake_seats.specs.Ends.{AreHands, AreTakes, AreUnusedHands, AreUnusedTakes};
ghost use Rattle.trail_journal.specs.Written.{LeadsTo};

use crate::items::{ITEMS, Sent, items_in, message_of};
use crate::market::make_market;
use crate::seats::{Boards, COUNT, Ends, NOTHING, Sessions, make_boards};
use anyhow::{Result, anyhow};
use audit_trail::Files;
use gateway::mem_line::MemClock;
use intake_seats::Board;
use sef_moment::Moment;
use sqlite::{Alter, Connection};
use std::alloc::{AllocError, Global};
use std::mem::drop;
use trade_blotter::print_trades;
use trail_journal::{Journal, start_trail};
use venue_core::Venue;
use venue_rules::Keep;
use venue_worker::{Parts, Queue, Worker};

/// How many replies each item owes each participant, in order.
const REPLIES: [[usize; COUNT]; 7] = [
    [0, 1, 1, 1, 1],
    [0, 1, 0, 0, 0],
    [2, 1, 0, 0, 0],
    [1, 0, 0, 1, 0],
    [1, 0, 0, 0, 0],
    [1, 0, 0, 1, 0],
    [1, 0, 0, 0, 0],
];

/// The trade is made by the item of this number, counted from 1.
const TRADES: usize = 6;

/// The line of the trade.
const LINE: &str =
    "T1 rfq IRS5Y 100 @ 2.5 buyer ALPHA seller DELTA room R1 asked BETA,GAMMA,DELTA,EPSILON first Q1 shown none\n";

/// How often the sessions collect what is in their seats: none is owed more replies in a day, and the sentinel of its
/// cut after them.
const COLLECTIONS: usize = 8;

/// How many rounds a shutdown makes: a participant is cut once half a second has passed, and each answer of the clock
/// is a millisecond later.
const ROUNDS: u64 = 600;

/// What a day came to.
#[derive(Clone, Copy)]
pub struct Day {
    /// How many items, and ticks after the last, were in the trail as it began, if the rows were these and could be
    /// read.
    pub found: Option<usize>,
    /// Whether the trades of these were printed as they should be.
    pub is_emitted: bool,
    /// How many items were answered at its end, with those that were found; none where an answer was not what it should
    /// be.
    pub answered: Option<usize>,
}

/// The venue did not begin.
pub const NOT_BEGUN: Day = Day {
    found: None,
    is_emitted: false,
    answered: Some(0),
};

// How many replies the items between two places owe the participant at a place.
fn owed_to(participant: usize, first: usize, last: usize) -> usize {
    let mut count = 0usize;
    for (place, replies) in REPLIES.iter().enumerate() {
        if first <= place && place < last {
            count = count.saturating_add(replies.get(participant).copied().unwrap_or(0));
        }
    }
    count
}

// Whether each session collected what it was owed for the items between two places, and after that the sentinel where
// it was to end.
fn have_all(sessions: &Sessions<'_>, first: usize, last: usize, are_cut: bool) -> bool {
    let mut have = true;
    for place in 0..COUNT {
        have &= sessions.collected[place].is_all(owed_to(place, first, last), are_cut);
    }
    have
}

// Gives the worker one turn at this moment; `false` where the trail refused.
fn takes_a_turn<K: Keep + Drop>(
    alloc: Global,
    worker: &mut Worker<'_, K>,
    moment: Moment,
) -> Result<bool, AllocError> {
    let (ends, _, mut cut_tokens) = Board::<()>::new(alloc, 1)?;
    let mut clock = MemClock::from(moment);
    Ok(worker.run(&mut clock, &ends, &mut cut_tokens, 1).is_ok())
}

// Hands a message over, and gives the worker one turn to take it; `false` where the trail refused.
fn takes<K: Keep + Drop>(
    alloc: Global,
    worker: &mut Worker<'_, K>,
    sessions: &mut Sessions<'_>,
    sent: &Sent,
) -> Option<bool> {
    let Ok(Some(message)) = message_of(alloc, sent) else {
        return None;
    };
    if !sessions.hand(sent.place(), message) {
        return None;
    }
    takes_a_turn(alloc, worker, sent.moment()).ok()
}

// Hands over the items from place `first` on, one by one, up to the first that the trail refuses: how many there are
// before that. The sessions collect nothing until then, so what each is owed waits in its seat and its queue.
fn take_each<K: Keep + Drop>(
    alloc: Global,
    worker: &mut Worker<'_, K>,
    sessions: &mut Sessions<'_>,
    first: usize,
) -> Option<usize> {
    for (place, sent) in ITEMS.iter().enumerate() {
        if place < first {
            continue;
        }
        if !takes(alloc, worker, sessions, sent)? {
            return Some(place);
        }
    }
    Some(ITEMS.len())
}

// Has the worker deliver what waits, by turns, or where the trail has refused a row as the sessions are to end, and the
// sessions collect it.
fn give_all<K: Keep + Drop>(
    alloc: Global,
    worker: &mut Worker<'_, K>,
    sessions: &mut Sessions<'_>,
    is_stopped: bool,
) {
    let moment = ITEMS[ITEMS.len() - 1].moment();
    for _ in 0..COLLECTIONS {
        if is_stopped {
            worker.shut_down(&mut MemClock::from(moment), ROUNDS);
        } else {
            let _ = takes_a_turn(alloc, worker, moment);
        }
        sessions.collect();
    }
}

// The items from place `first` on are answered, up to the first that the trail refuses: how many are answered then, if
// each session was given what it was owed for these, and, where the trail has refused a row, its sentinel.
fn answer_each<K: Keep + Drop>(
    alloc: Global,
    worker: &mut Worker<'_, K>,
    sessions: &mut Sessions<'_>,
    first: usize,
) -> Option<usize> {
    let answered = take_each(alloc, worker, sessions, first)?;
    let is_stopped = answered < ITEMS.len();
    give_all(alloc, worker, sessions, is_stopped);
    if have_all(sessions, first, answered, is_stopped) {
        Some(answered)
    } else {
        None
    }
}

// What a worker kept its rows in, and how many items are answered, if nothing waits for any participant, and each is
// cut where the trail has refused a row, and else none.
fn left_of<K: Keep + Drop>(worker: Worker<'_, K>, answered: Option<usize>) -> (K, Option<usize>) {
    let Parts {
        venue,
        keeper,
        queues,
        takes,
        hands,
    } = worker.into_parts();
    drop(venue);
    drop(takes);
    drop(hands);
    let are_cut = answered != Some(ITEMS.len());
    let are_served = queues.iter().all(|queue| queue.waiting.is_empty() && queue.is_cut == are_cut);
    drop(queues);
    (keeper, if are_served { answered } else { None })
}

// Has a worker over these boards answer the items from place `first` on.
fn answer_over<S: Alter + Drop>(
    alloc: Global,
    journal: Journal<S>,
    venue: Venue,
    boards: &Boards,
    ends: Ends,
    first: usize,
) -> Result<(Journal<S>, Option<usize>)>
    requires leads { LeadsTo journal.rows venue }
    requires takes { AreTakes boards.now.intake ends.takes.items × AreUnusedTakes ends.takes.items }
    requires hands { AreHands boards.now.replies ends.hands.items × AreUnusedHands ends.hands.items }
    requires count { (length ends.takes.items ≡ 5) × (length ends.hands.items ≡ 5) }
    requires sessions { AreHands boards.now.intake ends.session_hands.items }
    requires collects { AreTakes boards.now.replies ends.session_takes.items }
{
    let Ends {
        takes,
        hands,
        session_hands,
        session_takes,
    } = ends;
    let mut sessions = Sessions {
        boards,
        hands: session_hands,
        takes: session_takes,
        collected: [NOTHING; COUNT],
    };
    let Ok(mut worker) = Worker::new(
        alloc,
        venue,
        journal,
        &boards.intake,
        takes,
        &boards.replies,
        hands,
    ) else {
        drop(sessions);
        return Err(anyhow!("no worker"));
    };
    let answered = answer_each(alloc, &mut worker, &mut sessions, first);
    drop(sessions);
    Ok(left_of(worker, answered))
}

// The same over new boards.
fn answer_rest<S: Alter + Drop>(
    alloc: Global,
    journal: Journal<S>,
    venue: Venue,
    first: usize,
) -> Result<(Journal<S>, Option<usize>)>
    requires leads { LeadsTo journal.rows venue }
{
    let Ok((boards, ends)) = make_boards(alloc) else {
        drop(venue);
        drop(journal);
        return Err(anyhow!("no boards"));
    };
    let answered = answer_over(alloc, journal, venue, &boards, ends, first);
    drop(boards);
    answered
}

// Whether the trades of a venue are printed as they should be after this many of the items.
fn is_emitted(alloc: Global, venue: &Venue, items: usize) -> bool {
    let mut lines = Vec::new(alloc);
    let wanted = if TRADES <= items { LINE } else { "" };
    print_trades(alloc, venue, &mut lines).is_ok() && lines.as_slice() == wanted.as_bytes()
}

// Goes on from where the rows of a journal lead.
fn go_on<S: Alter + Drop>(
    alloc: Global,
    journal: Journal<S>,
    venue: Venue,
) -> Result<(Connection<S>, Day)>
    requires leads { LeadsTo journal.rows venue }
{
    let mut journal = journal;
    let found = match journal.rows() {
        Ok(rows) => items_in(rows.as_slice()).map(|items| items as usize),
        Err(_) => None,
    };
    let items = found.unwrap_or(0);
    let is_emitted = is_emitted(alloc, &venue, items);
    let (journal, answered) = answer_rest(alloc, journal, venue, items)?;
    Ok((
        journal.into_connection(),
        Day {
            found,
            is_emitted,
            answered,
        },
    ))
}

/// Spends a day over a database, up to the first item that is not answered: a venue begins where its trail leads, or
/// with an empty one.
pub fn spend<S: Alter + Drop>(
    alloc: Global,
    conn: Connection<S>,
    files: &Files,
) -> Result<(Connection<S>, Day)> {
    let market = match make_market(alloc) {
        Ok(market) => market,
        Err(error) => {
            drop(conn);
            return Err(error.into());
        }
    };
    match start_trail(alloc, conn, files, market.participants, market.instruments) {
        Ok((journal, venue)) => go_on(alloc, journal, venue),
        Err((_, conn)) => Ok((conn, NOT_BEGUN)),
    }
}
