//! A worker over a trail, and what it is handed.
ghost use Rattle.std.specs.Prelude.{◌≡◌, IfOk, length};
ghost use Rattle.intake_seats.specs.Ends.{AreHands, AreTakes, AreUnusedHands, AreUnusedTakes};
ghost use Rattle.trail_journal.specs.Written.{LeadsTo};

use crate::items::{CROSS, ITEMS, Sent, new_message};
use crate::market::{empty, files};
use crate::scenario::Scenario;
use crate::seats::{Boards, COUNT, Ends, hand_over, make_boards};
use crate::starting::{emit_begun, start};
use anyhow::{Result, anyhow, ensure};
use fix_dictionary::Item;
use intake_seats::{Board, HandSeat};
use sef_moment::Moment;
use sqlite::Alter;
use std::mem::drop;
use trail_journal::Journal;
use venue_core::Venue;
use venue_rules::{EventFault, Keep};
use venue_worker::{Parts, Queue, Worker};

/// The delay of a cross, in milliseconds.
const DELAY: u64 = 15_000;

// Both boards with their ends, made again where an allocation failed.
fn new_boards(scenario: &mut Scenario) -> Result<(Boards, Ends)>
    ensures takes { IfOk result (λ r. AreTakes r.0.intake r.1.takes.items × AreUnusedTakes r.1.takes.items) }
    ensures hands { IfOk result (λ r. AreHands r.0.replies r.1.hands.items × AreUnusedHands r.1.hands.items) }
    ensures count { IfOk result (λ r. (length r.1.takes.items ≡ 5) × (length r.1.hands.items ≡ 5)) }
    ensures sessions { IfOk result (λ r. AreHands r.0.intake r.1.session_hands.items) }
{
    if let Ok(made) = make_boards(scenario.alloc) {
        return Ok(made);
    }
    scenario.refused()?;
    Ok(make_boards(scenario.alloc)?)
}

/// A worker of five seats, and the sessions' ends of its intake board.
#[derive(Drop)]
struct Fixture<'a, K: Keep + Drop> {
    worker: Worker<'a, K>,
    intake: &'a Board<Item>,
    hands: Vec<HandSeat<Item>>,
    ghost five: { length worker.takes ≡ 5 },
    ghost own: { AreHands intake.now hands.items },
}

/// What a take or a tick came to.
#[derive(Clone, Copy, PartialEq)]
enum Took {
    Done,
    NoMemory,
    Other,
}

fn emitted_of(answer: Result<bool, EventFault>) -> Took {
    match answer {
        Ok(true) => Took::Done,
        Err(EventFault::NoMemory) => Took::NoMemory,
        _ => Took::Other,
    }
}

impl<'a, K: Keep + Drop> Fixture<'a, K> {
    fn hand(&mut self, place: usize, item: Item) -> bool {
        hand_over(self.intake, &mut self.hands, place, item)
    }

    // Takes the message of this seat.
    fn take(&mut self, place: usize, moment: Moment) -> Took {
        if place >= COUNT {
            return Took::Other;
        }
        emitted_of(self.worker.take_from(place, moment))
    }

    // Enters the side that is due.
    fn enter(&mut self, moment: Moment) -> Took {
        emitted_of(self.worker.tick(moment))
    }
}

// Takes a message whose first take failed to allocate: it is still in its seat, which takes no other.
fn take_again<K: Keep + Drop>(
    scenario: &mut Scenario,
    fixture: &mut Fixture<'_, K>,
    sent: &Sent,
    moment: Moment,
) -> Result<()> {
    scenario.refused()?;
    let other = new_message(scenario, sent)?;
    ensure!(
        !fixture.hand(sent.place(), other),
        "a refused call emptied a seat"
    );
    ensure!(
        fixture.take(sent.place(), moment) == Took::Done,
        "a message is not taken at the second time"
    );
    Ok(())
}

// Hands a message over, and has the worker take it, again where an allocation failed.
fn hand_and_take<K: Keep + Drop>(
    scenario: &mut Scenario,
    fixture: &mut Fixture<'_, K>,
    sent: &Sent,
) -> Result<()> {
    let moment = sent.moment();
    let item = new_message(scenario, sent)?;
    ensure!(fixture.hand(sent.place(), item), "a seat is not empty");
    match fixture.take(sent.place(), moment) {
        Took::Done => {}
        Took::NoMemory => take_again(scenario, fixture, sent, moment)?,
        Took::Other => return Err(anyhow!("no message is taken")),
    }
    scenario.emit("taken", sent.place() as u64)
}

fn take_all<K: Keep + Drop>(scenario: &mut Scenario, fixture: &mut Fixture<'_, K>) -> Result<()> {
    for sent in ITEMS.iter() {
        hand_and_take(scenario, fixture, sent)?;
    }
    Ok(())
}

// Enters the side of the cross that is due, again where an allocation failed.
fn tick<K: Keep + Drop>(scenario: &mut Scenario, fixture: &mut Fixture<'_, K>) -> Result<()> {
    let moment = CROSS.moment().plus(DELAY);
    match fixture.enter(moment) {
        Took::Done => {}
        Took::NoMemory => {
            scenario.refused()?;
            ensure!(
                fixture.enter(moment) == Took::Done,
                "no side enters at the second time"
            );
        }
        Took::Other => return Err(anyhow!("no side enters")),
    }
    Ok(())
}

// The worker takes all messages, and the side that is held is entered.
fn work_day<K: Keep + Drop>(scenario: &mut Scenario, fixture: &mut Fixture<'_, K>) -> Result<()> {
    take_all(scenario, fixture)?;
    hand_and_take(scenario, fixture, &CROSS)?;
    tick(scenario, fixture)
}

fn emit_queues(scenario: &mut Scenario, queues: &[Queue]) -> Result<()> {
    for queue in queues {
        scenario.emit("queued", queue.waiting.len() as u64)?;
    }
    Ok(())
}

// Prints the rows, trades and replies of a worker.
fn emit_parts<S: Alter + Drop>(scenario: &mut Scenario, parts: Parts<Journal<S>>) -> Result<()> {
    let Parts {
        venue,
        keeper,
        queues,
        takes,
        hands,
    } = parts;
    drop(takes);
    drop(hands);
    let emitted = emit_queues(scenario, queues.as_slice());
    drop(queues);
    let conn = emit_begun(scenario, keeper, venue)?;
    drop(conn);
    emitted
}

// Has a worker over these boards take all items. `false` where `Worker::new` failed to allocate, which gives nothing
// back.
fn work_over<S: Alter + Drop>(
    scenario: &mut Scenario,
    journal: Journal<S>,
    venue: Venue,
    boards: &Boards,
    ends: Ends,
) -> Result<bool>
    requires leads { LeadsTo journal.rows venue }
    requires takes { AreTakes boards.now.intake ends.takes.items × AreUnusedTakes ends.takes.items }
    requires hands { AreHands boards.now.replies ends.hands.items × AreUnusedHands ends.hands.items }
    requires count { (length ends.takes.items ≡ 5) × (length ends.hands.items ≡ 5) }
    requires sessions { AreHands boards.now.intake ends.session_hands.items }
{
    let Ends {
        takes,
        hands,
        session_hands,
        session_takes,
    } = ends;
    drop(session_takes);
    let Ok(worker) = Worker::new(
        scenario.alloc,
        venue,
        journal,
        &boards.intake,
        takes,
        &boards.replies,
        hands,
    ) else {
        drop(session_hands);
        scenario.refused()?;
        return Ok(false);
    };
    let mut fixture = Fixture {
        worker,
        intake: &boards.intake,
        hands: session_hands,
    };
    let taken = work_day(scenario, &mut fixture);
    let Fixture {
        worker,
        intake: _,
        hands,
    } = fixture;
    drop(hands);
    let emitted = emit_parts(scenario, worker.into_parts());
    taken?;
    emitted?;
    Ok(true)
}

// A venue begins with an empty trail, and a worker takes all items. `false` where `Worker::new` failed to allocate.
fn work(scenario: &mut Scenario) -> Result<bool> {
    let files = files(scenario)?;
    let conn = empty(scenario)?;
    let (journal, venue) = start(scenario, conn, &files)?;
    drop(files);
    let (boards, ends) = match new_boards(scenario) {
        Ok(made) => made,
        Err(error) => {
            drop(journal);
            drop(venue);
            return Err(error);
        }
    };
    work_over(scenario, journal, venue, &boards, ends)
}

/// A worker takes all items, and is printed. Where making it failed to allocate, another is made of equal things.
pub fn run_working(scenario: &mut Scenario) -> Result<()> {
    if work(scenario)? {
        return Ok(());
    }
    ensure!(work(scenario)?, "a worker is not made at the second time");
    Ok(())
}
