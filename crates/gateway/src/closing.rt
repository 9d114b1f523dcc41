//! The closing of a venue: what the sessions leave, and both boards.
ghost use Rattle.std.specs.Prelude.{◌≡◌, ℕ, Bool, List, [], map, length, slice_get, Option, Some, IfOk, IfSome};
ghost use Rattle.std.specs.Option.{option_to_list};
ghost use Rattle.fix_dictionary.specs.declared.messages.App.{App};
ghost use Rattle.fix_session.specs.Sent.{numbered};
ghost use Rattle.intake_seats.specs.Ends.{AreHands, AreTakes};
ghost use Rattle.venue_worker.specs.Queued.{IsOwed};
ghost use Rattle.gateway.specs.Closing.{IsTakenWhole, Reached};
ghost use Rattle.gateway.specs.Thread.{Thread, at_start};
ghost use Rattle.gateway.specs.Whole.{HasLed, IsNew};

use crate::line::Line;
use crate::looping::Ended;
use fix_dictionary::Item;
use fix_session::{Session, laws};
use intake_seats::{Board, HandSeat, TakeSeat};
use std::alloc::{AllocError, Global};
use venue_core::Venue;
use venue_worker::{Outgoing, Parts, Queue};

/// A closed venue: its sessions and lines, what is left in the seats, the queues, the venue and the keeper of its rows.
#[derive(Drop)]
pub struct Closed<L, K: Drop> {
    pub sessions: Vec<Session>,
    pub lines: Vec<L>,
    pub left: Vec<Option<Item>>,
    pub replies_left: Vec<Option<Outgoing>>,
    pub queues: Vec<Queue>,
    pub venue: Venue,
    pub keeper: K,
}

// What the threads give back, each kind in a list of its own.
#[derive(Drop)]
struct Apart<L> {
    sessions: Vec<Session>,
    lines: Vec<L>,
    hands: Vec<HandSeat<Item>>,
    takes: Vec<TakeSeat<Outgoing>>,
}

fn take_apart<L: Drop>(alloc: Global, ended: Vec<Ended<L>>) -> Result<Apart<L>, AllocError>
    ensures sessions { IfOk result (λ a. a.sessions.items ≡ map (λ e. e.session) ended.items) }
    ensures lines { IfOk result (λ a. a.lines.items ≡ map (λ e. e.line) ended.items) }
    ensures hands { IfOk result (λ a. a.hands.items ≡ map (λ e. e.hand) ended.items) }
    ensures takes { IfOk result (λ a. a.takes.items ≡ map (λ e. e.take) ended.items) }
{
    let count = ended.len();
    let mut sessions = Vec::with_capacity(alloc, count)?;
    let mut lines = Vec::with_capacity(alloc, count)?;
    let mut hands = Vec::with_capacity(alloc, count)?;
    let mut takes = Vec::with_capacity(alloc, count)?;
    for one in ended {
        let Ended {
            session,
            line,
            hand,
            take,
        } = one;
        sessions.push(session)?;
        lines.push(line)?;
        hands.push(hand)?;
        takes.push(take)?;
    }
    Ok(Apart {
        sessions,
        lines,
        hands,
        takes,
    })
}

/// Closes a venue whose threads have ended: the ends of both boards are united, and what is in their seats is taken
/// out. `AllocError`: an allocation for a list failed, and all is dropped.
pub fn close_venue<L: Line + Drop, K: Drop>(
    alloc: Global,
    parts: Parts<K>,
    ended: Vec<Ended<L>>,
    intake: Board<Item>,
    replies: Board<Outgoing>,
) -> Result<Closed<L, K>, AllocError>
    requires intake { AreHands intake (map (λ e. e.hand) ended.items) × AreTakes intake parts.takes.items }
    requires replies { AreHands replies parts.hands.items × AreTakes replies (map (λ e. e.take) ended.items) }
    ensures sessions { IfOk result (λ c. c.sessions.items ≡ map (λ e. e.session) ended.items) }
    ensures lines { IfOk result (λ c. c.lines.items ≡ map (λ e. e.line) ended.items) }
    ensures count { IfOk result (λ c. (length c.left.items ≡ intake.words) × (length c.replies_left.items ≡ replies.words)) }
    ensures kept { IfOk result (λ c. (c.venue ≡ parts.venue) × (c.keeper ≡ parts.keeper) × (c.queues ≡ parts.queues)) }
    ensures taken { IfOk result (λ c. (turns k : ℕ) (start : Thread) (passed passed' : List Bool) (emitted emitted' : List ℕ) (e : _) (t : _) (x : _) → slice_get ended.items k ≡ Some e → slice_get parts.takes.items k ≡ Some t → slice_get c.left.items k ≡ Some x
        → (led : HasLed turns start (at_start e.session e.hand e.take (L.said e.line)) passed passed' emitted emitted') → IsNew start → IsTakenWhole start led.turn_records e.session.state t.taken x) }
    ensures reached { IfOk result (λ c. (turns k : ℕ) (start : Thread) (passed passed' : List Bool) (emitted emitted' : List ℕ) (owed : List App) (e : _) (h : _) (q : _) (x : _) → slice_get ended.items k ≡ Some e → slice_get parts.hands.items k ≡ Some h → slice_get parts.queues.items k ≡ Some q → slice_get c.replies_left.items k ≡ Some x
        → HasLed turns start (at_start e.session e.hand e.take (L.said e.line)) passed passed' emitted emitted' → IsNew start → IsOwed owed h.given q.waiting.items q.is_cut
        → Reached owed (numbered e.session.state) (option_to_list x) q.waiting.items q.is_cut) }
{
    laws::one_reader();
    let Parts {
        venue,
        keeper,
        queues,
        takes,
        hands,
    } = parts;
    let Ok(
        Apart {
            sessions,
            lines,
            hands: session_hands,
            takes: session_takes,
        },
    ) = take_apart(alloc, ended)
    else {
        drop(venue);
        return Err(AllocError);
    };
    let Ok(left) = intake.close(alloc, session_hands, takes) else {
        drop(venue);
        return Err(AllocError);
    };
    let Ok(replies_left) = replies.close(alloc, hands, session_takes) else {
        drop(venue);
        return Err(AllocError);
    };
    Ok(Closed {
        sessions,
        lines,
        left,
        replies_left,
        queues,
        venue,
        keeper,
    })
}
