//! Which rows are printed.
ghost use Rattle.std.specs.Prelude.{◌≡◌, ℕ, IfOk, OnOk};
ghost use Rattle.row_replay.specs.Inputs.{input_of};
ghost use Rattle.trail_answers.specs.Sought.{is_order_there, is_part, is_room_there, is_row_sought, is_sender_sought, is_sought, is_there, seen_after, seen_of, unseen};

use crate::life::{Life, note_life, unborn};
use crate::scope::{RowSpan, Scope};
use crate::talk::{Talk, note_talk, unopened};
use participants::Who;
use std::alloc::{AllocError, Global};
use venue_rules::{Reply, Taken, TrailRow};

/// What is known after rows of a day, of the order and the room that are sought.
#[derive(Drop)]
pub struct Seen {
    pub life: Life,
    pub talk: Talk,
}

/// What is known before the first row.
pub(crate) fn unseen(alloc: Global, scope: &Scope) -> Result<Seen, AllocError>
    ensures { IfOk result (λ seen. seen_of seen ≡ unseen scope.now) }
{
    let life = unborn(alloc, scope.order)?;
    Ok(Seen {
        life,
        talk: unopened(alloc),
    })
}

/// Notes what a row says of the order and the room that are sought.
pub(crate) fn note_row(
    seen: &mut Seen,
    scope: &Scope,
    taken: &Option<Taken>,
    replies: &[Reply],
) -> Result<(), AllocError>
    ensures { (t : ℕ) → OnOk result (seen_of seen.new ≡ seen_after scope.now (seen_of seen.old) (input_of taken.now t) replies.now) }
{
    note_life(&mut seen.life, scope.order, taken, replies)?;
    note_talk(&mut seen.talk, scope.room, taken, replies)
}

/// Whether the order that is sought is there, if one is.
pub(crate) fn is_order_there(scope: &Scope, seen: &Seen) -> bool
    ensures { result ≡ is_order_there scope.now (seen_of seen.now) }
{
    scope.order.is_none() || seen.life.there
}

/// Whether the room that is sought is there, if one is.
pub(crate) fn is_room_there(scope: &Scope, seen: &Seen) -> bool
    ensures { result ≡ is_room_there scope.now (seen_of seen.now) }
{
    scope.room.is_none() || seen.talk.opened
}

/// Whether what is sought is there.
pub(crate) fn is_there(scope: &Scope, seen: &Seen) -> bool
    ensures { result ≡ is_there scope.now (seen_of seen.now) }
{
    is_order_there(scope, seen) && is_room_there(scope, seen)
}

fn is_row_sought(wanted: Option<RowSpan>, n: u64) -> bool
    ensures { result ≡ is_row_sought wanted n }
{
    match wanted {
        Some(span) => span.first <= n && n <= span.last,
        None => true,
    }
}

fn is_sender_sought(wanted: Option<Who>, sender: u32) -> bool
    ensures { result ≡ is_sender_sought wanted sender }
{
    match wanted {
        Some(who) => sender != 0 && who.place() == sender - 1,
        None => true,
    }
}

/// Whether the last row is of the order's life and of the room's conversation, as far as they are sought.
fn is_part(scope: &Scope, seen: &Seen) -> bool
    ensures { result ≡ is_part scope.now (seen_of seen.now) }
{
    (scope.order.is_none() || seen.life.here)
        && (scope.room.is_none() || seen.talk.here)
        && is_there(scope, seen)
}

/// Whether a row is printed, after which this is known.
pub(crate) fn is_sought(scope: &Scope, seen: &Seen, row: &TrailRow) -> bool
    ensures { result ≡ is_sought scope.now (seen_of seen.now) row.now }
{
    is_row_sought(scope.rows, row.n)
        && is_sender_sought(scope.from, row.who)
        && is_part(scope, seen)
}
