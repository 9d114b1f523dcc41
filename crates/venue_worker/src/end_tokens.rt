//! The end tokens that sessions hand as they end.

ghost use Rattle.std.specs.Prelude.{◌≡◌, ◌≢◌, ℕ, ◌+◌, ◌%◌, ◌<◌, ◌≤◌, true, false, None, length, if◌then◌else◌};
ghost use Rattle.intake_seats.specs.Ends.{AreTakes, IsSameTaker};
ghost use Rattle.venue_worker.specs.Acts.{ArePolled, IsAwaited};
ghost use Rattle.venue_worker.specs.Phases.{AreTokensTaken};

use intake_seats::{Board, TakeSeat};

// Takes and counts a session's end token; `false` where this call found none.
fn take_end_token(take: &mut TakeSeat<()>, board: &Board<()>) -> bool
    requires own { take.old.board ≡ board.now }
    requires free { take.old.in_hand ≡ None }
    ensures end { IsSameTaker take.old take.new × (take.new.in_hand ≡ None) }
    ensures taken { length take.new.taken ≡ length take.old.taken + (if result then 1 else 0) }
    ensures looked { take.old.looks < take.new.looks }
    ensures there { result ≡ true → take.new.last % 4 ≡ 2 }
    ensures absent { result ≡ false → take.new.last % 4 ≢ 2 }
{
    if take.take(board).is_none() {
        return false;
    }
    take.clear(board);
    true
}

// Takes the end tokens of the sessions that ended next, in order, and gives the count of sessions that have ended.
pub(crate) fn take_end_tokens(
    takes: &mut Vec<TakeSeat<()>>,
    board: &Board<()>,
    ended: usize,
) -> usize
    requires own { AreTakes board.now takes.old.items }
    requires within { ended ≤ length takes.old.items }
    requires tokens_taken { AreTokensTaken ended takes.old.items }
    ensures own { AreTakes board.now takes.new.items }
    ensures count { length takes.new.items ≡ length takes.old.items }
    ensures within { result ≤ length takes.new.items }
    ensures tokens_taken { AreTokensTaken result takes.new.items }
    ensures polled { ArePolled takes.old.items takes.new.items }
    ensures awaited { result < length takes.new.items → IsAwaited takes.old.items takes.new.items }
{
    let count = takes.len();
    for k in ended..count {
        if !take_end_token(&mut takes[k], board) {
            return k;
        }
    }
    count
}
