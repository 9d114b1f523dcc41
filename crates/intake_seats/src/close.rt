//! The end of a board: its ends united, and what is left in the seats.
ghost use Rattle.std.specs.Prelude.{◌≡◌, ◌≤◌, [], All, None, IfOk, IfErr, vec_len, vec_capacity};
ghost use Rattle.std.specs.Slots.{slots_items, slots_len, IsFull};
ghost use Rattle.intake_seats.specs.Ends.{AreHands, AreTakes, IsLeft, with_handers, with_takers};

use crate::atomic_steps::Unites;
use crate::board::Board;
use crate::hander::HandSeat;
use crate::taker::TakeSeat;
use crate::views::View;
use atomic_table::{Closed, Seat};
use std::alloc::Global;

/// The error of a close without memory for the list of what is left. All come back as they were.
#[derive(Drop)]
pub struct Unclosed<M> {
    /// The board, still open.
    pub board: Board<M>,
    /// The handers' ends, in the order in which they came.
    pub hands: Vec<HandSeat<M>>,
    /// The takers' ends, in the order in which they came.
    pub takes: Vec<TakeSeat<M>>,
}

impl<M> Board<M> {
    /// The message left in each seat, in order. The two lists have to be all ends of the board in the order in which
    /// `new` gave them, and no taker may have a message in hand. The list is reserved before any two ends are united.
    pub fn close(
        self,
        alloc: Global,
        hands: Vec<HandSeat<M>>,
        mut takes: Vec<TakeSeat<M>>,
    ) -> Result<Vec<Option<M>>, Unclosed<M>>
        requires hands { AreHands self hands.items }
        requires takes { AreTakes self takes.items }
        ensures left { IfOk result (λ left. (vec_len left ≡ self.words) × IsLeft hands.items takes.items left.items) }
        ensures unclosed { IfErr result (λ u. (u.board ≡ self) × (u.hands.items ≡ hands.items) × (u.takes.items ≡ takes.items)) }
    {
        let Ok(mut left) = Vec::with_capacity(alloc, self.seats()) else {
            return Err(Unclosed {
                board: self,
                hands,
                takes,
            });
        };
        let Some(last) = takes.pop() else {
            unreachable!()
        };
        let mut whole = last.into_seat();
        join_takes(&self, &mut whole, takes);
        join_hands(&self, &mut whole, hands);
        let Board { table } = self;
        empty_slots(table.close_with(whole), &mut left);
        Ok(left)
    }
}

// Unites the ends of all these handers with those of a thread.
fn join_hands<M>(
    board: &Board<M>,
    whole: &mut Seat<Option<M>, View<M>>,
    mut hands: Vec<HandSeat<M>>,
)
    requires whole { (whole.old.table_id ≡ board.now) × (whole.old.me.1 ≡ []) }
    requires hands { All (λ h. h.board ≡ board.now) hands.items }
    ensures whole { (whole.new.table_id ≡ whole.old.table_id) × (whole.new.me ≡ (with_handers hands.items whole.old.me.0, [])) }
{
    while let Some(hand) = hands.pop() {
        let seat = hand.into_seat();
        board.table.shared.join_seat::<Unites>(whole, seat);
    }
}

// Unites the ends of all these takers with those of a thread.
fn join_takes<M>(
    board: &Board<M>,
    whole: &mut Seat<Option<M>, View<M>>,
    mut takes: Vec<TakeSeat<M>>,
)
    requires whole { (whole.old.table_id ≡ board.now) × (whole.old.me.1 ≡ []) }
    requires takes { All (λ t. (t.board ≡ board.now) × (t.in_hand ≡ None)) takes.items }
    ensures whole { (whole.new.table_id ≡ whole.old.table_id) × (whole.new.me ≡ (with_takers takes.items whole.old.me.0, [])) }
{
    while let Some(take) = takes.pop() {
        let seat = take.into_seat();
        board.table.shared.join_seat::<Unites>(whole, seat);
    }
}

// Moves the messages in the slots to the list, whose capacity is enough.
fn empty_slots<M>(mut closed: Closed<Option<M>, Global>, left: &mut Vec<Option<M>>)
    requires full { IsFull closed.slots }
    requires headroom { (left.old.items ≡ []) × (slots_len closed.slots ≤ vec_capacity left.old) }
    ensures { left.new.items ≡ slots_items closed.slots }
{
    let count = closed.slot_count();
    for i in 0..count {
        left.push(closed.take(i)).unwrap();
    }
    closed.free();
}
