//! The board and its rule.
ghost use Rattle.std.specs.Prelude.{◌≡◌, ◌≤◌, [], IfOk, vec_capacity};
ghost use Rattle.intake_seats.specs.Ends.{opening_view, takers_alone, new_hands, new_takes, AreHands, AreTakes, AreUnusedHands, AreUnusedTakes};

use crate::atomic_steps::{FirstHander, FirstTaker};
use crate::hander::HandSeat;
use crate::taker::TakeSeat;
use crate::views::View;
use atomic_table::{Seat, Table, TableRule};
use std::alloc::{AllocError, Global};
use std::marker::Model;

/// The greatest count of seats of a board.
pub const MAX_SEATS: usize = 32;

/// The word of a seat is 4 times the count of messages taken, plus its state: empty 0, filling 1, full 2 or taking 3.
pub(crate) const EMPTY: u64 = 0;

pub(crate) const FULL: u64 = 2;

/// The greatest count of messages that one hander gives.
pub(crate) const MAX_GIVEN: u64 = 1 << 60;

/// The invariant of the words, the slots and the views between any two steps.
pub struct BoardRule;

impl<M> TableRule<Option<M>, View<M>, usize> for BoardRule {
    ghost use Rattle.intake_seats.specs.Rule.{IsBoard};
    ghost use Rattle.intake_seats.specs.Ends.{opening_view};

    ghost holds = { IsBoard };

    ghost first = { opening_view };
}

/// Seats (single-slot mailboxes) between handers and takers. A contract sees which board it is.
#[derive(Drop)]
pub struct Board<M> {
    pub(crate) table: Table<Option<M>, View<M>, usize, BoardRule, Global>,
}

impl<M> Model for Board<M> {
    ghost use Rattle.std.specs.Prelude.{◌≡◌, ◌≤◌};
    ghost use Rattle.atomic_table.specs.Seated.{TableId, table_id_coded};

    ghost Value = { TableId };

    ghost coded = { table_id_coded };

    ghost view = { λ b. b.table.shared.table_id };

    ghost invariant = { λ b. (b.table.shared.table_id.words ≡ b.table.shared.key) × (b.table.shared.table_id.slots ≡ b.table.shared.key) × (1 ≤ b.table.shared.key) × (b.table.shared.key ≤ 32) };
}

impl<M> Board<M> {
    /// A board of `seats` seats, with the two ends of each, in order. All are empty, and nothing was given or taken.
    /// `AllocError`: an allocation failed.
    pub fn new(
        alloc: Global,
        seats: usize,
    ) -> Result<(Board<M>, Vec<HandSeat<M>>, Vec<TakeSeat<M>>), AllocError>
        requires seats { (1 ≤ seats) × (seats ≤ 32) }
        ensures board { IfOk result (λ r. r.0.words ≡ seats) }
        ensures hands { IfOk result (λ r. r.1.items ≡ new_hands r.0 seats) }
        ensures takes { IfOk result (λ r. r.2.items ≡ new_takes r.0 seats) }
        ensures own { IfOk result (λ r. AreHands r.0 r.1.items × AreTakes r.0 r.2.items) }
        ensures unused { IfOk result (λ r. AreUnusedHands r.1.items × AreUnusedTakes r.2.items) }
    {
        let mut hands = Vec::with_capacity(alloc, seats)?;
        let mut takes = Vec::with_capacity(alloc, seats)?;
        let words = [0u64; MAX_SEATS];
        let (table, mut whole) = Table::vacant(alloc, &words[..seats], seats, &seats)?;
        let board = Board { table };
        deal_hands(&board, &mut whole, &mut hands, seats);
        deal_takes(&board, &mut whole, &mut takes, seats);
        Ok((board, hands, takes))
    }

    /// The count of seats, 1 to 32.
    pub fn seats(&self) -> usize
        ensures count { result ≡ self.now.words }
        ensures range { (1 ≤ result) × (result ≤ 32) }
    {
        self.table.word_count()
    }
}

// Splits the hander's end of each seat off.
fn deal_hands<M>(
    board: &Board<M>,
    whole: &mut Seat<Option<M>, View<M>>,
    hands: &mut Vec<HandSeat<M>>,
    seats: usize,
)
    requires own { (whole.old.table_id ≡ board.now) × (board.now.words ≡ seats) }
    requires whole { whole.old.me ≡ (opening_view seats, []) }
    requires headroom { (hands.old.items ≡ []) × (seats ≤ vec_capacity hands.old) }
    ensures own { whole.new.table_id ≡ whole.old.table_id }
    ensures whole { whole.new.me ≡ (takers_alone seats, []) }
    ensures hands { hands.new.items ≡ new_hands board.now seats }
{
    for number in 0..seats {
        let seat = board.table.shared.split_seat::<FirstHander>(whole);
        hands.push(HandSeat { seat, number }).unwrap();
    }
}

// Splits the taker's end of each seat off.
fn deal_takes<M>(
    board: &Board<M>,
    whole: &mut Seat<Option<M>, View<M>>,
    takes: &mut Vec<TakeSeat<M>>,
    seats: usize,
)
    requires own { (whole.old.table_id ≡ board.now) × (board.now.words ≡ seats) }
    requires whole { whole.old.me ≡ (takers_alone seats, []) }
    requires headroom { (takes.old.items ≡ []) × (seats ≤ vec_capacity takes.old) }
    ensures takes { takes.new.items ≡ new_takes board.now seats }
{
    for number in 0..seats {
        let seat = board.table.shared.split_seat::<FirstTaker>(whole);
        takes
            .push(TakeSeat {
                seat,
                number,
                holds: false,
            })
            .unwrap();
    }
}
