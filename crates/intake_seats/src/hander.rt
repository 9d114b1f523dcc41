//! The hander's end of a seat.
ghost use Rattle.std.specs.Prelude.{◌≡◌, ◌+◌, ◌*◌, ◌<◌, [], ◌∷◌, ◌++◌, length, MatchResult};
ghost use Rattle.intake_seats.specs.Ends.{handing, IsSameHander, IsShut};

use crate::atomic_steps::{Claims, HanderLooks, Hands};
use crate::board::{Board, EMPTY, MAX_GIVEN};
use crate::views::View;
use atomic_table::Seat;
use std::marker::Model;

/// The hander's end of one seat of a board. Its model has the messages given.
pub struct HandSeat<M> {
    pub(crate) seat: Seat<Option<M>, View<M>>,
    pub(crate) number: usize,
}

impl<M> Model for HandSeat<M> {
    ghost use Rattle.intake_seats.specs.Given.{HandEnd};

    ghost Value = { HandEnd M };

    ghost use Rattle.intake_seats.specs.Ends.{hand_end, handing};
    ghost use Rattle.std.specs.Prelude.{◌≡◌, ◌<◌, []};

    ghost view = { λ h. hand_end h.seat.table_id h.seat.me.0 };

    ghost invariant = { λ h. h.seat.me ≡ (handing (hand_end h.seat.table_id h.seat.me.0), []) × (h.number ≡ (hand_end h.seat.table_id h.seat.me.0).number) × (h.number < h.seat.table_id.words) };
}

impl<M> HandSeat<M> {
    /// Hands a message over. It comes back only where this call found the seat not empty, or 2^60 messages given.
    pub fn hand(&mut self, board: &Board<M>, message: M) -> Result<(), M>
        requires own { self.old.board ≡ board.now }
        ensures same { IsSameHander self.old self.new }
        ensures given { MatchResult result (λ _. self.new.given ≡ self.old.given ++ message ∷ []) (λ back. (back ≡ message) × (self.new.given ≡ self.old.given)) }
        ensures looked { self.old.looks < self.new.looks }
        ensures found { MatchResult result (λ _. self.new.last ≡ 4 * length self.old.given) (λ _. IsShut self.old.given self.new.last) }
    {
        let steps = &board.table.shared;
        let found = steps.load::<HanderLooks>(&mut self.seat, self.number);
        if found % 4 != EMPTY || found / 4 >= MAX_GIVEN {
            return Err(message);
        }
        // No other end leaves this state, so one try decides.
        if steps.compare_exchange::<Claims>(&mut self.seat, self.number, found, found + 1)
            != found
        {
            return Err(message);
        }
        // The slot was empty, so no message is lost.
        match steps.exchange(&mut self.seat, self.number, Some(message)) {
            None => {}
            Some(_) => unreachable!(),
        }
        steps.fetch_add::<Hands>(&mut self.seat, self.number, 1);
        Ok(())
    }
}

impl<M> HandSeat<M> {
    // The bare seat, which sees what this end saw.
    pub(crate) fn into_seat(self) -> Seat<Option<M>, View<M>>
        ensures { (result.table_id ≡ self.board) × (result.me ≡ (handing self, [])) }
    {
        let HandSeat { seat, number: _ } = self;
        seat
    }
}

impl<M> Drop for HandSeat<M> {
    fn drop(self) {
        let Self { seat: _, number: _ } = self;
    }
}
