//! The taker's end of a seat.
ghost use Rattle.std.specs.Prelude.{◌≡◌, ◌+◌, ◌*◌, ◌/◌, ◌%◌, ◌<◌, true, false, [], ◌++◌, length, Option, None, Some, IsSome, IfSome, MatchOption, MatchResult};
ghost use mathlib.Core.Logic.{◌↔◌};
ghost use Rattle.std.specs.Option.{is_some, option_to_list};
ghost use Rattle.intake_seats.specs.Ends.{taking, IsSameTaker};

use crate::atomic_steps::{Clears, PutsBack, TakerLooks, Takes};
use crate::board::{Board, FULL};
use crate::views::View;
use atomic_table::Seat;
use std::marker::Model;

/// The taker's end of one seat of a board. Its model has the messages taken, and the one in hand.
pub struct TakeSeat<M> {
    pub(crate) seat: Seat<Option<M>, View<M>>,
    pub(crate) number: usize,
    pub(crate) holds: bool,
}

impl<M> Model for TakeSeat<M> {
    ghost use Rattle.intake_seats.specs.Given.{TakeEnd};

    ghost Value = { TakeEnd M };

    ghost use Rattle.intake_seats.specs.Ends.{take_end, taking, carried};
    ghost use Rattle.std.specs.Prelude.{◌≡◌, ◌<◌, []};
    ghost use Rattle.std.specs.Option.{is_some, option_to_list};

    ghost view = { λ t. take_end t.seat.table_id t.seat.me.0 };

    ghost invariant = { λ t. t.seat.me ≡ (taking (take_end t.seat.table_id t.seat.me.0), carried t.number t.holds)
        × (t.number ≡ (take_end t.seat.table_id t.seat.me.0).number) × (t.number < t.seat.table_id.words) × (t.holds ≡ is_some (take_end t.seat.table_id t.seat.me.0).in_hand) };
}

impl<M> TakeSeat<M> {
    /// Takes the message in the seat. None only where this call found the seat not full.
    pub fn take(&mut self, board: &Board<M>) -> Option<M>
        requires own { self.old.board ≡ board.now }
        ensures same { IsSameTaker self.old self.new × (self.new.taken ≡ self.old.taken) }
        ensures in_hand { MatchOption result (self.new.in_hand ≡ self.old.in_hand) (λ message. (self.old.in_hand ≡ None) × (self.new.in_hand ≡ Some message)) }
        ensures looked { self.old.looks < self.new.looks }
        ensures found { IsSome result ↔ (self.new.last % 4 ≡ 2) }
        ensures counted { self.new.last / 4 ≡ length self.new.taken }
        ensures full { IsSome result → self.new.last ≡ 4 * length self.new.taken + 2 }
    {
        let steps = &board.table.shared;
        let found = steps.load::<TakerLooks>(&mut self.seat, self.number);
        if found % 4 != FULL {
            return None;
        }
        // No other end leaves this state, so one try decides.
        if steps.compare_exchange::<Takes>(&mut self.seat, self.number, found, found + 1) != found {
            return None;
        }
        let message = steps.exchange(&mut self.seat, self.number, None);
        self.holds = true;
        message
    }

    /// Whether a message is in hand.
    pub fn holding(&self) -> bool
        ensures { result ≡ is_some self.now.in_hand }
    {
        self.holds
    }

    /// Counts the message in hand as taken, and leaves the seat empty. False where nothing was in hand.
    pub fn clear(&mut self, board: &Board<M>) -> bool
        requires own { self.old.board ≡ board.now }
        ensures same { IsSameTaker self.old self.new × (self.new.in_hand ≡ None) }
        ensures taken { self.new.taken ≡ self.old.taken ++ option_to_list self.old.in_hand }
        ensures held { result ≡ is_some self.old.in_hand }
        ensures looked { (self.new.last ≡ self.old.last) × (self.new.looks ≡ self.old.looks) }
    {
        if !self.holds {
            return false;
        }
        board
            .table
            .shared
            .fetch_add::<Clears>(&mut self.seat, self.number, 1);
        self.holds = false;
        true
    }

    /// Puts the message in hand back into the seat, which is full again. It comes back only where nothing was in hand.
    pub fn put_back(&mut self, board: &Board<M>, message: M) -> Result<(), M>
        requires own { self.old.board ≡ board.now }
        requires taken { IfSome self.old.in_hand (λ held. held ≡ message) }
        ensures same { IsSameTaker self.old self.new × (self.new.taken ≡ self.old.taken) × (self.new.in_hand ≡ None) }
        ensures held { MatchResult result (λ _. self.old.in_hand ≡ Some message) (λ back. (back ≡ message) × (self.old.in_hand ≡ None)) }
        ensures looked { (self.new.last ≡ self.old.last) × (self.new.looks ≡ self.old.looks) }
    {
        if !self.holds {
            return Err(message);
        }
        let steps = &board.table.shared;
        match steps.exchange(&mut self.seat, self.number, Some(message)) {
            None => {}
            Some(_) => unreachable!(),
        }
        steps.fetch_sub::<PutsBack>(&mut self.seat, self.number, 1);
        self.holds = false;
        Ok(())
    }
}

impl<M> TakeSeat<M> {
    // The bare seat, which sees what this end saw.
    pub(crate) fn into_seat(self) -> Seat<Option<M>, View<M>>
        requires { self.in_hand ≡ None }
        ensures { (result.table_id ≡ self.board) × (result.me ≡ (taking self, [])) }
    {
        let TakeSeat {
            seat,
            number: _,
            holds: _,
        } = self;
        seat
    }
}

impl<M> Drop for TakeSeat<M> {
    fn drop(self) {
        let Self {
            seat: _,
            number: _,
            holds: _,
        } = self;
    }
}
