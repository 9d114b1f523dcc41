//! A board of seats, from its making to its end.
ghost use Rattle.std.specs.Prelude.{◌≡◌};
ghost use Rattle.intake_seats.specs.Ends.{AreHands, AreTakes};

use crate::scenario::Scenario;
use anyhow::{Result, anyhow, ensure};
use intake_seats::{Board, HandSeat, TakeSeat, Unclosed};
use std::mem::drop;

/// How many seats there are.
const SEATS: usize = 5;

/// A board of numbers, with all its ends.
#[derive(Drop)]
struct OpenBoard {
    board: Board<u64>,
    hands: Vec<HandSeat<u64>>,
    takes: Vec<TakeSeat<u64>>,
    ghost own_hands: { AreHands board hands.items },
    ghost own_takes: { AreTakes board takes.items },
}

// A new board, made again where an allocation failed.
fn open_board(scenario: &mut Scenario) -> Result<OpenBoard> {
    if let Ok((board, hands, takes)) = Board::<u64>::new(scenario.alloc, SEATS) {
        return Ok(OpenBoard {
            board,
            hands,
            takes,
        });
    }
    scenario.refused()?;
    let (board, hands, takes) = Board::<u64>::new(scenario.alloc, SEATS)?;
    Ok(OpenBoard {
        board,
        hands,
        takes,
    })
}

// Hands a number over on a seat; `false` where it comes back, or there is no such seat.
fn hand_over(board: &Board<u64>, hands: &mut Vec<HandSeat<u64>>, place: usize, number: u64) -> bool
    requires { AreHands board.now hands.old.items }
    ensures { AreHands board.now hands.new.items }
{
    if hands.len() <= place {
        return false;
    }
    hands[place].hand(board, number).is_ok()
}

// Closes the board that a refused call handed back. Its seats are as they were: what is full takes nothing.
fn close_again(scenario: &mut Scenario, unclosed: Unclosed<u64>) -> Result<Vec<Option<u64>>>
    requires { AreHands unclosed.board unclosed.hands.items × AreTakes unclosed.board unclosed.takes.items }
{
    let Unclosed {
        board,
        mut hands,
        takes,
    } = unclosed;
    ensure!(
        !hand_over(&board, &mut hands, 1, 99),
        "a refused call emptied a seat"
    );
    scenario.refused()?;
    match board.close(scenario.alloc, hands, takes) {
        Ok(left) => Ok(left),
        Err(unclosed) => {
            drop(unclosed);
            Err(anyhow!("a board is not closed at the second time"))
        }
    }
}

// Closes a board, again where an allocation failed.
fn close(scenario: &mut Scenario, open: OpenBoard) -> Result<Vec<Option<u64>>> {
    let OpenBoard {
        board,
        hands,
        takes,
    } = open;
    match board.close(scenario.alloc, hands, takes) {
        Ok(left) => Ok(left),
        Err(unclosed) => close_again(scenario, unclosed),
    }
}

// Hands a number over on each seat but the first, twice: the second time it comes back.
fn hand_all(scenario: &mut Scenario, open: &mut OpenBoard) -> Result<()> {
    for place in 1..SEATS {
        let first = hand_over(&open.board, &mut open.hands, place, place as u64 + 10);
        let second = hand_over(&open.board, &mut open.hands, place, 0);
        scenario.emit("handed", u64::from(first) + u64::from(second))?;
    }
    Ok(())
}

/// A board is made, numbers are handed over on all of its seats but the first, and it is closed.
pub fn run_board(scenario: &mut Scenario) -> Result<()> {
    let mut open = open_board(scenario)?;
    hand_all(scenario, &mut open)?;
    let left = close(scenario, open)?;
    for number in left.as_slice() {
        scenario.emit("left", number.unwrap_or(0))?;
    }
    Ok(())
}
