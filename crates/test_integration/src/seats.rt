//! The seats, on one thread and on two.
ghost use Rattle.std.specs.Prelude.{◌≡◌, ◌+◌, true, None, Some, IfOk, vec_len};
ghost use Rattle.intake_seats.specs.Ends.{AreHands, AreTakes, IsSameHander, IsSameTaker};

use intake_seats::{Board, HandSeat, MAX_SEATS, TakeSeat, Unclosed};
use std::alloc::{AllocError, Global};
use std::test::*;
use std::thread;

const TRIES: u32 = 1_000_000;

const MESSAGES: u32 = 1_000;

// Closes a board, at the second try where the first failed to allocate.
fn close_all<M: Drop>(
    alloc: Global,
    board: Board<M>,
    hands: Vec<HandSeat<M>>,
    takes: Vec<TakeSeat<M>>,
) -> Result<Vec<Option<M>>, AllocError>
    requires { AreHands board hands.items × AreTakes board takes.items }
    ensures { IfOk result (λ left. vec_len left ≡ board.words) }
{
    let Unclosed {
        board,
        hands,
        takes,
    } = match board.close(alloc, hands, takes) {
        Ok(left) => return Ok(left),
        Err(unclosed) => unclosed,
    };
    match board.close(alloc, hands, takes) {
        Ok(left) => Ok(left),
        Err(_) => Err(AllocError),
    }
}

// Closes a board of one seat, and gives what was left in it.
fn close_one(
    alloc: Global,
    board: Board<u32>,
    hand: HandSeat<u32>,
    take: TakeSeat<u32>,
) -> Result<Option<u32>, AllocError>
    requires one { board.words ≡ 1 }
    requires hand { (hand.board ≡ board) × (hand.number ≡ 0) }
    requires take { (take.board ≡ board) × (take.number ≡ 0) × (take.in_hand ≡ None) }
{
    let hands = vec![in alloc; hand]?;
    let takes = vec![in alloc; take]?;
    let mut left = close_all(alloc, board, hands, takes)?;
    Ok(left.pop().unwrap())
}

// Hands 7 and 8 over, takes, puts back and clears: how many calls answered as they should before one did not, ten where
// all did.
fn through_one_seat(board: &Board<u32>, hand: &mut HandSeat<u32>, take: &mut TakeSeat<u32>) -> u32
    requires hand { hand.old.board ≡ board.now }
    requires take { take.old.board ≡ board.now }
    ensures hand { IsSameHander hand.old hand.new }
    ensures take { IsSameTaker take.old take.new }
{
    if hand.hand(board, 7) != Ok(()) {
        return 0;
    }
    if hand.hand(board, 8) != Err(8) {
        return 1;
    }
    if take.take(board) != Some(7) {
        return 2;
    }
    if take.take(board).is_some() {
        return 3;
    }
    if hand.hand(board, 8) != Err(8) {
        return 4;
    }
    put_back_and_clear(board, hand, take)
}

// The calls from the fifth on, with 7 in hand.
fn put_back_and_clear(board: &Board<u32>, hand: &mut HandSeat<u32>, take: &mut TakeSeat<u32>) -> u32
    requires hand { hand.old.board ≡ board.now }
    requires take { take.old.board ≡ board.now }
    requires held { take.old.in_hand ≡ Some 7 }
    ensures hand { IsSameHander hand.old hand.new }
    ensures take { IsSameTaker take.old take.new }
{
    if take.put_back(board, 7) != Ok(()) {
        return 5;
    }
    if take.take(board) != Some(7) {
        return 6;
    }
    if !take.clear(board) {
        return 7;
    }
    if take.clear(board) {
        return 8;
    }
    if hand.hand(board, 8) != Ok(()) {
        return 9;
    }
    10
}

#[test]
fn a_message_goes_through_one_seat(rt: HostRuntime) -> Result<(), Fail> {
    let (board, mut hands, mut takes) = Board::new(rt.alloc(), 1)?;
    let mut hand = hands.pop().unwrap();
    let mut take = takes.pop().unwrap();
    let answered = through_one_seat(&board, &mut hand, &mut take);
    let was_held = take.clear(&board);
    let left = close_one(rt.alloc(), board, hand, take)?;
    assert_eq!(rt; (answered, was_held), (10, false));
    assert_eq!(rt; left, Some(8));
    Ok(())
}

// Whether an end shows nothing in hand, then 7, then nothing.
fn emits_what_is_in_hand(
    board: &Board<u32>,
    hand: &mut HandSeat<u32>,
    take: &mut TakeSeat<u32>,
) -> bool
    requires hand { hand.old.board ≡ board.now }
    requires take { take.old.board ≡ board.now }
    requires empty { take.old.in_hand ≡ None }
    ensures hand { IsSameHander hand.old hand.new }
    ensures take { IsSameTaker take.old take.new }
{
    if take.holding() || take.put_back(board, 7) != Err(7) {
        return false;
    }
    if hand.hand(board, 7) != Ok(()) || take.take(board) != Some(7) || !take.holding() {
        return false;
    }
    take.clear(board) && !take.holding()
}

#[test]
fn an_end_emits_what_is_in_hand(rt: HostRuntime) -> Result<(), Fail> {
    let (board, mut hands, mut takes) = Board::new(rt.alloc(), 1)?;
    let seats = board.seats();
    let mut hand = hands.pop().unwrap();
    let mut take = takes.pop().unwrap();
    let is_emitted = emits_what_is_in_hand(&board, &mut hand, &mut take);
    let was_held = take.clear(&board);
    let left = close_one(rt.alloc(), board, hand, take)?;
    assert_eq!(rt; (seats, is_emitted, was_held), (1, true, false));
    assert_eq!(rt; left, None);
    Ok(())
}

// Hands 1, 2, .. over, and gives the number of the last message that went.
fn give_all(board: &Board<u32>, mut hand: HandSeat<u32>) -> (HandSeat<u32>, u32)
    requires { hand.board ≡ board.now }
    ensures { (result.0.board ≡ hand.board) × (result.0.number ≡ hand.number) }
{
    let mut last = 0;
    for _ in 0..TRIES {
        if last >= MESSAGES {
            break;
        }
        match hand.hand(board, last + 1) {
            Ok(()) => last += 1,
            Err(_) => thread::yield_now(),
        }
    }
    (hand, last)
}

// Takes and clears what comes.
fn take_all(
    alloc: Global,
    board: &Board<u32>,
    mut take: TakeSeat<u32>,
) -> Result<(TakeSeat<u32>, Vec<u32>), AllocError>
    requires { (take.board ≡ board.now) × (take.in_hand ≡ None) }
    ensures { IfOk result (λ r. (r.0.board ≡ take.board) × (r.0.number ≡ take.number) × (r.0.in_hand ≡ None)) }
{
    let mut taken = Vec::with_capacity(alloc, MESSAGES as usize)?;
    for _ in 0..TRIES {
        if taken.len() >= MESSAGES as usize {
            break;
        }
        match take.take(board) {
            Some(message) => {
                take.clear(board);
                taken.push(message)?;
            }
            None => thread::yield_now(),
        }
    }
    Ok((take, taken))
}

// How many messages there are, where they are 1, 2, ..
fn counted(messages: Vec<u32>) -> Option<usize> {
    for (i, message) in messages.iter().enumerate() {
        if *message as usize != i + 1 {
            return None;
        }
    }
    Some(messages.len())
}

#[test]
fn two_threads_hand_and_take(rt: HostRuntime) -> Result<(), Fail> {
    let (board, mut hands, mut takes) = Board::new(rt.alloc(), 1)?;
    let hand = hands.pop().unwrap();
    let take = takes.pop().unwrap();
    let alloc: Global = rt.alloc();
    let shared = &board;
    let ((hand, last), taken) = thread::join(
        &rt,
        move || -> (HandSeat<u32>, u32)
            requires { hand.board ≡ shared.now }
            ensures { (result.0.board ≡ hand.board) × (result.0.number ≡ hand.number) }
        { give_all(shared, hand) },
        move || -> Result<(TakeSeat<u32>, Vec<u32>), AllocError>
            requires { (take.board ≡ shared.now) × (take.in_hand ≡ None) }
            ensures { IfOk result (λ r. (r.0.board ≡ take.board) × (r.0.number ≡ take.number) × (r.0.in_hand ≡ None)) }
        { take_all(alloc, shared, take) },
    );
    // What was taken, then what is left, is what was given: 1, 2, .. to the last.
    let (take, mut arrived) = taken?;
    if let Some(left) = close_one(alloc, board, hand, take)? {
        arrived.push(left)?;
    }
    assert_eq!(rt; counted(arrived), Some(last as usize));
    Ok(())
}

// Opens the largest board, at the second try where the first failed to allocate.
fn open_all(
    alloc: Global,
) -> Result<(Board<usize>, Vec<HandSeat<usize>>, Vec<TakeSeat<usize>>), AllocError>
    ensures { IfOk result (λ r. (r.0.words ≡ 32) × AreHands r.0 r.1.items × AreTakes r.0 r.2.items) }
{
    match Board::new(alloc, MAX_SEATS) {
        Ok(made) => Ok(made),
        Err(AllocError) => Board::new(alloc, MAX_SEATS),
    }
}

// Takes the message of a seat; whether it is this one.
fn finds(board: &Board<usize>, take: &mut TakeSeat<usize>, message: usize) -> bool
    requires { take.old.board ≡ board.now }
    ensures same { IsSameTaker take.old take.new }
    ensures found { result ≡ true → take.new.in_hand ≡ Some message }
{
    match take.take(board) {
        Some(found) => found == message,
        None => false,
    }
}

// It passes too where any one allocation fails.
#[test]
fn each_seat_has_its_own_message(rt: HostRuntime) -> Result<(), Fail> {
    let alloc = rt.alloc();
    let (board, mut hands, mut takes) = open_all(alloc)?;
    for k in 0..MAX_SEATS {
        assert_eq!(rt; hands[k].hand(&board, k), Ok(()));
    }
    for k in (0..MAX_SEATS).rev() {
        if !finds(&board, &mut takes[k], k) {
            panic!(rt; "seat {k} has another message, or none");
        }
    }
    for k in 0..MAX_SEATS {
        assert_eq!(rt; takes[k].put_back(&board, k), Ok(()));
    }
    let left = close_all(alloc, board, hands, takes)?;
    assert_eq!(rt; left.len(), MAX_SEATS);
    for (k, message) in left.iter().enumerate() {
        assert_eq!(rt; *message, Some(k));
    }
    Ok(())
}
