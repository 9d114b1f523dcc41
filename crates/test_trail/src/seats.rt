//! The two boards of a venue, and the sessions' ends of them, all on one thread.
ghost use Rattle.std.specs.Prelude.{◌≡◌, [], None, IfOk, length};
ghost use Rattle.intake_seats.specs.Ends.{AreHands, AreTakes, AreUnusedHands, AreUnusedTakes, IsSameTaker};

use fix_dictionary::Item;
use intake_seats::{Board, HandSeat, TakeSeat};
use std::alloc::{AllocError, Global};
use venue_worker::Outgoing;

/// How many participants there are.
pub const COUNT: usize = 5;

/// Both boards.
#[derive(Drop)]
pub struct Boards {
    pub intake: Board<Item>,
    pub replies: Board<Outgoing>,
}

/// The worker's ends of both boards, and the sessions' ones.
#[derive(Drop)]
pub struct Ends {
    pub takes: Vec<TakeSeat<Item>>,
    pub hands: Vec<HandSeat<Outgoing>>,
    pub session_hands: Vec<HandSeat<Item>>,
    pub session_takes: Vec<TakeSeat<Outgoing>>,
}

/// New boards.
pub fn make_boards(alloc: Global) -> Result<(Boards, Ends), AllocError>
    ensures takes { IfOk result (λ r. AreTakes r.0.intake r.1.takes.items × AreUnusedTakes r.1.takes.items) }
    ensures hands { IfOk result (λ r. AreHands r.0.replies r.1.hands.items × AreUnusedHands r.1.hands.items) }
    ensures count { IfOk result (λ r. (length r.1.takes.items ≡ 5) × (length r.1.hands.items ≡ 5)) }
    ensures sessions { IfOk result (λ r. AreHands r.0.intake r.1.session_hands.items) }
    ensures collects { IfOk result (λ r. AreTakes r.0.replies r.1.session_takes.items) }
{
    let (intake, session_hands, takes) = Board::<Item>::new(alloc, COUNT)?;
    let (replies, hands, session_takes) = Board::<Outgoing>::new(alloc, COUNT)?;
    let boards = Boards { intake, replies };
    let ends = Ends {
        takes,
        hands,
        session_hands,
        session_takes,
    };
    Ok((boards, ends))
}

/// What is in a session's reply seat.
#[derive(Clone, Copy)]
enum Found {
    Nothing,
    Reply,
    /// The sentinel of a cut: the session's connection is to be dropped.
    CutToken,
}

/// What a session collected: how many replies and sentinels.
#[derive(Clone, Copy)]
pub struct Collected {
    replies: usize,
    cut_tokens: usize,
    /// A reply came after a sentinel.
    is_late: bool,
}

/// What a session collected that found nothing yet.
pub const NOTHING: Collected = Collected {
    replies: 0,
    cut_tokens: 0,
    is_late: false,
};

impl Collected {
    fn add(&mut self, found: Found) {
        match found {
            Found::Nothing => {}
            Found::Reply => {
                self.replies = self.replies.saturating_add(1);
                self.is_late |= 0 < self.cut_tokens;
            }
            Found::CutToken => self.cut_tokens = self.cut_tokens.saturating_add(1),
        }
    }

    /// Whether these are this many replies, and after them a sentinel where the session was to end.
    pub fn is_all(&self, replies: usize, is_cut: bool) -> bool {
        let cut_tokens = if is_cut { 1 } else { 0 };
        self.replies == replies && self.cut_tokens == cut_tokens && !self.is_late
    }
}

/// The sessions, with their ends of both boards and what they collected.
#[derive(Drop)]
pub struct Sessions<'a> {
    pub boards: &'a Boards,
    pub hands: Vec<HandSeat<Item>>,
    pub takes: Vec<TakeSeat<Outgoing>>,
    pub collected: [Collected; COUNT],
    ghost own_hands: { AreHands boards.now.intake hands.items },
    ghost own_takes: { AreTakes boards.now.replies takes.items },
}

/// Hands a message over on this seat; `false` where it comes back, or there is no such seat.
pub fn hand_over(
    board: &Board<Item>,
    hands: &mut Vec<HandSeat<Item>>,
    place: usize,
    item: Item,
) -> bool
    requires { AreHands board.now hands.old.items }
    ensures { AreHands board.now hands.new.items }
{
    if hands.len() <= place {
        return false;
    }
    hands[place].hand(board, item).is_ok()
}

// Takes what is in this seat, and lets it go.
fn collect(board: &Board<Outgoing>, take: &mut TakeSeat<Outgoing>) -> Found
    requires own { take.old.board ≡ board.now }
    requires free { take.old.in_hand ≡ None }
    ensures { IsSameTaker take.old take.new × (take.new.in_hand ≡ None) }
{
    let found = match take.take(board) {
        None => Found::Nothing,
        Some(Outgoing::Cut) => Found::CutToken,
        Some(Outgoing::Message(message)) => {
            drop(message);
            Found::Reply
        }
    };
    take.clear(board);
    found
}

// Of the seat at this place, if there is one.
fn collect_at(board: &Board<Outgoing>, takes: &mut Vec<TakeSeat<Outgoing>>, place: usize) -> Found
    requires { AreTakes board.now takes.old.items }
    ensures { AreTakes board.now takes.new.items }
{
    if takes.len() <= place {
        return Found::Nothing;
    }
    collect(board, &mut takes[place])
}

impl<'a> Sessions<'a> {
    /// A participant's session hands a message over; `false` where it comes back.
    pub fn hand(&mut self, place: usize, item: Item) -> bool {
        hand_over(&self.boards.intake, &mut self.hands, place, item)
    }

    /// Each session collects what is in its seat.
    pub fn collect(&mut self) {
        for place in 0..COUNT {
            let found = collect_at(&self.boards.replies, &mut self.takes, place);
            self.collected[place].add(found);
        }
    }
}
