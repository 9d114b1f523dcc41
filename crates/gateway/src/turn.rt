//! One turn of a session's thread, phase by phase.
ghost use Rattle.std.specs.Prelude.{◌≡◌, ℕ, ◌<◌, ◌≤◌, ◌+◌, [], ◌∷◌, ◌++◌, length, List, Option, Some, None, true, IfSome, IfNone, is_some, ◌&&◌, not, take};
ghost use Rattle.fix_session.specs.Machine.{pushed};
ghost use Rattle.fix_session.specs.Reader.{Reader};
ghost use Rattle.intake_seats.specs.Ends.{IsSameHander, IsSameTaker};
ghost use Rattle.gateway.specs.Notices.{report_of};
ghost use Rattle.gateway.specs.Steps as steps;
ghost use Rattle.gateway.specs.Steps.{HasEnded, Settled};
ghost use Rattle.gateway.specs.Thread as thread;
ghost use Rattle.gateway.specs.Thread.{standing, runs};

use crate::line::{Accept, Gate, Line, LineFault, Read};
use crate::looping::Ended;
use crate::notice::SessionReport;
use crate::piece::{Given, Piece, READ_SIZE};
use crate::reporting::{of_end, report};
use crate::stepping::{StepsEnd, step_to_the_end};
use fix_dictionary::{BoxedApp, Item};
use fix_session::{SendFault, Session, Step, Why, laws};
use intake_seats::{Board, HandSeat, TakeSeat};
use sef_moment::Moment;
use std::marker::Model;
use std::snapshot::Snapshot;
use std::sync::Wait;
use venue_worker::{Clock, Outgoing};

/// The outcome of a look at the reply seat.
#[derive(Drop)]
pub enum CollectOutcome {
    /// The seat was not full.
    Nothing,
    /// A reply was sent; contracts alone see which.
    Sent {
        app: Snapshot<BoxedApp>,
    },
    /// The sentinel dropped the line.
    Cut,
    /// The send was refused, and the reply, which contracts alone see, is in its seat.
    Refused {
        app: Snapshot<BoxedApp>,
        fault: SendFault,
    },
}

/// The outcome for the queued bytes.
#[derive(Clone, Copy)]
pub enum WriteOutcome {
    /// There were none.
    Nothing,
    All,
    Fault,
}

/// The outcome for a piece that was kept.
#[derive(Drop)]
pub enum RepushOutcome {
    Nothing,
    Pushed { piece: Piece },
    Refused,
}

/// The outcome of reading.
#[derive(Drop)]
pub enum Reading {
    /// The line was not read, since `MAX_READY` messages are ready.
    Plenty,
    Answered { given: Given },
    /// The piece was kept, since an allocation failed.
    Kept { piece: Piece },
}

/// The steps of a turn, and the outcome for the queued bytes where they ended in a drop.
#[derive(Clone, Copy)]
pub struct Stepped {
    pub before: SessionReport,
    pub end: StepsEnd,
    pub after: SessionReport,
    pub wrote: WriteOutcome,
}

/// The outcome for the first ready message.
#[derive(Clone, Copy)]
pub enum HandOutcome {
    /// There was none.
    Nothing,
    Given,
    /// The seat was not empty.
    Refused,
}

/// The outcome of a tick.
#[derive(Clone, Copy)]
pub enum TickOutcome {
    Done,
    Dropped { why: Why, was_logged_on: bool },
    /// An allocation failed.
    Refused,
}

/// The tick of a turn, and the outcome for the queued bytes where it dropped the line.
#[derive(Clone, Copy)]
pub struct TickStep {
    pub ticked: TickOutcome,
    pub wrote: WriteOutcome,
}

/// The work of a turn with the gate open or shut, from the first write on.
#[derive(Drop)]
pub struct Work {
    pub wrote: WriteOutcome,
    pub repeat: RepushOutcome,
    /// None where the line was not to be read.
    pub reading: Option<Reading>,
    pub stepped: Stepped,
    pub handed: HandOutcome,
    pub beat: TickStep,
}

/// One turn, as it happened.
#[derive(Drop)]
pub struct Turn {
    /// The gate's answer.
    pub passed: bool,
    /// The clock's answer.
    pub moment: Moment,
    /// None where the line was up.
    pub accepted: Option<Accept>,
    /// None where the line is over.
    pub collected: Option<CollectOutcome>,
    /// None where the line is over, or the sentinel was collected.
    pub work: Option<Work>,
}

/// A session with this many ready messages reads no more.
pub const MAX_READY: usize = 1024;

/// A session between its line and its two seats.
pub struct SessionThread<L: Line> {
    pub(crate) session: Session,
    pub(crate) buffer: [u8; READ_SIZE],
    /// The count of bytes at the front of the buffer that came and await another try, after an allocation failure.
    pub(crate) kept: Option<usize>,
    pub(crate) line: L,
    pub(crate) hand: HandSeat<Item>,
    pub(crate) take: TakeSeat<Outgoing>,
}

impl<L: Line> Model for SessionThread<L> {
    ghost use Rattle.std.specs.Prelude.{◌≡◌, ◌≤◌, None, IfSome};
    ghost use Rattle.gateway.specs.Thread.{Thread, kept_in};

    ghost Value = { Thread };

    ghost view = { λ a. record { session = a.session.state; kept = kept_in a.kept a.buffer; hand = a.hand; take = a.take; said = L.said a.line } };

    ghost invariant = { λ a. (a.take.in_hand ≡ None) × IfSome a.kept (λ count. count ≤ 4096) };
}

impl<L: Line> SessionThread<L> {
    pub(crate) fn new(
        session: Session,
        line: L,
        hand: HandSeat<Item>,
        take: TakeSeat<Outgoing>,
    ) -> SessionThread<L>
        requires { take.in_hand ≡ None }
        ensures { result ≡ thread.at_start session hand take (L.said line) }
    {
        SessionThread {
            session,
            buffer: [0; READ_SIZE],
            kept: None,
            line,
            hand,
            take,
        }
    }

    // Ends the line, and notifies the gate of it.
    pub(crate) fn leave<G: Gate>(&mut self, gate: &mut G, at: Moment)
        ensures same { self.new ≡ self.old }
        ensures gate { G.passed gate.new ≡ G.passed gate.old }
    {
        self.line.leave();
        gate.notify(of_end(&self.report()), at);
    }

    pub(crate) fn into_parts(self) -> Ended<L>
        ensures parts { thread.at_start result.session result.hand result.take (L.said result.line) ≡ record self { kept = None } }
        ensures nothing_in_hand { result.take.in_hand ≡ None }
    {
        let SessionThread {
            session,
            buffer: _,
            kept: _,
            line,
            hand,
            take,
        } = self;
        Ended {
            session,
            line,
            hand,
            take,
        }
    }

    // Asks the line for a connection, where there is none.
    fn accept<R: Wait>(&mut self, rt: &R, t: Moment) -> Option<Accept>
        ensures asked { is_some result ≡ not self.old.session.line.up }
        ensures moves { (r : Reader) → standing self.new ≡ runs r (thread.accept_events t result) (standing self.old) }
        ensures seats { (self.new.hand ≡ self.old.hand) × (self.new.take ≡ self.old.take) }
    {
        if self.session.is_up() {
            return None;
        }
        let answer = self.line.accept(rt);
        match answer {
            Accept::Up => {
                self.kept = None;
                self.session.resume(t);
            }
            Accept::Fault => self.break_line(),
            Accept::Quiet | Accept::Over => {}
        }
        Some(answer)
    }

    fn break_line(&mut self)
        ensures moves { standing self.new ≡ thread.breaks (standing self.old) }
        ensures seats { (self.new.hand ≡ self.old.hand) × (self.new.take ≡ self.old.take) }
    {
        self.kept = None;
        self.session.break_line();
    }

    // Sends the reply in the seat, or drops the line where it is the sentinel.
    fn collect(&mut self, replies: &Board<Outgoing>, t: Moment) -> CollectOutcome
        requires board { self.old.take.board ≡ replies.now }
        ensures moves { (r : Reader) → standing self.new ≡ runs r (thread.collect_events t result) (standing self.old) }
        ensures hand { self.new.hand ≡ self.old.hand }
        ensures take { IsSameTaker self.old.take self.new.take }
        ensures looked { self.old.take.looks < self.new.take.looks }
        ensures found { thread.Found result self.new.take.last }
        ensures cause { thread.HasCause result self.old.session }
    {
        match self.take.take(replies) {
            None => CollectOutcome::Nothing,
            Some(Outgoing::Cut) => {
                self.take.clear(replies);
                self.break_line();
                CollectOutcome::Cut
            }
            Some(Outgoing::Message(app)) => {
                let sent = Snapshot::of(&app);
                if let Err(unsent) = self.session.send_boxed(app, t) {
                    drop(self.take.put_back(replies, Outgoing::Message(unsent.app)));
                    return CollectOutcome::Refused {
                        app: sent,
                        fault: unsent.fault,
                    };
                }
                self.take.clear(replies);
                CollectOutcome::Sent { app: sent }
            }
        }
    }

    // Writes what is queued to the line.
    fn write_out<R: Wait>(&mut self, rt: &R) -> WriteOutcome
        ensures moves { (r : Reader) → standing self.new ≡ runs r (thread.write_events result) (standing self.old) }
        ensures seats { (self.new.hand ≡ self.old.hand) × (self.new.take ≡ self.old.take) }
        ensures out { self.new.session.wire ≡ [] }
    {
        let wire = self.session.wire();
        if wire.is_empty() {
            return WriteOutcome::Nothing;
        }
        match self.line.write(rt, wire) {
            Ok(()) => {
                self.session.clear_wire();
                WriteOutcome::All
            }
            Err(LineFault) => {
                self.break_line();
                WriteOutcome::Fault
            }
        }
    }

    // Pushes the piece that was kept, if there is one.
    fn repeat(&mut self) -> RepushOutcome
        ensures moves { (r : Reader) → standing self.new ≡ runs r (thread.repeat_events result) (standing self.old) }
        ensures seats { (self.new.hand ≡ self.old.hand) × (self.new.take ≡ self.old.take) }
        ensures kept { thread.WasKept result self.old.kept }
        ensures free { thread.IsFree result self.new.kept }
    {
        let Some(count) = self.kept else {
            return RepushOutcome::Nothing;
        };
        match push(&mut self.session, &self.buffer, count) {
            None => RepushOutcome::Refused,
            Some(piece) => {
                self.kept = None;
                RepushOutcome::Pushed { piece }
            }
        }
    }

    // Reads the line once, unless many messages are ready.
    fn read<R: Wait>(&mut self, rt: &R) -> Reading
        requires free { self.old.kept ≡ None }
        ensures moves { (r : Reader) → standing self.new ≡ runs r (thread.read_events result) (standing self.old) }
        ensures seats { (self.new.hand ≡ self.old.hand) × (self.new.take ≡ self.old.take) }
        ensures plenty { result ≡ Reading.Plenty → 1024 ≤ length self.old.session.ready }
        ensures few { thread.is_read (Some result) ≡ true → length self.old.session.ready < 1024 }
    {
        if self.session.ready_len() >= MAX_READY {
            return Reading::Plenty;
        }
        match self.line.read(rt, &mut self.buffer) {
            Read::Got { count } => {
                match push(&mut self.session, &self.buffer, count) {
                    None => {
                        self.kept = Some(count);
                        Reading::Kept {
                            piece: Piece::front(&self.buffer, count),
                        }
                    }
                    Some(piece) => Reading::Answered {
                        given: Given::Got { piece },
                    },
                }
            }
            Read::Quiet => Reading::Answered {
                given: Given::Quiet,
            },
            Read::Ended => {
                self.break_line();
                Reading::Answered {
                    given: Given::Ended,
                }
            }
            Read::Fault => {
                self.break_line();
                Reading::Answered {
                    given: Given::Fault,
                }
            }
        }
    }

    // Hands the first ready message to the venue.
    fn hand_on(&mut self, intake: &Board<Item>) -> HandOutcome
        requires board { self.old.hand.board ≡ intake.now }
        ensures moves { (r : Reader) → standing self.new ≡ runs r (thread.hand_events result) (standing self.old) }
        ensures take { self.new.take ≡ self.old.take }
        ensures hand { IsSameHander self.old.hand self.new.hand }
        ensures looked { self.old.hand.looks + thread.looks_of result ≤ self.new.hand.looks }
        ensures nothing { result ≡ HandOutcome.Nothing → self.old.session.ready ≡ [] }
    {
        let Some(item) = self.session.pop_ready() else {
            return HandOutcome::Nothing;
        };
        match self.hand.hand(intake, item) {
            Ok(()) => HandOutcome::Given,
            Err(item) => {
                self.session.unpop_ready(item);
                HandOutcome::Refused
            }
        }
    }

    fn tick(&mut self, t: Moment) -> TickOutcome
        ensures moves { (r : Reader) → standing self.new ≡ runs r (thread.tick_events t result) (standing self.old) }
        ensures seats { (self.new.hand ≡ self.old.hand) × (self.new.take ≡ self.old.take) }
        ensures answer { thread.AnswersTick t self.old.session result }
    {
        tick_session(&mut self.session, t)
    }

    // The parts of the session that notices report.
    fn report(&self) -> SessionReport
        ensures { result ≡ report_of self.now.session }
    {
        SessionReport::of(&self.session)
    }

    // Hands what is queued to the line, where this is needed.
    fn write_if<R: Wait>(&mut self, rt: &R, is_needed: bool) -> WriteOutcome
        ensures moves { (r : Reader) → standing self.new ≡ runs r (thread.write_events result) (standing self.old) }
        ensures seats { (self.new.hand ≡ self.old.hand) × (self.new.take ≡ self.old.take) }
        ensures out { is_needed ≡ true → self.new.session.wire ≡ [] }
    {
        if is_needed {
            self.write_out(rt)
        } else {
            WriteOutcome::Nothing
        }
    }

    // Steps until nothing is unread, the line drops or an allocation fails.
    fn step_all(&mut self, t: Moment) -> StepsEnd
        ensures moves { (steps : ℕ) × ((r : Reader) → (standing self.new ≡ runs r (thread.steps_at steps t) (standing self.old)) × HasEnded r steps t self.old.session result) }
        ensures seats { (self.new.hand ≡ self.old.hand) × (self.new.take ≡ self.old.take) }
        ensures settled { (r : Reader) → Settled r result self.new.session }
    {
        step_to_the_end(&mut self.session, t)
    }

    // Steps; where the line drops, what is queued is written at once.
    fn step_out<R: Wait>(&mut self, rt: &R, t: Moment) -> Stepped
        ensures moves { (steps : ℕ) × ((r : Reader) → thread.StepsOut r steps t result self.old self.new) }
        ensures before { result.before ≡ report_of self.old.session }
        ensures seats { (self.new.hand ≡ self.old.hand) × (self.new.take ≡ self.old.take) }
        ensures out { steps.is_dropped result.end ≡ true → self.new.session.wire ≡ [] }
    {
        let before = self.report();
        let end = self.step_all(t);
        let after = self.report();
        let is_over = is_dropped(&end);
        let wrote = self.write_if(rt, is_over);
        Stepped {
            before,
            end,
            after,
            wrote,
        }
    }

    // Ticks; where the line drops, what is queued is written at once.
    fn beat<R: Wait>(&mut self, rt: &R, t: Moment) -> TickStep
        ensures moves { (r : Reader) → standing self.new ≡ runs r (thread.beat_events t result) (standing self.old) }
        ensures seats { (self.new.hand ≡ self.old.hand) × (self.new.take ≡ self.old.take) }
        ensures answer { thread.AnswersTick t self.old.session result.ticked }
        ensures out { thread.is_silenced result.ticked ≡ true → self.new.session.wire ≡ [] }
    {
        let ticked = self.tick(t);
        let wrote = self.write_if(rt, is_silenced(ticked));
        TickStep { ticked, wrote }
    }

    // Reads the line, where it may be read.
    fn read_if<R: Wait>(&mut self, rt: &R, may_read: bool) -> Option<Reading>
        requires free { may_read ≡ true → self.old.kept ≡ None }
        ensures moves { (r : Reader) → standing self.new ≡ runs r (thread.reading_events result) (standing self.old) }
        ensures seats { (self.new.hand ≡ self.old.hand) × (self.new.take ≡ self.old.take) }
        ensures asked { is_some result ≡ may_read }
        ensures plenty { result ≡ Some Reading.Plenty → 1024 ≤ length self.old.session.ready }
        ensures few { thread.is_read result ≡ true → length self.old.session.ready < 1024 }
    {
        if may_read { Some(self.read(rt)) } else { None }
    }

    // A turn from its first write on.
    fn work<R: Wait>(&mut self, rt: &R, intake: &Board<Item>, may_read: bool, t: Moment) -> Work
        requires board { self.old.hand.board ≡ intake.now }
        ensures works { (steps : ℕ) × ((r : Reader) → thread.Works r t may_read steps result self.old self.new) }
        ensures take { self.new.take ≡ self.old.take }
        ensures hand { IsSameHander self.old.hand self.new.hand }
        ensures looked { self.old.hand.looks + thread.looks_of result.handed ≤ self.new.hand.looks }
    {
        let wrote = self.write_out(rt);
        let repeat = self.repeat();
        let reading = self.read_if(rt, is_to_be_read(may_read, wrote, &repeat));
        let stepped = self.step_out(rt, t);
        let handed = self.hand_on(intake);
        let beat = self.beat(rt, t);
        Work {
            wrote,
            repeat,
            reading,
            stepped,
            handed,
            beat,
        }
    }

    // One turn: the gate and the clock, a connection where there is none, one reply, and the work.
    fn bare_turn<R: Wait, C: Clock, G: Gate>(
        &mut self,
        rt: &R,
        clock: &mut C,
        gate: &mut G,
        intake: &Board<Item>,
        replies: &Board<Outgoing>,
        number: u64,
    ) -> Turn
        requires intake { self.old.hand.board ≡ intake.now }
        requires replies { self.old.take.board ≡ replies.now }
        ensures turns { (steps : ℕ) × ((r : Reader) → thread.IsTurn r (record { turn = result; steps = steps }) self.old self.new) }
        ensures take { IsSameTaker self.old.take self.new.take }
        ensures hand { IsSameHander self.old.hand self.new.hand }
        ensures passed { G.passed gate.new ≡ G.passed gate.old ++ result.passed ∷ [] }
        ensures emitted { C.answered clock.new ≡ C.answered clock.old ++ result.moment ∷ [] }
    {
        let passed = gate.pass(rt, number);
        let t = clock.now();
        let accepted = self.accept(rt, t);
        if is_over(accepted) {
            return Turn {
                passed,
                moment: t,
                accepted,
                collected: None,
                work: None,
            };
        }
        let collected = self.collect(replies, t);
        if is_cut_token(&collected) {
            return Turn {
                passed,
                moment: t,
                accepted,
                collected: Some(collected),
                work: None,
            };
        }
        let work = self.work(rt, intake, may_read(passed, accepted), t);
        Turn {
            passed,
            moment: t,
            accepted,
            collected: Some(collected),
            work: Some(work),
        }
    }

    /// One turn: the gate and the clock, a connection where there is none, one reply, and the work.
    pub fn turn<R: Wait, C: Clock, G: Gate>(
        &mut self,
        rt: &R,
        clock: &mut C,
        gate: &mut G,
        intake: &Board<Item>,
        replies: &Board<Outgoing>,
        number: u64,
    ) -> Turn
        requires intake { self.old.hand.board ≡ intake.now }
        requires replies { self.old.take.board ≡ replies.now }
        ensures turns { (steps : ℕ) × ((r : Reader) → thread.IsTurn r (record { turn = result; steps = steps }) self.old self.new) }
        ensures take { IsSameTaker self.old.take self.new.take }
        ensures hand { IsSameHander self.old.hand self.new.hand }
        ensures passed { G.passed gate.new ≡ G.passed gate.old ++ result.passed ∷ [] }
        ensures emitted { C.answered clock.new ≡ C.answered clock.old ++ result.moment ∷ [] }
    {
        let turn = self.bare_turn(rt, clock, gate, intake, replies, number);
        if has_progressed(&turn) {
            gate.progressed();
        }
        report(gate, &turn);
        turn
    }
}

// Ticks a session.
fn tick_session(session: &mut Session, t: Moment) -> TickOutcome
    ensures moves { session.new.state ≡ thread.after_tick t session.old.state result }
    ensures answer { thread.AnswersTick t session.old.state result }
{
    let line = session.line_state();
    match session.tick(t) {
        Err(_) => TickOutcome::Refused,
        Ok(answer) => outcome_of(line.logged_on, answer),
    }
}

// The outcome of a tick that gave this answer on such a line.
fn outcome_of(was_logged_on: bool, answer: Step) -> TickOutcome
    ensures { result ≡ thread.outcome_of was_logged_on answer }
{
    match answer {
        Step::Dropped(why) => TickOutcome::Dropped { why, was_logged_on },
        Step::Idle => TickOutcome::Done,
        Step::Did => TickOutcome::Done,
        Step::App(_) => TickOutcome::Done,
    }
}

fn is_dropped(end: &StepsEnd) -> bool
    ensures { result ≡ steps.is_dropped end.now }
{
    match end {
        StepsEnd::Dropped { .. } => true,
        StepsEnd::Idle => false,
        StepsEnd::Refused => false,
    }
}

fn is_silenced(ticked: TickOutcome) -> bool
    ensures { result ≡ thread.is_silenced ticked }
{
    match ticked {
        TickOutcome::Dropped { .. } => true,
        TickOutcome::Done => false,
        TickOutcome::Refused => false,
    }
}

// Whether a seat was emptied or filled.
fn has_progressed(turn: &Turn) -> bool
    ensures { result ≡ thread.has_progressed turn.now }
{
    has_collected(&turn.collected) || has_handed(&turn.work)
}

// Whether the reply seat was emptied.
fn has_collected(collected: &Option<CollectOutcome>) -> bool
    ensures { result ≡ thread.has_collected collected.now }
{
    match collected {
        Some(CollectOutcome::Sent { .. }) => true,
        Some(CollectOutcome::Cut) => true,
        Some(CollectOutcome::Nothing) => false,
        Some(CollectOutcome::Refused { .. }) => false,
        None => false,
    }
}

// Whether the intake seat was filled.
fn has_handed(work: &Option<Work>) -> bool
    ensures { result ≡ thread.has_handed work.now }
{
    match work {
        Some(work) => matches!(work.handed, HandOutcome::Given),
        None => false,
    }
}

// Pushes the first `count` bytes of a buffer into a session; none where an allocation failed.
fn push(session: &mut Session, buffer: &[u8; READ_SIZE], count: usize) -> Option<Piece>
    requires within { count ≤ 4096 }
    ensures pushed { (r : Reader) → IfSome result (λ _. session.new.state ≡ pushed r session.old.state (take count buffer.now)) }
    ensures refused { IfNone result (session.new.state ≡ session.old.state) }
    ensures piece { IfSome result (λ piece. piece ≡ take count buffer.now) }
{
    match session.push_bytes(&buffer[..count]) {
        Err(_) => None,
        Ok(()) => Some(Piece::front(buffer, count)),
    }
}

// Whether a turn may read: not where the line was asked for a connection in it.
fn may_read(passed: bool, accepted: Option<Accept>) -> bool
    ensures { result ≡ (passed && not (is_some accepted)) }
{
    passed && accepted.is_none()
}

// Whether there will be no more connections.
fn is_over(accepted: Option<Accept>) -> bool
    ensures { result ≡ thread.is_over accepted }
{
    matches!(accepted, Some(Accept::Over))
}

// Whether the sentinel was collected.
fn is_cut_token(collected: &CollectOutcome) -> bool
    ensures { result ≡ thread.is_cut_token collected.now }
{
    matches!(collected, CollectOutcome::Cut)
}

// Whether the line may be read, neither a write failed nor was a kept piece refused again.
fn is_to_be_read(may_read: bool, wrote: WriteOutcome, repeat: &RepushOutcome) -> bool
    ensures { result ≡ (may_read && thread.is_unhindered wrote repeat.now) }
{
    may_read && !matches!(wrote, WriteOutcome::Fault) && !matches!(repeat, RepushOutcome::Refused)
}
