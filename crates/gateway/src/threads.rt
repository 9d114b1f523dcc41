//! Sessions in threads of their own, whose joins hand on what the loop ensures.
ghost use Rattle.std.specs.Prelude.{◌≡◌, ℕ, All, length, map, slice_get, Some, IfOk, IfSome};
ghost use Rattle.gateway.specs.Served.{AreServed, HasServed, IsReady, begun};

use crate::line::{Gate, Line};
use crate::looping::{Ended, session_loop};
use fix_dictionary::Item;
use fix_session::Session;
use intake_seats::{Board, HandSeat, TakeSeat};
use std::alloc::Global;
use std::marker::Model;
use std::snapshot::Snapshot;
use std::sync::Wait;
use std::thread;
use std::thread::{Promise, PromisedHandle, Scope, Threads};
use venue_worker::{Clock, Outgoing};

/// The start of a session's thread: all that `session_loop` takes but the boards.
#[derive(Drop)]
pub struct Start<L: Line, C: Clock, G: Gate> {
    pub session: Session,
    pub line: L,
    pub clock: C,
    pub gate: G,
    pub hand: HandSeat<Item>,
    pub take: TakeSeat<Outgoing>,
    /// The seat of its end token.
    pub end: HandSeat<()>,
}

impl<L: Line, C: Clock, G: Gate> Model for Start<L, C, G> {
    ghost use Rattle.gateway.specs.Served.{Served, served};

    ghost Value = { Served };

    ghost view = { λ s. served s.session (L.said s.line) (C.answered s.clock) (G.passed s.gate) s.hand s.take s.end };
}

/// What a session's thread gives back: all that it began with.
#[derive(Drop)]
pub struct Finish<L: Line, C: Clock, G: Gate> {
    pub ended: Ended<L>,
    pub clock: C,
    pub gate: G,
    pub end: HandSeat<()>,
}

impl<L: Line, C: Clock, G: Gate> Model for Finish<L, C, G> {
    ghost use Rattle.gateway.specs.Served.{Served, served};

    ghost Value = { Served };

    ghost view = { λ f. served f.ended.session (L.said f.ended.line) (C.answered f.clock) (G.passed f.gate) f.ended.hand f.ended.take f.end };
}

/// The promise that `turns` turns lead from a start to what the thread gives back.
#[derive(Drop)]
pub struct SessionPromise<L: Line, C: Clock, G: Gate> {
    turns: u64,
    start: Snapshot<Start<L, C, G>>,
}

impl<L: Line, C: Clock, G: Gate> Promise<Finish<L, C, G>> for SessionPromise<L, C, G> {
    ghost use Rattle.gateway.specs.Served.{HasServed};

    ghost kept_by = { λ p finish. HasServed p.turns p.start.value finish };
}

/// The thread of a session.
pub type SessionHandle<L, C, G> = PromisedHandle<Finish<L, C, G>, SessionPromise<L, C, G>>;

/// Why a venue does not run, or does not end well.
#[derive(Clone, Copy, Debug, PartialEq, Eq)]
pub enum RunFault {
    /// 1: an allocation failed.
    NoMemory,
    /// 2: no thread could be made.
    NoThread,
    /// 3: the keeper of the rows refused one.
    TrailRefused,
}

// The whole of a session's thread.
fn serve_session<R: Wait, L: Line + Drop, C: Clock + Drop, G: Gate + Drop>(
    rt: &R,
    start: Start<L, C, G>,
    intake: &Board<Item>,
    replies: &Board<Outgoing>,
    ends: &Board<()>,
    turns: u64,
) -> Finish<L, C, G>
    requires ready { IsReady intake.now replies.now ends.now start }
    ensures { HasServed turns start result }
{
    let Start {
        session,
        line,
        mut clock,
        mut gate,
        hand,
        take,
        mut end,
    } = start;
    let ended = session_loop(
        rt, session, line, &mut clock, &mut gate, hand, take, &mut end, intake, replies, ends,
        turns,
    );
    Finish {
        ended,
        clock,
        gate,
        end,
    }
}

/// Starts a session's thread; none where no thread can be made.
pub fn start_session<
    's,
    E,
    R: Wait + Sync,
    L: Line + Send + Drop + 's,
    C: Clock + Send + Drop + 's,
    G: Gate + Send + Drop + 's,
>(
    scope: &Scope<'s, E>,
    rt: &'s R,
    start: Start<L, C, G>,
    intake: &'s Board<Item>,
    replies: &'s Board<Outgoing>,
    ends: &'s Board<()>,
    turns: u64,
) -> Option<SessionHandle<L, C, G>>
    requires ready { IsReady intake.now replies.now ends.now start }
    ensures { IfSome result (λ h. (h.promise.turns ≡ turns) × (h.promise.start.value ≡ start)) }
{
    let promise = SessionPromise {
        turns,
        start: Snapshot::of(&start),
    };
    scope
        .spawn_with(promise, move || {
            serve_session(rt, start, intake, replies, ends, turns)
        })
        .ok()
}

/// Starts the threads of all sessions, in order. Where one can't be started, the scope joins those that were.
pub fn start_all<
    's,
    E,
    R: Wait + Sync,
    L: Line + Send + Drop + 's,
    C: Clock + Send + Drop + 's,
    G: Gate + Send + Drop + 's,
>(
    scope: &Scope<'s, E>,
    rt: &'s R,
    alloc: Global,
    starts: Vec<Start<L, C, G>>,
    intake: &'s Board<Item>,
    replies: &'s Board<Outgoing>,
    ends: &'s Board<()>,
    turns: u64,
) -> Result<Vec<SessionHandle<L, C, G>>, RunFault>
    requires own { All (λ s. IsReady intake.now replies.now ends.now s) starts.items }
    ensures started { IfOk result (λ handles. map (λ h. begun h.promise.turns h.promise.start.value) handles.items ≡ map (λ s. begun turns s) starts.items) }
{
    let Ok(mut handles) = Vec::with_capacity(alloc, starts.len()) else {
        drop(starts);
        return Err(RunFault::NoMemory);
    };
    for start in starts {
        let Some(handle) = start_session(scope, rt, start, intake, replies, ends, turns) else {
            drop(handles);
            return Err(RunFault::NoThread);
        };
        if handles.push(handle).is_err() {
            drop(handles);
            return Err(RunFault::NoMemory);
        }
    }
    Ok(handles)
}

/// Joins the threads of all sessions, in order; each join hands on what the session's turns led to. Where memory for
/// the list runs out, the handles come back.
pub fn join_all<R: Threads, L: Line + Drop, C: Clock + Drop, G: Gate + Drop>(
    rt: &R,
    handles: Vec<SessionHandle<L, C, G>>,
) -> Result<Vec<Finish<L, C, G>>, Vec<SessionHandle<L, C, G>>>
    ensures count { IfOk result (λ finished. length finished.items ≡ length handles.items) }
    ensures each { IfOk result (λ finished. (k : ℕ) (h : _) (f : _) → slice_get handles.items k ≡ Some h → slice_get finished.items k ≡ Some f → HasServed h.promise.turns h.promise.start.value f) }
{
    match thread::join_promised(rt, handles) {
        Ok(finished) => Ok(finished),
        Err(refused) => Err(refused.value),
    }
}

/// Runs the threads of all sessions and this work in parallel, then joins them in order.
pub fn run_in_parallel<
    'e,
    R: Threads + Wait + Sync,
    L: Line + Send + Drop + 'e,
    C: Clock + Send + Drop + 'e,
    G: Gate + Send + Drop + 'e,
    W: FnOnce() -> T,
    T: Drop,
>(
    rt: &'e R,
    alloc: Global,
    starts: Vec<Start<L, C, G>>,
    intake: &'e Board<Item>,
    replies: &'e Board<Outgoing>,
    ends: &'e Board<()>,
    turns: u64,
    work: W,
) -> Result<(Vec<Finish<L, C, G>>, T), RunFault>
    requires own { All (λ s. IsReady intake.now replies.now ends.now s) starts.items }
    requires work { W.IsAlwaysCallable work }
    ensures worked { IfOk result (λ r. W.post work r.1) }
    ensures served { IfOk result (λ r. AreServed turns starts.items r.0.items) }
{
    thread::scope(
        thread::scope_env::<'e>(),
        rt,
        move |scope| -> Result<(Vec<Finish<L, C, G>>, T), RunFault>
            requires own { All (λ s. IsReady intake.now replies.now ends.now s) starts.items }
            requires work { W.IsAlwaysCallable work }
            ensures worked { IfOk result (λ r. W.post work r.1) }
            ensures served { IfOk result (λ r. AreServed turns starts.items r.0.items) }
        {
            let handles = start_all(scope, rt, alloc, starts, intake, replies, ends, turns)?;
            let done = work();
            match join_all(rt, handles) {
                Ok(finished) => Ok((finished, done)),
                Err(_) => Err(RunFault::NoMemory),
            }
        },
    )
}
