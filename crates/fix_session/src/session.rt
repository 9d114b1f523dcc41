//! The session itself.

ghost use Rattle.std.specs.Prelude.{◌≡◌, ◌↔◌, ◌≤◌, ◌+◌, ◌∷◌, [], ◌++◌, max, length, IsOk, IfOk, OnOk, OnErr, IfErr, IfSome, IfNone, IsSome, Some, OnSome, Err, slice_get, true, if◌then◌else◌};
ghost use Rattle.fix_session.specs.Machine as machine;
ghost use Rattle.fix_dictionary.specs.Values.{IsSequenceNumber};
ghost use Rattle.fix_session.specs.Reader.{Reader, IsSettled};
ghost use Rattle.fix_session.specs.Sent.{framed, app_message};
ghost use Rattle.fix_session.specs.State.{begun, fresh, resumed, broken, era_of};
ghost use Rattle.fix_session.specs.Table.{are_numbers_spent};

use crate::comp_ids::CompIds;
use crate::frame::{Content, Fault, FaultyKind};
use crate::plan::{AdminReply, Step, Why};
use crate::reading::read_frame;
use crate::session_state::{SessionState, TimerAction};
use crate::table::MAX_SEQ_NUM;
use crate::unread::{forget, next_body, no_bytes, settle};
use crate::wire::{Wire, write_admin_reply, write_app};
use crate::work::{Work, add_plan, join, prepare};
use fix_dictionary::{App, BoxedApp, Identifier, Item};
use fix_frame::Cutter;
use resend_store::Store;
use sef_moment::{Moment, later};
use std::alloc::{AllocError, Global};
use std::collections::VecDeque;
use std::marker::Model;
use thiserror::Error;

/// Why an application message was not sent.
#[derive(Clone, Copy, Debug, PartialEq, Eq, Error)]
pub enum SendFault {
    /// 1: the numbers up to 999,999,999 are spent.
    #[error("the numbers are spent")]
    Full,
    /// An allocation failed.
    #[error("out of memory")]
    NoMemory,
}

/// An application message that was not sent, and why.
#[derive(Drop)]
pub struct Unsent {
    pub app: BoxedApp,
    pub fault: SendFault,
}

/// A session with one counterparty.
pub struct Session {
    alloc: Global,
    ids: CompIds,
    line: SessionState,
    cutter: Cutter,
    store: Store,
    ready: VecDeque<Item>,
    wire: Wire,
}

// Written-out drop (docs/ARCHITECTURE.md).
impl Drop for Session {
    fn drop(self) {
        let Session {
            alloc: _alloc,
            ids: _ids,
            line: _line,
            cutter: _cutter,
            store: _store,
            ready: _ready,
            wire: _wire,
        } = self;
    }
}

impl Model for Session {
    ghost use Rattle.std.specs.Prelude.{◌-◌};
    ghost use Rattle.std.specs.VecDeque.{deque_len, deque_capacity};
    ghost use Rattle.fix_session.specs.Reader.{IsSettled};
    ghost use Rattle.fix_session.specs.State.{Seen};

    ghost Value = { Seen };

    ghost view = { λ a. record {
      state = record { ids = a.ids; line = a.line; unread = a.cutter.unread; past = a.store.past; entries = a.store.entries; ready = a.ready.items; wire = a.wire };
      spare = deque_capacity a.ready - deque_len a.ready;
    } };

    ghost invariant = { λ a. IsSettled a.cutter.unread };
}

impl Session {
    /// A session of ours with a peer, on a line that is down, with both numbers at 1, and with nothing ready and
    /// nothing queued. It does not allocate, so it never fails.
    pub fn new(alloc: Global, own: &Identifier, peer: &Identifier) -> Result<Session, AllocError>
        ensures ok { IsOk result }
        ensures state { IfOk result (λ session. session.state ≡ fresh (record { own = own.now; peer = peer.now })) }
    {
        Ok(session_begun(alloc, false, own, peer))
    }

    /// The same of a session whose messages an earlier process may have numbered: until it has accepted a number, it
    /// refuses a Logon above 1, and requests nothing.
    pub fn restarted(
        alloc: Global,
        own: &Identifier,
        peer: &Identifier,
    ) -> Result<Session, AllocError>
        ensures ok { IsOk result }
        ensures state { IfOk result (λ session. session.state ≡ begun true (record { own = own.now; peer = peer.now })) }
    {
        Ok(session_begun(alloc, true, own, peer))
    }

    /// Raises the line, with no Logon yet; unread bytes and queued frames are dropped.
    pub fn resume(&mut self, t: Moment)
        ensures { self.new.state ≡ resumed self.old.state (max self.old.state.line.moment t) }
    {
        let t = later(self.line.moment, t);
        forget(&mut self.cutter);
        self.wire.clear();
        self.line = self.line.raised(t);
    }

    /// Lowers the line; unread bytes and queued frames are dropped.
    pub fn break_line(&mut self)
        ensures { self.new.state ≡ broken self.old.state }
    {
        forget(&mut self.cutter);
        self.wire.clear();
        self.line = self.line.broken();
    }

    /// Appends bytes to those not read yet. On a line that is down they are ignored.
    pub fn push_bytes(&mut self, piece: &[u8]) -> Result<(), AllocError>
        ensures ok { (r : Reader) → OnOk result (self.new.state ≡ machine.pushed r self.old.state piece.now) }
        ensures err { OnErr result (self.new.state ≡ self.old.state) }
        ensures up { OnErr result (self.old.state.line.up ≡ true) }
    {
        if self.line.up {
            self.cutter.push(piece)?;
            settle(&mut self.cutter);
        }
        Ok(())
    }

    /// Whether the line is up.
    pub fn is_up(&self) -> bool
        ensures { result ≡ self.now.state.line.up }
    {
        self.line.up
    }

    /// A copy of the line's state: Logon, next incoming number, heartbeat interval, outstanding request.
    pub fn line_state(&self) -> SessionState
        ensures { result ≡ self.now.state.line }
    {
        self.line
    }

    /// The number of the next outbound message.
    pub fn next_outgoing(&self) -> u32
        ensures { result ≡ length self.now.state.entries + 1 }
    {
        self.store.next_number()
    }

    /// The current era, from 1 to 1,000.
    pub fn era(&self) -> u32
        ensures { result ≡ era_of self.now.state.past }
    {
        self.store.era()
    }

    /// The number of ready items.
    pub fn ready_len(&self) -> usize
        ensures { result ≡ length self.now.state.ready }
    {
        self.ready.len()
    }

    /// The first ready item.
    pub fn front_ready(&self) -> Option<&Item>
        ensures some { IfSome result (λ x. slice_get self.now.state.ready 0 ≡ Some x.now) }
        ensures none { IfNone result (self.now.state.ready ≡ []) }
    {
        self.ready.front()
    }

    /// Takes the first ready item out.
    pub fn pop_ready(&mut self) -> Option<Item>
        ensures some { IfSome result (λ x. self.old.state.ready ≡ x ∷ self.new.state.ready) }
        ensures none { IfNone result ((self.old.state.ready ≡ []) × (self.new.state.ready ≡ [])) }
        ensures rest { self.new.state ≡ record self.old.state { ready = self.new.state.ready } }
        ensures spare { OnSome result (1 ≤ self.new.spare) }
    {
        self.ready.pop_front()
    }

    /// Returns an item to the front, in the capacity that a pop has left.
    pub fn unpop_ready(&mut self, item: Item)
        requires { 1 ≤ self.old.spare }
        ensures { self.new.state ≡ record self.old.state { ready = item ∷ self.old.state.ready } }
    {
        self.ready.push_front_reserved(item);
    }

    /// Takes the queued frames, each once.
    pub fn take_wire(&mut self) -> Vec<u8>
        ensures taken { result.items ≡ self.old.state.wire }
        ensures left { self.new.state ≡ record self.old.state { wire = [] } }
    {
        self.wire.take(self.alloc)
    }

    /// The queued frames, borrowed.
    pub fn wire(&self) -> &[u8]
        ensures { result.now ≡ self.now.state.wire }
    {
        self.wire.all()
    }

    /// Drops the queued frames, and keeps their memory.
    pub fn clear_wire(&mut self)
        ensures { self.new.state ≡ record self.old.state { wire = [] } }
    {
        self.wire.clear();
    }

    /// Handles the next unread frame. A step that fails leaves the frame unread; one that finds no frame on an up line
    /// does not fail.
    pub fn step(&mut self, t: Moment) -> Result<Step, AllocError>
        ensures state { (r : Reader) → OnOk result (self.new.state ≡ (machine.step r self.old.state t).0) }
        ensures answer { (r : Reader) → IfOk result (λ answer. answer ≡ (machine.step r self.old.state t).1) }
        ensures err { OnErr result (self.new.state ≡ self.old.state) }
        ensures frame { (r : Reader) → OnErr result (machine.HasFrame r self.old.state) }
    {
        let t = later(self.line.moment, t);
        if !self.line.up {
            self.line.moment = t;
            return Ok(Step::Idle);
        }
        let Some(body) = next_body(&mut self.cutter) else {
            self.line.moment = t;
            return Ok(Step::Idle);
        };
        let len = self.wire.len();
        let prepared = prepare(
            self.alloc,
            &self.ids,
            &self.line,
            &mut self.store,
            &mut self.ready,
            &mut self.wire,
            t,
            &self.cutter.taken()[body.start..body.end],
        );
        let Ok(work) = prepared else {
            self.cutter.back();
            return Err(AllocError);
        };
        let Work { plan, item } = work;
        self.line = self.line.after(t, &plan, self.wire.since(len));
        add_plan(&mut self.store, &plan);
        join(&mut self.ready, item);
        settle(&mut self.cutter);
        Ok(plan.answer)
    }

    /// The fault of the next unread frame, where that is a Logon with a fault. The frame stays unread. It does not fail
    /// where no whole frame is unread.
    pub fn next_logon_fault(&mut self) -> Result<Option<Fault>, AllocError>
        ensures fault { (r : Reader) → IfOk result (λ fault. fault ≡ machine.next_logon_fault r self.old.state) }
        ensures same { self.new.state ≡ self.old.state }
        ensures frame { (r : Reader) → OnErr result (IsSome (r.front self.old.state.unread).found) }
    {
        front_logon_fault(self.alloc, &self.ids, &mut self.cutter)
    }

    /// Sends a Heartbeat or a TestRequest where one is due, or drops a silent line. A tick that sends nothing does not
    /// fail.
    pub fn tick(&mut self, t: Moment) -> Result<Step, AllocError>
        ensures state { OnOk result (self.new.state ≡ (machine.tick self.old.state t).0) }
        ensures answer { IfOk result (λ answer. answer ≡ (machine.tick self.old.state t).1) }
        ensures err { OnErr result (self.new.state ≡ self.old.state) }
        ensures next_incoming { OnErr result ((machine.tick self.old.state t).1 ≡ Step.Did) }
    {
        let t = later(self.line.moment, t);
        match self.line.timer_action(t) {
            TimerAction::Nothing => {
                self.line.moment = t;
                Ok(Step::Idle)
            }
            TimerAction::Heartbeat => {
                let test_request_sent_at = self.line.test_request_sent_at;
                self.send_now(t, AdminReply::Heartbeat, test_request_sent_at)
            }
            TimerAction::TestRequest => self.send_now(t, AdminReply::TestRequest, Some(t)),
            TimerAction::Silent => {
                self.drop_line(t);
                Ok(Step::Dropped(Why::Silent))
            }
        }
    }

    fn drop_line(&mut self, t: Moment)
        ensures { self.new.state ≡ machine.dropped_line self.old.state t }
    {
        let line = &mut self.line;
        line.up = false;
        line.logged_on = false;
        line.moment = t;
    }

    fn send_now(
        &mut self,
        t: Moment,
        message: AdminReply,
        test_request_sent_at: Option<Moment>,
    ) -> Result<Step, AllocError>
        ensures state { OnOk result (self.new.state ≡ (machine.sends_now self.old.state t message test_request_sent_at).0) }
        ensures answer { IfOk result (λ answer. answer ≡ (machine.sends_now self.old.state t message test_request_sent_at).1) }
        ensures err { OnErr result (self.new.state ≡ self.old.state) }
        ensures next_incoming { OnErr result ((machine.sends_now self.old.state t message test_request_sent_at).1 ≡ Step.Did) }
    {
        let number = self.store.next_number();
        if number > MAX_SEQ_NUM {
            self.drop_line(t);
            return Ok(Step::Dropped(Why::NumbersSpent));
        }
        self.store.reserve(1)?;
        write_admin_reply(self.alloc, &self.ids, t, number, message, &mut self.wire)?;
        self.store.add_admin_reserved();
        self.line.moment = t;
        self.line.last_sent_at = t;
        self.line.test_request_sent_at = test_request_sent_at;
        Ok(Step::Did)
    }

    /// Numbers and stores a copy of an application message, and queues its frame on a logged-on line.
    pub fn send(&mut self, app: &App, t: Moment) -> Result<(), SendFault>
        ensures sent { OnOk result (self.new.state ≡ machine.sent self.old.state app.now (max self.old.state.line.moment t)) }
        ensures full { (result ≡ Err SendFault.Full) ↔ (are_numbers_spent self.old.state ≡ true) }
        ensures err { OnErr result (self.new.state ≡ self.old.state) }
    {
        if self.store.next_number() > MAX_SEQ_NUM {
            return Err(SendFault::Full);
        }
        let Ok(app) = copy_of(self.alloc, app) else {
            return Err(SendFault::NoMemory);
        };
        match self.send_boxed(app, t) {
            Ok(()) => Ok(()),
            Err(unsent) => Err(unsent.fault),
        }
    }

    /// The same of a message on the heap, which is kept for resends. A message that is not sent is returned.
    pub fn send_boxed(&mut self, app: BoxedApp, t: Moment) -> Result<(), Unsent>
        ensures sent { OnOk result (self.new.state ≡ machine.sent self.old.state app (max self.old.state.line.moment t)) }
        ensures full { (result ≡ Err (record { app = app; fault = SendFault.Full })) ↔ (are_numbers_spent self.old.state ≡ true) }
        ensures back { IfErr result (λ unsent. unsent.app ≡ app) }
        ensures err { OnErr result (self.new.state ≡ self.old.state) }
    {
        let number = self.store.next_number();
        if number > MAX_SEQ_NUM {
            let fault = SendFault::Full;
            return Err(Unsent { app, fault });
        }
        let t = later(self.line.moment, t);
        let is_written = self.line.logged_on;
        let ready = ready_app(
            &self.ids,
            is_written,
            t,
            number,
            app.get(),
            &mut self.store,
            &mut self.wire,
        );
        if ready.is_err() {
            let fault = SendFault::NoMemory;
            return Err(Unsent { app, fault });
        }
        self.store.add_app_reserved(app, t);
        self.line.moment = t;
        if is_written {
            self.line.last_sent_at = t;
        }
        Ok(())
    }
}

// A session at its start.
fn session_begun(alloc: Global, restarted: bool, own: &Identifier, peer: &Identifier) -> Session
    ensures { result.state ≡ begun restarted (record { own = own.now; peer = peer.now }) }
{
    Session {
        alloc,
        ids: CompIds {
            own: *own,
            peer: *peer,
        },
        line: SessionState::new(restarted),
        cutter: no_bytes(alloc),
        store: Store::new(alloc),
        ready: VecDeque::new(alloc),
        wire: Wire::new(alloc),
    }
}

// The fault of a Logon.
fn logon_fault(content: &Content) -> Option<Fault>
    ensures { result ≡ machine.logon_fault content.now }
{
    match content {
        Content::Faulty {
            kind: FaultyKind::Logon,
            fault,
        } => Some(*fault),
        _ => None,
    }
}

// The fault of the frame in front, where that is a Logon with a fault. The bytes stay unread.
fn front_logon_fault(
    alloc: Global,
    ids: &CompIds,
    cutter: &mut Cutter,
) -> Result<Option<Fault>, AllocError>
    requires { IsSettled cutter.old.unread }
    ensures fault { (r : Reader) → IfOk result (λ fault. fault ≡ machine.logon_fault_in r ids.now (r.front cutter.old.unread).found) }
    ensures same { cutter.new.unread ≡ cutter.old.unread }
    ensures frame { (r : Reader) → OnErr result (IsSome (r.front cutter.old.unread).found) }
{
    let Some(body) = next_body(cutter) else {
        return Ok(None);
    };
    let frame = read_frame(alloc, ids, &cutter.taken()[body.start..body.end]);
    cutter.back();
    let Ok(frame) = frame else {
        return Err(AllocError);
    };
    Ok(logon_fault(&frame.content))
}

// A copy of the message on the heap.
fn copy_of(alloc: Global, app: &App) -> Result<BoxedApp, AllocError>
    ensures { IfOk result (λ copy. copy ≡ app.now) }
{
    BoxedApp::new(alloc, app.copy(alloc)?)
}

// Reserves capacity for an application message among the entries, and queues its frame if it is to be written; or
// changes nothing.
fn ready_app(
    ids: &CompIds,
    is_written: bool,
    t: Moment,
    number: u32,
    app: &App,
    store: &mut Store,
    wire: &mut Wire,
) -> Result<(), AllocError>
    requires { IsSequenceNumber number }
    ensures ok { OnOk result (wire.new ≡ (if is_written then wire.old ++ framed (app_message ids.now number t app.now) else wire.old)) }
    ensures headroom { OnOk result (1 ≤ store.new.headroom) }
    ensures past { store.new.past ≡ store.old.past }
    ensures entries { store.new.entries ≡ store.old.entries }
    ensures err { OnErr result (wire.new ≡ wire.old) }
{
    store.reserve(1)?;
    if is_written {
        write_app(ids, t, number, app, wire)
    } else {
        Ok(())
    }
}
