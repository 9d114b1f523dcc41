//! Events of one participant's side alone.

ghost use Rattle.std.specs.Prelude.{◌≡◌, ◌<◌, true, max, length, None, Some, is_some, IfErr, IfOk, OnOk, OnErr};
ghost use Rattle.fix_session.specs.Reader.{Reader};
ghost use Rattle.fix_session.specs.Machine as machine;
ghost use Rattle.outbound_queue.specs.declared.queue.Queue.{Queue};
ghost use Rattle.venue_world.specs.Memory.{IsReply, MayFail};
ghost use Rattle.venue_world.specs.Slots.{IsCauseAlone, IsDoneAt, IsStillAt, side_of};
ghost use Rattle.venue_world.specs.Side.{does, wire_taken};
ghost use Rattle.venue_world.specs.World.{refusal_at};

use crate::session_slot::SessionSlot;
use crate::world_event::SessionEvent;
use fix_session::{SendFault, Step};
use outbound_queue::Outgoing;
use participants::Who;
use sef_moment::{Moment, later};
use venue_engine::Engine;
use venue_rules::{EventFault, Keep};

/// Does an act at one participant's side, or changes nothing.
pub(crate) fn does<K: Keep + Drop>(
    slot: &mut SessionSlot,
    engine: &mut Engine<K>,
    place: usize,
    who: Who,
    doing: &SessionEvent<'_>,
) -> Result<(), EventFault>
    requires { place < length engine.old.queues }
    ensures ok { OnOk result (IsDoneAt place slot.old slot.new engine.old engine.new (λ r. does r doing.now)) }
    ensures allowed { (q : Queue) → OnOk result (refusal_at who doing.now (Some (side_of slot.old q)) ≡ None) }
    ensures err { OnErr result (IsStillAt place slot.old slot.new engine.old engine.new) }
    ensures cause { (q : Queue) → IfErr result (λ fault. IsCauseAlone (refusal_at who doing.now (Some (side_of slot.old q))) doing.now fault) }
    ensures asked { (r : Reader) (q : Queue) → OnErr result (MayFail r doing.now (side_of slot.old q)) }
{
    match doing {
        SessionEvent::Delivers => {
            deliver(slot, engine, place);
            Ok(())
        }
        SessionEvent::Cuts => {
            engine.cut(place);
            Ok(())
        }
        SessionEvent::Pieces(piece) => receive(slot, piece.as_slice()),
        SessionEvent::Steps(t) => match step(slot, *t) {
            Ok(_) => Ok(()),
            Err(fault) => Err(fault),
        },
        SessionEvent::Ticks(t) => tick(slot, *t),
        SessionEvent::Breaks => {
            drop_line(slot);
            Ok(())
        }
        SessionEvent::Resumes(t) => {
            resume(slot, *t);
            Ok(())
        }
        SessionEvent::Hands => {
            hand(slot);
            Ok(())
        }
        SessionEvent::Collects(t) => collect(slot, who, *t),
        SessionEvent::Writes => {
            let _bytes = write(slot);
            Ok(())
        }
    }
}

fn receive(slot: &mut SessionSlot, bytes: &[u8]) -> Result<(), EventFault>
    ensures ok { (r : Reader) (q : Queue) → OnOk result (side_of slot.new q ≡ does r (SessionEvent.Pieces bytes.now) (side_of slot.old q)) }
    ensures err { (q : Queue) → OnErr result (side_of slot.new q ≡ side_of slot.old q) }
    ensures cause { IfErr result (λ fault. fault ≡ EventFault.NoMemory) }
    ensures up { OnErr result (slot.old.session.state.line.up ≡ true) }
{
    match slot.session.push_bytes(bytes) {
        Ok(()) => Ok(()),
        Err(_) => Err(EventFault::NoMemory),
    }
}

pub(crate) fn step(slot: &mut SessionSlot, t: Moment) -> Result<Step, EventFault>
    ensures answer { (r : Reader) → IfOk result (λ answer. answer ≡ (machine.step r slot.old.session.state (max slot.old.moment t)).1) }
    ensures ok { (r : Reader) (q : Queue) → OnOk result (side_of slot.new q ≡ does r (SessionEvent.Steps t) (side_of slot.old q)) }
    ensures err { (q : Queue) → OnErr result (side_of slot.new q ≡ side_of slot.old q) }
    ensures cause { IfErr result (λ fault. fault ≡ EventFault.NoMemory) }
    ensures frame { (r : Reader) → OnErr result (machine.HasFrame r slot.old.session.state) }
{
    let t = later(slot.moment, t);
    match slot.session.step(t) {
        Ok(answer) => {
            slot.moment = t;
            Ok(answer)
        }
        Err(_) => Err(EventFault::NoMemory),
    }
}

fn tick(slot: &mut SessionSlot, t: Moment) -> Result<(), EventFault>
    ensures ok { (r : Reader) (q : Queue) → OnOk result (side_of slot.new q ≡ does r (SessionEvent.Ticks t) (side_of slot.old q)) }
    ensures err { (q : Queue) → OnErr result (side_of slot.new q ≡ side_of slot.old q) }
    ensures cause { IfErr result (λ fault. fault ≡ EventFault.NoMemory) }
    ensures sends { OnErr result ((machine.tick slot.old.session.state (max slot.old.moment t)).1 ≡ Step.Did) }
{
    let t = later(slot.moment, t);
    match slot.session.tick(t) {
        Ok(_) => {
            slot.moment = t;
            Ok(())
        }
        Err(_) => Err(EventFault::NoMemory),
    }
}

fn drop_line(slot: &mut SessionSlot)
    ensures { (r : Reader) (q : Queue) → side_of slot.new q ≡ does r SessionEvent.Breaks (side_of slot.old q) }
{
    slot.session.break_line();
}

fn resume(slot: &mut SessionSlot, t: Moment)
    ensures { (r : Reader) (q : Queue) → side_of slot.new q ≡ does r (SessionEvent.Resumes t) (side_of slot.old q) }
{
    let t = later(slot.moment, t);
    slot.session.resume(t);
    slot.moment = t;
}

/// Moves the first ready message to the intake seat, if that is empty.
fn hand(slot: &mut SessionSlot)
    ensures { (r : Reader) (q : Queue) → side_of slot.new q ≡ does r SessionEvent.Hands (side_of slot.old q) }
{
    if slot.seat.is_none() {
        slot.seat = slot.session.pop_ready();
    }
}

/// Moves the first of the queue to the reply seat, if that is empty.
fn deliver<K: Keep + Drop>(slot: &mut SessionSlot, engine: &mut Engine<K>, place: usize)
    requires { place < length engine.old.queues }
    ensures { IsDoneAt place slot.old slot.new engine.old engine.new (λ r. does r SessionEvent.Delivers) }
{
    if has_reply(slot) {
        return;
    }
    slot.reply = engine.take_front(place);
}

fn has_reply(slot: &SessionSlot) -> bool
    ensures { result ≡ is_some slot.now.reply }
{
    slot.reply.is_some()
}

/// Has the session send the reply in the seat; at the sentinel its line breaks.
fn collect(slot: &mut SessionSlot, who: Who, t: Moment) -> Result<(), EventFault>
    ensures ok { (r : Reader) (q : Queue) → OnOk result (side_of slot.new q ≡ does r (SessionEvent.Collects t) (side_of slot.old q)) }
    ensures allowed { (q : Queue) → OnOk result (refusal_at who (SessionEvent.Collects t) (Some (side_of slot.old q)) ≡ None) }
    ensures err { (q : Queue) → OnErr result (side_of slot.new q ≡ side_of slot.old q) }
    ensures cause { (q : Queue) → IfErr result (λ fault. IsCauseAlone (refusal_at who (SessionEvent.Collects t) (Some (side_of slot.old q))) (SessionEvent.Collects t) fault) }
    ensures reply { OnErr result (IsReply slot.old.reply) }
{
    let t = later(slot.moment, t);
    match slot.reply.take() {
        None => {}
        Some(Outgoing::Message(app)) => {
            if let Err(unsent) = slot.session.send_boxed(app, t) {
                slot.reply = Some(Outgoing::Message(unsent.app));
                return Err(fault_of(unsent.fault, who));
            }
        }
        Some(Outgoing::Cut) => slot.session.break_line(),
    }
    slot.moment = t;
    Ok(())
}

fn fault_of(fault: SendFault, who: Who) -> EventFault
    ensures full { fault ≡ SendFault.Full → result ≡ EventFault.Down who }
    ensures no_memory { fault ≡ SendFault.NoMemory → result ≡ EventFault.NoMemory }
{
    match fault {
        SendFault::Full => EventFault::Down(who),
        SendFault::NoMemory => EventFault::NoMemory,
    }
}

/// Takes the frames that the session queued.
pub(crate) fn write(slot: &mut SessionSlot) -> Vec<u8>
    ensures taken { result.items ≡ slot.old.session.state.wire }
    ensures left { (q : Queue) → side_of slot.new q ≡ wire_taken (side_of slot.old q) }
{
    slot.session.take_wire()
}
