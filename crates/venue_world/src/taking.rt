//! A take of the message in an intake seat.

ghost use Rattle.std.specs.Prelude.{◌≡◌, ◌≤◌, ◌<◌, length, max};
ghost use Rattle.outbound_queue.specs.declared.queue.Queue.{Queue};
ghost use Rattle.venue_engine.specs.Ledger.{IsSameLedger};
ghost use Rattle.venue_world.specs.Slots.{side_of};
ghost use Rattle.venue_world.specs.Taken.{IsTake};
ghost use Rattle.venue_world.specs.World.{emptied, filled};

use crate::session_slot::SessionSlot;
use fix_dictionary::Item;
use participants::Who;
use sef_moment::Moment;
use venue_engine::Engine;
use venue_rules::{EventFault, Keep, Taken};

/// Takes the message out of the seat.
fn take_seat(slot: &mut SessionSlot) -> Option<Item>
    ensures item { result ≡ slot.old.seat }
    ensures side { (q : Queue) → side_of slot.new q ≡ emptied (side_of slot.old q) }
{
    slot.seat.take()
}

/// Puts a message back into the seat.
fn fill_seat(slot: &mut SessionSlot, item: Item)
    ensures { (q : Queue) → side_of slot.new q ≡ filled item (side_of slot.old q) }
{
    slot.seat = Some(item);
}

/// Takes the message in a participant's seat, if any; after a fault it is back there.
pub(crate) fn take<K: Keep + Drop>(
    slots: &mut Vec<SessionSlot>,
    engine: &mut Engine<K>,
    who: Who,
    t: Moment,
) -> Result<(), EventFault>
    requires named { who < length slots.old.items }
    requires few { length slots.old.items ≤ 32 }
    ensures same { IsSameLedger engine.old engine.new }
    ensures take { IsTake who (max engine.old.last t) slots.old.items slots.new.items engine.old engine.new result }
    ensures slots { length slots.new.items ≡ length slots.old.items }
{
    let place = who.place() as usize;
    let Some(item) = take_seat(&mut slots[place]) else {
        if engine.due(t) {
            return Err(EventFault::Due);
        }
        engine.pass(t);
        return Ok(());
    };
    let taken = Taken { from: who, item };
    match engine.answer(&taken, t) {
        Ok(()) => Ok(()),
        Err(fault) => {
            fill_seat(&mut slots[place], taken.item);
            Err(fault)
        }
    }
}
