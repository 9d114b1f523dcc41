//! Laws over every list of a session's calls: each is the contract of a function with no parameters.

ghost use Rattle.std.specs.Prelude.{◌≡◌, ◌≢◌, ◌<◌, ◌≤◌, ℕ, List, [], ◌∷◌, ◌++◌, length, map, max, Bool, true, false, Option, Some};
ghost use Rattle.fix_dictionary.specs.declared.messages.App.{App};
ghost use Rattle.fix_dictionary.specs.declared.messages.Item.{Item};
ghost use Rattle.fix_session.specs.declared.comp_ids.CompIds.{CompIds};
ghost use Rattle.fix_session.specs.Body.{frame_in, kind_in};
ghost use Rattle.fix_session.specs.Chain.{accepted, counts, next_incoming_after, era_after, era_asked, Rises};
ghost use Rattle.fix_session.specs.Eras.{EraBegins, IsReset, NoEraBegins};
ghost use Rattle.fix_session.specs.Heard.{Heard};
ghost use Rattle.fix_session.specs.Machine.{step, tick, sent, pushed, AtEnd, Grows};
ghost use Rattle.fix_session.specs.Reader.{Reader};
ghost use Rattle.fix_session.specs.Restarted.{AreOldTries, AwaitsFirst, HearsOldLogon, IsAccepted, IsLogon, IsUnmoved, StaysRefused, Try, calls_of};
ghost use Rattle.fix_session.specs.Runs.{AreEachFirst, AreFirst, Event, History, begin, by_connection, connections, decoded, frames_since, replies, run};
ghost use Rattle.fix_session.specs.Sent.{numbered};
ghost use Rattle.fix_session.specs.Shorter.{Shortens};
ghost use Rattle.fix_session.specs.State.{State, era_of, resumed, broken};
ghost use Rattle.fix_session.specs.Table.{last_number};
ghost use Rattle.fix_session.specs.declared.frame.Frame.{Frame};
ghost use Rattle.fix_session.specs.declared.plan.Step.TheVariants.{Dropped};
ghost use Rattle.fix_session.specs.declared.plan.Why.TheVariants as why;

use fix_fields::{one_fault, one_list, some_reading};
use fix_frame::stream_laws;

/// Law call (docs/ARCHITECTURE.md): over every list of calls, what was taken and then what is ready is what the heard
/// frames spell, and the expected number and the era are those of the chain.
pub fn taken_then_ready()
    ensures accepted { (r : Reader) (restarted : Bool) (ids : CompIds) (events : List Event) → (run r events (begin restarted ids)).taken ++ (run r events (begin restarted ids)).session.ready ≡ accepted (run r events (begin restarted ids)).heard }
    ensures era { (r : Reader) (restarted : Bool) (ids : CompIds) (events : List Event) → era_of (run r events (begin restarted ids)).session.past ≡ era_after (run r events (begin restarted ids)).heard }
    ensures next_incoming { (r : Reader) (restarted : Bool) (ids : CompIds) (events : List Event) → (run r events (begin restarted ids)).session.line.next_incoming ≡ next_incoming_after (run r events (begin restarted ids)).heard }
{}

/// Law call (docs/ARCHITECTURE.md): whatever is heard, the eras of the accepted messages, and within an era their
/// numbers, rise: each message once.
pub fn numbers_rise()
    ensures { (heard : List Heard) → Rises 1 1 (accepted heard) }
{}

/// Law call (docs/ARCHITECTURE.md): a frame asks for a new era exactly where it is a Logon with ResetSeqNumFlag as the
/// rule requires, and not both sides still have their first number to give. A step that hears such a frame begins an
/// era, but none past the thousandth.
pub fn new_eras()
    ensures asked { (f : Frame) (next_incoming entries heartbeat : ℕ) → era_asked f next_incoming entries ≡ Some heartbeat → IsReset f heartbeat × ((next_incoming ≡ 1) × (entries ≡ 0) → ⊥) }
    ensures asks { (f : Frame) (next_incoming entries heartbeat : ℕ) → IsReset f heartbeat → ((next_incoming ≡ 1) × (entries ≡ 0) → ⊥) → era_asked f next_incoming entries ≡ Some heartbeat }
    ensures begins { (r : Reader) (s : State) (t heartbeat : ℕ) (found : List ℕ × List ℕ) → s.line.up ≡ true → (r.front s.unread).found ≡ Some found → era_asked (frame_in r s.ids found.0) s.line.next_incoming (length s.entries) ≡ Some heartbeat → length s.past < 999
        → EraBegins s (step r s t).0 (step r s t).1 (max s.line.moment t) (kind_in found.0) (frame_in r s.ids found.0) heartbeat }
    ensures ends { (r : Reader) (s : State) (t heartbeat : ℕ) (found : List ℕ × List ℕ) → s.line.up ≡ true → (r.front s.unread).found ≡ Some found → era_asked (frame_in r s.ids found.0) s.line.next_incoming (length s.entries) ≡ Some heartbeat → 999 ≤ length s.past → length s.entries ≤ last_number
        → NoEraBegins s (step r s t).0 (step r s t).1 }
{}

/// Law call (docs/ARCHITECTURE.md): a restarted session that has accepted no number refuses a Logon above 1 without
/// ResetSeqNumFlag. It refuses nothing else so, and a session that was not restarted never does. Any number of such
/// tries moves no number. A Logon at 1 is accepted by both.
pub fn old_numbers_refused()
    ensures refused { (r : Reader) (s : State) (t : ℕ) (h : HearsOldLogon r s) → length s.entries < last_number → StaysRefused s (step r s t).0 (step r s t).1 (max s.line.moment t) (kind_in h.found.0) (frame_in r s.ids h.found.0) }
    ensures cause { (r : Reader) (s : State) (t : ℕ) → (step r s t).1 ≡ Dropped why.NumbersRestarted → HearsOldLogon r s }
    ensures tick { (s : State) (t : ℕ) → (tick s t).1 ≢ Dropped why.NumbersRestarted }
    ensures lasts { (r : Reader) (restarted : Bool) (ids : CompIds) (events : List Event) → (run r events (begin restarted ids)).session.line.restarted ≡ restarted }
    ensures never { (r : Reader) (ids : CompIds) (events : List Event) (t : ℕ) → (step r (run r events (begin false ids)).session t).1 ≢ Dropped why.NumbersRestarted }
    ensures tries { (r : Reader) (h : History) (tries : List Try) → h.session.line.restarted ≡ true → h.session.line.next_incoming ≡ 1 → length h.session.entries < last_number → AreOldTries r h.session.ids tries → IsUnmoved h.session (run r (calls_of tries) h).session }
    ensures accepted { (r : Reader) (s : State) (t heartbeat : ℕ) (reset : Option Bool) (found : List ℕ × List ℕ) → AwaitsFirst s → (r.front s.unread).found ≡ Some found → IsLogon (frame_in r s.ids found.0) 1 heartbeat reset → counts reset (frame_in r s.ids found.0).possible_duplicate 1 (length s.entries) ≡ true → length s.entries < last_number
        → IsAccepted s (step r s t).0 (step r s t).1 (max s.line.moment t) (kind_in found.0) (frame_in r s.ids found.0) heartbeat reset }
{}

/// Law call (docs/ARCHITECTURE.md): over every list of calls, the application messages that were numbered, era after
/// era, are the replies that were sent, in order, across disconnects and new eras.
pub fn replies_in_order()
    ensures { (r : Reader) (restarted : Bool) (ids : CompIds) (events : List Event) → numbered (run r events (begin restarted ids)).session ≡ replies r (begin restarted ids) events }
{}

/// Law call (docs/ARCHITECTURE.md): only a send numbers an application message, after those numbered before it. Every
/// other call leaves them as they are, across new eras.
pub fn sends_alone_number()
    ensures step { (r : Reader) (s : State) (t : ℕ) → numbered (step r s t).0 ≡ numbered s }
    ensures tick { (s : State) (t : ℕ) → numbered (tick s t).0 ≡ numbered s }
    ensures push { (r : Reader) (s : State) (piece : List ℕ) → numbered (pushed r s piece) ≡ numbered s }
    ensures break_line { (s : State) → numbered (broken s) ≡ numbered s }
    ensures resume { (s : State) (t : ℕ) → numbered (resumed s t) ≡ numbered s }
    ensures ready { (s : State) (ready : List Item) → numbered (record s { ready = ready }) ≡ numbered s }
    ensures take_wire { (s : State) → numbered (record s { wire = [] }) ≡ numbered s }
    ensures send { (s : State) (app : App) (t : ℕ) → numbered (sent s app t) ≡ numbered s ++ app ∷ [] }
{}

/// Law call (docs/ARCHITECTURE.md): a step returns Idle only where no frame is unread or the line is down.
pub fn idle_at_the_end()
    ensures { (r : Reader) (s : State) (t : ℕ) → AtEnd r (step r s t).0 (step r s t).1 }
{}

/// Law call (docs/ARCHITECTURE.md): a step or a tick returns App(n) exactly where the ready list grew by item n of the
/// era.
pub fn ready_grows()
    ensures step { (r : Reader) (s : State) (t : ℕ) → Grows (era_of s.past) s.ready (step r s t).0.ready (step r s t).1 }
    ensures tick { (s : State) (t : ℕ) → Grows (era_of s.past) s.ready (tick s t).0.ready (tick s t).1 }
{}

/// Law call (docs/ARCHITECTURE.md): a step that did something leaves fewer bytes unread.
pub fn steps_shorten()
    ensures { (r : Reader) (s : State) (t : ℕ) → Shortens (step r s t).1 (length s.unread) (length (step r s t).0.unread) }
{}

/// Law call (docs/ARCHITECTURE.md): over every list of calls, what was heard since the last resume are the first of the
/// frames of all bytes pushed since then.
pub fn first_frames_heard()
    ensures heard { (r : Reader) (restarted : Bool) (ids : CompIds) (events : List Event) → frames_since [] (run r events (begin restarted ids)).heard ≡ map (frame_in r ids) (run r events (begin restarted ids)).bodies }
    ensures first { (r : Reader) (restarted : Bool) (ids : CompIds) (events : List Event) → AreFirst (run r events (begin restarted ids)).bodies (run r events (begin restarted ids)).stream }
{
    stream_laws();
}

/// Law call (docs/ARCHITECTURE.md): the same of each connection. Over every list of calls, what was heard is,
/// connection by connection, what the bodies heard on it spell, and those are the first of the frames of its bytes.
pub fn each_connection_heard()
    ensures heard { (r : Reader) (restarted : Bool) (ids : CompIds) (events : List Event) → by_connection [] (run r events (begin restarted ids)).heard ≡ map (decoded r ids) (connections r (begin restarted ids) events) }
    ensures first { (r : Reader) (restarted : Bool) (ids : CompIds) (events : List Event) → AreEachFirst (connections r (begin restarted ids) events) }
{
    stream_laws();
}

/// Law call (docs/ARCHITECTURE.md): there is a reader, so that what holds for every reader holds of one; and all
/// readers agree.
pub fn one_reader()
    ensures some { Reader }
    ensures front { (r other : Reader) (s : List ℕ) → r.front s ≡ other.front s }
    ensures fields { (r other : Reader) (body : List ℕ) → r.fields body ≡ other.fields body }
{
    stream_laws();
    some_reading();
    one_list();
    one_fault();
}
