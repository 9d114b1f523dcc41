//! A counterparty's script.

ghost use Rattle.std.specs.Prelude.{◌≡◌, ◌≤◌, ◌+◌, true, Err, All, IfOk, MatchResult, length};
ghost use Rattle.sef_client.specs.Heard.{AreAwaited, IsAwaited, applications};
ghost use Rattle.sef_client.specs.Emitted.{Faulted, Unfaulted};
ghost use Rattle.sef_client.specs.declared.fault.ClientFault.TheVariants as fault;

use crate::exchange::exchange;
use crate::fault::{ClientFault, Stop};
use crate::frames::CompIds;
use crate::heard::Heard;
use crate::party::{Link, Party};
use fix_dictionary::{App, Identifier};
use fix_frame::Cutter;
use gateway::line::Line;
use sef_moment::Moment;
use std::alloc::{AllocError, Global};
use std::sync::Wait;
use venue_worker::Clock;

/// A step of a script.
#[derive(Drop)]
pub enum ScriptStep {
    /// Asks for a connection, sends a Logon, and waits for the venue's. Where the connection ends before, it does so
    /// again.
    Logon,
    /// Sends the message. Without a Logon it is numbered and stored, and sent as the venue asks for it.
    Send(App),
    /// Waits until this many application messages were received since the start of the script.
    Await(usize),
    /// Drops the connection; the numbers go on.
    Break,
    /// Sends a Logout, and waits for the venue's or for the end of the connection.
    Logout,
}

/// A scripted counterparty of a venue, for tests: its own CompID, that of the venue, and its steps.
#[derive(Drop)]
pub struct Script {
    pub own: Identifier,
    pub peer: Identifier,
    pub steps: Vec<ScriptStep>,
}

impl Script {
    /// A script of the counterparty `own`, for the venue `peer`, with these steps.
    pub fn new(own: Identifier, peer: Identifier, steps: Vec<ScriptStep>) -> Script {
        Script { own, peer, steps }
    }

    /// Runs the steps in order over a line, and gives the messages received. A turn asks the clock, tries the next
    /// step, writes what waits and reads once; so it may wait where the line does. As a session does, it answers a
    /// TestRequest and a ResendRequest, and asks for messages that it lost.
    ///
    /// `Turns`: the given turns are over, and a step is not done. `LineFault`: the line reported a fault.
    pub fn run<R: Wait, L: Line, C: Clock>(
        &self,
        rt: &R,
        alloc: Global,
        line: &mut L,
        clock: &mut C,
        turns: u64,
    ) -> Result<Heard, ClientFault>
        ensures awaited { IfOk result (λ heard. All (IsAwaited (applications heard)) self.now.steps.items) }
        ensures emitted { MatchResult result (λ _. Unfaulted (L.said line.old) (L.said line.new)) (Faulted (L.said line.old) (L.said line.new)) }
        ensures moments { length (C.answered clock.new) ≤ length (C.answered clock.old) + turns }
        ensures turns { result ≡ Err fault.Turns → length (C.answered clock.new) ≡ length (C.answered clock.old) + turns }
    {
        let ids = CompIds {
            own: self.own,
            peer: self.peer,
        };
        let mut party = Party::new(alloc, ids);
        let mut incoming = Cutter::new(alloc);
        let mut done = 0;
        for _ in 0..turns {
            let t = clock.now();
            match steps_done(&mut party, &self.steps, done, t) {
                Ok(more) => done = more,
                Err(_) => return Err(ClientFault::NoMemory),
            }
            match exchange(rt, alloc, line, &mut incoming, &mut party, t) {
                Ok(()) => {}
                Err(Stop::LineFault) => return Err(ClientFault::LineFault),
                Err(Stop::NoMemory) => return Err(ClientFault::NoMemory),
            }
            if done >= self.steps.len() {
                return Ok(party.into_heard());
            }
        }
        Err(ClientFault::Turns)
    }
}

// Tries the next step, if there is one, and gives the count of steps done.
fn steps_done(
    party: &mut Party,
    steps: &[ScriptStep],
    done: usize,
    t: Moment,
) -> Result<usize, AllocError>
    requires within { done ≤ length steps.now }
    requires awaited { AreAwaited (applications party.old.heard) done steps.now }
    ensures within { IfOk result (λ more. more ≤ length steps.now) }
    ensures awaited { IfOk result (λ more. AreAwaited (applications party.old.heard) more steps.now) }
    ensures heard { party.new.heard ≡ party.old.heard }
{
    if done >= steps.len() {
        return Ok(done);
    }
    if is_done(party, &steps[done], t)? {
        return Ok(done + 1);
    }
    Ok(done)
}

// Does what a step needs now, and says whether that completed it.
fn is_done(party: &mut Party, step: &ScriptStep, t: Moment) -> Result<bool, AllocError>
    ensures awaited { IfOk result (λ done. done ≡ true → IsAwaited (applications party.old.heard) step.now) }
    ensures heard { party.new.heard ≡ party.old.heard }
{
    match step {
        ScriptStep::Logon => is_logged_on(party, t),
        ScriptStep::Send(app) => {
            party.send(app, t)?;
            Ok(true)
        }
        ScriptStep::Await(count) => Ok(party.heard().applications() >= *count),
        ScriptStep::Break => {
            party.give_up();
            Ok(true)
        }
        ScriptStep::Logout => is_logged_out(party, t),
    }
}

fn is_logged_on(party: &mut Party, t: Moment) -> Result<bool, AllocError>
    ensures { party.new.heard ≡ party.old.heard }
{
    match party.link() {
        Link::Down => party.call(),
        Link::Open => party.log_on(t)?,
        Link::LoggedOn => return Ok(true),
        Link::Calling | Link::Greeting | Link::Leaving | Link::Closing => {}
    }
    Ok(false)
}

fn is_logged_out(party: &mut Party, t: Moment) -> Result<bool, AllocError>
    ensures { party.new.heard ≡ party.old.heard }
{
    match party.link() {
        Link::LoggedOn => {
            party.log_out(t)?;
            Ok(false)
        }
        Link::Leaving => Ok(false),
        Link::Down | Link::Calling | Link::Open | Link::Greeting | Link::Closing => Ok(true),
    }
}
