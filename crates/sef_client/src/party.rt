//! The state of a counterparty: its connection, the expected number, and the messages received.

ghost use Rattle.std.specs.Prelude.{◌≡◌, ◌≤◌, ◌<◌, [], IfSome};
ghost use Rattle.sef_client.specs.Heard.{Grows};

use crate::frames::CompIds;
use crate::heard::{Heard, is_application};
use crate::outgoing::Outgoing;
use fix_dictionary::{
    Admin, App, Body, FixInt, Heartbeat, HeartbeatInterval, Logon, Logout, Message, ResendRequest,
    SequenceNumber, SequenceReset, TestRequest,
};
use sef_moment::Moment;
use std::alloc::{AllocError, Global};

/// The heartbeat interval (108) of a Logon, in seconds.
const INTERVAL: u32 = 30;

/// The state of a counterparty's connection.
#[derive(Clone, Copy, PartialEq, Eq)]
pub(crate) enum Link {
    /// There is no connection.
    Down,
    /// A connection is asked for.
    Calling,
    /// There is a connection, and no Logon was sent.
    Open,
    /// Our Logon waits for its answer.
    Greeting,
    LoggedOn,
    /// Our Logout waits for its answer.
    Leaving,
    /// What waits is written, and then the connection is dropped.
    Closing,
}

#[derive(Drop)]
pub(crate) struct Party {
    link: Link,
    /// The next number expected of the venue.
    due: u32,
    /// The number from which the venue was last asked for a resend, on this connection; outstanding until that number
    /// is past.
    asked_at: u32,
    outgoing: Outgoing,
    pub(crate) heard: Heard,
    ghost due_within: { (1 ≤ due) × (due ≤ 1000000000) },
}

impl Party {
    /// A counterparty without a connection, which has received nothing.
    pub(crate) fn new(alloc: Global, ids: CompIds) -> Party
        ensures heard { result.heard ≡ [] }
    {
        Party {
            link: Link::Down,
            due: 1,
            asked_at: 0,
            outgoing: Outgoing::new(alloc, ids),
            heard: Heard::new(alloc),
        }
    }

    pub(crate) fn link(&self) -> Link
        ensures { result ≡ self.now.link }
    {
        self.link
    }

    pub(crate) fn heard(&self) -> &Heard
        ensures { result.now ≡ self.now.heard }
    {
        &self.heard
    }

    pub(crate) fn into_heard(self) -> Heard
        ensures { result ≡ self.heard }
    {
        self.heard
    }

    pub(crate) fn waiting(&self) -> &[u8] {
        self.outgoing.waiting()
    }

    /// What waited was written.
    pub(crate) fn wrote(&mut self)
        ensures heard { self.new.heard ≡ self.old.heard }
    {
        self.outgoing.clear();
    }

    /// A connection is asked for.
    pub(crate) fn call(&mut self)
        ensures heard { self.new.heard ≡ self.old.heard }
    {
        self.link = Link::Calling;
    }

    /// There is a new connection.
    pub(crate) fn connected(&mut self)
        ensures heard { self.new.heard ≡ self.old.heard }
    {
        self.link = Link::Open;
    }

    /// Drops the connection, and what was not written on it. The numbers go on.
    pub(crate) fn give_up(&mut self)
        ensures heard { self.new.heard ≡ self.old.heard }
        ensures due { self.new.due ≡ self.old.due }
    {
        self.link = Link::Down;
        self.asked_at = 0;
        self.outgoing.clear();
    }

    /// Sends a Logon, and waits for its answer.
    pub(crate) fn log_on(&mut self, t: Moment) -> Result<(), AllocError>
        ensures heard { self.new.heard ≡ self.old.heard }
    {
        let logon = Admin::Logon(Logon {
            heartbeat_interval: HeartbeatInterval::new(INTERVAL),
            reset: None,
        });
        self.outgoing.send_admin(&logon, t)?;
        self.link = Link::Greeting;
        Ok(())
    }

    /// Sends a Logout, and waits for its answer.
    pub(crate) fn log_out(&mut self, t: Moment) -> Result<(), AllocError>
        ensures heard { self.new.heard ≡ self.old.heard }
    {
        self.send_logout(t)?;
        self.link = Link::Leaving;
        Ok(())
    }

    fn send_logout(&mut self, t: Moment) -> Result<(), AllocError>
        ensures heard { self.new.heard ≡ self.old.heard }
        ensures due { self.new.due ≡ self.old.due }
    {
        self.outgoing
            .send_admin(&Admin::Logout(Logout { text: None }), t)
    }

    /// Sends an application message. Without a Logon it is numbered and stored, and the venue will ask for it.
    pub(crate) fn send(&mut self, app: &App, t: Moment) -> Result<(), AllocError>
        ensures heard { self.new.heard ≡ self.old.heard }
    {
        let is_written = self.link == Link::LoggedOn;
        self.outgoing.send_app(app, t, is_written)
    }

    /// Receives a message. One with other CompIDs is ignored.
    pub(crate) fn receive(&mut self, message: Message, t: Moment) -> Result<(), AllocError>
        ensures heard { Grows self.old.heard self.new.heard }
    {
        if !self.outgoing.is_to_us(&message.header) {
            return Ok(());
        }
        let number = number_of(&message);
        if is_application(&message) {
            return self.receive_app(number, message, t);
        }
        if let Body::Admin(admin) = &message.body {
            self.receive_admin(number, admin, t)?;
        }
        self.heard.push(message)
    }

    // Receives an application message with the expected number. A duplicate is ignored, and for a higher number the
    // messages before it are asked for.
    fn receive_app(
        &mut self,
        number: SequenceNumber,
        message: Message,
        t: Moment,
    ) -> Result<(), AllocError>
        ensures heard { Grows self.old.heard self.new.heard }
    {
        if number.get() == self.due {
            self.heard.push(message)?;
            self.due += 1;
            return Ok(());
        }
        self.ask_before(number, t)
    }

    // Receives a session message. One below the expected number is ignored, but for a SequenceReset that is no gap
    // fill.
    fn receive_admin(
        &mut self,
        number: SequenceNumber,
        admin: &Admin,
        t: Moment,
    ) -> Result<(), AllocError>
        ensures heard { self.new.heard ≡ self.old.heard }
    {
        if let Some(new) = reset_of(admin) {
            self.due = self.due.max(new);
            return Ok(());
        }
        if number.get() < self.due {
            return Ok(());
        }
        let is_due = number.get() == self.due;
        self.answer(admin, is_due, t)?;
        if is_due {
            self.due = number_after(number, admin);
            return Ok(());
        }
        self.ask_before(number, t)
    }

    // Does what a session message asks for: a Logon, a Logout and a ResendRequest are answered with a higher number
    // too.
    fn answer(&mut self, admin: &Admin, is_due: bool, t: Moment) -> Result<(), AllocError>
        ensures heard { self.new.heard ≡ self.old.heard }
        ensures due { self.new.due ≡ self.old.due }
    {
        match admin {
            Admin::Logon(_) => {
                self.greeted();
                Ok(())
            }
            Admin::TestRequest(test) => self.answer_test(test, is_due, t),
            Admin::ResendRequest(asked) => self.outgoing.send_again(*asked, t),
            Admin::Logout(_) => self.part(t),
            Admin::Heartbeat(_) => Ok(()),
            Admin::Reject(_) => Ok(()),
            Admin::SequenceReset(_) => Ok(()),
        }
    }

    // Our Logon was answered.
    fn greeted(&mut self)
        ensures heard { self.new.heard ≡ self.old.heard }
        ensures due { self.new.due ≡ self.old.due }
    {
        if self.link == Link::Greeting {
            self.link = Link::LoggedOn;
        }
    }

    fn answer_test(&mut self, test: &TestRequest, is_due: bool, t: Moment) -> Result<(), AllocError>
        ensures heard { self.new.heard ≡ self.old.heard }
        ensures due { self.new.due ≡ self.old.due }
    {
        if !is_due {
            return Ok(());
        }
        let heartbeat = Admin::Heartbeat(Heartbeat {
            test_id: Some(test.test_id),
        });
        self.outgoing.send_admin(&heartbeat, t)
    }

    // The venue's Logout: the answer to ours drops the connection, another is answered first.
    fn part(&mut self, t: Moment) -> Result<(), AllocError>
        ensures heard { self.new.heard ≡ self.old.heard }
        ensures due { self.new.due ≡ self.old.due }
    {
        if self.link == Link::Leaving {
            self.give_up();
            return Ok(());
        }
        self.send_logout(t)?;
        self.link = Link::Closing;
        Ok(())
    }

    // Asks for the messages from the expected number on, where this number is higher and no such request is
    // outstanding.
    fn ask_before(&mut self, number: SequenceNumber, t: Moment) -> Result<(), AllocError>
        ensures heard { self.new.heard ≡ self.old.heard }
    {
        let stands = self.asked_at >= self.due;
        if number.get() <= self.due || stands || self.link != Link::LoggedOn {
            return Ok(());
        }
        let begin = SequenceNumber::new(self.due);
        let request = ResendRequest::new(begin, FixInt::new(0));
        self.outgoing.send_admin(&Admin::ResendRequest(request), t)?;
        self.asked_at = number.get();
        Ok(())
    }
}

fn number_of(message: &Message) -> SequenceNumber
    ensures { result ≡ message.now.header.number }
{
    message.header.number
}

// The number that a SequenceReset without a gap fill sets, whatever was expected.
fn reset_of(admin: &Admin) -> Option<u32>
    ensures { IfSome result (λ new. new ≤ 1000000000) }
{
    match admin {
        Admin::SequenceReset(
            SequenceReset {
                gap_fill,
                new_number,
            },
        ) => match gap_fill {
            Some(true) => None,
            _ => Some(new_number.get()),
        },
        _ => None,
    }
}

// The number expected after a session message with the expected number.
fn number_after(number: SequenceNumber, admin: &Admin) -> u32
    ensures behind { number < result }
    ensures within { result ≤ 1000000000 }
{
    let next = number.get() + 1;
    match admin {
        Admin::SequenceReset(reset) => next.max(reset.new_number.get()),
        _ => next,
    }
}
