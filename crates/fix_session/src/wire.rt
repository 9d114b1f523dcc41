//! The frames queued for the counterparty.

ghost use Rattle.std.specs.Prelude.{◌≡◌, ◌≤◌, ◌+◌, [], ◌++◌, OnOk, OnErr, length, drop, take};
ghost use Rattle.fix_fields.specs.Fields.{Appends};
ghost use Rattle.fix_dictionary.specs.Lent.{lent_body, lent_header};
ghost use Rattle.fix_dictionary.specs.Values.{IsSequenceNumber};
ghost use Rattle.resend_store.specs.Resent.{resent_by};
ghost use Rattle.fix_session.specs.Sent as sent;
ghost use Rattle.fix_session.specs.Table.{before, count};

use crate::comp_ids::CompIds;
use crate::frame::Content;
use crate::messages::{admin_of, gap_fill, header};
use crate::plan::{AdminReplies, AdminReply, Plan};
use fix_dictionary::{App, BodyRef, HeaderRef, ResendRequest, SequenceNumber};
use fix_encoder::print_parts;
use fix_frame::write_frame;
use resend_store::{Resend, Store};
use sef_moment::Moment;
use std::alloc::{AllocError, Global};
use std::marker::Model;
use std::mem;

/// The queued frames, seen as their bytes, and the text of the last one, whose memory the next one reuses.
#[derive(Drop)]
pub(crate) struct Wire {
    frames: Vec<u8>,
    text: Vec<u8>,
}

impl Model for Wire {
    ghost use Rattle.std.specs.Prelude.{ℕ, List};

    ghost Value = { List ℕ };

    ghost view = { λ w. w.frames.items };
}

impl Wire {
    pub(crate) fn new(alloc: Global) -> Wire
        ensures { result ≡ [] }
    {
        Wire {
            frames: Vec::new(alloc),
            text: Vec::new(alloc),
        }
    }

    pub(crate) fn len(&self) -> usize
        ensures { result ≡ length self.now }
    {
        self.frames.len()
    }

    /// The bytes queued after the first `len`.
    pub(crate) fn since(&self, len: usize) -> &[u8]
        requires { len ≤ length self.now }
        ensures { result.now ≡ drop len self.now }
    {
        &self.frames[len..]
    }

    pub(crate) fn truncate(&mut self, len: usize)
        ensures { self.new ≡ take len self.old }
    {
        self.frames.truncate(len);
    }

    pub(crate) fn clear(&mut self)
        ensures { self.new ≡ [] }
    {
        self.frames.clear();
    }

    pub(crate) fn all(&self) -> &[u8]
        ensures { result.now ≡ self.now }
    {
        &self.frames
    }

    /// Takes the queued frames, each once.
    pub(crate) fn take(&mut self, alloc: Global) -> Vec<u8>
        ensures taken { result.items ≡ self.old }
        ensures left { self.new ≡ [] }
    {
        mem::replace(&mut self.frames, Vec::new(alloc))
    }

    // Appends the frame of a message.
    #[tactic(auto, unfolding(crate::specs::Sent::framed))]
    fn append(&mut self, header: &HeaderRef, body: BodyRef) -> Result<(), AllocError>
        ensures { Appends self.old self.new (sent.framed (record { header = lent_header header.now; body = lent_body body.entry })) result }
    {
        self.text.clear();
        print_parts(header, body, &mut self.text)?;
        // A message is never too long to be written.
        match write_frame(&self.text, &mut self.frames) {
            Ok(()) => Ok(()),
            Err(_) => Err(AllocError),
        }
    }
}

/// The writer, the moment, and what is answered: the type that a frame states, and its content.
#[derive(Clone, Copy)]
pub(crate) struct Occasion<'i, 'k, 'c> {
    pub ids: &'i CompIds,
    pub t: Moment,
    pub kind: &'k [u8],
    pub content: &'c Content,
}

// Appends the frame of a reply, as first sent.
#[tactic(auto, unfolding(crate::specs::Sent::admin_reply_frame))]
fn append_admin_reply(
    alloc: Global,
    on: &Occasion,
    number: u32,
    admin_reply: AdminReply,
    wire: &mut Wire,
) -> Result<(), AllocError>
    requires { IsSequenceNumber number }
    ensures { Appends wire.old wire.new (sent.admin_reply_frame on.now.ids.now on.now.t on.now.kind.now on.now.content.now number admin_reply) result }
{
    let admin = admin_of(alloc, on.kind, on.content, admin_reply)?;
    let header = header(on.ids, SequenceNumber::new(number), on.t, None);
    wire.append(&header, BodyRef::Admin(&admin))
}

// Appends the frame of a resent message: a repeat under its old number, with the moment at which it was first sent, or
// a gap fill.
#[tactic(auto, unfolding(crate::specs::Sent::again_frame))]
fn append_resend(
    ids: &CompIds,
    t: Moment,
    resend: &Resend,
    wire: &mut Wire,
) -> Result<(), AllocError>
    ensures { Appends wire.old wire.new (sent.again_frame ids.now t (resent_by resend.now)) result }
{
    match resend {
        Resend::Repeat {
            number,
            app,
            first_sent,
        } => {
            let header = header(ids, *number, t, Some(*first_sent));
            wire.append(&header, BodyRef::App(app))
        }
        Resend::GapFill { number, new } => {
            let header = header(ids, *number, t, Some(t));
            wire.append(&header, BodyRef::Admin(&gap_fill(*new)))
        }
    }
}

// Appends the resends of a request.
fn append_again(
    ids: &CompIds,
    t: Moment,
    store: &Store,
    again: Option<ResendRequest>,
    wire: &mut Wire,
) -> Result<(), AllocError>
    ensures { Appends wire.old wire.new (sent.asked_frames ids.now t store.now.entries again) result }
{
    let Some(asked) = again else {
        return Ok(());
    };
    let mut resends = store.resends(asked.begin(), asked.end().get());
    while let Some(resend) = resends.next() {
        append_resend(ids, t, &resend, wire)?;
    }
    Ok(())
}

// Appends the frames of new session messages, from this number on.
fn append_admin_replies(
    alloc: Global,
    on: &Occasion,
    number: u32,
    admin_replies: AdminReplies,
    wire: &mut Wire,
) -> Result<(), AllocError>
    requires first { 1 ≤ number }
    requires last { number + count admin_replies ≤ 1000000000 }
    ensures { Appends wire.old wire.new (sent.sends_frames on.now.ids.now on.now.t on.now.kind.now on.now.content.now number admin_replies) result }
{
    match admin_replies {
        AdminReplies::Nothing => Ok(()),
        AdminReplies::One { message } => append_admin_reply(alloc, on, number, message, wire),
        AdminReplies::Two { first, second } => {
            append_admin_reply(alloc, on, number, first, wire)?;
            append_admin_reply(alloc, on, number + 1, second, wire)
        }
        AdminReplies::Unspent { message } => append_admin_reply(alloc, on, number, message, wire),
    }
}

// Appends what a plan writes: in a new era its messages from number 1 on; else the requested resends, then the new
// messages under the next numbers.
#[tactic(auto, unfolding(crate::specs::Sent::written))]
fn append_plan(
    alloc: Global,
    on: &Occasion,
    store: &Store,
    plan: &Plan,
    wire: &mut Wire,
) -> Result<(), AllocError>
    requires { before plan.now.begins (length store.now.entries) + count plan.now.admin_replies ≤ 999999999 }
    ensures { Appends wire.old wire.new (sent.written on.now.ids.now store.now.entries on.now.t on.now.kind.now on.now.content.now plan.now) result }
{
    if plan.begins {
        return append_admin_replies(alloc, on, 1, plan.admin_replies, wire);
    }
    append_again(on.ids, on.t, store, plan.again, wire)?;
    append_admin_replies(alloc, on, store.next_number(), plan.admin_replies, wire)
}

// The result of a call; where it failed, what it queued after the first `len` bytes is truncated.
fn taken_back(wire: &mut Wire, len: usize, done: Result<(), AllocError>) -> Result<(), AllocError>
    ensures result { result ≡ done }
    ensures ok { OnOk done (wire.new ≡ wire.old) }
    ensures err { OnErr done (wire.new ≡ take len wire.old) }
{
    if done.is_err() {
        wire.truncate(len);
    }
    done
}

/// Queues what a plan writes, or nothing.
pub(crate) fn write_plan(
    alloc: Global,
    on: &Occasion,
    store: &Store,
    plan: &Plan,
    wire: &mut Wire,
) -> Result<(), AllocError>
    requires { before plan.now.begins (length store.now.entries) + count plan.now.admin_replies ≤ 999999999 }
    ensures ok { OnOk result (wire.new ≡ wire.old ++ sent.written on.now.ids.now store.now.entries on.now.t on.now.kind.now on.now.content.now plan.now) }
    ensures err { OnErr result (wire.new ≡ wire.old) }
{
    let len = wire.len();
    let done = append_plan(alloc, on, store, plan, wire);
    taken_back(wire, len, done)
}

// Appends the frame of a session message, as first sent, that answers no frame.
fn append_alone(
    alloc: Global,
    ids: &CompIds,
    t: Moment,
    number: u32,
    admin_reply: AdminReply,
    wire: &mut Wire,
) -> Result<(), AllocError>
    requires { IsSequenceNumber number }
    ensures { Appends wire.old wire.new (sent.admin_reply_frame ids.now t [] Content.Heartbeat number admin_reply) result }
{
    let content = Content::Heartbeat;
    let on = Occasion {
        ids,
        t,
        kind: &[],
        content: &content,
    };
    append_admin_reply(alloc, &on, number, admin_reply, wire)
}

/// Queues the frame of a session message, as first sent, that answers no frame; or nothing.
pub(crate) fn write_admin_reply(
    alloc: Global,
    ids: &CompIds,
    t: Moment,
    number: u32,
    admin_reply: AdminReply,
    wire: &mut Wire,
) -> Result<(), AllocError>
    requires { IsSequenceNumber number }
    ensures ok { OnOk result (wire.new ≡ wire.old ++ sent.admin_reply_frame ids.now t [] Content.Heartbeat number admin_reply) }
    ensures err { OnErr result (wire.new ≡ wire.old) }
{
    let len = wire.len();
    let done = append_alone(alloc, ids, t, number, admin_reply, wire);
    taken_back(wire, len, done)
}

/// Queues the frame of an application message, as first sent, or nothing.
pub(crate) fn write_app(
    ids: &CompIds,
    t: Moment,
    number: u32,
    app: &App,
    wire: &mut Wire,
) -> Result<(), AllocError>
    requires { IsSequenceNumber number }
    ensures ok { OnOk result (wire.new ≡ wire.old ++ sent.framed (sent.app_message ids.now number t app.now)) }
    ensures err { OnErr result (wire.new ≡ wire.old) }
{
    let header = header(ids, SequenceNumber::new(number), t, None);
    let len = wire.len();
    let done = wire.append(&header, BodyRef::App(app));
    taken_back(wire, len, done)
}
