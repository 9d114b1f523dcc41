//! Replies to an input: the check for slow consumers, their messages, and their queues.

ghost use Rattle.std.specs.Prelude.{◌≡◌, ◌+◌, ◌≤◌, ◌<◌, ℕ, List, false, length, slice_get, IfOk, OnOk};
ghost use Rattle.std.specs.VecDeque.{deque_len, deque_capacity};
ghost use Rattle.std.specs.List.{list_all};
ghost use Rattle.venue_rules.specs.declared.replies.Reply.{Reply};
ghost use Rattle.venue_engine.specs.Outbox.{HasCapacity, HaveCapacity, all_addressed, all_waits, at, enqueued, first_behind, fits, places_of, recipients, emitted, waits};

use fix_dictionary::BoxedApp;
use outbound_queue::{MAX_QUEUED, Outgoing, Queue, boxed_message};
use std::alloc::{AllocError, Global};
use std::collections::VecDeque;
use venue_rules::{Reply, Who};

/// A reply's message, with its participant.
#[derive(Drop)]
pub(crate) struct Addressed {
    pub to: Who,
    pub app: BoxedApp,
}

/// Whether this many further replies are within the limit for a participant.
fn fits_at(queues: &[Queue], to: Who, more: usize) -> bool
    ensures { result ≡ fits more (slice_get (all_waits queues.now) to) }
{
    let place = to.place() as usize;
    if place >= queues.len() {
        return true;
    }
    let queue = &queues[place];
    queue.is_cut || queue.waiting.len().saturating_add(more) <= MAX_QUEUED
}

/// The first participant that these replies would put behind. Where the total fits each recipient, none is counted.
pub(crate) fn first_behind(queues: &[Queue], replies: &[Reply]) -> Option<Who>
    requires { length queues.now ≤ 32 }
    ensures { result ≡ first_behind 0 replies.now (all_waits queues.now) }
{
    if all_fit(queues, replies) {
        return None;
    }
    first_counted(queues, replies)
}

/// Whether the total of these replies is within the limit for each of their recipients.
fn all_fit(queues: &[Queue], replies: &[Reply]) -> bool
    ensures { result ≡ list_all (λ (r : Reply). fits (length replies.now) (slice_get (all_waits queues.now) r.to)) replies.now }
{
    let more = replies.len();
    replies.iter().all(|reply| fits_at(queues, reply.to, more))
}

/// The first participant that these replies would put behind, by a count for each.
fn first_counted(queues: &[Queue], replies: &[Reply]) -> Option<Who>
    requires { length queues.now ≤ 32 }
    ensures { result ≡ first_behind 0 replies.now (all_waits queues.now) }
{
    for place in 0..queues.len() {
        let who = Who::of(place as u32);
        if queues[place].is_behind(who, replies) {
            return Some(who);
        }
    }
    None
}

/// The messages of replies, in order.
pub(crate) fn messages_of(
    alloc: Global,
    replies: &[Reply],
) -> Result<VecDeque<Addressed>, AllocError>
    ensures { IfOk result (λ made. made.items ≡ all_addressed replies.now) }
{
    let mut made = VecDeque::with_capacity(alloc, replies.len())?;
    for reply in replies {
        let app = boxed_message(alloc, reply)?;
        made.push_back(Addressed { to: reply.to, app })?;
    }
    Ok(made)
}

fn reserve_in(queue: &mut Queue, more: usize) -> Result<(), AllocError>
    ensures same { waits queue.new ≡ waits queue.old }
    ensures capacity { OnOk result (deque_len queue.new.waiting + more ≤ deque_capacity queue.new.waiting) }
{
    queue.reserve(more)
}

/// Reserves capacity for the total of these replies at each recipient, so that a recipient takes one allocation.
pub(crate) fn reserve_for(queues: &mut Vec<Queue>, replies: &[Reply]) -> Result<(), AllocError>
    ensures same { all_waits queues.new.items ≡ all_waits queues.old.items }
    ensures capacity { OnOk result (HaveCapacity (length replies.now) queues.new.items (recipients replies.now)) }
{
    let more = replies.len();
    for reply in replies {
        reserve_at(queues, reply.to, more)?;
    }
    Ok(())
}

fn reserve_at(queues: &mut Vec<Queue>, to: Who, more: usize) -> Result<(), AllocError>
    ensures same { all_waits queues.new.items ≡ all_waits queues.old.items }
    ensures capacity { OnOk result (HasCapacity more (slice_get queues.new.items to)) }
    ensures kept { OnOk result ((places : List ℕ) → HaveCapacity more queues.old.items places → HaveCapacity more queues.new.items places) }
{
    let place = to.place() as usize;
    if place < queues.len() {
        reserve_in(&mut queues[place], more)?;
    }
    Ok(())
}

/// Appends a message, unless the participant is cut.
fn append(queue: &mut Queue, app: BoxedApp)
    requires { queue.old.is_cut ≡ false → deque_len queue.old.waiting < deque_capacity queue.old.waiting }
    ensures emitted { waits queue.new ≡ emitted app (waits queue.old) }
    ensures capacity { deque_capacity queue.new.waiting ≡ deque_capacity queue.old.waiting }
    ensures len { deque_len queue.new.waiting ≤ deque_len queue.old.waiting + 1 }
{
    if !queue.is_cut {
        queue.waiting.push_back_reserved(Outgoing::Message(app));
    }
}

/// Queues the messages, each for its participant.
pub(crate) fn enqueue(queues: &mut Vec<Queue>, messages: VecDeque<Addressed>)
    requires { HaveCapacity (length messages.items) queues.old.items (places_of messages.items) }
    ensures { all_waits queues.new.items ≡ enqueued messages.items (all_waits queues.old.items) }
{
    let mut messages = messages;
    while let Some(message) = messages.pop_front() {
        append_at(queues, message);
    }
}

fn append_at(queues: &mut Vec<Queue>, message: Addressed)
    requires { (more : ℕ) × HasCapacity (more + 1) (slice_get queues.old.items message.to) }
    ensures emitted { all_waits queues.new.items ≡ at message.to (emitted message.app) (all_waits queues.old.items) }
    ensures kept { (more : ℕ) (places : List ℕ) → HaveCapacity (more + 1) queues.old.items places → HaveCapacity more queues.new.items places }
{
    let place = message.to.place() as usize;
    if place < queues.len() {
        append(&mut queues[place], message.app);
    }
}
