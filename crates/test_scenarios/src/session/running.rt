//! Calls that are made of a session.

use crate::moments::moment_after;
use crate::refusals::Refusals;
use crate::session::feeding::{Taken, feed};
use crate::texts::{app_in, bytes_in, identifier_in};
use anyhow::{Result, bail, ensure};
use fix_dictionary::Item;
use fix_session::{SendFault, Session, Step};
use std::alloc::{AllocError, Global};

/// What a session shows to its readers.
#[derive(Clone, Copy, PartialEq)]
pub struct Look {
    pub up: bool,
    pub ready: usize,
    /// The number of the first ready item.
    pub first: Option<u32>,
}

/// What a call gives.
#[derive(Drop)]
pub enum Answer {
    Nothing,
    Step(Step),
    Wire(Vec<u8>),
    Popped(Option<Item>),
    Look(Look),
    /// What a new session took of what came.
    Taken(Taken),
    /// The numbers are spent.
    Full,
}

fn look_at(session: &Session) -> Look {
    Look {
        up: session.is_up(),
        ready: session.ready_len(),
        first: session.front_ready().map(|item| item.number.get()),
    }
}

// Sends the message that follows its moment.
fn send(alloc: Global, session: &mut Session, text: &str) -> Result<Option<Answer>, AllocError> {
    let Some((after, message)) = text.split_once(' ') else {
        return Ok(None);
    };
    let Some(t) = moment_after(after) else {
        return Ok(None);
    };
    let Some(app) = app_in(alloc, message)? else {
        return Ok(None);
    };
    let sent = session.send(&app, t);
    drop(app);
    match sent {
        Ok(()) => Ok(Some(Answer::Nothing)),
        Err(SendFault::Full) => Ok(Some(Answer::Full)),
        Err(SendFault::NoMemory) => Err(AllocError),
    }
}

// The first ready item is taken out and put back.
fn unpop(session: &mut Session) {
    if let Some(item) = session.pop_ready() {
        session.unpop_ready(item);
    }
}

// What a new session takes of a text.
fn fed(alloc: Global, text: &str) -> Result<Answer, AllocError> {
    let bytes = bytes_in(alloc, text)?;
    match feed(alloc, &mut bytes.as_slice()) {
        Ok(taken) => Ok(Answer::Taken(taken)),
        Err(_) => Err(AllocError),
    }
}

// What a call at a moment gives, if it is one.
fn ask_at(session: &mut Session, word: &str, after: &str) -> Result<Option<Answer>, AllocError> {
    let Some(t) = moment_after(after) else {
        return Ok(None);
    };
    match word {
        "resume" => session.resume(t),
        "step" => return Ok(Some(Answer::Step(session.step(t)?))),
        "tick" => return Ok(Some(Answer::Step(session.tick(t)?))),
        _ => return Ok(None),
    }
    Ok(Some(Answer::Nothing))
}

// What the call of a line gives, if it is one.
fn ask(alloc: Global, session: &mut Session, line: &str) -> Result<Option<Answer>, AllocError> {
    let (word, rest) = line.split_once(' ').unwrap_or((line, ""));
    match word {
        "push" => session.push_bytes(&bytes_in(alloc, rest)?)?,
        "send" => return send(alloc, session, rest),
        "feed" => return Ok(Some(fed(alloc, rest)?)),
        "take" => return Ok(Some(Answer::Wire(session.take_wire()))),
        "pop" => return Ok(Some(Answer::Popped(session.pop_ready()))),
        "unpop" => unpop(session),
        "break" => session.break_line(),
        "look" => return Ok(Some(Answer::Look(look_at(session)))),
        _ => return ask_at(session, word, rest),
    }
    Ok(Some(Answer::Nothing))
}

/// The answer to the call of a line. A call that fails to allocate changes nothing that is seen, and is made again.
pub fn answer_to(
    alloc: Global,
    session: &mut Session,
    line: &str,
    refusals: &mut Refusals,
) -> Result<Answer> {
    let before = look_at(session);
    let answer = match ask(alloc, session, line) {
        Ok(answer) => answer,
        Err(AllocError) => {
            refusals.one_more()?;
            ensure!(
                look_at(session) == before,
                "a refused call changed the session"
            );
            ask(alloc, session, line)?
        }
    };
    match answer {
        Some(answer) => Ok(answer),
        None => bail!("no call: {line}"),
    }
}

/// A new session of one side with another.
pub fn new_session(alloc: Global, own: &str, peer: &str) -> Result<Session> {
    let own = identifier_in(own)?;
    let peer = identifier_in(peer)?;
    Ok(Session::new(alloc, &own, &peer)?)
}

/// A session whose messages an earlier process may have numbered.
pub fn restarted_session(alloc: Global, own: &str, peer: &str) -> Result<Session> {
    let own = identifier_in(own)?;
    let peer = identifier_in(peer)?;
    Ok(Session::restarted(alloc, &own, &peer)?)
}
