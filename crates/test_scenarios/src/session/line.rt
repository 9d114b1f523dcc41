//! The lines of a transcript.

use crate::emitting::{emit_again, emit_once};
use crate::lines::Part;
use crate::refusals::Refusals;
use crate::session::running::{answer_to, new_session, restarted_session};
use crate::texts::{times_in, write_again};
use anyhow::Result;
use fix_session::Session;
use std::alloc::Global;
use std::mem;

// The names of both sides, where a line begins a new session.
fn names_in(line: &str) -> Option<(&str, &str)> {
    if line.starts_with('#') {
        return Some(("SEF", "ALPHA"));
    }
    line.strip_prefix("new ")?.split_once(' ')
}

// The names of both sides, where a line begins a restarted session.
fn restarted_in(line: &str) -> Option<(&str, &str)> {
    line.strip_prefix("restarted ")?.split_once(' ')
}

// Makes the call of a line, and appends what the session answers.
fn answer(
    alloc: Global,
    session: &mut Session,
    line: &str,
    emitted: &mut Vec<u8>,
    refusals: &mut Refusals,
) -> Result<()> {
    if line.is_empty() {
        return Ok(());
    }
    if let Some((own, peer)) = names_in(line) {
        drop(mem::replace(session, new_session(alloc, own, peer)?));
        return Ok(());
    }
    if let Some((own, peer)) = restarted_in(line) {
        drop(mem::replace(session, restarted_session(alloc, own, peer)?));
        return Ok(());
    }
    let answer = answer_to(alloc, session, line, refusals)?;
    let is_emitted = emit_again(alloc, &answer, emitted, refusals);
    drop(answer);
    is_emitted
}

impl Part for Session {
    fn begin(alloc: Global) -> Result<Session> {
        new_session(alloc, "SEF", "ALPHA")
    }

    // Of equal answers in succession, one is appended.
    fn run_line(
        &mut self,
        alloc: Global,
        line: &str,
        emitted: &mut Vec<u8>,
        refusals: &mut Refusals,
    ) -> Result<()> {
        write_again("", line, emitted, refusals)?;
        let start = emitted.len();
        let (times, call) = times_in(line);
        for _ in 0..times {
            let last = emitted.len();
            answer(alloc, self, call, emitted, refusals)?;
            emit_once(emitted, start, last);
        }
        Ok(())
    }
}
