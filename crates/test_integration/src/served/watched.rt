//! A line of the venue that is watched: it signals each application message that was written on it, and ends on a
//! signal.
ghost use Rattle.std.specs.Prelude.{◌≡◌, []};
ghost use Rattle.gateway.specs.Said.{IsWithin};

use super::signal::Signal;
use gateway::line::{Accept, Line, LineFault, Read};
use gateway::mem_line::LineEvent;
use gateway::piece::READ_SIZE;
use gateway::read_outcome::given_of;
use ghost_history::GhostHistory;
use std::sync::Wait;
use tcp_line::LineLog;

// Whether a type of one character is a session's.
fn is_of_the_session(kind: u8) -> bool {
    match kind {
        b'0'..=b'5' => true,
        b'A' => true,
        _ => false,
    }
}

// Whether these bytes begin with the end of a field and the type of an application message.
fn begin_with_type(bytes: &[u8]) -> bool {
    match bytes {
        [1, b'3', b'5', b'=', kind, end, ..] => *end != 1 || !is_of_the_session(*kind),
        _ => false,
    }
}

// Signals each application message among these bytes.
fn emit(bytes: &[u8], emitted: &Signal) {
    for at in 0..bytes.len() {
        if begin_with_type(&bytes[at..]) {
            emitted.give();
        }
    }
}

/// A line over another one.
#[derive(Drop)]
pub struct WatchedLine<'a, L> {
    line: L,
    /// An application message was written.
    emitted: &'a Signal,
    /// The line is over.
    over: &'a Signal,
    log: LineLog,
}

impl<'a, L: Line + Drop> WatchedLine<'a, L> {
    pub fn new(line: L, emitted: &'a Signal, over: &'a Signal) -> WatchedLine<'a, L>
        ensures { ⟦<WatchedLine<'a, L> as Line>⟧.said result ≡ [] }
    {
        WatchedLine {
            line,
            emitted,
            over,
            log: LineLog::new(),
        }
    }

    // The answer of the line below, while this one is not over.
    fn hear<R: Wait>(&mut self, rt: &R, buffer: &mut [u8; READ_SIZE]) -> Read
        ensures within { IsWithin result }
        ensures same { self.new.log ≡ self.old.log }
    {
        if self.over.is_given() {
            return Read::Ended;
        }
        self.line.read(rt, buffer)
    }
}

impl<'a, L: Line + Drop> Line for WatchedLine<'a, L> {
    ghost said = { λ l. l.log };

    fn accept<R: Wait>(&mut self, rt: &R) -> Accept {
        let answer = if self.over.is_given() {
            Accept::Over
        } else {
            self.line.accept(rt)
        };
        self.log.note(LineEvent::Accepted { answer });
        answer
    }

    fn read<R: Wait>(&mut self, rt: &R, buffer: &mut [u8; READ_SIZE]) -> Read {
        let answer = self.hear(rt, buffer);
        let given = given_of(answer, buffer);
        self.log.note(LineEvent::Gave { given });
        answer
    }

    fn write<R: Wait>(&mut self, rt: &R, bytes: &[u8]) -> Result<(), LineFault> {
        let past = GhostHistory::of(bytes);
        match self.line.write(rt, bytes) {
            Ok(()) => {
                emit(bytes, self.emitted);
                self.log.note(LineEvent::Took { bytes: past });
                Ok(())
            }
            Err(fault) => {
                self.log.note(LineEvent::BrokeOff { bytes: past });
                Err(fault)
            }
        }
    }

    fn faults(&self) -> u64 {
        self.log.faults()
    }

    fn leave(&mut self) {
        self.line.leave();
    }
}
