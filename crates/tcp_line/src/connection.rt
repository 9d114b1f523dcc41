//! One connection: bytes from a peer, read ahead in part, and bytes to it, which may wait briefly.
ghost use Rattle.std.specs.Prelude.{◌≡◌, ◌≢◌, [], ◌++◌, length, min, take, IfOk, MatchResult, false};
ghost use Rattle.std.specs.Io.Buffered.{reader_buffer, reader_remaining};
ghost use Rattle.std.specs.Io.KnownBytes.{Appends, Consumes, Keeps};
ghost use Rattle.tcp_line.specs.Link.{GivesAhead, HasRead, TookPart, promised, due, kept};
ghost use Rattle.gateway.specs.Said.{IsWithin};

use crate::giving::give;
use gateway::line::{LineFault, Read as Answer};
use gateway::piece::READ_SIZE;
use std::alloc::Global;
use std::io;
use std::io::{BufRead, BufReader, ErrorKind, Read, Write};
use std::marker::Model;
use std::time::Clock;

/// The greatest count of bytes that wait.
const MAX_WAITING: usize = 65_536;

/// The greatest count of bytes given at once: a message or two. A session goes through all that it was given before it
/// hands a message on, while the worker has nothing to do.
const MAX_GIVEN: usize = 256;

/// The count of bytes that the system is asked for: the capacity of std's `BufReader`.
pub(crate) const READ_AHEAD: usize = 8_192;

/// What has come on a connection that is not served yet.
#[derive(Clone, Copy)]
pub(crate) enum Arrival {
    Bytes,
    Nothing,
    /// The peer has ended it, or it is broken.
    Ended,
}

/// A connection between its input and its output. One system call reads what many turns are given. Written bytes may
/// wait, so that one call takes them with those written later.
pub struct Connection<I: Read, O: Write> {
    input: BufReader<I>,
    output: O,
    waiting: Vec<u8>,
}

// Written-out drop (docs/ARCHITECTURE.md).
impl<I: Read + Drop, O: Write + Drop> Drop for Connection<I, O> {
    fn drop(self) {
        let Connection {
            input: _input,
            output: _output,
            waiting: _waiting,
        } = self;
    }
}

impl<I: Read, O: Write> Model for Connection<I, O> {
    ghost use Rattle.std.specs.Io.Buffered.{reader_buffer, reader_remaining};
    ghost use Rattle.tcp_line.specs.Link.{Link};

    ghost Value = { Link };

    ghost view = { λ c. record { coming = reader_remaining I.remaining c.input; ahead = reader_buffer c.input; taken = O.contents c.output; waiting = c.waiting.items } };
}

impl<I: Read, O: Write> Connection<I, O> {
    /// A connection between these two; nothing was read ahead, and nothing waits. An error where the allocation for
    /// what is read ahead fails.
    pub fn new(alloc: Global, input: I, output: O) -> io::Result<Connection<I, O>>
    where
        I: Drop,
        O: Drop,
        ensures { IfOk result (λ connection. connection ≡ record { coming = I.remaining input; ahead = []; taken = O.contents output; waiting = [] }) }
    {
        let input = BufReader::new(alloc, input)?;
        Ok(Connection {
            input,
            output,
            waiting: Vec::new(alloc),
        })
    }

    /// Whether bytes are held that were read ahead.
    pub fn is_ahead(&self) -> bool
        ensures ahead { self.now.ahead ≡ [] → result ≡ false }
        ensures not_ahead { result ≡ false → self.now.ahead ≡ [] }
    {
        !self.input.buffer().is_empty()
    }

    /// What is written to.
    pub fn output(&self) -> &O {
        &self.output
    }

    /// The count of bytes that wait.
    pub fn waiting_len(&self) -> usize
        ensures { result ≡ length self.now.waiting }
    {
        self.waiting.len()
    }

    /// The count of bytes that are held and were read ahead.
    pub fn ahead_len(&self) -> usize
        ensures { result ≡ length self.now.ahead }
    {
        self.input.buffer().len()
    }

    /// Gives 1 to 256 bytes, and none only where none are held: the first of those read ahead; asks the system only
    /// where there are none. The peer has ended where the system says so and nothing is to come; a fault is any error
    /// of the system but that nothing has come yet.
    pub fn read(&mut self, buffer: &mut [u8; READ_SIZE]) -> Answer
        ensures within { IsWithin result }
        ensures bytes { HasRead self.old.coming self.new.coming result buffer.new }
        ensures ahead { GivesAhead result self.old.ahead self.new.ahead buffer.new }
        ensures written { (self.new.taken ≡ self.old.taken) × (self.new.waiting ≡ self.old.waiting) }
    {
        if self.is_ahead() {
            let count = self.give_ahead(buffer);
            return Answer::Got { count };
        }
        match self.input.read(&mut buffer[..MAX_GIVEN]) {
            Ok(count) if count > 0 => Answer::Got { count },
            // (A reader that gave nothing does not promise that it holds nothing.)
            _ if self.is_ahead() => Answer::Got {
                count: self.give_ahead(buffer),
            },
            Ok(_) => Answer::Ended,
            Err(error) => match error.kind() {
                ErrorKind::WouldBlock => Answer::Quiet,
                ErrorKind::Interrupted => Answer::Quiet,
                _ => Answer::Fault,
            },
        }
    }

    /// Looks whether bytes have come, and leaves them to be read.
    pub(crate) fn arrival(&mut self) -> Arrival
        ensures bytes { result ≡ Arrival.Bytes → self.new.ahead ≢ [] }
        ensures nothing { result ≢ Arrival.Bytes → self.new.ahead ≡ [] }
        ensures coming { Keeps self.old.coming self.new.coming }
        ensures written { (self.new.taken ≡ self.old.taken) × (self.new.waiting ≡ self.old.waiting) }
    {
        let has_ended = match self.input.fill_buf() {
            Ok(bytes) => bytes.is_empty(),
            Err(error) => match error.kind() {
                ErrorKind::WouldBlock => false,
                ErrorKind::Interrupted => false,
                _ => true,
            },
        };
        if self.is_ahead() {
            return Arrival::Bytes;
        }
        if has_ended {
            Arrival::Ended
        } else {
            Arrival::Nothing
        }
    }

    // Gives the first of the bytes read ahead, and their count.
    fn give_ahead(&mut self, buffer: &mut [u8; READ_SIZE]) -> usize
        ensures count { result ≡ min (length self.old.ahead) 256 }
        ensures ahead { self.old.ahead ≡ take result buffer.new ++ self.new.ahead }
        ensures coming { Consumes self.old.coming self.new.coming (take result buffer.new) }
        ensures written { (self.new.taken ≡ self.old.taken) × (self.new.waiting ≡ self.old.waiting) }
    {
        let ahead = self.input.buffer();
        let count = ahead.len().min(MAX_GIVEN);
        buffer[..count].copy_from_slice(&ahead[..count]);
        self.input.consume(count);
        count
    }

    /// Takes all bytes, which may wait, or a first part of them and of those that waited, and then reports a fault.
    /// What was read ahead stays.
    pub fn write<T: Clock>(&mut self, clock: &T, bytes: &[u8]) -> Result<(), LineFault>
        ensures bytes { MatchResult result (λ _. Appends (promised self.old) (promised self.new) bytes.now) (λ _. TookPart self.old.taken self.new.taken (due self.old bytes.now)) }
        ensures coming { self.new.coming ≡ self.old.coming }
        ensures ahead { self.new.ahead ≡ self.old.ahead }
    {
        if self.keep(bytes) {
            return Ok(());
        }
        match self.flush(clock) {
            Err(fault) => Err(fault),
            Ok(()) => self.pass(clock, bytes),
        }
    }

    // Queues these bytes after those that wait. False where they are too many, or an allocation fails.
    fn keep(&mut self, bytes: &[u8]) -> bool
        ensures { self.new ≡ kept result self.old bytes.now }
    {
        let count = self.waiting.len().saturating_add(bytes.len());
        count <= MAX_WAITING && self.waiting.extend_from_slice(bytes).is_ok()
    }

    // Gives these bytes to the system, after those that wait.
    fn pass<T: Clock>(&mut self, clock: &T, bytes: &[u8]) -> Result<(), LineFault>
        ensures bytes { MatchResult result (λ _. Appends self.old.taken self.new.taken bytes.now) (λ _. TookPart self.old.taken self.new.taken bytes.now) }
        ensures coming { self.new.coming ≡ self.old.coming }
        ensures ahead { self.new.ahead ≡ self.old.ahead }
        ensures waiting { self.new.waiting ≡ self.old.waiting }
    {
        give(clock, &mut self.output, bytes)
    }

    /// Gives the system all that waits, or a first part of it, and then reports a fault. What was read ahead stays.
    pub fn flush<T: Clock>(&mut self, clock: &T) -> Result<(), LineFault>
        ensures bytes { MatchResult result (λ _. Appends self.old.taken self.new.taken self.old.waiting × (self.new.waiting ≡ [])) (λ _. TookPart self.old.taken self.new.taken self.old.waiting) }
        ensures coming { self.new.coming ≡ self.old.coming }
        ensures ahead { self.new.ahead ≡ self.old.ahead }
    {
        if self.waiting.is_empty() {
            return Ok(());
        }
        give(clock, &mut self.output, &self.waiting)?;
        self.waiting.clear();
        Ok(())
    }
}
