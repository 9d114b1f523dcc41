//! A line over one listener and at most one connection.
ghost use Rattle.std.specs.Prelude.{◌≡◌, ◌≢◌, ◌⊎◌, ◌^◌, ◌-◌, [], ◌∷◌, ◌++◌, false, None, Some, IfSome, IsOkAnd, IfOk, IfErr, MatchResult, min};
ghost use Rattle.gateway.specs.Said.{IsWithin, Accepted, Gave, Took, Broke_off, given, faults_in};
ghost use Rattle.tcp_line.specs.Link.{GivesAhead, HasFlushed, HasRead, IsHeard};

use crate::connection::{Arrival, Connection, READ_AHEAD};
use crate::dirty_flag::DirtyFlag;
use crate::draining::pass_over;
use crate::line_log::LineLog;
use gateway::line::{Accept, Line, LineFault, Read};
use gateway::mem_line::LineEvent;
use gateway::piece::READ_SIZE;
use gateway::read_outcome::given_of;
use ghost_history::GhostHistory;
use mio::unix::SourceFd;
use mio::{Interest, Registry, Token};
use std::alloc::Global;
use std::io;
use std::io::ErrorKind;
use std::net::{Shutdown, TcpListener, TcpStream};
use std::os::fd::AsRawFd;
use std::sync::{Arc, Wait};
use std::time::Clock;

/// The tokens of the two sockets in the poll of a session's thread.
const LISTENER_TOKEN: Token = Token(1);

const STREAM_TOKEN: Token = Token(2);

/// A line whose peer connects to a listener: one connection after another, and a new one ends the last.
pub struct TcpLine<T> {
    alloc: Global,
    clock: T,
    /// None once the port is closed.
    listener: Option<TcpListener>,
    /// The newcomer: the next connection, where it came while this one was up.
    next: Option<Connection<TcpStream, TcpStream>>,
    connection: Option<Connection<TcpStream, TcpStream>>,
    registry: Registry,
    activity: Arc<DirtyFlag>,
    log: LineLog,
}

// Written-out drop (docs/ARCHITECTURE.md).
impl<T: Drop> Drop for TcpLine<T> {
    fn drop(self) {
        let TcpLine {
            alloc: _alloc,
            clock: _clock,
            listener: _listener,
            next: _next,
            connection: _connection,
            registry: _registry,
            activity: _activity,
            log: _account,
        } = self;
    }
}

impl<T: Clock + Drop> TcpLine<T> {
    /// A line over this listener, which is made non-blocking. Both sockets are registered in the poll of the session's
    /// thread.
    pub fn new(
        alloc: Global,
        clock: T,
        listener: TcpListener,
        registry: Registry,
        activity: Arc<DirtyFlag>,
    ) -> io::Result<TcpLine<T>>
        ensures { IfOk result (λ line. ⟦<TcpLine<T> as Line>⟧.said line ≡ []) }
    {
        listener.set_nonblocking(true)?;
        let descriptor = listener.as_raw_fd();
        registry.register(
            &mut SourceFd(&descriptor),
            LISTENER_TOKEN,
            Interest::READABLE,
        )?;
        Ok(TcpLine {
            alloc,
            clock,
            listener: Some(listener),
            next: None,
            connection: None,
            registry,
            activity,
            log: LineLog::new(),
        })
    }

    /// Gives the system what still waits, ends the connection and drops it. Whether all that was written was taken.
    pub fn close(&mut self) -> bool
        ensures same { self.new.log ≡ self.old.log }
        ensures gone { self.new.connection ≡ None }
        ensures newcomer { self.new.next ≡ self.old.next }
    {
        self.finish().is_ok()
    }

    /// Gives the system what waits, and keeps the connection where it took that. Whether it did.
    pub(crate) fn give_waiting(&mut self) -> bool
        ensures same { self.new.log ≡ self.old.log }
    {
        let is_given = match &mut self.connection {
            None => false,
            Some(connection) => connection.flush(&self.clock).is_ok(),
        };
        if !is_given {
            drop(self.connection.take());
        }
        is_given
    }

    // Ends the connection, whoever ended the session: gives the system what waits, sends the end of the stream, and
    // passes over what still comes. The count of bytes passed over, or a fault of what waited.
    fn finish(&mut self) -> Result<u64, LineFault>
        ensures same { self.new.log ≡ self.old.log }
        ensures gone { self.new.connection ≡ None }
        ensures newcomer { self.new.next ≡ self.old.next }
    {
        let Some(mut connection) = self.connection.take() else {
            return Ok(0);
        };
        connection.flush(&self.clock)?;
        match connection.output().shutdown(Shutdown::Write) {
            Err(_) => Ok(0),
            Ok(()) => Ok(pass_over(&self.clock, &mut connection)),
        }
    }

    /// Gives the system what still waits, and ends the connection. The count of bytes passed over.
    pub(crate) fn end(&mut self) -> u64
        ensures same { self.new.log ≡ self.old.log }
        ensures gone { self.new.connection ≡ None }
        ensures newcomer { self.new.next ≡ self.old.next }
    {
        self.finish().unwrap_or(0)
    }

    /// Ends the connection, and closes the port.
    pub(crate) fn shut(&mut self) -> u64
        ensures same { self.new.log ≡ self.old.log }
        ensures gone { self.new.connection ≡ None }
    {
        let passed_over = self.end();
        self.next = None;
        self.listener = None;
        passed_over
    }

    /// Another connection that waits at the listener, while this one is up. One for which an allocation fails is
    /// dropped.
    pub(crate) fn take_second(&self) -> Option<Connection<TcpStream, TcpStream>> {
        let Ok(stream) = self.next_stream() else {
            return None;
        };
        self.prepare(stream).ok()
    }

    /// Has this connection be the newcomer.
    pub(crate) fn set_next(&mut self, connection: Connection<TcpStream, TcpStream>)
        ensures same { self.new.log ≡ self.old.log }
        ensures newcomer { self.new.next ≡ Some connection }
    {
        self.next = Some(connection);
    }

    /// Drops the newcomer. Whether there was one.
    pub(crate) fn drop_next(&mut self) -> bool
        ensures same { self.new.log ≡ self.old.log }
    {
        self.next.take().is_some()
    }

    /// What has come on the newcomer, where there is one. Its bytes are left to be read.
    pub(crate) fn look_at_next(&mut self) -> Option<Arrival>
        ensures same { self.new.log ≡ self.old.log }
        ensures heard { result ≡ Some Arrival.Bytes → IsHeard self.new.next }
        ensures none { self.old.next ≡ None → result ≡ None }
    {
        match &mut self.next {
            None => None,
            Some(connection) => Some(connection.arrival()),
        }
    }

    /// Whether bytes are held that were read ahead.
    pub(crate) fn is_ahead(&self) -> bool {
        match &self.connection {
            None => false,
            Some(connection) => connection.is_ahead(),
        }
    }

    /// The count of bytes that wait.
    pub(crate) fn waiting_len(&self) -> usize {
        match &self.connection {
            None => 0,
            Some(connection) => connection.waiting_len(),
        }
    }

    // The next connection that waits at the listener.
    fn next_stream(&self) -> io::Result<TcpStream> {
        match &self.listener {
            None => Err(io::Error::from(ErrorKind::WouldBlock)),
            Some(listener) => match listener.accept() {
                Ok((stream, _)) => Ok(stream),
                Err(error) => Err(error),
            },
        }
    }

    // Takes the newcomer, with what was read of it, or the next connection that waits at the listener.
    fn take_next(&mut self) -> io::Result<Connection<TcpStream, TcpStream>>
        ensures same { self.new.log ≡ self.old.log }
        ensures kept { self.new.connection ≡ self.old.connection }
        ensures newcomer { IfSome self.old.next (λ next. IsOkAnd result (λ taken. taken ≡ next)) }
    {
        if let Some(connection) = self.next.take() {
            return Ok(connection);
        }
        match self.next_stream() {
            Ok(stream) => self.prepare(stream),
            Err(error) => Err(error),
        }
    }

    // Takes the next connection.
    fn next_connection(&mut self) -> Accept
        ensures over { result ≢ Accept.Over }
        ensures same { self.new.log ≡ self.old.log }
        ensures kept { result ≢ Accept.Up → self.new.connection ≡ self.old.connection }
        ensures newcomer { IfSome self.old.next (λ next. (result ≡ Accept.Up) × (self.new.connection ≡ Some next)) }
    {
        match self.take_next() {
            Ok(connection) => {
                self.activity.begin();
                self.connection = Some(connection);
                if self.is_ahead() {
                    self.activity.set_read(true, false);
                }
                Accept::Up
            }
            Err(error) => match error.kind() {
                ErrorKind::WouldBlock => Accept::Quiet,
                ErrorKind::Interrupted => Accept::Quiet,
                ErrorKind::ConnectionAborted => Accept::Quiet,
                _ => Accept::Fault,
            },
        }
    }

    // Prepares a stream: non-blocking, without delay, registered in the poll of the session's thread.
    fn prepare(&self, stream: TcpStream) -> io::Result<Connection<TcpStream, TcpStream>> {
        stream.set_nodelay(true)?;
        stream.set_nonblocking(true)?;
        let descriptor = stream.as_raw_fd();
        self.registry.register(&mut SourceFd(&descriptor), STREAM_TOKEN, Interest::READABLE)?;
        let output = stream.try_clone()?;
        Connection::new(self.alloc, stream, output)
    }

    /// Ends the connection, if any, and takes the next.
    pub(crate) fn change(&mut self) -> Accept
        ensures over { result ≢ Accept.Over }
        ensures same { self.new.log ≡ self.old.log }
        ensures gone { result ≢ Accept.Up → self.new.connection ≡ None }
        ensures newcomer { IfSome self.old.next (λ next. (result ≡ Accept.Fault) ⊎ ((result ≡ Accept.Up) × (self.new.connection ≡ Some next))) }
    {
        if !self.close() {
            return Accept::Fault;
        }
        self.next_connection()
    }

    /// Reads once, and records the answer. A connection that reported a fault is dropped.
    pub(crate) fn receive(&mut self, buffer: &mut [u8; READ_SIZE]) -> Read
        ensures within { IsWithin result }
        ensures said { self.new.log ≡ self.old.log ++ Gave (given result buffer.new) ∷ [] }
        ensures gone { result ≡ Read.Fault → self.new.connection ≡ None }
        ensures newcomer { self.new.next ≡ self.old.next }
    {
        let answer = self.read_connection(buffer);
        let given = given_of(answer, buffer);
        self.log.note(LineEvent::Gave { given });
        answer
    }

    // Reads the connection once, and drops one that reported a fault.
    fn read_connection(&mut self, buffer: &mut [u8; READ_SIZE]) -> Read
        ensures within { IsWithin result }
        ensures same { self.new.log ≡ self.old.log }
        ensures gone { result ≡ Read.Fault → self.new.connection ≡ None }
        ensures newcomer { self.new.next ≡ self.old.next }
    {
        let answer = match &mut self.connection {
            None => Read::Fault,
            Some(connection) => receive_rest(connection, &self.clock, buffer),
        };
        self.note_read(answer);
        match answer {
            Read::Fault => self.connection = None,
            Read::Got { count: _ } | Read::Quiet | Read::Ended => {}
        }
        answer
    }

    // Records for the gate what a read left. (One that was quiet gave the system all that waited; one that gave bytes
    // may have more, or makes the session write.)
    fn note_read(&self, answer: Read) {
        match answer {
            Read::Got { count } => self.note_bytes(count),
            Read::Quiet => self.activity.clear(),
            Read::Ended | Read::Fault => self.activity.note(),
        }
    }

    // Records for the gate what a read of this many bytes left. (Where the system gave less than it was asked for, it
    // has no more, and reports what comes later.)
    fn note_bytes(&self, count: usize) {
        let held = match &self.connection {
            None => 0,
            Some(connection) => connection.ahead_len(),
        };
        let was_asked = !self.activity.is_ahead();
        if was_asked {
            self.activity.set_batch(held > 0);
        }
        let is_drained = was_asked && held == 0 && count < READ_AHEAD;
        self.activity.set_read(held > 0, is_drained);
    }

    /// Whether the connection took all of these. One that did not is dropped.
    pub(crate) fn has_taken(&mut self, bytes: &[u8]) -> bool
        ensures same { self.new.log ≡ self.old.log }
        ensures gone { result ≡ false → self.new.connection ≡ None }
    {
        let has_taken = match &mut self.connection {
            None => false,
            Some(connection) => connection.write(&self.clock, bytes).is_ok(),
        };
        if !has_taken {
            self.connection = None;
        }
        has_taken
    }
}

// Reads once. What waits is given to the system before it is asked to read, but only once all that was read ahead is
// given, so that one system call may carry the replies to all that another one read. A read that gave nothing has asked
// the system: so nothing waits after turns that read and got nothing, after which a thread goes to sleep. (A thread
// that may not read, since many messages are ready, sleeps until its waker or 100 ms.)
fn receive_rest<I: io::Read, O: io::Write, T: Clock>(
    connection: &mut Connection<I, O>,
    clock: &T,
    buffer: &mut [u8; READ_SIZE],
) -> Read
    ensures within { IsWithin result }
    ensures bytes { HasRead connection.old.coming connection.new.coming result buffer.new }
    ensures ahead { GivesAhead result connection.old.ahead connection.new.ahead buffer.new }
    ensures written { HasFlushed result connection.old connection.new }
{
    if connection.is_ahead() {
        return connection.read(buffer);
    }
    match connection.flush(clock) {
        Err(_) => Read::Fault,
        Ok(()) => connection.read(buffer),
    }
}

impl<T: Clock + Drop> Line for TcpLine<T> {
    ghost said = { λ l. l.log };

    fn accept<R: Wait>(&mut self, _rt: &R) -> Accept
        ensures over { result ≢ Accept.Over }
        ensures said { self.new.log ≡ self.old.log ++ Accepted result ∷ [] }
        ensures gone { result ≢ Accept.Up → self.new.connection ≡ None }
    {
        let answer = self.change();
        // (After a fault the listener is asked again once something comes, or after the longest wait.)
        match answer {
            Accept::Up | Accept::Over => self.activity.note(),
            Accept::Quiet | Accept::Fault => self.activity.clear(),
        }
        self.log.note(LineEvent::Accepted { answer });
        answer
    }

    fn read<R: Wait>(&mut self, _rt: &R, buffer: &mut [u8; READ_SIZE]) -> Read
        ensures within { IsWithin result }
        ensures said { self.new.log ≡ self.old.log ++ Gave (given result buffer.new) ∷ [] }
        ensures gone { result ≡ Read.Fault → self.new.connection ≡ None }
    {
        self.receive(buffer)
    }

    fn write<R: Wait>(&mut self, _rt: &R, bytes: &[u8]) -> Result<(), LineFault>
        ensures said { MatchResult result (λ _. self.new.log ≡ self.old.log ++ Took bytes.now ∷ []) (λ _. self.new.log ≡ self.old.log ++ Broke_off bytes.now ∷ []) }
        ensures gone { IfErr result (λ _. self.new.connection ≡ None) }
    {
        let past = GhostHistory::of(bytes);
        self.activity.note();
        if self.has_taken(bytes) {
            self.log.note(LineEvent::Took { bytes: past });
            return Ok(());
        }
        self.log.note(LineEvent::BrokeOff { bytes: past });
        Err(LineFault)
    }

    fn faults(&self) -> u64 {
        self.log.faults()
    }

    fn leave(&mut self) {
        let _ = self.shut();
    }
}
