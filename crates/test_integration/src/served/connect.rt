//! A client's connection over TCP.
ghost use Rattle.std.specs.Prelude.{◌≡◌, []};
ghost use Rattle.gateway.specs.Said.{IsWithin};

use super::cues::Day;
use super::pace::sleep_a_little;
use gateway::line::{Accept, Line, LineFault, Read};
use gateway::mem_line::LineEvent;
use gateway::piece::READ_SIZE;
use gateway::read_outcome::given_of;
use ghost_history::GhostHistory;
use std::alloc::Global;
use std::io;
use std::net::{Net, TcpListener, TcpStream};
use std::sync::Wait;
use std::time::Clock;
use tcp_line::{Connection, LineLog};

/// How often a line looks whether its message is still held back.
const MOST_LOOKS: u32 = 50_000;

/// A line that calls at a port of 127.0.0.1; its messages and its calls are held back as the day has it.
#[derive(Drop)]
pub struct ConnectLine<'a, N> {
    rt: N,
    alloc: Global,
    port: u16,
    connection: Option<Connection<TcpStream, TcpStream>>,
    day: &'a Day,
    /// It had a connection, and gave it up.
    has_broken: bool,
    log: LineLog,
}

impl<'a, N: Net<Listener = TcpListener, Stream = TcpStream> + Clock + Drop> ConnectLine<'a, N> {
    pub fn new(rt: N, alloc: Global, port: u16, day: &'a Day) -> ConnectLine<'a, N>
        ensures { ⟦<ConnectLine<'a, N> as Line>⟧.said result ≡ [] }
    {
        ConnectLine {
            rt,
            alloc,
            port,
            connection: None,
            day,
            has_broken: false,
            log: LineLog::new(),
        }
    }

    fn connect(&self) -> io::Result<Connection<TcpStream, TcpStream>> {
        let stream = TcpStream::connect(&self.rt, ("127.0.0.1", self.port))?;
        stream.set_nodelay(true)?;
        stream.set_nonblocking(true)?;
        let output = stream.try_clone()?;
        Connection::new(self.alloc, stream, output)
    }

    // Gives up the connection, if there is one, and signals that.
    fn give_up(&mut self)
        ensures { self.new.log ≡ self.old.log }
    {
        if self.connection.is_none() {
            return;
        }
        self.connection = None;
        self.has_broken = true;
        self.day.broken.give();
    }

    fn next_connection(&mut self) -> Accept
        ensures { self.new.log ≡ self.old.log }
    {
        self.give_up();
        if self.has_broken && !self.day.lets_call_again() {
            return Accept::Quiet;
        }
        match self.connect() {
            Ok(connection) => {
                self.connection = Some(connection);
                Accept::Up
            }
            Err(_) => Accept::Fault,
        }
    }

    fn hear(&mut self, buffer: &mut [u8; READ_SIZE]) -> Read
        ensures within { IsWithin result }
        ensures same { self.new.log ≡ self.old.log }
    {
        match &mut self.connection {
            None => Read::Fault,
            Some(connection) => connection.read(buffer),
        }
    }

    // Waits until nothing holds these back, but not for ever.
    fn wait(&self, bytes: &[u8]) {
        for _ in 0..MOST_LOOKS {
            if self.day.lets(bytes) {
                return;
            }
            sleep_a_little(&self.rt);
        }
    }

    fn give(&mut self, bytes: &[u8]) -> Result<(), LineFault>
        ensures { self.new.log ≡ self.old.log }
    {
        match &mut self.connection {
            None => Err(LineFault),
            Some(connection) => {
                connection.write(&self.rt, bytes)?;
                connection.flush(&self.rt)
            }
        }
    }
}

impl<'a, N: Net<Listener = TcpListener, Stream = TcpStream> + Clock + Drop> Line
    for ConnectLine<'a, N> {
    ghost said = { λ l. l.log };

    fn accept<R: Wait>(&mut self, _rt: &R) -> Accept {
        let answer = self.next_connection();
        self.log.note(LineEvent::Accepted { answer });
        answer
    }

    fn read<R: Wait>(&mut self, _rt: &R, buffer: &mut [u8; READ_SIZE]) -> Read {
        let answer = self.hear(buffer);
        let given = given_of(answer, buffer);
        self.log.note(LineEvent::Gave { given });
        answer
    }

    fn write<R: Wait>(&mut self, _rt: &R, bytes: &[u8]) -> Result<(), LineFault> {
        let past = GhostHistory::of(bytes);
        self.wait(bytes);
        match self.give(bytes) {
            Ok(()) => {
                self.log.note(LineEvent::Took { bytes: past });
                Ok(())
            }
            Err(fault) => {
                self.log.note(LineEvent::BrokeOff { bytes: past });
                Err(fault)
            }
        }
    }

    fn faults(&self) -> u64 {
        self.log.faults()
    }
}
