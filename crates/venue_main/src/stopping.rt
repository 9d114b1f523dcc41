//! What stops a served venue.

use crate::serve::ServeFault;
use std::alloc::Global;
use std::fs;
use std::io::{self, ErrorKind, Read};
use std::mem::drop;
use std::rt::Files;
use std::sync::Arc;
use std::sync::atomic::{AtomicU64, Ordering};
use std::thread::{self, Threads};
use std::time::{Clock, Duration};
use tcp_line::StopSource;

/// The pause before an input that had nothing yet is read again, in milliseconds.
const PAUSE_MS: u64 = 100;

/// Whether an input has ended.
#[derive(Drop)]
pub struct InputEnd {
    ended: AtomicU64,
}

impl InputEnd {
    fn new() -> InputEnd {
        InputEnd {
            ended: AtomicU64::new(0),
        }
    }

    fn note(&self) {
        self.ended.store(1, Ordering::SeqCst);
    }

    fn has_come(&self) -> bool {
        self.ended.load(Ordering::SeqCst) != 0
    }
}

/// Stops a venue once a file exists, or an input has ended.
#[derive(Drop)]
pub struct StopWatch<R: Drop> {
    rt: R,
    file: Option<String>,
    input: Option<Arc<InputEnd>>,
}

impl<R: Files + Drop> StopWatch<R> {
    pub fn new(rt: R, file: Option<String>, input: Option<Arc<InputEnd>>) -> StopWatch<R> {
        StopWatch { rt, file, input }
    }

    fn has_file(&self) -> bool {
        match &self.file {
            None => false,
            Some(path) => fs::exists(&self.rt, path.as_str()).unwrap_or(false),
        }
    }

    fn has_ended(&self) -> bool {
        match &self.input {
            None => false,
            Some(input) => input.has_come(),
        }
    }
}

impl<R: Files + Drop> StopSource for StopWatch<R> {
    fn is_asked(&mut self) -> bool {
        self.has_ended() || self.has_file()
    }
}

/// Reads an input to its end, where that is asked for, in a thread of its own. It is not joined: as the program ends it
/// may be in a read.
pub fn watch_input<R: Threads, T: Clock + Send + Drop + 'static, I: Read + Send + Drop + 'static>(
    rt: &R,
    alloc: Global,
    clock: T,
    input: I,
) -> Result<Arc<InputEnd>, ServeFault> {
    let Ok(end) = Arc::new(alloc, InputEnd::new()) else {
        return Err(ServeFault::Memory);
    };
    let Ok(noted) = Arc::try_clone(&end) else {
        return Err(ServeFault::Memory);
    };
    match thread::spawn(rt, move || read_out(input, &clock, &*noted)) {
        Ok(handle) => {
            drop(handle);
            Ok(end)
        }
        Err(refused) => {
            drop(refused);
            Err(ServeFault::Thread)
        }
    }
}

fn read_out<T: Clock, I: Read + Drop>(input: I, clock: &T, end: &InputEnd) {
    let mut input = input;
    let mut buffer = [0; 4_096];
    for _ in 0..u64::MAX {
        let read = input.read(&mut buffer);
        if is_end(&read) {
            break;
        }
        if read.is_err() {
            thread::sleep(clock, Duration::from_millis(PAUSE_MS));
        }
    }
    end.note();
}

/// An input has ended where it gives nothing, or fails other than for now.
fn is_end(read: &io::Result<usize>) -> bool {
    match read {
        Ok(count) => *count == 0,
        Err(error) => match error.kind() {
            ErrorKind::Interrupted => false,
            ErrorKind::WouldBlock => false,
            _ => true,
        },
    }
}
