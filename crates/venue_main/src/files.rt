//! The files on the command line.

ghost use Rattle.std.specs.Prelude.{◌≡◌, ◌≤◌, length, IfOk, IfSome};

use crate::once::OnceFault;
use crate::refused::Refused;
use audit_trail::{FileText, Files};
use std::alloc::Global;
use std::fs;
use std::io::{self, Error, ErrorKind, Read};

/// The greatest size of a file, in bytes.
const MAX_FILE_SIZE: u64 = 1_048_576;

/// The paths of the two files.
#[derive(Drop)]
pub struct Paths {
    pub participants: String,
    pub instruments: String,
}

/// The bytes of the two files.
#[derive(Drop)]
pub struct Texts {
    pub participants: Vec<u8>,
    pub instruments: Vec<u8>,
}

impl Texts {
    /// The files to store with a trail.
    pub fn into_files(self) -> Files
        ensures { result ≡ record { participants = self.participants.items; instruments = self.instruments.items } }
    {
        let Texts {
            participants,
            instruments,
        } = self;
        Files {
            participants: FileText::from_vec(participants),
            instruments: FileText::from_vec(instruments),
        }
    }
}

/// The bytes of both files. `Input`, with the file and the cause, where one of them cannot be read, or has more than
/// 1,048,576 bytes.
pub fn texts_at(rt: &HostRuntime, paths: &Paths) -> Result<Texts, Refused> {
    let participants = text_at(rt, &paths.participants)?;
    let instruments = text_at(rt, &paths.instruments)?;
    Ok(Texts {
        participants,
        instruments,
    })
}

fn text_at(rt: &HostRuntime, path: &str) -> Result<Vec<u8>, Refused> {
    let read = match fs::open(rt, path) {
        Ok(file) => text_of(rt.alloc(), file),
        Err(error) => Err(error),
    };
    match read {
        Ok(text) => Ok(text),
        Err(error) => Err(Refused::of_file(rt.alloc(), path, &error)),
    }
}

/// All bytes of a reader. An error where a read fails, or where there are more than 1,048,576 bytes.
pub fn text_of<R: Read + Drop>(alloc: Global, reader: R) -> io::Result<Vec<u8>>
    ensures whole { IfOk result (λ text. IfSome (R.remaining reader) (λ bytes. text.items ≡ bytes)) }
    ensures short { IfOk result (λ text. length text.items ≤ 1_048_576) }
{
    let mut text = Vec::new(alloc);
    match reader.take(MAX_FILE_SIZE + 1).read_to_end(&mut text) {
        Ok(_) => {}
        Err(error) => return Err(error),
    }
    if text.len() as u64 > MAX_FILE_SIZE {
        return Err(Error::new(ErrorKind::FileTooLarge, "more than 1048576 bytes"));
    }
    Ok(text)
}

/// The fault of an input that cannot be read.
pub fn fault_of(error: &Error) -> OnceFault {
    match error.kind() {
        ErrorKind::OutOfMemory => OnceFault::Memory,
        _ => OnceFault::Input,
    }
}
