//! The end of a connection: what its peer still sends is passed over, so that what was written arrives.
ghost use Rattle.std.specs.Prelude.{◌≡◌, ◌≤◌, ℕ, List, length};
ghost use Rattle.std.specs.Io.KnownBytes.{Consumes};

use crate::connection::Connection;
use gateway::line::Read as Answer;
use gateway::piece::READ_SIZE;
use std::io::{Read, Write};
use std::thread;
use std::time::{Clock, Duration};

/// The greatest count of looks at a peer of which nothing has come, and the pause after each, in milliseconds: half a
/// second in all.
const MAX_LOOKS: u64 = 100;

const LOOK_PAUSE: u64 = 5;

/// The greatest count of reads, each of at most 256 bytes: 16 MiB, more than a system holds for one socket.
const MAX_READS: u64 = 65_536;

/// Passes over what still comes, until the peer ends too, for 16 MiB and half a second at most. The count of bytes
/// passed over. (A socket that is dropped with bytes unread resets the connection and loses what is under way.)
pub(crate) fn pass_over<I: Read, O: Write, T: Clock>(
    clock: &T,
    connection: &mut Connection<I, O>,
) -> u64
    ensures bounded { result ≤ 16777216 }
    ensures coming { (bytes : List ℕ) × Consumes connection.old.coming connection.new.coming bytes × (length bytes ≡ result) }
    ensures written { (connection.new.taken ≡ connection.old.taken) × (connection.new.waiting ≡ connection.old.waiting) }
{
    let mut passed_over: u64 = 0;
    let mut looks = 0;
    let mut buffer = [0; READ_SIZE];
    for read in 0..MAX_READS {
        match connection.read(&mut buffer) {
            Answer::Got { count } => passed_over += count as u64,
            Answer::Quiet => {
                if looks >= MAX_LOOKS {
                    return passed_over;
                }
                looks += 1;
                thread::sleep(clock, Duration::from_millis(LOOK_PAUSE));
            }
            Answer::Ended | Answer::Fault => return passed_over,
        }
    }
    passed_over
}
