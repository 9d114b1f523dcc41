//! What a read gave, for contracts alone.
ghost use Rattle.std.specs.Prelude.{◌≡◌};
ghost use Rattle.gateway.specs.Said.{given};

use crate::line::Read;
use crate::piece::{Given, Piece, READ_SIZE};

/// What a read gave, by its answer and what the buffer has afterwards.
pub fn given_of(answer: Read, buffer: &[u8; READ_SIZE]) -> Given
    ensures { result ≡ given answer buffer.now }
{
    match answer {
        Read::Got { count } => Given::Got {
            piece: Piece::front(buffer, count),
        },
        Read::Quiet => Given::Quiet,
        Read::Ended => Given::Ended,
        Read::Fault => Given::Fault,
    }
}
