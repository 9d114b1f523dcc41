//! A file in memory that holds given bytes.

ghost use Rattle.std.specs.Prelude.{◌≡◌, IfOk, IsTrue};
ghost use Rattle.sqlite_disk.specs.Memory.{memory_bytes, memory_is_usable};

use sqlite_disk::{Disk, Memory};
use std::alloc::Global;
use std::io;

/// A file in memory with these bytes.
#[tactic(auto, using(crate::proofs::Copies::copy_is))]
pub fn memory_of(alloc: Global, bytes: &[u8]) -> io::Result<Memory>
    ensures bytes { IfOk result (λ file. memory_bytes file ≡ bytes.now) }
    ensures usable { IfOk result (λ file. IsTrue (memory_is_usable file)) }
{
    let mut file = Memory::new(alloc);
    if bytes.is_empty() {
        return Ok(file);
    }
    file.write_at(0, bytes)?;
    Ok(file)
}
