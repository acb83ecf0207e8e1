//! The whole input, read before anything is done with it.

ghost use Rattle.std.specs.Prelude.{◌≡◌, ◌+◌, ◌≤◌, ◌⊎◌, IfOk, IfErr, IfSome, IsErrOf, vec_len};
ghost use Rattle.std.specs.Io.KnownBytes.{ReadConsumes};
ghost use Rattle.program_io.specs.Stops.{IsUnread};

use crate::fault::ProgramFault;
use crate::source::Source;
use std::alloc::{AllocError, Global};

/// The most bytes of an input (own): 16 MiB.
pub const MOST_INPUT: usize = 16_777_216;
/// The most calls of a source: a byte each, one byte too many, and one that says that no more comes.
pub const MOST_CALLS: u64 = 16_777_218;
/// How many bytes are asked for in a call.
const CHUNK: usize = 65_536;

/// All bytes that the source gives.
///
/// # Errors
/// `Read` where a call failed, or where there are more than 16,777,216 bytes; `OutOfMemory`.
pub fn read_all<S: Source>(alloc: Global, source: &mut S) -> Result<Vec<u8>, ProgramFault>
    ensures all { IfOk result (λ input. IfSome (S.remaining source.old) (λ bytes. input.items ≡ bytes)) }
    ensures fits { IfOk result (λ input. vec_len input ≤ MOST_INPUT) }
    ensures fault { IsErrOf result ProgramFault.Read → IsUnread (S.has_failed source.new) (S.remaining source.old) }
    ensures faults { IfErr result (λ fault. (fault ≡ ProgramFault.Read) ⊎ (fault ≡ ProgramFault.OutOfMemory)) }
    ensures calls { S.calls source.new ≤ S.calls source.old + MOST_CALLS }
{
    let mut chunk = room(alloc)?;
    let mut input = Vec::new(alloc);
    for _ in 0..MOST_CALLS {
        let count = match source.read(chunk.as_mut_slice()) {
            Ok(count) => count,
            Err(_) => return Err(ProgramFault::Read),
        };
        if count == 0 {
            return Ok(input);
        }
        if input.len() + count > MOST_INPUT {
            return Err(ProgramFault::Read);
        }
        input.extend_from_slice(&chunk.as_slice()[..count])?;
    }
    Err(ProgramFault::Read)
}

/// Room for the bytes of one call.
fn room(alloc: Global) -> Result<Vec<u8>, AllocError>
    ensures { IfOk result (λ chunk. vec_len chunk ≡ CHUNK) }
{
    vec![in alloc; 0u8; CHUNK]
}
