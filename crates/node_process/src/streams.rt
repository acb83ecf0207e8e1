//! The input and the output of a process. Each call is noted with its answer.

ghost use Rattle.std.specs.Prelude.{◌≡◌, ◌≤◌, ◌<◌, ◌∷◌, length, take, is_ok, IfOk, OnErr};
ghost use Rattle.std.specs.Io.KnownBytes.{IsAtEnd};
ghost use Rattle.node_process.specs.Acts.{Say, Hear, Unheard};
ghost use Rattle.node_process.specs.Noting.{acts_of};

use crate::kinds::{HEARD, SAID};
use call_notes::Noted;
use std::io;
use std::io::{Read, Write};

/// Writes all bytes, and has them leave.
pub(crate) fn say<O: Write>(output: &mut O, noted: &mut Noted, bytes: &[u8]) -> io::Result<()>
    ensures { acts_of noted.new.notes ≡ Say bytes.now (is_ok result) ∷ acts_of noted.old.notes }
{
    let answer = written(output, bytes);
    noted.answered(SAID, 0, bytes, answer)
}

/// Reads some bytes; none where the input has ended.
pub(crate) fn hear<I: Read>(
    input: &mut I,
    noted: &mut Noted,
    buffer: &mut [u8],
) -> io::Result<usize>
    requires { 0 < length buffer.old }
    ensures bound { IfOk result (λ count. count ≤ length buffer.old) }
    ensures heard { IfOk result (λ count. acts_of noted.new.notes ≡ Hear (take count buffer.new) ∷ acts_of noted.old.notes) }
    ensures ended { IfOk result (λ count. count ≡ 0 → IsAtEnd (I.remaining input.new)) }
    ensures failed { OnErr result (acts_of noted.new.notes ≡ Unheard ∷ acts_of noted.old.notes) }
{
    match input.read(buffer) {
        Ok(count) => {
            noted.note(&[HEARD, 1, 0], &buffer[..count]);
            Ok(count)
        }
        Err(error) => {
            noted.note(&[HEARD, 0, 0], &[]);
            Err(error)
        }
    }
}

fn written<O: Write>(output: &mut O, bytes: &[u8]) -> io::Result<()> {
    output.write_all(bytes)?;
    output.flush()
}
