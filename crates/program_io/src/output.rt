//! Writing a finished output.

ghost use Rattle.std.specs.Prelude.{◌≡◌, IfErr, IsTrue, OnOk, OnErr};
ghost use Rattle.std.specs.Io.KnownBytes.{Appends};
ghost use Rattle.program_io.specs.Stops.{AppendsSome};

use crate::fault::ProgramFault;
use crate::sink::Sink;

/// Writes a finished output, in as many calls as the sink wants, and flushes it.
///
/// # Errors
/// `Write` where a call of the sink failed; what was written until then is a beginning of the bytes.
pub fn write_output<K: Sink>(sink: &mut K, bytes: &[u8]) -> Result<(), ProgramFault>
    ensures all { OnOk result (Appends (K.contents sink.old) (K.contents sink.new) bytes.now) }
    ensures front { OnErr result (AppendsSome (K.contents sink.old) (K.contents sink.new) bytes.now) }
    ensures flushed { OnOk result (IsTrue (K.is_flushed sink.new)) }
    ensures same_reference { K.loan sink.new ≡ K.loan sink.old }
    ensures faults { IfErr result (λ fault. fault ≡ ProgramFault.Write) }
    ensures failed { OnErr result (IsTrue (K.has_failed sink.new)) }
{
    let mut written = 0;
    while written < bytes.len() {
        let rest = &bytes[written..];
        let count = match sink.write(rest) {
            Ok(count) => count,
            Err(_) => return Err(ProgramFault::Write),
        };
        written += count;
    }
    match sink.flush() {
        Ok(()) => Ok(()),
        Err(_) => Err(ProgramFault::Write),
    }
}
