//! Lines of billings and reversals for one book: each line's answer, or the name of its refusal.

ghost use Rattle.std.specs.Prelude.{◌≡◌, ◌+◌, ◌≤◌, IsTrue, IsErrOf, OnOk};
ghost use Rattle.read_and_replay.specs.Lines.{output_of};
ghost use Rattle.program_io.specs.Serving.{RefusesNoSettings, Serves, StopsSoundly};
ghost use Rattle.program_io.specs.Stops.{IsUnread};

use crate::answers::answers;
use payer_book::HashKeys;
use program_io::{MOST_CALLS, ProgramFault, Sink, Source, read_all, write_output};
use std::alloc::Global;

/// Answers the lines of `source` from one empty book, and writes a line for each to `sink`.
///
/// A line is `number text`: a number of 1 to 18 digits that is not zero, one space, and a request in printed bytes.
/// Empty lines and lines that begin with `#` are skipped. Its line of output is the number without leading zeros and
/// the answer in printed bytes, or the number, `refused` and the refusal's name. The book is that of payer 1. Its maps hash
/// with these keys.
///
/// # Errors
/// `Read`, then `Line` of the first line that is no entry, before anything is written; then `Write`.
/// `OutOfMemory` may stand in place of any answer, and then nothing was written.
pub fn read_claims<S: Source, K: Sink>(
    alloc: Global,
    keys: &HashKeys,
    source: &mut S,
    sink: &mut K,
) -> Result<(), ProgramFault>
    // Exactly the lines that the book's answers give were written, or a line or a write is at fault.
    ensures serves { Serves output_of result (S.remaining source.old) K.contents sink.old sink.new }
    // An input is refused only for what is bad in it, and a write fails only where nothing is.
    ensures stops { StopsSoundly output_of result (S.remaining source.old) }
    // A call of the source failed, or the input is too long.
    ensures read { IsErrOf result ProgramFault.Read → IsUnread (S.has_failed source.new) (S.remaining source.old) }
    // What was written is flushed.
    ensures flushed { OnOk result (IsTrue (K.is_flushed sink.new)) }
    ensures same_reference { K.loan sink.new ≡ K.loan sink.old }
    // A call of the sink failed.
    ensures write { IsErrOf result ProgramFault.Write → IsTrue (K.has_failed sink.new) }
    // There are no settings that could be refused.
    ensures faults { RefusesNoSettings result }
    ensures calls { S.calls source.new ≤ S.calls source.old + MOST_CALLS }
{
    let input = read_all(alloc, source)?;
    let output = answers(alloc, keys, input)?;
    write_output(sink, output.as_slice())
}
