//! The lines of an input that spell something.

ghost use Rattle.std.specs.Prelude.{IfErr, IfOk, IfSome};
ghost use Rattle.message_words.specs.InputLines.{AccountsFor, left_in};
ghost use Rattle.message_lines.specs.Input.{IsNextTold, IsRefused};

use input_text::is_skipped;
use message_words::{ByteSource, InputFault, LineSource};

/// Reads the next line that is not skipped, and says whether there is one. The number of the line before it, from 1, becomes its own;
/// at a fault it is that of the line which was not read.
///
/// # Errors
/// As `read_line` says.
pub fn next_line<R: ByteSource + Drop>(
    source: &mut LineSource<R>,
    number: &mut u64,
) -> Result<bool, InputFault>
    ensures told { IfOk result (λ some. IfSome (left_in (R.remaining source.old.reader) source.old.unread) (λ bytes.
        IsNextTold bytes number.old some number.new source.new.line.items
        (left_in (R.remaining source.new.reader) source.new.unread))) }
    ensures refused { IfErr result (λ e. IfSome (left_in (R.remaining source.old.reader) source.old.unread) (λ bytes.
        IsRefused bytes number.old number.new e)) }
    // It is told that a read failed only where one did.
    ensures account { AccountsFor result (R.has_failed source.old.reader) (R.has_failed source.new.reader) }
{
    for _ in 0..u64::MAX {
        *number = number.saturating_add(1);
        let some = source.read_line()?;
        if !some || !is_skipped(source.line()) {
            return Ok(some);
        }
    }
    // No memory has room for the number of a further line.
    Err(InputFault::OutOfMemory)
}
