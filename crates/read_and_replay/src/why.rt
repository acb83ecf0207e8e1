//! What is wrong in an input of `read` that was refused, for people.

ghost use Rattle.std.specs.Prelude.{◌≡◌, is_none, is_some, IfOk};
ghost use Rattle.read_and_replay.specs.Entries.{entry_of};

use crate::entries::{id_in, read_entry};
use input_text::{PrintedFault, split_word, unprint};
use program_io::{InputFault, ProgramFault, line_at};
use std::alloc::{AllocError, Global};
use thiserror::Error;

/// What is wrong in a line of `read` that spells no entry: the first thing from the left. The text says what is wanted.
#[derive(Clone, Copy, Debug, PartialEq, Eq, Error)]
pub enum EntryFault {
    /// The line does not begin with a number.
    #[error("a line is a number of 1 to 18 digits that is not zero, one space, and a request in printed text")]
    Number,
    /// There is no request.
    #[error("behind the number one space and a request are wanted")]
    Request,
    /// A byte of the request, counted from 1, is not printed text.
    #[error("byte {0} of the request is not printed text: bytes below 0x20 and above 0x7E, and the separators, are written with a backslash")]
    Printed(usize),
}

/// What is wrong in a line of `read`; `None` exactly where it spells an entry.
pub fn entry_fault(alloc: Global, line: &[u8]) -> Result<Option<EntryFault>, AllocError>
    ensures { IfOk result (λ fault. is_none fault ≡ is_some (entry_of line.now)) }
{
    match read_entry(&mut Vec::new(alloc), line)? {
        Some(_) => Ok(None),
        None => Ok(Some(entry_cause(alloc, line)?)),
    }
}

/// What is wrong in a line that spells no entry.
fn entry_cause(alloc: Global, line: &[u8]) -> Result<EntryFault, AllocError> {
    let Some((word, text)) = split_word(line) else {
        return Ok(match id_in(line) {
            Some(_) => EntryFault::Request,
            None => EntryFault::Number,
        });
    };
    if id_in(word).is_none() {
        return Ok(EntryFault::Number);
    }
    match unprint(alloc, text) {
        Ok(_) => Ok(EntryFault::Request),
        Err(PrintedFault::BadByte(place)) => Ok(EntryFault::Printed(place.saturating_add(1))),
        Err(PrintedFault::OutOfMemory) => Err(AllocError),
    }
}

/// What is wrong in the line that `read` refused: what is wanted there. `None` for the faults that no line is the cause of.
pub fn why_refused(
    alloc: Global,
    input: &[u8],
    fault: ProgramFault,
) -> Result<Option<String>, AllocError> {
    let ProgramFault::Input(InputFault::Line(number)) = fault else {
        return Ok(None);
    };
    match entry_fault(alloc, line_at(input, number))? {
        Some(fault) => Ok(Some(format!(in alloc; "{fault}")?)),
        None => Ok(None),
    }
}
