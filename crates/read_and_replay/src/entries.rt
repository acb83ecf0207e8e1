//! The entry that a line of an input spells.

ghost use Rattle.std.specs.Prelude.{◌≡◌, IfOk};
ghost use Rattle.read_and_replay.specs.Entries.{id_in, entry_of, entry_under};

use envelope::TxnId;
use input_text::{PrintedFault, read_decimal, split_word, unprint_into};
use std::alloc::AllocError;

/// The pharmacy under whose number all lines stand (own).
const PHARMACY: u16 = 1;
/// The most digits of a line's number (own).
const MOST_DIGITS: usize = 18;

/// Reads the entry that a line spells: gives its id, and puts its request in the place of the bytes in `request`. None where
/// the line spells no entry.
#[tactic(auto, unfolding(crate::specs::Entries::entry_of))]
pub(crate) fn read_entry(request: &mut Vec<u8>, line: &[u8]) -> Result<Option<TxnId>, AllocError>
    ensures { IfOk result (λ id. entry_under id request.new.items ≡ entry_of line.now) }
{
    let Some((word, text)) = split_word(line) else {
        return Ok(None);
    };
    let Some(id) = id_in(word) else {
        return Ok(None);
    };
    match unprint_into(request, text) {
        Ok(()) => Ok(Some(id)),
        Err(PrintedFault::BadByte(_)) => Ok(None),
        Err(PrintedFault::OutOfMemory) => Err(AllocError),
    }
}

/// The id that the number of a line stands for, if the word is a number.
pub(crate) fn id_in(word: &[u8]) -> Option<TxnId>
    ensures { result ≡ id_in word.now }
{
    let number = read_decimal(word, MOST_DIGITS)?;
    TxnId::new(PHARMACY, number)
}
