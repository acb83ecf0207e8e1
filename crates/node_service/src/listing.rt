//! What is written of how much a node has, and of its open entries.

ghost use Rattle.std.specs.Prelude.{◌≡◌, ◌++◌, ◌-◌, ◌<◌, [], length, IfOk, OnOk};
ghost use Rattle.node_service.specs.Listing.{answer_in, count_line, end_line, entry_line, entry_lines, open_from, open_then};

use input_text::put_decimal;
use node_state::JournalReading;
use std::alloc::AllocError;

/// Appends how much a node has.
pub(crate) fn put_count(out: &mut Vec<u8>, count: u64) -> Result<(), AllocError>
    ensures { OnOk result (out.new.items ≡ out.old.items ++ count_line count) }
{
    out.extend_from_slice(b"count ")?;
    put_decimal(out, count)?;
    out.extend_from_slice(b"\n")
}

/// Appends a line for each entry without an answer, from the entry of a number on, this many at most, and that this was all.
pub(crate) fn put_open(
    out: &mut Vec<u8>,
    journal: &JournalReading<'_>,
    number: u64,
    count: u64,
) -> Result<(), AllocError>
    ensures { OnOk result (out.new.items
        ≡ out.old.items ++ (entry_lines (open_from number count journal.now.entries) ++ end_line)) }
{
    put_entries(out, journal, number, count)?;
    put_end(out)
}

/// Appends that a list was told to its end.
pub(crate) fn put_end(out: &mut Vec<u8>) -> Result<(), AllocError>
    ensures { OnOk result (out.new.items ≡ out.old.items ++ end_line) }
{
    out.extend_from_slice(b"end\n")
}

/// Appends a line for each entry without an answer, from the entry of a number on, this many at most.
#[tactic(auto, using(crate::proofs::OpenEntries::told_first))]
fn put_entries(
    out: &mut Vec<u8>,
    journal: &JournalReading<'_>,
    number: u64,
    count: u64,
) -> Result<(), AllocError>
    ensures { OnOk result (out.new.items
        ≡ out.old.items ++ entry_lines (open_from number count journal.now.entries)) }
{
    let mut left = count;
    for place in number.saturating_sub(1)..journal.entries() as u64 {
        if left == 0 {
            return Ok(());
        }
        left = put_next(out, journal, place + 1, left)?;
    }
    Ok(())
}

/// Appends the line of an entry where it has no answer, and gives how many more may be told.
#[tactic(auto, unfolding(crate::specs::Listing::entry_lines))]
fn put_next(
    out: &mut Vec<u8>,
    journal: &JournalReading<'_>,
    number: u64,
    left: u64,
) -> Result<u64, AllocError>
    requires { 0 < left }
    ensures text { OnOk result (out.new.items
        ≡ out.old.items ++ entry_lines (open_then (answer_in journal.now.entries number) number [])) }
    ensures left { IfOk result (λ more.
        more ≡ left - length (open_then (answer_in journal.now.entries number) number [])) }
{
    match journal.held(number) {
        Some(_) => Ok(left),
        None => {
            put_entry(out, number)?;
            Ok(left - 1)
        }
    }
}

/// Appends the line of an entry.
#[tactic(auto, unfolding(crate::specs::Listing::entry_line))]
fn put_entry(out: &mut Vec<u8>, number: u64) -> Result<(), AllocError>
    ensures { OnOk result (out.new.items ≡ out.old.items ++ entry_line number) }
{
    out.extend_from_slice(b"entry ")?;
    put_decimal(out, number)?;
    out.extend_from_slice(b"\n")
}
