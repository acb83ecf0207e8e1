//! The lines that the book's answers make.

ghost use Rattle.std.specs.Prelude.{◌≡◌, ◌≢◌, ◌++◌, Ok, Err, IfOk, IfErr, OnOk};
ghost use Rattle.claim_model.specs.declared.refusal.Fault.TheVariants.{OutOfMemory as NoMemory};
ghost use Rattle.read_and_replay.specs.Entries.{entries_in, entries_of, entry_with};
ghost use Rattle.read_and_replay.specs.Lines.{book_after, entry_line, lines_behind, output_of, said_to};
ghost use Rattle.read_and_replay.specs.Said.{answer_in, said_text};
ghost use Rattle.program_io.specs.Stops.{RefusedFor, schedule_told};

use crate::entries::read_entry;
use crate::sample;
use bin_routes::Routes;
use envelope::TxnId;
use input_text::{Lines, is_skipped, put_decimal, put_printed};
use payer_book::{Book, Fault, HashKeys, Placed};
use schedule::ScheduleFault as LineFault;
use std::alloc::{AllocError, Global};

/// The whole output for an input.
///
/// # Errors
/// `Line` of the first line that spells no entry; `OutOfMemory`.
pub(crate) fn answers(alloc: Global, keys: &HashKeys, input: Vec<u8>) -> Result<Vec<u8>, LineFault>
    ensures all { IfOk result (λ output. output_of input.items ≡ Ok output.items) }
    ensures fault { IfErr result (λ fault. RefusedFor (schedule_told fault) (output_of input.items)) }
{
    let routes = sample::routes(alloc)?;
    let mut book = sample::book(alloc, keys, input.len())?;
    // Most lines of output are shorter than theirs of input.
    let mut output = Vec::with_capacity(alloc, input.len())?;
    put_lines(&mut output, &mut book, &routes, alloc, input.as_slice())?;
    Ok(output)
}

/// Appends the line of each entry of an input, over the book as the earlier ones left it. An entry is answered as its line is
/// read.
///
/// # Errors
/// `Line` of the first line that spells no entry, where lines that are skipped are counted; `OutOfMemory`. Entries may have been
/// answered then, and lines appended.
fn put_lines(
    output: &mut Vec<u8>,
    book: &mut Book,
    routes: &Routes,
    alloc: Global,
    input: &[u8],
) -> Result<(), LineFault>
    ensures lines { OnOk result (lines_behind routes.now book.old output.old.items (entries_in input.now)
        ≡ Ok output.new.items) }
    ensures fault { IfErr result (λ fault. RefusedFor (schedule_told fault) (entries_of input.now)) }
{
    let mut request = Vec::new(alloc);
    for line in Lines::new(input) {
        if !is_skipped(line.text) {
            match read_entry(&mut request, line.text)? {
                Some(id) => put_line(output, book, routes, id, request.as_slice())?,
                None => return Err(LineFault::Line(line.number as u64)),
            }
        }
    }
    Ok(())
}

/// Appends the line of one entry: what the book says to this request under that id.
fn put_line(
    output: &mut Vec<u8>,
    book: &mut Book,
    routes: &Routes,
    id: TxnId,
    request: &[u8],
) -> Result<(), AllocError>
    ensures line { OnOk result (output.new.items
        ≡ output.old.items ++ entry_line routes.now book.old (entry_with id request.now)) }
    ensures book { OnOk result (book.new ≡ book_after book.old (said_to routes.now book.old (entry_with id request.now))) }
{
    put_decimal(output, id.number())?;
    let said = book.answer_at(routes, id, request);
    put_said(output, book, said)?;
    output.extend_from_slice(b"\n")?;
    Ok(())
}

/// Appends what stands after the number: the answer, which the book has at the place that is said, or the name of the
/// refusal.
fn put_said(
    output: &mut Vec<u8>,
    book: &Book,
    said: Result<Placed, Fault>,
) -> Result<(), AllocError>
    ensures text { OnOk result (output.new.items ≡ output.old.items ++ said_text book.now.rows said) }
    ensures known { OnOk result (said ≢ Err NoMemory) }
{
    match said {
        Ok(placed) => {
            output.extend_from_slice(b" ")?;
            put_printed(output, answer_in(book, placed.place))?;
        }
        Err(Fault::OutOfMemory) => return Err(AllocError),
        Err(fault) => {
            output.extend_from_slice(b" refused ")?;
            output.extend_from_slice(fault.name().as_bytes())?;
        }
    }
    Ok(())
}

/// The answer that a book has at a place.
fn answer_in(book: &Book, place: usize) -> &[u8]
    ensures { result.now ≡ answer_in book.now.rows place }
{
    match book.row(place) {
        Some(row) => row.answer(),
        None => &[],
    }
}
