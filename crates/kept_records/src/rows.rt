//! The rows of a book, as they are written and as they are read.

ghost use Rattle.std.specs.Prelude.{◌≡◌, ◌++◌, map, Ok, None, Some, IfOk, OnOk};
ghost use Rattle.std.specs.Option.{option_map};
ghost use Rattle.payer_book.specs.Added.{kept_row, added};
ghost use Rattle.kept_records.specs.Faults.{RefusesAs, RefusesAt, ended};
ghost use Rattle.kept_records.specs.Rows.{row_codec, rows_text, row_taken};
ghost use Rattle.kept_records.specs.Books.{row_in, rows_in};
ghost use Rattle.kept_records.specs.BookLaws.{IsKeptRow, AreKeptRows};

use crate::fault::RecordFault;
use crate::texts::{put_text, take_text};
use crate::versions::judge_version;
use codec::{put_u16, put_u64, take_u16, take_u64};
use payer_book::{BookAtRest, Row, RowFault, TxnId};
use std::alloc::{AllocError, Global};

/// A row as it stands in bytes.
#[derive(Clone, Copy)]
struct RowText<'a> {
    pharmacy: u16,
    number: u64,
    request: &'a [u8],
    answer: &'a [u8],
}

/// The row at the front and what follows it; none where it is cut off.
#[tactic(auto, unfolding(crate::specs::Rows::row_codec))]
fn take_row(bytes: &[u8]) -> Option<(RowText<'_>, &[u8])>
    ensures { option_map (λ taken. (row_taken taken.0, taken.1.now)) result ≡ row_codec.at bytes.now }
{
    let (pharmacy, rest) = take_u16(bytes)?;
    let (number, rest) = take_u64(rest)?;
    let (request, rest) = take_text(rest)?;
    let (answer, rest) = take_text(rest)?;
    let row = RowText {
        pharmacy,
        number,
        request,
        answer,
    };
    Some((row, rest))
}

/// Adds the row of the record at a place.
fn add_row(
    place: usize,
    book: &mut BookAtRest,
    id: TxnId,
    row: &RowText<'_>,
) -> Result<(), RecordFault>
    ensures ok { OnOk result (added book.old id row.now.request.now row.now.answer.now ≡ Some book.new) }
    ensures fault { RefusesAt place (added book.old id row.now.request.now row.now.answer.now ≡ None) result }
{
    match book.add(id, row.request, row.answer) {
        Ok(()) => Ok(()),
        Err(RowFault::OutOfMemory) => Err(RecordFault::OutOfMemory),
        Err(RowFault::BadRow) => Err(RecordFault::BadRecord(place)),
    }
}

/// Enters the row that stands at the front of the bytes, at a place of all bytes, and gives what follows it.
#[tactic(auto, unfolding(crate::specs::Books::row_in))]
fn enter_next<'a>(
    alloc: Global,
    version: u8,
    place: usize,
    book: &mut BookAtRest,
    bytes: &'a [u8],
) -> Result<&'a [u8], RecordFault>
    ensures ok { IfOk result (λ rest. row_in version place book.old bytes.now ≡ Ok (book.new, rest.now)) }
    ensures fault { RefusesAs (row_in version place book.old bytes.now) result }
{
    let Some((row, rest)) = take_row(bytes) else {
        return Err(RecordFault::BadRecord(place));
    };
    let Some(id) = TxnId::new(row.pharmacy, row.number) else {
        return Err(RecordFault::BadRecord(place));
    };
    judge_version(alloc, version, place, row.request)?;
    add_row(place, book, id, &row)?;
    Ok(rest)
}

/// The book with `count` rows more, which are these last bytes of `total`.
pub(crate) fn read_rows(
    alloc: Global,
    version: u8,
    total: usize,
    count: u32,
    mut book: BookAtRest,
    bytes: &[u8],
) -> Result<BookAtRest, RecordFault>
    ensures ok { IfOk result (λ read. rows_in version total count book bytes.now ≡ Ok read) }
    ensures fault { RefusesAs (rows_in version total count book bytes.now) result }
{
    let mut rest = bytes;
    for _ in 0..count {
        let place = total.saturating_sub(rest.len());
        rest = enter_next(alloc, version, place, &mut book, rest)?;
    }
    ended(total, book, rest)
}

/// The book, where nothing follows its last row.
#[tactic(auto, unfolding(crate::specs::Faults::ended))]
fn ended(total: usize, book: BookAtRest, rest: &[u8]) -> Result<BookAtRest, RecordFault>
    ensures { result ≡ ended total (book, rest.now) }
{
    if rest.is_empty() {
        Ok(book)
    } else {
        Err(RecordFault::BadRecord(total.saturating_sub(rest.len())))
    }
}

/// Puts the rows, in their order. Each part of a row fits its field.
pub(crate) fn put_rows(out: &mut Vec<u8>, rows: &[Row]) -> Result<(), AllocError>
    ensures text { OnOk result (out.new.items ≡ out.old.items ++ rows_text (map kept_row rows.now)) }
    ensures kept { OnOk result (AreKeptRows (map kept_row rows.now)) }
{
    for row in rows {
        put_row(out, row)?;
    }
    Ok(())
}

/// Puts a row.
#[tactic(auto, unfolding(crate::specs::Rows::row_codec))]
fn put_row(out: &mut Vec<u8>, row: &Row) -> Result<(), AllocError>
    ensures text { OnOk result (out.new.items ≡ out.old.items ++ row_codec.text (kept_row row.now)) }
    ensures kept { OnOk result (IsKeptRow (kept_row row.now)) }
{
    let id = row.id();
    let answer = row.answer();
    put_u16(out, id.pharmacy())?;
    put_u64(out, id.number())?;
    put_text(out, row.request())?;
    put_text(out, answer)
}
