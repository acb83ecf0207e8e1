//! What is written of a row of a payer's book.

ghost use Rattle.std.specs.Prelude.{◌≡◌, ◌++◌, OnOk};
ghost use Rattle.std.specs.Option.{option_copied};
ghost use Rattle.bin_routes.specs.Table.{RouteMaps};
ghost use Rattle.claim_model.specs.Bytes.{bytes_with};
ghost use Rattle.claim_model.specs.Numbered.{numbered};
ghost use Rattle.node_service.specs.BookRow.{row_in, row_of_book};

use crate::listing::put_end;
use payer_book::{Book, Row};
use std::alloc::AllocError;
use world_report::put_row;

/// Appends the lines of the row of a number, as a report has them, and that these were all; `none` where there is no such row.
pub(crate) fn put_row_in(out: &mut Vec<u8>, book: &Book, number: u64) -> Result<(), AllocError>
    ensures { (routes : RouteMaps)
        → OnOk result (out.new.items ≡ out.old.items ++ row_of_book (bytes_with routes) number book.now) }
{
    match row_at(book, number) {
        Some(row) => put_found(out, book, row),
        None => out.extend_from_slice(b"none\n"),
    }
}

/// Appends the lines of a row of this book, and that these were all.
fn put_found(out: &mut Vec<u8>, book: &Book, row: &Row) -> Result<(), AllocError>
    ensures { (routes : RouteMaps)
        → OnOk result (out.new.items ≡ out.old.items ++ row_in (bytes_with routes) book.now row.now) }
{
    put_row(out, book, row)?;
    put_end(out)
}

/// The row of a number, from 1.
fn row_at(book: &Book, number: u64) -> Option<&Row>
    ensures { option_copied result ≡ numbered book.now.rows number }
{
    let place = number.checked_sub(1)?;
    book.row(place as usize)
}
