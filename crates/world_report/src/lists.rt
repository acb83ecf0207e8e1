//! The lines of lists: the entries of a journal, counted payments, requests in flight, the rows of a book.

ghost use Rattle.std.specs.Prelude.{◌≡◌, [], map, OnOk};
ghost use Rattle.std.specs.List.{flat_map};
ghost use Rattle.pharmacy_journal.specs.Listing.{listed_from};
ghost use Rattle.world_report.specs.Adding.{AddsLines, TellsLines};
ghost use Rattle.world_report.specs.Rulings.{paid_line};
ghost use Rattle.world_report.specs.Places.{entry_lines};
ghost use Rattle.world_report.specs.BookRows.{row_lines};
ghost use Rattle.world_report.specs.Nodes.{in_flight_line};

use crate::{put_entry, put_in_flight, put_paid, put_row};
use payer_book::Book;
use pharmacy_journal::{CountedPayment, Teller};
use std::alloc::AllocError;
use switch_node::InFlight;

/// Appends the lines of the entries that a journal has left to tell.
#[tactic(auto, using(crate::proofs::Joining::block_ends))]
pub(crate) fn put_entries(out: &mut Vec<u8>, teller: &mut Teller<'_>) -> Result<(), AllocError>
    ensures lines { OnOk result (AddsLines out.old out.new
        (flat_map entry_lines (listed_from teller.old.number teller.old.left))) }
    ensures told { OnOk result (teller.new.left ≡ []) }
    ensures same { teller.new.entries ≡ teller.old.entries }
{
    'entries: while teller.next()? {
        put_entry(out, teller.entry())?;
    }
    Ok(())
}

/// Appends the lines of counted payments.
pub(crate) fn put_payments(out: &mut Vec<u8>, payments: &[CountedPayment]) -> Result<(), AllocError>
    ensures { OnOk result (AddsLines out.old out.new (map paid_line payments.now)) }
{
    for payment in payments {
        put_paid(out, payment)?;
    }
    Ok(())
}

/// Appends the lines of requests in flight.
pub(crate) fn put_table(out: &mut Vec<u8>, table: &[InFlight]) -> Result<(), AllocError>
    ensures { OnOk result (AddsLines out.old out.new (map in_flight_line table.now)) }
{
    for request in table {
        put_in_flight(out, request)?;
    }
    Ok(())
}

/// Appends the lines of a book's rows.
pub(crate) fn put_rows(out: &mut Vec<u8>, book: &Book) -> Result<(), AllocError>
    ensures { TellsLines out.old out.new (λ ctx. flat_map (row_lines ctx book.now.rows) book.now.rows) result }
{
    let rows = book.rows();
    for row in rows {
        put_row(out, book, row)?;
    }
    Ok(())
}
