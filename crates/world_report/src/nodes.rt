//! The lines of nodes, up or at rest.

ghost use Rattle.std.specs.Prelude.{OnOk};
ghost use Rattle.world_report.specs.Adding.{AddsLines, TellsLines};
ghost use Rattle.world_report.specs.Nodes.{journal_lines, pharmacy_lines, table_lines, switch_lines, book_lines, payer_lines, lines_from, told_lines};

use crate::lists::{put_entries, put_payments, put_rows, put_table};
use crate::put_head;
use node_state::{JournalReading, PayerNode, PharmacyNode, SwitchNode};
use payer_book::Book;
use std::alloc::{AllocError, Global};
use switch_node::InFlight;

/// Appends the lines of all pharmacies, from number 1.
pub(crate) fn put_pharmacies(
    out: &mut Vec<u8>,
    alloc: Global,
    nodes: &[PharmacyNode],
) -> Result<(), AllocError>
    ensures { TellsLines out.old out.new (λ ctx. lines_from (pharmacy_lines ctx) 1 nodes.now) result }
{
    for (place, node) in nodes.iter().enumerate() {
        put_pharmacy(out, alloc, place as u64 + 1, node)?;
    }
    Ok(())
}

/// Appends the lines of a pharmacy: its entries, and the payments that it counts.
fn put_pharmacy(
    out: &mut Vec<u8>,
    alloc: Global,
    number: u64,
    node: &PharmacyNode,
) -> Result<(), AllocError>
    ensures { TellsLines out.old out.new (λ ctx. pharmacy_lines ctx number node.now) result }
{
    let journal = node.journal(alloc)?;
    put_journal(out, number, node.is_up(), &journal)
}

/// Appends the lines of a journal.
fn put_journal(
    out: &mut Vec<u8>,
    number: u64,
    up: bool,
    journal: &JournalReading<'_>,
) -> Result<(), AllocError>
    ensures { TellsLines out.old out.new (λ ctx. journal_lines ctx number up journal.now) result }
{
    let count = journal.entries() as u64;
    put_head(out, b"pharmacy", number, up, b"entries", count)?;
    put_told(out, journal)
}

/// Appends the lines of all entries and those of all counted payments.
#[tactic(auto, unfolding(pharmacy_journal::specs::Listing::listed), using(std::proofs::lemmas::Result::on_ok_weaker, crate::proofs::Joining::lines_join))]
fn put_told(out: &mut Vec<u8>, journal: &JournalReading<'_>) -> Result<(), AllocError>
    ensures { TellsLines out.old out.new (λ ctx. told_lines ctx journal.now) result }
{
    let mut teller = journal.teller();
    put_entries(out, &mut teller)?;
    let paid = teller.paid()?;
    put_payments(out, paid.as_slice())
}

/// Appends the lines of all switches, from number 1.
pub(crate) fn put_switches(
    out: &mut Vec<u8>,
    alloc: Global,
    nodes: &[SwitchNode],
) -> Result<(), AllocError>
    ensures { OnOk result (AddsLines out.old out.new (lines_from switch_lines 1 nodes.now)) }
{
    for (place, node) in nodes.iter().enumerate() {
        put_switch(out, alloc, place as u64 + 1, node)?;
    }
    Ok(())
}

/// Appends the lines of a switch: the requests in flight, oldest first.
fn put_switch(
    out: &mut Vec<u8>,
    alloc: Global,
    number: u64,
    node: &SwitchNode,
) -> Result<(), AllocError>
    ensures { OnOk result (AddsLines out.old out.new (switch_lines number node.now)) }
{
    let table = node.list(alloc)?;
    put_in_flights(out, number, node.is_up(), table.as_slice())
}

/// Appends the lines of a table.
#[tactic(auto, using(std::proofs::lemmas::Result::on_ok_weaker, crate::proofs::JoinedWords::lines_join))]
fn put_in_flights(
    out: &mut Vec<u8>,
    number: u64,
    up: bool,
    table: &[InFlight],
) -> Result<(), AllocError>
    ensures { OnOk result (AddsLines out.old out.new (table_lines number up table.now)) }
{
    put_head(out, b"switch", number, up, b"entries", table.len() as u64)?;
    put_table(out, table)
}

/// Appends the lines of all payers, from number 1.
pub(crate) fn put_payers(
    out: &mut Vec<u8>,
    alloc: Global,
    nodes: &[PayerNode],
) -> Result<(), AllocError>
    ensures { TellsLines out.old out.new (λ ctx. lines_from (payer_lines ctx) 1 nodes.now) result }
{
    for (place, node) in nodes.iter().enumerate() {
        put_payer(out, alloc, place as u64 + 1, node)?;
    }
    Ok(())
}

/// Appends the lines of a payer: the rows of its book, oldest first.
fn put_payer(
    out: &mut Vec<u8>,
    alloc: Global,
    number: u64,
    node: &PayerNode,
) -> Result<(), AllocError>
    ensures { TellsLines out.old out.new (λ ctx. payer_lines ctx number node.now) result }
{
    let reading = node.book(alloc)?;
    put_book(out, number, node.is_up(), reading.book())
}

/// Appends the lines of a book.
#[tactic(auto, using(std::proofs::lemmas::Result::on_ok_weaker, crate::proofs::JoinedWords::lines_join))]
fn put_book(out: &mut Vec<u8>, number: u64, up: bool, book: &Book) -> Result<(), AllocError>
    ensures { TellsLines out.old out.new (λ ctx. book_lines ctx number up book.now.rows) result }
{
    let count = book.rows().len() as u64;
    put_head(out, b"payer", number, up, b"rows", count)?;
    put_rows(out, book)
}
