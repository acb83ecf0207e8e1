//! The remittance that a payer sends a pharmacy, made of the payer's table of rows.

ghost use Rattle.std.specs.Prelude.{◌≡◌, codes, IfOk, OnOk};
ghost use Rattle.table_text.specs.Rows.{head_text};
ghost use Rattle.claim_reports.specs.Causes.{RefusesFor, bad_at};
ghost use Rattle.claim_reports.specs.RulingsSeen.{lines_placed, line_seen, lines_seen};
ghost use Rattle.claim_reports.specs.Remitted.{AddsLine, AddsLines, IsRemitted, IsSummed, remitted_cause, remitting_cause, summed_cause};
ghost use Rattle.claim_reports.specs.Statement.{line_names, numbers_bad};

use crate::fault::ReportFault;
use crate::ledger::{Ledger, Move};
use crate::numbers::{auth_text, taken_back};
use crate::rulings::{
    Line, Remittance, RulingColumns, lines_behind, moves_before, moves_of, rulings_in,
};
use crate::statement::{LineRow, Numbers, Title, auth_of, put_line_names, sums_text};
use crate::table::Table;
use std::alloc::Global;
use table_text::{Cell, Field};

/// A row for each payment and each reversal of the period, as CSV; the cents of a reversal are below zero.
///
/// # Errors
/// A table that is none, or has a value of another kind; rulings that are none of a book; a sum of more than 64 bits; want of
/// memory.
pub fn remittance_lines(
    alloc: Global,
    rows: &[u8],
    asked: &Remittance,
) -> Result<Vec<u8>, ReportFault>
    // What is written is, row by row, the rulings that a reader of CSV finds in the table.
    ensures made { IfOk result (λ text. IsRemitted rows.now asked.now text.items) }
    // It is refused for the first fault of the table, then of its rulings, or for want of memory, and for nothing else.
    ensures refuses { RefusesFor result (remitted_cause rows.now asked.now) }
{
    let table = Table::read(alloc, 1, rows)?;
    let columns = RulingColumns::of(&table)?;
    let rulings = rulings_in(alloc, &table, &columns, asked)?;
    let before = moves_before(alloc, rulings.lines.as_slice(), asked.after)?;
    let lines = lines_behind(alloc, rulings.lines.as_slice(), asked.after)?;
    lines_text(alloc, &columns, asked, before.as_slice(), lines.as_slice())
}

/// The sums of the period, as CSV in one row: what stood, what was paid and reversed, what stands, what is sent and what is
/// owed.
///
/// # Errors
/// Those of `remittance_lines`.
pub fn remittance_sums(
    alloc: Global,
    rows: &[u8],
    asked: &Remittance,
) -> Result<Vec<u8>, ReportFault>
    // What is written is the sums of the rulings that a reader of CSV finds in the table.
    ensures made { IfOk result (λ text. IsSummed rows.now asked.now text.items) }
    // It is refused for the first fault of the table, then of its rulings, then for sums that are too large, or for want of
    // memory, and for nothing else.
    ensures refuses { RefusesFor result (summed_cause rows.now asked.now) }
{
    let table = Table::read(alloc, 1, rows)?;
    let columns = RulingColumns::of(&table)?;
    let rulings = rulings_in(alloc, &table, &columns, asked)?;
    let before = moves_before(alloc, rulings.lines.as_slice(), asked.after)?;
    let lines = lines_behind(alloc, rulings.lines.as_slice(), asked.after)?;
    let moves = moves_of(alloc, lines.as_slice())?;
    let title = Title {
        whose: Field::number(b"payer", asked.payer),
        pharmacy: asked.pharmacy,
        first: Field::number(b"after", asked.after),
        last: Field::number(b"up_to", rulings.up_to),
    };
    sums_text(
        alloc,
        &title,
        before.as_slice(),
        moves.as_slice(),
        asked.owed,
    )
}

/// The names of the columns, and a row for each ruling of the period, after those before it.
#[tactic(auto, using(crate::proofs::Telling::neither, crate::proofs::Telling::passed, crate::proofs::Telling::tells_then, crate::proofs::WrongLines::lines_fine, crate::proofs::WrongLines::move_wrong, crate::proofs::WrongLines::row_wrong))]
fn lines_text(
    alloc: Global,
    columns: &RulingColumns,
    asked: &Remittance,
    before: &[Move],
    lines: &[Line<'_>],
) -> Result<Vec<u8>, ReportFault>
    ensures made { IfOk result (λ text. AddsLines columns.now asked.now before.now (lines_seen lines.now)
        (head_text (line_names (codes "ruling"))) text.items) }
    ensures refuses { RefusesFor result (remitting_cause columns.now before.now (lines_placed lines.now)) }
{
    let mut out = Vec::new(alloc);
    put_line_names(&mut out, b"ruling")?;
    let mut ledger = Ledger::new(alloc);
    let mut passed = before.len() as u64;
    ledger.take_all(0, before)?;
    for line in lines {
        let one = [line.moves];
        let moved = ledger.take_all(passed, &one)?;
        passed = passed.saturating_add(1);
        put_line(&mut out, columns, asked, line, moved.reversed)?;
    }
    Ok(out)
}

/// Appends the row of a ruling that takes back this many cents.
fn put_line(
    out: &mut Vec<u8>,
    columns: &RulingColumns,
    asked: &Remittance,
    line: &Line<'_>,
    reversed: u64,
) -> Result<(), ReportFault>
    ensures adds { OnOk result
        (AddsLine columns.now asked.now reversed (line_seen line.now) out.old.items out.new.items) }
    ensures refuses { RefusesFor result (bad_at line.now.row.table line.now.row.number
        (numbers_bad columns.now (line_seen line.now).row)) }
{
    let numbers = Numbers::of(&line.row, columns)?;
    let auth = auth_text(*out.allocator(), auth_of(line.moves))?;
    let back = taken_back(*out.allocator(), reversed)?;
    let row = LineRow {
        payer: asked.payer,
        pharmacy: asked.pharmacy,
        at: Field::number(b"ruling", line.ruling),
        numbers,
        moves: line.moves,
        auth: auth.as_slice(),
        service: Cell::Text(line.row.text(columns.day)),
        back: back.as_slice(),
    };
    row.put(out)?;
    Ok(())
}
