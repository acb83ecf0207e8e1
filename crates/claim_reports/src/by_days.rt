//! The remittance that a payer of several books sends a pharmacy for the rulings of some days.

ghost use Rattle.std.specs.Prelude.{◌≡◌, ◌++◌, List, codes, IfOk, OnOk};
ghost use Rattle.table_text.specs.Adding.{Adds};
ghost use Rattle.table_text.specs.Rows.{head_text};
ghost use Rattle.claim_reports.specs.declared.ledger.Move.{Move};
ghost use Rattle.claim_reports.specs.Causes.{RefusesFor};
ghost use Rattle.claim_reports.specs.Daily.{IsDailyLines, IsDailySums, daily_line, daily_lines, daily_lines_cause, daily_sums_cause, moves_of};
ghost use Rattle.claim_reports.specs.Ledger.{IsLedgerOf, period_cause};
ghost use Rattle.claim_reports.specs.Statement.{line_names};

use crate::daily::{DailyColumns, DailyRemittance, DailyRuling, moves_of};
use crate::fault::ReportFault;
use crate::ledger::{Ledger, Move, ledger_of};
use crate::numbers::{auth_text, taken_back};
use crate::reading::rows_in;
use crate::statement::{LineRow, Title, auth_of, put_line_names, sums_text};
use std::alloc::{AllocError, Global};
use table_text::{Cell, Field};

/// A row for each payment and each reversal of the days that the books ruled, as CSV; the cents of a reversal are below zero.
///
/// # Errors
/// A table that is none, or has a value of another kind; rulings that are none of books; a sum of more than 64 bits; want of
/// memory.
pub fn daily_lines(
    alloc: Global,
    rows: &[u8],
    asked: &DailyRemittance,
) -> Result<Vec<u8>, ReportFault>
    // What is written is, row by row, the rulings of these books and days that a reader of CSV finds in the table.
    ensures made { IfOk result (λ text. IsDailyLines rows.now asked.now text.items) }
    // It is refused for the first fault of the table, then of its rulings, or for want of memory, and for nothing else.
    ensures refuses { RefusesFor result (daily_lines_cause rows.now asked.now) }
{
    let rulings = rows_in::<DailyColumns>(alloc, 1, rows, asked)?;
    let before = asked.earlier(alloc, rulings.as_slice())?;
    let kept = asked.within(alloc, rulings.as_slice())?;
    lines_text(alloc, asked.pharmacy, before.as_slice(), kept.as_slice())
}

/// The sums of the days over all the books, as CSV in one row: what stood, what was paid and reversed, what stands, what is
/// sent and what is owed.
///
/// # Errors
/// Those of `daily_lines`.
pub fn daily_sums(
    alloc: Global,
    rows: &[u8],
    asked: &DailyRemittance,
) -> Result<Vec<u8>, ReportFault>
    // What is written is the sums of the rulings of these books and days that a reader of CSV finds in the table.
    ensures made { IfOk result (λ text. IsDailySums rows.now asked.now text.items) }
    // It is refused for the first fault of the table, then of its rulings, then for sums that are too large, or for want of
    // memory, and for nothing else.
    ensures refuses { RefusesFor result (daily_sums_cause rows.now asked.now) }
{
    let rulings = rows_in::<DailyColumns>(alloc, 1, rows, asked)?;
    let before = asked.earlier(alloc, rulings.as_slice())?;
    let kept = asked.within(alloc, rulings.as_slice())?;
    let moves = moves_of(alloc, kept.as_slice())?;
    let payers = asked.books.text(alloc)?;
    let title = Title {
        whose: Field::text(b"payers", payers.as_slice()),
        pharmacy: asked.pharmacy,
        first: Field::number_or_nothing(b"from", asked.from),
        last: Field::number_or_nothing(b"to", asked.to),
    };
    sums_text(
        alloc,
        &title,
        before.as_slice(),
        moves.as_slice(),
        asked.owed,
    )
}

/// The names of the columns, and a row for each of some rulings, after others that moved this.
fn lines_text(
    alloc: Global,
    pharmacy: u64,
    before: &[Move],
    rulings: &[DailyRuling],
) -> Result<Vec<u8>, ReportFault>
    ensures made { IfOk result (λ text. text.items ≡ head_text (line_names (codes "ruled_on"))
        ++ daily_lines pharmacy (before.now ++ moves_of rulings.now) rulings.now) }
    ensures refuses { RefusesFor result (period_cause before.now (moves_of rulings.now)) }
{
    let moves = moves_of(alloc, rulings)?;
    let ledger = ledger_of(alloc, before, moves.as_slice())?;
    let mut out = Vec::new(alloc);
    put_line_names(&mut out, b"ruled_on")?;
    for ruling in rulings {
        put_line(&mut out, pharmacy, &ledger, ruling)?;
    }
    Ok(out)
}

/// Appends the row of a ruling, of which the ledger has what a reversal takes back.
fn put_line(
    out: &mut Vec<u8>,
    pharmacy: u64,
    ledger: &Ledger,
    ruling: &DailyRuling,
) -> Result<(), AllocError>
    ensures { (all : List Move) → IsLedgerOf all ledger.now
        → OnOk result (Adds out.old out.new (daily_line pharmacy all ruling.now)) }
{
    let auth = auth_text(*out.allocator(), auth_of(ruling.moves))?;
    let back = taken_back(*out.allocator(), ledger.back_cents(ruling.moves))?;
    let row = LineRow {
        payer: ruling.payer,
        pharmacy,
        at: Field::number(b"ruled_on", ruling.ruled_on),
        numbers: ruling.numbers,
        moves: ruling.moves,
        auth: auth.as_slice(),
        service: Cell::Number(ruling.service),
        back: back.as_slice(),
    };
    row.put(out)
}
