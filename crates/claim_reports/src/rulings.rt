//! The rulings of a payer's table of rows that move a pharmacy's money, before a period and in it.

ghost use Rattle.std.specs.Prelude.{◌≡◌, ◌<◌, ◌+◌, map, unwrap_or, None, Some, IfOk, OnOk};
ghost use Rattle.csv.specs.Records.{fields_of};
ghost use Rattle.claim_reports.specs.Causes.{RefusesFor, bad_at, bad_number};
ghost use Rattle.claim_reports.specs.Tables.{rows_of};
ghost use Rattle.claim_reports.specs.RulingsSeen.{lines_placed, AddsPlaced, lines_seen, ReadsRow, ReadsOwn, AddsRuling};
ghost use Rattle.claim_reports.specs.Rulings.{ruling_columns_in, ruling_columns_missing, payment_bad, move_bad, moved_bad, ruling_bad, rulings_bad, count_with, placed, placed_row, placed_from, placed_behind, payment_of, reversal_of, move_of, move_to, AreRulings, moves_before, rulings_behind};

use crate::fault::ReportFault;
use crate::ledger::Move;
use crate::naming::Name;
use crate::table::{Column, Table, TableRow};
use std::alloc::{AllocError, Global};

/// Whose remittance it is, and of which rulings.
#[derive(Clone, Copy)]
pub struct Remittance {
    /// The payer.
    pub payer: u64,
    /// The pharmacy.
    pub pharmacy: u64,
    /// How many rulings of the payer, each a row of its table, stand before the period.
    pub after: u64,
    /// The last ruling of the period, counted from 1.
    pub up_to: u64,
    /// What the pharmacy owed at its beginning, in cents.
    pub owed: u64,
}

/// The columns of a table of rows that remittances are made of.
#[derive(Clone, Copy)]
pub(crate) struct RulingColumns {
    pub(crate) payer: Column,
    pharmacy: Column,
    pub(crate) number: Column,
    pub(crate) transaction: Column,
    ruling: Column,
    auth: Column,
    pub(crate) prescription: Column,
    pub(crate) day: Column,
    cents: Column,
}

/// A ruling that moves money: its row, its number among those of the payer, and what it moves.
#[derive(Clone, Copy)]
pub(crate) struct Line<'a> {
    pub(crate) row: TableRow<'a>,
    pub(crate) ruling: u64,
    pub(crate) moves: Move,
}

/// Rulings up to the end of a period, and how many the payer made up to there.
#[derive(Drop)]
pub(crate) struct Rulings<'a> {
    pub(crate) lines: Vec<Line<'a>>,
    pub(crate) up_to: u64,
}

/// The rulings of a table up to the end of a period.
pub(crate) fn rulings_in<'a>(
    alloc: Global,
    table: &'a Table,
    columns: &RulingColumns,
    asked: &Remittance,
) -> Result<Rulings<'a>, ReportFault>
    ensures read { IfOk result (λ rulings. AreRulings asked.now (map fields_of table.now.records.items) columns.now
        (lines_seen rulings.lines.items) rulings.up_to) }
    ensures placed { IfOk result (λ rulings. lines_placed rulings.lines.items
        ≡ placed_from table.now.number columns.now asked.now 0 1 (rows_of (map fields_of table.now.records.items))) }
    ensures refuses { RefusesFor result
        (rulings_bad table.now.number columns.now asked.now 0 1 (rows_of (map fields_of table.now.records.items))) }
{
    let mut rulings = Rulings {
        lines: Vec::new(alloc),
        up_to: 0,
    };
    for (place, record) in table.rows().iter().enumerate() {
        let row = table.row(place, record);
        rulings.take_row(row, columns, asked)?;
    }
    Ok(rulings)
}

/// What the rulings before a period moved.
pub(crate) fn moves_before(
    alloc: Global,
    lines: &[Line<'_>],
    after: u64,
) -> Result<Vec<Move>, AllocError>
    ensures { IfOk result (λ moves. moves.items ≡ moves_before after (lines_seen lines.now)) }
{
    let mut moves = Vec::new(alloc);
    for line in lines {
        if line.ruling <= after {
            moves.push(line.moves)?;
        }
    }
    Ok(moves)
}

/// The rulings after a number.
pub(crate) fn lines_behind<'a>(
    alloc: Global,
    lines: &[Line<'a>],
    after: u64,
) -> Result<Vec<Line<'a>>, AllocError>
    ensures read { IfOk result (λ behind. lines_seen behind.items ≡ rulings_behind after (lines_seen lines.now)) }
    ensures placed { IfOk result (λ behind. lines_placed behind.items ≡ placed_behind after (lines_placed lines.now)) }
{
    let mut behind = Vec::new(alloc);
    for line in lines {
        if after < line.ruling {
            behind.push(*line)?;
        }
    }
    Ok(behind)
}

/// What rulings move.
pub(crate) fn moves_of(alloc: Global, lines: &[Line<'_>]) -> Result<Vec<Move>, AllocError>
    ensures { IfOk result (λ moves. moves.items ≡ map (λ r. r.moves) (lines_seen lines.now)) }
{
    let mut moves = Vec::new(alloc);
    for line in lines {
        moves.push(line.moves)?;
    }
    Ok(moves)
}

impl<'a> Rulings<'a> {
    /// Takes a row of the table.
    #[tactic(auto, unfolding(crate::specs::Rulings::read_row, crate::specs::Rulings::ruling_bad, crate::specs::Rulings::placed_row, crate::specs::Rulings::count_with))]
    fn take_row(
        &mut self,
        row: TableRow<'a>,
        columns: &RulingColumns,
        asked: &Remittance,
    ) -> Result<(), ReportFault>
        ensures read { OnOk result (ReadsRow columns.now asked.now (fields_of row.entry.record.now) self.old self.new) }
        ensures placed { OnOk result (AddsPlaced self.old.lines.items self.new.lines.items
            (placed_row row.entry.table columns.now asked.now self.old.up_to row.entry.number (fields_of row.entry.record.now))) }
        ensures count { OnOk result
            (self.new.up_to ≡ count_with columns.now asked.now self.old.up_to (fields_of row.entry.record.now)) }
        ensures refuses { RefusesFor result (bad_at row.entry.table row.entry.number
            (ruling_bad columns.now asked.now self.old.up_to (fields_of row.entry.record.now))) }
    {
        if row.number(columns.payer)? != asked.payer {
            return Ok(());
        }
        if self.up_to >= asked.up_to {
            return Ok(());
        }
        self.take_own(row, columns, asked)
    }

    /// Takes a row of the payer.
    fn take_own(
        &mut self,
        row: TableRow<'a>,
        columns: &RulingColumns,
        asked: &Remittance,
    ) -> Result<(), ReportFault>
        requires { self.old.up_to < asked.now.up_to }
        ensures read { OnOk result
            (ReadsOwn columns.now asked.now.pharmacy (fields_of row.entry.record.now) self.old self.new) }
        ensures placed { OnOk result (AddsPlaced self.old.lines.items self.new.lines.items
            (placed row.entry.table row.entry.number (self.old.up_to + 1) (fields_of row.entry.record.now)
            (unwrap_or (move_to columns.now asked.now.pharmacy (fields_of row.entry.record.now)) None))) }
        ensures count { OnOk result (self.new.up_to ≡ self.old.up_to + 1) }
        ensures refuses { RefusesFor result (bad_at row.entry.table row.entry.number
            (moved_bad columns.now asked.now.pharmacy (fields_of row.entry.record.now))) }
    {
        let moves = columns.move_to(&row, asked.pharmacy)?;
        let ruling = self.up_to + 1;
        put_line(&mut self.lines, row, ruling, moves)?;
        self.up_to = ruling;
        Ok(())
    }
}

/// Adds a ruling, where it moves something.
fn put_line<'a>(
    lines: &mut Vec<Line<'a>>,
    row: TableRow<'a>,
    ruling: u64,
    moves: Option<Move>,
) -> Result<(), AllocError>
    ensures read { OnOk result (AddsRuling lines.old.items lines.new.items ruling (fields_of row.entry.record.now) moves) }
    ensures placed { OnOk result (AddsPlaced lines.old.items lines.new.items
        (placed row.entry.table row.entry.number ruling (fields_of row.entry.record.now) moves)) }
{
    if let Some(moves) = moves {
        lines.push(Line { row, ruling, moves })?;
    }
    Ok(())
}

impl RulingColumns {
    /// Those of a table.
    #[tactic(auto, unfolding(crate::specs::Rulings::ruling_columns_missing))]
    pub(crate) fn of(table: &Table) -> Result<RulingColumns, ReportFault>
        ensures are { IfOk result (λ columns. columns ≡ ruling_columns_in (map fields_of table.now.records.items)) }
        ensures refuses { RefusesFor result
            (ruling_columns_missing table.now.number (map fields_of table.now.records.items)) }
    {
        Ok(RulingColumns {
            payer: table.column(Name::Payer)?,
            pharmacy: table.column(Name::Pharmacy)?,
            number: table.column(Name::Number)?,
            transaction: table.column(Name::Transaction)?,
            ruling: table.column(Name::Ruling)?,
            auth: table.column(Name::Authorization)?,
            prescription: table.column(Name::Prescription)?,
            day: table.column(Name::DateOfService)?,
            cents: table.column(Name::PaidCents)?,
        })
    }

    /// What the ruling of a row moves, if it is one of the pharmacy's and moves anything.
    #[tactic(auto, unfolding(crate::specs::Rulings::moved_bad))]
    pub(crate) fn move_to(
        &self,
        row: &TableRow<'_>,
        pharmacy: u64,
    ) -> Result<Option<Move>, ReportFault>
        ensures read { IfOk result (λ moves. move_to self.now pharmacy (fields_of row.now.record.now) ≡ Some moves) }
        ensures refuses { RefusesFor result
            (bad_at row.now.table row.now.number (moved_bad self.now pharmacy (fields_of row.now.record.now))) }
    {
        if row.number(self.pharmacy)? != pharmacy {
            return Ok(None);
        }
        self.move_of(row)
    }

    /// What the ruling of a row moves, if it moves anything.
    #[tactic(auto, unfolding(crate::specs::Rulings::move_of, crate::specs::Rulings::move_bad))]
    fn move_of(&self, row: &TableRow<'_>) -> Result<Option<Move>, ReportFault>
        ensures read { IfOk result (λ moves. move_of self.now (fields_of row.now.record.now) ≡ Some moves) }
        ensures refuses { RefusesFor result
            (bad_at row.now.table row.now.number (move_bad self.now (fields_of row.now.record.now))) }
    {
        let word = row.text(self.ruling);
        if word == b"paid".as_slice() {
            return self.payment_of(row);
        }
        if word == b"reversed".as_slice() {
            return self.reversal_of(row);
        }
        if word == b"duplicate".as_slice() || word == b"rejected".as_slice() {
            return Ok(None);
        }
        Err(row.bad(self.ruling))
    }

    /// What a payment moves.
    #[tactic(auto, unfolding(crate::specs::Rulings::payment_bad))]
    fn payment_of(&self, row: &TableRow<'_>) -> Result<Option<Move>, ReportFault>
        ensures read { IfOk result (λ moves. payment_of self.now (fields_of row.now.record.now) ≡ Some moves) }
        ensures refuses { RefusesFor result
            (bad_at row.now.table row.now.number (payment_bad self.now (fields_of row.now.record.now))) }
    {
        let auth = row.number(self.auth)?;
        let cents = row.number(self.cents)?;
        Ok(Some(Move::Paid(auth, cents)))
    }

    /// What a reversal moves.
    fn reversal_of(&self, row: &TableRow<'_>) -> Result<Option<Move>, ReportFault>
        ensures read { IfOk result (λ moves. reversal_of self.now (fields_of row.now.record.now) ≡ Some moves) }
        ensures refuses { RefusesFor result
            (bad_at row.now.table row.now.number (bad_number self.now.auth (fields_of row.now.record.now))) }
    {
        let auth = row.number(self.auth)?;
        Ok(Some(Move::Reversed(auth)))
    }
}
