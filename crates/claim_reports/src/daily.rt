//! The rulings of a payer's books that moved a pharmacy's money, each with the day on which it was ruled.

ghost use Rattle.std.specs.Prelude.{◌≡◌, Some, IfOk};
ghost use Rattle.csv.specs.Records.{fields_of};
ghost use Rattle.claim_reports.specs.Causes.{RefusesFor, bad_at};
ghost use Rattle.claim_reports.specs.Daily.{book_bad, daily_bad, daily_columns_in, daily_in, daily_missing, earlier, is_before, is_within, moves_of, of_book_in, values_bad, values_of, within};

use crate::books::Books;
use crate::choice::{is_from, is_to};
use crate::fault::ReportFault;
use crate::ledger::Move;
use crate::naming::Name;
use crate::reading::Columns;
use crate::rulings::RulingColumns;
use crate::statement::Numbers;
use crate::table::{Column, Table, TableRow};
use std::alloc::{AllocError, Global};

/// A remittance of a payer's books to a pharmacy, for the rulings of some days.
#[derive(Clone, Copy)]
pub struct DailyRemittance {
    /// The books.
    pub books: Books,
    /// The pharmacy.
    pub pharmacy: u64,
    /// The first day of ruling, CCYYMMDD; where it is none nothing is before the first one.
    pub from: Option<u64>,
    /// The last one; all later ones where it is none.
    pub to: Option<u64>,
    /// What the pharmacy owed at its beginning, in cents.
    pub owed: u64,
}

/// The columns of a table of rows with when each was ruled.
#[derive(Clone, Copy)]
pub(crate) struct DailyColumns {
    rulings: RulingColumns,
    ruled_on: Column,
}

/// A ruling that moved money.
#[derive(Clone, Copy)]
pub(crate) struct DailyRuling {
    pub(crate) payer: u64,
    pub(crate) ruled_on: u64,
    pub(crate) numbers: Numbers,
    pub(crate) service: u64,
    pub(crate) moves: Move,
}

impl Columns for DailyColumns {
    type Row = DailyRuling;

    type Whose = DailyRemittance;

    ghost columns_in = { λ _ records. daily_columns_in records };

    ghost missing = { λ _ table records. daily_missing table records };

    ghost row_in = { λ columns asked row. daily_in columns asked row };

    ghost bad = { λ asked columns row. daily_bad asked columns row };

    /// Those of a table.
    #[tactic(auto, unfolding(crate::specs::Daily::daily_missing))]
    fn of(table: &Table, _whose: &DailyRemittance) -> Result<DailyColumns, ReportFault> {
        Ok(DailyColumns {
            rulings: RulingColumns::of(table)?,
            ruled_on: table.column(Name::RuledOn)?,
        })
    }

    /// The ruling of a row that is of one of the books, and moved the pharmacy's money.
    #[tactic(auto, unfolding(crate::specs::Daily::daily_in, crate::specs::Daily::daily_bad))]
    fn row(
        &self,
        _alloc: Global,
        row: &TableRow<'_>,
        asked: &DailyRemittance,
    ) -> Result<Option<DailyRuling>, ReportFault> {
        let payer = row.number(self.rulings.payer)?;
        if !asked.books.has(payer) {
            return Ok(None);
        }
        self.of_book(row, payer, asked)
    }
}

impl DailyColumns {
    /// The ruling of a row of a book that moved the pharmacy's money.
    #[tactic(auto, unfolding(crate::specs::Daily::book_bad))]
    fn of_book(
        &self,
        row: &TableRow<'_>,
        payer: u64,
        asked: &DailyRemittance,
    ) -> Result<Option<DailyRuling>, ReportFault>
        ensures read { IfOk result (λ one.
            of_book_in self.now asked.now payer (fields_of row.now.record.now) ≡ Some one) }
        ensures refuses { RefusesFor result
            (bad_at row.now.table row.now.number (book_bad asked.now self.now (fields_of row.now.record.now))) }
    {
        match self.rulings.move_to(row, asked.pharmacy)? {
            Some(moves) => Ok(Some(self.values(row, payer, moves)?)),
            None => Ok(None),
        }
    }

    /// What a ruling that moved money says.
    #[tactic(auto, unfolding(crate::specs::Daily::values_bad))]
    fn values(
        &self,
        row: &TableRow<'_>,
        payer: u64,
        moves: Move,
    ) -> Result<DailyRuling, ReportFault>
        ensures read { IfOk result (λ ruling.
            values_of self.now payer moves (fields_of row.now.record.now) ≡ Some ruling) }
        ensures refuses { RefusesFor result
            (bad_at row.now.table row.now.number (values_bad self.now (fields_of row.now.record.now))) }
    {
        Ok(DailyRuling {
            payer,
            ruled_on: row.number(self.ruled_on)?,
            numbers: Numbers::of(row, &self.rulings)?,
            service: row.number(self.rulings.day)?,
            moves,
        })
    }
}

impl DailyRemittance {
    /// What rulings of earlier days moved.
    pub(crate) fn earlier(
        &self,
        alloc: Global,
        rulings: &[DailyRuling],
    ) -> Result<Vec<Move>, AllocError>
        ensures { IfOk result (λ moves. moves.items ≡ earlier self.now rulings.now) }
    {
        rulings
            .iter()
            .filter(|ruling| self.is_before(*ruling))
            .map(|ruling| ruling.moves)
            .collect(alloc)
    }

    /// The rulings of its days.
    pub(crate) fn within(
        &self,
        alloc: Global,
        rulings: &[DailyRuling],
    ) -> Result<Vec<DailyRuling>, AllocError>
        ensures { IfOk result (λ kept. kept.items ≡ within self.now rulings.now) }
    {
        rulings
            .iter()
            .filter(|ruling| self.is_within(*ruling))
            .copied()
            .collect(alloc)
    }

    /// Whether a ruling is of an earlier day.
    fn is_before(&self, ruling: &DailyRuling) -> bool
        ensures { result ≡ is_before self.now ruling.now }
    {
        self.from.is_some_and(|first| ruling.ruled_on < first)
    }

    /// Whether a ruling is of its days.
    fn is_within(&self, ruling: &DailyRuling) -> bool
        ensures { result ≡ is_within self.now ruling.now }
    {
        is_from(self.from, Some(ruling.ruled_on)) && is_to(self.to, Some(ruling.ruled_on))
    }
}

/// What rulings moved.
pub(crate) fn moves_of(alloc: Global, rulings: &[DailyRuling]) -> Result<Vec<Move>, AllocError>
    ensures { IfOk result (λ moves. moves.items ≡ moves_of rulings.now) }
{
    rulings.iter().map(|ruling| ruling.moves).collect(alloc)
}
