//! The tables of both sides: what a pharmacy counts and entered, and what a payer paid.

ghost use Rattle.std.specs.Prelude.{◌≡◌, map, Some, IfOk};
ghost use Rattle.csv.specs.Records.{fields_of};
ghost use Rattle.claim_reports.specs.Causes.{RefusesFor, bad_at, records_of};
ghost use Rattle.claim_reports.specs.Compared.{parties_in, figure_columns_in, counted_columns_in, entry_columns_in, made_columns_in, parties_missing, figures_missing, counted_missing, entry_missing, made_missing, between_bad, figures_bad, counted_values_bad, made_values_bad, entry_values_bad, counted_bad, made_bad, entry_bad, counted_cause, entries_cause, made_cause, is_between, figures_in, counted_payment, made_payment, entry_of, counted_in, made_in, entry_in, AreCounted, AreEntries, AreMade};

use crate::books::Books;
use crate::differences::{Counted, Entry, Figures, Made};
use crate::fault::ReportFault;
use crate::naming::Name;
use crate::reading::Columns;
use crate::table::{Column, Table, TableRow};
use std::alloc::Global;

/// Which books of a payer and which pharmacy.
#[derive(Clone, Copy)]
pub struct Between {
    /// The books.
    pub books: Books,
    /// The pharmacy.
    pub pharmacy: u64,
}

/// The columns of the payer and the pharmacy of a payment.
#[derive(Clone, Copy)]
struct Parties {
    payer: Column,
    pharmacy: Column,
}

/// The columns of the figures of a payment.
#[derive(Clone, Copy)]
struct FigureColumns {
    prescription: Column,
    fill: Column,
    cost: Column,
    fee: Column,
    copay: Column,
    cents: Column,
}

/// The columns of a table `counted`.
#[derive(Clone, Copy)]
pub(crate) struct CountedColumns {
    parties: Parties,
    auth: Column,
    figures: FigureColumns,
}

/// The columns of a table `entries`.
#[derive(Clone, Copy)]
pub(crate) struct EntryColumns {
    pharmacy: Column,
    number: Column,
    state: Column,
}

/// The columns of a table `payments`.
#[derive(Clone, Copy)]
pub(crate) struct MadeColumns {
    parties: Parties,
    auth: Column,
    number: Column,
    figures: FigureColumns,
    reversed_by: Column,
}

impl Parties {
    /// Those of a table.
    #[tactic(auto, unfolding(crate::specs::Compared::parties_missing))]
    fn of(table: &Table) -> Result<Parties, ReportFault>
        ensures are { IfOk result (λ columns. columns ≡ parties_in (map fields_of table.now.records.items)) }
        ensures refuses { RefusesFor result (parties_missing table.now.number (map fields_of table.now.records.items)) }
    {
        Ok(Parties {
            payer: table.column(Name::Payer)?,
            pharmacy: table.column(Name::Pharmacy)?,
        })
    }

    /// Whether a row is of one of the books, and then of the pharmacy.
    #[tactic(auto, unfolding(crate::specs::Compared::between_bad))]
    fn are(&self, row: &TableRow<'_>, between: Between) -> Result<bool, ReportFault>
        ensures read { IfOk result (λ is. is_between self.now between (fields_of row.now.record.now) ≡ Some is) }
        ensures refuses { RefusesFor result
            (bad_at row.now.table row.now.number (between_bad self.now between (fields_of row.now.record.now))) }
    {
        if !between.books.has(row.number(self.payer)?) {
            return Ok(false);
        }
        Ok(row.number(self.pharmacy)? == between.pharmacy)
    }
}

impl FigureColumns {
    /// Those of a table.
    #[tactic(auto, unfolding(crate::specs::Compared::figures_missing))]
    fn of(table: &Table) -> Result<FigureColumns, ReportFault>
        ensures are { IfOk result (λ columns. columns ≡ figure_columns_in (map fields_of table.now.records.items)) }
        ensures refuses { RefusesFor result (figures_missing table.now.number (map fields_of table.now.records.items)) }
    {
        Ok(FigureColumns {
            prescription: table.column(Name::Prescription)?,
            fill: table.column(Name::Fill)?,
            cost: table.column(Name::CostCents)?,
            fee: table.column(Name::FeeCents)?,
            copay: table.column(Name::CopayCents)?,
            cents: table.column(Name::PaidCents)?,
        })
    }

    /// The figures of a row.
    #[tactic(auto, unfolding(crate::specs::Compared::figures_in, crate::specs::Compared::figures_bad))]
    fn figures(&self, row: &TableRow<'_>) -> Result<Figures, ReportFault>
        ensures read { IfOk result (λ figures. figures_in self.now (fields_of row.now.record.now) ≡ Some figures) }
        ensures refuses { RefusesFor result
            (bad_at row.now.table row.now.number (figures_bad self.now (fields_of row.now.record.now))) }
    {
        Ok(Figures {
            prescription: row.number(self.prescription)?,
            fill: row.number(self.fill)?,
            cost: row.number(self.cost)?,
            fee: row.number(self.fee)?,
            copay: row.number(self.copay)?,
            cents: row.number(self.cents)?,
        })
    }
}

impl Columns for CountedColumns {
    type Row = Counted;

    type Whose = Between;

    ghost columns_in = { λ _ records. counted_columns_in records };

    ghost missing = { λ _ table records. counted_missing table records };

    ghost row_in = { λ columns between row. counted_in columns between row };

    ghost bad = { λ between columns row. counted_bad between columns row };

    /// Those of a table.
    #[tactic(auto, unfolding(crate::specs::Compared::counted_missing))]
    fn of(table: &Table, _whose: &Between) -> Result<CountedColumns, ReportFault> {
        Ok(CountedColumns {
            parties: Parties::of(table)?,
            auth: table.column(Name::Authorization)?,
            figures: FigureColumns::of(table)?,
        })
    }

    /// The payment of a row that is of both.
    #[tactic(auto, unfolding(crate::specs::Compared::counted_in, crate::specs::Compared::counted_bad))]
    fn row(
        &self,
        _alloc: Global,
        row: &TableRow<'_>,
        between: &Between,
    ) -> Result<Option<Counted>, ReportFault> {
        if !self.parties.are(row, *between)? {
            return Ok(None);
        }
        Ok(Some(self.payment(row)?))
    }
}

impl CountedColumns {
    /// The payment of a row.
    #[tactic(auto, unfolding(crate::specs::Compared::counted_values_bad))]
    fn payment(&self, row: &TableRow<'_>) -> Result<Counted, ReportFault>
        ensures read { IfOk result (λ counted. counted_payment self.now (fields_of row.now.record.now) ≡ Some counted) }
        ensures refuses { RefusesFor result
            (bad_at row.now.table row.now.number (counted_values_bad self.now (fields_of row.now.record.now))) }
    {
        Ok(Counted {
            auth: row.number(self.auth)?,
            figures: self.figures.figures(row)?,
        })
    }
}

impl Columns for EntryColumns {
    type Row = Entry;

    type Whose = u64;

    ghost columns_in = { λ _ records. entry_columns_in records };

    ghost missing = { λ _ table records. entry_missing table records };

    ghost row_in = { λ columns pharmacy row. entry_in columns pharmacy row };

    ghost bad = { λ pharmacy columns row. entry_bad pharmacy columns row };

    /// Those of a table.
    #[tactic(auto, unfolding(crate::specs::Compared::entry_missing))]
    fn of(table: &Table, _whose: &u64) -> Result<EntryColumns, ReportFault> {
        Ok(EntryColumns {
            pharmacy: table.column(Name::Pharmacy)?,
            number: table.column(Name::Number)?,
            state: table.column(Name::State)?,
        })
    }

    /// The entry of a row that is of the pharmacy.
    #[tactic(auto, unfolding(crate::specs::Compared::entry_in, crate::specs::Compared::entry_bad))]
    fn row(
        &self,
        _alloc: Global,
        row: &TableRow<'_>,
        pharmacy: &u64,
    ) -> Result<Option<Entry>, ReportFault> {
        if row.number(self.pharmacy)? != *pharmacy {
            return Ok(None);
        }
        Ok(Some(self.own(row)?))
    }
}

impl EntryColumns {
    /// The entry of a row.
    #[tactic(auto, unfolding(crate::specs::Compared::entry_values_bad))]
    fn own(&self, row: &TableRow<'_>) -> Result<Entry, ReportFault>
        ensures read { IfOk result (λ entry. entry_of self.now (fields_of row.now.record.now) ≡ Some entry) }
        ensures refuses { RefusesFor result
            (bad_at row.now.table row.now.number (entry_values_bad self.now (fields_of row.now.record.now))) }
    {
        Ok(Entry {
            number: row.number(self.number)?,
            open: row.word(self.state, b"answered", b"open")?,
        })
    }
}

impl Columns for MadeColumns {
    type Row = Made;

    type Whose = Between;

    ghost columns_in = { λ _ records. made_columns_in records };

    ghost missing = { λ _ table records. made_missing table records };

    ghost row_in = { λ columns between row. made_in columns between row };

    ghost bad = { λ between columns row. made_bad between columns row };

    /// Those of a table.
    #[tactic(auto, unfolding(crate::specs::Compared::made_missing))]
    fn of(table: &Table, _whose: &Between) -> Result<MadeColumns, ReportFault> {
        Ok(MadeColumns {
            parties: Parties::of(table)?,
            auth: table.column(Name::Authorization)?,
            number: table.column(Name::Number)?,
            figures: FigureColumns::of(table)?,
            reversed_by: table.column(Name::ReversedBy)?,
        })
    }

    /// The payment of a row that is of both.
    #[tactic(auto, unfolding(crate::specs::Compared::made_in, crate::specs::Compared::made_bad))]
    fn row(
        &self,
        _alloc: Global,
        row: &TableRow<'_>,
        between: &Between,
    ) -> Result<Option<Made>, ReportFault> {
        if !self.parties.are(row, *between)? {
            return Ok(None);
        }
        Ok(Some(self.payment(row)?))
    }
}

impl MadeColumns {
    /// The payment of a row.
    #[tactic(auto, unfolding(crate::specs::Compared::made_values_bad))]
    fn payment(&self, row: &TableRow<'_>) -> Result<Made, ReportFault>
        ensures read { IfOk result (λ made. made_payment self.now (fields_of row.now.record.now) ≡ Some made) }
        ensures refuses { RefusesFor result
            (bad_at row.now.table row.now.number (made_values_bad self.now (fields_of row.now.record.now))) }
    {
        Ok(Made {
            auth: row.number(self.auth)?,
            number: row.number(self.number)?,
            figures: self.figures.figures(row)?,
            reversed_by: row.optional_number(self.reversed_by)?,
        })
    }
}
