//! What the rows of a table give, of whichever kind the table is.

ghost use Rattle.std.specs.Prelude.{◌≡◌, ◌++◌, [], Some, map, unwrap_or, IfOk, OnOk};
ghost use Rattle.csv.specs.Records.{fields_of};
ghost use Rattle.claim_reports.specs.Causes.{RefusesFor, bad_at, columns_cause, records_of, table_cause};
ghost use Rattle.claim_reports.specs.Tables.{AreGiven, given, given_by, rows_of};

use crate::fault::ReportFault;
use crate::table::{Table, TableRow};
use std::alloc::{AllocError, Global};

/// The columns of a kind of table, by which its rows are read.
pub(crate) trait Columns: Copy + Sized {
    ghost use Rattle.std.specs.Prelude.{ℕ, List, Option};
    ghost use Rattle.claim_reports.specs.Causes.{Cause};

    /// What a row gives.
    type Row: Drop;

    /// For whom rows are read: those of others give nothing.
    type Whose: Drop;

    /// The columns of records.
    ghost columns_in: { Self.Whose → List (List (List ℕ)) → Self };

    /// The first column that the records of a table of this number lack.
    ghost missing: { Self.Whose → ℕ → List (List (List ℕ)) → Option Cause };

    /// What a row gives, where it gives something; none where it cannot be read.
    ghost row_in: { Self → Self.Whose → List (List ℕ) → Option (Option Self.Row) };

    /// The name of the first column whose value in a row is none of its kind.
    ghost bad: { Self.Whose → Self → List (List ℕ) → Option (List ℕ) };

    /// Those of a table.
    fn of(table: &Table, whose: &Self::Whose) -> Result<Self, ReportFault>
        ensures are { IfOk result (λ columns. columns ≡ columns_in whose.now (map fields_of table.now.records.items)) }
        ensures refuses { RefusesFor result (missing whose.now table.now.number (map fields_of table.now.records.items)) };

    /// What a row gives.
    fn row(
        &self,
        alloc: Global,
        row: &TableRow<'_>,
        whose: &Self::Whose,
    ) -> Result<Option<Self::Row>, ReportFault>
        ensures read { IfOk result (λ one. row_in self.now whose.now (fields_of row.now.record.now) ≡ Some one) }
        ensures refuses { RefusesFor result
            (bad_at row.now.table row.now.number (bad whose.now self.now (fields_of row.now.record.now))) };
}

/// What the rows of a text of CSV give, the table of this number among those that were given.
///
/// # Errors
/// The first fault of the table, by its text, its columns and its rows; want of memory.
#[tactic(auto, unfolding(crate::specs::Causes::table_cause), using(crate::proofs::Telling::passed, crate::proofs::Telling::refuses_same, crate::proofs::Telling::table_is, crate::proofs::Telling::tells_first))]
pub(crate) fn rows_in<C: Columns>(
    alloc: Global,
    number: u64,
    text: &[u8],
    whose: &C::Whose,
) -> Result<Vec<C::Row>, ReportFault>
    ensures read { IfOk result (λ rows.
        AreGiven (C.columns_in whose.now) (λ columns. C.row_in columns whose.now) text.now rows.items) }
    ensures all { IfOk result (λ rows. unwrap_or (given_by (C.row_in (C.columns_in whose.now (records_of text.now)) whose.now)
        (rows_of (records_of text.now))) [] ≡ rows.items) }
    ensures refuses { RefusesFor result (table_cause number (C.missing whose.now number (records_of text.now))
        (C.bad whose.now (C.columns_in whose.now (records_of text.now))) (records_of text.now)) }
{
    let table = Table::read(alloc, number, text)?;
    rows_of::<C>(alloc, &table, whose)
}

/// What the rows of a table give.
///
/// # Errors
/// The first fault of its columns and its rows; want of memory.
#[tactic(auto, unfolding(crate::specs::Causes::columns_cause), using(crate::proofs::Telling::all_good, crate::proofs::Telling::bad_here, crate::proofs::Telling::neither, crate::proofs::Telling::passed, crate::proofs::Telling::row_at, crate::proofs::Telling::tells_first, crate::proofs::Telling::tells_then))]
pub(crate) fn rows_of<C: Columns>(
    alloc: Global,
    table: &Table,
    whose: &C::Whose,
) -> Result<Vec<C::Row>, ReportFault>
    ensures read { IfOk result (λ rows.
        given_by (C.row_in (C.columns_in whose.now (map fields_of table.now.records.items)) whose.now)
        (rows_of (map fields_of table.now.records.items)) ≡ Some rows.items) }
    ensures refuses { RefusesFor result (columns_cause table.now.number
        (C.missing whose.now table.now.number (map fields_of table.now.records.items))
        (C.bad whose.now (C.columns_in whose.now (map fields_of table.now.records.items)))
        (map fields_of table.now.records.items)) }
{
    let columns = C::of(table, whose)?;
    let mut rows = Vec::new(alloc);
    for (place, record) in table.rows().iter().enumerate() {
        let one = columns.row(alloc, &table.row(place, record), whose)?;
        add(&mut rows, one)?;
    }
    Ok(rows)
}

/// Adds what a row gives, where it gives something.
fn add<T: Drop>(list: &mut Vec<T>, one: Option<T>) -> Result<(), AllocError>
    ensures { OnOk result (list.new.items ≡ list.old.items ++ given one) }
{
    if let Some(one) = one {
        list.push(one)?;
    }
    Ok(())
}
