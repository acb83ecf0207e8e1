//! Totals of a table of payments, as a table.

ghost use Rattle.std.specs.Prelude.{◌≡◌, ◌++◌, Some, None, option_map, IfOk, OnOk, IfErr};
ghost use Rattle.std.specs.BTreeMap.{IsOrdered};
ghost use Rattle.csv.specs.Records.{fields_of};
ghost use Rattle.claim_reports.specs.Totals.{key_cmp};
ghost use Rattle.claim_reports.specs.Causes.{BadValue as IsBad, RefusesFor, cause_of};
ghost use Rattle.claim_reports.specs.Names.{name_text};
ghost use Rattle.claim_reports.specs.Totalled.{day_name, day_column, by_name, columns_in, columns_missing, bad_day, paid_bad, totals_cause, day_in, paid_in, is_all, total_names, total_row, totals_text, IsTotalled};
ghost use Rattle.table_text.specs.Adding.{Adds, AddsRow};
ghost use Rattle.table_text.specs.Rows.{head_text};
ghost use Rattle.table_text.specs.declared.layout.Style.TheVariants.{Csv};

use crate::choice::{Choice, Paid, chosen};
use crate::fault::ReportFault;
use crate::naming::Name;
use crate::reading::{Columns, rows_in};
use crate::table::{Column, Table, TableRow};
use crate::totals::{By, Sums, totals_of};
use std::alloc::{AllocError, Global};
use std::collections::BTreeMap;
use table_text::{Field, Style, put_head, put_row};

/// Which day of a payment a report goes by.
#[derive(Clone, Copy, PartialEq, Eq)]
pub enum Days {
    /// The date of service (401-D1).
    Service,
    /// The day on which it was ruled, of a table with the columns that `ruled_table` adds.
    Ruling,
}

/// The columns of a table of payments that totals are made of.
#[derive(Clone, Copy)]
struct PaidColumns {
    payer: Column,
    pharmacy: Column,
    day: Column,
    cents: Column,
    state: Column,
}

/// The totals of those payments of a table of `payments` that are chosen, as CSV: a row for each number, in its order, and
/// before them one for the payments without a day, where there are some; or one row for all of them together.
///
/// # Errors
/// A table that is none, or has a value of another kind; a sum of more than 64 bits; want of memory.
pub fn totals_table(
    alloc: Global,
    payments: &[u8],
    by: By,
    days: Days,
    choice: &Choice,
) -> Result<Vec<u8>, ReportFault>
    // What is written is, row by row, the totals of the payments that a reader of CSV finds in the table.
    ensures made { IfOk result (λ text. IsTotalled payments.now by days choice.now text.items) }
    // It is refused for the first fault of the table, for sums that are too large, or for want of memory, and for nothing else.
    ensures refuses { RefusesFor result (totals_cause payments.now by days choice.now) }
{
    let paid = rows_in::<PaidColumns>(alloc, 1, payments, &days)?;
    let kept = chosen(alloc, choice, paid.as_slice())?;
    let totals = totals_of(alloc, by, kept.as_slice())?;
    let mut out = Vec::new(alloc);
    put_totals(&mut out, by, days, &totals)?;
    Ok(out)
}

impl Columns for PaidColumns {
    type Row = Paid;

    type Whose = Days;

    ghost columns_in = { λ days records. columns_in days records };

    ghost missing = { λ days table records. columns_missing table days records };

    ghost row_in = { λ columns days row. option_map Some (paid_in days columns row) };

    ghost bad = { λ days columns row. paid_bad days columns row };

    /// Those of a table.
    fn of(table: &Table, days: &Days) -> Result<PaidColumns, ReportFault> {
        Ok(PaidColumns {
            payer: table.column(Name::Payer)?,
            pharmacy: table.column(Name::Pharmacy)?,
            day: table.column(days.column())?,
            cents: table.column(Name::PaidCents)?,
            state: table.column(Name::State)?,
        })
    }

    /// The payment of a row.
    #[tactic(auto, unfolding(crate::specs::Totalled::paid_in, crate::specs::Totalled::paid_bad))]
    fn row(
        &self,
        _alloc: Global,
        row: &TableRow<'_>,
        days: &Days,
    ) -> Result<Option<Paid>, ReportFault> {
        Ok(Some(Paid {
            payer: row.number(self.payer)?,
            pharmacy: row.number(self.pharmacy)?,
            day: days.day(row, self.day)?,
            cents: row.number(self.cents)?,
            reversed: row.word(self.state, b"standing", b"reversed")?,
        }))
    }
}

/// Appends totals.
fn put_totals(
    out: &mut Vec<u8>,
    by: By,
    days: Days,
    totals: &BTreeMap<Option<u64>, Sums>,
) -> Result<(), AllocError>
    ensures text { OnOk result (out.new.items ≡ out.old.items ++ totals_text by days totals.now.entries) }
    ensures ordered { OnOk result (IsOrdered key_cmp totals.now) }
{
    let name = by.name(days).as_bytes();
    put_names(out, by, name)?;
    for (number, sums) in totals {
        put_total(out, by, name, *number, sums)?;
    }
    Ok(())
}

/// Appends the names of the columns; those of all payments together have no number.
fn put_names(out: &mut Vec<u8>, by: By, name: &'static [u8]) -> Result<(), AllocError>
    ensures { OnOk result (Adds out.old out.new (head_text (total_names by name.now))) }
{
    let names: [&[u8]; 5] = [
        name,
        b"payments",
        b"cents",
        b"reversed_payments",
        b"reversed_cents",
    ];
    if by.is_all() {
        put_head(out, &names[1..])
    } else {
        put_head(out, &names)
    }
}

/// Appends the sums of a number, which stands under a name; those of all payments together have none.
#[tactic(auto, unfolding(crate::specs::Totalled::sums_row))]
fn put_total(
    out: &mut Vec<u8>,
    by: By,
    name: &'static [u8],
    number: Option<u64>,
    sums: &Sums,
) -> Result<(), AllocError>
    ensures { OnOk result (AddsRow Csv out.old out.new (total_row by name.now number sums.now)) }
{
    let fields = [
        Field::number_or_nothing(name, number),
        Field::number(b"payments", sums.count),
        Field::number(b"cents", sums.cents),
        Field::number(b"reversed_payments", sums.reversed_count),
        Field::number(b"reversed_cents", sums.reversed_cents),
    ];
    if by.is_all() {
        put_row(out, Style::Csv, &fields[1..])
    } else {
        put_row(out, Style::Csv, &fields)
    }
}

impl By {
    /// Whether it is all payments together.
    fn is_all(self) -> bool
        ensures { result ≡ is_all self }
    {
        matches!(self, By::All)
    }

    /// The name of its column, where it has one.
    fn name(self, days: Days) -> &'static str
        ensures { result.now ≡ by_name self days }
    {
        match self {
            By::Payer => "payer",
            By::Pharmacy => "pharmacy",
            By::Day => days.name(),
            By::All => "",
        }
    }
}

impl Days {
    /// Its column.
    fn column(self) -> Name
        ensures { result ≡ day_column self }
    {
        match self {
            Days::Service => Name::DateOfService,
            Days::Ruling => Name::RuledOn,
        }
    }

    /// The name of its column.
    fn name(self) -> &'static str
        ensures { result.now ≡ day_name self }
    {
        self.column().text()
    }

    /// The day of a row, which its column has; that of ruling may not be known.
    fn day(self, row: &TableRow<'_>, column: Column) -> Result<Option<u64>, ReportFault>
        ensures read { IfOk result (λ day. day_in self column.place (fields_of row.now.record.now) ≡ Some day) }
        ensures bad { OnOk result (bad_day self column (fields_of row.now.record.now) ≡ None) }
        ensures why { IfErr result (λ e. bad_day self column (fields_of row.now.record.now) ≡ Some (name_text column.name)) }
        ensures tells { IfErr result (λ e. cause_of e ≡ Some (IsBad row.now.table row.now.number (name_text column.name))) }
    {
        match self {
            Days::Service => Ok(Some(row.number(column)?)),
            Days::Ruling => row.optional_number(column),
        }
    }
}
