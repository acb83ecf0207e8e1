//! A report on tables, whichever it is.

ghost use Rattle.std.specs.Prelude.{◌≡◌, IfOk};
ghost use Rattle.claim_reports.specs.Causes.{RefusesFor};
ghost use Rattle.claim_reports.specs.Reporting.{IsReportOf, report_cause, table_at, tables_of};

use crate::by_days::{daily_lines, daily_sums};
use crate::choice::Choice;
use crate::comparing::compare_tables;
use crate::daily::DailyRemittance;
use crate::fault::ReportFault;
use crate::receipts::receipts_beside;
use crate::remitting::{remittance_lines, remittance_sums};
use crate::reported::Reported;
use crate::ruled_rows::ruled_table;
use crate::rulings::Remittance;
use crate::sides::Between;
use crate::totalling::{Days, totals_table};
use crate::totals::By;
use std::alloc::Global;

/// A report on tables.
#[derive(Clone, Copy)]
pub enum Report {
    /// The totals of payments.
    Totals(By, Days, Choice),
    /// What a payer sends a pharmacy, ruling by ruling.
    Lines(Remittance),
    /// The sums of it.
    Sums(Remittance),
    /// What a payer of several books sends a pharmacy for the rulings of some days, ruling by ruling.
    DailyLines(DailyRemittance),
    /// The sums of it.
    DailySums(DailyRemittance),
    /// What a pharmacy counts beside what a payer paid.
    Compare(Between),
    /// What the callers of a pharmacy were told beside a run.
    Receipts(u64),
    /// A table of a payer with when each row was ruled.
    Ruled,
}

/// The report on tables, in the order in which it reads them; one that is not there is empty.
///
/// # Errors
/// A table that is none, lacks a column, or has a value of another kind; rulings that are none of a book; a sum of more than 64
/// bits; want of memory.
pub fn report_on(alloc: Global, tables: &[Vec<u8>], report: Report) -> Result<Reported, ReportFault>
    // What is told is this report of these tables, and good is that its sides agree, where it has sides.
    ensures told { IfOk result (λ told. IsReportOf report (tables_of tables.now) told.text.items told.good) }
    // It is refused for what is wrong first with the tables that it reads, or for want of memory, and for nothing else.
    ensures refuses { RefusesFor result (report_cause report (tables_of tables.now)) }
{
    let (first, second, third) = (
        table_at(tables, 0),
        table_at(tables, 1),
        table_at(tables, 2),
    );
    match report {
        Report::Totals(by, days, choice) => Ok(Reported::plain(totals_table(
            alloc, first, by, days, &choice,
        )?)),
        Report::Lines(asked) => Ok(Reported::plain(remittance_lines(alloc, first, &asked)?)),
        Report::Sums(asked) => Ok(Reported::plain(remittance_sums(alloc, first, &asked)?)),
        Report::DailyLines(asked) => Ok(Reported::plain(daily_lines(alloc, first, &asked)?)),
        Report::DailySums(asked) => Ok(Reported::plain(daily_sums(alloc, first, &asked)?)),
        Report::Compare(between) => compare_tables(alloc, first, second, third, between),
        Report::Receipts(pharmacy) => receipts_beside(alloc, first, second, third, pharmacy),
        Report::Ruled => Ok(Reported::plain(ruled_table(alloc, first, second)?)),
    }
}

/// The table at a place; empty where it is not there.
fn table_at(tables: &[Vec<u8>], place: usize) -> &[u8]
    ensures { result.now ≡ table_at (tables_of tables.now) place }
{
    tables.get(place).map_or(b"", |table| table.as_slice())
}
