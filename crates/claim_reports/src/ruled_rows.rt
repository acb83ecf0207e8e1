//! A table of rows or payments of payers, with when each was ruled.

ghost use Rattle.std.specs.Prelude.{◌≡◌, ◌++◌, None, Some, get_or, map, option_map, IfErr, IfOk, OnOk};
ghost use Rattle.csv.specs.Records.{fields_of};
ghost use Rattle.claim_reports.specs.declared.fault.ReportFault.TheVariants.{OutOfMemory};
ghost use Rattle.claim_reports.specs.Digits.{time_text, day_text};
ghost use Rattle.claim_reports.specs.Wider.{wider_text};
ghost use Rattle.claim_reports.specs.Causes.{RefusesFor, bad_at};
ghost use Rattle.claim_reports.specs.WhenRuled.{named_in, row_columns_in, call_columns_in, named_missing, row_columns_missing, call_columns_missing, named_bad, request_bad, taken_by_bad, taken_bad, ruled_cause, request_to, request_in, payer_named, taken_by, taken_in, AddsRuled, AddsTimed, IsTimed, IsRuledTable};

use crate::clock::{day_text, shown_at, time_text};
use crate::fault::ReportFault;
use crate::naming::Name;
use crate::reading::{Columns, rows_in, rows_of};
use crate::ruled::{Request, Taken, ruled_times};
use crate::table::{Column, Table, TableRow};
use crate::wider::put_wider;
use csv::ByteRecord;
use input_text::read_decimal;
use jiff::civil::DateTime;
use std::alloc::Global;

/// The columns of a table that name a request.
#[derive(Clone, Copy)]
struct Named {
    pharmacy: Column,
    number: Column,
}

/// The columns of a table of rows that are read.
#[derive(Clone, Copy)]
struct RowColumns {
    payer: Column,
    named: Named,
}

/// The columns of a table of calls that are read.
#[derive(Clone, Copy)]
struct CallColumns {
    node: Column,
    time: Column,
    carries: Column,
    named: Named,
}

/// A table of `rows` or `payments` as it stands, with two columns after it: the date and the time at which each row was ruled,
/// and the day of it, by a table of `calls` of the payers' logs. Both are empty where that is not known.
///
/// # Errors
/// A table that is none, or has a value of another kind; a table that has one of the two columns; want of memory.
pub fn ruled_table(alloc: Global, rows: &[u8], calls: &[u8]) -> Result<Vec<u8>, ReportFault>
    // What is written is, line by line, the records that a reader of CSV gives of the table, each row with the time of its own
    // ruling after it.
    ensures made { IfOk result (λ text. IsRuledTable rows.now calls.now text.items) }
    // It is refused for the first fault of the tables or for want of memory, and for nothing else.
    ensures refuses { RefusesFor result (ruled_cause rows.now calls.now) }
{
    let table = Table::read(alloc, 1, rows)?;
    table.lacks(Name::RuledAt)?;
    table.lacks(Name::RuledOn)?;
    let requests = rows_of::<RowColumns>(alloc, &table, &())?;
    let taken = rows_in::<CallColumns>(alloc, 2, calls, &())?;
    let times = ruled_times(alloc, taken.as_slice(), requests.as_slice())?;
    with_times(alloc, table.records(), times.as_slice())
}

/// The number of the payer that a node is, where it is one.
fn payer_named(node: &[u8]) -> Option<u64>
    ensures { result ≡ payer_named node.now }
{
    read_decimal(node.strip_prefix(b"pr")?, 18)
}

impl Named {
    /// Those of a table.
    #[tactic(auto, unfolding(crate::specs::WhenRuled::named_missing))]
    fn of(table: &Table) -> Result<Named, ReportFault>
        ensures are { IfOk result (λ columns. columns ≡ named_in (map fields_of table.now.records.items)) }
        ensures refuses { RefusesFor result (named_missing table.now.number (map fields_of table.now.records.items)) }
    {
        Ok(Named {
            pharmacy: table.column(Name::Pharmacy)?,
            number: table.column(Name::Number)?,
        })
    }

    /// The request to a payer that a row names.
    #[tactic(auto, unfolding(crate::specs::WhenRuled::named_bad))]
    fn request(&self, row: &TableRow<'_>, payer: u64) -> Result<Request, ReportFault>
        ensures read { IfOk result (λ request. request_to self.now payer (fields_of row.now.record.now) ≡ Some request) }
        ensures refuses { RefusesFor result
            (bad_at row.now.table row.now.number (named_bad self.now (fields_of row.now.record.now))) }
    {
        Ok(Request {
            payer,
            pharmacy: row.number(self.pharmacy)?,
            number: row.number(self.number)?,
        })
    }
}

impl Columns for RowColumns {
    type Row = Request;

    type Whose = ();

    ghost columns_in = { λ _ records. row_columns_in records };

    ghost missing = { λ _ table records. row_columns_missing table records };

    ghost row_in = { λ columns _ row. option_map Some (request_in columns row) };

    ghost bad = { λ _ columns row. request_bad columns row };

    /// Those of a table.
    #[tactic(auto, unfolding(crate::specs::WhenRuled::row_columns_missing))]
    fn of(table: &Table, _whose: &()) -> Result<RowColumns, ReportFault> {
        Ok(RowColumns {
            payer: table.column(Name::Payer)?,
            named: Named::of(table)?,
        })
    }

    /// The request that a row is about.
    #[tactic(auto, unfolding(crate::specs::WhenRuled::request_bad))]
    fn row(
        &self,
        _alloc: Global,
        row: &TableRow<'_>,
        _whose: &(),
    ) -> Result<Option<Request>, ReportFault> {
        let payer = row.number(self.payer)?;
        Ok(Some(self.named.request(row, payer)?))
    }
}

impl Columns for CallColumns {
    type Row = Taken;

    type Whose = ();

    ghost columns_in = { λ _ records. call_columns_in records };

    ghost missing = { λ _ table records. call_columns_missing table records };

    ghost row_in = { λ columns _ row. taken_in columns row };

    ghost bad = { λ _ columns row. taken_bad columns row };

    /// Those of a table.
    #[tactic(auto, unfolding(crate::specs::WhenRuled::call_columns_missing))]
    fn of(table: &Table, _whose: &()) -> Result<CallColumns, ReportFault> {
        Ok(CallColumns {
            node: table.column(Name::Node)?,
            time: table.column(Name::Time)?,
            carries: table.column(Name::Carries)?,
            named: Named::of(table)?,
        })
    }

    /// What a payer took by a call, where it is one with a request.
    #[tactic(auto, unfolding(crate::specs::WhenRuled::taken_in, crate::specs::WhenRuled::taken_bad))]
    fn row(
        &self,
        _alloc: Global,
        row: &TableRow<'_>,
        _whose: &(),
    ) -> Result<Option<Taken>, ReportFault> {
        if row.text(self.carries) != b"request".as_slice() {
            return Ok(None);
        }
        self.taken_by(payer_named(row.text(self.node)), row)
    }
}

impl CallColumns {
    /// What this payer took by a call with a request.
    #[tactic(auto, unfolding(crate::specs::WhenRuled::taken_by_bad))]
    fn taken_by(&self, payer: Option<u64>, row: &TableRow<'_>) -> Result<Option<Taken>, ReportFault>
        ensures read { IfOk result (λ taken. taken_by self.now payer (fields_of row.now.record.now) ≡ Some taken) }
        ensures refuses { RefusesFor result
            (bad_at row.now.table row.now.number (taken_by_bad self.now payer (fields_of row.now.record.now))) }
    {
        let Some(payer) = payer else {
            return Ok(None);
        };
        let request = self.named.request(row, payer)?;
        let time = row.optional_number(self.time)?;
        Ok(Some(Taken { request, time }))
    }
}

/// The lines of the records of a table: the first has the names of the two columns after it, and each other the time of its
/// row.
fn with_times(
    alloc: Global,
    records: &[ByteRecord],
    times: &[Option<u64>],
) -> Result<Vec<u8>, ReportFault>
    ensures made { IfOk result (λ text. IsTimed (map fields_of records.now) times.now text.items) }
    ensures memory { IfErr result (λ e. e ≡ OutOfMemory) }
{
    let mut out = Vec::new(alloc);
    match records {
        [names, rows @ ..] => {
            put_wider(
                &mut out,
                names,
                Name::RuledAt.text().as_bytes(),
                Name::RuledOn.text().as_bytes(),
            )?;
            put_rows(&mut out, rows, times)?;
            Ok(out)
        }
        [] => Ok(out),
    }
}

/// Appends the lines of rows, each with its time.
fn put_rows(
    out: &mut Vec<u8>,
    rows: &[ByteRecord],
    times: &[Option<u64>],
) -> Result<(), ReportFault>
    ensures adds { OnOk result (AddsTimed out.old.items out.new.items (map fields_of rows.now) times.now) }
    ensures memory { IfErr result (λ e. e ≡ OutOfMemory) }
{
    for (place, row) in rows.iter().enumerate() {
        put_ruled(out, row, time_at(times, place))?;
    }
    Ok(())
}

/// The time at a place, where there is one.
fn time_at(times: &[Option<u64>], place: usize) -> Option<u64>
    ensures { result ≡ get_or times.now place None }
{
    times.get(place).copied().unwrap_or(None)
}

/// Appends the line of a row that was ruled at this time.
fn put_ruled(out: &mut Vec<u8>, row: &ByteRecord, time: Option<u64>) -> Result<(), ReportFault>
    ensures adds { OnOk result (AddsRuled out.old.items out.new.items (fields_of row.now) time) }
    ensures memory { IfErr result (λ e. e ≡ OutOfMemory) }
{
    match time {
        Some(milliseconds) => put_moment(out, row, milliseconds),
        None => put_wider(out, row, b"", b""),
    }
}

/// Appends the line of a row that was ruled this many milliseconds after 1970 began.
fn put_moment(out: &mut Vec<u8>, row: &ByteRecord, milliseconds: u64) -> Result<(), ReportFault>
    ensures adds { OnOk result (AddsRuled out.old.items out.new.items (fields_of row.now) (Some milliseconds)) }
    ensures memory { IfErr result (λ e. e ≡ OutOfMemory) }
{
    match shown_at(milliseconds) {
        Some(shown) => put_shown(out, row, shown),
        None => put_wider(out, row, b"", b""),
    }
}

/// Appends the line of a row that was ruled when a clock in UTC showed this.
fn put_shown(out: &mut Vec<u8>, row: &ByteRecord, shown: DateTime) -> Result<(), ReportFault>
    ensures adds { OnOk result (out.new.items ≡ out.old.items
        ++ wider_text (fields_of row.now) (time_text shown) (day_text shown)) }
    ensures memory { IfErr result (λ e. e ≡ OutOfMemory) }
{
    let alloc = *out.allocator();
    let at = time_text(alloc, shown)?;
    let on = day_text(alloc, shown)?;
    put_wider(out, row, at.as_slice(), on.as_slice())
}
