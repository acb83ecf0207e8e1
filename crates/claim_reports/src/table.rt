//! Tables as they are read: rows of fields under the names of columns.

ghost use Rattle.std.specs.Prelude.{◌≡◌, ℕ, ◌+◌, ◌<◌, ◌^◌, List, length, map, IfOk, OnOk, IfErr, OnErr, Some, None, bytes_eq};
ghost use Rattle.std.specs.List.{position_from};
ghost use Rattle.csv.specs.Reading.{error_kind};
ghost use Rattle.csv.specs.Records.{fields_of};
ghost use Rattle.claim_reports.specs.Tables.{AreRecordsOf, rows_of, column_of, cell, number_in, optional_in, word_in};
ghost use Rattle.claim_reports.specs.Names.{name_text};
ghost use Rattle.claim_reports.specs.Causes.{BadValue as IsBad, NoColumn as Lacks, RefusesFor, bad_at, bad_number, bad_optional, bad_word, cause_of, column_in, missing, present, records_of, unequal, uneven};

use crate::fault::ReportFault;
use crate::naming::Name;
use crate::wider::field_at;
use csv::{ByteRecord, Error, ErrorKind, ReaderBuilder};
use input_text::read_decimal;
use std::alloc::{AllocError, Global};

/// The most digits of a number in a table.
const DIGITS: usize = 18;

/// A table, by its place among those that were given, counted from 1.
#[derive(Drop)]
pub(crate) struct Table {
    number: u64,
    /// The names of the columns, and the rows after them.
    records: Vec<ByteRecord>,
}

/// A column of a table.
#[derive(Clone, Copy)]
pub(crate) struct Column {
    place: usize,
    name: Name,
}

/// A row of a table.
#[derive(Clone, Copy)]
pub(crate) struct TableRow<'a> {
    table: u64,
    /// Its place after the names, counted from 1.
    pub(crate) number: u64,
    record: &'a ByteRecord,
}

/// The records of a text of CSV, the names among them.
fn records_of(alloc: Global, number: u64, text: &[u8]) -> Result<Vec<ByteRecord>, ReportFault>
    // They are those that a reader of CSV gives, each and in order.
    ensures read { IfOk result (λ records.
        AreRecordsOf text.now (map fields_of records.items)) }
    ensures all { IfOk result (λ records.
        records_of text.now ≡ map fields_of records.items) }
    ensures refuses { RefusesFor result (uneven number (records_of text.now)) }
{
    let reader = ReaderBuilder::new()
        .has_headers(false)
        .from_reader(alloc, text);
    let mut records = Vec::new(alloc);
    for record in reader.into_byte_records() {
        match record {
            Ok(record) => records.push(record)?,
            Err(fault) => return Err(fault_of(number, &fault)),
        }
    }
    Ok(records)
}

/// Why a text is no table of this number. Bytes that are in memory are read without a fault of their own, which the library does
/// not promise: it would be told as want of memory.
fn fault_of(number: u64, fault: &Error) -> ReportFault
    ensures { cause_of result ≡ unequal number (error_kind fault.now) }
{
    match fault.kind() {
        ErrorKind::UnequalLengths { .. } => ReportFault::NotCsv(number),
        _ => ReportFault::OutOfMemory,
    }
}

impl Table {
    /// The table of this number among those that were given.
    pub(crate) fn read(alloc: Global, number: u64, text: &[u8]) -> Result<Table, ReportFault>
        ensures read { IfOk result (λ table.
            AreRecordsOf text.now (map fields_of table.records.items)) }
        ensures all { IfOk result (λ table.
            records_of text.now ≡ map fields_of table.records.items) }
        ensures number { IfOk result (λ table. table.number ≡ number) }
        ensures refuses { RefusesFor result (uneven number (records_of text.now)) }
    {
        let records = records_of(alloc, number, text)?;
        Ok(Table { number, records })
    }

    /// The column of a name.
    pub(crate) fn column(&self, name: Name) -> Result<Column, ReportFault>
        ensures read { IfOk result (λ column.
            column_of (map fields_of self.now.records.items) (name_text name) ≡ Some column.place) }
        ensures is { IfOk result (λ column. column ≡ column_in (map fields_of self.now.records.items) name) }
        ensures refuses { RefusesFor result (missing self.now.number (map fields_of self.now.records.items) name) }
    {
        match self.place(name.text().as_bytes()) {
            Some(place) => Ok(Column { place, name }),
            None => Err(ReportFault::NoColumn(self.number, name.text())),
        }
    }

    /// The place of the first column of a name.
    fn place(&self, name: &[u8]) -> Option<usize>
        ensures { result ≡ column_of (map fields_of self.now.records.items) name.now }
    {
        match self.records.as_slice() {
            [names, ..] => place_of(names, name),
            [] => None,
        }
    }

    /// That it has no column of a name.
    pub(crate) fn lacks(&self, name: Name) -> Result<(), ReportFault>
        ensures read { OnOk result (column_of (map fields_of self.now.records.items) (name_text name) ≡ None) }
        ensures refuses { RefusesFor result (present self.now.number (map fields_of self.now.records.items) name) }
    {
        match self.place(name.text().as_bytes()) {
            Some(_) => Err(ReportFault::HasColumn(self.number, name.text())),
            None => Ok(()),
        }
    }

    /// Its records: the names of its columns, and its rows.
    pub(crate) fn records(&self) -> &[ByteRecord]
        ensures { result.now ≡ self.now.records.items }
    {
        self.records.as_slice()
    }

    /// Its rows, after the names.
    pub(crate) fn rows(&self) -> &[ByteRecord]
        ensures are { map fields_of result.now ≡ rows_of (map fields_of self.now.records.items) }
        ensures few { length result.now < 2 ^ 63 }
    {
        match self.records.as_slice() {
            [_, rows @ ..] => rows,
            [] => &[],
        }
    }

    /// The row at a place after the names, from 0.
    pub(crate) fn row<'a>(&self, place: usize, held: &'a ByteRecord) -> TableRow<'a>
        ensures held { result.record.now ≡ held.now }
        ensures table { result.table ≡ self.now.number }
        ensures number { place + 1 < 2 ^ 64 → result.number ≡ place + 1 }
    {
        TableRow {
            table: self.number,
            number: (place as u64).saturating_add(1),
            record: held,
        }
    }
}

/// The place of the first of some fields that is a name.
fn place_of(names: &ByteRecord, name: &[u8]) -> Option<usize>
    ensures { result ≡ position_from (λ (field : List ℕ). bytes_eq field name.now) 0 (fields_of names.now) }
{
    for place in 0..names.len() {
        if field_at(names, place) == name {
            return Some(place);
        }
    }
    None
}

impl<'a> TableRow<'a> {
    /// The text of a column; of a column that is not there it is empty.
    pub(crate) fn text(&self, column: Column) -> &'a [u8]
        ensures { result.now ≡ cell column.place (fields_of self.now.record.now) }
    {
        field_at(self.record, column.place)
    }

    /// The number of a column.
    pub(crate) fn number(&self, column: Column) -> Result<u64, ReportFault>
        ensures read { IfOk result (λ number. number_in column.place (fields_of self.now.record.now) ≡ Some number) }
        ensures none { OnErr result (number_in column.place (fields_of self.now.record.now) ≡ None) }
        ensures why { IfErr result (λ e. cause_of e ≡ Some (IsBad self.now.table self.now.number (name_text column.name))) }
    {
        match read_decimal(self.text(column), DIGITS) {
            Some(number) => Ok(number),
            None => Err(self.bad(column)),
        }
    }

    /// The number of a column that may be empty.
    pub(crate) fn optional_number(&self, column: Column) -> Result<Option<u64>, ReportFault>
        ensures read { IfOk result (λ number. optional_in column.place (fields_of self.now.record.now) ≡ Some number) }
        ensures none { OnErr result (optional_in column.place (fields_of self.now.record.now) ≡ None) }
        ensures why { IfErr result (λ e. cause_of e ≡ Some (IsBad self.now.table self.now.number (name_text column.name))) }
    {
        if self.text(column).is_empty() {
            return Ok(None);
        }
        Ok(Some(self.number(column)?))
    }

    /// Which of two words a column has: whether it is the second.
    pub(crate) fn word(
        &self,
        column: Column,
        first: &[u8],
        second: &[u8],
    ) -> Result<bool, ReportFault>
        ensures read { IfOk result (λ is.
            word_in column.place first.now second.now (fields_of self.now.record.now) ≡ Some is) }
        ensures none { OnErr result (word_in column.place first.now second.now (fields_of self.now.record.now) ≡ None) }
        ensures why { IfErr result (λ e. cause_of e ≡ Some (IsBad self.now.table self.now.number (name_text column.name))) }
    {
        let text = self.text(column);
        if text == second {
            return Ok(true);
        }
        if text == first {
            return Ok(false);
        }
        Err(self.bad(column))
    }

    /// That a column has no value of its kind.
    pub(crate) fn bad(&self, column: Column) -> ReportFault
        ensures { cause_of result ≡ Some (IsBad self.now.table self.now.number (name_text column.name)) }
    {
        ReportFault::BadValue(self.table, self.number, column.name.text())
    }
}
