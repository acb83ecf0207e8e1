//! The rows of remittances, of a period by places or by days.

ghost use Rattle.std.specs.Prelude.{◌≡◌, Some, codes, IfOk, OnOk};
ghost use Rattle.csv.specs.Records.{fields_of};
ghost use Rattle.table_text.specs.Adding.{Adds, AddsRow};
ghost use Rattle.table_text.specs.Rows.{head_text};
ghost use Rattle.table_text.specs.Seen.{cell_seen, field_seen};
ghost use Rattle.table_text.specs.declared.layout.Style.TheVariants.{Csv};
ghost use Rattle.claim_reports.specs.Causes.{RefusesFor, bad_at};
ghost use Rattle.claim_reports.specs.Statement.{IsSums, auth_of, cents_of, kind_of, line_names, line_row, numbers_bad, numbers_of, settling_cause, sum_names, sums_row, title_seen};

use crate::fault::ReportFault;
use crate::ledger::{Move, Period, period_of};
use crate::rulings::RulingColumns;
use crate::settling::{Settled, settle};
use crate::table::TableRow;
use std::alloc::{AllocError, Global};
use table_text::{Cell, Field, Style, put_head, put_row};

/// The numbers of a ruling's row.
#[derive(Clone, Copy)]
pub(crate) struct Numbers {
    number: u64,
    transaction: u64,
    prescription: u64,
}

impl Numbers {
    /// Those of a row.
    #[tactic(auto, unfolding(crate::specs::Statement::numbers_bad))]
    pub(crate) fn of(row: &TableRow<'_>, columns: &RulingColumns) -> Result<Numbers, ReportFault>
        ensures read { IfOk result (λ numbers. numbers_of columns.now (fields_of row.now.record.now) ≡ Some numbers) }
        ensures refuses { RefusesFor result
            (bad_at row.now.table row.now.number (numbers_bad columns.now (fields_of row.now.record.now))) }
    {
        Ok(Numbers {
            number: row.number(columns.number)?,
            transaction: row.number(columns.transaction)?,
            prescription: row.number(columns.prescription)?,
        })
    }
}

/// What the row of a ruling says.
#[derive(Clone, Copy)]
pub(crate) struct LineRow<'a> {
    pub(crate) payer: u64,
    pub(crate) pharmacy: u64,
    /// Its place or its day.
    pub(crate) at: Field<'a>,
    pub(crate) numbers: Numbers,
    pub(crate) moves: Move,
    /// The digits of its authorization.
    pub(crate) auth: &'a [u8],
    pub(crate) service: Cell<'a>,
    /// The cents that it takes back, below zero.
    pub(crate) back: &'a [u8],
}

impl<'a> LineRow<'a> {
    /// Appends it.
    #[tactic(auto, unfolding(crate::specs::Statement::line_row))]
    pub(crate) fn put(&self, out: &mut Vec<u8>) -> Result<(), AllocError>
        ensures { OnOk result (AddsRow Csv out.old out.new (line_row self.now.payer self.now.pharmacy (field_seen self.now.at)
            self.now.numbers self.now.moves self.now.auth.now (cell_seen self.now.service) self.now.back.now)) }
    {
        let fields = [
            Field::number(b"payer", self.payer),
            Field::number(b"pharmacy", self.pharmacy),
            self.at,
            Field::number(b"number", self.numbers.number),
            Field::number(b"transaction", self.numbers.transaction),
            Field::word(b"kind", kind_of(self.moves)),
            Field::text(b"authorization", self.auth),
            Field::number(b"prescription", self.numbers.prescription),
            Field {
                name: b"date_of_service",
                cell: self.service,
            },
            cents_field(self.moves, self.back),
        ];
        put_row(out, Style::Csv, &fields)
    }
}

/// The word for a ruling that moves money.
fn kind_of(moves: Move) -> &'static [u8]
    ensures { result.now ≡ kind_of moves }
{
    match moves {
        Move::Paid(_, _) => b"paid",
        Move::Reversed(_) => b"reversed",
    }
}

/// Its authorization.
pub(crate) fn auth_of(moves: Move) -> u64
    ensures { result ≡ auth_of moves }
{
    match moves {
        Move::Paid(auth, _) => auth,
        Move::Reversed(auth) => auth,
    }
}

/// The cents that a ruling moved; those that were taken back are given.
fn cents_field<'a>(moves: Move, back: &'a [u8]) -> Field<'a>
    ensures { field_seen result ≡ record { name = codes "cents"; value = cents_of back.now moves } }
{
    match moves {
        Move::Paid(_, cents) => Field::number(b"cents", cents),
        Move::Reversed(_) => Field::text(b"cents", back),
    }
}

/// Appends the names of the columns of rulings, which have a place or a day under this name.
pub(crate) fn put_line_names(out: &mut Vec<u8>, at: &'static [u8]) -> Result<(), AllocError>
    ensures { OnOk result (Adds out.old out.new (head_text (line_names at.now))) }
{
    put_head(
        out,
        &[
            b"payer",
            b"pharmacy",
            at,
            b"number",
            b"transaction",
            b"kind",
            b"authorization",
            b"prescription",
            b"date_of_service",
            b"cents",
        ],
    )
}

/// Of whom sums are, and of which period.
#[derive(Clone, Copy)]
pub(crate) struct Title<'a> {
    pub(crate) whose: Field<'a>,
    pub(crate) pharmacy: u64,
    pub(crate) first: Field<'a>,
    pub(crate) last: Field<'a>,
}

/// The sums of a period after the rulings before it, where this many cents were owed at its beginning.
pub(crate) fn sums_text(
    alloc: Global,
    title: &Title<'_>,
    before: &[Move],
    moves: &[Move],
    owed: u64,
) -> Result<Vec<u8>, ReportFault>
    ensures made { IfOk result (λ text. IsSums (title_seen title.now) before.now moves.now owed text.items) }
    ensures refuses { RefusesFor result (settling_cause before.now moves.now owed) }
{
    let period = period_of(alloc, before, moves)?;
    let settled = settle(period.moved, owed)?;
    let mut out = Vec::new(alloc);
    title.put_names(&mut out)?;
    title.put_sums(&mut out, period, owed, settled)?;
    Ok(out)
}

impl Title<'_> {
    /// Appends the names of the columns of its sums.
    fn put_names(&self, out: &mut Vec<u8>) -> Result<(), AllocError>
        ensures { OnOk result (Adds out.old out.new (head_text (sum_names (title_seen self.now)))) }
    {
        put_head(
            out,
            &[
                self.whose.name,
                b"pharmacy",
                self.first.name,
                self.last.name,
                b"standing_before_cents",
                b"paid_cents",
                b"reversed_cents",
                b"standing_after_cents",
                b"owed_before_cents",
                b"check_cents",
                b"owed_after_cents",
            ],
        )
    }

    /// Appends its sums.
    #[tactic(auto, unfolding(crate::specs::Statement::sums_row))]
    fn put_sums(
        &self,
        out: &mut Vec<u8>,
        period: Period,
        owed: u64,
        settled: Settled,
    ) -> Result<(), AllocError>
        ensures { OnOk result (AddsRow Csv out.old out.new (sums_row (title_seen self.now) period owed settled)) }
    {
        let fields = [
            self.whose,
            Field::number(b"pharmacy", self.pharmacy),
            self.first,
            self.last,
            Field::number(b"standing_before_cents", period.begin),
            Field::number(b"paid_cents", period.moved.paid),
            Field::number(b"reversed_cents", period.moved.reversed),
            Field::number(b"standing_after_cents", period.end),
            Field::number(b"owed_before_cents", owed),
            Field::number(b"check_cents", settled.check),
            Field::number(b"owed_after_cents", settled.owed),
        ];
        put_row(out, Style::Csv, &fields)
    }
}
