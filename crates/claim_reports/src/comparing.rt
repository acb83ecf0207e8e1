//! What a pharmacy counts beside what a payer paid, by their tables.

ghost use Rattle.std.specs.Prelude.{◌≡◌, ◌&&◌, ◌++◌, Some, map, IfOk, OnOk};
ghost use Rattle.std.specs.List.{list_all};
ghost use Rattle.table_text.specs.Adding.{Adds, AddsRow};
ghost use Rattle.table_text.specs.Rows.{head_text};
ghost use Rattle.table_text.specs.declared.layout.Style.TheVariants.{Csv};
ghost use Rattle.claim_reports.specs.Causes.{RefusesFor};
ghost use Rattle.claim_reports.specs.Compared.{compared_cause, alike, first_apart, finding_names, shown_row, shown, finding_rows, is_on_its_way, IsCompared};
ghost use Rattle.claim_reports.specs.Showing.{apart_seen, shown_seen};

use crate::differences::{Difference, Figures, compare};
use crate::fault::ReportFault;
use crate::numbers::auth_text;
use crate::reading::rows_in;
use crate::reported::Reported;
use crate::sides::{Between, CountedColumns, EntryColumns, MadeColumns};
use std::alloc::{AllocError, Global};
use table_text::{Field, Style, put_head, put_row};

/// A figure that is another on both sides; without a name where none is.
#[derive(Clone, Copy)]
struct Apart {
    name: &'static [u8],
    counted: Option<u64>,
    paid: Option<u64>,
}

/// What the row of a finding says.
#[derive(Clone, Copy)]
struct Shown {
    word: &'static [u8],
    auth: u64,
    counted: Option<u64>,
    paid: Option<u64>,
    on_its_way: bool,
    apart: Apart,
}

/// Compares the pharmacy's tables `counted` and `entries` with the payer's table `payments`: the fill and each amount. It is good
/// where nothing differs but what may still be on its way.
///
/// # Errors
/// A table that is none, or has a value of another kind; want of memory.
pub fn compare_tables(
    alloc: Global,
    counted: &[u8],
    entries: &[u8],
    payments: &[u8],
    between: Between,
) -> Result<Reported, ReportFault>
    // What is written is, row by row, what is found of the rows that a reader of CSV finds in the tables.
    ensures made { IfOk result (λ told. IsCompared counted.now entries.now payments.now between told.text.items told.good) }
    // It is refused for the first fault of the tables or for want of memory, and for nothing else.
    ensures refuses { RefusesFor result (compared_cause counted.now entries.now payments.now between) }
{
    let counted = rows_in::<CountedColumns>(alloc, 1, counted, &between)?;
    let entries = rows_in::<EntryColumns>(alloc, 2, entries, &between.pharmacy)?;
    let made = rows_in::<MadeColumns>(alloc, 3, payments, &between)?;
    let found = compare(
        alloc,
        counted.as_slice(),
        entries.as_slice(),
        made.as_slice(),
    )?;
    let mut text = Vec::new(alloc);
    put_names(&mut text)?;
    put_findings(alloc, &mut text, found.as_slice())?;
    let agrees = are_on_their_way(found.as_slice());
    Ok(Reported { text, good: agrees })
}

/// Appends the row of each finding.
fn put_findings(alloc: Global, out: &mut Vec<u8>, found: &[Difference]) -> Result<(), AllocError>
    ensures { OnOk result (out.new.items ≡ out.old.items ++ finding_rows found.now) }
{
    for finding in found {
        put_shown(alloc, out, &told_of(finding))?;
    }
    Ok(())
}

/// Whether each of some findings may still be on its way.
fn are_on_their_way(found: &[Difference]) -> bool
    ensures { result ≡ list_all is_on_its_way found.now }
{
    found.iter().all(|finding| told_of(finding).on_its_way)
}

/// What the row of a finding says.
fn told_of(finding: &Difference) -> Shown
    ensures { shown_seen result ≡ shown finding.now }
{
    match *finding {
        Difference::NotPaid(auth, counted) => Shown {
            word: b"not_paid",
            auth,
            counted: Some(counted.cents),
            paid: None,
            on_its_way: false,
            apart: Apart::none(),
        },
        Difference::Differs(auth, counted, paid) => Shown {
            word: b"differs",
            auth,
            counted: Some(counted.cents),
            paid: Some(paid.cents),
            on_its_way: false,
            apart: first_apart(counted, paid),
        },
        Difference::Reversed(auth, counted, on_its_way) => Shown {
            word: b"reversed",
            auth,
            counted: Some(counted.cents),
            paid: None,
            on_its_way,
            apart: Apart::none(),
        },
        Difference::NotCounted(auth, paid, on_its_way) => Shown {
            word: b"not_counted",
            auth,
            counted: None,
            paid: Some(paid.cents),
            on_its_way,
            apart: Apart::none(),
        },
    }
}

/// The first figure that is another on both sides: of the total, of the amounts that make it, and of the fill.
#[tactic(auto, unfolding(crate::specs::Compared::first_apart))]
fn first_apart(counted: Figures, paid: Figures) -> Apart
    ensures { apart_seen result ≡ first_apart counted paid }
{
    if counted.cents != paid.cents {
        return Apart::of(b"total", counted.cents, paid.cents);
    }
    if counted.cost != paid.cost {
        return Apart::of(b"cost", counted.cost, paid.cost);
    }
    if counted.fee != paid.fee {
        return Apart::of(b"fee", counted.fee, paid.fee);
    }
    if counted.copay != paid.copay {
        return Apart::of(b"copay", counted.copay, paid.copay);
    }
    if counted.prescription != paid.prescription {
        return Apart::of(b"prescription", counted.prescription, paid.prescription);
    }
    if counted.fill != paid.fill {
        return Apart::of(b"fill", counted.fill, paid.fill);
    }
    Apart::none()
}

impl Apart {
    /// A figure of this name.
    fn of(name: &'static [u8], counted: u64, paid: u64) -> Apart
        ensures { apart_seen result ≡ record { name = name.now; counted = Some counted; paid = Some paid } }
    {
        Apart {
            name,
            counted: Some(counted),
            paid: Some(paid),
        }
    }

    /// No figure.
    fn none() -> Apart
        ensures { apart_seen result ≡ alike }
    {
        Apart {
            name: b"",
            counted: None,
            paid: None,
        }
    }
}

/// Appends a row.
fn put_shown(alloc: Global, out: &mut Vec<u8>, shown: &Shown) -> Result<(), AllocError>
    ensures { OnOk result (AddsRow Csv out.old out.new (shown_row (shown_seen shown.now))) }
{
    let digits = auth_text(alloc, shown.auth)?;
    let fields = [
        Field::word(b"finding", shown.word),
        Field::text(b"authorization", digits.as_slice()),
        Field::number_or_nothing(b"counted_cents", shown.counted),
        Field::number_or_nothing(b"paid_cents", shown.paid),
        Field::flag(b"on_its_way", shown.on_its_way),
        Field::word(b"figure", shown.apart.name),
        Field::number_or_nothing(b"counted_figure", shown.apart.counted),
        Field::number_or_nothing(b"paid_figure", shown.apart.paid),
    ];
    put_row(out, Style::Csv, &fields)
}

/// Appends the names of the columns.
fn put_names(out: &mut Vec<u8>) -> Result<(), AllocError>
    ensures { OnOk result (Adds out.old out.new (head_text finding_names)) }
{
    put_head(
        out,
        &[
            b"finding",
            b"authorization",
            b"counted_cents",
            b"paid_cents",
            b"on_its_way",
            b"figure",
            b"counted_figure",
            b"paid_figure",
        ],
    )
}
