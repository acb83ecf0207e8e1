//! What hosts told callers, beside the tables of a run.

ghost use Rattle.std.specs.Prelude.{◌≡◌, map, option_map, IfOk, OnOk};
ghost use Rattle.std.specs.Ordering.{nat_cmp};
ghost use Rattle.std.specs.BTreeMap.{IsFromIterResult, get};
ghost use Rattle.table_text.specs.Adding.{Adds, AddsRow};
ghost use Rattle.table_text.specs.declared.layout.Style.TheVariants.{Csv};
ghost use Rattle.claim_reports.specs.Causes.{RefusesFor};
ghost use Rattle.claim_reports.specs.Replies.{Reply};
ghost use Rattle.claim_reports.specs.Received.{received_cause, is_answer, receipt_finding, finding_row, row_if, receipt_rows, is_nothing_found, IsReceived};

use crate::differences::{Entry, entries_by_number};
use crate::fault::ReportFault;
use crate::reading::rows_in;
use crate::replies::{Addressee, PacketColumns, ReceiptColumns, Reply};
use crate::reported::Reported;
use crate::sides::EntryColumns;
use std::alloc::{AllocError, Global};
use std::collections::BTreeMap;
use table_text::{Field, Style, put_head, put_row};

/// Each number and each answer that a pharmacy's callers were told and that the run does not have, as CSV: a table of receipts
/// beside the tables `entries` and `packets` of the run. It is good where nothing is found.
///
/// # Errors
/// A table that is none, or has a value of another kind; want of memory.
pub fn receipts_beside(
    alloc: Global,
    receipts: &[u8],
    entries: &[u8],
    packets: &[u8],
    pharmacy: u64,
) -> Result<Reported, ReportFault>
    // What is written is, row by row, what is found of the receipts that a reader of CSV finds in the table beside the run's.
    ensures made { IfOk result (λ told.
        IsReceived receipts.now entries.now packets.now pharmacy told.text.items told.good) }
    // It is refused for the first fault of the tables or for want of memory, and for nothing else.
    ensures refuses { RefusesFor result (received_cause receipts.now entries.now packets.now pharmacy) }
{
    let to = Addressee::new(alloc, pharmacy)?;
    let entries = rows_in::<EntryColumns>(alloc, 2, entries, &pharmacy)?;
    let sent = rows_in::<PacketColumns>(alloc, 3, packets, &to)?;
    let told = rows_in::<ReceiptColumns>(alloc, 1, receipts, &pharmacy)?;
    let held = entries_by_number(alloc, entries.as_slice())?;
    let came = sent_by_number(alloc, sent)?;
    let mut text = Vec::new(alloc);
    put_head(&mut text, &[b"finding", b"number"])?;
    put_findings(&mut text, &held, &came, told.as_slice())?;
    let agrees = is_nothing_found(&held, &came, told.as_slice());
    Ok(Reported { text, good: agrees })
}

/// Answers by the numbers of their entries.
fn sent_by_number(alloc: Global, sent: Vec<Reply>) -> Result<BTreeMap<u64, Reply>, AllocError>
    ensures { IfOk result (IsFromIterResult nat_cmp (map (λ (r : Reply). (r.number, r)) sent.items)) }
{
    sent.into_iter()
        .map(|reply| (reply.number(), reply))
        .collect(alloc)
}

/// Appends a row for each receipt of which something is found.
fn put_findings(
    out: &mut Vec<u8>,
    held: &BTreeMap<u64, Entry>,
    came: &BTreeMap<u64, Reply>,
    told: &[Reply],
) -> Result<(), AllocError>
    ensures { OnOk result (Adds out.old out.new (receipt_rows (get nat_cmp held.now) (get nat_cmp came.now) told.now)) }
{
    for receipt in told {
        put_finding(out, finding(held, came, receipt), receipt.number())?;
    }
    Ok(())
}

/// Appends the row of what is found of a number, where something is.
#[tactic(auto, unfolding(crate::specs::Received::finding_row))]
fn put_finding(
    out: &mut Vec<u8>,
    found: Option<&'static [u8]>,
    number: u64,
) -> Result<(), AllocError>
    ensures { OnOk result (Adds out.old out.new (row_if (option_map (λ word. word.now) found.entry) number)) }
{
    let Some(word) = found else {
        return Ok(());
    };
    let fields = [
        Field::word(b"finding", word),
        Field::number(b"number", number),
    ];
    put_row(out, Style::Csv, &fields)
}

/// Whether nothing is found of receipts.
fn is_nothing_found(
    held: &BTreeMap<u64, Entry>,
    came: &BTreeMap<u64, Reply>,
    told: &[Reply],
) -> bool
    ensures { result ≡ is_nothing_found (get nat_cmp held.now) (get nat_cmp came.now) told.now }
{
    told.iter()
        .all(|receipt| finding(held, came, receipt).is_none())
}

/// What is found of a receipt. An answer of no bytes was not told.
fn finding(
    held: &BTreeMap<u64, Entry>,
    came: &BTreeMap<u64, Reply>,
    receipt: &Reply,
) -> Option<&'static [u8]>
    ensures { option_map (λ word. word.now) result
        ≡ receipt_finding (get nat_cmp held.now) (get nat_cmp came.now) receipt.now }
{
    let Some(entry) = held.get(&receipt.number()) else {
        return Some(b"no_entry");
    };
    if receipt.bytes().is_empty() {
        return None;
    }
    if entry.open {
        return Some(b"not_answered");
    }
    if is_answer(came.get(&receipt.number()), receipt.bytes()) {
        return None;
    }
    Some(b"differs")
}

/// Whether an answer that was sent has the bytes that were told.
fn is_answer(sent: Option<&Reply>, told: &[u8]) -> bool
    ensures { result ≡ is_answer (option_map (λ reply. reply.now) sent.entry) told.now }
{
    sent.is_some_and(|reply| reply.bytes() == told)
}
