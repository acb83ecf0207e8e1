//! Whether each entry has a receipt.

ghost use Rattle.std.specs.Prelude.{◌≡◌, ◌++◌, ◌∷◌, length, List, IfOk};
ghost use Rattle.std.specs.List.{list_all};
ghost use Rattle.node_logged.specs.Tills.{Receipt as ReceiptSeen};
ghost use Rattle.node_logged.specs.Ledgers.{has_receipts};
ghost use Rattle.node_logged.specs.LedgerSeen.{tills_seen};
ghost use Rattle.node_logged.specs.Marked.{Marks};

use crate::judging::ledger::Ledger;
use crate::till::{Receipt, Till};
use std::alloc::{AllocError, Global};

/// Whether each entry of each journal has a receipt with its number and its request.
pub(crate) fn have_receipts(
    alloc: Global,
    ledgers: &[Ledger<'_>],
    tills: &[Till],
) -> Result<bool, AllocError>
    ensures { IfOk result (λ yes. yes ≡ list_all (has_receipts (tills_seen tills.now)) ledgers.now) }
{
    for ledger in ledgers {
        if !has_receipts(alloc, ledger, tills)? {
            return Ok(false);
        }
    }
    Ok(true)
}

/// Whether each entry of a journal has a receipt.
fn has_receipts(alloc: Global, ledger: &Ledger<'_>, tills: &[Till]) -> Result<bool, AllocError>
    ensures { IfOk result (λ yes. yes ≡ has_receipts (tills_seen tills.now) ledger.now) }
{
    let mut marks = vec![in alloc; false; ledger.entries()]?;
    for till in tills {
        mark_all(
            marks.as_mut_slice(),
            ledger,
            till.receipts_of(ledger.pharmacy()),
        );
    }
    Ok(are_all_marked(&marks))
}

/// Whether every entry is marked.
fn are_all_marked(marks: &[bool]) -> bool
    ensures { result ≡ list_all (λ mark. mark) marks.now }
{
    marks.iter().all(|mark| *mark)
}

/// Marks the entries that these receipts are of.
fn mark_all(marks: &mut [bool], ledger: &Ledger<'_>, receipts: &[Receipt])
    requires { length marks.old ≡ length ledger.now.entries }
    ensures { (left all : List ReceiptSeen)
        → Marks ledger.now.entries (receipts.now ++ left) all marks.old → Marks ledger.now.entries left all marks.new }
{
    for receipt in receipts {
        mark(marks, ledger, receipt);
    }
}

/// Marks the entry that a receipt is of, if it is of one.
fn mark(marks: &mut [bool], ledger: &Ledger<'_>, receipt: &Receipt)
    requires { length marks.old ≡ length ledger.now.entries }
    ensures { (left all : List ReceiptSeen)
        → Marks ledger.now.entries (receipt.now ∷ left) all marks.old → Marks ledger.now.entries left all marks.new }
{
    if let Some(place) = ledger.place_of(receipt) {
        marks[place] = true;
    }
}
