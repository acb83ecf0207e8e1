//! What a run left, counted: requests, payments and cents.

ghost use Rattle.std.specs.Prelude.{◌≡◌, ◌++◌, count_by, IfOk, OnOk};
ghost use Rattle.world_core.specs.Parts.{context_of};
ghost use Rattle.table_text.specs.Adding.{Adds};
ghost use Rattle.log_audit.specs.Sentences.{sentence};
ghost use Rattle.log_audit.specs.Texts.{texts_from};
ghost use Rattle.log_audit.specs.Ledger.{in_cents, counted_total, is_open, is_answered, stands, count_standing, requests_pieces, standing_pieces, pharmacy_text, node_requests, ledger_text};

use crate::report::paid::put_payers;
use crate::sentences::{Piece, put_pieces};
use node_state::{JournalReading, PharmacyNode};
use pharmacy_journal::{CountedPayment, EntryView};
use std::alloc::{AllocError, Global};
use world_core::World;

/// Appends a line for each pharmacy: its requests, how many of them have an answer and how many are open, the payments
/// that it counts, and how many of these stand in their payer's book. Then for each payer a line for each pharmacy that
/// it paid, and one for all: the payments that stand, and those that are reversed. Cents are of totals (F9).
#[tactic(auto, unfolding(crate::specs::Ledger::ledger_text))]
pub(crate) fn put_ledger(alloc: Global, out: &mut Vec<u8>, world: &World) -> Result<(), AllocError>
    ensures { OnOk result (Adds out.old out.new (ledger_text (context_of world.now) world.now.world)) }
{
    put_pharmacies(alloc, out, world, world.pharmacies())?;
    put_payers(alloc, out, world.pharmacies().len(), world.payers())
}

/// Appends the lines of these pharmacies, which are numbered from 1.
fn put_pharmacies(
    alloc: Global,
    out: &mut Vec<u8>,
    world: &World,
    nodes: &[PharmacyNode],
) -> Result<(), AllocError>
    ensures { OnOk result (Adds out.old out.new
        (texts_from (node_requests (context_of world.now) world.now.world) 1 nodes.now)) }
{
    for (passed, node) in nodes.iter().enumerate() {
        let journal = node.journal(alloc)?;
        put_pharmacy(out, world, passed as u64 + 1, &journal)?;
    }
    Ok(())
}

/// Appends the line of a pharmacy.
#[tactic(auto, unfolding(crate::specs::Ledger::pharmacy_text))]
fn put_pharmacy(
    out: &mut Vec<u8>,
    world: &World,
    number: u64,
    journal: &JournalReading<'_>,
) -> Result<(), AllocError>
    ensures { OnOk result (Adds out.old out.new
        (pharmacy_text (context_of world.now) world.now.world number journal.now)) }
{
    let (entries, paid) = journal.told()?;
    put_counted(out, world, number, entries.as_slice(), paid.as_slice())
}

/// Appends the line of a pharmacy that has these entries and counts these payments.
fn put_counted(
    out: &mut Vec<u8>,
    world: &World,
    number: u64,
    entries: &[EntryView],
    paid: &[CountedPayment],
) -> Result<(), AllocError>
    ensures { OnOk result (Adds out.old out.new (sentence (requests_pieces number entries.now paid.now)
        ++ sentence (standing_pieces (count_standing (context_of world.now) world.now.world paid.now)))) }
{
    put_requests(out, number, entries, paid)?;
    put_standing(out, standing_of(world, paid)?)
}

/// Appends how many requests a pharmacy has, how many of them have an answer and how many are open, and the payments that it
/// counts.
pub(crate) fn put_requests(
    out: &mut Vec<u8>,
    number: u64,
    entries: &[EntryView],
    paid: &[CountedPayment],
) -> Result<(), AllocError>
    ensures { OnOk result (Adds out.old out.new (sentence (requests_pieces number entries.now paid.now))) }
{
    let pieces = [
        Piece::Words(b"pharmacy "),
        Piece::Number(number),
        Piece::Words(b" requests "),
        Piece::Number(entries.len() as u64),
        Piece::Words(b" answered "),
        Piece::Number(answered_of(entries)),
        Piece::Words(b" open "),
        Piece::Number(open_of(entries)),
        Piece::Words(b" counted "),
        Piece::Number(paid.len() as u64),
        Piece::Words(b" cents "),
        Piece::Number(cents_of(paid)),
    ];
    put_pieces(out, &pieces)
}

/// Appends how many of counted payments stand, and the end of the line.
fn put_standing(out: &mut Vec<u8>, count: u64) -> Result<(), AllocError>
    ensures { OnOk result (Adds out.old out.new (sentence (standing_pieces count))) }
{
    let pieces = [
        Piece::Words(b" standing "),
        Piece::Number(count),
        Piece::Words(b"\n"),
    ];
    put_pieces(out, &pieces)
}

/// How many entries have an answer.
fn answered_of(entries: &[EntryView]) -> u64
    ensures { result ≡ count_by is_answered entries.now }
{
    entries.iter().filter(|entry| is_answered(entry)).count() as u64
}

/// How many entries have no answer.
fn open_of(entries: &[EntryView]) -> u64
    ensures { result ≡ count_by is_open entries.now }
{
    entries.iter().filter(|entry| is_open(entry)).count() as u64
}

/// Whether an entry has an answer.
fn is_answered(entry: &EntryView) -> bool
    ensures { result ≡ is_answered entry.now }
{
    !entry.rulings().is_empty()
}

/// Whether an entry has no answer.
pub(crate) fn is_open(entry: &EntryView) -> bool
    ensures { result ≡ is_open entry.now }
{
    entry.rulings().is_empty()
}

/// What counted payments come to in cents, as far as 64 bits hold it.
#[tactic(auto, using(crate::proofs::Counting::cents_are_all))]
pub(crate) fn cents_of(paid: &[CountedPayment]) -> u64
    ensures { result ≡ in_cents (counted_total paid.now) }
{
    let mut cents = 0u64;
    for payment in paid {
        cents = cents.saturating_add(u64::from(payment.amounts().total()));
    }
    cents
}

/// How many of counted payments stand in the books of the payers that their authorizations name.
fn standing_of(world: &World, paid: &[CountedPayment]) -> Result<u64, AllocError>
    ensures { IfOk result (λ count. count ≡ count_standing (context_of world.now) world.now.world paid.now) }
{
    let mut count = 0u64;
    for payment in paid {
        if stands(world, payment)? {
            count += 1;
        }
    }
    Ok(count)
}

/// Whether a counted payment stands in its payer's book.
fn stands(world: &World, payment: &CountedPayment) -> Result<bool, AllocError>
    ensures { IfOk result (λ it. it ≡ stands (context_of world.now) world.now.world payment.now) }
{
    let auth = payment.auth();
    match world.payment(auth.payer(), auth)? {
        Some(found) => Ok(found.reversed_by.is_none()),
        None => Ok(false),
    }
}
