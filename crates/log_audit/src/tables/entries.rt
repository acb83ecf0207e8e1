//! The entries of a journal.

ghost use Rattle.std.specs.Prelude.{◌≡◌, ◌≤◌, length, OnOk};
ghost use Rattle.log_audit.specs.Tables.{journal_rows};
ghost use Rattle.table_text.specs.Adding.{AddsRow};
ghost use Rattle.log_audit.specs.Entries.{names, count_named, state_word, entry_row, entry_rows};
ghost use Rattle.log_audit.specs.Outgoing.{PutsRows, TellsPut};

use crate::outgoing::{Outgoing, TextSink};
use crate::report::ledger::cents_of;
use crate::tables::kinds::kind_word;
use claim_profile::{Auth, Ruling};
use node_state::JournalReading;
use pharmacy_journal::{CountedPayment, EntryView};
use std::alloc::AllocError;
use table_text::{Field, Style, put_row};

/// Appends a row for each entry of a journal, in order of numbers.
pub(crate) fn put_journal<K: TextSink + Drop>(
    out: &mut Outgoing<K>,
    style: Style,
    journal: &JournalReading<'_>,
) -> Result<(), AllocError>
    ensures { TellsPut style out.old out.new (λ ctx. journal_rows ctx journal.now) result }
{
    let (entries, paid) = journal.told()?;
    put_entries(
        out,
        style,
        journal.number(),
        entries.as_slice(),
        paid.as_slice(),
    )
}

/// Appends a row for each of these entries. The payments that the pharmacy counts come in the order in which entries named
/// them first, so each entry takes from the front those that it names.
fn put_entries<K: TextSink + Drop>(
    out: &mut Outgoing<K>,
    style: Style,
    pharmacy: u16,
    entries: &[EntryView],
    paid: &[CountedPayment],
) -> Result<(), AllocError>
    ensures { OnOk result (PutsRows style out.old out.new (entry_rows pharmacy entries.now paid.now)) }
{
    let mut row = out.piece();
    let mut left = paid;
    for entry in entries {
        let (own, others) = left.split_at(count_named(entry.rulings(), left));
        row.clear();
        put_entry(&mut row, style, pharmacy, entry, own)?;
        out.put(row.as_slice())?;
        left = others;
    }
    Ok(())
}

/// Appends the row of an entry that named these counted payments first.
#[tactic(auto, unfolding(crate::specs::Entries::entry_row))]
fn put_entry(
    out: &mut Vec<u8>,
    style: Style,
    pharmacy: u16,
    entry: &EntryView,
    own: &[CountedPayment],
) -> Result<(), AllocError>
    ensures { OnOk result (AddsRow style out.old out.new (entry_row pharmacy entry.now own.now)) }
{
    let fields = [
        Field::number(b"pharmacy", u64::from(pharmacy)),
        Field::number(b"number", entry.number()),
        Field::word(b"kind", kind_word(entry.code())),
        Field::number(b"transactions", u64::from(entry.count())),
        Field::word(b"state", state_word(entry.rulings())),
        Field::number(b"counted_payments", own.len() as u64),
        Field::number(b"counted_cents", cents_of(own)),
    ];
    put_row(out, style, &fields)
}

/// Whether an entry has its answer, by the rulings of it.
fn state_word(rulings: &[Ruling]) -> &'static [u8]
    ensures { result.now ≡ state_word rulings.now }
{
    match rulings {
        [] => b"open",
        [_, ..] => b"answered",
    }
}

/// How many of these payments, from the first on, rulings name in this order.
fn count_named(rulings: &[Ruling], paid: &[CountedPayment]) -> usize
    ensures value { result ≡ count_named rulings.now paid.now }
    ensures within { result ≤ length paid.now }
{
    let [ruling, more @ ..] = rulings else {
        return 0;
    };
    let [payment, others @ ..] = paid else {
        return 0;
    };
    if names(ruling, payment.auth()) {
        count_named(more, others) + 1
    } else {
        count_named(more, paid)
    }
}

/// Whether a ruling names the payment of an authorization as paid, now or before.
fn names(ruling: &Ruling, auth: Auth) -> bool
    ensures { result ≡ names ruling.now auth }
{
    match *ruling {
        Ruling::Paid { auth: named, .. } => named == auth,
        Ruling::Duplicate { auth: named, .. } => named == auth,
        Ruling::Reversed { .. } => false,
        Ruling::Rejected { .. } => false,
    }
}
