//! The tables of logs one by one.

ghost use Rattle.std.specs.Prelude.{◌≡◌, [], ◌∷◌, cond, length, IfOk, OnOk};
ghost use Rattle.std.specs.List.{flat_map};
ghost use Rattle.bin_routes.specs.Table.{RouteMaps};
ghost use Rattle.claim_model.specs.Bytes.{bytes_with};
ghost use Rattle.claim_model.specs.Counted.{counted};
ghost use Rattle.claim_model.specs.Words.{Auth as AuthSeen};
ghost use Rattle.node_state.specs.Nodes.{book_of, journal_of};
ghost use Rattle.pharmacy_journal.specs.Counting.{has_auth};
ghost use Rattle.node_log.specs.LogSeen.{log_seen};
ghost use Rattle.world_setup.specs.Seen.{node_seen};
ghost use Rattle.table_text.specs.Adding.{AddsRow, AddsRows};
ghost use Rattle.log_audit.specs.AloneSeen.{lone_seen, lones_seen};
ghost use Rattle.log_audit.specs.Kinds.{number_of};
ghost use Rattle.log_audit.specs.Ledger.{is_open};
ghost use Rattle.log_audit.specs.Lones.{told_of, open_row, open_rows, journal_open, node_rows, rows_of, counted_in, is_counted, lone_rows};
ghost use Rattle.log_audit.specs.TabledSeen.{book_rows, told_rows};
ghost use Rattle.log_audit.specs.Tables.{Joins, names_auth};
ghost use Rattle.log_audit.specs.Outgoing.{PutsRows, TellsPut};

use crate::alone::ages::Ages;
use crate::alone::log::{Came, Lone};
use crate::outgoing::{Outgoing, TextSink};
use crate::report::ledger::is_open;
use crate::tables::counted::take_journal;
use crate::tables::kinds::{kind_word, number_of};
use crate::tables::table::{OfBook, OfJournal, Table, put_of_book, put_of_journal};
use claim_profile::Auth;
use node_log::NodeLog;
use node_state::{JournalReading, NodeState};
use pharmacy_journal::EntryView;
use std::alloc::{AllocError, Global};
use std::collections::BTreeSet;
use table_text::{Field, Style, put_row};

/// Appends the rows of a table that the nodes of these logs have.
pub(crate) fn put_lone_table<K: TextSink + Drop>(
    alloc: Global,
    out: &mut Outgoing<K>,
    style: Style,
    lones: &[Lone<'_>],
    table: Table,
) -> Result<(), AllocError>
    ensures { TellsPut style out.old out.new (λ ctx. lone_rows ctx (lones_seen lones.now) table) result }
{
    let counted = counted_by(alloc, lones)?;
    put_lones(alloc, out, style, lones, &counted, table)
}

/// The authorizations of the payments that pharmacies of these logs count.
fn counted_by(alloc: Global, lones: &[Lone<'_>]) -> Result<BTreeSet<Auth>, AllocError>
    ensures { (routes : RouteMaps) → IfOk result (λ auths. (a : AuthSeen)
        → has_auth auths.keys a ≡ is_counted (bytes_with routes) (lones_seen lones.now) a) }
{
    let mut auths = BTreeSet::new(alloc);
    for lone in lones {
        take_lone(alloc, &mut auths, lone)?;
    }
    Ok(auths)
}

/// Adds the authorizations of the payments that the node of a log counts.
fn take_lone(alloc: Global, auths: &mut BTreeSet<Auth>, lone: &Lone<'_>) -> Result<(), AllocError>
    ensures { (routes : RouteMaps) → OnOk result
        (Joins auths.old.keys auths.new.keys (names_auth (counted_in (bytes_with routes) (lone_seen lone.now)))) }
{
    match &lone.came {
        Came::Made(node) => take_node(alloc, auths, node),
        Came::NotMade(_) => Ok(()),
    }
}

/// Adds the authorizations of the payments that a node counts, if it is a pharmacy.
fn take_node(alloc: Global, auths: &mut BTreeSet<Auth>, node: &NodeState) -> Result<(), AllocError>
    ensures { (routes : RouteMaps) → OnOk result
        (Joins auths.old.keys auths.new.keys (names_auth (told_of (counted (bytes_with routes)) (journal_of node.now)))) }
{
    match node.journal(alloc)? {
        Some(journal) => take_journal(auths, &journal),
        None => Ok(()),
    }
}

/// Appends the rows of a table that the nodes of these logs have; those with these authorizations are counted.
fn put_lones<K: TextSink + Drop>(
    alloc: Global,
    out: &mut Outgoing<K>,
    style: Style,
    lones: &[Lone<'_>],
    counted: &BTreeSet<Auth>,
    table: Table,
) -> Result<(), AllocError>
    ensures { TellsPut style out.old out.new
        (λ ctx. flat_map (rows_of ctx (has_auth counted.now.keys) table) (lones_seen lones.now)) result }
{
    for lone in lones {
        put_lone(alloc, out, style, lone, counted, table)?;
    }
    Ok(())
}

/// Appends the rows of a table that the node of a log has.
#[tactic(auto, using(crate::proofs::Joining::no_rows))]
fn put_lone<K: TextSink + Drop>(
    alloc: Global,
    out: &mut Outgoing<K>,
    style: Style,
    lone: &Lone<'_>,
    counted: &BTreeSet<Auth>,
    table: Table,
) -> Result<(), AllocError>
    ensures { TellsPut style out.old out.new
        (λ ctx. rows_of ctx (has_auth counted.now.keys) table (lone_seen lone.now)) result }
{
    match &lone.came {
        Came::Made(node) => put_node(alloc, out, style, lone.log, node, counted, table),
        Came::NotMade(_) => Ok(()),
    }
}

/// Appends the rows of a table that a node has after its log.
#[tactic(auto, using(crate::proofs::Joining::no_rows))]
fn put_node<K: TextSink + Drop>(
    alloc: Global,
    out: &mut Outgoing<K>,
    style: Style,
    log: &NodeLog,
    node: &NodeState,
    counted: &BTreeSet<Auth>,
    table: Table,
) -> Result<(), AllocError>
    ensures { TellsPut style out.old out.new
        (λ ctx. node_rows ctx (has_auth counted.now.keys) table (log_seen log.now) node.now) result }
{
    match table {
        Table::Payments => put_book(alloc, out, style, node, OfBook::Payments(counted)),
        Table::Entries => put_journal(alloc, out, style, node, OfJournal::Entries),
        Table::Rows => put_book(alloc, out, style, node, OfBook::Rulings),
        Table::Packets => Ok(()),
        Table::Open => put_journal(alloc, out, style, node, OfJournal::Open(log)),
        Table::Counted => put_journal(alloc, out, style, node, OfJournal::Counted),
    }
}

/// Appends the rows of a payer's book.
#[tactic(auto, using(crate::proofs::Joining::nothing_told))]
fn put_book<K: TextSink + Drop>(
    alloc: Global,
    out: &mut Outgoing<K>,
    style: Style,
    node: &NodeState,
    of: OfBook<'_>,
) -> Result<(), AllocError>
    ensures { TellsPut style out.old out.new (λ ctx. told_of (book_rows ctx of.entry) (book_of node.now)) result }
{
    match node.book(alloc)? {
        Some(reading) => put_of_book(out, style, reading.book(), of),
        None => Ok(()),
    }
}

/// Appends the rows of a pharmacy's journal.
#[tactic(auto, using(crate::proofs::Joining::nothing_told))]
fn put_journal<K: TextSink + Drop>(
    alloc: Global,
    out: &mut Outgoing<K>,
    style: Style,
    node: &NodeState,
    of: OfJournal<'_>,
) -> Result<(), AllocError>
    ensures { TellsPut style out.old out.new (λ ctx. told_of (told_rows ctx of.entry) (journal_of node.now)) result }
{
    match node.journal(alloc)? {
        Some(journal) => put_of_journal(alloc, out, style, &journal, of),
        None => Ok(()),
    }
}

/// Appends a row for each entry of a journal without an answer.
pub(crate) fn put_open<K: TextSink + Drop>(
    alloc: Global,
    out: &mut Outgoing<K>,
    style: Style,
    log: &NodeLog,
    journal: &JournalReading<'_>,
) -> Result<(), AllocError>
    ensures { OnOk result (PutsRows style out.old out.new
        (journal_open (number_of (node_seen log.now.node)) log.now.calls.items journal.now)) }
{
    let entries = journal.list()?;
    put_open_entries(alloc, out, style, log, entries.as_slice())
}

/// Appends a row for each of these entries without an answer.
fn put_open_entries<K: TextSink + Drop>(
    alloc: Global,
    out: &mut Outgoing<K>,
    style: Style,
    log: &NodeLog,
    entries: &[EntryView],
) -> Result<(), AllocError>
    ensures { OnOk result (PutsRows style out.old out.new
        (flat_map (open_rows (length entries.now) (number_of (node_seen log.now.node)) log.now.calls.items) entries.now)) }
{
    let ages = Ages::of(alloc, log.records())?;
    let before = ages.entries_before(entries.len());
    let number = number_of(log.node());
    let mut row = out.piece();
    for entry in entries {
        row.clear();
        put_if_open(
            &mut row,
            style,
            number,
            entry,
            ages.age(before, entry.number()),
        )?;
        out.put(row.as_slice())?;
    }
    Ok(())
}

/// Appends the row of an entry that is this many ticks old, if it has no answer.
#[tactic(auto, using(crate::proofs::Joining::no_rows))]
fn put_if_open(
    out: &mut Vec<u8>,
    style: Style,
    pharmacy: u64,
    entry: &EntryView,
    ticks: u64,
) -> Result<(), AllocError>
    ensures { OnOk result (AddsRows style out.old out.new
        (cond (is_open entry.now) (open_row pharmacy entry.now ticks ∷ []) [])) }
{
    if is_open(entry) {
        put_open_row(out, style, pharmacy, entry, ticks)
    } else {
        Ok(())
    }
}

/// Appends the row of an entry without an answer.
#[tactic(auto, unfolding(crate::specs::Lones::open_row))]
fn put_open_row(
    out: &mut Vec<u8>,
    style: Style,
    pharmacy: u64,
    entry: &EntryView,
    ticks: u64,
) -> Result<(), AllocError>
    ensures { OnOk result (AddsRow style out.old out.new (open_row pharmacy entry.now ticks)) }
{
    let fields = [
        Field::number(b"pharmacy", pharmacy),
        Field::number(b"number", entry.number()),
        Field::word(b"kind", kind_word(entry.code())),
        Field::number(b"ticks", ticks),
    ];
    put_row(out, style, &fields)
}
