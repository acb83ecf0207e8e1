//! The tables of what a run left, or of logs one by one.

ghost use Rattle.std.specs.Prelude.{◌≡◌};
ghost use Rattle.std.specs.List.{flat_map};
ghost use Rattle.claim_model.specs.Held.{journal_in, book_in};
ghost use Rattle.table_text.specs.Rows.{list_text, rows_text};
ghost use Rattle.table_text.specs.declared.layout.Style.TheVariants.{Json};
ghost use Rattle.log_audit.specs.TabledSeen.{tabled_rows, book_rows, told_rows};
ghost use Rattle.log_audit.specs.Tables.{world_payments, table_rows, table_csv, table_name, table_member, table_members};
ghost use Rattle.log_audit.specs.Outgoing.{TellsPut, TellsText};

use crate::alone::log::Lone;
use crate::alone::tables::{put_lone_table, put_open};
use crate::outgoing::{Outgoing, TextSink};
use crate::tables::columns::put_names;
use crate::tables::counted::counted_auths;
use crate::tables::counting::put_journal_counted;
use crate::tables::entries::put_journal;
use crate::tables::packets::put_packets;
use crate::tables::payments::put_book_payments;
use crate::tables::rows::put_book_rulings;
use claim_profile::Auth;
use node_log::NodeLog;
use node_state::{JournalReading, PayerNode, PharmacyNode};
use payer_book::Book;
use std::alloc::{AllocError, Global};
use std::collections::BTreeSet;
use table_text::Style;
use world_core::World;

/// Which table.
#[derive(Clone, Copy, PartialEq, Eq)]
pub enum Table {
    /// Each payment of each book; of logs one by one counted where a pharmacy of these logs counts it.
    Payments,
    /// Each entry of each journal.
    Entries,
    /// Each transaction of each row of each book.
    Rows,
    /// Each packet that was sent; none of logs one by one.
    Packets,
    /// Each payment that a pharmacy counts.
    Counted,
    /// Each entry without an answer, and how many ticks came after its submission; none of a run.
    Open,
}

impl Table {
    /// Its name in JSON.
    fn name(self) -> &'static [u8]
        ensures { result.now ≡ table_name self }
    {
        match self {
            Table::Payments => b"payments",
            Table::Entries => b"entries",
            Table::Rows => b"rows",
            Table::Packets => b"packets",
            Table::Counted => b"counted",
            Table::Open => b"open",
        }
    }
}

/// What tables are told of.
#[derive(Clone, Copy)]
pub(crate) enum Tabled<'a> {
    /// The world that a run left, and for each packet the event that sent it.
    Run(&'a World, &'a [u64]),
    /// Logs one by one.
    Alone(&'a [Lone<'a>]),
}

/// What is told of a book.
#[derive(Clone, Copy)]
pub(crate) enum OfBook<'a> {
    /// Its payments; those with these authorizations are counted.
    Payments(&'a BTreeSet<Auth>),
    /// The rulings of its rows.
    Rulings,
}

/// What is told of a journal.
#[derive(Clone, Copy)]
pub(crate) enum OfJournal<'a> {
    /// Its entries.
    Entries,
    /// The payments that it counts.
    Counted,
    /// Its entries without an answer, after the calls of this log.
    Open(&'a NodeLog),
}

/// Appends a table as CSV: a line of the names of its columns, and a line for each row.
#[tactic(auto, unfolding(crate::specs::Tables::table_csv))]
pub(crate) fn put_csv<K: TextSink + Drop>(
    alloc: Global,
    out: &mut Outgoing<K>,
    tabled: Tabled<'_>,
    table: Table,
) -> Result<(), AllocError>
    ensures { TellsText out.old out.new (λ ctx. table_csv (tabled_rows ctx tabled.entry) table) result }
{
    let mut names = out.piece();
    put_names(&mut names, table)?;
    out.put(names.as_slice())?;
    put_table(alloc, out, Style::Csv, tabled, table)
}

/// Appends all tables as members of an object of JSON, each after a comma; this one is told before the last.
pub(crate) fn put_json<K: TextSink + Drop>(
    alloc: Global,
    out: &mut Outgoing<K>,
    tabled: Tabled<'_>,
    own: Table,
) -> Result<(), AllocError>
    ensures { TellsText out.old out.new (λ ctx. table_members (tabled_rows ctx tabled.entry) own) result }
{
    put_member(alloc, out, tabled, Table::Payments)?;
    put_member(alloc, out, tabled, Table::Entries)?;
    put_member(alloc, out, tabled, Table::Rows)?;
    put_member(alloc, out, tabled, own)?;
    put_member(alloc, out, tabled, Table::Counted)
}

/// Appends a table as a member of an object of JSON, after a comma.
fn put_member<K: TextSink + Drop>(
    alloc: Global,
    out: &mut Outgoing<K>,
    tabled: Tabled<'_>,
    table: Table,
) -> Result<(), AllocError>
    ensures { TellsText out.old out.new (λ ctx. table_member (tabled_rows ctx tabled.entry) table) result }
{
    out.put(b",\n\"")?;
    out.put(table.name())?;
    out.put(b"\":")?;
    put_rows_list(alloc, out, tabled, table)
}

/// Appends the rows of a table as a list of JSON.
#[tactic(auto, using(std::proofs::lemmas::Result::on_ok_weaker, crate::proofs::Pieces::list_ended))]
fn put_rows_list<K: TextSink + Drop>(
    alloc: Global,
    out: &mut Outgoing<K>,
    tabled: Tabled<'_>,
    table: Table,
) -> Result<(), AllocError>
    ensures { TellsText out.old out.new (λ ctx. list_text (rows_text Json (tabled_rows ctx tabled.entry table))) result }
{
    out.put(b"[")?;
    put_table(alloc, out, Style::Json, tabled, table)?;
    out.end_list()
}

/// Appends the rows of a table.
fn put_table<K: TextSink + Drop>(
    alloc: Global,
    out: &mut Outgoing<K>,
    style: Style,
    tabled: Tabled<'_>,
    table: Table,
) -> Result<(), AllocError>
    ensures { TellsPut style out.old out.new (λ ctx. tabled_rows ctx tabled.entry table) result }
{
    match tabled {
        Tabled::Run(world, senders) => put_run_table(alloc, out, style, world, senders, table),
        Tabled::Alone(lones) => put_lone_table(alloc, out, style, lones, table),
    }
}

/// Appends the rows of a table of what a run left.
#[tactic(auto, using(crate::proofs::Joining::no_rows))]
fn put_run_table<K: TextSink + Drop>(
    alloc: Global,
    out: &mut Outgoing<K>,
    style: Style,
    world: &World,
    senders: &[u64],
    table: Table,
) -> Result<(), AllocError>
    ensures { TellsPut style out.old out.new (λ ctx. table_rows ctx world.now.world senders.now table) result }
{
    match table {
        Table::Payments => put_payments(alloc, out, style, world),
        Table::Entries => put_journals(alloc, out, style, world.pharmacies(), OfJournal::Entries),
        Table::Rows => put_books(alloc, out, style, world.payers(), OfBook::Rulings),
        Table::Packets => put_packets(out, style, world.packets(), senders),
        Table::Counted => put_journals(alloc, out, style, world.pharmacies(), OfJournal::Counted),
        Table::Open => Ok(()),
    }
}

/// Appends the payments of all books.
fn put_payments<K: TextSink + Drop>(
    alloc: Global,
    out: &mut Outgoing<K>,
    style: Style,
    world: &World,
) -> Result<(), AllocError>
    ensures { TellsPut style out.old out.new (λ ctx. world_payments ctx world.now.world) result }
{
    let counted = counted_auths(alloc, world.pharmacies())?;
    put_books(
        alloc,
        out,
        style,
        world.payers(),
        OfBook::Payments(&counted),
    )
}

/// Appends the rows of these books.
fn put_books<K: TextSink + Drop>(
    alloc: Global,
    out: &mut Outgoing<K>,
    style: Style,
    nodes: &[PayerNode],
    of: OfBook<'_>,
) -> Result<(), AllocError>
    ensures { TellsPut style out.old out.new
        (λ ctx. flat_map (λ node. book_rows ctx of.entry (book_in node)) nodes.now) result }
{
    for node in nodes {
        let reading = node.book(alloc)?;
        put_of_book(out, style, reading.book(), of)?;
    }
    Ok(())
}

/// Appends the rows of these journals.
fn put_journals<K: TextSink + Drop>(
    alloc: Global,
    out: &mut Outgoing<K>,
    style: Style,
    nodes: &[PharmacyNode],
    of: OfJournal<'_>,
) -> Result<(), AllocError>
    ensures { TellsPut style out.old out.new
        (λ ctx. flat_map (λ node. told_rows ctx of.entry (journal_in node)) nodes.now) result }
{
    for node in nodes {
        let journal = node.journal(alloc)?;
        put_of_journal(alloc, out, style, &journal, of)?;
    }
    Ok(())
}

/// Appends the rows of a book.
pub(crate) fn put_of_book<K: TextSink + Drop>(
    out: &mut Outgoing<K>,
    style: Style,
    book: &Book,
    of: OfBook<'_>,
) -> Result<(), AllocError>
    ensures { TellsPut style out.old out.new (λ ctx. book_rows ctx of.entry book.now) result }
{
    match of {
        OfBook::Payments(counted) => put_book_payments(out, style, book, counted),
        OfBook::Rulings => put_book_rulings(out, style, book),
    }
}

/// Appends the rows of a journal.
pub(crate) fn put_of_journal<K: TextSink + Drop>(
    alloc: Global,
    out: &mut Outgoing<K>,
    style: Style,
    journal: &JournalReading<'_>,
    of: OfJournal<'_>,
) -> Result<(), AllocError>
    ensures { TellsPut style out.old out.new (λ ctx. told_rows ctx of.entry journal.now) result }
{
    match of {
        OfJournal::Entries => put_journal(out, style, journal),
        OfJournal::Counted => put_journal_counted(out, style, journal),
        OfJournal::Open(log) => put_open(alloc, out, style, log, journal),
    }
}
