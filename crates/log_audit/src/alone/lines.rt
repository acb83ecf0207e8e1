//! The lines of logs one by one.

ghost use Rattle.std.specs.Prelude.{◌≡◌, ◌++◌, [], cond, length, IfOk, OnOk};
ghost use Rattle.std.specs.List.{flat_map};
ghost use Rattle.bin_routes.specs.Table.{RouteMaps};
ghost use Rattle.claim_model.specs.Bytes.{bytes_with};
ghost use Rattle.node_state.specs.Nodes.{book_of, journal_of};
ghost use Rattle.world_setup.specs.Seen.{node_seen};
ghost use Rattle.node_log.specs.LogSeen.{log_seen};
ghost use Rattle.table_text.specs.Adding.{Adds};
ghost use Rattle.log_audit.specs.Adding.{Tells};
ghost use Rattle.log_audit.specs.AloneSeen.{lone_seen, lones_seen};
ghost use Rattle.log_audit.specs.Kinds.{number_of};
ghost use Rattle.log_audit.specs.Ledger.{book_text, is_open};
ghost use Rattle.log_audit.specs.Lones.{before_line, before_text, told_of, open_line, open_text, journal_lines, makes_line, has_text};
ghost use Rattle.log_audit.specs.LoneTelling.{lone_text, lone_lines};

use crate::alone::ages::Ages;
use crate::alone::log::{Came, Lone};
use crate::report::ledger::{is_open, put_requests};
use crate::report::paid::put_book;
use crate::report::put_log;
use crate::sentences::{Manner, Piece, put_pieces, put_told};
use crate::tables::kinds::{kind_word, number_of};
use node_log::NodeLog;
use node_state::{JournalReading, NodeState};
use pharmacy_journal::EntryView;
use std::alloc::{AllocError, Global};
use world_setup::Node;

/// For each log its line, whether its node makes it, and what the node has; and what is said last.
#[tactic(auto, unfolding(crate::specs::LoneTelling::lone_lines))]
pub(crate) fn lines_of(
    alloc: Global,
    pharmacies: usize,
    lones: &[Lone<'_>],
    last: &[u8],
) -> Result<Vec<u8>, AllocError>
    ensures { (routes : RouteMaps) → IfOk result (λ text.
        text.items ≡ lone_lines (bytes_with routes) pharmacies (lones_seen lones.now) last.now) }
{
    let mut out = Vec::new(alloc);
    put_lones(alloc, &mut out, pharmacies, lones)?;
    out.extend_from_slice(last)?;
    Ok(out)
}

/// Appends for each log its line, and what it comes to.
fn put_lones(
    alloc: Global,
    out: &mut Vec<u8>,
    pharmacies: usize,
    lones: &[Lone<'_>],
) -> Result<(), AllocError>
    ensures { Tells out.old out.new (λ ctx. flat_map (lone_text ctx pharmacies) (lones_seen lones.now)) result }
{
    for lone in lones {
        put_lone(alloc, out, pharmacies, lone)?;
    }
    Ok(())
}

/// Appends the line of a log, how many calls were made before it, and what it comes to.
#[tactic(auto, using(std::proofs::lemmas::Result::on_ok_weaker, input_text::proofs::Joining::lists_join))]
fn put_lone(
    alloc: Global,
    out: &mut Vec<u8>,
    pharmacies: usize,
    lone: &Lone<'_>,
) -> Result<(), AllocError>
    ensures { Tells out.old out.new (λ ctx. lone_text ctx pharmacies (lone_seen lone.now)) result }
{
    put_log(out, lone.log, lone.torn)?;
    put_before(out, lone)?;
    match &lone.came {
        Came::Made(node) => put_made(alloc, out, pharmacies, lone.log, node),
        Came::NotMade(line) => put_told(out, Manner::Line, line.as_slice()),
    }
}

/// Appends how many calls were made before a log, where there are any.
fn put_before(out: &mut Vec<u8>, lone: &Lone<'_>) -> Result<(), AllocError>
    ensures { OnOk result (Adds out.old out.new (before_text (lone_seen lone.now))) }
{
    if lone.is_behind() {
        put_behind(out, lone.log.node(), lone.before)
    } else {
        Ok(())
    }
}

/// Appends after how many calls the log of a node begins.
fn put_behind(out: &mut Vec<u8>, node: Node, before: u64) -> Result<(), AllocError>
    ensures { OnOk result (Adds out.old out.new (before_line (node_seen node) before)) }
{
    let pieces = [
        Piece::Named(node),
        Piece::Words(b" begins behind "),
        Piece::Number(before),
        Piece::Words(b" calls, as its rest says\n"),
    ];
    put_pieces(out, &pieces)
}

/// Appends that a node makes its log, and what it has then.
#[tactic(auto, using(std::proofs::lemmas::Result::on_ok_weaker, input_text::proofs::Joining::lists_join))]
fn put_made(
    alloc: Global,
    out: &mut Vec<u8>,
    pharmacies: usize,
    log: &NodeLog,
    node: &NodeState,
) -> Result<(), AllocError>
    ensures { Tells out.old out.new
        (λ ctx. makes_line (node_seen log.now.node) ++ has_text ctx pharmacies (log_seen log.now) node.now) result }
{
    put_makes(out, log.node())?;
    put_journal_of(alloc, out, log, node)?;
    put_book_of(alloc, out, pharmacies, number_of(log.node()), node)
}

/// Appends that a node makes its log.
fn put_makes(out: &mut Vec<u8>, node: Node) -> Result<(), AllocError>
    ensures { OnOk result (Adds out.old out.new (makes_line (node_seen node))) }
{
    let pieces = [Piece::Named(node), Piece::Words(b" makes these calls\n")];
    put_pieces(out, &pieces)
}

/// Appends what a payer of this number has after its log.
fn put_book_of(
    alloc: Global,
    out: &mut Vec<u8>,
    pharmacies: usize,
    number: u64,
    node: &NodeState,
) -> Result<(), AllocError>
    ensures { Tells out.old out.new (λ ctx. told_of (book_text ctx pharmacies number) (book_of node.now)) result }
{
    match node.book(alloc)? {
        Some(reading) => put_book(alloc, out, pharmacies, number, reading.book()),
        None => Ok(()),
    }
}

/// Appends what a pharmacy has after its log.
fn put_journal_of(
    alloc: Global,
    out: &mut Vec<u8>,
    log: &NodeLog,
    node: &NodeState,
) -> Result<(), AllocError>
    ensures { Tells out.old out.new (λ ctx.
        told_of (journal_lines ctx (number_of (node_seen log.now.node)) log.now.calls.items) (journal_of node.now)) result }
{
    match node.journal(alloc)? {
        Some(journal) => put_journal(alloc, out, number_of(log.node()), log, &journal),
        None => Ok(()),
    }
}

/// Appends the counts of a pharmacy of this number, and a line for each entry without an answer.
#[tactic(auto, unfolding(crate::specs::Lones::journal_lines))]
fn put_journal(
    alloc: Global,
    out: &mut Vec<u8>,
    number: u64,
    log: &NodeLog,
    journal: &JournalReading<'_>,
) -> Result<(), AllocError>
    ensures { Tells out.old out.new (λ ctx. journal_lines ctx number log.now.calls.items journal.now) result }
{
    let (entries, paid) = journal.told()?;
    put_requests(out, number, entries.as_slice(), paid.as_slice())?;
    out.extend_from_slice(b"\n")?;
    put_open_of(alloc, out, number, log, entries.as_slice())
}

/// Appends a line for each of these entries without an answer.
fn put_open_of(
    alloc: Global,
    out: &mut Vec<u8>,
    number: u64,
    log: &NodeLog,
    entries: &[EntryView],
) -> Result<(), AllocError>
    ensures { OnOk result (Adds out.old out.new
        (flat_map (open_text (length entries.now) number log.now.calls.items) entries.now)) }
{
    let ages = Ages::of(alloc, log.records())?;
    let before = ages.entries_before(entries.len());
    for entry in entries {
        put_if_open(out, number, entry, ages.age(before, entry.number()))?;
    }
    Ok(())
}

/// Appends the line of an entry that is this many ticks old, if it has no answer.
fn put_if_open(
    out: &mut Vec<u8>,
    number: u64,
    entry: &EntryView,
    age: u64,
) -> Result<(), AllocError>
    ensures { OnOk result (Adds out.old out.new (cond (is_open entry.now) (open_line number entry.now age) [])) }
{
    if is_open(entry) {
        put_open(out, number, entry, age)
    } else {
        Ok(())
    }
}

/// Appends the line of an entry without an answer, which is this many ticks old.
#[tactic(auto, unfolding(crate::specs::Lones::open_line))]
fn put_open(out: &mut Vec<u8>, number: u64, entry: &EntryView, age: u64) -> Result<(), AllocError>
    ensures { OnOk result (Adds out.old out.new (open_line number entry.now age)) }
{
    let pieces = [
        Piece::Words(b"pharmacy "),
        Piece::Number(number),
        Piece::Words(b" open "),
        Piece::Number(entry.number()),
        Piece::Words(b" "),
        Piece::Words(kind_word(entry.code())),
        Piece::Words(b" ticks "),
        Piece::Number(age),
        Piece::Words(b"\n"),
    ];
    put_pieces(out, &pieces)
}
