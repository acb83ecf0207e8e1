//! What is written of calls that were made, and of questions.

ghost use Rattle.std.specs.Prelude.{◌≡◌, ◌++◌, None, OnOk};
ghost use Rattle.bin_routes.specs.Table.{RouteMaps};
ghost use Rattle.claim_model.specs.Bytes.{bytes_with};
ghost use Rattle.claim_model.specs.Node.{Pharmacy};
ghost use Rattle.world_setup.specs.Seen.{call_seen, node_seen};
ghost use Rattle.node_service.specs.BookRow.{row_text};
ghost use Rattle.node_service.specs.Listing.{open_text};
ghost use Rattle.node_service.specs.Payments.{journal_payments, page, payment_lines, payments_by, payments_text};
ghost use Rattle.node_state.specs.Nodes.{book_of};
ghost use Rattle.node_service.specs.Serving.{answer_of, answer_text, last_line, made_lines, told_of};

use crate::answering::{put_answer, put_done, put_number, put_sent};
use crate::book_row::put_row_in;
use crate::listing::{put_count, put_end, put_open};
use crate::payment_lines::{put_book_page, put_payments};
use crate::payments::{journal_payments, page};
use crate::questions::Question;
use envelope::TxnId;
use node_log::Record;
use node_state::{JournalReading, NodeState};
use octets::Octets;
use std::alloc::{AllocError, Global};
use world_setup::{Call, Node};

/// Appends what is written of a call that was made: the packets that it sent, and its last line.
pub(crate) fn put_made(
    alloc: Global,
    out: &mut Vec<u8>,
    state: &NodeState,
    one: &Record,
) -> Result<(), AllocError>
    ensures { OnOk result (out.new.items ≡ out.old.items ++ made_lines one.now.call one.now.sent state.now) }
{
    put_sent(out, one.sent())?;
    put_last(alloc, out, state, one.call())
}

/// Appends the last line of a call that was made: of a submission the number of its entry.
fn put_last(
    alloc: Global,
    out: &mut Vec<u8>,
    state: &NodeState,
    call: &Call,
) -> Result<(), AllocError>
    ensures { OnOk result (out.new.items ≡ out.old.items ++ last_line (call_seen call.now) state.now) }
{
    match call {
        Call::Submit(_) => put_number(out, state.entries(alloc)? as u64),
        Call::Tick => put_done(out),
        Call::Take { .. } => put_done(out),
        Call::Stop => put_done(out),
        Call::Start => put_done(out),
        Call::Plan { .. } => put_done(out),
        Call::Terms { .. } => put_done(out),
        Call::Retry { .. } => put_done(out),
        Call::Cap { .. } => put_done(out),
        Call::Adjudicate { .. } => put_done(out),
    }
}

/// Appends what is told at a question.
pub(crate) fn put_told(
    alloc: Global,
    out: &mut Vec<u8>,
    state: &NodeState,
    name: Node,
    question: Question,
) -> Result<(), AllocError>
    ensures { (routes : RouteMaps) → OnOk result (out.new.items
        ≡ out.old.items ++ told_of (bytes_with routes) state.now (node_seen name) question) }
{
    match question {
        Question::Answer(number) => put_answer_to(alloc, out, state, name, number),
        Question::Count => put_count(out, state.size(alloc)? as u64),
        Question::Open(number, count) => put_open_of(alloc, out, state, number, count),
        Question::Row(number) => put_row_of(alloc, out, state, number),
        Question::Payments(number, count) => put_payments_of(alloc, out, state, number, count),
    }
}

/// Appends the open entries of a pharmacy; another node has none.
fn put_open_of(
    alloc: Global,
    out: &mut Vec<u8>,
    state: &NodeState,
    number: u64,
    count: u64,
) -> Result<(), AllocError>
    ensures { OnOk result (out.new.items ≡ out.old.items ++ open_text number count state.now) }
{
    match state.journal(alloc)? {
        Some(journal) => put_open(out, &journal, number, count),
        None => put_end(out),
    }
}

/// Appends the row of a number of a payer's book; another node has none.
fn put_row_of(
    alloc: Global,
    out: &mut Vec<u8>,
    state: &NodeState,
    number: u64,
) -> Result<(), AllocError>
    ensures { (routes : RouteMaps) → OnOk result (out.new.items
        ≡ out.old.items ++ row_text (bytes_with routes) number state.now) }
{
    match state.book(alloc)? {
        Some(reading) => put_row_in(out, reading.book(), number),
        None => out.extend_from_slice(b"none\n"),
    }
}

/// Appends the payments of a node, this many at most from the one of a number on.
fn put_payments_of(
    alloc: Global,
    out: &mut Vec<u8>,
    state: &NodeState,
    number: u64,
    count: u64,
) -> Result<(), AllocError>
    ensures { (routes : RouteMaps) → OnOk result (out.new.items
        ≡ out.old.items ++ payments_text (bytes_with routes) number count state.now) }
{
    match state.journal(alloc)? {
        Some(journal) => put_counted(alloc, out, &journal, number, count)?,
        None => put_booked(alloc, out, state, number, count)?,
    }
    put_end(out)
}

/// Appends the payments that a pharmacy counts, this many at most from the one of a number on. All entries are read for them.
fn put_counted(
    alloc: Global,
    out: &mut Vec<u8>,
    journal: &JournalReading<'_>,
    number: u64,
    count: u64,
) -> Result<(), AllocError>
    ensures { (routes : RouteMaps) → OnOk result (out.new.items
        ≡ out.old.items ++ payment_lines (page number count (journal_payments (bytes_with routes) journal.now))) }
{
    let list = journal_payments(alloc, journal)?;
    put_payments(out, page(list.as_slice(), number, count))
}

/// Appends the payments of a payer's book, this many at most from the one of a number on; a switch has none.
fn put_booked(
    alloc: Global,
    out: &mut Vec<u8>,
    state: &NodeState,
    number: u64,
    count: u64,
) -> Result<(), AllocError>
    ensures { (routes : RouteMaps) → OnOk result (out.new.items
        ≡ out.old.items ++ payment_lines (page number count (payments_by (bytes_with routes) None (book_of state.now)))) }
{
    match state.book(alloc)? {
        Some(reading) => put_book_page(out, reading.book(), number, count),
        None => put_payments(out, &[]),
    }
}

/// Appends the answer to a number of this pharmacy; of another node there is none.
fn put_answer_to(
    alloc: Global,
    out: &mut Vec<u8>,
    state: &NodeState,
    name: Node,
    number: u64,
) -> Result<(), AllocError>
    ensures { (routes : RouteMaps) → OnOk result (out.new.items
        ≡ out.old.items ++ answer_of (bytes_with routes) state.now (node_seen name) number) }
{
    match name {
        Node::Pharmacy(pharmacy) => put_own(alloc, out, state, pharmacy, number),
        Node::Switch(_) => out.extend_from_slice(b"none\n"),
        Node::Payer(_) => out.extend_from_slice(b"none\n"),
    }
}

/// Appends the answer to a number of this pharmacy.
fn put_own(
    alloc: Global,
    out: &mut Vec<u8>,
    state: &NodeState,
    pharmacy: u16,
    number: u64,
) -> Result<(), AllocError>
    ensures { (routes : RouteMaps) → OnOk result (out.new.items
        ≡ out.old.items ++ answer_of (bytes_with routes) state.now (Pharmacy pharmacy) number) }
{
    let Some(id) = TxnId::new(pharmacy, number) else {
        return out.extend_from_slice(b"none\n");
    };
    let answer = state.held(alloc, id)?;
    let request = state.request(alloc, number)?;
    put_text(out, answer, request)
}

/// Appends an answer, or whether the number has an entry.
fn put_text(
    out: &mut Vec<u8>,
    answer: Option<Octets>,
    request: Option<Octets>,
) -> Result<(), AllocError>
    ensures { OnOk result (out.new.items ≡ out.old.items ++ answer_text answer request) }
{
    match (answer, request) {
        (Some(answer), _) => put_answer(out, answer.as_slice()),
        (None, Some(_)) => out.extend_from_slice(b"open\n"),
        (None, None) => out.extend_from_slice(b"none\n"),
    }
}
