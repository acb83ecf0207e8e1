//! Lines that people read.

ghost use Rattle.std.specs.Prelude.{◌≡◌, ◌++◌, OnOk};
ghost use Rattle.days_audit.specs.Telling.{legal_text, not_text};

use crate::agreeing::Misfit;
use crate::taken::{id_of, packet_of};
use envelope::{Kind, TxnId};
use input_text::put_decimal;
use node_log::{NodeLog, Record};
use octets::Octets;
use std::alloc::{AllocError, Global};
use world_setup::Node;

/// Appends the line on legal days.
#[tactic(auto, unfolding(crate::specs::Telling::legal_text))]
pub(crate) fn put_legal(out: &mut Vec<u8>, calls: u64) -> Result<(), AllocError>
    ensures { OnOk result (out.new.items ≡ out.old.items ++ legal_text calls) }
{
    out.extend_from_slice(b"legal days of ")?;
    put_decimal(out, calls)?;
    out.extend_from_slice(b" calls\n")
}

/// Appends the line on logs of no days, and what says why.
#[tactic(auto, unfolding(crate::specs::Telling::not_text))]
pub(crate) fn put_not(out: &mut Vec<u8>, lines: &[u8]) -> Result<(), AllocError>
    ensures { OnOk result (out.new.items ≡ out.old.items ++ not_text lines.now) }
{
    out.extend_from_slice(b"no legal days\n")?;
    out.extend_from_slice(lines)
}

/// The line on something in which states do not agree.
pub(crate) fn misfit_line(alloc: Global, misfit: Misfit) -> Result<Vec<u8>, AllocError> {
    let mut out = Vec::new(alloc);
    match misfit {
        Misfit::Row(payer, id) => {
            out.extend_from_slice(b"payer ")?;
            put_decimal(&mut out, payer as u64)?;
            put_id(
                &mut out,
                b" begins with a row of ",
                id,
                b" that its pharmacy does not have\n",
            )?;
        }
        Misfit::Answer(id) => {
            put_node(&mut out, Node::Pharmacy(id.pharmacy()))?;
            out.extend_from_slice(b" begins with an answer to ")?;
            put_decimal(&mut out, id.number())?;
            out.extend_from_slice(b" that was not decided\n")?;
        }
    }
    Ok(out)
}

/// Appends a line that says this of a node.
pub(crate) fn put_said(out: &mut Vec<u8>, node: Node, says: &[u8]) -> Result<(), AllocError> {
    put_node(out, node)?;
    out.extend_from_slice(says)?;
    out.extend_from_slice(b"\n")
}

/// Appends the line on the next call of a log, of which these records are left.
pub(crate) fn put_wait(
    out: &mut Vec<u8>,
    log: &NodeLog,
    left: &[Record],
) -> Result<(), AllocError> {
    match left.first() {
        Some(one) => {
            let before = log.records().len().saturating_sub(left.len()) as u64;
            put_node(out, log.node())?;
            out.extend_from_slice(b" call ")?;
            put_decimal(out, before.saturating_add(1))?;
            put_matter(out, one)
        }
        None => Ok(()),
    }
}

/// Appends what it is that a call waits for.
fn put_matter(out: &mut Vec<u8>, one: &Record) -> Result<(), AllocError> {
    match packet_of(one.call()) {
        Some(packet) => put_packet(out, packet),
        None => out.extend_from_slice(b": it is not made\n"),
    }
}

/// Appends what it is of a packet that nothing vouches for.
fn put_packet(out: &mut Vec<u8>, packet: &Octets) -> Result<(), AllocError> {
    if let Some(id) = id_of(packet, Kind::Request) {
        return put_id(
            out,
            b": the request of ",
            id,
            b" was not submitted before\n",
        );
    }
    if let Some(id) = id_of(packet, Kind::Answer) {
        return put_id(out, b": the answer to ", id, b" was not decided before\n");
    }
    out.extend_from_slice(b": what it takes is no envelope\n")
}

/// Appends an id between these words.
fn put_id(out: &mut Vec<u8>, before: &[u8], id: TxnId, after: &[u8]) -> Result<(), AllocError> {
    out.extend_from_slice(before)?;
    put_decimal(out, id.pharmacy() as u64)?;
    out.extend_from_slice(b".")?;
    put_decimal(out, id.number())?;
    out.extend_from_slice(after)
}

/// Appends a node by its kind and its number.
fn put_node(out: &mut Vec<u8>, node: Node) -> Result<(), AllocError> {
    match node {
        Node::Pharmacy(number) => put_named(out, b"pharmacy ", number),
        Node::Switch(number) => put_named(out, b"switch ", number),
        Node::Payer(number) => put_named(out, b"payer ", number),
    }
}

/// Appends a number and the word before it.
fn put_named(out: &mut Vec<u8>, word: &[u8], number: u16) -> Result<(), AllocError> {
    out.extend_from_slice(word)?;
    put_decimal(out, number as u64)
}
