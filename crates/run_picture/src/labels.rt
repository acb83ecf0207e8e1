//! What stands at the arrow of a packet.

use crate::lanes::Lanes;
use crate::lettering::{put_ruling, put_txn};
use claim_profile::{AnswerFault, Ruling, read_advice, read_answer};
use d0_header::RequestHeader;
use envelope::{Envelope, Kind, TxnId};
use input_text::put_decimal;
use std::alloc::{AllocError, Global};
use std::collections::BTreeSet;
use world_setup::Packet;

/// Which packets were labelled: the sender's column, whether it carries an answer, and its transaction.
type Known = BTreeSet<(usize, bool, u16, u64)>;

/// The labels of all packets, in order of their numbers.
pub(crate) fn labels_of(
    alloc: Global,
    lanes: Lanes,
    packets: &[Packet],
) -> Result<Vec<Vec<u8>>, AllocError> {
    let mut known = BTreeSet::new(alloc);
    let mut labels = Vec::new(alloc);
    for (place, packet) in packets.iter().enumerate() {
        let mut label = Vec::new(alloc);
        put_decimal(&mut label, place as u64 + 1)?;
        put_content(&mut label, alloc, &mut known, lanes, packet)?;
        labels.push(label)?;
    }
    Ok(labels)
}

/// Appends what a packet carries, and `again` where its sender sent such a one before.
fn put_content(
    label: &mut Vec<u8>,
    alloc: Global,
    known: &mut Known,
    lanes: Lanes,
    packet: &Packet,
) -> Result<(), AllocError> {
    let Ok(envelope) = Envelope::read(packet.bytes.as_slice()) else {
        return label.extend_from_slice(b": a packet");
    };
    let id = envelope.id();
    let is_answer = matches!(envelope.kind(), Kind::Answer);
    put_kind(label, is_answer, id)?;
    if is_answer {
        put_answer(label, alloc, envelope.payload())?;
    } else {
        put_request(label, envelope.payload())?;
    }
    let key = (lanes.of(packet.from), is_answer, id.pharmacy(), id.number());
    if known.insert(key)? {
        return Ok(());
    }
    label.extend_from_slice(b" again")
}

/// Appends the kind of a packet and its transaction.
fn put_kind(label: &mut Vec<u8>, is_answer: bool, id: TxnId) -> Result<(), AllocError> {
    if is_answer {
        label.extend_from_slice(b": answer ")?;
    } else {
        label.extend_from_slice(b": request ")?;
    }
    put_txn(label, id)
}

/// Appends the code of a request.
fn put_request(label: &mut Vec<u8>, request: &[u8]) -> Result<(), AllocError> {
    match RequestHeader::read(request) {
        Ok(header) => put_code(label, header.code()),
        Err(_) => Ok(()),
    }
}

/// Appends the code of an answer and its rulings.
fn put_answer(label: &mut Vec<u8>, alloc: Global, bytes: &[u8]) -> Result<(), AllocError> {
    match read_answer(alloc, bytes) {
        Ok(answer) => {
            put_code(label, answer.header().code())?;
            put_rulings(label, answer.rulings())
        }
        Err(AnswerFault::OutOfMemory) => Err(AllocError),
        Err(_) => Ok(()),
    }
}

/// Appends the rulings of an advice, or that it is no answer.
pub(crate) fn put_advice(
    label: &mut Vec<u8>,
    alloc: Global,
    bytes: &[u8],
) -> Result<(), AllocError> {
    label.extend_from_slice(b":")?;
    match read_advice(alloc, bytes) {
        Ok(answer) => put_rulings(label, answer.rulings()),
        Err(AnswerFault::OutOfMemory) => Err(AllocError),
        Err(_) => label.extend_from_slice(b" no answer"),
    }
}

fn put_code(label: &mut Vec<u8>, code: [u8; 2]) -> Result<(), AllocError> {
    label.extend_from_slice(b" ")?;
    label.extend_from_slice(&code)
}

/// Appends rulings, with commas between them.
fn put_rulings(label: &mut Vec<u8>, rulings: &[Ruling]) -> Result<(), AllocError> {
    for (place, ruling) in rulings.iter().enumerate() {
        if place > 0 {
            label.extend_from_slice(b",")?;
        }
        put_ruling(label, ruling)?;
    }
    Ok(())
}
