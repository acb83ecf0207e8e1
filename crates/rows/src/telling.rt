//! Words of an outcome.

use case_files::Told;
use envelope::{Envelope, Kind, TxnId};
use std::alloc::AllocError;
use std::fmt::Debug;
use world_setup::Fault;

/// Tells a part by its name and its bytes.
pub(crate) fn part(told: &mut Told, name: &str, bytes: &[u8]) {
    told.word(name);
    told.bytes(bytes);
}

/// Tells a refusal by its name.
pub(crate) fn refused<F: Debug + Drop>(told: &mut Told, fault: F) {
    told.word("refused");
    told.named(fault);
}

/// Tells why a node refused a call, by the name that programs print.
pub(crate) fn tell_refused(told: &mut Told, fault: Fault) {
    told.word("refused");
    told.word(fault.name());
}

/// Tells whether a call was done, and why not.
pub(crate) fn done<F: Debug + Drop>(told: &mut Told, outcome: Result<(), F>) {
    match outcome {
        Ok(()) => told.word("ok"),
        Err(fault) => refused(told, fault),
    }
}

/// Tells bytes, or that there are none to tell.
pub(crate) fn tell_found(told: &mut Told, found: Option<&[u8]>) {
    match found {
        Some(bytes) => told.bytes(bytes),
        None => told.word("nothing"),
    }
}

/// Tells a text that was written.
pub(crate) fn tell_text(told: &mut Told, text: Result<Vec<u8>, AllocError>) {
    match text {
        Ok(text) => told.bytes(text.as_slice()),
        Err(_) => told.refuse(),
    }
}

/// Tells a transaction as the pharmacy and the number that it has there.
pub(crate) fn tell_id(told: &mut Told, id: TxnId) {
    told.field("pharmacy", id.pharmacy());
    told.field("number", id.number());
}

/// Tells what an envelope is: its kind, its transaction as people write it, and its payload.
pub(crate) fn tell_envelope(told: &mut Told, bytes: &[u8]) {
    match Envelope::read(bytes) {
        Ok(envelope) => {
            told.named(envelope.kind());
            told.shown(envelope.id());
            told.bytes(envelope.payload());
        }
        Err(fault) => told.named(fault),
    }
}

/// Tells the kind, the transaction and the payload of a packet, in the words of steps.
pub(crate) fn tell_packet(told: &mut Told, packet: &[u8]) {
    match Envelope::read(packet) {
        Ok(envelope) => {
            told.word(match envelope.kind() {
                Kind::Request => "request",
                Kind::Answer => "answer",
            });
            tell_id(told, envelope.id());
            told.bytes(envelope.payload());
        }
        Err(fault) => told.named(fault),
    }
}
