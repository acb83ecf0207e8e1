//! A transaction of a pharmacy: open with its request, and settled by its answer.

use crate::arguments::id_first;
use crate::telling::{refused, tell_id};
use case_files::{Subject, Told};
use claim_profile::check_readable;
use envelope::TxnId;
use pharmacy_journal::{OpenTxn, SettledTxn};
use std::alloc::Global;

/// The transaction that the steps are taken on.
#[derive(Drop)]
pub(crate) struct Transactions {
    open: Option<OpenTxn>,
    settled: Option<SettledTxn>,
}

impl Subject for Transactions {
    fn tell(&mut self, told: &mut Told, alloc: Global, word: &str, argument: &[u8]) {
        match word {
            "open" => self.open(told, alloc, argument),
            "settle" => self.settle(told, alloc, argument),
            "tell" => self.tell_open(told),
            "packet" => self.packet(told, alloc),
            "tell-settled" => self.tell_settled(told),
            _ => told.refuse(),
        }
    }
}

impl Transactions {
    /// No transaction yet.
    pub(crate) fn new() -> Transactions {
        Transactions {
            open: None,
            settled: None,
        }
    }

    /// Opens a transaction with a readable request: `PHARMACY NUMBER TEXT`.
    fn open(&mut self, told: &mut Told, alloc: Global, argument: &[u8]) {
        self.open = match id_first(argument) {
            Some((id, text)) => opened(alloc, id, text),
            None => None,
        };
        match &self.open {
            Some(_) => told.word("ok"),
            None => told.refuse(),
        }
    }

    /// Settles the transaction by an answer.
    fn settle(&mut self, told: &mut Told, alloc: Global, answer: &[u8]) {
        match (self.open.take(), Vec::from_slice(alloc, answer)) {
            (Some(open), Ok(answer)) => *self = settled_by(told, open, answer),
            _ => told.refuse(),
        }
    }

    /// Tells the open transaction and its request.
    fn tell_open(&self, told: &mut Told) {
        match &self.open {
            Some(open) => {
                tell_id(told, open.id());
                told.bytes(open.request());
            }
            None => told.word("nothing"),
        }
    }

    /// Tells the packet of the open transaction byte by byte, and how long it is.
    fn packet(&self, told: &mut Told, alloc: Global) {
        match &self.open {
            Some(open) => match open.packet(alloc) {
                Ok(packet) => {
                    told.field("bytes", packet.len());
                    told.bytes(packet.as_slice());
                }
                Err(_) => told.refuse(),
            },
            None => told.refuse(),
        }
    }

    /// Tells the settled transaction, its request and its answer.
    fn tell_settled(&self, told: &mut Told) {
        match &self.settled {
            Some(settled) => {
                tell_id(told, settled.id());
                told.bytes(settled.request());
                told.word("=>");
                told.bytes(settled.answer());
            }
            None => told.word("nothing"),
        }
    }
}

/// The open transaction of a readable request.
fn opened(alloc: Global, id: TxnId, text: &[u8]) -> Option<OpenTxn> {
    match (check_readable(text), Vec::from_slice(alloc, text)) {
        (Some(_), Ok(request)) => Some(OpenTxn::new(id, request)),
        _ => None,
    }
}

/// Settles a transaction by an answer; where it stays open, tells why and the answer that is given back.
fn settled_by(told: &mut Told, open: OpenTxn, answer: Vec<u8>) -> Transactions {
    match open.settle(answer) {
        Ok(settled) => {
            told.word("ok");
            Transactions {
                open: None,
                settled: Some(settled),
            }
        }
        Err((open, answer, fault)) => {
            refused(told, fault);
            told.bytes(answer.as_slice());
            Transactions {
                open: Some(open),
                settled: None,
            }
        }
    }
}
