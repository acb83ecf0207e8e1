//! What pharmacies and payers have sent so far.

use envelope::{Envelope, TxnId};
use octets::Octets;
use run_merge::Posted;
use std::alloc::{AllocError, Global};
use std::collections::HashMap;
use world_setup::{Node, Sent};

/// The packets that were sent; of each transaction its request, and the payer that answered it.
#[derive(Drop)]
pub(crate) struct Known<'a> {
    posted: Posted<'a>,
    requests: HashMap<TxnId, &'a Octets>,
    payers: HashMap<TxnId, u16>,
}

impl<'a> Known<'a> {
    /// Nothing was sent yet.
    pub(crate) fn new(alloc: Global) -> Known<'a> {
        Known {
            posted: Posted::new(alloc),
            requests: HashMap::new(alloc),
            payers: HashMap::new(alloc),
        }
    }

    /// Notes what a node sent.
    pub(crate) fn note(&mut self, from: Node, sent: &'a [Sent]) -> Result<(), AllocError> {
        self.posted.post(from, sent)?;
        for one in sent {
            if let Some(id) = id_of(&one.bytes) {
                self.note_one(from, id, &one.bytes)?;
            }
        }
        Ok(())
    }

    /// Notes a packet of a transaction.
    fn note_one(&mut self, from: Node, id: TxnId, bytes: &'a Octets) -> Result<(), AllocError> {
        match from {
            Node::Pharmacy(_) => self.note_request(id, bytes),
            Node::Payer(payer) => self.note_payer(id, payer),
            Node::Switch(_) => Ok(()),
        }
    }

    /// Notes the request of a transaction.
    fn note_request(&mut self, id: TxnId, bytes: &'a Octets) -> Result<(), AllocError> {
        match self.requests.insert(id, bytes) {
            Ok(_) => Ok(()),
            Err(_) => Err(AllocError),
        }
    }

    /// Notes the payer that answered a transaction.
    fn note_payer(&mut self, id: TxnId, payer: u16) -> Result<(), AllocError> {
        match self.payers.insert(id, payer) {
            Ok(_) => Ok(()),
            Err(_) => Err(AllocError),
        }
    }

    /// Whether this packet was sent.
    pub(crate) fn was_sent(&self, from: Node, to: Node, bytes: &'a Octets) -> bool {
        self.posted.find(from, to, bytes).is_some()
    }

    /// The request of a transaction, in its envelope.
    pub(crate) fn request(&self, id: TxnId) -> Option<&'a Octets> {
        match self.requests.get(&id) {
            Some(bytes) => Some(*bytes),
            None => None,
        }
    }

    /// The payer that answered a transaction.
    pub(crate) fn payer(&self, id: TxnId) -> Option<Node> {
        match self.payers.get(&id) {
            Some(payer) => Some(Node::Payer(*payer)),
            None => None,
        }
    }
}

/// The transaction of a packet; none where it is no envelope.
pub(crate) fn id_of(packet: &Octets) -> Option<TxnId> {
    match Envelope::read(packet.as_slice()) {
        Ok(envelope) => Some(envelope.id()),
        Err(_) => None,
    }
}
