//! One node of any kind.

ghost use Rattle.std.specs.Prelude.{◌≡◌, IfOk, OnErr};
ghost use Rattle.bin_routes.specs.Table.{RouteMaps};
ghost use Rattle.claim_model.specs.Bytes.{bytes_with};
ghost use Rattle.world_setup.specs.Seen.{call_seen};
ghost use Rattle.node_state.specs.Any.{any_seen};
ghost use Rattle.node_state.specs.Outcomes.{Makes, Refuses};
ghost use Rattle.node_state.specs.Nodes.{OfPharmacy, OfSwitch, OfPayer, node_step, entries_of, size_of, is_idle_node, journal_of, book_of, request_of, held_of, switch_cap};

use crate::book_reading::BookReading;
use crate::held::copied;
use crate::journal_reading::JournalReading;
use crate::payer::PayerNode;
use crate::pharmacy::PharmacyNode;
use crate::switch::SwitchNode;
use bin_routes::Routes;
use envelope::TxnId;
use octets::Octets;
use pharmacy_journal::JournalAtRest;
use std::alloc::{AllocError, Global};
use std::marker::Model;
use world_setup::{Call, Fault, Sent};

/// The kinds of nodes.
#[derive(Drop)]
pub enum StateKind {
    /// A pharmacy.
    Pharmacy(PharmacyNode),
    /// A switch.
    Switch(SwitchNode),
    /// A payer.
    Payer(PayerNode),
}

/// One node, up or at rest.
#[derive(Drop)]
pub struct NodeState {
    pub(crate) kind: StateKind,
}

impl Model for NodeState {
    ghost use Rattle.node_state.specs.Nodes.{AnyNode};

    ghost Value = { AnyNode };

    ghost use Rattle.node_state.specs.Any.{any_seen};

    ghost view = { λ n. any_seen n.kind };
}

impl NodeState {
    /// A pharmacy.
    pub fn pharmacy(node: PharmacyNode) -> NodeState
        ensures { result ≡ OfPharmacy node }
    {
        NodeState {
            kind: StateKind::Pharmacy(node),
        }
    }

    /// A switch.
    pub fn switch(node: SwitchNode) -> NodeState
        ensures { result ≡ OfSwitch node }
    {
        NodeState {
            kind: StateKind::Switch(node),
        }
    }

    /// A payer.
    pub fn payer(node: PayerNode) -> NodeState
        ensures { result ≡ OfPayer node }
    {
        NodeState {
            kind: StateKind::Payer(node),
        }
    }

    /// The node, by its kind.
    pub fn into_kind(self) -> StateKind
        ensures { any_seen result ≡ self }
    {
        self.kind
    }

    /// Makes a call, and gives what it sent.
    ///
    /// # Errors
    /// `NoSuchNode` for a call that is made for another kind of node; then `Down` or `AlreadyUp`; then the refusal of
    /// the node. The node is then as it was.
    pub fn step(&mut self, alloc: Global, routes: &Routes, call: &Call) -> Result<Vec<Sent>, Fault>
        ensures ok { Makes (node_step (bytes_with routes.now) self.old (call_seen call.now)) self.new result }
        ensures fault { Refuses (node_step (bytes_with routes.now) self.old (call_seen call.now)) result }
        ensures err { OnErr result (self.new ≡ self.old) }
    {
        let call = call.lent();
        match &mut self.kind {
            StateKind::Pharmacy(node) => node.step(alloc, routes, call),
            StateKind::Switch(node) => node.step(alloc, routes, call),
            StateKind::Payer(node) => node.step(alloc, routes, call),
        }
    }

    /// Whether the node is a pharmacy that is up and has no open entry: then a tick leaves it as it is and sends nothing.
    pub fn is_idle(&self) -> bool
        ensures { result ≡ is_idle_node self.now }
    {
        match &self.kind {
            StateKind::Pharmacy(node) => node.is_idle(),
            StateKind::Switch(_) => false,
            StateKind::Payer(_) => false,
        }
    }

    /// A pharmacy's journal, where the node is no longer needed: as it stands, or at rest read from the record. Another node
    /// has none.
    pub fn into_journal(self, alloc: Global) -> Result<Option<JournalAtRest>, AllocError>
        ensures { IfOk result (λ journal. journal ≡ journal_of self) }
    {
        let NodeState { kind } = self;
        match kind {
            StateKind::Pharmacy(node) => Ok(Some(node.into_journal(alloc)?)),
            StateKind::Switch(_) => Ok(None),
            StateKind::Payer(_) => Ok(None),
        }
    }

    /// How many entries a pharmacy's journal has; 0 of another node. At rest the record is read.
    pub fn entries(&self, alloc: Global) -> Result<usize, AllocError>
        ensures { IfOk result (λ count. count ≡ entries_of self.now) }
    {
        match &self.kind {
            StateKind::Pharmacy(node) => Ok(node.journal(alloc)?.entries()),
            StateKind::Switch(_) => Ok(0),
            StateKind::Payer(_) => Ok(0),
        }
    }

    /// The most slots of a switch's table, up or at rest; none of another node.
    pub fn switch_cap(&self) -> Option<u32>
        ensures { result ≡ switch_cap self.now }
    {
        match &self.kind {
            StateKind::Pharmacy(_) => None,
            StateKind::Switch(node) => Some(node.cap()),
            StateKind::Payer(_) => None,
        }
    }

    /// How many entries a pharmacy's journal has, slots a switch's table, or rows a payer's book. At rest the record is
    /// read; a stopped switch has none.
    pub fn size(&self, alloc: Global) -> Result<usize, AllocError>
        ensures { IfOk result (λ count. count ≡ size_of self.now) }
    {
        match &self.kind {
            StateKind::Pharmacy(node) => Ok(node.journal(alloc)?.entries()),
            StateKind::Switch(node) => Ok(node.slots()),
            StateKind::Payer(node) => {
                let reading = node.book(alloc)?;
                Ok(reading.book().rows().len())
            }
        }
    }

    /// A pharmacy's journal to be read: as it stands, or at rest read once from the record. Another node has none.
    pub fn journal(&self, alloc: Global) -> Result<Option<JournalReading<'_>>, AllocError>
        ensures { IfOk result (λ journal. journal ≡ journal_of self.now) }
    {
        match &self.kind {
            StateKind::Pharmacy(node) => Ok(Some(node.journal(alloc)?)),
            StateKind::Switch(_) => Ok(None),
            StateKind::Payer(_) => Ok(None),
        }
    }

    /// A payer's book to be read: as it stands, or at rest read once from the record. Another node has none.
    pub fn book(&self, alloc: Global) -> Result<Option<BookReading<'_>>, AllocError>
        ensures { IfOk result (λ book. book ≡ book_of self.now) }
    {
        match &self.kind {
            StateKind::Pharmacy(_) => Ok(None),
            StateKind::Switch(_) => Ok(None),
            StateKind::Payer(node) => Ok(Some(node.book(alloc)?)),
        }
    }

    /// A copy of the request of a pharmacy's entry, numbered from 1; none of another node. At rest the record is read.
    pub fn request(&self, alloc: Global, number: u64) -> Result<Option<Octets>, AllocError>
        ensures { IfOk result (λ request. request ≡ request_of self.now number) }
    {
        match &self.kind {
            StateKind::Pharmacy(node) => node.request(alloc, number),
            StateKind::Switch(_) => Ok(None),
            StateKind::Payer(_) => Ok(None),
        }
    }

    /// A copy of the answer that the node holds for an id: in its journal, for its own ids only, in its table or in its
    /// book. At rest the record is read; a stopped switch holds none.
    pub fn held(&self, alloc: Global, id: TxnId) -> Result<Option<Octets>, AllocError>
        ensures { (routes : RouteMaps) → IfOk result (λ held. held ≡ held_of (bytes_with routes) self.now id) }
    {
        match &self.kind {
            StateKind::Pharmacy(node) => node.held(alloc, id),
            StateKind::Switch(node) => copied(alloc, node.held(id)),
            StateKind::Payer(node) => node.held(alloc, id),
        }
    }
}
