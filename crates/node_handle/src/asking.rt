//! What is asked most of a node: how many entries, slots or rows it has, and of one of them the request or the answer.

ghost use Rattle.std.specs.Prelude.{◌≡◌, ◌⊎◌, Some, IfOk};
ghost use Rattle.world_setup.specs.Seen.{node_seen};
ghost use Rattle.node_state.specs.Nodes.{held_of};
ghost use Rattle.node_logged.specs.Setting.{context_of};
ghost use Rattle.node_handle.specs.declared.refusal.Refusal.TheVariants.{OutOfMemory};
ghost use Rattle.node_handle.specs.Asked.{Gives, GivesAnswer, GivesRequest, Sizes, answer_for, is_pharmacy, lacking_in};

use crate::handle::NodeHandle;
use crate::hosted::Hosted;
use crate::reading::copy_out;
use crate::refusal::Refusal;
use envelope::TxnId;
use node_service::Service;
use octets::Octets;
use std::alloc::{AllocError, Global};
use world_setup::Node;

impl NodeHandle {
    /// How many entries a pharmacy's journal has, slots a switch's table, or rows a payer's book.
    ///
    /// # Errors
    /// `Closed` where there is no node, `Unsynced` where not all is on disk, or `OutOfMemory`. Then nothing changes.
    pub fn count(&mut self, alloc: Global, count: &mut u64) -> Result<(), Refusal>
        ensures kept { self.new.part.node ≡ self.old.part.node }
        ensures count { Sizes self.old.part.node result count.old count.new }
    {
        if !self.held {
            return Err(Refusal::Closed);
        }
        let node = self.take(alloc);
        let told = settled_size(alloc, &*node, count);
        self.put(node);
        told
    }

    /// Copies the request of a pharmacy's entry, numbered from 1.
    ///
    /// # Errors
    /// `NotFound` where the node has no such entry, `ShortBuffer`, `Closed`, `Unsynced` where not all is on disk, or
    /// `OutOfMemory`. Then the buffer is as it was.
    pub fn request(
        &mut self,
        alloc: Global,
        number: u64,
        buffer: &mut [u8],
        size: &mut usize,
    ) -> Result<(), Refusal>
        ensures kept { self.new.part.node ≡ self.old.part.node }
        ensures copied { GivesRequest number self.old.part.node result buffer.old buffer.new size.old size.new }
    {
        if !self.held {
            return Err(Refusal::Closed);
        }
        let node = self.take(alloc);
        let told = settled_request(alloc, &*node, number, buffer, size);
        self.put(node);
        told
    }

    /// Copies the answer that the node holds for an id: in its journal, for its own ids only, in its table or in its book.
    ///
    /// # Errors
    /// `Unanswered` where it is an open entry of the pharmacy, `NotFound` where there is nothing, `ShortBuffer`, `Closed`,
    /// `Unsynced` where not all is on disk, or `OutOfMemory`. Then the buffer is as it was.
    pub fn answer(
        &mut self,
        alloc: Global,
        pharmacy: u16,
        number: u64,
        buffer: &mut [u8],
        size: &mut usize,
    ) -> Result<(), Refusal>
        ensures kept { self.new.part.node ≡ self.old.part.node }
        ensures copied { GivesAnswer pharmacy number self.old.part.node result buffer.old buffer.new size.old size.new }
    {
        if !self.held {
            return Err(Refusal::Closed);
        }
        let node = self.take(alloc);
        let told = settled_answer(alloc, &*node, pharmacy, number, buffer, size);
        self.put(node);
        told
    }
}

/// Tells how many entries, slots or rows a node has, where all is on disk.
fn settled_size(alloc: Global, node: &Hosted, count: &mut u64) -> Result<(), Refusal>
    ensures { Sizes (Some node.now) result count.old count.new }
{
    match node.settled() {
        Ok(service) => match service.state().size(alloc) {
            Ok(size) => {
                *count = size as u64;
                Ok(())
            }
            Err(_) => Err(Refusal::OutOfMemory),
        },
        Err(why) => Err(why),
    }
}

/// Copies the request of an entry, where all is on disk.
fn settled_request(
    alloc: Global,
    node: &Hosted,
    number: u64,
    buffer: &mut [u8],
    size: &mut usize,
) -> Result<(), Refusal>
    ensures { GivesRequest number (Some node.now) result buffer.old buffer.new size.old size.new }
{
    match node.settled() {
        Ok(service) => match service.state().request(alloc, number) {
            Ok(Some(request)) => copy_out(request.as_slice(), buffer, size),
            Ok(None) => Err(Refusal::NotFound),
            Err(_) => Err(Refusal::OutOfMemory),
        },
        Err(why) => Err(why),
    }
}

/// Copies the answer for an id by its two numbers, where all is on disk.
fn settled_answer(
    alloc: Global,
    node: &Hosted,
    pharmacy: u16,
    number: u64,
    buffer: &mut [u8],
    size: &mut usize,
) -> Result<(), Refusal>
    ensures { GivesAnswer pharmacy number (Some node.now) result buffer.old buffer.new size.old size.new }
{
    match node.settled() {
        Ok(service) => match TxnId::new(pharmacy, number) {
            Some(id) => give_answer_for(alloc, service, id, buffer, size),
            None => Err(Refusal::NotFound),
        },
        Err(why) => Err(why),
    }
}

/// Copies the answer for an id.
fn give_answer_for(
    alloc: Global,
    node: &Service,
    id: TxnId,
    buffer: &mut [u8],
    size: &mut usize,
) -> Result<(), Refusal>
    ensures { Gives (Some (answer_for id node.now)) result buffer.old buffer.new size.old size.new }
{
    match held(alloc, node, id) {
        Ok(Some(answer)) => copy_out(answer.as_slice(), buffer, size),
        Ok(None) => Err(lacking(alloc, node, id)),
        Err(_) => Err(Refusal::OutOfMemory),
    }
}

/// The answer that a node holds for an id.
pub(crate) fn held(alloc: Global, node: &Service, id: TxnId) -> Result<Option<Octets>, AllocError>
    ensures { IfOk result (λ held. held ≡ held_of (context_of node.now.settings) node.now.state id) }
{
    node.state().held(alloc, id)
}

/// Why a node has no answer for an id.
pub(crate) fn lacking(alloc: Global, node: &Service, id: TxnId) -> Refusal
    ensures { (result ≡ OutOfMemory) ⊎ (result ≡ lacking_in id node.now) }
{
    if !is_pharmacy(node.own_name(), id.pharmacy()) {
        return Refusal::NotFound;
    }
    match node.state().request(alloc, id.number()) {
        Ok(Some(_)) => Refusal::Unanswered,
        Ok(None) => Refusal::NotFound,
        Err(_) => Refusal::OutOfMemory,
    }
}

/// Whether a name is that of the pharmacy of this number.
fn is_pharmacy(name: Node, number: u16) -> bool
    ensures { result ≡ is_pharmacy number (node_seen name) }
{
    match name {
        Node::Pharmacy(own) => own == number,
        Node::Switch(_) => false,
        Node::Payer(_) => false,
    }
}
