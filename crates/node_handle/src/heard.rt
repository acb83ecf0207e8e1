//! An answer that is told before it is on disk: one that a payer gave, who gives it again.

ghost use Rattle.std.specs.Prelude.{◌≡◌, Some};
ghost use Rattle.node_handle.specs.Asked.{Gives, answer_for};
ghost use Rattle.node_handle.specs.Heard.{GivesHeard, heard_in, heard_routed, of_payer};

use crate::asking::{held, lacking};
use crate::handle::NodeHandle;
use crate::reading::copy_out;
use crate::refusal::Refusal;
use envelope::TxnId;
use node_service::Service;
use request_route::{is_rejected, is_routed};
use std::alloc::Global;

impl NodeHandle {
    /// Copies the answer of a pharmacy's entry that a payer gave, whether or not the records of it are on disk: where they are
    /// lost the payer gives the same bytes again, and no other answer is ever held (`told_answers_are_final` of crash_safety). So
    /// nobody who waits for it has to wait for the disk. An answer to a request without a route, or with the status R (501-F1), is a
    /// switch's, and is told once it is on disk.
    ///
    /// # Errors
    /// `Unsynced` where the request has no route or the answer is a rejection, `Unanswered` where the entry is open, `NotFound` where the node has no such
    /// entry, `ShortBuffer`, `Closed`, or `OutOfMemory`. Then the buffer is as it was.
    pub fn heard(
        &mut self,
        alloc: Global,
        pharmacy: u16,
        number: u64,
        buffer: &mut [u8],
        size: &mut usize,
    ) -> Result<(), Refusal>
        ensures kept { self.new.part.node ≡ self.old.part.node }
        ensures copied { GivesHeard pharmacy number self.old.part.node result buffer.old buffer.new size.old size.new }
    {
        if !self.held {
            return Err(Refusal::Closed);
        }
        let node = self.take(alloc);
        let told = give_heard(alloc, node.unsettled(), pharmacy, number, buffer, size);
        self.put(node);
        told
    }
}

/// Copies such an answer of a node.
fn give_heard(
    alloc: Global,
    node: &Service,
    pharmacy: u16,
    number: u64,
    buffer: &mut [u8],
    size: &mut usize,
) -> Result<(), Refusal>
    ensures { Gives (Some (heard_in pharmacy number node.now)) result buffer.old buffer.new size.old size.new }
{
    match node.state().request(alloc, number) {
        Ok(Some(request)) => match TxnId::new(pharmacy, number) {
            Some(id) => give_routed(alloc, node, id, request.as_slice(), buffer, size),
            None => Err(Refusal::NotFound),
        },
        Ok(None) => Err(Refusal::NotFound),
        Err(_) => Err(Refusal::OutOfMemory),
    }
}

/// Copies the answer for an id whose request this is, where that has a route.
fn give_routed(
    alloc: Global,
    node: &Service,
    id: TxnId,
    request: &[u8],
    buffer: &mut [u8],
    size: &mut usize,
) -> Result<(), Refusal>
    ensures { Gives (Some (heard_routed node.now id request.now)) result buffer.old buffer.new size.old size.new }
{
    if is_routed(node.settings().routes(), id, request) {
        give_of_payer(alloc, node, id, buffer, size)
    } else {
        Err(Refusal::Unsynced)
    }
}

/// Copies the answer for an id, where it is a payer's.
fn give_of_payer(
    alloc: Global,
    node: &Service,
    id: TxnId,
    buffer: &mut [u8],
    size: &mut usize,
) -> Result<(), Refusal>
    ensures { Gives (Some (of_payer (answer_for id node.now))) result buffer.old buffer.new size.old size.new }
{
    match held(alloc, node, id) {
        Ok(Some(answer)) => {
            if is_rejected(answer.as_slice()) {
                return Err(Refusal::Unsynced);
            }
            copy_out(answer.as_slice(), buffer, size)
        }
        Ok(None) => Err(lacking(alloc, node, id)),
        Err(_) => Err(Refusal::OutOfMemory),
    }
}
