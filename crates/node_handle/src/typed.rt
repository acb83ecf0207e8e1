//! Calls with bytes of their own: a request, a packet. Each is the line that asks for it.

ghost use Rattle.std.specs.Prelude.{◌≡◌, ◌<◌, ◌^◌, ℕ, IfOk, List, Ok, Some};
ghost use Rattle.std.specs.List.{All};
ghost use Rattle.input_text.specs.Printing.{printed, unprinted};
ghost use Rattle.world_setup.specs.declared.node.Node.{Node};
ghost use Rattle.world_setup.specs.declared.call.Call.TheVariants.{Adjudicate, Submit, Take};
ghost use Rattle.schedule.specs.Nodes.{node_in};
ghost use Rattle.node_service.specs.Asking.{Calls, asked_of, plain_call_of};
ghost use Rattle.node_handle.specs.Calls.{Serves};
ghost use Rattle.node_handle.specs.Typed.{Adjudicates, Takes, adjudicate_line, submit_line, take_line};
ghost use Rattle.node_service.specs.Payments.{word_of};

use crate::handle::NodeHandle;
use crate::refusal::Refusal;
use input_text::put_printed;
use node_service::put_word;
use schedule::node_in;
use std::alloc::{AllocError, Global};

impl NodeHandle {
    /// Enters a request.
    ///
    /// # Errors
    /// `Closed` where there is no node. `OutOfMemory` closes the handle.
    pub fn submit(&mut self, alloc: Global, request: &[u8]) -> Result<(), Refusal>
        ensures { Serves self.old.part.node (submit_line request.now) result self.new.part.node }
    {
        match line_of_request(alloc, request) {
            Ok(line) => self.serve(alloc, line.as_slice()),
            Err(_) => self.give_up(alloc),
        }
    }

    /// Takes a packet that has come from the node of this name.
    ///
    /// # Errors
    /// `Name` where the name is no node's, `Closed` where there is no node. `OutOfMemory` closes the handle.
    pub fn receive(&mut self, alloc: Global, from: &[u8], packet: &[u8]) -> Result<(), Refusal>
        ensures { Takes self.old.part.node from.now packet.now result self.new.part.node }
    {
        if node_in(from).is_none() {
            return Err(Refusal::Name);
        }
        match line_of_packet(alloc, from, packet) {
            Ok(line) => self.serve(alloc, line.as_slice()),
            Err(_) => self.give_up(alloc),
        }
    }

    /// Takes a packet that has come from the node of this name, with an advice.
    ///
    /// # Errors
    /// `Name` where the name is no node's, `Closed` where there is no node. `OutOfMemory` closes the handle.
    pub fn adjudicate(
        &mut self,
        alloc: Global,
        from: &[u8],
        packet: &[u8],
        advice: &[u8],
    ) -> Result<(), Refusal>
        ensures { Adjudicates self.old.part.node from.now packet.now advice.now result self.new.part.node }
    {
        if node_in(from).is_none() {
            return Err(Refusal::Name);
        }
        match line_of_advice(alloc, from, packet, advice) {
            Ok(line) => self.serve(alloc, line.as_slice()),
            Err(_) => self.give_up(alloc),
        }
    }

    /// Closes the handle, since memory was refused.
    fn give_up(&mut self, alloc: Global) -> Result<(), Refusal>
        ensures { (line : List ℕ) → Serves self.old.part.node line result self.new.part.node }
    {
        if !self.held {
            return Err(Refusal::Closed);
        }
        self.close(alloc);
        Err(Refusal::OutOfMemory)
    }
}

/// The line that enters a request.
fn line_of_request(alloc: Global, request: &[u8]) -> Result<Vec<u8>, AllocError>
    ensures { IfOk result (λ line. line.items ≡ submit_line request.now) }
{
    let mut line = Vec::new(alloc);
    line.extend_from_slice(b"submit ")?;
    put_printed(&mut line, request)?;
    Ok(line)
}

/// The line that tells of a packet.
fn line_of_packet(alloc: Global, from: &[u8], packet: &[u8]) -> Result<Vec<u8>, AllocError>
    ensures { IfOk result (λ line. line.items ≡ take_line from.now packet.now) }
{
    let mut line = Vec::new(alloc);
    line.extend_from_slice(b"take ")?;
    line.extend_from_slice(from)?;
    line.extend_from_slice(b" ")?;
    put_printed(&mut line, packet)?;
    Ok(line)
}

/// The line that tells of a packet with an advice.
fn line_of_advice(
    alloc: Global,
    from: &[u8],
    packet: &[u8],
    advice: &[u8],
) -> Result<Vec<u8>, AllocError>
    ensures { IfOk result (λ line. line.items ≡ adjudicate_line from.now packet.now advice.now) }
{
    let mut line = Vec::new(alloc);
    line.extend_from_slice(b"adjudicate ")?;
    line.extend_from_slice(from)?;
    line.extend_from_slice(b" ")?;
    put_word(&mut line, advice)?;
    line.extend_from_slice(b" ")?;
    put_printed(&mut line, packet)?;
    Ok(line)
}

/// The line of a request asks for the submission of these very bytes: a printed text reads back, as input_text proves.
#[tactic(auto, using(crate::proofs::Lines::asks_request))]
pub fn requests_are_asked()
    ensures { (request : List ℕ)
        → unprinted (printed request) ≡ Ok request
        → asked_of (submit_line request) ≡ Some (Calls (plain_call_of (Submit request))) }
{}

/// The line of a packet asks to take these very bytes from this node.
#[tactic(auto, using(crate::proofs::Lines::asks_packet))]
pub fn packets_are_asked()
    ensures { (from : List ℕ) (node : Node) (packet : List ℕ) → node_in from ≡ Some node
        → unprinted (printed packet) ≡ Ok packet
        → asked_of (take_line from packet) ≡ Some (Calls (plain_call_of (Take node packet))) }
{}

/// The line of a packet with an advice asks to take these very bytes from this node with this very advice.
pub fn advices_are_asked()
    ensures { (from : List ℕ) (node : Node) (packet advice : List ℕ) → node_in from ≡ Some node
        → unprinted (printed packet) ≡ Ok packet
        → All (λ b. b < 2 ^ 8) advice
        → asked_of (adjudicate_line from packet advice) ≡ Some (Calls (plain_call_of (Adjudicate node packet advice))) }
{}
