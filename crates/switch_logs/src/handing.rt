//! What a switch was handed, by what a node took from it.

use crate::known::{Known, id_of};
use envelope::TxnId;
use node_log::is_same_node;
use node_state::{NodeState, SwitchNode};
use octets::Octets;
use std::alloc::{AllocError, Global};
use world_setup::{Call, CheckedSettings, Fault, Node, Sent};

/// The packets that a switch which has just started takes, and of which it sends this packet to this node: a request that its
/// pharmacy sent to the switch, for a payer; that and the payer's answer, or a request that the switch answers by itself, for a
/// pharmacy. None where no such packets were sent so far.
pub(crate) fn handed<'a>(
    alloc: Global,
    settings: &CheckedSettings,
    known: &Known<'a>,
    switch: Node,
    node: Node,
    bytes: &'a Octets,
) -> Result<Option<Vec<Call>>, AllocError> {
    let Some(id) = id_of(bytes) else {
        return Ok(None);
    };
    match node {
        Node::Payer(_) => handed_request(alloc, known, switch, id, bytes),
        Node::Pharmacy(_) => handed_answer(alloc, settings, known, switch, id, bytes),
        Node::Switch(_) => Ok(None),
    }
}

/// A request that its pharmacy sent to the switch.
fn handed_request<'a>(
    alloc: Global,
    known: &Known<'a>,
    switch: Node,
    id: TxnId,
    bytes: &'a Octets,
) -> Result<Option<Vec<Call>>, AllocError> {
    let asker = Node::Pharmacy(id.pharmacy());
    if known.was_sent(asker, switch, bytes) {
        Ok(Some(taken(alloc, asker, bytes)?))
    } else {
        Ok(None)
    }
}

/// The request of a transaction, and its answer where a payer sent that to the switch; the request alone where the switch answers
/// it so.
fn handed_answer<'a>(
    alloc: Global,
    settings: &CheckedSettings,
    known: &Known<'a>,
    switch: Node,
    id: TxnId,
    bytes: &'a Octets,
) -> Result<Option<Vec<Call>>, AllocError> {
    let asker = Node::Pharmacy(id.pharmacy());
    let Some(request) = known.request(id) else {
        return Ok(None);
    };
    if !known.was_sent(asker, switch, request) {
        return Ok(None);
    }
    if let Some(payer) = known.payer(id) {
        if known.was_sent(payer, switch, bytes) {
            let mut calls = taken(alloc, asker, request)?;
            calls.push(take(payer, bytes)?)?;
            return Ok(Some(calls));
        }
    }
    let sent = sent_for(alloc, settings, switch, &take(asker, request)?)?;
    if is_one(sent.as_slice(), asker, bytes) {
        Ok(Some(taken(alloc, asker, request)?))
    } else {
        Ok(None)
    }
}

/// What a switch that has just started sends when it takes a packet; nothing where it refuses it, or is none of the settings.
fn sent_for(
    alloc: Global,
    settings: &CheckedSettings,
    switch: Node,
    packet: &Call,
) -> Result<Vec<Sent>, AllocError> {
    let Node::Switch(number) = switch else {
        return Ok(Vec::new(alloc));
    };
    let place = number as usize;
    if place == 0 {
        return Ok(Vec::new(alloc));
    }
    let Some(cap) = settings.settings().switches.get(place - 1) else {
        return Ok(Vec::new(alloc));
    };
    let mut state = NodeState::switch(SwitchNode::new(alloc, *cap));
    match state.step(alloc, settings.routes(), packet) {
        Ok(sent) => Ok(sent),
        Err(Fault::OutOfMemory) => Err(AllocError),
        Err(_) => Ok(Vec::new(alloc)),
    }
}

/// Whether this packet to this node, and no other, was sent.
fn is_one(sent: &[Sent], to: Node, bytes: &Octets) -> bool {
    match sent {
        [one] => is_same_node(one.to, to) && one.bytes == *bytes,
        _ => false,
    }
}

/// That a packet is taken, as the first of some calls.
fn taken(alloc: Global, from: Node, bytes: &Octets) -> Result<Vec<Call>, AllocError> {
    let mut calls = Vec::new(alloc);
    calls.push(take(from, bytes)?)?;
    Ok(calls)
}

/// That a packet is taken.
fn take(from: Node, bytes: &Octets) -> Result<Call, AllocError> {
    Ok(Call::Take {
        from,
        bytes: bytes.copy()?,
    })
}
