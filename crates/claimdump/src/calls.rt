//! The call that an event is, with texts of its own.

ghost use Rattle.std.specs.Prelude.{◌≡◌, Some, None, map, option_map, IfOk};
ghost use Rattle.claim_model.specs.Numbered.{numbered};
ghost use Rattle.claim_model.specs.Nodes.{adjudicating, asked, taking};
ghost use Rattle.world_setup.specs.Seen.{event_seen, packet_seen};
ghost use Rattle.claimdump.specs.Calls.{asked_of, priced, ruled, submitted};

use octets::Octets;
use std::alloc::AllocError;
use world_setup::{Call, Event, Node, Packet};

/// The node that an event calls, and the call, where these packets were sent; none of a packet that was never sent.
pub(crate) fn call_of(packets: &[Packet], event: &Event) -> Result<Option<(Node, Call)>, AllocError>
    ensures { IfOk result (λ call. option_map asked_of call
        ≡ asked (map packet_seen packets.now) (event_seen event.now)) }
{
    match event {
        Event::Submit { pharmacy, text } => submitted(*pharmacy, text),
        Event::Tick { pharmacy } => Ok(Some((Node::Pharmacy(*pharmacy), Call::Tick))),
        Event::Deliver { packet } => delivered(packets, *packet),
        Event::Stop(node) => Ok(Some((*node, Call::Stop))),
        Event::Start(node) => Ok(Some((*node, Call::Start))),
        Event::Plan {
            payer,
            product,
            price,
        } => priced(*payer, product, *price),
        Event::Terms { payer, fee, copay } => {
            let (fee, copay) = (*fee, *copay);
            Ok(Some((Node::Payer(*payer), Call::Terms { fee, copay })))
        }
        Event::Retry {
            pharmacy,
            nodes,
            again,
            tries,
        } => ruled(*pharmacy, nodes, *again, *tries),
        Event::Cap { switch, entries } => {
            let entries = *entries;
            Ok(Some((Node::Switch(*switch), Call::Cap { entries })))
        }
        Event::Adjudicate { packet, advice } => adjudicated(packets, *packet, advice),
    }
}

/// A submission.
fn submitted(pharmacy: u16, text: &Octets) -> Result<Option<(Node, Call)>, AllocError>
    ensures { IfOk result (λ call. option_map asked_of call ≡ Some (submitted pharmacy text.now)) }
{
    let text = text.copy()?;
    Ok(Some((Node::Pharmacy(pharmacy), Call::Submit(text))))
}

/// A change of a price.
fn priced(
    payer: u16,
    product: &Octets,
    price: Option<u32>,
) -> Result<Option<(Node, Call)>, AllocError>
    ensures { IfOk result (λ call. option_map asked_of call ≡ Some (priced payer product.now price)) }
{
    let product = product.copy()?;
    Ok(Some((Node::Payer(payer), Call::Plan { product, price })))
}

/// Another rule of retries.
fn ruled(
    pharmacy: u16,
    nodes: &Octets,
    again: u32,
    tries: u32,
) -> Result<Option<(Node, Call)>, AllocError>
    ensures { IfOk result (λ call. option_map asked_of call ≡ Some (ruled pharmacy nodes.now again tries)) }
{
    let nodes = nodes.copy()?;
    let call = Call::Retry {
        nodes,
        again,
        tries,
    };
    Ok(Some((Node::Pharmacy(pharmacy), call)))
}

/// The taking of the packet of a number.
#[tactic(auto, using(claim_model::proofs::Lists::numbered_map, world_core::proofs::Calls::node_at, world_core::proofs::Calls::numbered_at))]
fn delivered(packets: &[Packet], number: u64) -> Result<Option<(Node, Call)>, AllocError>
    ensures { IfOk result (λ call. option_map asked_of call
        ≡ option_map taking (numbered (map packet_seen packets.now) number)) }
{
    if number == 0 || number > packets.len() as u64 {
        return Ok(None);
    }
    let packet = &packets[number as usize - 1];
    let bytes = packet.bytes.copy()?;
    let from = packet.from;
    Ok(Some((packet.to, Call::Take { from, bytes })))
}

/// The taking of the packet of a number, with an advice.
#[tactic(auto, using(claim_model::proofs::Lists::numbered_map, world_core::proofs::Calls::node_at, world_core::proofs::Calls::numbered_at))]
fn adjudicated(
    packets: &[Packet],
    number: u64,
    advice: &Octets,
) -> Result<Option<(Node, Call)>, AllocError>
    ensures { IfOk result (λ call. option_map asked_of call
        ≡ option_map (adjudicating advice.now) (numbered (map packet_seen packets.now) number)) }
{
    if number == 0 || number > packets.len() as u64 {
        return Ok(None);
    }
    let packet = &packets[number as usize - 1];
    let bytes = packet.bytes.copy()?;
    let advice = advice.copy()?;
    let from = packet.from;
    let call = Call::Adjudicate {
        from,
        bytes,
        advice,
    };
    Ok(Some((packet.to, call)))
}
