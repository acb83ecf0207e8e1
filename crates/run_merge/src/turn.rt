//! Which event makes a call.

ghost use Rattle.std.specs.Prelude.{IfOk};
ghost use Rattle.claim_model.specs.Node.{Submit, Tick, Take, Stop, Start, Revise, OfPlan, OfRule, OfCap, Adjudicate};
ghost use Rattle.claim_model.specs.Words.{SetPrice, SetTerms};
ghost use Rattle.pharmacy_journal.specs.Ruling.{rule_in};
ghost use Rattle.switch_node.specs.Settings.{nearest};
ghost use Rattle.world_setup.specs.Seen.{node_seen, call_seen};
ghost use Rattle.run_merge.specs.Found.{EventFor};

use crate::posted::Posted;
use octets::Octets;
use std::alloc::AllocError;
use world_setup::{Call, Event, Node};

/// The event that makes a call on a node, where these packets were sent; none where a packet is wanted that was not,
/// or no event makes such a call on such a node.
pub(crate) fn event_for<'a>(
    posted: &Posted<'a>,
    node: Node,
    call: &'a Call,
) -> Result<Option<Event>, AllocError>
    ensures { IfOk result (λ o. EventFor posted.now (node_seen node) (call_seen call.now) o) }
{
    match call {
        Call::Submit(text) => submit(posted, node, text),
        Call::Tick => Ok(tick(posted, node)),
        Call::Take { from, bytes } => Ok(deliver(posted, node, *from, bytes)),
        Call::Stop => Ok(Some(Event::Stop(node))),
        Call::Start => Ok(Some(Event::Start(node))),
        Call::Plan { product, price } => plan(posted, node, product, *price),
        Call::Terms { fee, copay } => Ok(terms(posted, node, *fee, *copay)),
        Call::Retry {
            nodes,
            again,
            tries,
        } => retry(posted, node, nodes, *again, *tries),
        Call::Cap { entries } => Ok(cap(posted, node, *entries)),
        Call::Adjudicate {
            from,
            bytes,
            advice,
        } => adjudicate(posted, node, *from, bytes, advice),
    }
}

/// A submission, at a pharmacy.
fn submit(posted: &Posted<'_>, node: Node, text: &Octets) -> Result<Option<Event>, AllocError>
    ensures { IfOk result (λ o. EventFor posted.now (node_seen node) (Submit text.now) o) }
{
    match node {
        Node::Pharmacy(pharmacy) => Ok(Some(Event::Submit {
            pharmacy,
            text: text.copy()?,
        })),
        Node::Switch(_) => Ok(None),
        Node::Payer(_) => Ok(None),
    }
}

/// A tick, at a pharmacy.
fn tick(posted: &Posted<'_>, node: Node) -> Option<Event>
    ensures { EventFor posted.now (node_seen node) Tick result }
{
    match node {
        Node::Pharmacy(pharmacy) => Some(Event::Tick { pharmacy }),
        Node::Switch(_) => None,
        Node::Payer(_) => None,
    }
}

/// A delivery, of a packet that was sent.
fn deliver<'a>(posted: &Posted<'a>, node: Node, from: Node, bytes: &'a Octets) -> Option<Event>
    ensures { EventFor posted.now (node_seen node) (Take (node_seen from) bytes.now) result }
{
    match posted.find(from, node, bytes) {
        Some(packet) => Some(Event::Deliver { packet }),
        None => None,
    }
}

/// A delivery with an advice, of a packet that was sent.
fn adjudicate<'a>(
    posted: &Posted<'a>,
    node: Node,
    from: Node,
    bytes: &'a Octets,
    advice: &Octets,
) -> Result<Option<Event>, AllocError>
    ensures { IfOk result (λ o. EventFor posted.now (node_seen node) (Adjudicate (node_seen from) bytes.now advice.now) o) }
{
    match posted.find(from, node, bytes) {
        Some(packet) => {
            let advice = advice.copy()?;
            Ok(Some(Event::Adjudicate { packet, advice }))
        }
        None => Ok(None),
    }
}

/// A change of a price, at a payer.
fn plan(
    posted: &Posted<'_>,
    node: Node,
    product: &Octets,
    price: Option<u32>,
) -> Result<Option<Event>, AllocError>
    ensures { IfOk result (λ o. EventFor posted.now (node_seen node) (Revise (OfPlan (SetPrice product.now price))) o) }
{
    match node {
        Node::Payer(payer) => Ok(Some(Event::Plan {
            payer,
            product: product.copy()?,
            price,
        })),
        Node::Pharmacy(_) => Ok(None),
        Node::Switch(_) => Ok(None),
    }
}

/// A change of the terms of a plan, at a payer.
fn terms(posted: &Posted<'_>, node: Node, fee: u32, copay: u32) -> Option<Event>
    ensures { EventFor posted.now (node_seen node) (Revise (OfPlan (SetTerms fee copay))) result }
{
    match node {
        Node::Payer(payer) => Some(Event::Terms { payer, fee, copay }),
        Node::Pharmacy(_) => None,
        Node::Switch(_) => None,
    }
}

/// Another rule of retries, at a pharmacy.
fn retry(
    posted: &Posted<'_>,
    node: Node,
    nodes: &Octets,
    again: u32,
    tries: u32,
) -> Result<Option<Event>, AllocError>
    ensures { IfOk result
        (λ o. EventFor posted.now (node_seen node) (Revise (OfRule (rule_in nodes.now again tries))) o) }
{
    match node {
        Node::Pharmacy(pharmacy) => Ok(Some(Event::Retry {
            pharmacy,
            nodes: nodes.copy()?,
            again,
            tries,
        })),
        Node::Switch(_) => Ok(None),
        Node::Payer(_) => Ok(None),
    }
}

/// Another cap, at a switch.
fn cap(posted: &Posted<'_>, node: Node, entries: u32) -> Option<Event>
    ensures { EventFor posted.now (node_seen node) (Revise (OfCap (nearest entries))) result }
{
    match node {
        Node::Switch(switch) => Some(Event::Cap { switch, entries }),
        Node::Pharmacy(_) => None,
        Node::Payer(_) => None,
    }
}
