//! Pharmacies and payers, while their calls are made.

ghost use Rattle.std.specs.Prelude.{◌≡◌, ◌<◌, ◌⊎◌, suc, IfOk, IfNone, IfSome};
ghost use Rattle.std.specs.Option.{option_copied};
ghost use Rattle.claim_model.specs.Bytes.{bytes_with};
ghost use Rattle.claim_model.specs.Numbered.{numbered};
ghost use Rattle.world_setup.specs.Seen.{node_seen, call_seen, lent_seen};
ghost use Rattle.node_state.specs.Outcomes.{Makes, Refuses};
ghost use Rattle.world_core.specs.Calling.{called};
ghost use Rattle.days_audit.specs.Calls.{NodeMakes, NodeRefuses, TellsMade};

use bin_routes::Routes;
use node_log::{Record, is_same_sent};
use node_state::{Kind, PayerNode, PharmacyNode, Powered};
use octets::Octets;
use std::alloc::{AllocError, Global};
use std::marker::Model;
use world_setup::{Call, Fault, Node, Refusal, Sent};

/// All pharmacies and payers, each kind numbered from 1.
#[derive(Drop)]
pub(crate) struct Live {
    pub(crate) pharmacies: Vec<PharmacyNode>,
    pub(crate) payers: Vec<PayerNode>,
}

impl Model for Live {
    ghost use Rattle.vouched_runs.specs.Parties.{Parties};

    ghost Value = { Parties };

    ghost view = { λ l. record { pharmacies = l.pharmacies.items; payers = l.payers.items } };
}

impl Live {
    /// The pharmacy of a number.
    pub(crate) fn pharmacy(&self, number: u16) -> Option<&PharmacyNode>
        ensures { option_copied result ≡ numbered self.now.pharmacies number }
    {
        node_of(self.pharmacies.as_slice(), number)
    }

    /// The payer of a number.
    pub(crate) fn payer(&self, number: u16) -> Option<&PayerNode>
        ensures { option_copied result ≡ numbered self.now.payers number }
    {
        node_of(self.payers.as_slice(), number)
    }

    /// Whether a node accepts the call of a record, and sends what the record has. Where it does not, the nodes may have changed.
    pub(crate) fn makes(
        &mut self,
        alloc: Global,
        routes: &Routes,
        node: Node,
        one: &Record,
    ) -> Result<bool, AllocError>
        ensures { IfOk result (λ yes. TellsMade yes (bytes_with routes.now) self.old (node_seen node) one.now self.new) }
    {
        match self.call(alloc, routes, node, one.call()) {
            Ok(sent) => Ok(is_same_sent(sent.as_slice(), one.sent())),
            Err(Fault::OutOfMemory) => Err(AllocError),
            Err(_) => Ok(false),
        }
    }

    /// A node makes a call, and gives what it sent.
    fn call(
        &mut self,
        alloc: Global,
        routes: &Routes,
        node: Node,
        call: &Call,
    ) -> Result<Vec<Sent>, Fault>
        ensures ok { NodeMakes (bytes_with routes.now) self.old (node_seen node) (call_seen call.now) self.new result }
        ensures fault { NodeRefuses (bytes_with routes.now) self.old (node_seen node) (call_seen call.now) result }
    {
        let call = call.lent();
        match node {
            Node::Pharmacy(number) => ask_node(&mut self.pharmacies, alloc, routes, number, call),
            Node::Switch(_) => Err(Fault::Refused(Refusal::NoSuchNode)),
            Node::Payer(number) => ask_node(&mut self.payers, alloc, routes, number, call),
        }
    }
}

/// The node of a number.
fn node_of<N>(nodes: &[N], number: u16) -> Option<&N>
    ensures { option_copied result ≡ numbered nodes.now number }
{
    if number == 0 {
        return None;
    }
    nodes.get(number as usize - 1)
}

/// The node of a number makes a call.
#[tactic(auto, using(world_core::proofs::Calls::called_nobody))]
fn ask_node<K: Kind>(
    nodes: &mut Vec<Powered<K>>,
    alloc: Global,
    routes: &Routes,
    number: u16,
    call: Call<&Octets>,
) -> Result<Vec<Sent>, Fault>
    ensures ok { Makes (called
        (λ node. K.step routes.now node (lent_seen call.entry)) nodes.old.items number) nodes.new.items result }
    ensures fault { Refuses (called
        (λ node. K.step routes.now node (lent_seen call.entry)) nodes.old.items number) result }
{
    match place_of(number, nodes.len()) {
        Some(place) => nodes[place].step(alloc, routes, call),
        None => Err(Fault::Refused(Refusal::NoSuchNode)),
    }
}

/// The place, from 0, of the node of a number, where there are this many nodes.
fn place_of(number: u16, count: usize) -> Option<usize>
    ensures place { IfSome result (λ place. (number ≡ suc place) × (place < count)) }
    ensures nobody { IfNone result ((number ≡ 0) ⊎ (count < number)) }
{
    if number == 0 || number as usize > count {
        return None;
    }
    Some(number as usize - 1)
}
