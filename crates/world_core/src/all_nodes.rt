//! All nodes, and a call on one of them.

ghost use Rattle.std.specs.Prelude.{◌≡◌, ◌≤◌, length, IfOk, OnErr};
ghost use Rattle.std.specs.Option.{option_copied};
ghost use Rattle.claim_model.specs.Numbered.{numbered};
ghost use Rattle.world_setup.specs.Seen.{node_seen, event_seen, lent_seen};
ghost use Rattle.world_core.specs.Calling.{IsReadableAt, NodeMakes, NodeRefuses};
ghost use Rattle.world_core.specs.Room.{room_asked, room_for};

use crate::nodes::{ask_node, most_due, node_of};
use bin_routes::Routes;
use node_state::{PayerNode, PharmacyNode, SwitchNode};
use octets::Octets;
use std::alloc::Global;
use std::marker::Model;
use world_setup::{Call, Event, Fault, Node, Sent};

/// All nodes, each kind numbered from 1.
#[derive(Drop)]
pub(crate) struct Nodes {
    pub(crate) pharmacies: Vec<PharmacyNode>,
    pub(crate) switches: Vec<SwitchNode>,
    pub(crate) payers: Vec<PayerNode>,
}

impl Model for Nodes {
    ghost use Rattle.world_core.specs.NodeLists.{NodeLists};

    ghost Value = { NodeLists };

    ghost view = { λ n. record {
      pharmacies = n.pharmacies.items;
      switches = n.switches.items;
      payers = n.payers.items;
    } };
}

impl Nodes {
    /// The pharmacy of a number.
    pub(crate) fn pharmacy(&self, number: u16) -> Option<&PharmacyNode>
        ensures { option_copied result ≡ numbered self.now.pharmacies number }
    {
        node_of(self.pharmacies.as_slice(), number)
    }

    /// The switch of a number.
    pub(crate) fn switch(&self, number: u16) -> Option<&SwitchNode>
        ensures { option_copied result ≡ numbered self.now.switches number }
    {
        node_of(self.switches.as_slice(), number)
    }

    /// The payer of a number.
    pub(crate) fn payer(&self, number: u16) -> Option<&PayerNode>
        ensures { option_copied result ≡ numbered self.now.payers number }
    {
        node_of(self.payers.as_slice(), number)
    }

    /// A node makes a call, and gives what it sent. A packet that it takes is readable.
    pub(crate) fn call(
        &mut self,
        alloc: Global,
        routes: &Routes,
        node: Node,
        call: Call<&Octets>,
    ) -> Result<Vec<Sent>, Fault>
        requires { IsReadableAt routes.now self.old (node_seen node) (lent_seen call) }
        ensures ok { NodeMakes routes.now self.old (node_seen node) (lent_seen call.entry) self.new result }
        ensures fault { NodeRefuses routes.now self.old (node_seen node) (lent_seen call.entry) result }
        ensures few { IfOk result
            (λ sent. length sent.items ≤ room_asked self.old (node_seen node) (lent_seen call.entry)) }
        ensures err { OnErr result (self.new ≡ self.old) }
    {
        match node {
            Node::Pharmacy(number) => ask_node(&mut self.pharmacies, alloc, routes, number, call),
            Node::Switch(number) => ask_node(&mut self.switches, alloc, routes, number, call),
            Node::Payer(number) => ask_node(&mut self.payers, alloc, routes, number, call),
        }
    }

    /// How many packets an event sends at most.
    pub(crate) fn room_for(&self, event: &Event) -> usize
        ensures { result ≡ room_for self.now (event_seen event.now) }
    {
        match event {
            Event::Tick { pharmacy } => most_due(self.pharmacies.as_slice(), *pharmacy),
            Event::Submit { .. }
            | Event::Deliver { .. }
            | Event::Stop(_)
            | Event::Start(_)
            | Event::Plan { .. }
            | Event::Terms { .. }
            | Event::Retry { .. }
            | Event::Cap { .. }
            | Event::Adjudicate { .. } => 1,
        }
    }
}
