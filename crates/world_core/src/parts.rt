//! All nodes and all packets, and what each event makes of them.

ghost use Rattle.std.specs.Prelude.{◌≡◌, ◌+◌, length, map, Some, OnOk, OnErr};
ghost use Rattle.claim_model.specs.Bytes.{bytes_with};
ghost use Rattle.claim_model.specs.World.{step};
ghost use Rattle.claim_model.specs.Promises.{DeliveriesMeet};
ghost use Rattle.world_setup.specs.Seen.{packet_seen, event_seen};
ghost use Rattle.node_state.specs.Outcomes.{Refuses};
ghost use Rattle.world_core.specs.Stepping.{next_of};

use crate::all_nodes::Nodes;
use crate::asked::asked_by;
use crate::post::post;
use bin_routes::Routes;
use std::alloc::Global;
use std::marker::Model;
use world_setup::{Event, Fault, Packet, Refusal};

/// All nodes, and every packet that was sent, numbered from 1.
#[derive(Drop)]
pub(crate) struct Parts {
    pub(crate) nodes: Nodes,
    pub(crate) packets: Vec<Packet>,
}

impl Model for Parts {
    ghost use Rattle.std.specs.Prelude.{map};
    ghost use Rattle.claim_model.specs.World.{World as ModelWorld};
    ghost use Rattle.world_setup.specs.Seen.{packet_seen};
    ghost use Rattle.world_core.specs.NodeLists.{world_of};

    ghost Value = { ModelWorld };

    ghost view = { λ p. world_of p.nodes (map packet_seen p.packets.items) };
}

impl Parts {
    /// All nodes.
    pub(crate) fn nodes(&self) -> &Nodes
        ensures { result.now ≡ record {
          pharmacies = self.now.pharmacies;
          switches = self.now.switches;
          payers = self.now.payers;
        } }
    {
        &self.nodes
    }

    /// All packets.
    pub(crate) fn packets(&self) -> &[Packet]
        ensures { map packet_seen result.now ≡ self.now.packets }
    {
        self.packets.as_slice()
    }

    /// The number of the next packet.
    pub(crate) fn next_number(&self) -> u64
        ensures { result ≡ length self.now.packets + 1 }
    {
        self.packets.len() as u64 + 1
    }

    /// Where the list of packets takes its memory.
    pub(crate) fn allocator(&self) -> Global {
        *self.packets.allocator()
    }

    /// Makes an event: the node that it asks makes its call, and what that sends is posted. The room for it is had before.
    /// Deliveries meet few refusals, so a packet is not read again to see that it is readable.
    pub(crate) fn step(&mut self, routes: &Routes, event: &Event) -> Result<(), Fault>
        requires { DeliveriesMeet (bytes_with routes.now) self.old }
        ensures ok { OnOk result (next_of (step (bytes_with routes.now) self.old (event_seen event.now))
            ≡ Some self.new) }
        ensures fault { Refuses (step (bytes_with routes.now) self.old (event_seen event.now)) result }
        ensures err { OnErr result (self.new ≡ self.old) }
    {
        let room = self.nodes.room_for(event);
        self.packets.reserve(room)?;
        let alloc = *self.packets.allocator();
        let Some((node, call)) = asked_by(self.packets.as_slice(), event) else {
            return Err(Fault::Refused(Refusal::NoSuchPacket));
        };
        let sent = self.nodes.call(alloc, routes, node, call)?;
        post(&mut self.packets, node, sent);
        Ok(())
    }
}
