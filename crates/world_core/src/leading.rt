//! Worlds whose nodes and packets are known.

ghost use Rattle.std.specs.Prelude.{◌≡◌, map};
ghost use Rattle.claim_model.specs.World.{run};
ghost use Rattle.world_setup.specs.Seen.{event_seen};
ghost use Rattle.world_core.specs.Known.{known_world};
ghost use Rattle.world_core.specs.Parts.{context_of};

use crate::all_nodes::Nodes;
use crate::parts::Parts;
use crate::world::World;
use node_state::{PayerNode, PharmacyNode, SwitchNode};
use world_setup::{Event, Packet};

/// All nodes of a world, each kind in the order of its numbers, from 1, and every packet that was sent, in order.
#[derive(Drop)]
pub struct KnownParts {
    /// The pharmacies.
    pub pharmacies: Vec<PharmacyNode>,
    /// The switches.
    pub switches: Vec<SwitchNode>,
    /// The payers.
    pub payers: Vec<PayerNode>,
    /// The packets.
    pub packets: Vec<Packet>,
}

impl World {
    /// The world after these events, whose parts are known to be these: no event is made.
    pub fn led_to(self, events: &[Event], parts: KnownParts) -> World
        requires { known_world parts ≡ run (context_of self) self.world (map event_seen events.now) }
        ensures { result ≡ record {
          routes = self.routes;
          world = run (context_of self) self.world (map event_seen events.now);
        } }
    {
        let KnownParts {
            pharmacies,
            switches,
            payers,
            packets,
        } = parts;
        World {
            routes: self.routes,
            parts: Parts {
                nodes: Nodes {
                    pharmacies,
                    switches,
                    payers,
                },
                packets,
            },
        }
    }
}
