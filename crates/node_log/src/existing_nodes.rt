//! Whether there is a node.

ghost use Rattle.std.specs.Prelude.{◌≡◌, IsSome, IsTrue};
ghost use Rattle.claim_model.specs.Nodes.{node_at};
ghost use Rattle.claim_model.specs.Settings.{opening};
ghost use Rattle.world_setup.specs.Seen.{node_seen, settings_seen};
ghost use Rattle.node_log.specs.ExistingNodes.{is_numbered, is_there};

use world_setup::{Node, WorldSettings};

/// Whether a world of these settings opens with a node of this name.
pub fn is_there(settings: &WorldSettings, node: Node) -> bool
    ensures value { result ≡ is_there (settings_seen settings.now) (node_seen node) }
    ensures opens { IsTrue result → IsSome (node_at (opening (settings_seen settings.now)) (node_seen node)) }
{
    match node {
        Node::Pharmacy(number) => is_numbered(settings.pharmacies.len(), number),
        Node::Switch(number) => is_numbered(settings.switches.len(), number),
        Node::Payer(number) => is_numbered(settings.payers.len(), number),
    }
}

/// Whether a number is from 1 to a count.
pub fn is_numbered(count: usize, number: u16) -> bool
    ensures { result ≡ is_numbered count number }
{
    number > 0 && number as usize <= count
}
