//! Which log is of a node, and whether all are of pharmacies and payers.

ghost use Rattle.std.specs.Prelude.{◌≡◌, length};
ghost use Rattle.std.specs.List.{list_all};
ghost use Rattle.world_setup.specs.Seen.{node_seen};
ghost use Rattle.node_log.specs.LogSeen.{logs_seen};
ghost use Rattle.days_audit.specs.Lines.{FirstOf, is_party};

use node_log::{NodeLog, is_numbered};
use world_setup::{Node, WorldSettings};

/// The place of the first log of a node.
#[tactic(auto, using(crate::proofs::Firsts::first_found, crate::proofs::Firsts::none_further, crate::proofs::Firsts::none_anywhere))]
pub(crate) fn place_of(node: Node, logs: &[NodeLog]) -> Option<usize>
    ensures { FirstOf (node_seen node) (logs_seen logs.now) result }
{
    for (place, log) in logs.iter().enumerate() {
        if log.is_of(node) {
            return Some(place);
        }
    }
    None
}

/// Whether each log is of a pharmacy or a payer of these settings.
pub(crate) fn are_parties(settings: &WorldSettings, logs: &[NodeLog]) -> bool
    ensures { result ≡ list_all (λ log. is_party (length settings.now.pharmacies.items)
        (length settings.now.payers.items) log.node) (logs_seen logs.now) }
{
    for log in logs {
        if !is_party(settings, log.node()) {
            return false;
        }
    }
    true
}

/// Whether a node is a pharmacy or a payer of these settings.
pub(crate) fn is_party(settings: &WorldSettings, node: Node) -> bool
    ensures { result ≡ is_party (length settings.now.pharmacies.items)
        (length settings.now.payers.items) (node_seen node) }
{
    match node {
        Node::Pharmacy(number) => is_numbered(settings.pharmacies.len(), number),
        Node::Switch(_) => false,
        Node::Payer(number) => is_numbered(settings.payers.len(), number),
    }
}
