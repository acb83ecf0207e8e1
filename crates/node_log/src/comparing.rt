//! Whether nodes and what they sent are the same.

ghost use Rattle.std.specs.Prelude.{◌≡◌, ◌↔◌, map, IsTrue};
ghost use Rattle.world_setup.specs.Seen.{node_seen, sent_seen};
ghost use Rattle.claim_model.specs.Nodes.{same_node};

use world_setup::{Node, Sent};

/// Whether two names are of one node: the same kind and the same number.
pub fn is_same_node(a: Node, b: Node) -> bool
    ensures { result ≡ same_node (node_seen a) (node_seen b) }
{
    match a {
        Node::Pharmacy(n) => match b {
            Node::Pharmacy(m) => n == m,
            Node::Switch(_) => false,
            Node::Payer(_) => false,
        },
        Node::Switch(n) => match b {
            Node::Pharmacy(_) => false,
            Node::Switch(m) => n == m,
            Node::Payer(_) => false,
        },
        Node::Payer(n) => match b {
            Node::Pharmacy(_) => false,
            Node::Switch(_) => false,
            Node::Payer(m) => n == m,
        },
    }
}

/// Whether the same was sent: to the same nodes in the same order, with the same bytes.
pub fn is_same_sent(a: &[Sent], b: &[Sent]) -> bool
    ensures { IsTrue result ↔ (map sent_seen a.now ≡ map sent_seen b.now) }
{
    if a.len() != b.len() {
        return false;
    }
    for (place, one) in a.iter().enumerate() {
        if !is_same(one, &b[place]) {
            return false;
        }
    }
    true
}

/// Whether one packet is another: the same addressee and the same bytes.
fn is_same(a: &Sent, b: &Sent) -> bool
    ensures { IsTrue result ↔ (sent_seen a.now ≡ sent_seen b.now) }
{
    is_same_node(a.to, b.to) && a.bytes == b.bytes
}
