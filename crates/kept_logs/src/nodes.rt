//! Nodes in a log, taken from the front of bytes, and put after what is written already.

ghost use Rattle.std.specs.Prelude.{◌≡◌, ◌++◌, ◌∷◌, OnOk};
ghost use Rattle.std.specs.Int.{w16, to_be_bytes};
ghost use Rattle.std.specs.Option.{option_map};
ghost use Rattle.world_setup.specs.Seen.{node_seen};
ghost use Rattle.kept_logs.specs.Fields.{node_of, node_codec};
ghost use Rattle.kept_logs.specs.Fits.{FitsNode};

use codec::{take_u8, take_u16};
use std::alloc::AllocError;
use world_setup::Node;

/// A node and what follows it; none where it is cut off or of no kind that there is.
#[tactic(auto, unfolding(crate::specs::Fields::node_codec))]
pub(crate) fn take_node(bytes: &[u8]) -> Option<(Node, &[u8])>
    ensures { option_map (λ taken. (node_seen taken.0, taken.1.now)) result ≡ node_codec.at bytes.now }
{
    let (kind, rest) = take_u8(bytes)?;
    let (number, rest) = take_u16(rest)?;
    let node = node_of(kind, number)?;
    Some((node, rest))
}

/// The node of this kind and number; none where there is no such kind.
fn node_of(kind: u8, number: u16) -> Option<Node>
    ensures { option_map node_seen result ≡ node_of (kind, number) }
{
    match kind {
        0 => Some(Node::Pharmacy(number)),
        1 => Some(Node::Switch(number)),
        2 => Some(Node::Payer(number)),
        _ => None,
    }
}

/// Puts a node by its kind and its number.
#[tactic(auto, unfolding(crate::specs::Fields::node_codec))]
pub(crate) fn put_node(out: &mut Vec<u8>, node: Node) -> Result<(), AllocError>
    ensures text { OnOk result (out.new.items ≡ out.old.items ++ node_codec.text (node_seen node)) }
    ensures fits { node_codec.Fits (node_seen node) }
    ensures number { FitsNode (node_seen node) }
{
    match node {
        Node::Pharmacy(number) => put_kind(out, 0, number),
        Node::Switch(number) => put_kind(out, 1, number),
        Node::Payer(number) => put_kind(out, 2, number),
    }
}

/// Puts a kind of node and the number of one.
fn put_kind(out: &mut Vec<u8>, kind: u8, number: u16) -> Result<(), AllocError>
    ensures { OnOk result (out.new.items ≡ out.old.items ++ kind ∷ to_be_bytes w16 number) }
{
    let [high, low] = number.to_be_bytes();
    out.extend_from_slice(&[kind, high, low])
}
