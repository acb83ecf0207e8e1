//! A packet as a key.

ghost use Rattle.std.specs.Prelude.{◌≡◌, ◌∷◌, [], take, IfOk};
ghost use Rattle.world_setup.specs.Seen.{node_seen, packet_seen};
ghost use Rattle.run_merge.specs.LineSeen.{slip_seen};

use node_log::is_same_node;
use octets::Octets;
use std::alloc::AllocError;
use std::hash::{Hash, Hasher};
use world_setup::{Node, Packet};

/// How many bytes the head of an envelope has: its kind, its transaction and how long it is.
const HEAD: usize = 18;

/// A packet: who sent it to whom, and its bytes. It is hashed by the head of its envelope alone: what nodes send under one
/// head are the same bytes, and of a head a pharmacy chooses no more than the length.
#[derive(Clone, Copy)]
pub(crate) struct Slip<'a> {
    pub(crate) from: Node,
    pub(crate) to: Node,
    pub(crate) bytes: &'a Octets,
}

impl<'a> Slip<'a> {
    /// The packet of this sender, this addressee and these bytes.
    pub(crate) fn new(from: Node, to: Node, bytes: &'a Octets) -> Slip<'a>
        ensures { slip_seen result ≡ record { from = node_seen from; to = node_seen to; bytes = bytes.now } }
    {
        Slip { from, to, bytes }
    }

    /// The packet, in memory of its own.
    pub(crate) fn packet(&self) -> Result<Packet, AllocError>
        ensures { IfOk result (λ packet. packet_seen packet ≡ slip_seen self.now) }
    {
        Ok(Packet {
            from: self.from,
            to: self.to,
            bytes: self.bytes.copy()?,
        })
    }

    /// The head of its envelope; all of its bytes where they are fewer.
    fn head(&self) -> &'a [u8]
        ensures { result.now ≡ take 18 self.now.bytes.now }
    {
        let bytes = self.bytes.as_slice();
        if bytes.len() < HEAD {
            bytes
        } else {
            &bytes[..HEAD]
        }
    }
}

impl<'a> PartialEq for Slip<'a> {
    ghost use Rattle.std.specs.Cmp.{on_per, partial_equiv_from_equiv};
    ghost use Rattle.run_merge.specs.LineSeen.{slip_seen};
    ghost use Rattle.run_merge.specs.SamePacket.{same_packet, same_packet_equiv};

    ghost eq = { λ a b. same_packet (slip_seen a) (slip_seen b) };

    ghost laws = { on_per slip_seen (partial_equiv_from_equiv same_packet_equiv) };

    fn eq(&self, other: &Slip<'a>) -> bool {
        is_same_node(self.from, other.from)
            && is_same_node(self.to, other.to)
            && self.bytes == other.bytes
    }
}

impl<'a> Eq for Slip<'a> {
    ghost use Rattle.std.specs.Cmp.{on_equiv};
    ghost use Rattle.run_merge.specs.LineSeen.{slip_seen};
    ghost use Rattle.run_merge.specs.SamePacket.{same_packet_equiv};

    ghost laws = { on_equiv slip_seen same_packet_equiv };
}

impl<'a> Hash for Slip<'a> {
    ghost use Rattle.run_merge.specs.LineSeen.{slip_seen};
    ghost use Rattle.run_merge.specs.SamePacket.{same_input};

    ghost hash_input = { λ s. take 18 s.bytes.now ∷ [] };

    ghost respects_eq = { λ a b e. same_input (slip_seen a) (slip_seen b) e };

    fn hash<H: Hasher>(&self, state: &mut H) {
        state.write(self.head());
    }
}
