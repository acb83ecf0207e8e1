//! The list of all packets.

ghost use Rattle.std.specs.Prelude.{◌≡◌, ◌≤◌, ◌+◌, length, map, vec_len, vec_capacity};
ghost use Rattle.claim_model.specs.World.{posted};
ghost use Rattle.world_setup.specs.Seen.{node_seen, sent_seen, packet_seen};

use world_setup::{Node, Packet, Sent};

/// Posts what a node sent. The list has room for it.
pub(crate) fn post(packets: &mut Vec<Packet>, from: Node, sent: Vec<Sent>)
    requires { vec_len packets.old + length sent.items ≤ vec_capacity packets.old }
    ensures { map packet_seen packets.new.items ≡ posted (map packet_seen packets.old.items) (node_seen from)
        (map sent_seen sent.items) }
{
    for each in sent {
        let Sent { to, bytes } = each;
        packets.push_reserved(Packet { from, to, bytes });
    }
}
