//! The packets that a node sent.

use node_logged::Held;
use std::alloc::Global;
use world_setup::Packet;

/// Copies of the packets that the last recorded call of a node sent. Those for which memory is refused are left out.
pub(crate) fn packets(alloc: Global, held: &Held) -> Vec<Packet> {
    let from = held.node();
    let mut packets = Vec::new(alloc);
    for one in held.last_sent() {
        if let Ok(bytes) = one.bytes.copy() {
            let packet = Packet {
                from,
                to: one.to,
                bytes,
            };
            let _lost = packets.push(packet);
        }
    }
    packets
}
