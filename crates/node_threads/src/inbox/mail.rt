//! What an inbox holds, and why a packet is not put into one.

ghost use Rattle.std.specs.Prelude.{◌≡◌};
ghost use Rattle.node_threads.specs.InboxMail.{packet_back};

use thiserror::Error;
use world_setup::Packet;

/// What an inbox holds.
#[derive(Drop, PartialEq, Eq)]
pub enum Mail {
    /// A packet for the inbox's node.
    Packet(Packet),
    /// The mark of the inbox's end, which is put once, when the inbox is closed.
    End,
}

/// Why a packet is not put into an inbox, in the order in which the causes are judged. The packet comes back with it.
#[derive(Debug, Drop, PartialEq, Eq, Error)]
pub enum PutFault {
    /// The inbox has no place left.
    #[error("the inbox is full")]
    Full(Packet),
    /// The inbox was closed.
    #[error("the inbox is closed")]
    Closed(Packet),
}

impl PutFault {
    /// The packet that was not put.
    pub fn into_packet(self) -> Packet
        ensures { result ≡ packet_back self }
    {
        match self {
            PutFault::Full(packet) => packet,
            PutFault::Closed(packet) => packet,
        }
    }
}
