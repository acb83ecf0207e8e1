//! The packets that were sent in an order.

ghost use Rattle.std.specs.Prelude.{◌≡◌, [], ◌∷◌, ◌++◌, map, IfOk, OnOk};
ghost use Rattle.claim_model.specs.World.{posted};
ghost use Rattle.world_setup.specs.Seen.{node_seen, packet_seen, sent_seen};
ghost use Rattle.run_merge.specs.LineSeen.{slip_seen};
ghost use Rattle.run_merge.specs.PacketNumbers.{NumberOf};

use crate::slip::Slip;
use octets::Octets;
use std::alloc::{AllocError, Global};
use std::collections::HashMap;
use std::marker::Model;
use world_setup::{Node, Packet, Sent};

/// The packets that were sent, numbered from 1, with a number of each: who sent one to whom, and its bytes (own).
#[derive(Drop)]
pub struct Posted<'a> {
    packets: Vec<Slip<'a>>,
    numbers: HashMap<Slip<'a>, u64>,
}

impl<'a> Model for Posted<'a> {
    ghost use Rattle.std.specs.Prelude.{List, map};
    ghost use Rattle.std.specs.HashMap.{get};
    ghost use Rattle.claim_model.specs.World.{Packet};
    ghost use Rattle.run_merge.specs.LineSeen.{slip_seen};
    ghost use Rattle.run_merge.specs.PacketNumbers.{same_slip, IsNumbered};

    ghost Value = { List Packet };

    ghost view = { λ p. map slip_seen p.packets.items };

    ghost invariant = { λ p. IsNumbered (map slip_seen p.packets.items) (get same_slip p.numbers) };
}

impl<'a> Posted<'a> {
    /// No packets.
    pub fn new(alloc: Global) -> Posted<'a>
        ensures { result ≡ [] }
    {
        Posted {
            packets: Vec::new(alloc),
            numbers: HashMap::new(alloc),
        }
    }

    /// Adds what a node sent.
    pub fn post(&mut self, from: Node, sent: &'a [Sent]) -> Result<(), AllocError>
        ensures { OnOk result (self.new ≡ posted self.old (node_seen from) (map sent_seen sent.now)) }
    {
        for one in sent {
            self.push(Slip::new(from, one.to, &one.bytes))?;
        }
        Ok(())
    }

    /// Adds a packet.
    fn push(&mut self, slip: Slip<'a>) -> Result<(), AllocError>
        ensures { OnOk result (self.new ≡ self.old ++ slip_seen slip.entry ∷ []) }
    {
        self.packets.reserve(1)?;
        let number = self.packets.len() as u64 + 1;
        match self.numbers.insert(slip, number) {
            Ok(_) => {
                self.packets.push_reserved(slip);
                Ok(())
            }
            Err(_) => Err(AllocError),
        }
    }

    /// All packets, in memory of their own.
    pub(crate) fn packets(&self, alloc: Global) -> Result<Vec<Packet>, AllocError>
        ensures { IfOk result (λ packets. map packet_seen packets.items ≡ self.now) }
    {
        packets_of(alloc, self.packets.as_slice())
    }

    /// The number of a packet with this sender, this addressee and these bytes.
    pub fn find(&self, from: Node, to: Node, bytes: &'a Octets) -> Option<u64>
        ensures { NumberOf self.now (record { from = node_seen from; to = node_seen to; bytes = bytes.now }) result }
    {
        match self.numbers.get(&Slip::new(from, to, bytes)) {
            Some(number) => Some(*number),
            None => None,
        }
    }
}

/// The packets that these are, in memory of their own.
fn packets_of(alloc: Global, slips: &[Slip<'_>]) -> Result<Vec<Packet>, AllocError>
    ensures { IfOk result (λ packets. map packet_seen packets.items ≡ map slip_seen slips.now) }
{
    let mut packets = Vec::new(alloc);
    packets.reserve(slips.len())?;
    for slip in slips {
        packets.push(slip.packet()?)?;
    }
    Ok(packets)
}
