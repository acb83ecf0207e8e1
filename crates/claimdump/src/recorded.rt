//! A world, and the log of each of its nodes.

ghost use Rattle.std.specs.Prelude.{◌≡◌, ◌-◌, [], ◌∷◌, ◌++◌, drop, map, option_map, IfOk, OnOk};
ghost use Rattle.world_setup.specs.Seen.{event_seen, packet_seen, sent_seen};
ghost use Rattle.claimdump.specs.Calls.{asked_of, sent_as};
ghost use Rattle.claimdump.specs.Recorded.{IsAfter, noted, sent_from};

use crate::calls::call_of;
use crate::node_logs::NodeLogs;
use std::alloc::{AllocError, Global};
use world_core::World;
use world_setup::{Call, Event, Fault, Node, Packet, Sent};

/// A world, and the log of each of its nodes.
#[derive(Drop)]
pub(crate) struct Recorded {
    pub(crate) world: World,
    pub(crate) logs: NodeLogs,
}

impl Recorded {
    /// Makes these events, and records the call of each that is accepted.
    #[tactic(auto, using(std::proofs::lemmas::List::drop_all, crate::proofs::Recording::Left, crate::proofs::Recording::all_made))]
    pub(crate) fn make_all(&mut self, alloc: Global, events: &[Event]) -> Result<(), AllocError>
        ensures { OnOk result (IsAfter (map event_seen events.now) self.old self.new) }
    {
        for event in events {
            self.make(alloc, event)?;
        }
        Ok(())
    }

    /// Makes an event, and records its call where it is accepted.
    #[tactic(auto, using(crate::proofs::Recording::refused_adds, crate::proofs::Recording::refused_stays))]
    fn make(&mut self, alloc: Global, event: &Event) -> Result<(), AllocError>
        ensures { OnOk result (IsAfter (event_seen event.now ∷ []) self.old self.new) }
    {
        let asked = call_of(self.world.packets(), event)?;
        match self.world.step(event) {
            Ok(numbers) => self.note(alloc, asked, numbers.start),
            Err(Fault::OutOfMemory) => Err(AllocError),
            Err(Fault::Refused(_)) => Ok(()),
        }
    }

    /// Records a call that was asked for and accepted, with the packets from this number on.
    fn note(
        &mut self,
        alloc: Global,
        asked: Option<(Node, Call)>,
        first: u64,
    ) -> Result<(), AllocError>
        ensures world { self.new.world ≡ self.old.world }
        ensures logs { OnOk result (self.new.logs
            ≡ noted (option_map asked_of asked) (sent_from self.old.world.world.packets first) self.old.logs) }
    {
        let Some((node, call)) = asked else {
            return Ok(());
        };
        let sent = sent_from(alloc, self.world.packets(), first)?;
        self.logs.record(node, call, sent)
    }
}

/// The packets from a number on, as they were sent.
#[tactic(auto, using(crate::proofs::Recording::sents_go_on, crate::proofs::Recording::sents_are))]
fn sent_from(alloc: Global, packets: &[Packet], first: u64) -> Result<Vec<Sent>, AllocError>
    ensures { IfOk result (λ all. map sent_seen all.items ≡ sent_from (map packet_seen packets.now) first) }
{
    let mut all = Vec::new(alloc);
    for packet in behind(packets, first) {
        push_sent(&mut all, packet)?;
    }
    Ok(all)
}

/// The packets from a number on.
fn behind(packets: &[Packet], first: u64) -> &[Packet]
    ensures { result.now ≡ drop (first - 1) packets.now }
{
    match packets.get((first as usize).saturating_sub(1)..) {
        Some(packets) => packets,
        None => &[],
    }
}

/// Appends a packet.
fn push_sent(all: &mut Vec<Sent>, packet: &Packet) -> Result<(), AllocError>
    ensures { OnOk result (map sent_seen all.new.items
        ≡ map sent_seen all.old.items ++ sent_as (packet_seen packet.now) ∷ []) }
{
    let bytes = packet.bytes.copy()?;
    all.push(Sent {
        to: packet.to,
        bytes,
    })?;
    Ok(())
}
