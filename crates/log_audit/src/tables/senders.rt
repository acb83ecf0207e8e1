//! Which event sent a packet.

ghost use Rattle.std.specs.Prelude.{◌≡◌, ◌-◌, map, replicate, IfOk, OnOk};
ghost use Rattle.claim_model.specs.World.{world_after, run};
ghost use Rattle.world_setup.specs.Seen.{event_seen};
ghost use Rattle.world_core.specs.Parts.{context_of};
ghost use Rattle.world_core.specs.Stepping.{outcome_in};
ghost use Rattle.table_text.specs.Adding.{Adds};
ghost use Rattle.log_audit.specs.Senders.{sent_by, senders_from};

use std::alloc::{AllocError, Global};
use std::ops::Range;
use world_core::World;
use world_setup::{Event, Fault};

/// Makes these events in order, refused ones included, and gives for each packet that they send the number of its event,
/// from 1.
#[tactic(auto, using(world_core::proofs::Runs::run_goes_on, world_core::proofs::Runs::run_is_done, crate::proofs::Running::senders_go_on, crate::proofs::Running::senders_are_told))]
pub(crate) fn run_noting(
    alloc: Global,
    world: &mut World,
    events: &[Event],
) -> Result<Vec<u64>, AllocError>
    ensures senders { IfOk result (λ senders. senders.items
        ≡ senders_from (context_of world.old) world.old.world 1 (map event_seen events.now)) }
    ensures made { OnOk result (world.new.world
        ≡ run (context_of world.old) world.old.world (map event_seen events.now)) }
    ensures routes { world.new.routes ≡ world.old.routes }
{
    let mut senders = Vec::new(alloc);
    for (place, event) in events.iter().enumerate() {
        make(&mut senders, world, place as u64 + 1, event)?;
    }
    Ok(senders)
}

/// Makes an event, and notes its number for each packet that it sends.
fn make(
    senders: &mut Vec<u64>,
    world: &mut World,
    number: u64,
    event: &Event,
) -> Result<(), AllocError>
    ensures senders { OnOk result (Adds senders.old senders.new (sent_by number world.old.world world.new.world)) }
    ensures made { OnOk result (world.new.world ≡ world_after world.old.world (outcome_in world.old event.now)) }
    ensures routes { world.new.routes ≡ world.old.routes }
{
    match world.step(event) {
        Ok(sent) => note(senders, number, sent),
        Err(Fault::OutOfMemory) => Err(AllocError),
        Err(_) => Ok(()),
    }
}

/// Notes the number of an event for each of these packets.
#[tactic(auto, using(crate::proofs::Running::none_more))]
fn note(senders: &mut Vec<u64>, number: u64, sent: Range<u64>) -> Result<(), AllocError>
    ensures { OnOk result (Adds senders.old senders.new (replicate (sent.end - sent.start) number)) }
{
    for _ in sent.start..sent.end {
        senders.push(number)?;
    }
    Ok(())
}
