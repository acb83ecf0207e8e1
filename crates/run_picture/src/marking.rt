//! The marks of a run, made while it runs.

ghost use Rattle.std.specs.Prelude.{◌≡◌, ◌∷◌, [], map, IfOk, IfSome, IsSome, OnOk};
ghost use Rattle.claim_model.specs.World.{world_after, run};
ghost use Rattle.world_setup.specs.Seen.{event_seen, packet_seen};
ghost use Rattle.claim_model.specs.Refusal.{refusal_of, refusal_name};
ghost use Rattle.world_core.specs.Parts.{context_of};
ghost use Rattle.world_core.specs.Stepping.{outcome_in};
ghost use Rattle.run_picture.specs.Marking.{AddsMarks, marks_in};
ghost use Rattle.run_picture.specs.Marks.{Turned, made_mark, marks_from, marks_behind};
ghost use Rattle.run_picture.specs.Seen.{mark_seen};

use crate::mark::Mark;
use std::alloc::{AllocError, Global};
use world_core::World;
use world_setup::{Event, Fault, Node, Packet};

/// Makes these events, refused ones included, and gives the marks of the run.
///
/// # Errors
/// Where memory is refused. Some of the events may have been made then.
#[tactic(auto, using(world_core::proofs::Runs::run_goes_on, world_core::proofs::Runs::run_is_done, crate::proofs::Making::events_go_on, crate::proofs::Making::events_are_told))]
pub fn mark_run(alloc: Global, world: &mut World, events: &[Event]) -> Result<Vec<Mark>, AllocError>
    ensures marks { IfOk result (λ marks. map mark_seen marks.items
        ≡ marks_from (context_of world.old) world.old.world 1 (map event_seen events.now)) }
    ensures made { OnOk result (world.new.world
        ≡ run (context_of world.old) world.old.world (map event_seen events.now)) }
    ensures routes { world.new.routes ≡ world.old.routes }
{
    let mut marks = Vec::new(alloc);
    for (place, event) in events.iter().enumerate() {
        mark_event(&mut marks, world, place as u64 + 1, event)?;
    }
    Ok(marks)
}

/// Makes an event, and adds its marks.
fn mark_event(
    marks: &mut Vec<Mark>,
    world: &mut World,
    number: u64,
    event: &Event,
) -> Result<(), AllocError>
    ensures marks { OnOk result (AddsMarks marks.old marks.new (marks_in world.old number event.now)) }
    ensures made { OnOk result (world.new.world ≡ world_after world.old.world (outcome_in world.old event.now)) }
    ensures routes { world.new.routes ≡ world.old.routes }
{
    let posted = world.packets().len();
    match world.step(event) {
        Ok(_) => mark_made(marks, world.packets(), posted, number, event),
        Err(fault) => mark_refused(marks, number, fault),
    }
}

/// Adds the marks of an event that was made, before which this many packets were sent.
fn mark_made(
    marks: &mut Vec<Mark>,
    packets: &[Packet],
    posted: usize,
    number: u64,
    event: &Event,
) -> Result<(), AllocError>
    ensures { OnOk result (AddsMarks marks.old marks.new
        (made_mark number (event_seen event.now) ∷ marks_behind number posted (map packet_seen packets.now))) }
{
    marks.push(made_mark(number, event))?;
    mark_sent(marks, packets, posted, number)
}

/// The mark of an event that was made.
fn made_mark(number: u64, event: &Event) -> Mark
    ensures { mark_seen result ≡ made_mark number (event_seen event.now) }
{
    match event {
        Event::Submit { pharmacy, .. } => Mark::Submitted {
            event: number,
            pharmacy: *pharmacy,
        },
        Event::Tick { pharmacy } => Mark::Ticked {
            event: number,
            pharmacy: *pharmacy,
        },
        Event::Deliver { packet } => Mark::Arrived {
            event: number,
            packet: *packet,
        },
        Event::Stop(node) => Mark::Stopped {
            event: number,
            node: *node,
        },
        Event::Start(node) => Mark::Started {
            event: number,
            node: *node,
        },
        Event::Plan { payer, .. } | Event::Terms { payer, .. } => Mark::Revised {
            event: number,
            node: Node::Payer(*payer),
        },
        Event::Retry { pharmacy, .. } => Mark::Revised {
            event: number,
            node: Node::Pharmacy(*pharmacy),
        },
        Event::Cap { switch, .. } => Mark::Revised {
            event: number,
            node: Node::Switch(*switch),
        },
        Event::Adjudicate { packet: taken, .. } => Mark::Arrived {
            event: number,
            packet: *taken,
        },
    }
}

/// Adds the marks of the packets after those that were sent before.
fn mark_sent(
    marks: &mut Vec<Mark>,
    packets: &[Packet],
    posted: usize,
    number: u64,
) -> Result<(), AllocError>
    ensures { OnOk result (AddsMarks marks.old marks.new (marks_behind number posted (map packet_seen packets.now))) }
{
    for place in posted..packets.len() {
        let packet = &packets[place];
        marks.push(Mark::Sent {
            event: number,
            packet: place as u64 + 1,
            from: packet.from,
            to: packet.to,
        })?;
    }
    Ok(())
}

/// Adds the mark of an event that was refused.
fn mark_refused(marks: &mut Vec<Mark>, number: u64, fault: Fault) -> Result<(), AllocError>
    ensures marks { OnOk result (IfSome (refusal_of fault)
        (λ why. AddsMarks marks.old marks.new (Turned number (refusal_name why) ∷ []))) }
    ensures known { OnOk result (IsSome (refusal_of fault)) }
{
    match fault {
        Fault::OutOfMemory => return Err(AllocError),
        _ => marks.push(Mark::Refused {
            event: number,
            fault,
        })?,
    }
    Ok(())
}
