//! The events of a schedule, each made as its line is read, and told.

ghost use Rattle.std.specs.Prelude.{◌≡◌, IfErr, IfSome, IsSome, OnOk};
ghost use Rattle.std.specs.Str.Lines.{lines};
ghost use Rattle.claim_model.specs.World.{world_after};
ghost use Rattle.claim_model.specs.Refusal.{refusal_name, refusal_of};
ghost use Rattle.world_core.specs.Stepping.{outcome_in};
ghost use Rattle.world_report.specs.Adding.{AddsLine};
ghost use Rattle.world_report.specs.Heads.{refused_line};
ghost use Rattle.schedule.specs.Reading.{RefusedFor, events_of};
ghost use Rattle.read_and_replay.specs.Events.{line_in};
ghost use Rattle.read_and_replay.specs.Replays.{IsRun};

use input_text::{Lines, is_skipped};
use schedule::{ScheduleFault, event_of};
use std::alloc::{AllocError, Global};
use world_core::World;
use world_report::{put_done, put_refused};
use world_setup::{Event, Fault};

/// Makes the events of the lines of a schedule, refused ones included, each as its line is read, and appends a line for each.
///
/// # Errors
/// `Line` of the first line that spells no event, where lines that are skipped are counted; `OutOfMemory`. Events may have been
/// made then, and lines appended.
pub(crate) fn put_schedule(
    out: &mut Vec<u8>,
    alloc: Global,
    world: &mut World,
    text: &[u8],
) -> Result<(), ScheduleFault>
    ensures run { OnOk result (IsRun (events_of (lines text.now)) out.old.items world.old out.new.items world.new) }
    ensures refused { IfErr result (λ fault. RefusedFor fault (events_of (lines text.now))) }
{
    let mut made = 0;
    for line in Lines::new(text) {
        if !is_skipped(line.text) {
            match event_of(alloc, line.text)? {
                Some(event) => {
                    made += 1;
                    put_made(out, world, made, event)?;
                }
                None => return Err(ScheduleFault::Line(line.number as u64)),
            }
        }
    }
    Ok(())
}

/// Makes the event of this number, and appends its line: that of a refused one has the refusal's name. The event is given back.
fn put_made(
    out: &mut Vec<u8>,
    world: &mut World,
    number: u64,
    event: Event,
) -> Result<(), AllocError>
    ensures line { OnOk result (AddsLine out.old out.new (line_in world.old number event)) }
    ensures made { OnOk result (world.new.world ≡ world_after world.old.world (outcome_in world.old event)) }
    ensures routes { world.new.routes ≡ world.old.routes }
{
    match world.step(&event) {
        Ok(sent) => put_done(out, number, sent),
        Err(fault) => put_fault(out, number, fault),
    }
}

/// Appends the line of a refused event.
fn put_fault(out: &mut Vec<u8>, number: u64, fault: Fault) -> Result<(), AllocError>
    ensures line { OnOk result (IfSome (refusal_of fault)
        (λ why. AddsLine out.old out.new (refused_line number (refusal_name why)))) }
    ensures known { OnOk result (IsSome (refusal_of fault)) }
{
    match fault {
        Fault::OutOfMemory => Err(AllocError),
        Fault::Refused(why) => put_refused(out, number, why.name().as_bytes()),
    }
}
