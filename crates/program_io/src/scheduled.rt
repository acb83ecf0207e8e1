//! What a schedule over the nodes of its settings begins with, for programs that have an output of their own for it. The
//! settings may be wide ones, and their payers may ask.

ghost use Rattle.std.specs.Prelude.{◌≡◌, ◌≢◌, ◌+◌, ◌≤◌, Ok, IfOk, IfErr, IfSome, IsErrOf, OnOk};
ghost use Rattle.program_io.specs.Serving.{StopsSoundly};
ghost use Rattle.program_io.specs.Scheduled.{living_scheduled_of};
ghost use Rattle.program_io.specs.Stops.{IsTaken, IsUnread, RefusedFor};

use crate::fault::{CheckFault, InputFault, ProgramFault};
use crate::input::{MOST_CALLS, read_all};
use crate::opening::living_opened;
use crate::source::Source;
use payer_book::HashKeys;
use schedule::{ScheduleFault, divide, read_living_schedule};
use std::alloc::Global;
use world_core::World;
use world_setup::Event;

/// The opening world of the settings of an input, and the events of its schedule.
#[derive(Drop)]
pub struct Scheduled {
    pub world: World,
    pub events: Vec<Event>,
}

/// What an input begins with, which keeps nothing of it. The maps of its books hash with these keys.
///
/// # Errors
/// `Settings` where the settings are none; then `Line` of the first line that spells no event; `OutOfMemory`.
fn begin(alloc: Global, keys: &HashKeys, input: Vec<u8>) -> Result<Scheduled, CheckFault>
    ensures begins { IfOk result (λ s. living_scheduled_of input.items ≡ Ok (s.world, s.events.items)) }
    ensures fault { IfErr result (λ fault. RefusedFor fault (living_scheduled_of input.items)) }
{
    let parts = divide(alloc, input.as_slice())?;
    let world = living_opened(alloc, keys, parts.settings.as_slice())?;
    match read_living_schedule(alloc, parts.schedule) {
        Ok(events) => Ok(Scheduled { world, events }),
        Err(ScheduleFault::OutOfMemory) => Err(CheckFault::OutOfMemory),
        Err(ScheduleFault::Line(number)) => Err(CheckFault::Input(InputFault::Line(number))),
    }
}

/// Reads an input: the world that its settings open, and the events of its schedule. The maps of its books hash with keys that are
/// the same in every program.
///
/// # Errors
/// `Read`, then `Settings`, then `Line` of the first line that spells no event; `OutOfMemory`.
pub fn read_scheduled<S: Source>(alloc: Global, source: &mut S) -> Result<Scheduled, ProgramFault>
    ensures begins { IfOk result (λ s. IfSome (S.remaining source.old)
        (λ input. living_scheduled_of input ≡ Ok (s.world, s.events.items))) }
    // A call of the source failed, or the input is too long.
    ensures read { IsErrOf result ProgramFault.Read → IsUnread (S.has_failed source.new) (S.remaining source.old) }
    // What is taken was read to its end, and is not too long.
    ensures taken { OnOk result (IfSome (S.remaining source.old) (λ input. IsTaken input (living_scheduled_of input))) }
    // Settings are refused only where they open no world, and a line only where it is the first that spells no event.
    ensures stops { StopsSoundly living_scheduled_of result (S.remaining source.old) }
    // Nothing is written.
    ensures faults { IfErr result (λ fault. fault ≢ ProgramFault.Write) }
    ensures calls { S.calls source.new ≤ S.calls source.old + MOST_CALLS }
{
    let input = read_all(alloc, source)?;
    Ok(begin(alloc, &HashKeys::fixed(), input)?)
}
