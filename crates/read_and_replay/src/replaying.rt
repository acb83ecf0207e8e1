//! A schedule of events over all nodes: a line for each event, and then each node. The report of an input is made, all of it,
//! before anything is written.

ghost use Rattle.std.specs.Prelude.{◌≡◌, ◌+◌, ◌++◌, ◌≤◌, Ok, IfOk, IfErr, IsTrue, IsErrOf, OnOk};
ghost use Rattle.world_core.specs.Parts.{context_of};
ghost use Rattle.world_report.specs.Words.{lines_text};
ghost use Rattle.world_report.specs.Nodes.{world_lines};
ghost use Rattle.program_io.specs.Serving.{Serves, StopsSoundly};
ghost use Rattle.program_io.specs.Stops.{IsUnread, RefusedFor};
ghost use Rattle.read_and_replay.specs.Replays.{replay_of, IsRunOf};

use crate::events::put_schedule;
use payer_book::HashKeys;
use program_io::{
    CheckFault, InputFault, MOST_CALLS, ProgramFault, Sink, Source, opened, read_all, write_output,
};
use schedule::{ScheduleFault, divide};
use std::alloc::{AllocError, Global};
use world_core::World;
use world_report::put_nodes;

/// Runs the schedule of `source` over the nodes of its settings, and writes the report to `sink`. The world that was run is left
/// in `left`: a program that ends then need not give it back.
///
/// The input is settings in TOML, a line `---`, and one event a line. The report has a line for each event, made or
/// refused, and then the lines of each pharmacy, switch and payer as they are after all events. The maps of books
/// hash with these keys.
///
/// # Errors
/// `Read`, then `Settings`, then `Line` of the first line that spells no event, before anything is written; then
/// `Write`, where a world may be left. `OutOfMemory` may stand in place of any answer, and then nothing was written.
pub fn replay<S: Source, K: Sink>(
    alloc: Global,
    keys: &HashKeys,
    source: &mut S,
    sink: &mut K,
    left: &mut Option<World>,
) -> Result<(), ProgramFault>
    // Exactly the report of the input was written, or the input or a write is at fault.
    ensures serves { Serves replay_of result (S.remaining source.old) K.contents sink.old sink.new }
    // An input is refused only for what is bad in it, and a write fails only where nothing is.
    ensures stops { StopsSoundly replay_of result (S.remaining source.old) }
    // A call of the source failed, or the input is too long.
    ensures read { IsErrOf result ProgramFault.Read → IsUnread (S.has_failed source.new) (S.remaining source.old) }
    // What was written is flushed.
    ensures flushed { OnOk result (IsTrue (K.is_flushed sink.new)) }
    ensures same_reference { K.loan sink.new ≡ K.loan sink.old }
    // A call of the sink failed.
    ensures write { IsErrOf result ProgramFault.Write → IsTrue (K.has_failed sink.new) }
    ensures calls { S.calls source.new ≤ S.calls source.old + MOST_CALLS }
{
    let input = read_all(alloc, source)?;
    let report = report_on(alloc, keys, input, left)?;
    write_output(sink, report.as_slice())
}

/// The whole report of an input. The world that was run is left in `left`.
///
/// # Errors
/// `Settings` where the settings are none; then `Line` of the first line that spells no event; `OutOfMemory`.
fn report_on(
    alloc: Global,
    keys: &HashKeys,
    input: Vec<u8>,
    left: &mut Option<World>,
) -> Result<Vec<u8>, CheckFault>
    ensures all { IfOk result (λ report. replay_of input.items ≡ Ok report.items) }
    ensures fault { IfErr result (λ fault. RefusedFor fault (replay_of input.items)) }
{
    match ran(alloc, keys, input) {
        Ok(run) => Ok(with_nodes(alloc, run, left)?),
        Err(fault) => Err(fault),
    }
}

/// The lines of the events, and those of the nodes after them. The world that was run is left in `left`.
fn with_nodes(alloc: Global, run: Replayed, left: &mut Option<World>) -> Result<Vec<u8>, AllocError>
    ensures { IfOk result (λ report. report.items
        ≡ run.report.items ++ lines_text (world_lines (context_of run.world) run.world.world)) }
{
    let Replayed { mut report, world } = run;
    put_nodes(&mut report, alloc, &world)?;
    *left = Some(world);
    Ok(report)
}

/// The lines of the events of an input, and the world after all of them.
struct Replayed {
    report: Vec<u8>,
    world: World,
}

/// Runs the schedule of an input over the nodes of its settings. The input is given back then.
fn ran(alloc: Global, keys: &HashKeys, input: Vec<u8>) -> Result<Replayed, CheckFault>
    ensures run { IfOk result (λ r. IsRunOf input.items r.report.items r.world) }
    ensures fault { IfErr result (λ fault. RefusedFor fault (replay_of input.items)) }
{
    let parts = divide(alloc, input.as_slice())?;
    let mut world = opened(alloc, keys, parts.settings.as_slice())?;
    let mut report = Vec::new(alloc);
    match put_schedule(&mut report, alloc, &mut world, parts.schedule) {
        Ok(()) => Ok(Replayed { report, world }),
        Err(ScheduleFault::OutOfMemory) => Err(CheckFault::OutOfMemory),
        Err(ScheduleFault::Line(number)) => Err(CheckFault::Input(InputFault::Line(number))),
    }
}
