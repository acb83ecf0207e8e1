//! From the input of a replay to the picture of its run.

ghost use Rattle.std.specs.Prelude.{◌≡◌, ◌≢◌, ◌+◌, ◌≤◌, IfOk, IfErr, IsTrue, IsErrOf, OnOk};
ghost use Rattle.program_io.specs.Serving.{StopsSoundly};
ghost use Rattle.program_io.specs.Scheduled.{living_scheduled_of};
ghost use Rattle.program_io.specs.Stops.{IsUnread};
ghost use Rattle.run_picture.specs.Drawn.{IsDrawn, DrawnBehind, BeginningBehind};

use crate::extent::Extent;
use crate::mark_run;
use crate::sheet::picture;
use program_io::{MOST_CALLS, ProgramFault, Scheduled, Sink, Source, read_scheduled, write_output};
use std::alloc::{AllocError, Global};

/// Runs the schedule of `source` over the nodes of its settings, and writes the picture of the run to `sink`.
///
/// The input is that of `claimswitch replay`: settings in TOML, a line `---`, and one event a line. The settings may be wide
/// ones, and their payers may ask.
///
/// # Errors
/// `Read`, then `Settings`, then `Line` of the first line that spells no event, before anything is written; then
/// `Write`. `OutOfMemory` may stand in place of any answer, and then nothing was written.
pub fn draw_replay<S: Source, K: Sink>(
    alloc: Global,
    source: &mut S,
    sink: &mut K,
    extent: Extent,
) -> Result<(), ProgramFault>
    // The file of a picture was written, whose words are no markup.
    ensures drawn { OnOk result (DrawnBehind (K.contents sink.old) (K.contents sink.new)) }
    // A call of the source failed, or the input is too long.
    ensures read { IsErrOf result ProgramFault.Read → IsUnread (S.has_failed source.new) (S.remaining source.old) }
    // Settings are refused only where they open no world, and a line only where it is the first that spells no event.
    ensures stops { StopsSoundly living_scheduled_of result (S.remaining source.old) }
    // Nothing is written before all is checked, run and drawn.
    ensures quiet { IfErr result (λ fault. fault ≢ ProgramFault.Write → sink.new ≡ sink.old) }
    // What was written is flushed.
    ensures flushed { OnOk result (IsTrue (K.is_flushed sink.new)) }
    // A call of the sink failed, and a beginning of a picture was written.
    ensures write { IsErrOf result ProgramFault.Write → IsTrue (K.has_failed sink.new) }
    ensures beginning { IsErrOf result ProgramFault.Write
        → BeginningBehind (K.contents sink.old) (K.contents sink.new) }
    ensures calls { S.calls source.new ≤ S.calls source.old + MOST_CALLS }
{
    match read_scheduled(alloc, source) {
        Ok(begun) => {
            let file = drawn(alloc, begun, extent)?;
            write_output(sink, file.as_slice())
        }
        Err(fault) => Err(fault),
    }
}

/// The picture of the run of what a replay begins with.
fn drawn(alloc: Global, begun: Scheduled, extent: Extent) -> Result<Vec<u8>, AllocError>
    ensures { IfOk result (λ file. IsDrawn file.items) }
{
    let Scheduled { mut world, events } = begun;
    let marks = mark_run(alloc, &mut world, events.as_slice())?;
    picture(alloc, &world, events.as_slice(), marks.as_slice(), extent)
}
