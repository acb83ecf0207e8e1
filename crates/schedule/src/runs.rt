//! The faults and commands that the lines of a schedule of `run` spell.

ghost use Rattle.std.specs.Prelude.{◌≡◌, Ok, IfOk, IfErr};
ghost use Rattle.std.specs.Str.Lines.{lines};
ghost use Rattle.schedule.specs.Runs.{RunRefusedFor, front_fault, run_of, run_seen};

use crate::commands::{Command, command_of};
use crate::fault::ScheduleFault;
use crate::link_faults::fault_of;
use input_text::{Lines, is_skipped};
use std::alloc::{AllocError, Global};
use world_setup::LinkFault;

/// What a schedule of `run` says.
#[derive(Drop)]
pub struct Run {
    /// The faults of links, in the order of their lines.
    pub faults: Vec<LinkFault>,
    /// The commands after them, in order.
    pub commands: Vec<Command>,
}

/// The faults and commands of the lines of a schedule. Empty lines and lines that begin with `#` are skipped.
///
/// The lines at the front are `fault FROM TO ACTIONS`, where FROM and TO are nodes and ACTIONS are one or more of
/// `deliver`, `lose`, `twice` and `hold`, joined by commas. From the first other line on, a line is `submit ph1 TEXT`,
/// `tick ph1` or `plan pr1 PRODUCT PRICE` as in `read_schedule`, `restart sw1`, or `await ph1 3` with the number of a
/// request of 1 to 18 digits. Words are parted by exactly one space.
///
/// # Errors
/// `Line` of the first line that spells neither in its place, where lines that are skipped are counted; `OutOfMemory`.
pub fn read_run(alloc: Global, text: &[u8]) -> Result<Run, ScheduleFault>
    ensures read { IfOk result (λ run. run_of (lines text.now) ≡ Ok (run_seen run)) }
    ensures refused { IfErr result (λ fault. RunRefusedFor fault (run_of (lines text.now))) }
{
    let mut faults = Vec::new(alloc);
    let mut commands = Vec::new(alloc);
    for line in Lines::new(text) {
        if !is_skipped(line.text) {
            match front_fault(alloc, commands.as_slice(), line.text)? {
                Some(fault) => faults.push(fault)?,
                None => match command_of(alloc, line.text)? {
                    Some(command) => commands.push(command)?,
                    None => return Err(ScheduleFault::Line(line.number as u64)),
                },
            }
        }
    }
    Ok(Run { faults, commands })
}

/// The fault that a line spells where it may still spell one: after no command.
fn front_fault(
    alloc: Global,
    commands: &[Command],
    line: &[u8],
) -> Result<Option<LinkFault>, AllocError>
    ensures { IfOk result (λ fault. fault ≡ front_fault commands.now line.now) }
{
    match commands {
        [] => fault_of(alloc, line),
        _ => Ok(None),
    }
}
