//! What the input of a run asks for.

ghost use Rattle.std.specs.Prelude.{◌≡◌, Ok, IfOk, IfErr};
ghost use Rattle.schedule.specs.Division.{settings_text};
ghost use Rattle.schedule.specs.Runs.{run_seen};
ghost use Rattle.program_io.specs.Scheduled.{Opens};
ghost use Rattle.program_io.specs.Stops.{RefusedFor};
ghost use Rattle.schedule_run.specs.Asked.{asked_in};

use payer_book::HashKeys;
use program_io::{CheckFault, InputFault, taken_settings};
use schedule::{Run, ScheduleFault, divide, read_run};
use std::alloc::Global;
use world_setup::CheckedSettings;

/// The settings of a run, which a world takes, and what its schedule says.
#[derive(Drop)]
pub(crate) struct Asked {
    pub(crate) settings: CheckedSettings,
    pub(crate) run: Run,
}

/// What an input asks for: settings that a world takes, and then the faults of links and the commands. The maps of books
/// hash with these keys.
///
/// # Errors
/// `Settings` where the settings are none; then `Line` of the first line that spells no fault and no command in its place;
/// `OutOfMemory`.
#[tactic(auto, using(std::proofs::lemmas::Result::err_from_is_err_and, crate::proofs::AskedRuns::asked_never))]
pub(crate) fn asked_of(alloc: Global, keys: &HashKeys, input: &[u8]) -> Result<Asked, CheckFault>
    ensures opens { IfOk result (λ a. Opens (settings_text input.now) a.settings) }
    ensures asked { IfOk result (λ a. asked_in input.now ≡ Ok (run_seen a.run)) }
    ensures fault { IfErr result (λ fault. RefusedFor fault (asked_in input.now)) }
{
    let parts = divide(alloc, input)?;
    let settings = taken_settings(alloc, keys, parts.settings.as_slice())?;
    match read_run(alloc, parts.schedule) {
        Ok(run) => Ok(Asked { settings, run }),
        Err(ScheduleFault::OutOfMemory) => Err(CheckFault::OutOfMemory),
        Err(ScheduleFault::Line(number)) => Err(CheckFault::Input(InputFault::Line(number))),
    }
}
