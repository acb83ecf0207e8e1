//! Why a program stopped, and the line that says so.

ghost use Rattle.std.specs.Prelude.{◌≡◌};
ghost use Rattle.program_io.specs.declared.fault.CheckFault.TheVariants as check;
ghost use Rattle.program_io.specs.declared.fault.ProgramFault.TheVariants as program;
ghost use Rattle.program_io.specs.Stops.{check_told, schedule_told, settings_told};

use schedule::ScheduleFault;
use std::alloc::{AllocError, AllocFailed};
use thiserror::Error;
use world_settings::SettingsFault;

/// What is bad in an input. The text is that of the line on standard error.
#[derive(Clone, Copy, Debug, PartialEq, Eq, Error)]
pub enum InputFault {
    /// The settings are none, or no world takes them.
    #[error("settings refused")]
    Settings,
    /// The line of this number, from 1, is the first that spells nothing in its place.
    #[error("line {0} refused")]
    Line(u64),
}

/// Why a check takes no input.
#[derive(Clone, Copy, Debug, PartialEq, Eq, Error)]
pub enum CheckFault {
    /// Memory was refused.
    #[error("out of memory")]
    OutOfMemory,
    /// The input is bad.
    #[error("{0}")]
    Input(InputFault),
}

/// Why a program over standard input and output stopped. The text is that of the line on standard error.
#[derive(Clone, Copy, Debug, PartialEq, Eq, Error)]
pub enum ProgramFault {
    /// Memory was refused. What was written until then is a beginning of the output.
    #[error("out of memory")]
    OutOfMemory,
    /// A call of the reader failed, or the input has more than 16,777,216 bytes. Nothing was written.
    #[error("read fault")]
    Read,
    /// The input is bad. Nothing was written.
    #[error("{0}")]
    Input(InputFault),
    /// A call of the writer failed or took nothing. What was written until then is a beginning of the output.
    #[error("write fault")]
    Write,
}

impl From<AllocError> for CheckFault {
    ghost from_gives = { λ _ fault. fault ≡ check.OutOfMemory };

    fn from(_refused: AllocError) -> CheckFault {
        CheckFault::OutOfMemory
    }
}

impl<T: Drop> From<AllocFailed<T>> for CheckFault {
    ghost from_gives = { λ _ fault. fault ≡ check.OutOfMemory };

    fn from(_refused: AllocFailed<T>) -> CheckFault {
        CheckFault::OutOfMemory
    }
}

impl From<SettingsFault> for CheckFault {
    ghost from_gives = { λ fault told. told ≡ settings_told fault };

    fn from(fault: SettingsFault) -> CheckFault {
        match fault {
            SettingsFault::OutOfMemory => CheckFault::OutOfMemory,
            SettingsFault::Settings => CheckFault::Input(InputFault::Settings),
        }
    }
}

impl From<AllocError> for ProgramFault {
    ghost from_gives = { λ _ fault. fault ≡ program.OutOfMemory };

    fn from(_refused: AllocError) -> ProgramFault {
        ProgramFault::OutOfMemory
    }
}

impl<T: Drop> From<AllocFailed<T>> for ProgramFault {
    ghost from_gives = { λ _ fault. fault ≡ program.OutOfMemory };

    fn from(_refused: AllocFailed<T>) -> ProgramFault {
        ProgramFault::OutOfMemory
    }
}

impl From<CheckFault> for ProgramFault {
    ghost from_gives = { λ fault told. told ≡ check_told fault };

    fn from(fault: CheckFault) -> ProgramFault {
        match fault {
            CheckFault::OutOfMemory => ProgramFault::OutOfMemory,
            CheckFault::Input(why) => ProgramFault::Input(why),
        }
    }
}

impl From<ScheduleFault> for ProgramFault {
    ghost from_gives = { λ fault told. told ≡ check_told (schedule_told fault) };

    fn from(fault: ScheduleFault) -> ProgramFault {
        match fault {
            ScheduleFault::OutOfMemory => ProgramFault::OutOfMemory,
            ScheduleFault::Line(number) => ProgramFault::Input(InputFault::Line(number)),
        }
    }
}
