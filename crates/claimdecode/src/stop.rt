//! Why the program ends before all was described.

ghost use Rattle.std.specs.Prelude.{◌≡◌, true, false};
ghost use Rattle.message_words.specs.declared.line_source.InputFault.TheVariants as input;
ghost use Rattle.claimdecode.specs.declared.stop.Stop.TheVariants as stop;

use clap::Error as ClapError;
use clap::error::ErrorKind;
use message_words::InputFault;
use std::alloc::AllocError;
use std::process::ExitCode;
use thiserror::Error;

/// Why the program ends before all was described.
#[derive(Debug, Drop, Error)]
pub(crate) enum Stop {
    /// The words are no text.
    #[error("the words are no text")]
    Usage,
    /// The words are wrong, or ask for help or for the version.
    #[error("{0}")]
    Words(#[from] ClapError),
    /// Memory was refused.
    #[error("out of memory")]
    OutOfMemory,
    /// The input could not be read.
    #[error("the input could not be read")]
    Read,
    /// A line, or an input that is one message, has more than 16 MiB: which line it is.
    #[error("line {0} has more than 16,777,216 bytes")]
    TooLong(u64),
    /// The output could not be written.
    #[error("the output could not be written")]
    Write,
}

impl Stop {
    /// Why a line was not read.
    pub(crate) fn of_input(fault: InputFault, line: u64) -> Stop
        ensures memory { fault ≡ input.OutOfMemory → result ≡ stop.OutOfMemory }
        ensures read { fault ≡ input.Read → result ≡ stop.Read }
        ensures long { fault ≡ input.TooLong → result ≡ stop.TooLong line }
    {
        match fault {
            InputFault::OutOfMemory => Stop::OutOfMemory,
            InputFault::Read => Stop::Read,
            InputFault::TooLong => Stop::TooLong(line),
        }
    }

    /// Says why on standard error, or shows help or the version, and gives the exit status.
    pub(crate) fn told(&self, rt: &HostRuntime) -> ExitCode {
        if let Stop::Words(error) = self {
            let is_shown = error.print(rt).is_ok() && error.kind() != ErrorKind::OutOfMemory;
            return ExitCode::from(status_of(is_shown, error.use_stderr()));
        }
        let _ = eprintln!(rt; "claimdecode: {self}");
        ExitCode::from(if matches!(self, Stop::Usage) { 2 } else { 1 })
    }
}

/// The exit status of words that were wrong, or asked for help or for the version: 1 where that could not be shown.
fn status_of(is_shown: bool, is_wrong: bool) -> u8
    ensures failed { is_shown ≡ false → result ≡ 1 }
    ensures wrong { is_shown ≡ true → is_wrong ≡ true → result ≡ 2 }
    ensures told { is_shown ≡ true → is_wrong ≡ false → result ≡ 0 }
{
    match (is_shown, is_wrong) {
        (false, _) => 1,
        (true, true) => 2,
        (true, false) => 0,
    }
}

impl From<AllocError> for Stop {
    ghost use Rattle.std.specs.Prelude.{◌≡◌};

    ghost from_gives = { λ _ e. e ≡ stop.OutOfMemory };

    fn from(_refused: AllocError) -> Stop {
        Stop::OutOfMemory
    }
}
