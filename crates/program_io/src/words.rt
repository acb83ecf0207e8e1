//! The words of the command line, and what the program says when it stops.

ghost use Rattle.std.specs.Prelude.{◌≡◌};
ghost use Rattle.program_io.specs.Stops.{exit_status};

use crate::fault::ProgramFault;
use clap::error::ErrorKind;
use clap::{Arg, ArgAction, Command, Error as ClapError};
use std::alloc::{AllocError, Global};
use thiserror::Error;

/// What the program is asked to do.
#[derive(Clone, Copy, Debug, PartialEq, Eq)]
pub enum Word {
    /// Answer lines of billings from one book.
    Read,
    /// Run a schedule of events and report on every node.
    Replay,
    /// Run the same nodes on threads.
    Run,
}

/// Why the program ends without having written all. The text follows `claimswitch: ` on standard error.
#[derive(Clone, Copy, Debug, PartialEq, Eq, Error)]
pub enum Stop {
    /// The words are not exactly one of the known words. A wish for help or the version counts here.
    #[error("usage: claimswitch read|replay|run")]
    Usage,
    /// A program stopped.
    #[error("{0}")]
    Fault(ProgramFault),
}

impl Stop {
    /// The exit status: 2 where the words are wrong, else 1.
    pub fn status(&self) -> u8
        ensures { result ≡ exit_status self.now }
    {
        match self {
            Stop::Usage => 2,
            Stop::Fault(_) => 1,
        }
    }
}

impl From<AllocError> for Stop {
    fn from(_refused: AllocError) -> Stop {
        Stop::Fault(ProgramFault::OutOfMemory)
    }
}

impl From<ClapError> for Stop {
    fn from(error: ClapError) -> Stop {
        match error.kind() {
            ErrorKind::OutOfMemory => Stop::Fault(ProgramFault::OutOfMemory),
            _ => Stop::Usage,
        }
    }
}

static WORDS: [&str; 3] = ["read", "replay", "run"];

/// The word that the command line gives; its first word is the program's own name.
///
/// # Errors
/// `Usage` where there is not exactly one word after the name, or another than `read`, `replay` and `run`;
/// `Fault(OutOfMemory)` where memory was refused.
pub fn word_of(alloc: Global, words: &[String]) -> Result<Word, Stop> {
    let word = Arg::new(alloc, "word")
        .required(true)
        .action(ArgAction::Set)
        .value_parser(WORDS.as_slice());
    let command = Command::new(alloc, "claimswitch").arg(word)?;
    let matches = command.try_get_matches_from(words)?;
    match matches.get_str("word") {
        Some("read") => Ok(Word::Read),
        Some("replay") => Ok(Word::Replay),
        Some("run") => Ok(Word::Run),
        _ => Err(Stop::Usage),
    }
}
