//! Why the program ends without having written all.

ghost use Rattle.std.specs.Prelude.{◌≡◌};
ghost use Rattle.run_picture.specs.Stops.{exit_status};

use clap::Error as ClapError;
use clap::error::ErrorKind;
use program_io::ProgramFault;
use std::alloc::AllocError;
use thiserror::Error;

/// Why the program ends without having written all. The text follows `claimpicture: ` on standard error.
#[derive(Clone, Copy, Debug, PartialEq, Eq, Error)]
pub enum PictureStop {
    /// The words are neither none nor `all` nor a part of a run.
    #[error("usage: claimpicture [all|FIRST-LAST]")]
    Usage,
    /// The program stopped.
    #[error("{0}")]
    Fault(ProgramFault),
}

impl PictureStop {
    /// The exit status: 2 where the words are wrong, else 1.
    pub fn status(&self) -> u8
        ensures { result ≡ exit_status self.now }
    {
        match self {
            PictureStop::Usage => 2,
            PictureStop::Fault(_) => 1,
        }
    }
}

impl From<AllocError> for PictureStop {
    fn from(_refused: AllocError) -> PictureStop {
        PictureStop::Fault(ProgramFault::OutOfMemory)
    }
}

impl From<ClapError> for PictureStop {
    fn from(error: ClapError) -> PictureStop {
        match error.kind() {
            ErrorKind::OutOfMemory => PictureStop::Fault(ProgramFault::OutOfMemory),
            _ => PictureStop::Usage,
        }
    }
}
