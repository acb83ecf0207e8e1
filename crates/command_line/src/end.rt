//! Why a program ends before it has done what its words ask for.

use clap::Error as ClapError;
use std::alloc::{AllocError, AllocFailed, Global};
use std::fmt::{Display, Formatter};
use std::io::{Eprint, Print};
use std::process::ExitCode;
use std::{fmt, io};

/// Why a program ends before it has done what its words ask for. What it alone can find wrong is an `F`.
#[derive(Drop)]
pub enum End<F: Drop> {
    /// The words are wrong, or ask for help or for the version.
    Words(ClapError),
    /// Memory was refused.
    OutOfMemory,
    /// Standard input, standard output or a file failed.
    Io(io::Error),
    /// The file of this name is not read, opened or written.
    File(String, io::Error),
    /// The settings of this name have more bytes than are read.
    LongSettings(String),
    /// What this program alone can find wrong.
    Own(F),
}

impl<F: Display + Drop> End<F> {
    /// That the file of this name is not read, opened or written.
    pub fn of_file(alloc: Global, name: &str, error: io::Error) -> End<F> {
        match String::from_str(alloc, name) {
            Ok(name) => End::File(name, error),
            Err(_) => End::OutOfMemory,
        }
    }

    /// That the settings of this name are too long.
    pub(crate) fn of_long_settings(alloc: Global, name: &str) -> End<F> {
        match String::from_str(alloc, name) {
            Ok(name) => End::LongSettings(name),
            Err(_) => End::OutOfMemory,
        }
    }

    /// Says on standard error, after the name of the program, why it ends, and gives the status: this one. Where the words
    /// ask for help or for the version, that is printed, and the status is 0, or 1 where it cannot be written; where they are
    /// wrong, it is 2.
    pub fn told<R: Print + Eprint>(&self, rt: &R, program: &str, status: u8) -> ExitCode {
        match self {
            End::Words(error) => match error.print(rt) {
                Ok(()) => ExitCode::from(if error.use_stderr() { 2 } else { 0 }),
                Err(_) => ExitCode::from(if error.use_stderr() { 2 } else { 1 }),
            },
            end => {
                let _ = eprintln!(rt; "{program}: {end}");
                ExitCode::from(status)
            }
        }
    }
}

impl<F: Display + Drop> Display for End<F> {
    fn fmt<W: fmt::Write>(&self, f: &mut Formatter<W>) -> fmt::Result {
        match self {
            End::Words(error) => write!(f, "{error}"),
            End::OutOfMemory => f.write_str("out of memory"),
            End::Io(error) => write!(f, "{error}"),
            End::File(name, error) => write!(f, "{name}: {error}"),
            End::LongSettings(name) => write!(f, "{name}: settings have 16 MiB at most"),
            End::Own(found) => write!(f, "{found}"),
        }
    }
}

impl<F: Drop> From<AllocError> for End<F> {
    fn from(_refused: AllocError) -> End<F> {
        End::OutOfMemory
    }
}

impl<F: Drop, T: Drop> From<AllocFailed<T>> for End<F> {
    fn from(_refused: AllocFailed<T>) -> End<F> {
        End::OutOfMemory
    }
}

impl<F: Drop> From<io::Error> for End<F> {
    fn from(error: io::Error) -> End<F> {
        End::Io(error)
    }
}

impl<F: Drop> From<ClapError> for End<F> {
    fn from(error: ClapError) -> End<F> {
        End::Words(error)
    }
}
