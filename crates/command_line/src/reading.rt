//! The words of the command line, and the files that they name.

use crate::end::End;
use std::fmt::Display;
use std::fs::File;
use std::io::Read;
use std::rt::{Env, Files};
use std::{env, fs, io};

/// The most bytes of a file of settings (own).
const MOST_SETTINGS: usize = 16_777_216;

/// How many bytes are read at once.
const PIECE: usize = 65_536;

/// The words of the command line; the first is the program's own name.
///
/// # Errors
/// `Io` where a word is no text or memory was refused; `OutOfMemory`.
pub fn given_words<R: Env + AllocGlobal, F: Drop>(rt: &R) -> Result<Vec<String>, End<F>> {
    Ok(env::args(rt)?.collect(rt.alloc())?)
}

/// All bytes of the file of a name.
///
/// # Errors
/// `File` where it is not read, with its name; `OutOfMemory`.
pub fn read_file<R: Files + AllocGlobal, F: Display + Drop>(
    rt: &R,
    name: &str,
) -> Result<Vec<u8>, End<F>> {
    match fs::read(rt, name) {
        Ok(bytes) => Ok(bytes),
        Err(error) => Err(End::of_file(rt.alloc(), name, error)),
    }
}

/// All bytes of the file of settings of a name, which has 16 MiB at most: a file without an end is not read on.
///
/// # Errors
/// `File` where it is not read, `LongSettings` where it has more, with its name; `OutOfMemory`.
pub fn read_settings_file<R: Files + AllocGlobal, F: Display + Drop>(
    rt: &R,
    name: &str,
) -> Result<Vec<u8>, End<F>> {
    match read_start(rt, name) {
        Ok(bytes) => {
            if bytes.len() > MOST_SETTINGS {
                return Err(End::of_long_settings(rt.alloc(), name));
            }
            Ok(bytes)
        }
        Err(error) => Err(End::of_file(rt.alloc(), name, error)),
    }
}

/// The bytes of a file, or this many of them that they are too many for settings.
fn read_start<R: Files + AllocGlobal>(rt: &R, name: &str) -> io::Result<Vec<u8>> {
    let mut file = File::open(rt, name)?;
    let mut piece = Vec::from_elem(rt.alloc(), 0u8, PIECE)?;
    let mut bytes = Vec::new(rt.alloc());
    for _ in 0..=MOST_SETTINGS {
        let count = file.read(piece.as_mut_slice())?;
        if count == 0 || bytes.len() > MOST_SETTINGS {
            return Ok(bytes);
        }
        bytes.extend_from_slice(piece.get(..count).unwrap_or(&[]))?;
    }
    Ok(bytes)
}
