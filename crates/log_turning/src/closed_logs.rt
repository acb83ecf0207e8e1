//! The files of a node's logs: the newest, and those that were closed before it, which stand beside it.

use crate::fault::JoinFault;
use crate::files::part_of;
use crate::whole::{LogFile, OneLog, Reach, WholeFault, one_log, put};
use kept_logs::read_rest;
use std::alloc::{AllocError, Global};
use std::io::ErrorKind;
use std::{fs, io};

/// The most logs of one node.
const MOST_LOGS: usize = 1_000_000;

/// The name of a log that was closed, when its node had made this many calls in all.
pub fn closed_name(alloc: Global, path: &str, calls: u64) -> Result<String, AllocError> {
    format!(in alloc; "{path}.{calls}")
}

/// Reads the log in a file and those that were closed before it, which stand beside it, as far back as is said, as one log, under the
/// settings that the text spells.
///
/// # Errors
/// A file could not be read, or the logs do not go on one after another, or with what their node left.
pub fn read_logs(
    rt: &HostRuntime,
    text: &[u8],
    path: &str,
    reach: Reach,
) -> Result<OneLog, WholeFault> {
    let files = log_files(rt, path, reach)?;
    one_log(rt.alloc(), text, files, reach)
}

/// The files of a node's logs, the newest first, so far back: each but the last begins with what the one after it was closed with. Each
/// was closed with fewer calls than the next one, so that a log which names itself, or a newer one, as the one before it is refused,
/// and not read again.
///
/// # Errors
/// A file could not be read, or names no earlier one.
pub fn log_files(rt: &HostRuntime, path: &str, reach: Reach) -> Result<Vec<LogFile>, WholeFault> {
    let alloc = rt.alloc();
    let mut files = Vec::new(alloc);
    let mut wanted = Some(format!(in alloc; "{path}")?);
    let mut least = u64::MAX;
    for _ in 0..MOST_LOGS {
        let Some(name) = wanted else {
            return Ok(files);
        };
        let bytes = read_log_file(rt, name.as_str())?;
        wanted = match calls_in(alloc, bytes.as_slice())? {
            Some(calls) => {
                if calls >= least {
                    return Err(WholeFault::Logs(name, JoinFault::NotNext(files.len())));
                }
                least = calls;
                file_before(rt, path, calls, reach)?
            }
            None => None,
        };
        put(&mut files, LogFile { name, bytes })?;
    }
    Ok(files)
}

/// How many calls were made before the log in a file, where it goes on after closed ones.
fn calls_in(alloc: Global, bytes: &[u8]) -> Result<Option<u64>, AllocError> {
    let Some(rest) = part_of(bytes).rest else {
        return Ok(None);
    };
    match read_rest(alloc, rest)? {
        Some(read) => Ok(Some(read.calls)),
        None => Ok(None),
    }
}

/// The file of the log that was closed with this many calls, where it is read.
fn file_before(
    rt: &HostRuntime,
    path: &str,
    calls: u64,
    reach: Reach,
) -> Result<Option<String>, WholeFault> {
    let name = closed_name(rt.alloc(), path, calls)?;
    if matches!(reach, Reach::All) {
        return Ok(Some(name));
    }
    match fs::exists(rt, name.as_str()) {
        Ok(true) => Ok(Some(name)),
        Ok(false) => Ok(None),
        Err(error) => Err(WholeFault::File(name, error)),
    }
}

/// The bytes of a regular file.
fn read_log_file(rt: &HostRuntime, name: &str) -> Result<Vec<u8>, WholeFault> {
    match read_regular(rt, name) {
        Ok(bytes) => Ok(bytes),
        Err(error) => Err(WholeFault::File(format!(in rt.alloc(); "{name}")?, error)),
    }
}

/// The bytes of a regular file: what else has a name may have no end, or wait for ever.
fn read_regular(rt: &HostRuntime, name: &str) -> io::Result<Vec<u8>> {
    check_regular(rt, name)?;
    fs::read(rt, name)
}

/// Refuses a name that is there and is no regular file's.
///
/// # Errors
/// It is a folder, a pipe, a device; or the system does not tell what it is.
pub fn check_regular(rt: &HostRuntime, name: &str) -> io::Result<()> {
    match fs::metadata(rt, name) {
        Ok(found) => {
            if found.is_file() {
                return Ok(());
            }
            Err(io::Error::new(ErrorKind::InvalidInput, "not a regular file"))
        }
        Err(error) => {
            if error.kind() == ErrorKind::NotFound {
                return Ok(());
            }
            Err(error)
        }
    }
}
