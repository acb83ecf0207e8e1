//! All logs of a node as one.

use crate::finding::Finding;
use crate::words::Words;
use log_folder::{OutFile, WriteFault, write_new};
use log_turning::{Reach, join_files, log_files};

/// Writes all calls of a node to a new file as one log: those of its log, and of each that was closed before it.
///
/// # Errors
/// A log that was closed is not there, or the logs do not go on one after another.
pub(crate) fn join(
    rt: &HostRuntime,
    words: &Words<'_>,
    log: &str,
    text: &[u8],
    out: &str,
) -> Result<(), Finding> {
    let files = log_files(rt, log, Reach::All)?;
    let joined = join_files(rt.alloc(), text, words.node, None, files.as_slice())?;
    match write_new(&mut OutFile::new(rt, out), joined.as_slice()) {
        Ok(()) => {
            let count = files.len();
            Ok(println!(rt; "joined {count} logs")?)
        }
        Err(WriteFault::Unmade(error)) => Err(Finding::of_file(rt.alloc(), out, error)),
        Err(WriteFault::Io(error)) => Err(Finding::Io(error)),
    }
}
