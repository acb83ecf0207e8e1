//! Standard streams that are closed.

use std::fs::File;
use std::io;

/// Files in the place of those of standard input, output and error that are closed.
#[derive(Drop)]
pub(crate) struct Standard(File, File, File);

/// A file that has no bytes, to be read.
const NOTHING: &str = "/dev/null";

/// Takes the numbers of standard streams that are closed: a file that is opened gets the lowest number that is free, and what
/// is written to a stream would be appended to the log. What is written to one of these is refused.
pub(crate) fn take_standard(rt: &HostRuntime) -> io::Result<Standard> {
    let first = File::open(rt, NOTHING)?;
    let second = File::open(rt, NOTHING)?;
    let third = File::open(rt, NOTHING)?;
    Ok(Standard(first, second, third))
}
