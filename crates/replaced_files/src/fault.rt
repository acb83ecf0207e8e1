//! Why files are not taken, or not replaced.

use std::io;

/// Why files are not taken.
#[derive(Debug, Drop)]
pub enum TakeFault {
    /// The file at this place could not be opened or locked.
    Io(usize, io::Error),
    /// Another process has the file at this place.
    Busy(usize),
}

/// Why files are not replaced.
#[derive(Debug, Drop)]
pub enum ReplaceFault {
    /// One of them cannot be what all are to become, so nothing was done to any.
    SomeStay,
    /// A call of the system failed for the file at this place: nothing is done after it.
    Io(usize, io::Error),
}
