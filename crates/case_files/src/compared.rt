//! What is printed of a row that differs.

use std::alloc::AllocError;

/// Where a row stands.
#[derive(Clone, Copy)]
pub(crate) struct Place<'a> {
    pub(crate) file: &'a str,
    pub(crate) line: usize,
}

/// Appends `FILE:LINE: TEXT: BYTES` as a line.
pub(crate) fn put_place(
    out: &mut String,
    place: Place<'_>,
    text: &str,
    bytes: &[u8],
) -> Result<(), AllocError> {
    let file = place.file;
    let line = place.line;
    let shown = std::str::from_utf8(bytes).unwrap_or("bytes that are no text");
    writeln!(out, "{file}:{line}: {text}: {shown}")
}
