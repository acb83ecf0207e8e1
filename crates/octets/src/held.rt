//! How a byte string is held in memory.

use std::sync::Arc;

/// Bytes of one owner, or the end of bytes that several own.
#[derive(Debug, Drop)]
pub(crate) enum Held {
    /// Bytes that nothing else owns.
    Alone(Vec<u8>),
    /// Bytes that others may own too, from this place on.
    Shared(Arc<Vec<u8>>, usize),
}
