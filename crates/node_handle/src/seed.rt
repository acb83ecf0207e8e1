//! The keys of a node's maps, from bytes that the caller has drawn.

use payer_book::HashKeys;
use std::io;
use std::random::RandomSource;

/// Bytes of the caller, as a source of random ones.
#[derive(Drop)]
struct Given<'a> {
    bytes: &'a [u8],
}

impl RandomSource for Given<'_> {
    fn fill_bytes(&self, buffer: &mut [u8]) -> io::Result<()> {
        let count = buffer.len().min(self.bytes.len());
        buffer[..count].copy_from_slice(&self.bytes[..count]);
        Ok(())
    }
}

/// The keys that sixteen bytes give; of fewer the same in each process.
pub(crate) fn keys_of(seed: &[u8]) -> HashKeys {
    match HashKeys::random(&Given { bytes: seed }) {
        Ok(keys) => keys,
        Err(_) => HashKeys::fixed(),
    }
}
