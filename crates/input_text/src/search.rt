//! The place of a byte.

ghost use Rattle.std.specs.Prelude.{◌≡◌, ◌==◌, ◌<◌, length, position, IfSome};

/// The place of the first byte of this value.
#[tactic(auto, using(crate::proofs::Runs::found_is_position))]
pub fn place_of(byte: u8, bytes: &[u8]) -> Option<usize>
    ensures first { result ≡ position (λ b. b == byte) bytes.now }
    ensures bound { IfSome result (λ place. place < length bytes.now) }
{
    memchr::memchr(byte, bytes)
}
