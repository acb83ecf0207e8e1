//! Bytes before and after a place, and the number that they spell.

ghost use Rattle.std.specs.Prelude.{◌≡◌, take, drop};
ghost use Rattle.message_parts.specs.Numbers.{number_in};

/// The first this many bytes, or all where there are fewer.
pub fn front_of(bytes: &[u8], count: usize) -> &[u8]
    ensures { result.now ≡ take count bytes.now }
{
    &bytes[..count.min(bytes.len())]
}

/// The bytes after this many; none where there are no more.
pub fn behind(bytes: &[u8], count: usize) -> &[u8]
    ensures { result.now ≡ drop count bytes.now }
{
    &bytes[count.min(bytes.len())..]
}

/// The number that this many bytes from a place on spell, their high byte first; of those that are there.
pub fn number_at(bytes: &[u8], place: usize, size: usize) -> u64
    ensures { result ≡ number_in (take size (drop place bytes.now)) }
{
    number_of(front_of(behind(bytes, place), size))
}

/// The number that bytes spell, their high byte first. Of more than eight bytes the last eight count.
#[tactic(auto, unfolding(crate::specs::Numbers::number_in))]
pub fn number_of(bytes: &[u8]) -> u64
    ensures { result ≡ number_in bytes.now }
{
    let mut number = 0u64;
    for byte in bytes {
        number = number.wrapping_mul(256).wrapping_add(u64::from(*byte));
    }
    number
}
