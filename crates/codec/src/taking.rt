//! Numbers and bytes, taken from the front of bytes.

ghost use Rattle.std.specs.Prelude.{◌≡◌};
ghost use Rattle.std.specs.Option.{option_map};
ghost use Rattle.codec.specs.Fields.{bytes_at, u8_at, u16_at, u32_at, u64_at};
ghost use Rattle.codec.specs.Codecs.{text};

/// A number of one byte and what follows it; none where there is no byte.
#[tactic(auto, unfolding(crate::specs::Fields::u8_at))]
pub fn take_u8(bytes: &[u8]) -> Option<(u8, &[u8])>
    ensures { option_map (λ taken. (taken.0, taken.1.now)) result ≡ u8_at bytes.now }
{
    if bytes.is_empty() {
        return None;
    }
    Some((bytes[0], &bytes[1..]))
}

/// A number of two bytes and what follows it; none where it is cut off.
#[tactic(auto, unfolding(crate::specs::Fields::u16_at))]
pub fn take_u16(bytes: &[u8]) -> Option<(u16, &[u8])>
    ensures { option_map (λ taken. (taken.0, taken.1.now)) result ≡ u16_at bytes.now }
{
    if bytes.len() < 2 {
        return None;
    }
    let number = u16::from_be_bytes([bytes[0], bytes[1]]);
    Some((number, &bytes[2..]))
}

/// A number of four bytes and what follows it; none where it is cut off.
#[tactic(auto, unfolding(crate::specs::Fields::u32_at))]
pub fn take_u32(bytes: &[u8]) -> Option<(u32, &[u8])>
    ensures { option_map (λ taken. (taken.0, taken.1.now)) result ≡ u32_at bytes.now }
{
    if bytes.len() < 4 {
        return None;
    }
    let number = u32::from_be_bytes([bytes[0], bytes[1], bytes[2], bytes[3]]);
    Some((number, &bytes[4..]))
}

/// A number of eight bytes and what follows it; none where it is cut off.
#[tactic(auto, unfolding(crate::specs::Fields::u64_at))]
pub fn take_u64(bytes: &[u8]) -> Option<(u64, &[u8])>
    ensures { option_map (λ taken. (taken.0, taken.1.now)) result ≡ u64_at bytes.now }
{
    if bytes.len() < 8 {
        return None;
    }
    let number = u64::from_be_bytes([
        bytes[0], bytes[1], bytes[2], bytes[3], bytes[4], bytes[5], bytes[6], bytes[7],
    ]);
    Some((number, &bytes[8..]))
}

/// The first this many bytes and what follows them; none where there are fewer.
#[tactic(auto, unfolding(crate::specs::Fields::bytes_at))]
pub fn take_bytes(count: u64, bytes: &[u8]) -> Option<(&[u8], &[u8])>
    ensures { option_map (λ taken. (taken.0.now, taken.1.now)) result ≡ bytes_at count bytes.now }
{
    if (bytes.len() as u64) < count {
        return None;
    }
    let count = count as usize;
    Some((&bytes[..count], &bytes[count..]))
}

/// A text after its length of eight bytes, and what follows it; none where it is cut off.
pub fn take_text(bytes: &[u8]) -> Option<(&[u8], &[u8])>
    ensures { option_map (λ taken. (taken.0.now, taken.1.now)) result ≡ text.at bytes.now }
{
    let (count, rest) = take_u64(bytes)?;
    take_bytes(count, rest)
}
