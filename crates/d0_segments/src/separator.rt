//! The three separators, and the search for the next one.

ghost use Rattle.std.specs.Prelude.{◌≡◌, ◌<◌, ◌+◌, ◌++◌, true, IfSome, length};
ghost use Rattle.d0_segments.specs.Separators.{is_separator, ends_here, begins_with, is_plain, first_separator};

use crate::lanes::plain_length;
use memchr::memchr3;

/// Stands in front of every field (hexadecimal 1C).
pub const FIELD_SEPARATOR: u8 = 0x1c;

/// Stands in front of every group, the segments of one transaction (hexadecimal 1D).
pub const GROUP_SEPARATOR: u8 = 0x1d;

/// Stands in front of every segment (hexadecimal 1E).
pub const SEGMENT_SEPARATOR: u8 = 0x1e;

/// Whether a byte is one of the three separators.
#[inline(always)]
pub fn is_separator(byte: u8) -> bool
    ensures { result ≡ is_separator byte }
{
    matches!(byte, FIELD_SEPARATOR | GROUP_SEPARATOR | SEGMENT_SEPARATOR)
}

/// Whether the bytes begin with this one.
#[inline(always)]
pub fn begins_with(bytes: &[u8], byte: u8) -> bool
    ensures { result ≡ begins_with byte bytes.now }
{
    match bytes {
        [] => false,
        [next, ..] => *next == byte,
    }
}

/// Whether nothing stands in front of the next separator or the end.
#[inline(always)]
pub fn is_at_end(bytes: &[u8]) -> bool
    ensures { result ≡ ends_here bytes.now }
{
    match bytes {
        [] => true,
        [next, ..] => is_separator(*next),
    }
}

/// The place of the first separator.
pub fn separator_in(bytes: &[u8]) -> Option<usize>
    ensures place { result ≡ first_separator bytes.now }
    ensures within { IfSome result (λ place. place < length bytes.now) }
{
    memchr3(FIELD_SEPARATOR, GROUP_SEPARATOR, SEGMENT_SEPARATOR, bytes)
}

/// The bytes in front of the next separator or the end, and those from there on.
#[inline(always)]
#[tactic(auto, using(crate::proofs::Marks::plain_front, crate::proofs::Marks::ends_back))]
pub fn split(bytes: &[u8]) -> (&[u8], &[u8])
    ensures plain { is_plain result.0.now ≡ true }
    ensures ends { ends_here result.1.now ≡ true }
    ensures parts { bytes.now ≡ result.0.now ++ result.1.now }
    ensures front { result.0.ref_ptr ≡ bytes.entry.ref_ptr }
    ensures back { result.1.ref_ptr ≡ (bytes.entry.ref_ptr.0, bytes.entry.ref_ptr.1 + length result.0.now) }
{
    let place = plain_length(bytes);
    (&bytes[..place], &bytes[place..])
}
