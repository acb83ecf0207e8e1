//! Bytes that stand for themselves when they are printed, and runs of them, found and copied sixteen at a time.

ghost use Rattle.std.specs.Prelude.{◌≡◌, ◌+◌, ◌≤◌, ◌++◌, length, take, IsTrue};
ghost use Rattle.std.specs.List.{list_all, prefix_len};
ghost use Rattle.input_text.specs.Printing.{stands_for_itself};

use std::simd::prelude::*;

/// How many bytes are tested at once.
pub const LANES: usize = 16;

/// Copies the sixteen bytes at the front of a text to a place of `out`, and gives how many of them stand for themselves
/// before the first that does not.
#[inline(always)]
pub fn copy_run(out: &mut [u8], at: usize, text: &[u8]) -> usize
    requires long { 16 ≤ length text.now }
    requires room { at + 16 ≤ length out.old }
    ensures run { result ≡ prefix_len stands_for_itself (take 16 text.now) }
    ensures plain { IsTrue (list_all stands_for_itself (take result text.now)) }
    ensures within { result ≤ 16 }
    ensures copied { take (at + result) out.new ≡ take at out.old ++ take result text.now }
    ensures len { length out.new ≡ length out.old }
{
    let lanes = u8x16::from_slice(text);
    lanes.copy_to_slice(&mut out[at..]);
    plain_lanes(lanes)
}

/// How many of sixteen bytes stand for themselves, before the first that does not.
#[inline(always)]
fn plain_lanes(lanes: u8x16) -> usize
    ensures { result ≡ prefix_len stands_for_itself lanes }
{
    let stops = lanes.simd_lt(u8x16::splat(b' '))
        | lanes.simd_eq(u8x16::splat(b'\\'))
        | u8x16::splat(b'~').simd_lt(lanes);
    let mask = stops.to_bitmask();
    if mask == 0 {
        LANES
    } else {
        mask.trailing_zeros() as usize
    }
}

/// Whether a byte is printed as it is: it is a printable character of ASCII, but for the backslash.
pub fn stands_for_itself(byte: u8) -> bool
    ensures { result ≡ stands_for_itself byte }
{
    matches!(byte, 0x20..=0x7E) && byte != b'\\'
}
