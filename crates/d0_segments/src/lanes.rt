//! Sixteen bytes at once.

ghost use Rattle.std.specs.Prelude.{◌≡◌, ◌≤◌, map, length, IfSome};
ghost use Rattle.std.specs.Simd.Lanes.{mask_l};
ghost use Rattle.d0_segments.specs.Separators.{is_separator, plain_length};

use crate::separator::{FIELD_SEPARATOR, is_separator, separator_in};
use crate::tail::behind;
use std::simd::prelude::*;

/// How many bytes are tested at once.
const LANES: usize = 16;

/// How many bytes stand in front of the next separator or the end.
#[inline(always)]
#[tactic(auto, using(crate::proofs::Marks::near, crate::proofs::Marks::far, crate::proofs::Marks::within))]
pub fn plain_length(bytes: &[u8]) -> usize
    ensures length { result ≡ plain_length bytes.now }
    ensures within { result ≤ length bytes.now }
{
    if bytes.len() < LANES {
        return plain_length_of_few(bytes);
    }
    let found = separators(u8x16::from_slice(bytes));
    if found != 0 {
        return found.trailing_zeros() as usize;
    }
    LANES + plain_length_of_many(behind(bytes, LANES))
}

/// The lanes that are separators, a bit each.
#[inline(always)]
#[tactic(auto, using(crate::proofs::Marks::mask_is))]
fn separators(lanes: u8x16) -> u64
    ensures { result ≡ mask_l (map is_separator lanes) }
{
    // The three separators are neighbours: less the first they are 0, 1 and 2.
    (lanes - u8x16::splat(FIELD_SEPARATOR))
        .simd_lt(u8x16::splat(3))
        .to_bitmask()
}

/// The same for a few bytes.
#[inline(always)]
fn plain_length_of_few(bytes: &[u8]) -> usize
    ensures { result ≡ plain_length bytes.now }
{
    let mut place = 0;
    while place < bytes.len() && !is_separator(bytes[place]) {
        place += 1;
    }
    place
}

/// The same for bytes whose next separator is not near. It is looked for near by once more, since an authorization has
/// sixteen digits.
#[inline(never)]
#[tactic(auto, using(crate::proofs::Marks::from_place, crate::proofs::Marks::from_none))]
fn plain_length_of_many(bytes: &[u8]) -> usize
    ensures { result ≡ plain_length bytes.now }
{
    if let Some(place) = near_separator(bytes) {
        return place;
    }
    match separator_in(bytes) {
        Some(place) => place,
        None => bytes.len(),
    }
}

/// How many bytes stand in front of the next separator, where it is one of the next sixteen.
#[inline(always)]
#[tactic(auto, using(crate::proofs::Marks::near))]
fn near_separator(bytes: &[u8]) -> Option<usize>
    ensures { IfSome result (λ place. place ≡ plain_length bytes.now) }
{
    if bytes.len() < LANES {
        return None;
    }
    let found = separators(u8x16::from_slice(bytes));
    if found == 0 {
        return None;
    }
    Some(found.trailing_zeros() as usize)
}
