//! Bytes that stand one after another.

ghost use Rattle.std.specs.Prelude.{◌≡◌, nat_lt, length, take, drop, true, false, [], Some, None, IfOk, MatchOption};
ghost use Rattle.node_handle.specs.Audits.{cut_at, IsCutInto};

use std::alloc::{AllocError, Global};

/// Bytes cut into pieces of these sizes, one after another; none where the sizes are not those of all bytes.
pub(crate) fn pieces_of(
    alloc: Global,
    bytes: &[u8],
    sizes: &[usize],
) -> Result<Option<Vec<Vec<u8>>>, AllocError>
    ensures { IfOk result (λ found. IsCutInto sizes.now bytes.now found) }
{
    let mut pieces = Vec::new(alloc);
    let mut rest = bytes;
    for size in sizes {
        let Some((one, more)) = cut(rest, *size) else {
            return Ok(None);
        };
        pieces.push(Vec::from_slice(alloc, one)?)?;
        rest = more;
    }
    Ok(all_of(pieces, rest))
}

/// The first bytes, this many, and what is after them; none where there are fewer.
fn cut(bytes: &[u8], size: usize) -> Option<(&[u8], &[u8])>
    ensures { MatchOption result (nat_lt (length bytes.now) size ≡ true)
        (λ parts. (nat_lt (length bytes.now) size ≡ false)
        × ((parts.0.now ≡ take size bytes.now) × (parts.1.now ≡ drop size bytes.now))) }
{
    if bytes.len() < size {
        return None;
    }
    Some(bytes.split_at(size))
}

/// The pieces, where no bytes are left.
fn all_of(pieces: Vec<Vec<u8>>, rest: &[u8]) -> Option<Vec<Vec<u8>>>
    ensures { MatchOption result (cut_at [] rest.now ≡ None) (λ all. (all ≡ pieces) × (cut_at [] rest.now ≡ Some [])) }
{
    match rest {
        [] => Some(pieces),
        [_, ..] => None,
    }
}
