//! What a route may look at in requests, and the last request of each.

ghost use Rattle.std.specs.Prelude.{◌≡◌, IfOk, OnOk, unwrap_or};
ghost use Rattle.rejected_rows.specs.Keys.{is_among, keys_in, last_of, same_key, with_key};

use bin_routes::RouteKey;
use std::alloc::{AllocError, Global};

/// The keys of these requests, each once, in the order in which they come first.
pub(crate) fn keys_of(
    alloc: Global,
    rejected: &[(u64, RouteKey)],
) -> Result<Vec<RouteKey>, AllocError>
    ensures { IfOk result (λ keys. keys.items ≡ keys_in rejected.now) }
{
    let mut keys = Vec::new(alloc);
    for (_, key) in rejected {
        put_key(&mut keys, key)?;
    }
    Ok(keys)
}

/// Adds a key, where it is none of these.
fn put_key(keys: &mut Vec<RouteKey>, key: &RouteKey) -> Result<(), AllocError>
    ensures { OnOk result (keys.new.items ≡ with_key keys.old.items key.now) }
{
    if !has_key(keys.as_slice(), key) {
        keys.push(*key)?;
    }
    Ok(())
}

/// Whether a key is one of these.
fn has_key(keys: &[RouteKey], key: &RouteKey) -> bool
    ensures { result ≡ is_among keys.now key.now }
{
    keys.iter().any(|other| is_same(other, key))
}

/// The number of the last request of a key.
pub(crate) fn last_of(rejected: &[(u64, RouteKey)], key: &RouteKey) -> u64
    ensures { result ≡ unwrap_or (last_of key.now rejected.now) 0 }
{
    let mut last = 0;
    for (number, other) in rejected {
        if is_same(other, key) {
            last = *number;
        }
    }
    last
}

/// Whether two keys are the same.
fn is_same(key: &RouteKey, other: &RouteKey) -> bool
    ensures { result ≡ same_key key.now other.now }
{
    (key.bin == other.bin && key.pcn == other.pcn)
        && (key.qualifier == other.qualifier && key.provider == other.provider)
}
