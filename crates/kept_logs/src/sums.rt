//! The eight bytes that vouch for a record.

ghost use Rattle.std.specs.Prelude.{◌≡◌};
ghost use Rattle.kept_logs.specs.Digests.{version_seen};
ghost use Rattle.kept_logs.specs.Frames.{check_of, first_check, second_check};

use crate::version::LogVersion;
use sha2::{Digest, Sha256};
use std::hash::{DefaultHasher, Hasher};

/// The eight bytes that vouch for a body under a number in a log of this version. They find damage; a record that was changed
/// together with them is found where the node makes its calls anew.
#[tactic(auto, unfolding(crate::specs::Frames::check_of))]
pub(crate) fn check_of(version: LogVersion, number: u64, body: &[u8]) -> [u8; 8]
    ensures { result ≡ check_of (version_seen version) number body.now }
{
    match version {
        LogVersion::First => first_check(number, body),
        LogVersion::Second => second_check(number, body),
    }
}

/// Those of version 1: the first of the SHA-256 digest of the number and the body.
#[tactic(auto, unfolding(crate::specs::Frames::first_check))]
fn first_check(number: u64, body: &[u8]) -> [u8; 8]
    ensures { result ≡ first_check number body.now }
{
    let mut hasher = Sha256::new();
    hasher.update(&number.to_be_bytes());
    hasher.update(body);
    let d = hasher.finalize();
    [d[0], d[1], d[2], d[3], d[4], d[5], d[6], d[7]]
}

/// Those of version 2: SipHash-1-3 of the number and the body, with both keys 0.
#[tactic(auto, unfolding(crate::specs::Frames::second_check))]
fn second_check(number: u64, body: &[u8]) -> [u8; 8]
    ensures { result ≡ second_check number body.now }
{
    let mut hasher = DefaultHasher::new();
    hasher.write(&number.to_be_bytes());
    hasher.write(body);
    hasher.finish().to_be_bytes()
}
