//! Records that stand undamaged in the bytes of a log: before the place of a damage, and what is still there behind it.

ghost use Rattle.std.specs.Prelude.{◌≡◌, ◌<◌, ◌≤◌, ℕ, List, drop, false, length, MatchOption, None, Some, IfOk};
ghost use Rattle.kept_logs.specs.Digests.{version_in, version_seen};
ghost use Rattle.kept_logs.specs.Frames.{largest};
ghost use Rattle.log_folder.specs.Undamaged.{AreRuns, BeginsAt, IsCountBefore, IsNext, IsRun, NoneAt, NoneBetween, behind_record, head_size};

use codec::take_u64;
use kept_logs::{LogVersion, behind_record};
use std::alloc::{AllocError, Global};

/// How many bytes the head of a log has.
const HEAD: usize = 46;

/// How many bytes a record has at least.
const LEAST_RECORD: usize = 25;

/// How many records more than there is room for may be lacking between two that stand.
const LACKING: u64 = 16;

/// Records of consecutive numbers that stand undamaged one after another.
#[derive(Clone, Copy, Debug, PartialEq, Eq)]
pub struct Run {
    /// The number of the first one.
    pub first: u64,
    /// The number of the last one.
    pub last: u64,
    /// Where the first one begins.
    pub from: usize,
    /// Where the last one ends.
    pub to: usize,
}

/// How many records stand one after another behind the head of a log and begin before a place.
pub fn records_before(bytes: &[u8], place: usize) -> u64
    ensures count { IsCountBefore (version_in bytes.now) bytes.now place result }
    ensures number { result < largest }
{
    let version = LogVersion::of(bytes);
    let mut left = behind_head(bytes);
    for passed in 0..bytes.len() {
        if bytes.len() - left.len() >= place {
            return passed as u64;
        }
        match behind_record(version, passed as u64 + 1, left) {
            Some(after) => left = after,
            None => return passed as u64,
        }
    }
    bytes.len() as u64
}

/// What stands behind the head of a log.
fn behind_head(bytes: &[u8]) -> &[u8]
    ensures { result.now ≡ drop head_size bytes.now }
{
    if bytes.len() < HEAD {
        return &[];
    }
    &bytes[HEAD..]
}

/// All runs of undamaged records in the bytes of a log from a place on, where the record of a number is wanted.
pub fn runs_from(
    alloc: Global,
    bytes: &[u8],
    place: usize,
    number: u64,
) -> Result<Vec<Run>, AllocError>
    ensures { IfOk result (λ runs. AreRuns (version_in bytes.now) bytes.now number place runs.items) }
{
    let version = LogVersion::of(bytes);
    let mut runs = Vec::new(alloc);
    let mut behind = place;
    let mut wanted = number;
    while let Some(run) = next_run(version, bytes, wanted, behind) {
        runs.push(run)?;
        behind = run.to;
        wanted = run.last + 1;
    }
    Ok(runs)
}

/// The first run from a place on, where the record of a number is wanted.
fn next_run(version: LogVersion, bytes: &[u8], wanted: u64, behind: usize) -> Option<Run>
    ensures { MatchOption result
        (NoneBetween (version_seen version) bytes.now wanted behind (length bytes.now))
        (λ run. IsNext (version_seen version) bytes.now wanted behind run) }
{
    for at in behind..bytes.len() {
        if let Some(run) = run_at(version, bytes, wanted, at - behind, at) {
            return Some(run);
        }
    }
    None
}

/// The run that begins at a place, where the record of a number is wanted and this many bytes before it are no undamaged records.
fn run_at(version: LogVersion, bytes: &[u8], wanted: u64, passed: usize, at: usize) -> Option<Run>
    requires { at < length bytes.now }
    ensures { MatchOption result
        (NoneAt (version_seen version) bytes.now wanted passed at)
        (λ run. BeginsAt (version_seen version) bytes.now wanted passed at run) }
{
    let rest = &bytes[at..];
    if !has_length(rest) {
        return None;
    }
    let most = (passed / LEAST_RECORD) as u64;
    let end = wanted.saturating_add(most).saturating_add(LACKING + 1);
    for number in wanted..end {
        if let Some(after) = behind_record(version, number, rest) {
            return Some(run_behind(version, bytes, number, at, after));
        }
    }
    None
}

/// The run whose first record is this one, at this place, and which goes on after it.
fn run_behind(version: LogVersion, bytes: &[u8], first: u64, from: usize, after: &[u8]) -> Run
    requires stands { behind_record (version_seen version) first (drop from bytes.now) ≡ Some after.now }
    requires number { first < largest }
    requires within { from < length bytes.now }
    ensures first { result.first ≡ first }
    ensures from { result.from ≡ from }
    ensures is { IsRun (version_seen version) bytes.now result }
{
    let mut left = after;
    for number in first + 1..u64::MAX {
        match behind_record(version, number, left) {
            Some(after) => left = after,
            None => {
                let (last, to) = (number - 1, bytes.len() - left.len());
                return Run {
                    first,
                    last,
                    from,
                    to,
                };
            }
        }
    }
    Run {
        first,
        last: u64::MAX - 1,
        from,
        to: bytes.len() - left.len(),
    }
}

/// Whether bytes begin with a length, and then the same taken from the largest one, as a record does.
fn has_length(bytes: &[u8]) -> bool
    ensures { result ≡ false → (version number : ℕ) → behind_record version number bytes.now ≡ None }
{
    let Some((size, rest)) = take_u64(bytes) else {
        return false;
    };
    let Some((complement, _)) = take_u64(rest) else {
        return false;
    };
    complement == u64::MAX - size
}
