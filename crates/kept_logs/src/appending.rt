//! The records of a log after those of another one.

ghost use Rattle.std.specs.Prelude.{◌≡◌, ◌≢◌, ◌+◌, ◌++◌, Err, IfOk, IfErr, OnOk};
ghost use Rattle.kept_logs.specs.declared.fault.LogFault.TheVariants.{OutOfMemory};
ghost use Rattle.kept_logs.specs.Appending.{AreAppended, IsAppended};
ghost use Rattle.kept_logs.specs.Digests.{version_seen};
ghost use Rattle.kept_logs.specs.Frames.{frame_text};
ghost use Rattle.kept_logs.specs.Logs.{log_in, records_in};
ghost use Rattle.kept_logs.specs.LogSeen.{entry_seen};
ghost use Rattle.kept_logs.specs.Stamps.{stamped_text};

use crate::digest::SettingsDigest;
use crate::fault::LogFault;
use crate::heads::take_head;
use crate::logs::{record_bytes, take_record};
use crate::records::Entry;
use crate::version::LogVersion;
use node_log::Record;
use std::alloc::{AllocError, Global};
use world_setup::Node;

/// A log whose records were appended to another one's.
#[derive(Clone, Copy)]
pub struct Appended {
    /// Whose log it is.
    pub node: Node,
    /// How many records were appended.
    pub calls: u64,
    /// How many bytes they take where they were read, with the head.
    pub whole: usize,
}

/// Appends the records of a log under settings of this digest to the text of a log of version 2, numbered after this many, with all
/// that was noted of their calls.
///
/// # Errors
/// As of [`read_log`](crate::read_log). The text may have some of the records then.
#[tactic(auto, unfolding(crate::specs::Logs::log_in, crate::specs::Logs::kept_in))]
pub fn append_records(
    alloc: Global,
    digest: &SettingsDigest,
    bytes: &[u8],
    before: u64,
    text: &mut Vec<u8>,
) -> Result<Appended, LogFault>
    ensures ok { IfOk result (λ a. IsAppended digest.now bytes.now before text.old.items text.new.items a) }
    ensures fault { IfErr result (λ e. e ≢ OutOfMemory → log_in digest.now bytes.now ≡ Err e) }
{
    let (node, records) = take_head(digest, bytes)?;
    let (calls, torn) = append_calls(alloc, digest.version(), before, bytes.len(), records, text)?;
    let whole = bytes.len().saturating_sub(torn);
    Ok(Appended { node, calls, whole })
}

/// Appends the records of a log of this version that these bytes are; how many they are, and how many bytes the torn end has.
fn append_calls(
    alloc: Global,
    version: LogVersion,
    before: u64,
    total: usize,
    bytes: &[u8],
    text: &mut Vec<u8>,
) -> Result<(u64, usize), LogFault>
    ensures ok { IfOk result (λ r.
        AreAppended (version_seen version) before total bytes.now text.old.items text.new.items r.0 r.1) }
    ensures fault { IfErr result (λ e. e ≢ OutOfMemory → records_in (version_seen version) total bytes.now ≡ Err e) }
{
    let mut rest = bytes;
    for place in 0..bytes.len() {
        let start = total.saturating_sub(rest.len());
        let Some((entry, after)) = take_record(alloc, version, place as u64 + 1, start, rest)?
        else {
            return Ok((place as u64, rest.len()));
        };
        append_entry(alloc, before, place as u64, entry, text)?;
        rest = after;
    }
    Ok((bytes.len() as u64, rest.len()))
}

/// Appends a record, numbered after this many and this many more.
fn append_entry(
    alloc: Global,
    before: u64,
    more: u64,
    entry: Entry<'_>,
    text: &mut Vec<u8>,
) -> Result<(), AllocError>
    ensures { OnOk result (text.new.items
        ≡ text.old.items ++ frame_text 2 (before + 1 + more) (stamped_text (entry_seen entry.entry))) }
{
    let Some(number) = before
        .checked_add(1)
        .and_then(|first| first.checked_add(more))
    else {
        return Err(AllocError);
    };
    let Entry { call, sent, stamp } = entry;
    let bytes = record_bytes(
        alloc,
        LogVersion::Second,
        number,
        &Record::new(call, sent),
        &stamp,
    )?;
    text.extend_from_slice(&bytes)
}
