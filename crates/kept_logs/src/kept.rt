//! Logs that are read with what was noted of their calls.

ghost use Rattle.std.specs.Prelude.{◌≡◌, ◌≢◌, Ok, Err, IfOk, IfErr};
ghost use Rattle.kept_logs.specs.declared.fault.LogFault.TheVariants.{OutOfMemory};
ghost use Rattle.kept_logs.specs.Digests.{version_seen};
ghost use Rattle.kept_logs.specs.Logs.{kept_in, records_in};
ghost use Rattle.kept_logs.specs.LogSeen.{AreRead, entry_seen, kept_seen};

use crate::digest::SettingsDigest;
use crate::fault::LogFault;
use crate::heads::take_head;
use crate::logs::take_record;
use crate::records::Entry;
use crate::version::LogVersion;
use node_log::Record;
use octets::Octets;
use std::alloc::{AllocError, Global};
use std::marker::Model;
use world_setup::Node;

/// An accepted call with what it sent, and what was noted of it (own).
#[derive(Drop)]
pub struct KeptRecord {
    record: Record,
    time: u64,
    reference: Octets,
}

impl Model for KeptRecord {
    ghost use Rattle.kept_logs.specs.Stamps as model;

    ghost Value = { model.Stamped };

    ghost view = { λ r. record { logged = r.record; stamp = record { time = r.time; reference = r.reference } } };
}

impl KeptRecord {
    /// The call, and what it sent.
    pub fn record(&self) -> &Record
        ensures { result.now ≡ self.now.logged }
    {
        &self.record
    }

    /// When it was made: milliseconds, as the host counts them; 0 where it did not say.
    pub fn time(&self) -> u64
        ensures { result ≡ self.now.stamp.time }
    {
        self.time
    }

    /// What the caller calls it; no byte where it has no name.
    pub fn reference(&self) -> &[u8]
        ensures { result.now ≡ self.now.stamp.reference }
    {
        self.reference.as_slice()
    }
}

/// A log that was read with what was noted of its calls.
#[derive(Drop)]
pub struct KeptLog {
    /// Whose log it is.
    pub node: Node,
    /// The records that stand whole in the bytes.
    pub calls: Vec<KeptRecord>,
    /// How many bytes these take, with the head.
    pub whole: usize,
}

/// Reads the log under settings of this digest that begins the bytes, with what was noted of its calls, up to a record that is cut
/// off.
///
/// # Errors
/// As of [`read_log`](crate::read_log).
#[tactic(auto, unfolding(crate::specs::Logs::kept_in))]
pub fn read_kept(alloc: Global, digest: &SettingsDigest, bytes: &[u8]) -> Result<KeptLog, LogFault>
    ensures ok { IfOk result (λ read. kept_in digest.now bytes.now ≡ Ok (kept_seen read)) }
    ensures fault { IfErr result (λ e. e ≢ OutOfMemory → kept_in digest.now bytes.now ≡ Err e) }
{
    let (node, records) = take_head(digest, bytes)?;
    let (calls, torn) = read_records(alloc, digest.version(), bytes.len(), records)?;
    let whole = bytes.len().saturating_sub(torn);
    Ok(KeptLog { node, calls, whole })
}

/// The records of a log of this version that these bytes are, and how many bytes the torn end has.
fn read_records(
    alloc: Global,
    version: LogVersion,
    total: usize,
    bytes: &[u8],
) -> Result<(Vec<KeptRecord>, usize), LogFault>
    ensures ok { IfOk result (λ read.
        AreRead (records_in (version_seen version) total bytes.now) read.0.items read.1) }
    ensures fault { IfErr result (λ e. e ≢ OutOfMemory → records_in (version_seen version) total bytes.now ≡ Err e) }
{
    let mut calls = Vec::new(alloc);
    let mut rest = bytes;
    for place in 0..bytes.len() {
        let start = total.saturating_sub(rest.len());
        let Some((entry, after)) = take_record(alloc, version, place as u64 + 1, start, rest)?
        else {
            return Ok((calls, rest.len()));
        };
        calls.push(kept_of(alloc, entry)?)?;
        rest = after;
    }
    Ok((calls, rest.len()))
}

/// What was read of a record, in memory of its own.
fn kept_of(alloc: Global, entry: Entry<'_>) -> Result<KeptRecord, AllocError>
    ensures { IfOk result (λ kept. kept ≡ entry_seen entry.entry) }
{
    let Entry { call, sent, stamp } = entry;
    let reference = Octets::copy_of(alloc, stamp.reference)?;
    Ok(KeptRecord {
        record: Record::new(call, sent),
        time: stamp.time,
        reference,
    })
}
