//! Logs as they are written and read.

ghost use Rattle.std.specs.Prelude.{◌≡◌, ◌≢◌, ◌≤◌, ◌+◌, ◌-◌, ◌++◌, ℕ, List, length, map, take, Ok, Err, IfOk, IfErr, OnOk};
ghost use Rattle.std.specs.List.{AllByRecursion};
ghost use Rattle.std.specs.Option.{option_map};
ghost use Rattle.world_setup.specs.Seen.{node_seen};
ghost use Rattle.node_log.specs.LogSeen.{log_seen};
ghost use Rattle.kept_logs.specs.declared.fault.LogFault.TheVariants.{OutOfMemory};
ghost use Rattle.kept_logs.specs.Stamps.{Stamped, plain, plain_log, stamped_in, stamped_text};
ghost use Rattle.kept_logs.specs.Digests.{version_seen};
ghost use Rattle.kept_logs.specs.Frames.{frame_text};
ghost use Rattle.kept_logs.specs.Logs.{calls_text, kept_text, read_record, record_in, records_in, kept_in, log_in, KeptAs, KeptReading};
ghost use Rattle.kept_logs.specs.Cuts.{IsOfLog, first_calls};
ghost use Rattle.kept_logs.specs.LogSeen.{entry_seen, reading_seen, stamp_seen, CallsAre};
ghost use Rattle.kept_logs.specs.Fits.{FitsStamped, FitsKept};

use crate::digest::SettingsDigest;
use crate::fault::LogFault;
use crate::frames::{Frame, frame_of, take_frame};
use crate::heads::{put_head, take_head};
use crate::laws::{log_is_its_text, log_reads_back};
use crate::records::{Entry, body_of, entry_of};
use crate::stamps::Stamp;
use crate::version::LogVersion;
use node_log::{NodeLog, Record};
use std::alloc::{AllocError, Global};
use world_setup::Node;

/// A log that was read.
#[derive(Drop)]
pub struct ReadLog {
    /// The log: the calls whose records stand whole in the bytes.
    pub log: NodeLog,
    /// How many bytes these take, with the head. What stands after them is the beginning of a record that is cut
    /// off; a host that goes on cuts its file there first.
    pub whole: usize,
}

/// The text of a log under settings of this digest, of whose calls nothing was noted.
pub fn write_log(
    alloc: Global,
    settings: &SettingsDigest,
    log: &NodeLog,
) -> Result<Vec<u8>, AllocError>
    ensures text { IfOk result (λ text. text.items ≡ kept_text settings.now (plain_log (log_seen log.now))) }
    ensures fits { IfOk result (λ _. FitsKept (plain_log (log_seen log.now))) }
    // It is read as this log.
    ensures read { IfOk result (λ text. KeptAs settings.now text.items (plain_log (log_seen log.now))) }
{
    log_reads_back();
    let _ = settings.as_slice();
    put_log(alloc, settings, log)
}

/// Writes the text of a log.
fn put_log(alloc: Global, settings: &SettingsDigest, log: &NodeLog) -> Result<Vec<u8>, AllocError>
    ensures text { IfOk result (λ text. text.items ≡ kept_text settings.now (plain_log (log_seen log.now))) }
    ensures fits { IfOk result (λ _. FitsKept (plain_log (log_seen log.now))) }
{
    let mut text = Vec::new(alloc);
    put_head(alloc, &mut text, settings, log.node())?;
    put_records(alloc, &mut text, settings.version(), log.records())?;
    Ok(text)
}

/// Puts the records of a log of this version, numbered from 1.
fn put_records(
    alloc: Global,
    text: &mut Vec<u8>,
    version: LogVersion,
    records: &[Record],
) -> Result<(), AllocError>
    ensures text { OnOk result (text.new.items
        ≡ text.old.items ++ calls_text (version_seen version) 1 (map plain records.now)) }
    ensures fits { OnOk result (AllByRecursion FitsStamped (map plain records.now)) }
{
    for (place, one) in records.iter().enumerate() {
        let bytes = record_bytes(alloc, version, place as u64 + 1, one, &Stamp::none())?;
        text.extend_from_slice(&bytes)?;
    }
    Ok(())
}

/// The place in a log's bytes, from 0, of the record after the first this many calls.
pub fn place_of(settings: &SettingsDigest, bytes: &[u8], count: usize) -> usize
    ensures { (read : KeptReading) → kept_in settings.now bytes.now ≡ Ok read → count ≤ length read.log.calls
        → result ≡ length (kept_text settings.now (first_calls count read.log)) }
{
    log_is_its_text();
    let _ = settings.as_slice();
    match take_head(settings, bytes) {
        Ok((_, records)) => behind_calls(settings.version(), bytes.len(), records, count),
        Err(_) => 0,
    }
}

/// The place after the first this many records of a log of this version, where its records begin this many bytes before the end of
/// all.
fn behind_calls(version: LogVersion, total: usize, records: &[u8], count: usize) -> usize
    ensures { (calls : List Stamped) (torn : List ℕ)
        → records.now ≡ calls_text (version_seen version) 1 calls ++ torn → count ≤ length calls
        → AllByRecursion FitsStamped calls → length records.now ≤ total
        → result ≡ (total - length records.now) + length (calls_text (version_seen version) 1 (take count calls)) }
{
    let mut rest = records;
    for place in 0..count {
        let Frame::Whole(_, after) = take_frame(version, place as u64 + 1, rest) else {
            return total.saturating_sub(rest.len());
        };
        rest = after;
    }
    total.saturating_sub(rest.len())
}

/// What a host appends to the text of a log of this version for the call that is the next one, of this number from 1, and of which
/// this was noted.
pub fn record_bytes(
    alloc: Global,
    version: LogVersion,
    number: u64,
    one: &Record,
    stamp: &Stamp<'_>,
) -> Result<Vec<u8>, AllocError>
    ensures text { IfOk result (λ bytes. bytes.items ≡ frame_text (version_seen version) number
        (stamped_text (record { logged = one.now; stamp = stamp_seen stamp.now }))) }
    ensures fits { IfOk result (λ _. FitsStamped (record { logged = one.now; stamp = stamp_seen stamp.now })) }
{
    let body = body_of(alloc, one, stamp)?;
    frame_of(alloc, version, number, &body)
}

/// Reads the log under settings of this digest that begins the bytes, up to a record that is cut off.
///
/// # Errors
/// The first cause that stands: of the head in the order of `LogFault`; then `Damaged` or `BadRecord` for the first
/// record that is whole and is not the next one as it was written, or cut off and not how one begins. `OutOfMemory` may
/// stand in place of any answer.
pub fn read_log(alloc: Global, settings: &SettingsDigest, bytes: &[u8]) -> Result<ReadLog, LogFault>
    ensures ok { IfOk result (λ read. log_in settings.now bytes.now ≡ Ok (reading_seen read)) }
    ensures fault { IfErr result (λ e. e ≢ OutOfMemory → log_in settings.now bytes.now ≡ Err e) }
    // What is read is the text of what it is read as, and after it how a record begins.
    ensures found { IfOk result (λ read. IsOfLog settings.now bytes.now (reading_seen read)) }
{
    log_is_its_text();
    let _ = settings.as_slice();
    read_parts(alloc, settings, bytes)
}

/// Reads the head and the records of a log.
#[tactic(auto, unfolding(crate::specs::Logs::log_in, crate::specs::Logs::kept_in))]
fn read_parts(alloc: Global, settings: &SettingsDigest, bytes: &[u8]) -> Result<ReadLog, LogFault>
    ensures ok { IfOk result (λ read. log_in settings.now bytes.now ≡ Ok (reading_seen read)) }
    ensures fault { IfErr result (λ e. e ≢ OutOfMemory → log_in settings.now bytes.now ≡ Err e) }
{
    let (node, rest) = take_head(settings, bytes)?;
    let (log, torn) = read_calls(alloc, settings.version(), node, bytes.len(), rest)?;
    let whole = bytes.len().saturating_sub(torn);
    Ok(ReadLog { log, whole })
}

/// The log of a node whose records these bytes of a log of this version are, and how many bytes its torn end has.
fn read_calls(
    alloc: Global,
    version: LogVersion,
    node: Node,
    total: usize,
    bytes: &[u8],
) -> Result<(NodeLog, usize), LogFault>
    ensures ok { IfOk result (λ read.
        CallsAre (records_in (version_seen version) total bytes.now) (log_seen read.0) (node_seen node) read.1) }
    ensures fault { IfErr result (λ e. e ≢ OutOfMemory → records_in (version_seen version) total bytes.now ≡ Err e) }
{
    let mut log = NodeLog::new(alloc, node);
    let mut rest = bytes;
    for place in 0..bytes.len() {
        let number = place as u64 + 1;
        let start = total.saturating_sub(rest.len());
        let Some((entry, after)) = take_record(alloc, version, number, start, rest)? else {
            return Ok((log, rest.len()));
        };
        log.reserve()?;
        log.record(entry.call, entry.sent);
        rest = after;
    }
    Ok((log, rest.len()))
}

/// The record of this number at this place of a log of this version, and what follows it; none where it is cut off.
#[tactic(auto, unfolding(crate::specs::Logs::record_in))]
pub(crate) fn take_record(
    alloc: Global,
    version: LogVersion,
    number: u64,
    start: usize,
    bytes: &[u8],
) -> Result<Option<(Entry<'_>, &[u8])>, LogFault>
    ensures ok { IfOk result (λ o.
        record_in (version_seen version) number start bytes.now
        ≡ Ok (option_map (λ taken. (entry_seen taken.0, taken.1.now)) o)) }
    ensures fault { IfErr result (λ e. e ≢ OutOfMemory → record_in (version_seen version) number start bytes.now ≡ Err e) }
{
    match take_frame(version, number, bytes) {
        Frame::Whole(body, after) => take_entry(alloc, start, body, after),
        Frame::CutOff => Ok(None),
        Frame::Damaged => Err(LogFault::Damaged(start)),
    }
}

/// The call of the record at this place with this body, and what follows it.
fn take_entry<'a>(
    alloc: Global,
    start: usize,
    body: &'a [u8],
    after: &'a [u8],
) -> Result<Option<(Entry<'a>, &'a [u8])>, LogFault>
    ensures ok { IfOk result (λ o. read_record start after.now (stamped_in body.now)
        ≡ Ok (option_map (λ taken. (entry_seen taken.0, taken.1.now)) o)) }
    ensures fault { IfErr result (λ e. e ≢ OutOfMemory → read_record start after.now (stamped_in body.now) ≡ Err e) }
{
    match entry_of(alloc, body)? {
        Some(entry) => Ok(Some((entry, after))),
        None => Err(LogFault::BadRecord(start)),
    }
}
