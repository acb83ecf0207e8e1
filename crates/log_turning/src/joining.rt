//! Logs that go on one after another, joined as if none had been closed.

ghost use Rattle.std.specs.Prelude.{◌≡◌, ◌≢◌, ◌⊎◌, ◌↔◌, ◌++◌, ℕ, List, IfErr, IfOk, IsTrue, OnOk, map, replicate};
ghost use Rattle.std.specs.Option.{option_copied};
ghost use Rattle.world_setup.specs.Seen.{node_seen};
ghost use Rattle.kept_logs.specs.RestSeen.{rest_seen};
ghost use Rattle.kept_logs.specs.declared.fault.LogFault.TheVariants as LogFault;
ghost use Rattle.settings_digest.specs.Digests.{AreOf, turned_in};
ghost use Rattle.log_turning.specs.declared.fault.JoinFault.TheVariants as JoinFault;
ghost use Rattle.log_turning.specs.Joined.{GoesOn, IsEndOf, IsJoined, IsPartBehind, Names, are_these, part_seen};
ghost use Rattle.log_turning.specs.Unjoined.{IsNoPart, IsUnjoined, SpellsNone};

use crate::fault::JoinFault;
use kept_logs::{
    LogFault, Rest, SettingsDigest, append_records, calls_before, read_rest, write_log,
};
use node_log::{NodeLog, is_same_node};
use settings_digest::Digests;
use sha2::{Digest, Sha256};
use std::alloc::{AllocError, Global};
use world_settings::{SettingsFault, read_living_settings};
use world_setup::Node;

/// One of the logs of a node: what it begins with, where it goes on after closed ones, and its bytes.
#[derive(Clone, Copy)]
pub struct Part<'a> {
    /// The rest that it begins with.
    pub rest: Option<&'a [u8]>,
    /// The log.
    pub log: &'a [u8],
}

/// The logs of a node, in the order in which it made them, as one log, which begins as the first of them does: with this rest, or as
/// the settings open the node. Each but the first begins with a rest that names the digest of the one before it, and how many calls
/// there were. Where the last one ends with a record that was cut off, or with zeros, as many zeros stand at the end.
///
/// # Errors
/// `Settings`, or of the first log that is refused why.
pub fn join_logs(
    alloc: Global,
    text: &[u8],
    node: Node,
    begins: Option<&[u8]>,
    parts: &[Part<'_>],
) -> Result<Vec<u8>, JoinFault>
    ensures joined { IfOk result (λ joined. IsJoined text.now (node_seen node) (option_copied begins.entry)
        (map part_seen parts.now) joined.items) }
    // The cause is true, and those before it do not stand.
    ensures refused { IfErr result (λ why. IsUnjoined text.now (node_seen node) (option_copied begins.entry)
        (map part_seen parts.now) why) }
{
    let digests = digests_of(alloc, text)?;
    let digest = digest_behind(&digests, begins);
    let before = calls_before(alloc, begins)?;
    let mut joined = write_log(alloc, &digest, &NodeLog::new(alloc, node))?;
    let mut calls: u64 = 0;
    let mut last: Option<&[u8]> = None;
    let mut left: usize = 0;
    for (place, part) in parts.iter().enumerate() {
        let Some(all) = before.checked_add(calls) else {
            return Err(JoinFault::OutOfMemory);
        };
        if !goes_on(alloc, node, begins, all, last, part)? {
            return Err(JoinFault::NotNext(place));
        }
        (calls, left) = append_part(alloc, &digests, node, part, place, calls, &mut joined)?;
        last = Some(part.log);
    }
    put_zeros(alloc, &mut joined, left)?;
    Ok(joined)
}

/// The digests of the settings that a text spells.
fn digests_of(alloc: Global, text: &[u8]) -> Result<Digests, JoinFault>
    ensures of { IfOk result (λ digests. AreOf text.now digests) }
    ensures refused { IfErr result (λ why. SpellsNone text.now why) }
{
    match read_living_settings(alloc, text) {
        Ok(settings) => Ok(Digests::of(alloc, &settings, text)?),
        Err(SettingsFault::OutOfMemory) => Err(JoinFault::OutOfMemory),
        Err(SettingsFault::Settings) => Err(JoinFault::Settings),
    }
}

/// The digest under which a log is written that begins so.
fn digest_behind(digests: &Digests, begins: Option<&[u8]>) -> SettingsDigest
    ensures { (text : List ℕ) → AreOf text digests.now → result ≡ turned_in text (option_copied begins.entry) }
{
    match begins {
        None => digests.said,
        Some(rest) => digests.said.behind(rest),
    }
}

/// Whether a log goes on after this many calls of a node, of which the last stand in these bytes: the first begins as all of them do,
/// and each later one with a rest that names the calls, and the digest of those bytes.
fn goes_on(
    alloc: Global,
    node: Node,
    begins: Option<&[u8]>,
    calls: u64,
    last: Option<&[u8]>,
    part: &Part<'_>,
) -> Result<bool, AllocError>
    ensures yes { IfOk result (λ yes. IsTrue yes
        → GoesOn (node_seen node) (option_copied begins.entry) calls (option_copied last.entry) (part_seen part.now)) }
    ensures no { IfOk result (λ yes.
        GoesOn (node_seen node) (option_copied begins.entry) calls (option_copied last.entry) (part_seen part.now)
        → IsTrue yes) }
{
    match last {
        None => Ok(is_same_rest(part.rest, begins)),
        Some(closed) => match part.rest {
            Some(rest) => names(alloc, node, calls, closed, rest),
            None => Ok(false),
        },
    }
}

/// Whether a log begins with the same rest, or with none as well.
fn is_same_rest(rest: Option<&[u8]>, begins: Option<&[u8]>) -> bool
    ensures { IsTrue result ↔ (option_copied rest.entry ≡ option_copied begins.entry) }
{
    match rest {
        None => begins.is_none(),
        Some(rest) => match begins {
            Some(begins) => rest == begins,
            None => false,
        },
    }
}

/// Whether a rest names these calls of the node, of which the last stand in these bytes.
fn names(
    alloc: Global,
    node: Node,
    calls: u64,
    closed: &[u8],
    rest: &[u8],
) -> Result<bool, AllocError>
    ensures yes { IfOk result (λ yes. IsTrue yes → Names (node_seen node) calls closed.now rest.now) }
    ensures no { IfOk result (λ yes. Names (node_seen node) calls closed.now rest.now → IsTrue yes) }
{
    match read_rest(alloc, rest)? {
        Some(rest) => Ok(are_these(node, calls, closed, &rest)),
        None => Ok(false),
    }
}

/// Whether what a log begins with is of these calls of the node, of which the last stand in these bytes.
fn are_these(node: Node, calls: u64, closed: &[u8], rest: &Rest<'_>) -> bool
    ensures { result ≡ are_these (node_seen node) calls closed.now (rest_seen rest.now) }
{
    is_same_node(rest.node, node)
        && rest.calls == calls
        && rest.closed == Sha256::digest(closed).as_slice()
}

/// Appends this many zeros.
fn put_zeros(alloc: Global, text: &mut Vec<u8>, count: usize) -> Result<(), AllocError>
    ensures { OnOk result (text.new.items ≡ text.old.items ++ replicate count 0) }
{
    let zeros = Vec::from_elem(alloc, 0u8, count)?;
    text.extend_from_slice(zeros.as_slice())
}

/// Appends the records of a part, where it is a log of this node, after this many; and says how many there are then, and how many bytes
/// stand after them in the part.
#[tactic(auto, using(settings_digest::proofs::Keeping::turned_at, crate::proofs::Parts::end_is, crate::proofs::Parts::no_part_by))]
fn append_part(
    alloc: Global,
    digests: &Digests,
    node: Node,
    part: &Part<'_>,
    place: usize,
    before: u64,
    joined: &mut Vec<u8>,
) -> Result<(u64, usize), JoinFault>
    ensures appended { (text : List ℕ) → AreOf text digests.now → IfOk result (λ r.
        IsPartBehind text (node_seen node) (part_seen part.now) before joined.old.items joined.new.items r.0) }
    ensures ends { (text : List ℕ) → AreOf text digests.now → IfOk result (λ r. IsEndOf text (part_seen part.now) r.1) }
    ensures refused { (text : List ℕ) → AreOf text digests.now → IfErr result (λ why.
        IsNoPart text (node_seen node) (part_seen part.now) place why) }
{
    let digest = digests.turned(part.rest, part.log);
    match append_records(alloc, &digest, part.log, before, joined) {
        Ok(appended) => {
            if !is_same_node(appended.node, node) {
                return Err(JoinFault::OtherNode(place));
            }
            match before.checked_add(appended.calls) {
                Some(calls) => Ok((calls, part.log.len().saturating_sub(appended.whole))),
                None => Err(JoinFault::OutOfMemory),
            }
        }
        Err(fault) => Err(fault_at(place, fault)),
    }
}

/// Why logs are not joined of which the one at this place is none by this fault.
fn fault_at(place: usize, fault: LogFault) -> JoinFault
    ensures { (result ≡ JoinFault.OutOfMemory) ⊎ ((fault ≢ LogFault.OutOfMemory) × (result ≡ JoinFault.Log place fault)) }
{
    match fault {
        LogFault::OutOfMemory => JoinFault::OutOfMemory,
        fault => JoinFault::Log(place, fault),
    }
}
