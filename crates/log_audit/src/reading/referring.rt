//! Whether what callers call their submissions is as nodes keep it that keep the rules.

ghost use Rattle.std.specs.Prelude.{◌≡◌, ◌++◌, None, [], IfOk, IfErr, OnOk};
ghost use Rattle.std.specs.Option.{option_copied};
ghost use Rattle.std.specs.BTreeSet.{keys};
ghost use Rattle.world_setup.specs.Seen.{call_seen};
ghost use Rattle.kept_logs.specs.Logs.{kept_in};
ghost use Rattle.kept_logs.specs.Rests.{references_before};
ghost use Rattle.log_audit.specs.Given.{given_of, turned_given};
ghost use Rattle.log_audit.specs.Names.{IsMisnamed, fault_of, first_misnamed, is_submission, misnamed_in, misnamed_log, uses_before, uses_from};
ghost use Rattle.log_audit.specs.NamesSeen.{Finds, first_sorted, known_in, noted_in};

use crate::fault::{AuditFault, ReferenceFault};
use crate::reading::{GivenLog, bytes_in};
use kept_logs::{KeptRecord, LogFault, Reference, SettingsDigest, read_kept, read_rest};
use octets::Octets;
use settings_digest::Digests;
use std::alloc::{AllocError, Global};
use std::collections::BTreeSet;
use world_setup::Call;

/// The most bytes of a reference: a node refuses a line with a longer one.
const MOST: usize = 64;

/// A call whose reference is wrong, by its number in its log, from 1, or 0 where it is before the log; and what is wrong.
#[derive(Clone, Copy)]
pub(crate) struct Misnamed {
    pub(crate) call: u64,
    pub(crate) fault: ReferenceFault,
}

/// The same in the log at this place among those handed in.
#[derive(Clone, Copy)]
pub(crate) struct MisnamedLog {
    pub(crate) place: usize,
    pub(crate) call: u64,
    pub(crate) fault: ReferenceFault,
}

/// Refuses logs where a reference is wrong in one.
pub(crate) fn check_references(
    alloc: Global,
    digests: &Digests,
    logs: &[GivenLog],
) -> Result<(), AuditFault>
    ensures kept { OnOk result (misnamed_log (turned_given digests.now) (given_of logs.now) ≡ None) }
    ensures refused { IfErr result (λ why.
        IsMisnamed (misnamed_log (turned_given digests.now) (given_of logs.now)) why) }
{
    unless_misnamed(misnamed_among(alloc, digests, logs)?)
}

/// Refuses what was found.
fn unless_misnamed(found: Option<MisnamedLog>) -> Result<(), AuditFault>
    ensures kept { OnOk result (found ≡ None) }
    ensures refused { IfErr result (λ why. IsMisnamed found why) }
{
    match found {
        None => Ok(()),
        Some(it) => Err(AuditFault::Reference {
            place: it.place,
            call: it.call,
            fault: it.fault,
        }),
    }
}

/// The first log in which a reference is wrong.
fn misnamed_among(
    alloc: Global,
    digests: &Digests,
    logs: &[GivenLog],
) -> Result<Option<MisnamedLog>, AllocError>
    ensures { IfOk result (λ found. found ≡ misnamed_log (turned_given digests.now) (given_of logs.now)) }
{
    for (place, given) in logs.iter().enumerate() {
        let rest = bytes_in(&given.rest);
        let bytes = given.log.as_slice();
        if let Some(it) = misnamed_in(alloc, rest, &digests.turned(rest, bytes), bytes)? {
            return Ok(Some(at_place(place, it)));
        }
    }
    Ok(None)
}

/// What was found in the log at a place.
fn at_place(place: usize, it: Misnamed) -> MisnamedLog
    ensures { result ≡ record { place = place; call = it.call; fault = it.fault } }
{
    MisnamedLog {
        place,
        call: it.call,
        fault: it.fault,
    }
}

/// The first call of a log, or before it, whose reference is wrong; none where the bytes are no log.
fn misnamed_in(
    alloc: Global,
    rest: Option<&[u8]>,
    digest: &SettingsDigest,
    bytes: &[u8],
) -> Result<Option<Misnamed>, AllocError>
    ensures { IfOk result (λ found. found ≡ misnamed_in (option_copied rest.entry) (kept_in digest.now bytes.now)) }
{
    match read_kept(alloc, digest, bytes) {
        Ok(log) => misnamed_behind(alloc, rest, log.calls.as_slice()),
        Err(LogFault::OutOfMemory) => Err(AllocError),
        Err(_) => Ok(None),
    }
}

/// The first of these calls, or before them, whose reference is wrong.
#[tactic(auto, using(crate::proofs::Lookups::before_found))]
fn misnamed_behind(
    alloc: Global,
    rest: Option<&[u8]>,
    calls: &[KeptRecord],
) -> Result<Option<Misnamed>, AllocError>
    ensures { IfOk result (λ found. found ≡ first_misnamed []
        (uses_before (references_before (option_copied rest.entry)) ++ uses_from 1 calls.now)) }
{
    let mut known = BTreeSet::new(alloc);
    let references = references_in(alloc, rest)?;
    if let Some(it) = misnamed_before(alloc, &mut known, references.as_slice())? {
        return Ok(Some(it));
    }
    misnamed_call(alloc, &mut known, calls)
}

/// The references before a log that begins so.
fn references_in(alloc: Global, rest: Option<&[u8]>) -> Result<Vec<Reference>, AllocError>
    ensures { IfOk result (λ references. references.items ≡ references_before (option_copied rest.entry)) }
{
    let Some(rest) = rest else {
        return Ok(Vec::new(alloc));
    };
    match read_rest(alloc, rest)? {
        Some(read) => Ok(read.references),
        None => Ok(Vec::new(alloc)),
    }
}

/// Whether one of the references before a log is wrong; all are noted up to there.
fn misnamed_before(
    alloc: Global,
    known: &mut BTreeSet<Octets>,
    references: &[Reference],
) -> Result<Option<Misnamed>, AllocError>
    ensures { IfOk result (Finds known.old.keys known.new.keys (uses_before references.now)) }
{
    for one in references {
        if let Some(fault) = note(alloc, known, true, one.name())? {
            return Ok(Some(Misnamed { call: 0, fault }));
        }
    }
    Ok(None)
}

/// The first of these calls whose reference is wrong, after those that are known.
fn misnamed_call(
    alloc: Global,
    known: &mut BTreeSet<Octets>,
    calls: &[KeptRecord],
) -> Result<Option<Misnamed>, AllocError>
    ensures { IfOk result (λ found. found ≡ first_sorted known.old.keys (uses_from 1 calls.now)) }
{
    for (place, one) in calls.iter().enumerate() {
        let submits = is_submission(one.record().call());
        if let Some(fault) = note(alloc, known, submits, one.reference())? {
            return Ok(Some(Misnamed {
                call: place as u64 + 1,
                fault,
            }));
        }
    }
    Ok(None)
}

/// What is wrong with a reference; it is known then, where nothing is.
fn note(
    alloc: Global,
    known: &mut BTreeSet<Octets>,
    submits: bool,
    name: &[u8],
) -> Result<Option<ReferenceFault>, AllocError>
    ensures fault { IfOk result (λ fault. fault ≡ fault_of (known_in name.now known.old.keys) submits name.now) }
    ensures noted { IfOk result (λ fault. fault ≡ None → known.new.keys ≡ noted_in name.now known.old.keys) }
{
    if name.is_empty() {
        return Ok(None);
    }
    if !submits {
        return Ok(Some(ReferenceFault::NoSubmission));
    }
    if name.len() > MOST {
        return Ok(Some(ReferenceFault::TooLong));
    }
    if known.insert(Octets::copy_of(alloc, name)?)? {
        Ok(None)
    } else {
        Ok(Some(ReferenceFault::Reused))
    }
}

/// Whether a call is a submission.
fn is_submission(call: &Call) -> bool
    ensures { result ≡ is_submission (call_seen call.now) }
{
    match call {
        Call::Submit(_) => true,
        Call::Tick
        | Call::Take { .. }
        | Call::Stop
        | Call::Start
        | Call::Plan { .. }
        | Call::Terms { .. }
        | Call::Retry { .. }
        | Call::Cap { .. }
        | Call::Adjudicate { .. } => false,
    }
}
