//! A log that is closed, and the one in which its node goes on.

ghost use Rattle.std.specs.Prelude.{◌≡◌, ℕ, ◌++◌, true, List, take, Option, IfErr, IfOk, OnOk};
ghost use Rattle.std.specs.Option.{option_copied};
ghost use Rattle.std.specs.List.{AllByRecursion};
ghost use Rattle.sha2.specs.Sha256.{sha256};
ghost use Rattle.world_setup.specs.Seen.{node_seen};
ghost use Rattle.claim_model.specs.Node as model;
ghost use Rattle.node_service.specs.Lines.{line_kept};
ghost use Rattle.node_service.specs.Serving.{after_line};
ghost use Rattle.node_state.specs.Resting.{is_down};
ghost use Rattle.log_turning.specs.declared.fault.TurnFault.TheVariants.{OutOfMemory};
ghost use Rattle.log_turning.specs.Unturned.{CanGoOn, IsUnclosed, IsUnended, IsUnserved, IsUnstarted, IsUnturned};
ghost use Rattle.log_turning.specs.Turned.{IsClosed, IsEnd, IsNew, IsStarted, IsTurned, Serves, ServesOn};

use crate::fault::TurnFault;
use kept_logs::{Reference, Rest, calls_before, write_rest};
use node_service::Service;
use payer_book::HashKeys;
use sha2::{Digest, Sha256};
use std::alloc::{AllocError, Global};
use world_setup::Node;

/// What is left of a log that turned over: how it ends, and how the one begins in which its node goes on (own).
#[derive(Drop)]
pub struct Turned {
    /// How many bytes of the log stay.
    pub kept: usize,
    /// What is to be appended after them: the records of a stop, where the node was up, and of a start.
    pub closing: Vec<u8>,
    /// What the new log begins with.
    pub rest: Vec<u8>,
    /// The new log: its head, and where the node was at rest, the record of a stop.
    pub log: Vec<u8>,
    /// How many calls were made before the new log.
    pub calls: u64,
}

/// Closes the log of a node, and begins the one in which it goes on. The node makes each call of the log that is closed, as at any
/// start; it is stopped there, where it was up, and started again, and the new log begins with the node that stands there. A node
/// that was at rest stops again as the first call of the new log. Neither log gets any other call.
///
/// # Errors
/// `Refused` where the node is not served from the log, as `Service::open` says; `NoRecord` where it has made more calls than 64 bits
/// count, or once stopped is no node of its settings.
#[tactic(auto, using(crate::proofs::Unturned::passed, crate::proofs::Unturned::unclosed_unturned))]
pub fn turn_log(
    alloc: Global,
    text: &[u8],
    node: Node,
    rest: Option<&[u8]>,
    bytes: &[u8],
) -> Result<Turned, TurnFault>
    ensures turned { IfOk result (λ turned.
        IsTurned text.now (node_seen node) (option_copied rest.entry) bytes.now turned) }
    ensures refused { IfErr result (λ why.
        IsUnturned text.now (node_seen node) (option_copied rest.entry) bytes.now why) }
{
    let Closed {
        kept,
        closing,
        calls,
        references,
        record,
        was_up,
    } = close_log(alloc, text, node, rest, bytes)?;
    let Some(calls) = calls_before(alloc, rest)?.checked_add(calls) else {
        return Err(TurnFault::NoRecord);
    };
    let digest = digest_of(front(bytes, kept), closing.as_slice());
    let begins = write_rest(
        alloc,
        &Rest {
            node,
            calls,
            closed: &digest,
            references,
            kept: record.as_slice(),
        },
    )?;
    let log = begun(alloc, text, node, begins.as_slice(), was_up)?;
    Ok(Turned {
        kept,
        closing,
        rest: begins,
        log,
        calls,
    })
}

/// A log that is closed.
#[derive(Drop)]
pub(crate) struct Closed {
    /// How many of its bytes stay.
    pub(crate) kept: usize,
    /// What is to be appended after them.
    pub(crate) closing: Vec<u8>,
    /// How many calls it has then.
    pub(crate) calls: u64,
    /// The references of the submissions of this log and of those before it.
    pub(crate) references: Vec<Reference>,
    /// The record that its node left at rest, from which it was started.
    pub(crate) record: Vec<u8>,
    /// Whether the node was up.
    pub(crate) was_up: bool,
}

/// Closes the log of a node.
#[tactic(auto, using(crate::proofs::Unturned::for_another, crate::proofs::Unturned::passed, crate::proofs::Unturned::unended_unclosed, crate::proofs::Unturned::unserved_unclosed))]
fn close_log(
    alloc: Global,
    text: &[u8],
    node: Node,
    rest: Option<&[u8]>,
    bytes: &[u8],
) -> Result<Closed, TurnFault>
    ensures closed { IfOk result (λ closed.
        IsClosed text.now (node_seen node) (option_copied rest.entry) bytes.now closed) }
    ensures refused { IfErr result (λ why.
        IsUnclosed text.now (node_seen node) (option_copied rest.entry) bytes.now why) }
{
    let (service, kept) = open(alloc, text, node, rest, bytes)?;
    end_log(alloc, service, kept)
}

/// Closes the log of the node that is served, of whose bytes this many stay.
pub(crate) fn end_log(alloc: Global, service: Service, kept: usize) -> Result<Closed, TurnFault>
    ensures closed { (text : List ℕ) (node : model.Node) (rest : Option (List ℕ)) (bytes : List ℕ)
        → Serves text node rest bytes kept service
        → IfOk result (λ closed. IsClosed text node rest bytes closed) }
    ensures refused { (text : List ℕ) (node : model.Node) (rest : Option (List ℕ)) (bytes : List ℕ)
        → Serves text node rest bytes kept service
        → IfErr result (λ why. IsUnended text node rest bytes why) }
{
    let mut service = service;
    let was_up = stop(alloc, &mut service)?;
    let record = start(alloc, &mut service)?;
    let closing = Vec::from_slice(alloc, service.records())?;
    Ok(Closed {
        kept,
        closing,
        calls: service.calls(),
        references: service.into_references(),
        record,
        was_up,
    })
}

/// The node that makes a log, and how many of its bytes stay.
#[tactic(auto, using(crate::proofs::Closing::is_served, crate::proofs::Unturned::refused_unserved))]
fn open(
    alloc: Global,
    text: &[u8],
    node: Node,
    rest: Option<&[u8]>,
    bytes: &[u8],
) -> Result<(Service, usize), TurnFault>
    ensures serves { IfOk result (λ opened.
        Serves text.now (node_seen node) (option_copied rest.entry) bytes.now opened.1 opened.0) }
    ensures refused { IfErr result (λ why.
        IsUnserved text.now (node_seen node) (option_copied rest.entry) bytes.now why) }
{
    match Service::open(alloc, &HashKeys::fixed(), text, node, rest, bytes) {
        Ok(opened) => Ok(opened),
        Err(fault) => Err(TurnFault::from(fault)),
    }
}

/// Does what a line asks of the node.
#[tactic(auto, using(crate::proofs::Lines::asked_on))]
fn ask(alloc: Global, service: &mut Service, line: &[u8]) -> Result<(), AllocError>
    ensures asked { OnOk result (service.new ≡ after_line service.old line.now) }
    ensures on { OnOk result (AllByRecursion IsEnd (line_kept service.old line.now)
        → ServesOn service.old service.new) }
{
    service.serve(alloc, line)
}

/// Stops the node where it is up, and says whether it was.
#[tactic(auto, using(crate::proofs::Lines::stop_ends, crate::proofs::Unturned::line_stops))]
fn stop(alloc: Global, service: &mut Service) -> Result<bool, AllocError>
    ensures on { OnOk result (ServesOn service.old service.new) }
    ensures down { OnOk result (is_down service.new.state ≡ true) }
{
    if service.record_at_rest().is_some() {
        return Ok(false);
    }
    ask(alloc, service, b"stop")?;
    Ok(true)
}

/// Starts the node, which is at rest, and gives the record that it left there.
#[tactic(auto, using(crate::proofs::Lines::line_starts, crate::proofs::Lines::start_ends))]
fn start(alloc: Global, service: &mut Service) -> Result<Vec<u8>, TurnFault>
    ensures on { OnOk result (ServesOn service.old service.new) }
    ensures started { IfOk result (λ kept. IsStarted service.new kept.items) }
    ensures refused { IfErr result (λ why. IsUnstarted service.old why) }
{
    let Some(record) = service.record_at_rest() else {
        return Err(TurnFault::NoRecord);
    };
    let kept = Vec::from_slice(alloc, record)?;
    ask(alloc, service, b"start")?;
    Ok(kept)
}

/// The log that begins with this rest; its node stops at once, where it does not stay up.
#[tactic(auto, using(crate::proofs::Unturned::goes_nowhere, crate::proofs::Unturned::passed))]
fn begun(
    alloc: Global,
    text: &[u8],
    node: Node,
    rest: &[u8],
    stays_up: bool,
) -> Result<Vec<u8>, TurnFault>
    ensures new { IfOk result (λ log. IsNew text.now (node_seen node) rest.now log.items) }
    ensures refused { CanGoOn text.now (node_seen node) rest.now → IfErr result (λ why. why ≡ OutOfMemory) }
{
    let (mut service, _) = open(alloc, text, node, Some(rest), b"")?;
    records_of(alloc, &mut service, stays_up)
}

/// The records of a new log; its node stops at once, where it does not stay up.
fn records_of(alloc: Global, service: &mut Service, stays_up: bool) -> Result<Vec<u8>, TurnFault>
    ensures on { OnOk result (ServesOn service.old service.new) }
    ensures records { IfOk result (λ records. records.items ≡ service.new.records) }
    ensures refused { IfErr result (λ why. why ≡ OutOfMemory) }
{
    if !stays_up {
        ask(alloc, service, b"stop")?;
    }
    Ok(Vec::from_slice(alloc, service.records())?)
}

/// The first bytes, this many where there are as many.
fn front(bytes: &[u8], count: usize) -> &[u8]
    ensures { result.now ≡ take count bytes.now }
{
    if count < bytes.len() {
        &bytes[..count]
    } else {
        bytes
    }
}

/// The SHA-256 digest of bytes and those after them.
fn digest_of(bytes: &[u8], more: &[u8]) -> [u8; 32]
    ensures { result ≡ sha256 (bytes.now ++ more.now) }
{
    let mut hasher = Sha256::new();
    hasher.update(bytes);
    hasher.update(more);
    hasher.finalize()
}
