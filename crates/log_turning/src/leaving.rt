//! Whether logs that go on one after another begin with what their node left.

ghost use Rattle.std.specs.Prelude.{◌≡◌, ◌≢◌, ◌⊎◌, ◌↔◌, ℕ, List, Option, Some, None, map, IfErr, IfOk, IfSome, IsSome, IsTrue, OnOk};
ghost use Rattle.std.specs.Option.{option_copied, option_map};
ghost use Rattle.kept_logs.specs.Rests.{FitsRest, calls_before, rest_text};
ghost use Rattle.claim_model.specs.Node as model;
ghost use Rattle.world_setup.specs.Seen.{node_seen};
ghost use Rattle.log_turning.specs.Joined.{part_seen};
ghost use Rattle.log_turning.specs.Left.{AreLeft, GoesBehind, GoesElsewhere, IsLeft, IsLeftBy, IsNotLeft, IsOther, IsUnleft, IsUnmade, rest_of};
ghost use Rattle.log_turning.specs.Turned.{IsClosed, Serves};

use crate::fault::{RestFault, TurnFault};
use crate::joining::Part;
use crate::turning::{Closed, end_log};
use kept_logs::{Rest, calls_before, write_rest};
use node_service::{Service, ServiceFault};
use payer_book::HashKeys;
use sha2::{Digest, Sha256};
use std::alloc::{AllocError, Global};
use world_setup::Node;

/// Whether each of the logs of a node, which go on one after another, begins with what the node left after the one before it: byte
/// for byte. A log that its node does not make leaves nothing that is compared.
///
/// # Errors
/// `Other` with the place of the first that does not.
pub fn check_rests(
    alloc: Global,
    text: &[u8],
    node: Node,
    parts: &[Part<'_>],
) -> Result<(), RestFault>
    ensures left { OnOk result (AreLeft text.now (node_seen node) None (map part_seen parts.now)) }
    ensures refused { IfErr result (λ why. IsUnleft text.now (node_seen node) (map part_seen parts.now) why) }
{
    let mut last: Option<Part<'_>> = None;
    for (place, part) in parts.iter().enumerate() {
        if !is_left(alloc, text, node, last, part)? {
            return Err(RestFault::Other(place));
        }
        last = Some(*part);
    }
    Ok(())
}

/// Whether a log begins with what the node left after the one before it, where there is one.
fn is_left(
    alloc: Global,
    text: &[u8],
    node: Node,
    last: Option<Part<'_>>,
    part: &Part<'_>,
) -> Result<bool, AllocError>
    ensures yes { IfOk result (λ yes. IsTrue yes
        → IsLeft text.now (node_seen node) (option_map part_seen last.entry) (part_seen part.now)) }
    ensures no { IfOk result (λ yes. IsTrue yes
        ⊎ IsNotLeft text.now (node_seen node) (option_map part_seen last.entry) (part_seen part.now)) }
{
    match last {
        None => Ok(true),
        Some(closed) => goes_behind(alloc, text, node, &closed, part.rest),
    }
}

/// Whether a log that begins so goes on after a closed one.
fn goes_behind(
    alloc: Global,
    text: &[u8],
    node: Node,
    closed: &Part<'_>,
    rest: Option<&[u8]>,
) -> Result<bool, AllocError>
    ensures yes { IfOk result (λ yes. IsTrue yes
        → GoesBehind text.now (node_seen node) (part_seen closed.now) (option_copied rest.entry)) }
    ensures no { IfOk result (λ yes. IsTrue yes
        ⊎ GoesElsewhere text.now (node_seen node) (part_seen closed.now) (option_copied rest.entry)) }
{
    match rest {
        None => Ok(true),
        Some(rest) => is_left_by(alloc, text, node, closed, rest),
    }
}

/// Whether a rest is what the node of a closed log leaves, where it makes that log.
fn is_left_by(
    alloc: Global,
    text: &[u8],
    node: Node,
    closed: &Part<'_>,
    rest: &[u8],
) -> Result<bool, AllocError>
    ensures yes { IfOk result (λ yes. IsTrue yes
        → (IsUnmade text.now (node_seen node) (part_seen closed.now)
        ⊎ IsLeftBy text.now (node_seen node) (part_seen closed.now) rest.now)) }
    ensures no { IfOk result (λ yes. IsTrue yes
        ⊎ IsOther text.now (node_seen node) (part_seen closed.now) rest.now) }
{
    match left_by(alloc, text, node, closed)? {
        None => Ok(true),
        Some(left) => is_same(alloc, node, closed.log, left, rest),
    }
}

/// What the node of a closed log leaves, which is stopped and started there; `None` where it does not make that log.
fn left_by(
    alloc: Global,
    text: &[u8],
    node: Node,
    closed: &Part<'_>,
) -> Result<Option<Closed>, AllocError>
    ensures left { IfOk result (λ found. IfSome found (λ left.
        IsClosed text.now (node_seen node) (part_seen closed.now).rest (part_seen closed.now).log left)) }
    ensures none { IfOk result (λ found. found ≡ None → IsUnmade text.now (node_seen node) (part_seen closed.now)) }
{
    match Service::open(
        alloc,
        &HashKeys::fixed(),
        text,
        node,
        closed.rest,
        closed.log,
    ) {
        Ok((service, kept)) => ended(alloc, service, kept),
        Err(ServiceFault::OutOfMemory) => Err(AllocError),
        Err(_) => Ok(None),
    }
}

/// The closed log of a node that is served.
fn ended(alloc: Global, service: Service, kept: usize) -> Result<Option<Closed>, AllocError>
    ensures closed { (text : List ℕ) (node : model.Node) (rest : Option (List ℕ)) (bytes : List ℕ)
        → Serves text node rest bytes kept service
        → IfOk result (λ found. IfSome found (λ closed. IsClosed text node rest bytes closed)) }
    ensures some { IfOk result (λ found. IsSome found) }
{
    match end_log(alloc, service, kept) {
        Ok(closed) => Ok(Some(closed)),
        Err(TurnFault::OutOfMemory | TurnFault::Refused(_) | TurnFault::NoRecord) => Err(
            AllocError,
        ),
    }
}

/// Whether a rest is what was left behind a closed log.
fn is_same(
    alloc: Global,
    node: Node,
    log: &[u8],
    left: Closed,
    rest: &[u8],
) -> Result<bool, AllocError>
    ensures same { IfOk result (λ same. IsTrue same
        → rest.now ≡ rest_text (rest_of (node_seen node) (calls_before (Some rest.now)) log.now
        left.references.items left.record.items)) }
    ensures fits { IfOk result (λ _.
        FitsRest (rest_of (node_seen node) (calls_before (Some rest.now)) log.now left.references.items left.record.items)) }
    ensures other { IfOk result (λ same. IsTrue same
        ⊎ (rest.now ≢ rest_text (rest_of (node_seen node) (calls_before (Some rest.now)) log.now
        left.references.items left.record.items))) }
{
    let calls = calls_before(alloc, Some(rest))?;
    let text = text_of(alloc, node, calls, log, left)?;
    Ok(is_equal(text.as_slice(), rest))
}

/// Whether bytes are the same.
fn is_equal(one: &[u8], other: &[u8]) -> bool
    ensures { IsTrue result ↔ (other.now ≡ one.now) }
{
    other == one
}

/// The rest that was left behind a closed log, after this many calls.
fn text_of(
    alloc: Global,
    node: Node,
    calls: u64,
    log: &[u8],
    left: Closed,
) -> Result<Vec<u8>, AllocError>
    ensures text { IfOk result (λ text. text.items
        ≡ rest_text (rest_of (node_seen node) calls log.now left.references.items left.record.items)) }
    ensures fits { IfOk result (λ _.
        FitsRest (rest_of (node_seen node) calls log.now left.references.items left.record.items)) }
{
    let Closed {
        references,
        record,
        ..
    } = left;
    let closed = Sha256::digest(log);
    write_rest(
        alloc,
        &Rest {
            node,
            calls,
            closed: &closed,
            references,
            kept: record.as_slice(),
        },
    )
}
