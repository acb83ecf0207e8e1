//! The nodes with which logs begin.

ghost use Rattle.std.specs.Prelude.{◌≡◌, length, IfOk, IsSome};
ghost use Rattle.std.specs.Option.{option_copied, option_map};
ghost use Rattle.claim_model.specs.Settings.{opening};
ghost use Rattle.claim_model.specs.Nodes.{node_at};
ghost use Rattle.world_setup.specs.Seen.{node_seen, settings_seen};
ghost use Rattle.node_state.specs.Any.{any_seen};
ghost use Rattle.node_log.specs.LogSeen.{logs_seen};
ghost use Rattle.kept_logs.specs.Rests.{begins};
ghost use Rattle.days_audit.specs.Begun.{begins_at, rest_at};
ghost use Rattle.days_audit.specs.Lines.{AllBegin, BegunPayer, BegunPayers, BegunPharmacies, BegunPharmacy, NodeBegun, is_payer, is_pharmacy};

use crate::live::Live;
use crate::naming::place_of;
use kept_logs::{Beginning, begins};
use node_log::{NodeLog, is_there};
use node_state::{NodeState, PayerNode, PharmacyNode, StateKind};
use std::alloc::{AllocError, Global};
use world_setup::{CheckedSettings, Node};

impl Live {
    /// All pharmacies and payers of these settings as their logs begin with them. None where one of them has no log, or cannot
    /// begin so.
    pub(crate) fn begin(
        alloc: Global,
        settings: &CheckedSettings,
        rests: &[Option<Vec<u8>>],
        logs: &[NodeLog],
    ) -> Result<Option<Live>, AllocError>
        ensures { IfOk result (λ live. AllBegin (begins_at settings.now rests.now) (logs_seen logs.now)
            (length settings.now.pharmacies.items) (length settings.now.payers.items) live) }
    {
        let Some(pharmacies) = begin_pharmacies(alloc, settings, rests, logs)? else {
            return Ok(None);
        };
        let Some(payers) = begin_payers(alloc, settings, rests, logs)? else {
            return Ok(None);
        };
        Ok(Some(Live { pharmacies, payers }))
    }
}

/// All pharmacies.
#[tactic(auto, using(crate::proofs::Begins::pharmacies_more))]
fn begin_pharmacies(
    alloc: Global,
    settings: &CheckedSettings,
    rests: &[Option<Vec<u8>>],
    logs: &[NodeLog],
) -> Result<Option<Vec<PharmacyNode>>, AllocError>
    ensures { IfOk result (λ nodes. BegunPharmacies (begins_at settings.now rests.now) (logs_seen logs.now)
        (length settings.now.pharmacies.items) (length settings.now.payers.items) nodes) }
{
    let count = settings.settings().pharmacies.len() as u16;
    let mut nodes = Vec::new(alloc);
    for passed in 0..count {
        match begin_pharmacy(alloc, settings, rests, logs, passed + 1)? {
            Some(node) => nodes.push(node)?,
            None => return Ok(None),
        }
    }
    Ok(Some(nodes))
}

/// All payers.
#[tactic(auto, using(crate::proofs::Begins::payers_more))]
fn begin_payers(
    alloc: Global,
    settings: &CheckedSettings,
    rests: &[Option<Vec<u8>>],
    logs: &[NodeLog],
) -> Result<Option<Vec<PayerNode>>, AllocError>
    ensures { IfOk result (λ nodes. BegunPayers (begins_at settings.now rests.now) (logs_seen logs.now)
        (length settings.now.pharmacies.items) (length settings.now.payers.items) nodes) }
{
    let count = settings.settings().payers.len() as u16;
    let mut nodes = Vec::new(alloc);
    for passed in 0..count {
        match begin_payer(alloc, settings, rests, logs, passed + 1)? {
            Some(node) => nodes.push(node)?,
            None => return Ok(None),
        }
    }
    Ok(Some(nodes))
}

/// A pharmacy.
#[tactic(auto, using(crate::proofs::Begins::pharmacy_found))]
fn begin_pharmacy(
    alloc: Global,
    settings: &CheckedSettings,
    rests: &[Option<Vec<u8>>],
    logs: &[NodeLog],
    number: u16,
) -> Result<Option<PharmacyNode>, AllocError>
    ensures { IfOk result (λ node. BegunPharmacy (begins_at settings.now rests.now) (logs_seen logs.now) number node) }
{
    match begin_node(alloc, settings, rests, logs, Node::Pharmacy(number))? {
        Some(node) => Ok(pharmacy_in(node.into_kind())),
        None => Ok(None),
    }
}

/// A payer.
#[tactic(auto, using(crate::proofs::Begins::payer_found))]
fn begin_payer(
    alloc: Global,
    settings: &CheckedSettings,
    rests: &[Option<Vec<u8>>],
    logs: &[NodeLog],
    number: u16,
) -> Result<Option<PayerNode>, AllocError>
    ensures { IfOk result (λ node. BegunPayer (begins_at settings.now rests.now) (logs_seen logs.now) number node) }
{
    match begin_node(alloc, settings, rests, logs, Node::Payer(number))? {
        Some(node) => Ok(payer_in(node.into_kind())),
        None => Ok(None),
    }
}

/// A node.
#[tactic(auto, using(crate::proofs::Begins::first_begun))]
fn begin_node(
    alloc: Global,
    settings: &CheckedSettings,
    rests: &[Option<Vec<u8>>],
    logs: &[NodeLog],
    node: Node,
) -> Result<Option<NodeState>, AllocError>
    ensures { IfOk result (λ begun. NodeBegun (begins_at settings.now rests.now) (logs_seen logs.now)
        (node_seen node) begun) }
{
    if !is_there(settings.settings(), node) {
        return Ok(None);
    }
    match place_of(node, logs) {
        Some(place) => begin_with(alloc, settings, node, rest_at(rests, place)),
        None => Ok(None),
    }
}

/// The node that a log begins with.
pub(crate) fn begin_with(
    alloc: Global,
    settings: &CheckedSettings,
    node: Node,
    rest: Option<&[u8]>,
) -> Result<Option<NodeState>, AllocError>
    requires { IsSome (node_at (opening (settings_seen settings.now)) (node_seen node)) }
    ensures { IfOk result (λ begun. begun ≡ begins settings.now (node_seen node) (option_copied rest.entry)) }
{
    match begins(alloc, settings, node, rest)? {
        Some(begun) => Ok(Some(node_in(begun))),
        None => Ok(None),
    }
}

/// The node of a beginning.
fn node_in(begun: Beginning) -> NodeState
    ensures { result ≡ begun.node }
{
    let Beginning {
        node,
        references: _,
    } = begun;
    node
}

/// The pharmacy that a node is, if it is one.
fn pharmacy_in(kind: StateKind) -> Option<PharmacyNode>
    ensures { result ≡ is_pharmacy (any_seen kind) }
{
    match kind {
        StateKind::Pharmacy(node) => Some(node),
        StateKind::Switch(_) => None,
        StateKind::Payer(_) => None,
    }
}

/// The payer that a node is, if it is one.
fn payer_in(kind: StateKind) -> Option<PayerNode>
    ensures { result ≡ is_payer (any_seen kind) }
{
    match kind {
        StateKind::Pharmacy(_) => None,
        StateKind::Switch(_) => None,
        StateKind::Payer(node) => Some(node),
    }
}

/// What the log at a place begins with.
pub(crate) fn rest_at(rests: &[Option<Vec<u8>>], place: usize) -> Option<&[u8]>
    ensures { option_copied result ≡ rest_at rests.now place }
{
    match rests.get(place) {
        Some(rest) => bytes_in(rest),
        None => None,
    }
}

/// These bytes, if there are any.
fn bytes_in(rest: &Option<Vec<u8>>) -> Option<&[u8]>
    ensures { option_copied result ≡ option_map (λ bytes. bytes.items) rest.now }
{
    match rest {
        Some(bytes) => Some(bytes.as_slice()),
        None => None,
    }
}
