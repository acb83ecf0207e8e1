//! All nodes of settings as their logs leave them, each call made once.

ghost use Rattle.std.specs.Prelude.{List, IfOk, IfSome, IsTrue};
ghost use Rattle.std.specs.BTreeMap.{get};
ghost use Rattle.std.specs.Ordering.{nat_cmp};
ghost use Rattle.claim_model.specs.Logs as model;
ghost use Rattle.world_setup.specs.Seen.{node_seen};
ghost use Rattle.world_setup.specs.declared.settings.WorldSettings.{WorldSettings as Settings};
ghost use Rattle.node_log.specs.LogSeen.{log_seen, logs_seen};
ghost use Rattle.log_audit.specs.Standing.{AreByNumber, AreNumbered, AreStanding, Enters, IsInOrder, IsLeftBy, StandsBy};
ghost use Rattle.log_audit.specs.StandingSeen.{nodes_seen};

use node_log::{NodeLog, is_there, make_log};
use node_state::{NodeState, PayerNode, PharmacyNode, StateKind, SwitchNode};
use std::alloc::{AllocError, Global};
use std::collections::BTreeMap;
use world_core::KnownParts;
use world_setup::{CheckedSettings, Node};

/// The nodes that logs leave, without packets, where each log is one that its node makes, and each node of the settings has
/// one; else none, and the logs alone say what they are.
pub(crate) fn nodes_left(
    alloc: Global,
    settings: &CheckedSettings,
    logs: &[NodeLog],
) -> Result<Option<KnownParts>, AllocError>
    ensures { IfOk result (λ o. IfSome o (λ nodes. AreStanding settings.now (logs_seen logs.now) (nodes_seen nodes))) }
{
    let mut found = ByNumber::new(alloc);
    for log in logs {
        let Some(node) = node_left(alloc, settings, log)? else {
            return Ok(None);
        };
        if !found.enter(log.node(), node)? {
            return Ok(None);
        }
    }
    found.in_order(alloc, settings)
}

/// The node that a log leaves, where it is there and makes the log: it accepts each call, and sends with it each byte that the
/// log has.
fn node_left(
    alloc: Global,
    settings: &CheckedSettings,
    log: &NodeLog,
) -> Result<Option<NodeState>, AllocError>
    ensures { IfOk result (λ o. IfSome o (λ node. IsLeftBy settings.now (log_seen log.now) node)) }
{
    if !is_there(settings.settings(), log.node()) {
        return Ok(None);
    }
    match make_log(alloc, settings, log)? {
        Ok(node) => Ok(Some(node)),
        Err(_) => Ok(None),
    }
}

/// Nodes by their numbers.
#[derive(Drop)]
pub(crate) struct ByNumber {
    pub(crate) pharmacies: BTreeMap<u64, PharmacyNode>,
    pub(crate) switches: BTreeMap<u64, SwitchNode>,
    pub(crate) payers: BTreeMap<u64, PayerNode>,
}

impl ByNumber {
    /// No nodes.
    fn new(alloc: Global) -> ByNumber
        ensures { (s : Settings) (logs : List model.NodeLog) → AreByNumber s logs result }
    {
        ByNumber {
            pharmacies: BTreeMap::new(alloc),
            switches: BTreeMap::new(alloc),
            payers: BTreeMap::new(alloc),
        }
    }

    /// Enters the node of a name, and tells whether it is of that kind, and the only one of that name.
    fn enter(&mut self, name: Node, node: NodeState) -> Result<bool, AllocError>
        ensures { IfOk result (λ yes. IsTrue yes → (s : Settings) (logs : List model.NodeLog)
            → StandsBy s logs (node_seen name) node → AreByNumber s logs self.old → AreByNumber s logs self.new) }
    {
        match node.into_kind() {
            StateKind::Pharmacy(node) => match name {
                Node::Pharmacy(number) => enter(&mut self.pharmacies, number, node),
                _ => Ok(false),
            },
            StateKind::Switch(node) => match name {
                Node::Switch(number) => enter(&mut self.switches, number, node),
                _ => Ok(false),
            },
            StateKind::Payer(node) => match name {
                Node::Payer(number) => enter(&mut self.payers, number, node),
                _ => Ok(false),
            },
        }
    }

    /// The nodes in order, where all of the settings are there.
    fn in_order(
        self,
        alloc: Global,
        settings: &CheckedSettings,
    ) -> Result<Option<KnownParts>, AllocError>
        ensures { IfOk result (λ o. IfSome o (λ nodes. IsInOrder settings.now self (nodes_seen nodes))) }
    {
        let ByNumber {
            pharmacies,
            switches,
            payers,
        } = self;
        let settings = settings.settings();
        let Some(pharmacies) = in_order(alloc, pharmacies, settings.pharmacies.len())? else {
            return Ok(None);
        };
        let Some(switches) = in_order(alloc, switches, settings.switches.len())? else {
            return Ok(None);
        };
        let Some(payers) = in_order(alloc, payers, settings.payers.len())? else {
            return Ok(None);
        };
        Ok(Some(KnownParts {
            pharmacies,
            switches,
            payers,
            packets: Vec::new(alloc),
        }))
    }
}

/// Enters a node under its number, and tells whether there was none.
fn enter<N: Drop>(nodes: &mut BTreeMap<u64, N>, number: u16, node: N) -> Result<bool, AllocError>
    ensures { IfOk result (λ yes. IsTrue yes → Enters (get nat_cmp nodes.old) number node (get nat_cmp nodes.new)) }
{
    match nodes.insert(u64::from(number), node) {
        Ok(before) => Ok(before.is_none()),
        Err(_) => Err(AllocError),
    }
}

/// The nodes of the numbers from 1 to a count, where all are there.
fn in_order<N: Drop>(
    alloc: Global,
    mut nodes: BTreeMap<u64, N>,
    count: usize,
) -> Result<Option<Vec<N>>, AllocError>
    ensures { IfOk result (λ o. IfSome o (λ list. AreNumbered (get nat_cmp nodes) count list.items)) }
{
    let mut list = Vec::new(alloc);
    for place in 0..count {
        match nodes.remove(&(place as u64 + 1)) {
            Some(node) => list.push(node)?,
            None => return Ok(None),
        }
    }
    Ok(Some(list))
}
