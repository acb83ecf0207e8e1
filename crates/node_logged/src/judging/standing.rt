//! The nodes of a system that has ended, as they stand.

ghost use Rattle.std.specs.Prelude.{◌≡◌, ◌++◌, ◌∷◌, [], suc, length, map, IfOk, IsTrue, OnOk};
ghost use Rattle.world_setup.specs.Seen.{node_seen};
ghost use Rattle.node_log.specs.LogSeen.{logs_seen};
ghost use Rattle.node_logged.specs.Standing.{AreAll, next_name, with_node};
ghost use Rattle.node_logged.specs.StandingSeen.{nodes_seen, StandsWhole};

use crate::held::Held;
use node_log::NodeLog;
use node_state::{NodeState, StateKind};
use std::alloc::{AllocError, Global};
use world_core::KnownParts;
use world_setup::{CheckedSettings, Node};

/// The nodes of a system and their logs.
#[derive(Drop)]
pub(crate) struct Standing {
    /// The nodes as they stand, without packets.
    pub(crate) nodes: KnownParts,
    pub(crate) logs: Vec<NodeLog>,
    /// Whether the nodes are those of the logs, under the settings. Where they are not, only the logs count.
    pub(crate) is_whole: bool,
}

/// These nodes and their logs, taken apart. The nodes count where each is of these settings and is the next of its kind.
pub(crate) fn taken_apart(
    alloc: Global,
    settings: &CheckedSettings,
    all: Vec<Held>,
) -> Result<Standing, AllocError>
    ensures logs { IfOk result (λ s. logs_seen s.logs.items ≡ map (λ h. h.log) all.items) }
    ensures nodes { IfOk result (λ s. StandsWhole settings.now s) }
{
    let mut standing = Standing {
        nodes: no_nodes(alloc),
        logs: Vec::new(alloc),
        is_whole: true,
    };
    for held in all {
        standing.add(settings, held)?;
    }
    Ok(standing)
}

impl Standing {
    /// Adds a node and its log.
    fn add(&mut self, settings: &CheckedSettings, held: Held) -> Result<(), AllocError>
        ensures logs { OnOk result (logs_seen self.new.logs.items ≡ logs_seen self.old.logs.items ++ held.log ∷ []) }
        ensures nodes { OnOk result (StandsWhole settings.now self.old → StandsWhole settings.now self.new) }
    {
        let is_under = held.is_under(settings);
        let (state, log) = held.into_parts();
        let is_next = add_next(&mut self.nodes, log.node(), state)?;
        self.is_whole = are_true(self.is_whole, is_under, is_next);
        self.logs.push(log)?;
        Ok(())
    }

    /// Whether the nodes are those of the logs, and all of these settings.
    pub(crate) fn is_all(&self, settings: &CheckedSettings) -> bool
        ensures { IsTrue result → IsTrue self.now.is_whole × AreAll settings.now (nodes_seen self.now.nodes) }
    {
        self.is_whole && are_all(&self.nodes, settings)
    }
}

/// Whether all three are true.
fn are_true(first: bool, second: bool, third: bool) -> bool
    ensures { IsTrue result → IsTrue first × IsTrue second × IsTrue third }
{
    first && second && third
}

/// No nodes.
fn no_nodes(alloc: Global) -> KnownParts
    ensures { nodes_seen result ≡ record { pharmacies = []; switches = []; payers = [] } }
{
    KnownParts {
        pharmacies: Vec::new(alloc),
        switches: Vec::new(alloc),
        payers: Vec::new(alloc),
        packets: Vec::new(alloc),
    }
}

/// Adds the node of this name, where it is the next of its kind, and tells whether it was.
fn add_next(nodes: &mut KnownParts, name: Node, node: NodeState) -> Result<bool, AllocError>
    ensures { IfOk result (λ yes. IsTrue yes
        → (node_seen name ≡ next_name (nodes_seen nodes.old) node)
        × (nodes_seen nodes.new ≡ with_node (nodes_seen nodes.old) node)) }
{
    match node.into_kind() {
        StateKind::Pharmacy(node) => match name {
            Node::Pharmacy(number) => push_next(&mut nodes.pharmacies, number, node),
            _ => Ok(false),
        },
        StateKind::Switch(node) => match name {
            Node::Switch(number) => push_next(&mut nodes.switches, number, node),
            _ => Ok(false),
        },
        StateKind::Payer(node) => match name {
            Node::Payer(number) => push_next(&mut nodes.payers, number, node),
            _ => Ok(false),
        },
    }
}

/// Whether there are as many nodes of each kind as in these settings.
fn are_all(nodes: &KnownParts, settings: &CheckedSettings) -> bool
    ensures { IsTrue result → AreAll settings.now (nodes_seen nodes.now) }
{
    let settings = settings.settings();
    nodes.pharmacies.len() == settings.pharmacies.len()
        && nodes.switches.len() == settings.switches.len()
        && nodes.payers.len() == settings.payers.len()
}

/// Adds a node to those of its kind, where its number is the next, and tells whether it was.
fn push_next<N: Drop>(nodes: &mut Vec<N>, number: u16, node: N) -> Result<bool, AllocError>
    ensures { IfOk result (λ yes. IsTrue yes
        → (number ≡ suc (length nodes.old.items)) × (nodes.new.items ≡ nodes.old.items ++ node ∷ [])) }
{
    if number as usize != nodes.len() + 1 {
        return Ok(false);
    }
    nodes.push(node)?;
    Ok(true)
}
