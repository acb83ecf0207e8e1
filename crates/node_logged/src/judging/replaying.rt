//! The ledgers of all pharmacies, after the calls of their logs.

ghost use Rattle.std.specs.Prelude.{◌≡◌, ◌+◌, ◌<◌, [], length, Some, IsSome, IfOk, IfSome, MatchOption};
ghost use Rattle.claim_model.specs.Settings.{opening};
ghost use Rattle.claim_model.specs.Nodes.{node_at};
ghost use Rattle.world_setup.specs.Seen.{node_seen, settings_seen};
ghost use Rattle.run_merge.specs.Naming.{calls_of};
ghost use Rattle.node_log.specs.LogSeen.{logs_seen};
ghost use Rattle.node_log.specs.Replayed.{replayed};
ghost use Rattle.node_logged.specs.Replayed.{ledger_at, ledgers_of};

use crate::judging::ledger::Ledger;
use node_log::{NodeLog, replay_log};
use node_state::NodeState;
use std::alloc::{AllocError, Global};
use world_setup::{CheckedSettings, Node};

/// The ledgers of all pharmacies of the settings, each after the calls of its log. Each log is replayed once.
pub(crate) fn ledgers(
    alloc: Global,
    settings: &CheckedSettings,
    logs: &[NodeLog],
) -> Result<Vec<Ledger<'static>>, AllocError>
    ensures { IfOk result (λ ledgers. ledgers.items ≡ ledgers_of settings.now (logs_seen logs.now)) }
{
    let mut ledgers = Vec::new(alloc);
    for place in 0..settings.settings().pharmacies.len() {
        ledgers.push(ledger_of(alloc, settings, logs, place)?)?;
    }
    Ok(ledgers)
}

/// The ledger of the pharmacy at a place among all, after the calls of its log.
fn ledger_of(
    alloc: Global,
    settings: &CheckedSettings,
    logs: &[NodeLog],
    place: usize,
) -> Result<Ledger<'static>, AllocError>
    requires { place < length settings.now.pharmacies.items }
    ensures { IfOk result (λ ledger. ledger_at settings.now (logs_seen logs.now) (place + 1) ≡ Some ledger) }
{
    let _taken = settings.settings();
    let number = place as u16 + 1;
    let node = node_after(alloc, settings, logs, Node::Pharmacy(number))?;
    match node.into_journal(alloc)? {
        Some(journal) => Ok(Ledger::new(number, journal)),
        None => unreachable!(),
    }
}

/// The node of the settings after the calls of its log. Without a log it was not called.
fn node_after(
    alloc: Global,
    settings: &CheckedSettings,
    logs: &[NodeLog],
    node: Node,
) -> Result<NodeState, AllocError>
    requires { IsSome (node_at (opening (settings_seen settings.now)) (node_seen node)) }
    ensures { IfOk result (λ after.
        replayed settings.now (node_seen node) (calls_of (logs_seen logs.now) (node_seen node)) ≡ Some after) }
{
    match log_of(logs, node) {
        Some(log) => replay_log(alloc, settings, log),
        None => NodeState::opening(alloc, settings, node),
    }
}

/// The first log of a node.
fn log_of(logs: &[NodeLog], node: Node) -> Option<&NodeLog>
    ensures calls { MatchOption result (calls_of (logs_seen logs.now) (node_seen node) ≡ [])
        (λ log. calls_of (logs_seen logs.now) (node_seen node) ≡ log.now.calls.items) }
    ensures names { IfSome result (λ log. node_seen log.now.node ≡ node_seen node) }
{
    for log in logs {
        if log.is_of(node) {
            return Some(log);
        }
    }
    None
}
