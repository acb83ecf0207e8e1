//! Replaying a log by itself.

ghost use Rattle.std.specs.Prelude.{◌≡◌, Some, IsSome, IfOk, OnOk};
ghost use Rattle.claim_model.specs.Bytes.{bytes_with};
ghost use Rattle.claim_model.specs.Settings.{opening};
ghost use Rattle.world_setup.specs.Seen.{node_seen, settings_seen};
ghost use Rattle.claim_model.specs.Nodes.{node_step, node_at};
ghost use Rattle.claim_model.specs.Logs.{node_after, replay};
ghost use Rattle.node_log.specs.Replayed.{replayed};

use crate::log::NodeLog;
use crate::record::Record;
use bin_routes::Routes;
use node_state::NodeState;
use std::alloc::{AllocError, Global};
use world_setup::{CheckedSettings, Fault};

/// The node of a log after its calls, from its opening state. A call that the node refuses changes nothing.
///
/// The node is one of the settings.
///
/// # Errors
/// Memory was refused.
pub fn replay_log(
    alloc: Global,
    settings: &CheckedSettings,
    log: &NodeLog,
) -> Result<NodeState, AllocError>
    requires { IsSome (node_at (opening (settings_seen settings.now)) (node_seen log.now.node)) }
    ensures { IfOk result (λ node. replayed settings.now (node_seen log.now.node) log.now.calls.items ≡ Some node) }
{
    let mut node = NodeState::opening(alloc, settings, log.node())?;
    replay(alloc, settings.routes(), &mut node, log.records())?;
    Ok(node)
}

/// Makes these calls on a node, one after another.
fn replay(
    alloc: Global,
    routes: &Routes,
    node: &mut NodeState,
    records: &[Record],
) -> Result<(), AllocError>
    ensures { OnOk result (node.new ≡ replay (bytes_with routes.now) node.old records.now) }
{
    for record in records {
        call(alloc, routes, node, record)?;
    }
    Ok(())
}

/// Makes the call of a record on a node.
fn call(
    alloc: Global,
    routes: &Routes,
    node: &mut NodeState,
    one: &Record,
) -> Result<(), AllocError>
    ensures { OnOk result (node.new ≡ node_after node.old (node_step (bytes_with routes.now) node.old one.now.call)) }
{
    match node.step(alloc, routes, one.call()) {
        Ok(_) => Ok(()),
        Err(Fault::OutOfMemory) => Err(AllocError),
        Err(_) => Ok(()),
    }
}
