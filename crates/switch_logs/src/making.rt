//! The logs that are made.

ghost use Rattle.std.specs.Prelude.{◌≡◌, IfOk, OnOk, map};
ghost use Rattle.std.specs.Arc.{arc_value};
ghost use Rattle.node_log.specs.LogSeen.{logs_seen};
ghost use Rattle.switch_logs.specs.MadeLogs.{AreMadeUnder, who};

use crate::unlogged::Unlogged;
use crate::walk::Walk;
use node_log::NodeLog;
use std::alloc::{AllocError, Global};
use std::sync::Arc;
use world_setup::CheckedSettings;

/// Logs of the switches that have none among these, in the order of their numbers: of what each was handed for the packets that
/// the nodes of these logs took from it. None where each switch has a log.
///
/// # Errors
/// Memory was refused.
pub fn made_logs(
    alloc: Global,
    settings: &CheckedSettings,
    logs: &[NodeLog],
) -> Result<Vec<NodeLog>, AllocError>
    ensures { IfOk result (λ made. AreMadeUnder settings.now (logs_seen logs.now) (logs_seen made.items)) }
{
    let shared = Arc::new(alloc, settings.copy(alloc)?)?;
    made_under(alloc, &shared, logs)
}

/// The same under settings that the nodes share.
#[tactic(auto, using(crate::proofs::Standing::made_of))]
fn made_under(
    alloc: Global,
    shared: &Arc<CheckedSettings>,
    logs: &[NodeLog],
) -> Result<Vec<NodeLog>, AllocError>
    ensures { IfOk result (λ made. AreMadeUnder (arc_value shared.now) (logs_seen logs.now) (logs_seen made.items)) }
{
    let mut switches = Unlogged::new(alloc, shared, logs)?;
    walk(alloc, shared, logs, &mut switches)?;
    switches.into_logs(alloc)
}

/// Has the switches that have no log be handed what the nodes of logs took from them.
fn walk(
    alloc: Global,
    settings: &CheckedSettings,
    logs: &[NodeLog],
    switches: &mut Unlogged,
) -> Result<(), AllocError>
    ensures { OnOk result (map who switches.new.switches.items ≡ map who switches.old.switches.items) }
{
    if switches.is_empty() {
        return Ok(());
    }
    Walk::new(alloc, logs)?.go(alloc, settings, switches)
}
