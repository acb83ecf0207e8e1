//! Merging logs that are known to fit their nodes.

ghost use Rattle.std.specs.Prelude.{◌≡◌, map, IfOk, IfErr};
ghost use Rattle.claim_model.specs.Bytes.{bytes_with};
ghost use Rattle.world_setup.specs.Seen.{event_seen, packet_seen, settings_seen};
ghost use Rattle.node_log.specs.LogSeen.{logs_seen};
ghost use Rattle.run_merge.specs.Merged.{AllFit, IsMerged, WhereTangled, packets_after};
ghost use Rattle.run_merge.specs.MergedRuns.{RunOf};
ghost use Rattle.world_setup.specs.Taken.{routes_in};

use crate::history::{MergeFault, are_distinct, each_has_log};
use crate::order::in_order;
use node_log::NodeLog;
use std::alloc::{AllocError, Global};
use world_setup::{CheckedSettings, Event, Packet};

/// A run that has the logs that were merged.
#[derive(Drop)]
pub struct MergedRun {
    /// Its events.
    pub events: Vec<Event>,
    /// All packets that are sent in it, in order.
    pub packets: Vec<Packet>,
}

/// As [`merge`](crate::merge), of logs each of which is known to fit its node: no call is made again, and only the order of
/// the calls is looked for.
///
/// # Errors
/// `Tangled` only where no events are a legal interleaving of the logs; logs that are not one for each node have none.
pub fn merge_fitting(
    alloc: Global,
    settings: &CheckedSettings,
    logs: &[NodeLog],
) -> Result<MergedRun, MergeFault>
    requires { AllFit (bytes_with (routes_in settings.now)) (settings_seen settings.now)
        (logs_seen logs.now) }
    ensures ok { IfOk result (λ run. IsMerged settings.now (logs_seen logs.now) (map event_seen run.events.items)) }
    ensures packets { IfOk result (λ run. map packet_seen run.packets.items
        ≡ packets_after settings.now (map event_seen run.events.items)) }
    ensures tangled { IfErr result (λ fault. WhereTangled fault settings.now (logs_seen logs.now)) }
{
    match merged_run(alloc, settings, logs)? {
        Some(run) => Ok(run),
        None => Err(MergeFault::Tangled),
    }
}

/// Such a run, if there is one.
fn merged_run(
    alloc: Global,
    settings: &CheckedSettings,
    logs: &[NodeLog],
) -> Result<Option<MergedRun>, AllocError>
    requires { AllFit (bytes_with (routes_in settings.now)) (settings_seen settings.now)
        (logs_seen logs.now) }
    ensures { IfOk result (λ found. RunOf settings.now (logs_seen logs.now) found) }
{
    let _taken = settings.settings();
    if !each_has_log(settings, logs) {
        return Ok(None);
    }
    if !are_distinct(logs) {
        return Ok(None);
    }
    match in_order(alloc, logs)? {
        Some(order) => Ok(Some(order.into_run(alloc)?)),
        None => Ok(None),
    }
}
