//! Merging logs into the events of one run.

ghost use Rattle.std.specs.Prelude.{◌≡◌, ◌+◌, ◌<◌, ◌≤◌, length, map, true, None, Some, IfOk, IfErr};
ghost use Rattle.claim_model.specs.Bytes.{bytes_with};
ghost use Rattle.claim_model.specs.Limits.{most_pharmacies, most_switches, most_payers};
ghost use Rattle.claim_model.specs.Settings.{settings_fault};
ghost use Rattle.world_setup.specs.Seen.{event_seen, settings_seen, node_seen};
ghost use Rattle.node_log.specs.ExistingNodes.{is_numbered, is_there};
ghost use Rattle.run_merge.specs.Naming.{name_at, has_log, all_distinct};
ghost use Rattle.node_log.specs.Fits.{Tells};
ghost use Rattle.node_log.specs.LogSeen.{log_seen, logs_seen};
ghost use Rattle.run_merge.specs.Merged.{IsMerged, MergeOf, WhereTangled, EachHasLog, FitsAlone, AllFit};
ghost use Rattle.run_merge.specs.declared.history.MergeFault.TheVariants.{OutOfMemory};
ghost use Rattle.world_setup.specs.Taken.{routes_in};

use crate::order::in_order;
use node_log::{NodeLog, fits, is_same_node, is_there};
use node_state::NodeState;
use std::alloc::{AllocError, Global};
use thiserror::Error;
use world_setup::{CheckedSettings, Event, Node, WorldSettings};

/// Why logs are not merged.
#[derive(Clone, Copy, Debug, PartialEq, Eq, Error)]
pub enum MergeFault {
    /// Memory was refused.
    #[error("out of memory")]
    OutOfMemory,
    /// No events are a legal interleaving of the logs.
    #[error("the logs have no history in common")]
    Tangled,
}

impl From<AllocError> for MergeFault {
    ghost from_gives = { λ _ fault. fault ≡ OutOfMemory };

    fn from(_refused: AllocError) -> MergeFault {
        MergeFault::OutOfMemory
    }
}

/// The events of one run that has these logs, one of each node, packets compared byte for byte. No lock is taken and
/// nothing is waited for.
///
/// # Errors
/// `Tangled` only where no events do so; logs that are not one for each node have none.
pub fn merge(
    alloc: Global,
    settings: &CheckedSettings,
    logs: &[NodeLog],
) -> Result<Vec<Event>, MergeFault>
    ensures ok { IfOk result (λ events. IsMerged settings.now (logs_seen logs.now) (map event_seen events.items)) }
    ensures tangled { IfErr result (λ fault. WhereTangled fault settings.now (logs_seen logs.now)) }
{
    match merged(alloc, settings, logs)? {
        Some(events) => Ok(events),
        None => Err(MergeFault::Tangled),
    }
}

/// The events of such a run, if there is one.
fn merged(
    alloc: Global,
    settings: &CheckedSettings,
    logs: &[NodeLog],
) -> Result<Option<Vec<Event>>, AllocError>
    ensures { IfOk result (λ o. MergeOf settings.now (logs_seen logs.now) o) }
{
    let _taken = settings.settings();
    if !each_has_log(settings, logs) {
        return Ok(None);
    }
    if !are_distinct(logs) {
        return Ok(None);
    }
    if !all_fit(alloc, settings, logs)? {
        return Ok(None);
    }
    match in_order(alloc, logs)? {
        Some(order) => Ok(Some(order.into_events())),
        None => Ok(None),
    }
}

/// Whether each node of the settings has a log.
pub(crate) fn each_has_log(settings: &CheckedSettings, logs: &[NodeLog]) -> bool
    ensures { Tells result (EachHasLog (settings_seen settings.now) (logs_seen logs.now)) }
{
    have_logs(settings.settings(), logs)
}

/// Whether each node of settings without a fault has a log.
fn have_logs(settings: &WorldSettings, logs: &[NodeLog]) -> bool
    requires { settings_fault (settings_seen settings.now) ≡ None }
    ensures { Tells result (EachHasLog (settings_seen settings.now) (logs_seen logs.now)) }
{
    let pharmacies = settings.pharmacies.len();
    let switches = settings.switches.len();
    for place in 0..pharmacies + switches + settings.payers.len() {
        if !has_log(name_at(pharmacies, switches, place), logs) {
            return false;
        }
    }
    true
}

/// The name at a place among those of all nodes: of pharmacies, then of switches, then of payers.
fn name_at(pharmacies: usize, switches: usize, place: usize) -> Node
    requires pharmacies { pharmacies ≤ most_pharmacies }
    requires switches { switches ≤ most_switches }
    requires place { place < pharmacies + switches + most_payers }
    ensures { node_seen result ≡ name_at pharmacies switches place }
{
    let others = pharmacies + switches;
    if place < pharmacies {
        Node::Pharmacy(place as u16 + 1)
    } else if place < others {
        Node::Switch((place - pharmacies) as u16 + 1)
    } else {
        Node::Payer((place - others) as u16 + 1)
    }
}

/// Whether no two logs are of one node.
pub fn are_distinct(logs: &[NodeLog]) -> bool
    ensures { result ≡ all_distinct (logs_seen logs.now) }
{
    for (place, log) in logs.iter().enumerate() {
        if has_log(log.node(), &logs[place + 1..]) {
            return false;
        }
    }
    true
}

/// Whether one of these logs is of this node.
fn has_log(node: Node, logs: &[NodeLog]) -> bool
    ensures { result ≡ has_log (node_seen node) (logs_seen logs.now) }
{
    for log in logs {
        if is_same_node(log.node(), node) {
            return true;
        }
    }
    false
}

/// Whether each log by itself fits its node.
fn all_fit(alloc: Global, settings: &CheckedSettings, logs: &[NodeLog]) -> Result<bool, AllocError>
    ensures { IfOk result (λ yes. Tells yes (AllFit (bytes_with (routes_in settings.now))
        (settings_seen settings.now) (logs_seen logs.now))) }
{
    for log in logs {
        if !fits_alone(alloc, settings, log)? {
            return Ok(false);
        }
    }
    Ok(true)
}

/// Whether a log is of a node that is there, and fits it.
fn fits_alone(alloc: Global, settings: &CheckedSettings, log: &NodeLog) -> Result<bool, AllocError>
    ensures { IfOk result (λ yes. Tells yes (FitsAlone (bytes_with (routes_in settings.now))
        (settings_seen settings.now) (log_seen log.now))) }
{
    if !is_there(settings.settings(), log.node()) {
        return Ok(false);
    }
    let mut node = NodeState::opening(alloc, settings, log.node())?;
    fits(alloc, settings.routes(), &mut node, log.records())
}
