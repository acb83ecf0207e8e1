//! The verdict on logs and tills.

ghost use Rattle.std.specs.Prelude.{◌≡◌, List, map, IfOk, IfErr, OnOk};
ghost use Rattle.world_setup.specs.Seen.{event_seen};
ghost use Rattle.node_log.specs.LogSeen.{logs_seen};
ghost use Rattle.run_merge.specs.Merged.{IsMerged, NoMerge};
ghost use Rattle.run_merge.specs.MergedRuns.{IsRunOf};
ghost use Rattle.node_logged.specs.LedgerSeen.{tills_seen};
ghost use Rattle.node_logged.specs.Setting.{opening_world, world_after_run};
ghost use Rattle.node_logged.specs.Replayed.{AreOfWorld, ledgers_of};
ghost use Rattle.node_logged.specs.Judged.{AllReceipts, AllHeard};
ghost use Rattle.world_setup.specs.declared.settings.WorldSettings.{WorldSettings as Settings};
ghost use Rattle.node_logged.specs.Tills.{Till as TillSeen};
ghost use Rattle.node_logged.specs.Causes.{ObjectionTo, Stands, IsCause};
ghost use Rattle.node_logged.specs.Standing.{AreAll, AreStanding};
ghost use Rattle.node_logged.specs.StandingSeen.{nodes_seen};
ghost use Rattle.node_logged.specs.Verdicts.{IsRun, logs_in, CarriesLogs};

use crate::held::Held;
use crate::judging::finish_fault::FinishFault;
use crate::judging::objection::{Objection, objection_in, objection_to};
use crate::judging::standing::{Standing, taken_apart};
use crate::till::Till;
use node_log::NodeLog;
use run_merge::{MergeFault, MergedRun, merge, merge_fitting};
use std::alloc::{AllocError, Global};
use world_core::{KnownParts, World};
use world_setup::{CheckedSettings, Event};

/// What a system did that has ended.
#[derive(Drop)]
pub struct Finished {
    /// The events of one run that has these logs.
    pub events: Vec<Event>,
    /// The world after these events.
    pub world: World,
    /// The logs that were judged.
    pub logs: Vec<NodeLog>,
}

/// The run of a system that has ended, by the logs of its nodes and the tills of its callers. Tills of pharmacies that are not
/// there are not looked at. No lock is taken and nothing is waited for.
///
/// # Errors
/// `TillMissing`, with the least pharmacy whose tills have another count of receipts than its journal has entries after the
/// calls of its log; then `ReceiptMissing` where the receipts are not those entries; then `HeardDiffers` where an answer that was
/// heard is not the answer there; then `Tangled` where no events are a legal interleaving of the logs. `OutOfMemory` may stand in
/// place of any answer.
pub fn judge(
    alloc: Global,
    settings: &CheckedSettings,
    logs: Vec<NodeLog>,
    tills: &[Till],
) -> Result<Finished, FinishFault>
    // The logs are those that were handed in, and the events are a legal interleaving of them.
    ensures logs { IfOk result (λ f. f.logs.items ≡ logs.items) }
    ensures events { IfOk result (λ f. IsMerged settings.now (logs_seen logs.items) (map event_seen f.events.items)) }
    ensures world { IfOk result (λ f. f.world ≡ world_after_run settings.now (map event_seen f.events.items)) }
    // The journals by which the tills are judged are those of this world.
    ensures ledgers { IfOk result (λ f. AreOfWorld (ledgers_of settings.now (logs_seen logs.items)) f.world.world) }
    // For each pharmacy the receipts are the numbers and requests of its journal, and what was heard is the journal's.
    ensures receipts { OnOk result
        (AllReceipts (tills_seen tills.now) (ledgers_of settings.now (logs_seen logs.items))) }
    ensures heard { OnOk result (AllHeard (tills_seen tills.now) (ledgers_of settings.now (logs_seen logs.items))) }
    ensures refused { IfErr result (λ fault. IsCause settings.now logs.items (tills_seen tills.now) fault) }
{
    match merge(alloc, settings, &logs) {
        Ok(events) => {
            let world = world_after(alloc, settings, &events)?;
            let run = Finished {
                events,
                world,
                logs,
            };
            judge_run(alloc, settings, run, tills)
        }
        Err(MergeFault::OutOfMemory) => Err(FinishFault::OutOfMemory),
        Err(MergeFault::Tangled) => Err(refused(alloc, settings, logs, tills)),
    }
}

/// As [`judge`], of nodes with their logs. No call is made again: the order of the calls is looked for in the logs, the nodes
/// as they stand are those of the world, and the tills are judged by their journals.
///
/// # Errors
/// Those of `judge`, of the logs that the refusal carries.
pub fn judge_nodes(
    alloc: Global,
    settings: &CheckedSettings,
    nodes: Vec<Held>,
    tills: &[Till],
) -> Result<Finished, FinishFault>
    // The logs are those of the nodes.
    ensures logs { IfOk result (λ f. logs_seen f.logs.items ≡ map (λ h. h.log) nodes.items) }
    ensures run { IfOk result (λ f. IsRun settings.now (tills_seen tills.now) f f.logs.items) }
    ensures refused { IfErr result (λ why. IsCause settings.now (logs_in why) (tills_seen tills.now) why) }
    ensures carried { IfErr result (λ why. CarriesLogs why (map (λ h. h.log) nodes.items)) }
{
    let standing = taken_apart(alloc, settings, nodes)?;
    let is_all = standing.is_all(settings);
    let Standing {
        nodes,
        logs,
        is_whole: _,
    } = standing;
    if !is_all {
        return judge(alloc, settings, logs, tills);
    }
    judge_standing(alloc, settings, nodes, logs, tills)
}

/// The verdict on all nodes of the settings, which stand by their logs.
fn judge_standing(
    alloc: Global,
    settings: &CheckedSettings,
    nodes: KnownParts,
    logs: Vec<NodeLog>,
    tills: &[Till],
) -> Result<Finished, FinishFault>
    requires standing { AreStanding settings.now (nodes_seen nodes) (logs_seen logs.items) }
    requires all { AreAll settings.now (nodes_seen nodes) }
    ensures logs { IfOk result (λ f. f.logs.items ≡ logs.items) }
    ensures run { IfOk result (λ f. IsRun settings.now (tills_seen tills.now) f logs.items) }
    ensures refused { IfErr result (λ fault. IsCause settings.now logs.items (tills_seen tills.now) fault) }
{
    match merge_fitting(alloc, settings, &logs) {
        Ok(merged) => {
            let run = standing_run(alloc, settings, nodes, logs, merged)?;
            judge_run(alloc, settings, run, tills)
        }
        Err(MergeFault::OutOfMemory) => Err(FinishFault::OutOfMemory),
        Err(MergeFault::Tangled) => Err(refused(alloc, settings, logs, tills)),
    }
}

/// A run of these logs, whose nodes stand at its end.
fn standing_run(
    alloc: Global,
    settings: &CheckedSettings,
    nodes: KnownParts,
    logs: Vec<NodeLog>,
    run: MergedRun,
) -> Result<Finished, AllocError>
    requires standing { AreStanding settings.now (nodes_seen nodes) (logs_seen logs.items) }
    requires all { AreAll settings.now (nodes_seen nodes) }
    requires run { IsRunOf settings.now (logs_seen logs.items) run }
    ensures { IfOk result (λ f. f ≡ record {
      events = run.events;
      world = world_after_run settings.now (map event_seen run.events.items);
      logs = logs;
    }) }
{
    let MergedRun { events, packets } = run;
    let parts = KnownParts { packets, ..nodes };
    let world = opening_world(alloc, settings)?.led_to(&events, parts);
    Ok(Finished {
        events,
        world,
        logs,
    })
}

/// The run, where nothing speaks against the tills in its world.
fn judge_run(
    alloc: Global,
    settings: &CheckedSettings,
    run: Finished,
    tills: &[Till],
) -> Result<Finished, FinishFault>
    requires events { IsMerged settings.now (logs_seen run.logs.items) (map event_seen run.events.items) }
    requires runs { run.world ≡ world_after_run settings.now (map event_seen run.events.items) }
    ensures same { IfOk result (λ f. f ≡ run) }
    ensures run { IfOk result (λ f. IsRun settings.now (tills_seen tills.now) f run.logs.items) }
    ensures refused { IfErr result (λ fault. IsCause settings.now run.logs.items (tills_seen tills.now) fault) }
{
    match objection_in(alloc, settings, &run.world, tills)? {
        None => Ok(run),
        Some(objection) => {
            let Finished {
                events: _,
                world: _,
                logs,
            } = run;
            Err(refusal(objection, logs))
        }
    }
}

/// The refusal of logs that have no legal interleaving: what speaks against the tills stands before that.
fn refused(
    alloc: Global,
    settings: &CheckedSettings,
    logs: Vec<NodeLog>,
    tills: &[Till],
) -> FinishFault
    requires tangled { NoMerge settings.now (logs_seen logs.items) }
    ensures { IsCause settings.now logs.items (tills_seen tills.now) result }
{
    match objection_to(alloc, settings, &logs, tills) {
        Ok(found) => refusal_or_tangled(found, logs),
        Err(_) => FinishFault::OutOfMemory,
    }
}

/// The refusal for what speaks against the tills, if anything does, and else that the logs are tangled.
fn refusal_or_tangled(found: Option<Objection>, logs: Vec<NodeLog>) -> FinishFault
    ensures { (s : Settings) (tills : List TillSeen) → NoMerge s (logs_seen logs.items)
        → ObjectionTo tills (ledgers_of s (logs_seen logs.items)) found → IsCause s logs.items tills result }
{
    match found {
        Some(objection) => refusal(objection, logs),
        None => FinishFault::Tangled(logs),
    }
}

/// The refusal for what speaks against the tills, with the logs.
fn refusal(objection: Objection, logs: Vec<NodeLog>) -> FinishFault
    ensures { (s : Settings) (tills : List TillSeen)
        → Stands tills (ledgers_of s (logs_seen logs.items)) objection → IsCause s logs.items tills result }
{
    match objection {
        Objection::TillMissing(pharmacy) => FinishFault::TillMissing(pharmacy, logs),
        Objection::ReceiptMissing => FinishFault::ReceiptMissing(logs),
        Objection::HeardDiffers => FinishFault::HeardDiffers(logs),
    }
}

/// The world after these events, from the opening world of the settings.
fn world_after(
    alloc: Global,
    settings: &CheckedSettings,
    events: &[Event],
) -> Result<World, AllocError>
    ensures { IfOk result (λ w. w ≡ world_after_run settings.now (map event_seen events.now)) }
{
    let mut world = opening_world(alloc, settings)?;
    match world.run(events) {
        Ok(()) => Ok(world),
        Err(_) => Err(AllocError),
    }
}

/// The opening world of the settings.
fn opening_world(alloc: Global, settings: &CheckedSettings) -> Result<World, AllocError>
    ensures { IfOk result (λ w. w ≡ opening_world settings.now) }
{
    World::opening(alloc, settings.copy(alloc)?)
}
