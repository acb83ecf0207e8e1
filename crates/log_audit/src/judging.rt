//! Whether logs are those of one legal run.

pub(crate) mod missing;
pub(crate) mod reasons;
pub(crate) mod standing;
pub(crate) mod waiting;
pub(crate) mod walking;
pub(crate) mod wrongs;

ghost use Rattle.std.specs.Prelude.{◌≡◌, map, Some, IfOk};
ghost use Rattle.claim_model.specs.Settings.{opening};
ghost use Rattle.world_setup.specs.Seen.{event_seen, settings_seen};
ghost use Rattle.node_log.specs.LogSeen.{logs_seen};
ghost use Rattle.run_merge.specs.MergedRuns.{IsRunOf};
ghost use Rattle.log_audit.specs.Judged.{IsFound, IsJudged, left_by};
ghost use Rattle.log_audit.specs.Standing.{AreStanding};
ghost use Rattle.log_audit.specs.StandingSeen.{nodes_seen};
ghost use Rattle.world_setup.specs.Taken.{routes_in};

use crate::judging::standing::nodes_left;
use node_log::NodeLog;
use run_merge::{MergeFault, MergedRun, merge, merge_fitting};
use std::alloc::{AllocError, Global};
use world_core::{KnownParts, World};
use world_setup::{CheckedSettings, Event};

/// What logs are judged to be.
#[derive(Drop)]
pub enum Verdict {
    /// The logs of one legal run, which has these events.
    Legal(Vec<Event>),
    /// The logs of no legal run.
    NoRun,
}

/// Judges logs: they are those of a legal run exactly where they are one of each node of the settings, and some events
/// are a legal interleaving of them, packets compared byte for byte.
pub fn judge(
    alloc: Global,
    settings: &CheckedSettings,
    logs: &[NodeLog],
) -> Result<Verdict, AllocError>
    ensures { IfOk result (λ verdict. IsJudged settings.now (logs_seen logs.now) verdict) }
{
    match merge(alloc, settings, logs) {
        Ok(events) => Ok(Verdict::Legal(events)),
        Err(MergeFault::Tangled) => Ok(Verdict::NoRun),
        Err(MergeFault::OutOfMemory) => Err(AllocError),
    }
}

/// What is found of logs, where the world that a run left is wanted too.
#[derive(Drop)]
pub(crate) enum Found {
    /// A legal run.
    Run(LegalRun),
    /// That there is none.
    NoRun,
}

/// A legal run, and the world that it left, where that is known.
#[derive(Drop)]
pub(crate) struct LegalRun {
    pub(crate) events: Vec<Event>,
    pub(crate) world: Option<World>,
}

impl LegalRun {
    /// Its events; a world is let go.
    pub(crate) fn into_events(self) -> Vec<Event>
        ensures { result ≡ self.events }
    {
        let LegalRun { events, world: _ } = self;
        events
    }
}

/// As [`judge`], and no world is kept.
pub(crate) fn run_alone(
    alloc: Global,
    settings: &CheckedSettings,
    logs: &[NodeLog],
) -> Result<Found, AllocError>
    ensures { IfOk result (λ found. IsFound settings.now (logs_seen logs.now) found) }
{
    match judge(alloc, settings, logs)? {
        Verdict::Legal(events) => Ok(Found::Run(LegalRun {
            events,
            world: None,
        })),
        Verdict::NoRun => Ok(Found::NoRun),
    }
}

/// As [`judge`], with the world that the run left: each call is made once, by its node, and these nodes are the world's. Where the
/// logs are not one for each node, which makes it, they are judged alone.
pub(crate) fn run_and_world(
    alloc: Global,
    settings: &CheckedSettings,
    logs: &[NodeLog],
) -> Result<Found, AllocError>
    ensures { IfOk result (λ found. IsFound settings.now (logs_seen logs.now) found) }
{
    match nodes_left(alloc, settings, logs)? {
        Some(nodes) => found_standing(alloc, settings, nodes, logs),
        None => run_alone(alloc, settings, logs),
    }
}

/// What is found of logs that their nodes made: only the order of the calls is looked for.
#[tactic(auto, using(crate::proofs::Ends::legal_is))]
fn found_standing(
    alloc: Global,
    settings: &CheckedSettings,
    nodes: KnownParts,
    logs: &[NodeLog],
) -> Result<Found, AllocError>
    requires standing { AreStanding settings.now (logs_seen logs.now) (nodes_seen nodes) }
    ensures { IfOk result (λ found. IsFound settings.now (logs_seen logs.now) found) }
{
    match merge_fitting(alloc, settings, logs) {
        Ok(merged) => Ok(Found::Run(standing_run(alloc, settings, nodes, logs, merged)?)),
        Err(MergeFault::Tangled) => Ok(Found::NoRun),
        Err(MergeFault::OutOfMemory) => Err(AllocError),
    }
}

/// A run of these logs, at whose end these nodes stand.
fn standing_run(
    alloc: Global,
    settings: &CheckedSettings,
    nodes: KnownParts,
    logs: &[NodeLog],
    run: MergedRun,
) -> Result<LegalRun, AllocError>
    requires standing { AreStanding settings.now (logs_seen logs.now) (nodes_seen nodes) }
    requires run { IsRunOf settings.now (logs_seen logs.now) run }
    ensures { IfOk result (λ legal. legal
        ≡ record { events = run.events; world = Some (left_by settings.now (map event_seen run.events.items)) }) }
{
    let MergedRun { events, packets } = run;
    let parts = KnownParts { packets, ..nodes };
    let world = opening_world(alloc, settings)?.led_to(events.as_slice(), parts);
    Ok(LegalRun {
        events,
        world: Some(world),
    })
}

/// The opening world of the settings.
fn opening_world(alloc: Global, settings: &CheckedSettings) -> Result<World, AllocError>
    ensures { IfOk result (λ w. w
        ≡ record { routes = routes_in settings.now; world = opening (settings_seen settings.now) }) }
{
    World::opening(alloc, settings.copy(alloc)?)
}
