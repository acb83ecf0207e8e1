//! The world.

ghost use Rattle.std.specs.Prelude.{◌≡◌, ◌+◌, ◌<◌, ◌⊎◌, length, map, take, None, Some, IfOk, IfErr, OnOk, OnErr};
ghost use Rattle.std.specs.Bool.{OnTrue, OnFalse};
ghost use Rattle.claim_model.specs.Settings.{opening};
ghost use Rattle.claim_model.specs.World.{step, world_after, run};
ghost use Rattle.world_setup.specs.Seen.{event_seen, settings_seen};
ghost use Rattle.world_setup.specs.Taken.{world_fault, routes_in};
ghost use Rattle.world_setup.specs.declared.world_fault.WorldFault.TheVariants.{OutOfMemory};
ghost use Rattle.node_state.specs.Outcomes.{Refuses};
ghost use Rattle.world_core.specs.Parts.{context_of};
ghost use Rattle.world_core.specs.Stepping.{next_of, outcome_in};

use crate::parts::Parts;
use bin_routes::{Routes, number_laws};
use claim_model::{bytes_keep_laws, deliveries_meet_few_refusals, routes_lead_to_payers};
use std::alloc::{AllocError, Global};
use std::marker::Model;
use std::ops::Range;
use world_setup::{CheckedSettings, Event, Fault, WorldFault, WorldSettings};

/// All nodes of some settings, and every packet that was ever sent. Every world was reached by events from the
/// opening of settings that a world takes.
#[derive(Drop)]
pub struct World {
    pub(crate) routes: Routes,
    pub(crate) parts: Parts,
}

impl Model for World {
    ghost use Rattle.std.specs.Coded.{codes};
    ghost use Rattle.bin_routes.specs.Table.{coded_maps};
    ghost use Rattle.world_core.specs.Parts.{WorldParts, IsReached};

    ghost Value = { WorldParts };

    ghost coded = { Prim.hlevel (codes, coded_maps) };

    ghost view = { λ w. record { routes = w.routes; world = w.parts } };

    ghost invariant = { λ w. IsReached w.routes w.parts };
}

impl World {
    /// The opening world of these settings: all nodes up and empty, and no packet sent.
    ///
    /// # Errors
    /// The first that stands: `TooMany`, `NoNode`, `SameProvider`, `BadRoute`. `OutOfMemory` may stand in place of any
    /// answer.
    pub fn new(alloc: Global, settings: WorldSettings) -> Result<World, WorldFault>
        ensures made { IfOk result (λ w. w ≡ record {
          routes = routes_in settings;
          world = opening (settings_seen settings);
        }) }
        ensures taken { OnOk result (world_fault settings ≡ None) }
        ensures fault { IfErr result (λ fault. (fault ≡ OutOfMemory) ⊎ (world_fault settings ≡ Some fault)) }
    {
        let checked = CheckedSettings::new(alloc, settings)?;
        Ok(World::opening(alloc, checked)?)
    }

    /// The opening world of settings that a world takes.
    pub fn opening(alloc: Global, settings: CheckedSettings) -> Result<World, AllocError>
        ensures { IfOk result (λ w. w ≡ record {
          routes = routes_in settings;
          world = opening (settings_seen settings);
        }) }
    {
        let (settings, routes) = settings.into_parts();
        let parts = Parts::opening(alloc, settings)?;
        bytes_keep_laws();
        routes_lead_to_payers();
        number_laws();
        Ok(World { routes, parts })
    }

    /// Makes an event, and gives the numbers of the packets that it sent: those from `start` on, up to the one
    /// before `end`.
    ///
    /// # Errors
    /// `NoSuchNode` or `NoSuchPacket`; then `Down` or `AlreadyUp`; then the node's own. `OutOfMemory` may stand in place
    /// of any answer. The world is then as it was.
    pub fn step(&mut self, event: &Event) -> Result<Range<u64>, Fault>
        ensures ok { OnOk result (next_of (step (context_of self.old) self.old.world (event_seen event.now))
            ≡ Some self.new.world) }
        ensures sent { IfOk result (λ range. range ≡ record {
          start = length self.old.world.packets + 1;
          end = length self.new.world.packets + 1;
        }) }
        ensures fault { Refuses (step (context_of self.old) self.old.world (event_seen event.now)) result }
        ensures err { OnErr result (self.new ≡ self.old) }
        ensures routes { self.new.routes ≡ self.old.routes }
    {
        deliveries_meet_few_refusals();
        let start = self.parts.next_number();
        self.parts.step(&self.routes, event)?;
        let end = self.parts.next_number();
        Ok(start..end)
    }

    /// Makes these events in order. Refused ones change nothing, and the run goes on.
    ///
    /// # Errors
    /// Where memory is refused, the count of the events before the one that wanted it. They were made, and the others
    /// can be run later.
    pub fn run(&mut self, events: &[Event]) -> Result<(), (usize, AllocError)>
        ensures ok { OnOk result (self.new.world ≡ run (context_of self.old) self.old.world
            (map event_seen events.now)) }
        ensures err { IfErr result
            (λ e. self.new.world ≡ run (context_of self.old) self.old.world (map event_seen (take e.0 events.now))) }
        ensures left { IfErr result (λ e. e.0 < length events.now) }
        ensures routes { self.new.routes ≡ self.old.routes }
    {
        for (place, event) in events.iter().enumerate() {
            if self.lacks_memory(event) {
                return Err((place, AllocError));
            }
        }
        Ok(())
    }

    /// Makes an event of a run, and tells whether it wanted memory.
    fn lacks_memory(&mut self, event: &Event) -> bool
        ensures made { OnFalse result (self.new.world ≡ world_after self.old.world (outcome_in self.old event.now)) }
        ensures wanted { OnTrue result (self.new ≡ self.old) }
        ensures routes { self.new.routes ≡ self.old.routes }
    {
        matches!(self.step(event), Err(Fault::OutOfMemory))
    }
}
