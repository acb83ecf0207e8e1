//! Whether a world takes settings.

ghost use Rattle.std.specs.Prelude.{◌≡◌, ◌≤◌, ◌⊎◌, length, None, Some, IfOk, IfErr, OnOk};
ghost use Rattle.bin_routes.specs.Fault.{first_fault};
ghost use Rattle.claim_model.specs.Limits.{most_payers, most_switches};
ghost use Rattle.claim_model.specs.Settings.{settings_fault};
ghost use Rattle.world_setup.specs.Seen.{settings_seen};
ghost use Rattle.world_setup.specs.Taken.{rows_fault, world_fault, routes_in};
ghost use Rattle.world_setup.specs.declared.world_fault.WorldFault.TheVariants.{OutOfMemory};

use crate::checks::nodes_fault;
use crate::settings::WorldSettings;
use crate::world_fault::WorldFault;
use bin_routes::{Routes, RoutesFault};
use std::alloc::Global;

impl WorldSettings {
    /// The table of routes that all nodes share, where a world takes these settings.
    ///
    /// # Errors
    /// The first that stands: `TooMany`, `NoNode`, `SameProvider`, `BadRoute`. `OutOfMemory` may stand in place of any
    /// answer.
    pub fn checked_routes(&self, alloc: Global) -> Result<Routes, WorldFault>
        ensures made { IfOk result (λ routes. routes ≡ routes_in self.now) }
        // A world takes these settings: nothing is wrong with their nodes or with the rows of routes.
        ensures taken { OnOk result (world_fault self.now ≡ None) }
        ensures nodes { OnOk result (settings_fault (settings_seen self.now) ≡ None) }
        ensures rows { OnOk result (first_fault (length self.now.payers.items) self.now.routes.items ≡ None) }
        ensures fault { IfErr result (λ fault. (fault ≡ OutOfMemory) ⊎ (world_fault self.now ≡ Some fault)) }
    {
        if let Some(fault) = nodes_fault(alloc, self)? {
            return Err(fault);
        }
        table(alloc, self)
    }
}

/// The table of routes of settings whose nodes have no fault.
#[tactic(auto, unfolding(crate::specs::Taken::routes_with))]
fn table(alloc: Global, settings: &WorldSettings) -> Result<Routes, WorldFault>
    requires payers { length settings.now.payers.items ≤ most_payers }
    requires switches { length settings.now.switches.items ≤ most_switches }
    ensures made { IfOk result (λ routes. routes ≡ routes_in settings.now) }
    ensures taken { OnOk result (rows_fault settings.now ≡ None) }
    ensures rows { OnOk result (first_fault (length settings.now.payers.items) settings.now.routes.items ≡ None) }
    ensures fault { IfErr result (λ fault. (fault ≡ OutOfMemory) ⊎ (rows_fault settings.now ≡ Some fault)) }
{
    let payers = settings.payers.len() as u16;
    match Routes::new(alloc, settings.routes.as_slice(), payers) {
        Ok(routes) => Ok(routes.among(settings.switches.len() as u16)),
        Err(RoutesFault::OutOfMemory) => Err(WorldFault::OutOfMemory),
        Err(fault) => Err(WorldFault::BadRoute(fault)),
    }
}
