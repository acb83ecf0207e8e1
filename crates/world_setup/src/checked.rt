//! Settings that a world takes.

ghost use Rattle.std.specs.Prelude.{◌≡◌, ◌⊎◌, length, None, Some, IfOk, IfErr, OnOk};
ghost use Rattle.bin_routes.specs.Fault.{first_fault};
ghost use Rattle.claim_model.specs.Settings.{settings_fault};
ghost use Rattle.world_setup.specs.Seen.{settings_seen};
ghost use Rattle.world_setup.specs.Taken.{world_fault, routes_in};
ghost use Rattle.world_setup.specs.declared.world_fault.WorldFault.TheVariants.{OutOfMemory};

use crate::settings::WorldSettings;
use crate::world_fault::WorldFault;
use bin_routes::Routes;
use std::alloc::{AllocError, Global};
use std::marker::Model;

/// Settings that a world takes, and the table of their routes (own). Who has them need not ask again whether anything is wrong
/// with them, nor make the table again.
#[derive(Drop)]
pub struct CheckedSettings {
    settings: WorldSettings,
    routes: Routes,
}

impl Model for CheckedSettings {
    ghost use Rattle.world_setup.specs.declared.settings.WorldSettings.{WorldSettings};
    ghost use Rattle.world_setup.specs.Taken.{IsTaken};

    ghost Value = { WorldSettings };

    ghost view = { λ s. s.settings };

    ghost invariant = { λ s. IsTaken s.settings s.routes };
}

impl CheckedSettings {
    /// The settings handed in, and the table of their routes.
    ///
    /// # Errors
    /// The first that stands: `TooMany`, `NoNode`, `SameProvider`, `BadRoute`. `OutOfMemory` may stand in place of any
    /// answer.
    pub fn new(alloc: Global, settings: WorldSettings) -> Result<CheckedSettings, WorldFault>
        ensures kept { IfOk result (λ checked. checked ≡ settings) }
        ensures taken { OnOk result (world_fault settings ≡ None) }
        ensures fault { IfErr result (λ fault. (fault ≡ OutOfMemory) ⊎ (world_fault settings ≡ Some fault)) }
    {
        let routes = settings.checked_routes(alloc)?;
        Ok(CheckedSettings { settings, routes })
    }

    /// The settings.
    pub fn settings(&self) -> &WorldSettings
        ensures kept { result.now ≡ self.now }
        ensures nodes { settings_fault (settings_seen self.now) ≡ None }
        ensures rows { first_fault (length self.now.payers.items) self.now.routes.items ≡ None }
    {
        &self.settings
    }

    /// The table of their routes.
    pub fn routes(&self) -> &Routes
        ensures { result.now ≡ routes_in self.now }
    {
        &self.routes
    }

    /// Equal settings with a table of their own, in memory of their own.
    pub fn copy(&self, alloc: Global) -> Result<CheckedSettings, AllocError>
        ensures nodes { IfOk result (λ copy. settings_seen copy ≡ settings_seen self.now) }
        ensures routes { IfOk result (λ copy. copy.routes.items ≡ self.now.routes.items) }
    {
        match CheckedSettings::new(alloc, self.settings.copy()?) {
            Ok(copy) => Ok(copy),
            Err(_) => Err(AllocError),
        }
    }

    /// The settings, and the table of their routes.
    pub fn into_parts(self) -> (WorldSettings, Routes)
        ensures kept { result.0 ≡ self }
        ensures routes { result.1 ≡ routes_in self }
        ensures nodes { settings_fault (settings_seen self) ≡ None }
        ensures rows { first_fault (length self.payers.items) self.routes.items ≡ None }
    {
        let CheckedSettings { settings, routes } = self;
        (settings, routes)
    }
}
