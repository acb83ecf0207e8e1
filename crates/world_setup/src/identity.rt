//! Whether two pharmacies have one identity.

ghost use Rattle.std.specs.Prelude.{◌≡◌, ◌||◌, not, IfOk, OnOk};
ghost use Rattle.claim_model.specs.Journal.{PharmacySettings as SettingsSeen};
ghost use Rattle.claim_model.specs.Settings.{same_provider, some_provider_twice};
ghost use Rattle.world_setup.specs.Identities.{was_seen};

use pharmacy_journal::PharmacySettings;
use std::alloc::{AllocError, Global};
use std::collections::BTreeSet;

/// What a pharmacy is known by: its service provider qualifier and ID (202-B2, 201-B1).
#[derive(Clone, Copy, PartialEq, Eq, PartialOrd, Ord)]
pub(crate) struct Identity {
    pub(crate) qualifier: [u8; 2],
    pub(crate) provider: [u8; 15],
}

/// Whether two pharmacies have one identity. It takes memory for each identity, and looks at each pharmacy once.
pub(crate) fn some_provider_twice(
    alloc: Global,
    pharmacies: &[PharmacySettings],
) -> Result<bool, AllocError>
    ensures { IfOk result (λ is_twice. is_twice ≡ some_provider_twice pharmacies.now) }
{
    let mut seen = BTreeSet::new(alloc);
    for settings in pharmacies {
        if !is_new(&mut seen, settings)? {
            return Ok(true);
        }
    }
    Ok(false)
}

/// Adds the identity of a pharmacy to those that were seen, and tells whether it is new.
fn is_new(seen: &mut BTreeSet<Identity>, settings: &PharmacySettings) -> Result<bool, AllocError>
    ensures new { IfOk result (λ is_new. is_new ≡ not (was_seen seen.old.keys settings.now)) }
    ensures seen { OnOk result ((other : SettingsSeen)
        → was_seen seen.new.keys other ≡ (was_seen seen.old.keys other || same_provider settings.now other)) }
{
    let qualifier = settings.qualifier();
    let provider = settings.provider();
    let is_new = seen.insert(Identity {
        qualifier,
        provider,
    })?;
    Ok(is_new)
}
