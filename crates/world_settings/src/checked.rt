//! The settings that a text spells, where a world takes them.

ghost use Rattle.std.specs.Prelude.{◌≡◌, IfOk, IfErr};
ghost use Rattle.world_settings.specs.Checked.{IsUntaken, Spells, untaken_by};

use crate::fault::{SettingsFault, Untaken};
use crate::settings::read_living_settings;
use payer_book::HashKeys;
use std::alloc::Global;
use world_setup::{CheckedSettings, WorldFault};

/// The settings that a text spells as those of programs that live (`read_living_settings`), where a world takes them. The maps of
/// payers' books hash with these keys, on which no answer hangs (own).
///
/// # Errors
/// The first that stands: `Settings`, `World`. `OutOfMemory` may stand in place of any answer.
pub fn read_checked_settings(
    alloc: Global,
    keys: &HashKeys,
    text: &[u8],
) -> Result<CheckedSettings, Untaken>
    ensures spelled { IfOk result (λ settings. Spells text.now settings) }
    ensures refused { IfErr result (λ why. IsUntaken text.now why) }
{
    match read_living_settings(alloc, text) {
        Ok(settings) => match CheckedSettings::new(alloc, settings.with_keys(keys)) {
            Ok(checked) => Ok(checked),
            Err(fault) => Err(untaken_by(fault)),
        },
        Err(SettingsFault::OutOfMemory) => Err(Untaken::OutOfMemory),
        Err(SettingsFault::Settings) => Err(Untaken::Settings),
    }
}

/// Why no settings are taken where a world refuses them for this cause.
fn untaken_by(fault: WorldFault) -> Untaken
    ensures { result ≡ untaken_by fault }
{
    match fault {
        WorldFault::OutOfMemory => Untaken::OutOfMemory,
        WorldFault::TooMany => Untaken::World(fault),
        WorldFault::NoNode => Untaken::World(fault),
        WorldFault::SameProvider => Untaken::World(fault),
        WorldFault::BadRoute(_) => Untaken::World(fault),
    }
}
