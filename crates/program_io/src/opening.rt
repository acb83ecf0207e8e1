//! The settings that a text spells, and the world that they open.

ghost use Rattle.std.specs.Prelude.{◌≡◌, Some, IfOk, IfErr};
ghost use Rattle.world_settings.specs.Document.{document_seen};
ghost use Rattle.program_io.specs.Scheduled.{world_in, living_world_in, opened_by, opened_world, Opens, OpensNone};

use payer_book::HashKeys;
use std::alloc::Global;
use world_core::World;
use world_settings::{SettingsFault, Untaken, read_checked_settings, read_settings};
use world_setup::{CheckedSettings, WorldFault, WorldSettings};

/// The opening world of the settings that a text spells. The maps of its books hash with these keys.
///
/// # Errors
/// `Settings` where the text spells none, or no world takes them; `OutOfMemory`.
pub fn opened(alloc: Global, keys: &HashKeys, text: &[u8]) -> Result<World, SettingsFault>
    ensures made { IfOk result (λ world. world_in text.now ≡ Some world) }
    ensures fault { IfErr result (λ fault. OpensNone fault (world_in text.now)) }
{
    let settings = taken_settings(alloc, keys, text)?;
    Ok(World::opening(alloc, settings)?)
}

/// The settings that a text spells, where a world takes them. The maps of books hash with these keys.
///
/// # Errors
/// `Settings` where the text spells none, or no world takes them; `OutOfMemory`.
#[tactic(auto, unfolding(crate::specs::Scheduled::world_in))]
pub fn taken_settings(
    alloc: Global,
    keys: &HashKeys,
    text: &[u8],
) -> Result<CheckedSettings, SettingsFault>
    ensures opens { IfOk result (λ settings. Opens text.now settings) }
    ensures fault { IfErr result (λ fault. OpensNone fault (world_in text.now)) }
{
    match read_settings(alloc, text) {
        Ok(settings) => taken(alloc, settings.with_keys(keys)),
        Err(SettingsFault::OutOfMemory) => Err(SettingsFault::OutOfMemory),
        Err(SettingsFault::Settings) => Err(SettingsFault::Settings),
    }
}

/// The opening world of the wide settings that a text spells. The maps of its books hash with these keys.
///
/// # Errors
/// Those of `opened`.
pub(crate) fn living_opened(
    alloc: Global,
    keys: &HashKeys,
    text: &[u8],
) -> Result<World, SettingsFault>
    ensures made { IfOk result (λ world. living_world_in text.now ≡ Some world) }
    ensures fault { IfErr result (λ fault. OpensNone fault (living_world_in text.now)) }
{
    match read_checked_settings(alloc, keys, text) {
        Ok(settings) => Ok(World::opening(alloc, settings)?),
        Err(Untaken::OutOfMemory) => Err(SettingsFault::OutOfMemory),
        Err(Untaken::Settings) => Err(SettingsFault::Settings),
        Err(Untaken::World(_)) => Err(SettingsFault::Settings),
    }
}

/// The settings, where a world takes them.
fn taken(alloc: Global, settings: WorldSettings) -> Result<CheckedSettings, SettingsFault>
    ensures opens { IfOk result (λ taken. opened_by (document_seen settings)
        ≡ Some (opened_world (document_seen taken))) }
    ensures fault { IfErr result (λ fault. OpensNone fault (opened_by (document_seen settings))) }
{
    match CheckedSettings::new(alloc, settings) {
        Ok(taken) => Ok(taken),
        Err(WorldFault::OutOfMemory) => Err(SettingsFault::OutOfMemory),
        Err(_) => Err(SettingsFault::Settings),
    }
}
