//! The settings of a world that a text spells.

ghost use Rattle.std.specs.Prelude.{◌≡◌, Some, IfOk, IfErr};
ghost use Rattle.std.specs.Option.{option_map};
ghost use Rattle.toml.specs.View.{table_view};
ghost use Rattle.world_settings.specs.Document.{RefusedFor, allowed, document_seen, document_with, living_in, living_of, living_with, settings_in, settings_of, settings_within};

use crate::fault::SettingsFault;
use crate::keys::has_only;
use crate::limits::{allows, limits_in};
use crate::lists::list_at;
use crate::payers::{Payers, Switches};
use crate::pharmacies::Pharmacies;
use crate::profile::answers_in;
use crate::routes::Routes;
use crate::values::word_at;
use claim_model::Limits;
use std::alloc::{AllocError, Global};
use toml::Table;
use world_setup::WorldSettings;

/// The settings of a world that a text spells as a TOML document.
///
/// Its keys are `again` and `tries`, and the arrays of tables `pharmacy` (`qualifier`, `provider`, `nodes`, `cap`),
/// `switch` (`cap`), `payer` (`fee`, `copay`, `cap`, and at will `serial` and the table `prices`) and `route` (`bin`,
/// `payer`, and at will `pcn`). Texts of identities are filled with spaces. What a world refuses of several of these
/// together, and what a table of routes refuses, is not judged here. There are at most 256 pharmacies, 64 switches and
/// 64 payers, and a cap is at most 65,536 (own).
///
/// # Errors
/// `Settings` exactly where the text spells none; `OutOfMemory` may stand in place of any answer.
#[tactic(auto, unfolding(crate::specs::Document::settings_in))]
pub fn read_settings(alloc: Global, text: &[u8]) -> Result<WorldSettings, SettingsFault>
    ensures read { IfOk result (λ settings. settings_in text.now ≡ Some (document_seen settings)) }
    ensures refused { IfErr result (λ fault. RefusedFor fault (settings_in text.now)) }
{
    match toml::table_from_slice(alloc, text) {
        Ok(table) => match settings_of(alloc, &table)? {
            Some(settings) => Ok(settings),
            None => Err(SettingsFault::Settings),
        },
        Err(error) if error.is_memory() => Err(SettingsFault::OutOfMemory),
        Err(_) => Err(SettingsFault::Settings),
    }
}

/// The same of wide settings, for programs that live. At the key `limits` they may state a table of `pharmacies` (at most
/// 65,535), `switches`, `payers` (at most 4,096 each) and `entries` (at most 16,777,216, which is for every cap), each of
/// which may be left out, and is then as without the table. At the key `answers` they may say whether answers carry what
/// advices say beside their rulings, `profile`, which is `wide` or `narrow`. A payer may have the key `asks`, which says
/// `claims` or `all`, and a route the keys `qualifier` and `provider`, or `qualifier`, `first` and `last`, of the providers that it is for. A route
/// may have `rejected` in place of `payer`, and then has `pcn`, `qualifier` and `provider`: the requests of this provider up
/// to the number there stay rejected (own).
///
/// # Errors
/// `Settings` exactly where the text spells none; `OutOfMemory` may stand in place of any answer.
#[tactic(auto, unfolding(crate::specs::Document::living_in))]
pub fn read_living_settings(alloc: Global, text: &[u8]) -> Result<WorldSettings, SettingsFault>
    ensures read { IfOk result (λ settings. living_in text.now ≡ Some (document_seen settings)) }
    ensures refused { IfErr result (λ fault. RefusedFor fault (living_in text.now)) }
{
    match toml::table_from_slice(alloc, text) {
        Ok(table) => match living_of(alloc, &table)? {
            Some(settings) => Ok(settings),
            None => Err(SettingsFault::Settings),
        },
        Err(error) if error.is_memory() => Err(SettingsFault::OutOfMemory),
        Err(_) => Err(SettingsFault::Settings),
    }
}

/// The settings that a table spells, within the stated limits.
fn settings_of(alloc: Global, table: &Table) -> Result<Option<WorldSettings>, AllocError>
    ensures { IfOk result (λ settings. option_map document_seen settings ≡ settings_of (table_view table.now)) }
{
    if !has_only(
        table,
        &["again", "tries", "pharmacy", "switch", "payer", "route"],
    ) {
        return Ok(None);
    }
    settings_within(alloc, false, false, Limits::stated(), table)
}

/// The settings that a table spells, within the limits that it states.
fn living_of(alloc: Global, table: &Table) -> Result<Option<WorldSettings>, AllocError>
    ensures { IfOk result (λ settings. option_map document_seen settings ≡ living_of (table_view table.now)) }
{
    if !has_only(
        table,
        &[
            "limits", "answers", "again", "tries", "pharmacy", "switch", "payer", "route",
        ],
    ) {
        return Ok(None);
    }
    living_with(alloc, table)
}

/// The settings that the values of a table spell, within the limits that it states.
fn living_with(alloc: Global, table: &Table) -> Result<Option<WorldSettings>, AllocError>
    ensures { IfOk result (λ settings. option_map document_seen settings ≡ living_with (table_view table.now)) }
{
    let Some(limits) = limits_in(table) else {
        return Ok(None);
    };
    match answers_in(table) {
        Some(carries) => settings_within(alloc, true, carries, limits, table),
        None => Ok(None),
    }
}

/// The settings that the values of a table spell, within limits; wide ones have further keys.
fn settings_within(
    alloc: Global,
    wide: bool,
    carries: bool,
    limits: Limits,
    table: &Table,
) -> Result<Option<WorldSettings>, AllocError>
    ensures { IfOk result (λ settings. option_map document_seen settings
        ≡ settings_within wide carries limits (table_view table.now)) }
{
    match document_with(alloc, wide, carries, table)? {
        Some(settings) => Ok(allowed(limits, settings)),
        None => Ok(None),
    }
}

/// The settings, where they stay within the limits.
fn allowed(limits: Limits, settings: WorldSettings) -> Option<WorldSettings>
    ensures { option_map document_seen result ≡ allowed limits (document_seen settings) }
{
    if !allows(limits, &settings) {
        return None;
    }
    Some(settings)
}

/// The settings that the values of a table spell; in wide ones payers may ask, answers carry what advices say beside their
/// rulings or not, and routes may be for some providers alone or lead to no payer.
#[tactic(auto, unfolding(crate::specs::Document::document_with))]
pub(crate) fn document_with(
    alloc: Global,
    wide: bool,
    carries: bool,
    table: &Table,
) -> Result<Option<WorldSettings>, AllocError>
    ensures { IfOk result (λ settings. option_map document_seen settings
        ≡ document_with wide carries (table_view table.now)) }
{
    let (Some(again), Some(tries)) = (word_at(table, "again"), word_at(table, "tries")) else {
        return Ok(None);
    };
    let Some(pharmacies) = list_at(alloc, table, "pharmacy", &Pharmacies { again, tries })? else {
        return Ok(None);
    };
    let Some(switches) = list_at(alloc, table, "switch", &Switches)? else {
        return Ok(None);
    };
    let Some(payers) = list_at(alloc, table, "payer", &Payers { wide, carries })? else {
        return Ok(None);
    };
    let Some(routes) = list_at(alloc, table, "route", &Routes { wide })? else {
        return Ok(None);
    };
    Ok(Some(WorldSettings {
        pharmacies,
        switches,
        payers,
        routes,
    }))
}
