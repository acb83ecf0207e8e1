//! The settings of a pharmacy that a table of the array `pharmacy` spells.

ghost use Rattle.std.specs.Prelude.{◌≡◌, codes, IfOk};
ghost use Rattle.toml.specs.View.{table_view};
ghost use Rattle.world_settings.specs.Pharmacies.{identity, pharmacy_in, pharmacy_of, pharmacy_with, taken, of_parts};

use crate::keys::has_only;
use crate::lists::{Reader, Shorts, list_at};
use crate::values::{filled_to_2, filled_to_15, text_at, word_at};
use claim_model::Limits;
use pharmacy_journal::PharmacySettings;
use std::alloc::{AllocError, Global};
use toml::{Table, Value};

/// The most switches that a pharmacy's list may have.
const MOST_NODES: usize = 4_294_967_295;

/// Reads pharmacies, which share the document's rule of retries.
#[derive(Clone, Copy)]
pub(crate) struct Pharmacies {
    /// After how many ticks an entry is sent again.
    pub(crate) again: u32,
    /// How often an entry is sent to one switch.
    pub(crate) tries: u32,
}

impl Reader<PharmacySettings> for Pharmacies {
    ghost spelled = { λ rule. pharmacy_in rule.again rule.tries };

    fn read(&self, alloc: Global, value: &Value) -> Result<Option<PharmacySettings>, AllocError> {
        match value.as_table() {
            Some(table) => pharmacy_of(alloc, self.again, self.tries, table),
            None => Ok(None),
        }
    }
}

/// The settings that a table spells.
fn pharmacy_of(
    alloc: Global,
    again: u32,
    tries: u32,
    table: &Table,
) -> Result<Option<PharmacySettings>, AllocError>
    ensures { IfOk result (λ settings. settings ≡ pharmacy_of again tries (table_view table.now)) }
{
    if !has_only(table, &["qualifier", "provider", "nodes", "cap"]) {
        return Ok(None);
    }
    pharmacy_with(alloc, again, tries, table)
}

/// The settings that the values of a table spell.
#[tactic(auto, unfolding(crate::specs::Pharmacies::pharmacy_with))]
fn pharmacy_with(
    alloc: Global,
    again: u32,
    tries: u32,
    table: &Table,
) -> Result<Option<PharmacySettings>, AllocError>
    ensures { IfOk result (λ settings. settings ≡ pharmacy_with again tries (table_view table.now)) }
{
    let Some(qualifier) = qualifier(table) else {
        return Ok(None);
    };
    let Some(provider) = provider(table) else {
        return Ok(None);
    };
    let Some(nodes) = list_at(alloc, table, "nodes", &Shorts)? else {
        return Ok(None);
    };
    let Some(cap) = word_at(table, "cap") else {
        return Ok(None);
    };
    Ok(taken(qualifier, provider, nodes, again, tries, cap))
}

/// The service provider qualifier (202-B2), filled with spaces.
fn qualifier(table: &Table) -> Option<[u8; 2]>
    ensures { result ≡ identity 2 (codes "qualifier") (table_view table.now) }
{
    match text_at(table, "qualifier") {
        Some(text) => filled_to_2(text.as_bytes()),
        None => None,
    }
}

/// The service provider ID (201-B1), filled with spaces.
fn provider(table: &Table) -> Option<[u8; 15]>
    ensures { result ≡ identity 15 (codes "provider") (table_view table.now) }
{
    match text_at(table, "provider") {
        Some(text) => filled_to_15(text.as_bytes()),
        None => None,
    }
}

/// The settings of these parts, where a pharmacy takes them.
fn taken(
    qualifier: [u8; 2],
    provider: [u8; 15],
    nodes: Vec<u16>,
    again: u32,
    tries: u32,
    cap: u32,
) -> Option<PharmacySettings>
    ensures { result ≡ taken (of_parts qualifier provider nodes.items again tries cap) }
{
    if nodes.len() > MOST_NODES {
        return None;
    }
    let widest = Limits::widest();
    match PharmacySettings::within(widest, qualifier, provider, nodes, again, tries, cap) {
        Ok(settings) => Some(settings),
        Err(_) => None,
    }
}
