//! The limits that the table `limits` states, and whether settings stay within limits.

ghost use Rattle.std.specs.Prelude.{◌≡◌, length, map};
ghost use Rattle.toml.specs.View.{table_view};
ghost use Rattle.claim_model.specs.Settings.{PayerSettings as PayerSeen};
ghost use Rattle.claim_model.specs.Journal.{PharmacySettings as PharmacySeen};
ghost use Rattle.world_setup.specs.Seen.{payer_seen, settings_seen};
ghost use Rattle.world_settings.specs.Limits.{allows, caps_fit, caps_within, has_room, limit_at, limits_in, limits_table, limits_with, one_at_least};

use crate::keys::has_only;
use crate::values::{value_at, word};
use claim_model::Limits;
use pharmacy_journal::PharmacySettings;
use switch_node::SwitchSettings;
use toml::Table;
use world_setup::{PayerSettings, WorldSettings};

/// The limits of a document: those of its table `limits`, or the stated ones where there is none.
pub(crate) fn limits_in(table: &Table) -> Option<Limits>
    ensures { result ≡ limits_in (table_view table.now) }
{
    match value_at(table, "limits") {
        None => Some(Limits::stated()),
        Some(value) => match value.as_table() {
            Some(limits) => limits_table(limits),
            None => None,
        },
    }
}

/// The limits that the table spells.
fn limits_table(table: &Table) -> Option<Limits>
    ensures { result ≡ limits_table (table_view table.now) }
{
    if !has_only(table, &["pharmacies", "switches", "payers", "entries"]) {
        return None;
    }
    limits_with(table)
}

/// The limits that the values of the table spell.
#[tactic(auto, unfolding(crate::specs::Limits::limits_with))]
fn limits_with(table: &Table) -> Option<Limits>
    ensures { result ≡ limits_with (table_view table.now) }
{
    let stated = Limits::stated();
    let pharmacies = limit_at(table, "pharmacies", stated.pharmacies())?;
    let switches = limit_at(table, "switches", stated.switches())?;
    let payers = limit_at(table, "payers", stated.payers())?;
    let entries = limit_at(table, "entries", stated.entries())?;
    Limits::new(pharmacies, switches, payers, entries)
}

/// The limit at a key; where the key is not there, the one that holds without it.
fn limit_at(table: &Table, key: &str, other: u32) -> Option<u32>
    ensures { result ≡ limit_at key.now other (table_view table.now) }
{
    match value_at(table, key) {
        None => Some(other),
        Some(value) => match word(value) {
            Some(limit) => one_at_least(limit),
            None => None,
        },
    }
}

/// A limit that is 1 at least.
fn one_at_least(limit: u32) -> Option<u32>
    ensures { result ≡ one_at_least limit }
{
    if limit == 0 {
        return None;
    }
    Some(limit)
}

/// Whether there are no more nodes of a kind, and no larger caps, than the limits allow.
pub(crate) fn allows(limits: Limits, settings: &WorldSettings) -> bool
    ensures { result ≡ allows limits (settings_seen settings.now) }
{
    has_room(limits, settings) && caps_fit(limits.entries(), settings)
}

/// Whether there may be this many pharmacies, switches and payers.
fn has_room(limits: Limits, settings: &WorldSettings) -> bool
    ensures { result ≡ has_room limits (length settings.now.pharmacies.items) (length settings.now.switches.items)
        (length settings.now.payers.items) }
{
    settings.pharmacies.len() <= limits.pharmacies() as usize
        && settings.switches.len() <= limits.switches() as usize
        && settings.payers.len() <= limits.payers() as usize
}

/// Whether no node may have more entries, slots or rows than these.
fn caps_fit(most: u32, settings: &WorldSettings) -> bool
    ensures { result ≡ caps_fit most (settings_seen settings.now) }
{
    if !journals_within(settings.pharmacies.as_slice(), most) {
        return false;
    }
    if !tables_within(settings.switches.as_slice(), most) {
        return false;
    }
    books_within(settings.payers.as_slice(), most)
}

/// Whether no journal may have more entries than these.
fn journals_within(pharmacies: &[PharmacySettings], most: u32) -> bool
    ensures { result ≡ caps_within (λ (p : PharmacySeen). p.cap) most pharmacies.now }
{
    pharmacies.iter().all(|pharmacy| pharmacy.cap() <= most)
}

/// Whether no table may have more slots than these.
fn tables_within(switches: &[SwitchSettings], most: u32) -> bool
    ensures { result ≡ caps_within (λ cap. cap) most switches.now }
{
    switches.iter().all(|switch| switch.cap() <= most)
}

/// Whether no book may have more rows than these, in the words of the model.
fn books_within(payers: &[PayerSettings], most: u32) -> bool
    ensures { result ≡ caps_within (λ (p : PayerSeen). p.book.cap) most (map payer_seen payers.now) }
{
    are_within(payers, most)
}

/// Whether no book may have more rows than these.
fn are_within(payers: &[PayerSettings], most: u32) -> bool
    ensures { result ≡ caps_within (λ p. p.book.cap) most payers.now }
{
    payers.iter().all(|payer| payer.book.cap() <= most)
}
