//! The row that a table of the array `route` spells.

ghost use Rattle.std.specs.Prelude.{◌≡◌, codes, None, Some, IfOk};
ghost use Rattle.toml.specs.Data.{get_member};
ghost use Rattle.toml.specs.View.{table_view};
ghost use Rattle.world_settings.specs.Keys.{keys_among};
ghost use Rattle.world_settings.specs.Limits.{one_at_least};
ghost use Rattle.world_settings.specs.Routes.{last_rejected, leading_of, pcn_of, rejecting_of, rejecting_with, route_in, route_keys, route_of, route_with};

use crate::keys::has_only;
use crate::lists::Reader;
use crate::ranges::{has, one_provider, providers_of};
use crate::values::{number_at, short_at, text_at, value_at};
use bin_routes::{Providers, RouteRow};
use octets::Octets;
use std::alloc::{AllocError, Global};
use toml::{Table, Value};

/// The largest number of a request that may stay rejected: the largest integer of a TOML document.
const MOST_REJECTED: u64 = 9_223_372_036_854_775_807;

/// Reads rows of the table of routes.
#[derive(Clone, Copy)]
pub(crate) struct Routes {
    /// Whether a row may be for some providers alone, and may lead to no payer.
    pub(crate) wide: bool,
}

impl Reader<RouteRow> for Routes {
    ghost spelled = { λ reader. route_in reader.wide };

    fn read(&self, alloc: Global, value: &Value) -> Result<Option<RouteRow>, AllocError> {
        match value.as_table() {
            Some(table) => route_of(alloc, self.wide, table),
            None => Ok(None),
        }
    }
}

/// The row that a table spells. Where settings are wide it may be for some providers alone, and with the key `rejected` it
/// leads to no payer.
fn route_of(alloc: Global, wide: bool, table: &Table) -> Result<Option<RouteRow>, AllocError>
    ensures { IfOk result (λ row. row ≡ route_of wide (table_view table.now)) }
{
    if wide && has(table, "rejected") {
        return rejecting_of(alloc, table);
    }
    leading_of(alloc, wide, table)
}

/// The row to a payer that a table spells.
fn leading_of(alloc: Global, wide: bool, table: &Table) -> Result<Option<RouteRow>, AllocError>
    ensures { IfOk result (λ row. row ≡ leading_of wide (table_view table.now)) }
{
    if !has_route_keys(wide, table) {
        return Ok(None);
    }
    route_with(alloc, table)
}

/// Whether each key of a table is one of those of a route to a payer.
fn has_route_keys(wide: bool, table: &Table) -> bool
    ensures { result ≡ keys_among (route_keys wide) (table_view table.now) }
{
    if wide {
        return has_only(
            table,
            &[
                "bin",
                "payer",
                "pcn",
                "qualifier",
                "provider",
                "first",
                "last",
            ],
        );
    }
    has_only(table, &["bin", "payer", "pcn"])
}

/// The row to a payer that the values of a table spell.
#[tactic(auto, unfolding(crate::specs::Routes::route_with))]
fn route_with(alloc: Global, table: &Table) -> Result<Option<RouteRow>, AllocError>
    ensures { IfOk result (λ row. row ≡ route_with (table_view table.now)) }
{
    let Some(bin) = text_at(table, "bin") else {
        return Ok(None);
    };
    let Some(payer) = short_at(table, "payer") else {
        return Ok(None);
    };
    let Some(pcn) = pcn_of(alloc, table)? else {
        return Ok(None);
    };
    let Some(providers) = providers_of(table) else {
        return Ok(None);
    };
    let bin = Octets::copy_of(alloc, bin.as_bytes())?;
    Ok(Some(row_of(bin, pcn, providers, payer)))
}

/// The row of these parts.
fn row_of(bin: Octets, pcn: Option<Octets>, providers: Option<Providers>, payer: u16) -> RouteRow
    ensures { result ≡ record { bin = bin; pcn = pcn; providers = providers; payer = payer; rejected = None } }
{
    let row = RouteRow::new(bin, pcn, payer);
    match providers {
        Some(providers) => row.for_providers(providers),
        None => row,
    }
}

/// The row that a table spells whose requests stay rejected.
fn rejecting_of(alloc: Global, table: &Table) -> Result<Option<RouteRow>, AllocError>
    ensures { IfOk result (λ row. row ≡ rejecting_of (table_view table.now)) }
{
    if !has_only(table, &["bin", "pcn", "qualifier", "provider", "rejected"]) {
        return Ok(None);
    }
    rejecting_with(alloc, table)
}

/// The row whose requests stay rejected that the values of a table spell.
#[tactic(auto, unfolding(crate::specs::Routes::rejecting_with))]
fn rejecting_with(alloc: Global, table: &Table) -> Result<Option<RouteRow>, AllocError>
    ensures { IfOk result (λ row. row ≡ rejecting_with (table_view table.now)) }
{
    let Some(bin) = text_at(table, "bin") else {
        return Ok(None);
    };
    let Some(pcn) = text_at(table, "pcn") else {
        return Ok(None);
    };
    let Some(providers) = one_provider(table) else {
        return Ok(None);
    };
    let Some(last) = last_rejected(table) else {
        return Ok(None);
    };
    let bin = Octets::copy_of(alloc, bin.as_bytes())?;
    let pcn = Octets::copy_of(alloc, pcn.as_bytes())?;
    Ok(Some(rejecting_row(bin, pcn, providers, last)))
}

/// The last number that stays rejected, which is 1 at least.
fn last_rejected(table: &Table) -> Option<u64>
    ensures { result ≡ last_rejected (table_view table.now) }
{
    match number_at(table, "rejected", MOST_REJECTED) {
        Some(last) => one_at_least(last),
        None => None,
    }
}

/// A number that is 1 at least.
fn one_at_least(number: u64) -> Option<u64>
    ensures { result ≡ one_at_least number }
{
    if number == 0 {
        return None;
    }
    Some(number)
}

/// The row of these parts, which leads to no payer.
fn rejecting_row(bin: Octets, pcn: Octets, providers: Providers, last: u64) -> RouteRow
    ensures { result ≡ record { bin = bin; pcn = Some pcn; providers = Some providers; payer = 0; rejected = Some last } }
{
    RouteRow::new(bin, Some(pcn), 0)
        .for_providers(providers)
        .rejecting(last)
}

/// The text of the processor control number (104-A4), if there is one; the outer `None` is a value of another type.
fn pcn_of(alloc: Global, table: &Table) -> Result<Option<Option<Octets>>, AllocError>
    ensures { IfOk result (λ pcn. pcn ≡ pcn_of (get_member (codes "pcn") (table_view table.now))) }
{
    let Some(value) = value_at(table, "pcn") else {
        return Ok(Some(None));
    };
    match value.as_str() {
        Some(text) => {
            let pcn = Octets::copy_of(alloc, text.as_bytes())?;
            Ok(Some(Some(pcn)))
        }
        None => Ok(None),
    }
}
