//! Rows of routes under old and new settings.

ghost use Rattle.std.specs.Prelude.{◌≡◌, not};
ghost use Rattle.std.specs.Option.{option_map};
ghost use Rattle.std.specs.List.{list_any, position_from};
ghost use Rattle.bin_routes.specs.Providers.{is_up_to};
ghost use Rattle.bin_routes.specs.Row.{Row};
ghost use Rattle.bin_routes.specs.Table.{is_ranged};
ghost use Rattle.log_growth.specs.Compared.{covers, has_bin, has_new_range, is_in_range, is_in_row, is_for, is_new_range, rejects_routed, same_row, takes_claims, takes_from, takes_range};

use bin_routes::{Providers, RouteRow};
use pharmacy_journal::PharmacySettings;

/// The place of the first old row that is not among the new ones.
pub(crate) fn first_gone(old: &[RouteRow], new: &[RouteRow]) -> Option<usize>
    ensures { result ≡ position_from (λ (row : Row). not (list_any (same_row row) new.now)) 0 old.now }
{
    old.iter().position(|row| !has_row(new, row))
}

/// The place of the first new row that takes claims from an old one.
pub(crate) fn first_taking(old: &[RouteRow], new: &[RouteRow]) -> Option<usize>
    ensures { result ≡ position_from (λ (row : Row). takes_claims old.now row) 0 new.now }
{
    new.iter().position(|row| takes_claims(old, row))
}

/// The place of the first new row for some providers of which one is an old pharmacy.
pub(crate) fn first_range(
    pharmacies: &[PharmacySettings],
    old: &[RouteRow],
    new: &[RouteRow],
) -> Option<usize>
    ensures { result ≡ position_from (λ (row : Row). takes_range pharmacies.now old.now row) 0 new.now }
{
    new.iter().position(|row| takes_range(pharmacies, old, row))
}

/// Whether some new row is for some providers of a BIN that an old row has.
pub(crate) fn has_new_range(old: &[RouteRow], new: &[RouteRow]) -> bool
    ensures { result ≡ has_new_range old.now new.now }
{
    new.iter()
        .any(|row| is_new_range(old, row) && has_bin(old, row))
}

/// Whether a row is new and for some providers, an old row has its BIN number, and an old pharmacy is one of the providers.
fn takes_range(pharmacies: &[PharmacySettings], old: &[RouteRow], row: &RouteRow) -> bool
    ensures { result ≡ takes_range pharmacies.now old.now row.now }
{
    is_new_range(old, row) && (has_bin(old, row) && has_pharmacy(pharmacies, row))
}

/// Whether a row is for some providers, and is none of these.
fn is_new_range(old: &[RouteRow], row: &RouteRow) -> bool
    ensures { result ≡ is_new_range old.now row.now }
{
    row.rejected().is_none() && (row.providers().is_some() && !has_row(old, row))
}

/// The place of the first new row that lets requests stay rejected which may have had a route.
pub(crate) fn first_rejecting(old: &[RouteRow], new: &[RouteRow]) -> Option<usize>
    ensures { result ≡ position_from (λ (row : Row). rejects_routed old.now row) 0 new.now }
{
    new.iter().position(|row| rejects_routed(old, row))
}

/// Whether a row is new, lets requests stay rejected, and one of these leads to a payer for some of its BIN and processor
/// control number.
fn rejects_routed(old: &[RouteRow], row: &RouteRow) -> bool
    ensures { result ≡ rejects_routed old.now row.now }
{
    row.rejected().is_some() && (!has_row(old, row) && is_covered(old, row))
}

/// Whether one of these leads to a payer for some of the BIN and the processor control number of a row.
fn is_covered(rows: &[RouteRow], row: &RouteRow) -> bool
    ensures { result ≡ list_any (covers row.now) rows.now }
{
    rows.iter().any(|other| covers(row, other))
}

/// Whether the other leads to a payer for some of the BIN and the processor control number of a row.
fn covers(row: &RouteRow, other: &RouteRow) -> bool
    ensures { result ≡ covers row.now other.now }
{
    other.rejected().is_none() && (row.bin() == other.bin() && is_for(row.pcn(), other.pcn()))
}

/// Whether a row of the other processor control number, or of none, is for this one.
fn is_for(pcn: Option<&[u8]>, other: Option<&[u8]>) -> bool
    ensures { result ≡ is_for (option_map (λ p. p.now) pcn.entry) (option_map (λ p. p.now) other.entry) }
{
    other.is_none() || pcn == other
}

/// Whether one of these rows has the BIN number of a row.
fn has_bin(rows: &[RouteRow], row: &RouteRow) -> bool
    ensures { result ≡ list_any (has_bin row.now) rows.now }
{
    rows.iter().any(|other| row.bin() == other.bin())
}

/// Whether one of these pharmacies is a provider of a row.
fn has_pharmacy(pharmacies: &[PharmacySettings], row: &RouteRow) -> bool
    ensures { result ≡ list_any (is_in_row row.now) pharmacies.now }
{
    pharmacies.iter().any(|pharmacy| is_in_row(row, pharmacy))
}

/// Whether a pharmacy is a provider of a row for some providers.
fn is_in_row(row: &RouteRow, pharmacy: &PharmacySettings) -> bool
    ensures { result ≡ is_in_row row.now pharmacy.now }
{
    match row.providers() {
        Some(providers) => is_in_range(&providers, pharmacy),
        None => false,
    }
}

/// Whether a pharmacy is one of these providers.
#[tactic(auto, unfolding(bin_routes::specs::Providers::have))]
fn is_in_range(providers: &Providers, pharmacy: &PharmacySettings) -> bool
    ensures { result ≡ is_in_range providers.now pharmacy.now }
{
    let provider = pharmacy.provider();
    providers.qualifier == pharmacy.qualifier()
        && is_up_to(&providers.first, &provider)
        && is_up_to(&provider, &providers.last)
}

/// Whether the first is the second or before it, in the order of bytes.
fn is_up_to(a: &[u8; 15], b: &[u8; 15]) -> bool
    ensures { result ≡ is_up_to a.now b.now }
{
    a.cmp(b).is_le()
}

/// Whether a row is one of these.
fn has_row(rows: &[RouteRow], row: &RouteRow) -> bool
    ensures { result ≡ list_any (same_row row.now) rows.now }
{
    rows.iter().any(|other| is_same(row, other))
}

/// Whether a row is none of these, and takes claims from one of them.
fn takes_claims(rows: &[RouteRow], row: &RouteRow) -> bool
    ensures { result ≡ takes_claims rows.now row.now }
{
    !has_row(rows, row) && takes_from_some(rows, row)
}

/// Whether a row takes claims from one of these.
fn takes_from_some(rows: &[RouteRow], row: &RouteRow) -> bool
    ensures { result ≡ list_any (takes_from row.now) rows.now }
{
    rows.iter().any(|other| takes_from(row, other))
}

/// Whether two rows have the same texts, the same providers and the same payer.
fn is_same(row: &RouteRow, other: &RouteRow) -> bool
    ensures { result ≡ same_row row.now other.now }
{
    (row.bin() == other.bin() && row.pcn() == other.pcn())
        && (row.providers() == other.providers()
            && (row.payer() == other.payer() && row.rejected() == other.rejected()))
}

/// Whether a row of BIN and processor control number for all providers takes claims from one of the BIN alone, which leads to
/// another payer.
fn takes_from(row: &RouteRow, other: &RouteRow) -> bool
    ensures { result ≡ takes_from row.now other.now }
{
    row.providers().is_none()
        && row.pcn().is_some()
        && other.pcn().is_none()
        && row.bin() == other.bin()
        && row.payer() != other.payer()
}
