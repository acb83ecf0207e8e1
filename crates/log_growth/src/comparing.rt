//! Settings beside those that they are to have grown to.

ghost use Rattle.std.specs.Prelude.{◌≡◌, None};
ghost use Rattle.world_setup.specs.Seen.{settings_seen};
ghost use Rattle.log_growth.specs.Compared.{HasGrownTo, first_ungrown, node_ungrown, route_ungrown};

use crate::payers::first_payer;
use crate::pharmacies::first_pharmacy;
use crate::rows::{first_gone, first_range, first_rejecting, first_taking};
use crate::switches::first_switch;
use crate::ungrown::Ungrown;
use bin_routes::RouteRow;
use pharmacy_journal::PharmacySettings;
use world_setup::{CheckedSettings, WorldSettings};

/// The first thing of these settings that has not grown to what it is in the new ones; where there is none, the new ones
/// have grown from these. Both are such as a world takes.
///
/// Of nodes the answer is exact. Of routes it is on the safe side: a new route of BIN and processor control number under an
/// old one of the BIN alone has to lead to the same payer. A new route for some providers may have another payer than they
/// had where no old pharmacy is one of them. A new row that lets requests stay rejected has to be for a BIN and processor
/// control number of which no request had a route.
pub(crate) fn first_ungrown(old: &CheckedSettings, new: &CheckedSettings) -> Option<Ungrown>
    ensures first { result ≡ first_ungrown old.now new.now }
    ensures grows { result ≡ None → HasGrownTo old.now new.now }
{
    let earlier = old.settings();
    let later = new.settings();
    if let Some(found) = first_node(earlier, later) {
        return Some(found);
    }
    match first_route(
        earlier.pharmacies.as_slice(),
        earlier.routes.as_slice(),
        later.routes.as_slice(),
    ) {
        Some(found) => Some(found),
        None => None,
    }
}

/// The first route that has not grown, where these were the pharmacies.
fn first_route(
    pharmacies: &[PharmacySettings],
    old: &[RouteRow],
    new: &[RouteRow],
) -> Option<Ungrown>
    ensures { result ≡ route_ungrown pharmacies.now old.now new.now }
{
    if let Some(place) = first_gone(old, new) {
        return Some(Ungrown::RouteGone(place));
    }
    if let Some(place) = first_taking(old, new) {
        return Some(Ungrown::RouteTaken(place));
    }
    if let Some(place) = first_range(pharmacies, old, new) {
        return Some(Ungrown::RangeTaken(place));
    }
    first_rejecting(old, new).map(Ungrown::RouteRejected)
}

/// The first node that has not grown.
fn first_node(old: &WorldSettings, new: &WorldSettings) -> Option<Ungrown>
    ensures { result ≡ node_ungrown (settings_seen old.now) (settings_seen new.now) }
{
    if let Some(number) = first_pharmacy(old.pharmacies.as_slice(), new.pharmacies.as_slice()) {
        return Some(Ungrown::Pharmacy(number));
    }
    if let Some(number) = first_switch(old.switches.as_slice(), new.switches.as_slice()) {
        return Some(Ungrown::Switch(number));
    }
    first_payer(old.payers.as_slice(), new.payers.as_slice()).map(Ungrown::Payer)
}
