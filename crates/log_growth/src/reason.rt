//! In what old settings and new ones differ, in words.

use crate::ungrown::Ungrown;
use pharmacy_journal::PharmacySettings;
use plan_rules::Plan;
use world_setup::{PayerSettings, WorldSettings};

/// What is said of the thing that has not grown.
pub(crate) fn reason(old: &WorldSettings, new: &WorldSettings, found: Ungrown) -> &'static str {
    match found {
        Ungrown::Pharmacy(number) => pharmacies(old, new, number.saturating_sub(1)),
        Ungrown::Switch(number) => switches(new, number.saturating_sub(1)),
        Ungrown::Payer(number) => payers(old, new, number.saturating_sub(1)),
        Ungrown::RouteGone(_) => "is gone, or leads to another payer",
        Ungrown::RouteTaken(_) => "takes claims from a route of its BIN alone",
        Ungrown::RangeTaken(_) => "takes claims of an old pharmacy, which is one of its providers",
        Ungrown::RouteRejected(_) => "rejects claims that may have had a route",
    }
}

/// What is said of the pharmacy at this place.
fn pharmacies(old: &WorldSettings, new: &WorldSettings, place: usize) -> &'static str {
    match (old.pharmacies.get(place), new.pharmacies.get(place)) {
        (Some(old), Some(new)) => of_pharmacy(old, new),
        _ => "is gone",
    }
}

/// What is said of a pharmacy that is another.
fn of_pharmacy(old: &PharmacySettings, new: &PharmacySettings) -> &'static str {
    if old.qualifier() != new.qualifier() || old.provider() != new.provider() {
        return "has another identity";
    }
    if old.nodes() != new.nodes() {
        return "has other nodes";
    }
    if old.again() != new.again() {
        return "has another again";
    }
    if old.tries() != new.tries() {
        return "has other tries";
    }
    "has a smaller cap"
}

/// What is said of the switch at this place.
fn switches(new: &WorldSettings, place: usize) -> &'static str {
    match new.switches.get(place) {
        Some(_) => "has another cap",
        None => "is gone",
    }
}

/// What is said of the payer at this place.
fn payers(old: &WorldSettings, new: &WorldSettings, place: usize) -> &'static str {
    match (old.payers.get(place), new.payers.get(place)) {
        (Some(old), Some(new)) => of_payer(old, new),
        _ => "is gone",
    }
}

/// What is said of a payer that is another.
fn of_payer(old: &PayerSettings, new: &PayerSettings) -> &'static str {
    if new.book.cap() < old.book.cap() {
        return "has a smaller cap";
    }
    if old.book.serial() != new.book.serial() {
        return "has another serial";
    }
    if old.book.asks() != new.book.asks() || old.book.reversals() != new.book.reversals() {
        return "has another asks";
    }
    if old.book.carries() != new.book.carries() {
        return "has other answers";
    }
    of_plan(&old.plan, &new.plan)
}

/// What is said of a payer whose plan is another.
fn of_plan(old: &Plan, new: &Plan) -> &'static str {
    if old.fee() != new.fee() {
        return "has another fee";
    }
    if old.copay() != new.copay() {
        return "has another copay";
    }
    "has other prices"
}
