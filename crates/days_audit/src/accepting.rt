//! Settings that were checked are such as a world takes.

ghost use Rattle.std.specs.Prelude.{◌<◌};
ghost use Rattle.std.specs.List.{AllByRecursion};
ghost use Rattle.claim_model.specs.Settings.{Accepts, IsPharmacySettings};
ghost use Rattle.world_setup.specs.Seen.{settings_seen};
ghost use Rattle.days_audit.specs.Promised.{HasSerial, reading_of};

use bin_routes::number_laws;
use claim_model::routes_lead_to_payers;
use pharmacy_journal::PharmacySettings;
use world_setup::{CheckedSettings, PayerSettings};

/// Settings that were checked are such as a world takes: what the promises of days want of them.
#[tactic(auto, using(crate::proofs::Accepted::accepted))]
pub fn checked_settings_are_accepted(settings: &CheckedSettings)
    ensures { Accepts (reading_of settings.now) (settings_seen settings.now) }
{
    routes_lead_to_payers();
    number_laws();
    let given = settings.settings();
    pharmacies_are_settings(&given.pharmacies);
    payers_have_serials(&given.payers);
}

/// No pharmacy may have too many entries.
fn pharmacies_are_settings(settings: &[PharmacySettings])
    ensures { AllByRecursion IsPharmacySettings settings.now }
{
    for each in settings {
        let _cap = each.cap();
    }
}

/// Each payer has a first serial number.
fn payers_have_serials(settings: &[PayerSettings])
    ensures { AllByRecursion HasSerial settings.now }
{
    for each in settings {
        let _serial = each.book.serial();
    }
}
