//! Whether settings name nodes of which a world can be made.

ghost use Rattle.std.specs.Prelude.{◌≡◌, IfOk};
ghost use Rattle.std.specs.List.{list_all};
ghost use Rattle.claim_model.specs.Settings.{has_nodes};
ghost use Rattle.world_setup.specs.Taken.{too_many, lacks_node, nodes_fault};

use crate::identity::some_provider_twice;
use crate::settings::WorldSettings;
use crate::world_fault::WorldFault;
use claim_model::Limits;
use pharmacy_journal::{PharmacySettings, have_switches};
use std::alloc::{AllocError, Global};

/// What is wrong with the nodes of settings.
pub(crate) fn nodes_fault(
    alloc: Global,
    settings: &WorldSettings,
) -> Result<Option<WorldFault>, AllocError>
    ensures { IfOk result (λ fault. fault ≡ nodes_fault settings.now) }
{
    if is_too_many(settings) {
        return Ok(Some(WorldFault::TooMany));
    }
    if lacks_node(settings) {
        return Ok(Some(WorldFault::NoNode));
    }
    if some_provider_twice(alloc, settings.pharmacies.as_slice())? {
        return Ok(Some(WorldFault::SameProvider));
    }
    Ok(None)
}

/// Whether there are more nodes of a kind than any settings may have.
fn is_too_many(settings: &WorldSettings) -> bool
    ensures { result ≡ too_many settings.now }
{
    let most = Limits::widest();
    settings.pharmacies.len() > most.pharmacies() as usize
        || settings.switches.len() > most.switches() as usize
        || settings.payers.len() > most.payers() as usize
}

/// Whether there is no node of a kind, or a pharmacy has no switch to send to, or one that is not there.
#[tactic(auto, using(crate::proofs::Checking::empty_by_length))]
fn lacks_node(settings: &WorldSettings) -> bool
    ensures { result ≡ lacks_node settings.now }
{
    settings.pharmacies.is_empty()
        || settings.switches.is_empty()
        || settings.payers.is_empty()
        || !have_nodes(settings.pharmacies.as_slice(), settings.switches.len())
}

/// Whether each pharmacy has switches to send to, all of which are there.
fn have_nodes(pharmacies: &[PharmacySettings], switches: usize) -> bool
    ensures { result ≡ list_all (has_nodes switches) pharmacies.now }
{
    pharmacies
        .iter()
        .all(|settings| has_nodes(settings, switches))
}

/// Whether a pharmacy has switches to send to, all of which are there.
fn has_nodes(settings: &PharmacySettings, switches: usize) -> bool
    ensures { result ≡ has_nodes switches settings.now }
{
    have_switches(settings.nodes(), switches)
}
