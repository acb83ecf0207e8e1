//! How many entries, slots or rows a node may have.

ghost use Rattle.std.specs.Prelude.{◌≡◌};
ghost use Rattle.claim_model.specs.Journal.{PharmacySettings as OfPharmacy};
ghost use Rattle.claim_model.specs.Numbered.{numbered};
ghost use Rattle.world_setup.specs.Seen.{node_seen, settings_seen};
ghost use Rattle.world_setup.specs.declared.settings.PayerSettings as declared;
ghost use Rattle.node_service.specs.Most.{cap_in, most_of};

use pharmacy_journal::PharmacySettings;
use switch_node::SwitchSettings;
use world_setup::{Node, PayerSettings, WorldSettings};

/// The most entries of a pharmacy's journal, slots of a switch's table, or rows of a payer's book; 0 where there is no such node.
#[tactic(auto, using(crate::proofs::Caps::rows_of_payer))]
pub(crate) fn most_of(settings: &WorldSettings, node: Node) -> u32
    ensures { result ≡ most_of (settings_seen settings.now) (node_seen node) }
{
    match node {
        Node::Pharmacy(number) => most_entries(settings.pharmacies.as_slice(), number),
        Node::Switch(number) => most_slots(settings.switches.as_slice(), number),
        Node::Payer(number) => most_rows(settings.payers.as_slice(), number),
    }
}

/// The cap of a pharmacy by its number.
fn most_entries(pharmacies: &[PharmacySettings], number: u16) -> u32
    ensures { result ≡ cap_in (λ (p : OfPharmacy). p.cap) (numbered pharmacies.now number) }
{
    if number == 0 {
        return 0;
    }
    match pharmacies.get(number as usize - 1) {
        Some(one) => one.cap(),
        None => 0,
    }
}

/// The cap of a switch by its number.
fn most_slots(switches: &[SwitchSettings], number: u16) -> u32
    ensures { result ≡ cap_in (λ cap. cap) (numbered switches.now number) }
{
    if number == 0 {
        return 0;
    }
    match switches.get(number as usize - 1) {
        Some(one) => one.cap(),
        None => 0,
    }
}

/// The cap of a payer by its number.
fn most_rows(payers: &[PayerSettings], number: u16) -> u32
    ensures { result ≡ cap_in (λ (p : declared.PayerSettings). p.book.cap) (numbered payers.now number) }
{
    if number == 0 {
        return 0;
    }
    match payers.get(number as usize - 1) {
        Some(one) => one.book.cap(),
        None => 0,
    }
}
