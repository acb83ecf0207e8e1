//! The opening world.

ghost use Rattle.std.specs.Prelude.{◌≡◌, ◌<◌, ◌≤◌, length, map, IfOk, OnOk};
ghost use Rattle.std.specs.List.{AllByRecursion};
ghost use Rattle.claim_model.specs.Journal.{PharmacySettings as SettingsSeen};
ghost use Rattle.claim_model.specs.Limits.{most_pharmacies, most_payers};
ghost use Rattle.claim_model.specs.Settings.{IsPharmacySettings, IsBookSettings, opening, pharmacies_from, switches_of, payers_from};
ghost use Rattle.world_setup.specs.Seen.{settings_seen, payer_seen};
ghost use Rattle.world_core.specs.Opening.{HasSwitches, OpensTimely, HasSerial};

use crate::all_nodes::Nodes;
use crate::parts::Parts;
use bin_routes::PayerNo;
use node_state::{PayerNode, PharmacyNode, SwitchNode};
use pharmacy_journal::PharmacySettings;
use std::alloc::{AllocError, Global};
use switch_node::SwitchSettings;
use world_setup::{PayerSettings, WorldSettings};

impl Parts {
    /// All nodes of these settings, up and empty, and no packet.
    pub(crate) fn opening(alloc: Global, settings: WorldSettings) -> Result<Parts, AllocError>
        requires pharmacies { length settings.pharmacies.items ≤ most_pharmacies }
        requires payers { length settings.payers.items ≤ most_payers }
        requires nodes { AllByRecursion HasSwitches settings.pharmacies.items }
        ensures opened { IfOk result (λ p. p ≡ opening (settings_seen settings)) }
        ensures sized { OnOk result (AllByRecursion IsPharmacySettings settings.pharmacies.items) }
        ensures timely { OnOk result (AllByRecursion OpensTimely settings.pharmacies.items) }
        ensures serials { OnOk result (AllByRecursion HasSerial settings.payers.items) }
    {
        let WorldSettings {
            pharmacies,
            switches,
            payers,
            routes: _,
        } = settings;
        let pharmacies = open_pharmacies(alloc, pharmacies)?;
        let switches = open_switches(alloc, switches)?;
        let payers = open_payers(alloc, payers)?;
        Ok(Parts {
            nodes: Nodes {
                pharmacies,
                switches,
                payers,
            },
            packets: Vec::new(alloc),
        })
    }
}

/// Pharmacies of these settings, numbered from 1.
fn open_pharmacies(
    alloc: Global,
    settings: Vec<PharmacySettings>,
) -> Result<Vec<PharmacyNode>, AllocError>
    requires few { length settings.items ≤ most_pharmacies }
    requires nodes { AllByRecursion HasSwitches settings.items }
    ensures opened { IfOk result (λ nodes. nodes.items ≡ pharmacies_from 1 settings.items) }
    ensures sized { OnOk result (AllByRecursion IsPharmacySettings settings.items) }
    ensures timely { OnOk result (AllByRecursion OpensTimely settings.items) }
{
    let mut nodes = Vec::new(alloc);
    for each in settings {
        let _cap = each.cap();
        let number = nodes.len() as u16 + 1;
        nodes.push(PharmacyNode::new(alloc, number, each)?)?;
    }
    Ok(nodes)
}

/// Switches of these settings.
fn open_switches(
    alloc: Global,
    settings: Vec<SwitchSettings>,
) -> Result<Vec<SwitchNode>, AllocError>
    ensures { IfOk result (λ nodes. nodes.items ≡ switches_of settings.items) }
{
    let mut nodes = Vec::new(alloc);
    for each in settings {
        nodes.push(SwitchNode::new(alloc, each))?;
    }
    Ok(nodes)
}

/// Payers of these settings, numbered from 1.
fn open_payers(alloc: Global, settings: Vec<PayerSettings>) -> Result<Vec<PayerNode>, AllocError>
    requires { length settings.items ≤ most_payers }
    ensures opened { IfOk result (λ nodes. nodes.items ≡ payers_from 1 (map payer_seen settings.items)) }
    ensures serials { OnOk result (AllByRecursion HasSerial settings.items) }
{
    let mut nodes = Vec::new(alloc);
    let mut number = 1;
    for each in settings {
        let PayerSettings { book, plan, keys } = each;
        let _serial = book.serial();
        let Some(payer) = PayerNo::new(number) else {
            unreachable!()
        };
        nodes.push(PayerNode::keyed(alloc, payer, book, plan, &keys))?;
        number += 1;
    }
    Ok(nodes)
}
