//! The nodes of an opening world.

ghost use Rattle.std.specs.Prelude.{◌≡◌, ◌<◌, ◌≤◌, true, None, Some, IsSome, IfOk, length, map};
ghost use Rattle.std.specs.List.{list_all};
ghost use Rattle.claim_model.specs.Limits.{most_payers};
ghost use Rattle.claim_model.specs.Numbered.{numbered};
ghost use Rattle.claim_model.specs.Settings.{opening, pharmacies_from, switches_of, payers_from};
ghost use Rattle.world_setup.specs.Seen.{node_seen, settings_seen, payer_seen};
ghost use Rattle.node_state.specs.Nodes.{node_at, has_node};

use crate::payer::PayerNode;
use crate::pharmacy::PharmacyNode;
use crate::state::NodeState;
use crate::switch::SwitchNode;
use bin_routes::PayerNo;
use pharmacy_journal::PharmacySettings;
use std::alloc::{AllocError, Global};
use switch_node::SwitchSettings;
use world_setup::{CheckedSettings, Node, PayerSettings};

impl NodeState {
    /// The node of that name as a world of these settings opens with it, up and empty. The world has the node.
    pub fn opening(
        alloc: Global,
        settings: &CheckedSettings,
        node: Node,
    ) -> Result<NodeState, AllocError>
        requires { IsSome (node_at (opening (settings_seen settings.now)) (node_seen node)) }
        ensures { IfOk result (λ o. node_at (opening (settings_seen settings.now)) (node_seen node) ≡ Some o) }
    {
        let settings = settings.settings();
        match node {
            Node::Pharmacy(number) => {
                let pharmacy = pharmacy_of(alloc, settings.pharmacies.as_slice(), number)?;
                Ok(NodeState::pharmacy(pharmacy))
            }
            Node::Switch(number) => {
                let switch = switch_of(alloc, settings.switches.as_slice(), number);
                Ok(NodeState::switch(switch))
            }
            Node::Payer(number) => {
                let payer = payer_of(alloc, settings.payers.as_slice(), number)?;
                Ok(NodeState::payer(payer))
            }
        }
    }
}

/// The pharmacy of a number that is there.
fn pharmacy_of(
    alloc: Global,
    pharmacies: &[PharmacySettings],
    number: u16,
) -> Result<PharmacyNode, AllocError>
    requires nodes { list_all has_node pharmacies.now ≡ true }
    requires some { 0 < number }
    requires there { number ≤ length pharmacies.now }
    ensures { IfOk result (λ opened. numbered (pharmacies_from 1 pharmacies.now) number ≡ Some opened) }
{
    let settings = pharmacies[number as usize - 1].copy()?;
    PharmacyNode::new(alloc, number, settings)
}

/// The switch of a number that is there.
fn switch_of(alloc: Global, switches: &[SwitchSettings], number: u16) -> SwitchNode
    requires some { 0 < number }
    requires there { number ≤ length switches.now }
    ensures { numbered (switches_of switches.now) number ≡ Some result }
{
    SwitchNode::new(alloc, switches[number as usize - 1])
}

/// The payer of a number that is there.
fn payer_of(alloc: Global, payers: &[PayerSettings], number: u16) -> Result<PayerNode, AllocError>
    requires few { length payers.now ≤ most_payers }
    requires some { 0 < number }
    requires there { number ≤ length payers.now }
    ensures { IfOk result (λ opened. numbered (payers_from 1 (map payer_seen payers.now)) number ≡ Some opened) }
{
    let Some(payer) = PayerNo::new(number) else {
        unreachable!()
    };
    let settings = payers[number as usize - 1].copy()?;
    let PayerSettings { book, plan, keys } = settings;
    Ok(PayerNode::keyed(alloc, payer, book, plan, &keys))
}
