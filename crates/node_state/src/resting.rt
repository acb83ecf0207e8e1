//! The record of a node at rest, under the settings of its world.

ghost use Rattle.std.specs.Prelude.{◌≡◌, map, IfNone, IfSome};
ghost use Rattle.std.specs.Option.{option_copied};
ghost use Rattle.claim_model.specs.Node.{Pharmacy, Switch, Payer};
ghost use Rattle.claim_model.specs.Settings.{WorldSettings};
ghost use Rattle.world_setup.specs.Seen.{node_seen, payer_seen, settings_seen};
ghost use Rattle.node_state.specs.Nodes.{OfPharmacy, OfSwitch, OfPayer};
ghost use Rattle.node_state.specs.Resting.{IsRecord, IsResting};

use crate::numbered::of_number;
use crate::payer::PayerNode;
use crate::pharmacy::PharmacyNode;
use crate::powered::State;
use crate::state::{NodeState, StateKind};
use crate::switch::SwitchNode;
use pharmacy_journal::PharmacySettings;
use switch_node::SwitchSettings;
use world_setup::{CheckedSettings, Node, PayerSettings};

impl NodeState {
    /// The bytes of its record, where it is at rest and is the node of that name under these settings: what the settings make of
    /// them is the node that a call to start it makes. `None` where it is up, or is no node of that name under them.
    pub fn record(&self, settings: &CheckedSettings, node: Node) -> Option<&[u8]>
        ensures record { IfSome (option_copied result) (λ bytes.
            IsRecord (settings_seen settings.now) (node_seen node) bytes self.now) }
        ensures none { IfNone result (IsResting (settings_seen settings.now) (node_seen node) self.now → ⊥) }
    {
        let settings = settings.settings();
        match (&self.kind, node) {
            (StateKind::Pharmacy(pharmacy), Node::Pharmacy(number)) => {
                pharmacy.record_under(settings.pharmacies.as_slice(), number)
            }
            (StateKind::Switch(switch), Node::Switch(number)) => {
                switch.record_under(settings.switches.as_slice(), number)
            }
            (StateKind::Payer(payer), Node::Payer(number)) => {
                payer.record_under(settings.payers.as_slice(), number)
            }
            _ => None,
        }
    }
}

impl PharmacyNode {
    /// The bytes of its record, where it is at rest and has this number and its settings.
    fn record_under(&self, pharmacies: &[PharmacySettings], number: u16) -> Option<&[u8]>
        ensures record { (s : WorldSettings) → s.pharmacies ≡ pharmacies.now
            → IfSome (option_copied result) (λ bytes. IsRecord s (Pharmacy number) bytes (OfPharmacy self.now)) }
        ensures none { (s : WorldSettings) → s.pharmacies ≡ pharmacies.now
            → IfNone result (IsResting s (Pharmacy number) (OfPharmacy self.now) → ⊥) }
    {
        let settings = of_number(pharmacies, number)?;
        match &self.state {
            State::Up(_) => None,
            State::AtRest(kept) => kept.record_under(number, settings),
        }
    }
}

impl SwitchNode {
    /// The bytes of its record, where it is at rest and there are settings of this number.
    fn record_under(&self, switches: &[SwitchSettings], number: u16) -> Option<&[u8]>
        ensures record { (s : WorldSettings) → s.switches ≡ switches.now
            → IfSome (option_copied result) (λ bytes. IsRecord s (Switch number) bytes (OfSwitch self.now)) }
        ensures none { (s : WorldSettings) → s.switches ≡ switches.now
            → IfNone result (IsResting s (Switch number) (OfSwitch self.now) → ⊥) }
    {
        let settings = of_number(switches, number)?;
        match &self.state {
            State::Up(_) => None,
            State::AtRest(kept) => Some(kept.record_under(*settings)),
        }
    }
}

impl PayerNode {
    /// The bytes of its record, where it is at rest and has this number and its settings.
    fn record_under(&self, payers: &[PayerSettings], number: u16) -> Option<&[u8]>
        ensures record { (s : WorldSettings) → s.payers ≡ map payer_seen payers.now
            → IfSome (option_copied result) (λ bytes. IsRecord s (Payer number) bytes (OfPayer self.now)) }
        ensures none { (s : WorldSettings) → s.payers ≡ map payer_seen payers.now
            → IfNone result (IsResting s (Payer number) (OfPayer self.now) → ⊥) }
    {
        let settings = of_number(payers, number)?;
        match &self.state {
            State::Up(_) => None,
            State::AtRest(kept) => kept.record_under(number, settings.book),
        }
    }
}
