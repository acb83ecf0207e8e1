//! What a link does to its packets, one after another.

ghost use Rattle.std.specs.Prelude.{◌≡◌, ◌++◌, [], drop, None, OnOk, OnErr, option_to_list, IfSome};
ghost use Rattle.node_threads.specs.Treating.{Arrives, after_packet, next_action};
ghost use Rattle.node_threads.specs.TreatingSeen.{all_arriving};

use std::alloc::{AllocError, Global};
use std::marker::Model;
use world_setup::{Action, Packet};

/// What a link does to the packets that it carries: the i-th takes the i-th action, and past the list packets arrive. A
/// packet that is held arrives once the next one was treated, whatever that one's action is (own).
#[derive(Drop)]
pub(crate) struct Treatment {
    actions: Vec<Action>,
    treated: usize,
    kept: Option<Packet>,
}

impl Model for Treatment {
    ghost use Rattle.std.specs.Prelude.{◌≤◌, drop, vec_len};
    ghost use Rattle.node_threads.specs.Treating.{Treating};

    ghost Value = { Treating };

    ghost view = { λ t. record { left = drop t.treated t.actions.items; kept = t.kept } };

    ghost invariant = { λ t. t.treated ≤ vec_len t.actions };
}

/// What arrives after a packet was treated, in this order.
#[derive(Drop)]
pub(crate) struct Arriving {
    /// The packet itself.
    pub(crate) first: Option<Packet>,
    /// The packet again.
    pub(crate) second: Option<Packet>,
    /// The packet that was held until now.
    pub(crate) let_go: Option<Packet>,
}

impl Treatment {
    /// Every packet arrives.
    pub(crate) fn new(alloc: Global) -> Treatment
        ensures { result ≡ record { left = []; kept = None } }
    {
        Treatment {
            actions: Vec::new(alloc),
            treated: 0,
            kept: None,
        }
    }

    /// Adds actions at the end.
    pub(crate) fn add_actions(&mut self, actions: &[Action]) -> Result<(), AllocError>
        ensures added { OnOk result (self.new ≡ record { left = self.old.left ++ actions.now; kept = self.old.kept }) }
        ensures same { OnErr result (self.new ≡ self.old) }
    {
        self.actions.extend_from_slice(actions)
    }

    /// Treats a packet. Where memory for its second copy is refused it arrives once.
    pub(crate) fn treat(&mut self, packet: Packet) -> Arriving
        ensures arrives { Arrives self.old packet (all_arriving result) }
        ensures after { self.new ≡ after_packet self.old packet }
    {
        let action = self.next_action();
        let held = self.kept.take();
        match action {
            Action::Deliver => arrives(Some(packet), None, held),
            Action::Lose => arrives(None, None, held),
            Action::Twice => {
                let copy = copied(&packet);
                arrives(Some(packet), copy, held)
            }
            Action::Hold => {
                self.kept = Some(packet);
                arrives(None, None, held)
            }
        }
    }

    /// The action for the next packet.
    fn next_action(&mut self) -> Action
        ensures action { result ≡ next_action self.old.left }
        ensures after { self.new ≡ record { left = drop 1 self.old.left; kept = self.old.kept } }
    {
        match self.actions.get(self.treated) {
            Some(action) => {
                let action = *action;
                self.treated += 1;
                action
            }
            None => Action::Deliver,
        }
    }
}

/// What arrives, by its parts.
fn arrives(first: Option<Packet>, second: Option<Packet>, let_go: Option<Packet>) -> Arriving
    ensures { all_arriving result ≡ option_to_list first ++ (option_to_list second ++ option_to_list let_go) }
{
    Arriving {
        first,
        second,
        let_go,
    }
}

/// An equal packet, where there is memory for it.
fn copied(packet: &Packet) -> Option<Packet>
    ensures { IfSome result (λ copy. copy ≡ packet.now) }
{
    let bytes = packet.bytes.copy().ok()?;
    Some(Packet {
        from: packet.from,
        to: packet.to,
        bytes,
    })
}
