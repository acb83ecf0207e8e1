//! What each kind of node sends, with its addressee.

ghost use Rattle.std.specs.Prelude.{◌≡◌};
ghost use Rattle.claim_model.specs.Node.{Pharmacy as OfPharmacy, to_switch, to_payer_or_back};
ghost use Rattle.switch_node.specs.Sent.{routed_as};
ghost use Rattle.world_setup.specs.Seen.{sent_seen};

use envelope::TxnId;
use octets::Octets;
use pharmacy_journal::Sent as ForSwitch;
use switch_node::Routed;
use world_setup::{Node, Sent};

/// A pharmacy's packet.
pub fn to_switch(packet: ForSwitch) -> Sent
    ensures { sent_seen result ≡ to_switch packet }
{
    Sent {
        to: Node::Switch(packet.to()),
        bytes: packet.into_bytes(),
    }
}

/// What a switch sends for a request of this id.
pub fn to_payer_or_back(id: TxnId, routed: Routed) -> Sent
    ensures { sent_seen result ≡ to_payer_or_back (OfPharmacy id.pharmacy) (routed_as routed) }
{
    match routed {
        Routed::Forward(payer, bytes) => Sent {
            to: Node::Payer(payer.get()),
            bytes,
        },
        Routed::Answer(bytes) => to_pharmacy(id, bytes),
    }
}

/// A packet for the pharmacy of an id.
pub fn to_pharmacy(id: TxnId, bytes: Octets) -> Sent
    ensures { sent_seen result ≡ record { to = OfPharmacy id.pharmacy; bytes = bytes } }
{
    Sent {
        to: Node::Pharmacy(id.pharmacy()),
        bytes,
    }
}
