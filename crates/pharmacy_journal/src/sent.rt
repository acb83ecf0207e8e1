//! Packets that a pharmacy sends.

ghost use Rattle.std.specs.Prelude.{◌≡◌};
ghost use Rattle.claim_model.specs.Node.{Sent as SentByNode, to_switch};

use octets::Octets;
use std::marker::Model;

/// What a packet for a switch becomes where a tick sends it.
pub trait ForSwitch: Drop + Sized {
    /// How the model sees it.
    ghost seen: { Self → SentByNode };

    /// A packet for the switch of this number.
    fn for_switch(switch: u16, bytes: Octets) -> Self
        ensures { seen result ≡ to_switch (record { switch = switch; bytes = bytes }) };
}

/// A packet for a switch.
#[derive(Drop)]
pub struct Sent {
    to: u16,
    bytes: Octets,
}

impl Model for Sent {
    ghost use Rattle.claim_model.specs.Journal.{Sending};

    ghost Value = { Sending };

    ghost view = { λ s. record { switch = s.to; bytes = s.bytes } };
}

impl ForSwitch for Sent {
    ghost seen = { to_switch };

    fn for_switch(switch: u16, bytes: Octets) -> Sent {
        Sent::new(switch, bytes)
    }
}

impl Sent {
    /// A packet for the switch of this number.
    pub(crate) fn new(to: u16, bytes: Octets) -> Sent
        ensures { result ≡ record { switch = to; bytes = bytes } }
    {
        Sent { to, bytes }
    }

    /// The switch's number.
    pub fn to(&self) -> u16
        ensures { result ≡ self.now.switch }
    {
        self.to
    }

    /// The packet's bytes, an envelope.
    pub fn bytes(&self) -> &[u8]
        ensures { result.now ≡ self.now.bytes }
    {
        self.bytes.as_slice()
    }

    /// The packet's bytes, which keep their place in memory.
    pub fn into_bytes(self) -> Octets
        ensures { result ≡ self.bytes }
    {
        let Sent { to: _, bytes } = self;
        bytes
    }
}
