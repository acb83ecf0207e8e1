//! Calls on one node, and what a node sends.

ghost use Rattle.std.specs.Prelude.{◌≡◌};
ghost use Rattle.world_setup.specs.Seen.{call_seen, lent_seen, sent_seen};

use crate::node::Node;
use octets::Octets;
use pharmacy_journal::ForSwitch;

/// A call on one node, with texts of its own; or with those of another, as `Call<&Octets>` (own).
#[derive(Debug, Drop, PartialEq, Eq)]
pub enum Call<O = Octets> {
    /// A pharmacy submits the request with this text.
    Submit(O),
    /// One tick of a pharmacy's time.
    Tick,
    /// A node takes a packet.
    Take {
        /// Who sent the packet.
        from: Node,
        /// The packet's bytes.
        bytes: O,
    },
    /// A node stops.
    Stop,
    /// A node starts again.
    Start,
    /// A payer changes the price of a product in its plan.
    Plan {
        /// The product.
        product: O,
        /// Its price in ten-thousandths of a dollar a unit, or `None` to take it off the plan.
        price: Option<u32>,
    },
    /// A payer changes the terms of its plan.
    Terms {
        /// The most that it pays as a dispensing fee, in cents.
        fee: u32,
        /// What a patient pays, in cents.
        copay: u32,
    },
    /// A pharmacy goes by another rule of retries.
    Retry {
        /// The numbers of the switches that it tries in turn, two bytes each, the higher first.
        nodes: O,
        /// After how many ticks an entry is sent again.
        again: u32,
        /// How often an entry is sent to one switch.
        tries: u32,
    },
    /// A switch that is at rest gets another cap, with which it starts.
    Cap {
        /// The most requests in its table, 1 to 16,777,216; another number stands for the nearest of these.
        entries: u32,
    },
    /// A payer that asks takes a packet with an advice.
    Adjudicate {
        /// Who sent the packet.
        from: Node,
        /// The packet's bytes.
        bytes: O,
        /// The answer of the payer's own system to the request in the packet.
        advice: O,
    },
}

impl Call {
    /// The same call, its texts lent.
    pub fn lent(&self) -> Call<&Octets>
        ensures { lent_seen result ≡ call_seen self.now }
    {
        match self {
            Call::Submit(text) => Call::Submit(text),
            Call::Tick => Call::Tick,
            Call::Take { from, bytes } => Call::Take { from: *from, bytes },
            Call::Stop => Call::Stop,
            Call::Start => Call::Start,
            Call::Plan { product, price } => Call::Plan {
                product,
                price: *price,
            },
            Call::Terms { fee, copay } => Call::Terms {
                fee: *fee,
                copay: *copay,
            },
            Call::Retry {
                nodes,
                again,
                tries,
            } => Call::Retry {
                nodes,
                again: *again,
                tries: *tries,
            },
            Call::Cap { entries } => Call::Cap { entries: *entries },
            Call::Adjudicate {
                from,
                bytes,
                advice,
            } => Call::Adjudicate {
                from: *from,
                bytes,
                advice,
            },
        }
    }
}

/// What a node sends.
#[derive(Debug, Drop, PartialEq, Eq)]
pub struct Sent {
    /// The addressee.
    pub to: Node,
    /// The packet's bytes.
    pub bytes: Octets,
}

impl ForSwitch for Sent {
    ghost seen = { sent_seen };

    fn for_switch(switch: u16, bytes: Octets) -> Sent {
        Sent {
            to: Node::Switch(switch),
            bytes,
        }
    }
}

/// A packet that was sent.
#[derive(Debug, Drop, PartialEq, Eq)]
pub struct Packet {
    /// The sender.
    pub from: Node,
    /// The addressee.
    pub to: Node,
    /// The packet's bytes.
    pub bytes: Octets,
}
