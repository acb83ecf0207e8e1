//! Events of a world.

use crate::node::Node;
use octets::Octets;

/// An event: one call on one node of a world (own). Losing a packet is never delivering it, repeating it is
/// delivering it again.
#[derive(Drop, PartialEq, Eq)]
pub enum Event {
    /// A pharmacy submits a request.
    Submit {
        /// The pharmacy's number.
        pharmacy: u16,
        /// The request's bytes.
        text: Octets,
    },
    /// One tick of a pharmacy's time.
    Tick {
        /// The pharmacy's number.
        pharmacy: u16,
    },
    /// The packet of this number, from 1, reaches its addressee.
    Deliver {
        /// The packet's number.
        packet: u64,
    },
    /// A node stops.
    Stop(Node),
    /// A node starts again.
    Start(Node),
    /// A payer changes the price of a product in its plan.
    Plan {
        /// The payer's number.
        payer: u16,
        /// The product.
        product: Octets,
        /// Its price in ten-thousandths of a dollar a unit, or `None` to take it off the plan.
        price: Option<u32>,
    },
    /// A payer changes the terms of its plan.
    Terms {
        /// The payer's number.
        payer: u16,
        /// The most that it pays as a dispensing fee, in cents.
        fee: u32,
        /// What a patient pays, in cents.
        copay: u32,
    },
    /// A pharmacy goes by another rule of retries.
    Retry {
        /// The pharmacy's number.
        pharmacy: u16,
        /// The numbers of the switches that it tries in turn, two bytes each, the higher first.
        nodes: Octets,
        /// After how many ticks an entry is sent again.
        again: u32,
        /// How often an entry is sent to one switch.
        tries: u32,
    },
    /// A switch that is at rest gets another cap, with which it starts.
    Cap {
        /// The switch's number.
        switch: u16,
        /// The most requests in its table, 1 to 16,777,216; another number stands for the nearest of these.
        entries: u32,
    },
    /// The packet of this number, from 1, reaches its addressee, a payer that asks, with an advice.
    Adjudicate {
        /// The packet's number.
        packet: u64,
        /// The answer of the payer's own system to the request in the packet.
        advice: Octets,
    },
}
