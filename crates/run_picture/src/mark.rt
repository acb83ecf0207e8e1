//! One mark of a picture.

use world_setup::{Fault, Node};

/// A mark of a picture. Events are told by their number in the schedule, packets by theirs, both from 1.
#[derive(Clone, Copy, Debug, PartialEq, Eq)]
pub enum Mark {
    /// A pharmacy submitted a request.
    Submitted {
        event: u64,
        pharmacy: u16,
    },
    /// A tick of a pharmacy's time.
    Ticked {
        event: u64,
        pharmacy: u16,
    },
    /// A packet was taken by its addressee: an arrow from its sending ends here.
    Arrived {
        event: u64,
        packet: u64,
    },
    /// A node stopped.
    Stopped {
        event: u64,
        node: Node,
    },
    /// A node started.
    Started {
        event: u64,
        node: Node,
    },
    /// A payer changed its plan, or a pharmacy its rule of retries.
    Revised {
        event: u64,
        node: Node,
    },
    /// The event sent a packet.
    Sent {
        event: u64,
        packet: u64,
        from: Node,
        to: Node,
    },
    /// The event was refused.
    Refused {
        event: u64,
        fault: Fault,
    },
}

impl Mark {
    /// The number of its event.
    pub(crate) fn event(&self) -> u64 {
        match *self {
            Mark::Submitted { event, .. }
            | Mark::Ticked { event, .. }
            | Mark::Arrived { event, .. }
            | Mark::Stopped { event, .. }
            | Mark::Started { event, .. }
            | Mark::Revised { event, .. }
            | Mark::Sent { event, .. }
            | Mark::Refused { event, .. } => event,
        }
    }
}
