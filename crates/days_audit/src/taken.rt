//! The packet that a call takes, and what it is of.

use envelope::{Envelope, Kind, TxnId};
use octets::Octets;
use world_setup::Call;

/// The packet that a call takes, if it takes one.
pub(crate) fn packet_of(call: &Call) -> Option<&Octets> {
    match call {
        Call::Take { bytes, .. } | Call::Adjudicate { bytes, .. } => Some(bytes),
        Call::Submit(_)
        | Call::Tick
        | Call::Stop
        | Call::Start
        | Call::Plan { .. }
        | Call::Terms { .. }
        | Call::Retry { .. }
        | Call::Cap { .. } => None,
    }
}

/// Of which transaction a packet has the request, or the answer, if it has one.
pub(crate) fn id_of(packet: &Octets, kind: Kind) -> Option<TxnId> {
    match Envelope::read(packet.as_slice()) {
        Ok(envelope) if envelope.kind() == kind => Some(envelope.id()),
        _ => None,
    }
}
