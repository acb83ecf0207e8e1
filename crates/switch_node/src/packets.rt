//! The bytes that a switch sends.

ghost use Rattle.std.specs.Prelude.{◌≡◌, ◌≤◌, length, IfOk};
ghost use Rattle.bin_routes.specs.Table.{RouteMaps};
ghost use Rattle.envelope.specs.Envelope.{envelope_text, longest_payload};
ghost use Rattle.claim_model.specs.Readable.{rejection};
ghost use Rattle.claim_model.specs.Bytes.{bytes_with};
ghost use Rattle.switch_node.specs.Sent.{packet_text};

use carried_fields::carrying_laws;
use claim_profile::{Code, HeaderStatus, Rejects, Ruling, write_answer};
use d0_header::{RequestHeader, response_text_laws};
use envelope::{Envelope, HEAD, Kind, TxnId, payload_is_behind_its_head, write};
use octets::Octets;
use std::alloc::{AllocError, Global};

/// The envelope of a payload that is not too long.
pub fn packet(alloc: Global, kind: Kind, id: TxnId, payload: &[u8]) -> Result<Octets, AllocError>
    requires { length payload.now ≤ longest_payload }
    ensures { IfOk result (λ packet. packet ≡ envelope_text kind id payload.now) }
{
    // The payload is not too long, so nothing but memory can be refused.
    match write(alloc, kind, id, payload) {
        Ok(packet) => Ok(Octets::from_vec(packet).shared()),
        Err(_) => Err(AllocError),
    }
}

/// The payload of an envelope, as the end of its packet.
pub fn payload_in(envelope: &Envelope<'_>, packet: &Octets) -> Result<Octets, AllocError>
    requires { packet.now ≡ packet_text envelope.now }
    ensures value { IfOk result (λ payload. payload ≡ envelope.now.payload) }
    ensures short { IfOk result (λ payload. length payload ≤ longest_payload) }
{
    payload_is_behind_its_head();
    let _short = envelope.payload();
    packet.tail(HEAD)
}

/// The answer to a request that has no route: header status `R` (501-F1), and for each transaction the reject
/// code 01 (511-FB). It is a function of the request alone.
pub fn rejection(alloc: Global, header: &RequestHeader) -> Result<Vec<u8>, AllocError>
    ensures text { IfOk result (λ answer. (routes : RouteMaps)
        → answer.items ≡ rejection (bytes_with routes) header.now) }
    ensures short { IfOk result (λ answer. length answer.items ≤ longest_payload) }
{
    response_text_laws();
    carrying_laws();
    let rulings = [Ruling::Rejected {
        rejects: Rejects::one(Code::Bin),
    }; 4];
    let count = header.count() as usize;
    write_answer(alloc, header, HeaderStatus::Rejected, &rulings[..count])
}
