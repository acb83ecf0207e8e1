//! Where a request goes.

ghost use Rattle.std.specs.Prelude.{◌≡◌, ◌≤◌, length, None, Some, IfOk, IfErr, OnErr};
ghost use Rattle.envelope.specs.Envelope.{longest_payload};
ghost use Rattle.bin_routes.specs.Table.{RouteMaps};
ghost use Rattle.claim_model.specs.Refusal.{IsRefused, refusal_of};
ghost use Rattle.claim_model.specs.Table.{Table as ModelTable, slot_of, answer_back, routed_by, requested_by};
ghost use Rattle.claim_model.specs.Bytes.{bytes_with};
ghost use Rattle.switch_node.specs.Sent.{content, header_in, packet_text, routed_as};
ghost use Rattle.switch_node.specs.Steps.{GoesOn, HasRequest};

use crate::packets::{packet, payload_in, rejection};
use crate::reading::{header_of, route_of};
use crate::slot::Slot;
use crate::table::Table;
use bin_routes::{PayerNo, Routes};
use claim_model::{Fault, Refusal};
use envelope::{Envelope, Kind, TxnId};
use octets::Octets;
use std::alloc::{AllocError, Global};

/// Where a request goes.
#[derive(PartialEq, Eq, Drop)]
pub enum Routed {
    /// To this payer, as the envelope in which it came.
    Forward(PayerNo, Octets),
    /// Back to where it came from, with the envelope of an answer.
    Answer(Octets),
}

/// What is done with a request whose number the table has, in this slot.
pub fn repeated(
    alloc: Global,
    routes: &Routes,
    envelope: &Envelope<'_>,
    packet: &Octets,
    slot: &Slot,
) -> Result<Routed, Fault>
    requires packet { packet.now ≡ packet_text envelope.now }
    requires readable { HasRequest envelope.now }
    ensures routed { IfOk result (λ routed. (t : ModelTable)
        → GoesOn routes.now envelope.now (header_in envelope.now) (Some slot.now) t t routed) }
    ensures fault { IfErr result (λ fault. (t : ModelTable) → IsRefused (refusal_of fault)
        (requested_by (bytes_with routes.now) t (content envelope.now) (header_in envelope.now) (Some slot.now))) }
{
    if !slot.is_of(envelope.payload()) {
        return Err(Fault::Refused(Refusal::NumberReused));
    }
    match slot.answer() {
        Some(answer) => Ok(back(alloc, envelope.id(), answer)?),
        None => Ok(sent(alloc, envelope, packet, route_of(routes, envelope))?),
    }
}

/// What is done with a request whose number the table does not have: where it has a route, it is entered last.
pub fn first(
    table: &mut Table,
    routes: &Routes,
    envelope: &Envelope<'_>,
    packet: &Octets,
) -> Result<Routed, AllocError>
    requires packet { packet.now ≡ packet_text envelope.now }
    requires readable { HasRequest envelope.now }
    requires new { slot_of envelope.now.id table.old.entries ≡ None }
    ensures routed { IfOk result (λ routed.
        GoesOn routes.now envelope.now (header_in envelope.now) None table.old table.new routed) }
    ensures unchanged { OnErr result (table.new ≡ table.old) }
{
    let alloc = table.allocator();
    let route = route_of(routes, envelope);
    let routed = sent(alloc, envelope, packet, route)?;
    if route.is_some() {
        let request = payload_in(envelope, packet)?;
        table.enter(envelope.id(), Slot::waiting(request))?;
    }
    Ok(routed)
}

/// To the payer of the route, or back with the rejection.
fn sent(
    alloc: Global,
    envelope: &Envelope<'_>,
    packet: &Octets,
    route: Option<PayerNo>,
) -> Result<Routed, AllocError>
    requires packet { packet.now ≡ packet_text envelope.now }
    requires readable { HasRequest envelope.now }
    ensures { IfOk result (λ routed. (routes : RouteMaps)
        → routed_as routed ≡ routed_by (bytes_with routes) (content envelope.now) (header_in envelope.now) route) }
{
    match route {
        Some(payer) => Ok(Routed::Forward(payer, packet.copy()?)),
        None => {
            let answer = rejection(alloc, &header_of(envelope))?;
            back(alloc, envelope.id(), &answer)
        }
    }
}

/// Back with an answer.
fn back(alloc: Global, id: TxnId, answer: &[u8]) -> Result<Routed, AllocError>
    requires { length answer.now ≤ longest_payload }
    ensures { IfOk result (λ routed. (routes : RouteMaps)
        → routed_as routed ≡ answer_back (bytes_with routes) id answer.now) }
{
    let packet = packet(alloc, Kind::Answer, id, answer)?;
    Ok(Routed::Answer(packet))
}
