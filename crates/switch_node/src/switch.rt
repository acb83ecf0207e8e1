//! The switch.

ghost use Rattle.std.specs.Prelude.{◌≡◌, ◌≤◌, [], length, map, IfOk, IfErr, OnErr};
ghost use Rattle.std.specs.List.{IsDistinct};
ghost use Rattle.std.specs.Map.{keys_of};
ghost use Rattle.std.specs.Option.{option_copied};
ghost use Rattle.bin_routes.specs.Table.{RouteMaps};
ghost use Rattle.claim_model.specs.Node.{Up};
ghost use Rattle.claim_model.specs.Held.{held_in_table};
ghost use Rattle.claim_model.specs.Readable.{same_id};
ghost use Rattle.claim_model.specs.Refusal.{IsRefused, refusal_of};
ghost use Rattle.switch_node.specs.Ring.{in_flight};
ghost use Rattle.switch_node.specs.Faults.{first_or_equal};
ghost use Rattle.switch_node.specs.Sent.{header_in, packet_text};
ghost use Rattle.switch_node.specs.Steps.{SendsRequest, RefusesRequest, SendsResponse, RefusesResponse, IsReadableRequest, IsReadableResponse, HasRequest, HasHeader, HasAnswer, responded_at, KeepsFirst};

use crate::packets::{packet, payload_in};
use crate::reading::{expect_answer, expect_request};
use crate::routing::{Routed, first, repeated};
use crate::settings::SwitchSettings;
use crate::slot::Slot;
use crate::table::{InFlight, Table};
use bin_routes::Routes;
use claim_model::{Fault, Refusal};
use envelope::{Envelope, TxnId};
use octets::Octets;
use std::alloc::{AllocError, Global};
use std::marker::Model;

/// A switch: the requests that it forwarded, oldest first, each with its answer once that came.
#[derive(Drop)]
pub struct Switch {
    table: Table,
}

impl Model for Switch {
    ghost use Rattle.claim_model.specs.Table.{Table as ModelTable};

    ghost Value = { ModelTable };

    ghost view = { λ s. s.table };
}

impl Switch {
    /// A switch that has forwarded nothing.
    pub fn new(alloc: Global, settings: SwitchSettings) -> Switch
        ensures { result ≡ record { cap = settings; entries = [] } }
    {
        Switch {
            table: Table::new(alloc, settings),
        }
    }

    /// Takes a request. One that has its answer gets it; one in flight is forwarded again and grows no younger. A
    /// new one is entered last and forwarded as the same envelope, and in a full table the oldest leaves for it.
    /// Without a route a request gets the fixed rejection, and the table stays.
    ///
    /// # Errors
    /// The first that stands: `Unreadable`, then `NumberReused`. `OutOfMemory` may stand in place of any answer.
    /// The table is then as it was.
    pub fn request(&mut self, routes: &Routes, envelope: &Envelope<'_>) -> Result<Routed, Fault>
        // The whole table after it, and what is sent, are the model's.
        ensures routed { SendsRequest routes.now self.old envelope.now self.new result }
        ensures fault { RefusesRequest routes.now self.old envelope.now result }
        ensures unchanged { OnErr result (self.new ≡ self.old) }
    {
        let packet = self.packet_of(envelope)?;
        self.request_packet(routes, envelope, &packet)
    }

    /// As [`request`](Switch::request), of the packet that the envelope was read from. What is kept and forwarded is that
    /// packet, which takes no memory where it is shared.
    pub fn request_packet(
        &mut self,
        routes: &Routes,
        envelope: &Envelope<'_>,
        packet: &Octets,
    ) -> Result<Routed, Fault>
        requires { packet.now ≡ packet_text envelope.now }
        ensures routed { SendsRequest routes.now self.old envelope.now self.new result }
        ensures fault { RefusesRequest routes.now self.old envelope.now result }
        ensures unchanged { OnErr result (self.new ≡ self.old) }
    {
        expect_request(envelope)?;
        self.go_on(routes, envelope, packet)
    }

    /// As [`request_packet`](Switch::request_packet), of a packet whose request is readable, as of each packet that a node
    /// sent: it is not read again.
    pub fn request_known(
        &mut self,
        routes: &Routes,
        envelope: &Envelope<'_>,
        packet: &Octets,
    ) -> Result<Routed, Fault>
        requires packet { packet.now ≡ packet_text envelope.now }
        requires readable { IsReadableRequest routes.now self.old envelope.now }
        ensures routed { SendsRequest routes.now self.old envelope.now self.new result }
        ensures fault { RefusesRequest routes.now self.old envelope.now result }
        ensures unchanged { OnErr result (self.new ≡ self.old) }
    {
        self.go_on(routes, envelope, packet)
    }

    /// Takes a readable request.
    fn go_on(
        &mut self,
        routes: &Routes,
        envelope: &Envelope<'_>,
        packet: &Octets,
    ) -> Result<Routed, Fault>
        requires packet { packet.now ≡ packet_text envelope.now }
        requires readable { HasRequest envelope.now }
        requires header { HasHeader envelope.now (header_in envelope.now) }
        ensures routed { SendsRequest routes.now self.old envelope.now self.new result }
        ensures fault { RefusesRequest routes.now self.old envelope.now result }
        ensures unchanged { OnErr result (self.new ≡ self.old) }
    {
        let alloc = self.table.allocator();
        match self.table.get(envelope.id()) {
            Some(slot) => repeated(alloc, routes, envelope, packet, slot),
            None => Ok(first(&mut self.table, routes, envelope, packet)?),
        }
    }

    /// Takes a response and gives the packet for the pharmacy. The first one is kept with its request; an equal
    /// second one is sent on again.
    ///
    /// # Errors
    /// The first that stands: `Unreadable`, `NotWaiting`, `Differs`. `OutOfMemory` may stand in place of any answer.
    /// The table is then as it was.
    pub fn response(&mut self, envelope: &Envelope<'_>) -> Result<Octets, Fault>
        // The whole table after it, and what is sent, are the model's, whatever the routes are.
        ensures sent { SendsResponse self.old envelope.now self.new result }
        ensures fault { RefusesResponse self.old envelope.now result }
        ensures unchanged { OnErr result (self.new ≡ self.old) }
    {
        let packet = self.packet_of(envelope)?;
        self.response_packet(envelope, &packet)
    }

    /// As [`response`](Switch::response), of the packet that the envelope was read from. What is kept and sent on is that
    /// packet, which takes no memory where it is shared.
    pub fn response_packet(
        &mut self,
        envelope: &Envelope<'_>,
        packet: &Octets,
    ) -> Result<Octets, Fault>
        requires { packet.now ≡ packet_text envelope.now }
        ensures sent { SendsResponse self.old envelope.now self.new result }
        ensures fault { RefusesResponse self.old envelope.now result }
        ensures unchanged { OnErr result (self.new ≡ self.old) }
    {
        expect_answer(envelope)?;
        self.go_back(envelope, packet)
    }

    /// As [`response_packet`](Switch::response_packet), of a packet whose answer is readable, as of each packet that a node
    /// sent: the answer is not read.
    pub fn response_known(
        &mut self,
        envelope: &Envelope<'_>,
        packet: &Octets,
    ) -> Result<Octets, Fault>
        requires packet { packet.now ≡ packet_text envelope.now }
        requires readable { IsReadableResponse self.old envelope.now }
        ensures sent { SendsResponse self.old envelope.now self.new result }
        ensures fault { RefusesResponse self.old envelope.now result }
        ensures unchanged { OnErr result (self.new ≡ self.old) }
    {
        self.go_back(envelope, packet)
    }

    /// Takes an answer.
    fn go_back(&mut self, envelope: &Envelope<'_>, packet: &Octets) -> Result<Octets, Fault>
        requires packet { packet.now ≡ packet_text envelope.now }
        requires answer { HasAnswer envelope.now }
        ensures sent { SendsResponse self.old envelope.now self.new result }
        ensures fault { RefusesResponse self.old envelope.now result }
        ensures unchanged { OnErr result (self.new ≡ self.old) }
    {
        let is_first = waits(&self.table, envelope)?;
        let sent = packet.copy()?;
        if is_first {
            let answer = payload_in(envelope, packet)?;
            self.table.fill(envelope.id(), answer);
        }
        Ok(sent)
    }

    /// The packet of an envelope.
    fn packet_of(&self, envelope: &Envelope<'_>) -> Result<Octets, AllocError>
        ensures { IfOk result (λ packet. packet ≡ packet_text envelope.now) }
    {
        let alloc = self.table.allocator();
        packet(alloc, envelope.kind(), envelope.id(), envelope.payload())
    }

    /// The answer of a request, where it came.
    pub fn held(&self, id: TxnId) -> Option<&[u8]>
        ensures { option_copied result ≡ held_in_table id (Up self.now) }
    {
        self.table.get(id)?.answer()
    }

    /// The requests in the table and whether each has its answer, oldest first.
    pub fn list(&self) -> Result<Vec<InFlight>, AllocError>
        ensures { IfOk result (λ list. list.items ≡ map in_flight self.now.entries) }
    {
        self.table.list()
    }

    /// How many requests the table has: never more than its settings allow.
    pub fn len(&self) -> usize
        ensures len { result ≡ length self.now.entries }
        ensures few { result ≤ self.now.cap }
        // No number stands in it twice.
        ensures distinct { IsDistinct same_id (keys_of self.now.entries) }
    {
        self.table.len()
    }

    /// Its settings.
    pub fn settings(&self) -> SwitchSettings
        ensures { result ≡ self.now.cap }
    {
        self.table.settings()
    }

    /// Stops it: the table is lost, and the settings are left.
    pub fn stop(self) -> SwitchSettings
        ensures { result ≡ self.cap }
    {
        self.table.settings()
    }
}

/// Whether a response is the first to its request, and not an equal one again.
fn waits(table: &Table, envelope: &Envelope<'_>) -> Result<bool, Fault>
    ensures kept { IfOk result (λ is_first. KeepsFirst table.now envelope.now is_first) }
    ensures fault { IfErr result (λ fault. (routes : RouteMaps)
        → IsRefused (refusal_of fault) (responded_at routes table.now envelope.now)) }
{
    match table.get(envelope.id()) {
        None => Err(Fault::Refused(Refusal::NotWaiting)),
        Some(slot) => is_first(slot, envelope.payload()),
    }
}

/// Whether an answer is the first to the request of a slot, and not the equal one again.
fn is_first(slot: &Slot, answer: &[u8]) -> Result<bool, Fault>
    ensures { result ≡ first_or_equal slot.now.answer answer.now }
{
    match slot.answer() {
        None => Ok(true),
        Some(held) if held == answer => Ok(false),
        Some(_) => Err(Fault::Refused(Refusal::Differs)),
    }
}
