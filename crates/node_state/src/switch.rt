//! One switch, up or at rest.

ghost use Rattle.std.specs.Prelude.{◌≡◌, ◌≤◌, [], length, refl, IfOk, OnErr};
ghost use Rattle.std.specs.Option.{option_copied};
ghost use Rattle.envelope.specs.Envelope.{envelope_text};
ghost use Rattle.bin_routes.specs.Table.{RouteMaps};
ghost use Rattle.claim_model.specs.Bytes.{bytes_with};
ghost use Rattle.claim_model.specs.Node.{Up, switch_step};
ghost use Rattle.claim_model.specs.Held.{held_in_table};
ghost use Rattle.switch_node.specs.Steps.{IsReadableRequest, IsReadableResponse};
ghost use Rattle.node_state.specs.Outcomes.{Makes, Refuses};
ghost use Rattle.node_state.specs.Sends.{in_flight_at};
ghost use Rattle.node_state.specs.Taking.{switch_handles, switch_requests, switch_responds, switch_reads};
ghost use Rattle.node_state.specs.Nodes.{cap_at, slots_in};

use crate::opening::is_request;
use crate::powered::{Kind, Powered, State};
use crate::sending::{to_payer_or_back, to_pharmacy};
use crate::switch_rest::SwitchRest;
use bin_routes::Routes;
use envelope::{Envelope, TxnId};
use octets::Octets;
use std::alloc::{AllocError, Global};
use switch_node::{InFlight, Switch, SwitchSettings};
use world_setup::{Call, Fault, Node, Refusal, Sent};

/// A switch, up or at rest. At rest it has its cap alone: a stop loses the table.
pub type SwitchNode = Powered<Switch>;

impl Kind for Switch {
    type Rest = SwitchRest;

    ghost step = { λ routes node call. switch_step (bytes_with routes) node call };

    ghost most = { λ node call. 1 };

    ghost takes = { λ routes node from envelope. switch_handles routes node envelope };

    /// Takes a request or a response, whoever sent it.
    fn take(
        &mut self,
        alloc: Global,
        routes: &Routes,
        _from: Node,
        envelope: &Envelope<'_>,
        packet: &Octets,
    ) -> Result<Vec<Sent>, Fault> {
        if is_request(envelope) {
            request(alloc, self, routes, envelope, packet)
        } else {
            response(alloc, self, envelope, packet)
        }
    }

    /// The same, where the request or the response is readable.
    fn take_known(
        &mut self,
        alloc: Global,
        routes: &Routes,
        _from: Node,
        envelope: &Envelope<'_>,
        packet: &Octets,
    ) -> Result<Vec<Sent>, Fault> {
        if is_request(envelope) {
            known_request(alloc, self, routes, envelope, packet)
        } else {
            known_response(alloc, self, envelope, packet)
        }
    }

    /// Its table has its cap for as long as it is up. All other calls are for nodes of other kinds.
    fn ask(
        &mut self,
        _alloc: Global,
        _routes: &Routes,
        call: Call<&Octets>,
    ) -> Result<Vec<Sent>, Fault> {
        match call {
            Call::Submit(_)
            | Call::Tick
            | Call::Plan { .. }
            | Call::Terms { .. }
            | Call::Retry { .. }
            | Call::Adjudicate { .. } => { Err(Fault::Refused(Refusal::NoSuchNode)) }
            Call::Cap { .. } => Err(Fault::Refused(Refusal::AlreadyUp)),
            Call::Take { .. } | Call::Stop | Call::Start => unreachable!(),
        }
    }

    /// Its settings: the table is lost.
    fn save(&self, _alloc: Global) -> Result<SwitchRest, AllocError> {
        Ok(SwitchRest::new(self.settings()))
    }

    /// A switch with an empty table.
    fn wake(alloc: Global, rest: &SwitchRest) -> Result<Switch, AllocError> {
        Ok(Switch::new(alloc, rest.settings()))
    }

    /// Another cap, with which it starts.
    fn revise(
        alloc: Global,
        rest: &mut SwitchRest,
        call: Call<&Octets>,
    ) -> Result<Vec<Sent>, Fault> {
        match call {
            Call::Cap { entries } => {
                *rest = SwitchRest::new(SwitchSettings::nearest(entries));
                Ok(Vec::new(alloc))
            }
            Call::Submit(_)
            | Call::Tick
            | Call::Plan { .. }
            | Call::Terms { .. }
            | Call::Retry { .. }
            | Call::Adjudicate { .. } => { Err(Fault::Refused(Refusal::NoSuchNode)) }
            Call::Take { .. } | Call::Stop | Call::Start => unreachable!(),
        }
    }

    ghost reads = { λ routes node from bytes read is. switch_reads routes node from bytes read is };

    ghost takes_nothing = { λ routes rest from bytes. refl };

    ghost stops_once = { λ routes rest. refl };

    ghost starts_once = { λ routes node. refl };
}

/// Takes a request: it goes to its payer, or back to its pharmacy with an answer. The room for what is sent is had first.
fn request(
    alloc: Global,
    switch: &mut Switch,
    routes: &Routes,
    envelope: &Envelope<'_>,
    packet: &Octets,
) -> Result<Vec<Sent>, Fault>
    requires { packet.now ≡ envelope_text envelope.now.kind envelope.now.id envelope.now.payload }
    ensures ok { Makes (switch_requests routes.now switch.old envelope.now) (Up switch.new) result }
    ensures fault { Refuses (switch_requests routes.now switch.old envelope.now) result }
    ensures few { IfOk result (λ sent. length sent.items ≤ 1) }
    ensures err { OnErr result (switch.new ≡ switch.old) }
{
    let mut sent = Vec::with_capacity(alloc, 1)?;
    let routed = switch.request_packet(routes, envelope, packet)?;
    sent.push_reserved(to_payer_or_back(envelope.id(), routed));
    Ok(sent)
}

/// Takes a request that is readable.
fn known_request(
    alloc: Global,
    switch: &mut Switch,
    routes: &Routes,
    envelope: &Envelope<'_>,
    packet: &Octets,
) -> Result<Vec<Sent>, Fault>
    requires packet { packet.now ≡ envelope_text envelope.now.kind envelope.now.id envelope.now.payload }
    requires readable { IsReadableRequest routes.now switch.old envelope.now }
    ensures ok { Makes (switch_requests routes.now switch.old envelope.now) (Up switch.new) result }
    ensures fault { Refuses (switch_requests routes.now switch.old envelope.now) result }
    ensures few { IfOk result (λ sent. length sent.items ≤ 1) }
    ensures err { OnErr result (switch.new ≡ switch.old) }
{
    let mut sent = Vec::with_capacity(alloc, 1)?;
    let routed = switch.request_known(routes, envelope, packet)?;
    sent.push_reserved(to_payer_or_back(envelope.id(), routed));
    Ok(sent)
}

/// Takes a response: it goes to its pharmacy. The room for what is sent is had first.
fn response(
    alloc: Global,
    switch: &mut Switch,
    envelope: &Envelope<'_>,
    packet: &Octets,
) -> Result<Vec<Sent>, Fault>
    requires { packet.now ≡ envelope_text envelope.now.kind envelope.now.id envelope.now.payload }
    ensures ok { (routes : RouteMaps) → Makes (switch_responds routes switch.old envelope.now) (Up switch.new) result }
    ensures fault { (routes : RouteMaps) → Refuses (switch_responds routes switch.old envelope.now) result }
    ensures few { IfOk result (λ sent. length sent.items ≤ 1) }
    ensures err { OnErr result (switch.new ≡ switch.old) }
{
    let mut sent = Vec::with_capacity(alloc, 1)?;
    let bytes = switch.response_packet(envelope, packet)?;
    sent.push_reserved(to_pharmacy(envelope.id(), bytes));
    Ok(sent)
}

/// Takes a response that is readable.
fn known_response(
    alloc: Global,
    switch: &mut Switch,
    envelope: &Envelope<'_>,
    packet: &Octets,
) -> Result<Vec<Sent>, Fault>
    requires packet { packet.now ≡ envelope_text envelope.now.kind envelope.now.id envelope.now.payload }
    requires readable { IsReadableResponse switch.old envelope.now }
    ensures ok { (routes : RouteMaps) → Makes (switch_responds routes switch.old envelope.now) (Up switch.new) result }
    ensures fault { (routes : RouteMaps) → Refuses (switch_responds routes switch.old envelope.now) result }
    ensures few { IfOk result (λ sent. length sent.items ≤ 1) }
    ensures err { OnErr result (switch.new ≡ switch.old) }
{
    let mut sent = Vec::with_capacity(alloc, 1)?;
    let bytes = switch.response_known(envelope, packet)?;
    sent.push_reserved(to_pharmacy(envelope.id(), bytes));
    Ok(sent)
}

impl SwitchNode {
    /// A switch that is up and has forwarded nothing.
    pub fn new(alloc: Global, settings: SwitchSettings) -> SwitchNode
        ensures { result ≡ Up (record { cap = settings; entries = [] }) }
    {
        Powered::running(Switch::new(alloc, settings))
    }

    /// The answer to a request in its table, where that came. A stopped switch has none.
    pub fn held(&self, id: TxnId) -> Option<&[u8]>
        ensures { option_copied result ≡ held_in_table id self.now }
    {
        match &self.state {
            State::Up(switch) => switch.held(id),
            State::AtRest(_) => None,
        }
    }

    /// The requests in its table and whether each has its answer, oldest first. A stopped switch has none.
    pub fn list(&self, alloc: Global) -> Result<Vec<InFlight>, AllocError>
        ensures { IfOk result (λ list. list.items ≡ in_flight_at self.now) }
    {
        match &self.state {
            State::Up(switch) => switch.list(),
            State::AtRest(_) => Ok(Vec::new(alloc)),
        }
    }

    /// The most requests in its table, up or at rest.
    pub(crate) fn cap(&self) -> u32
        ensures { result ≡ cap_at self.now }
    {
        match &self.state {
            State::Up(switch) => switch.settings().cap(),
            State::AtRest(rest) => rest.settings().cap(),
        }
    }

    /// How many requests stand in its table. A stopped switch has none.
    pub(crate) fn slots(&self) -> usize
        ensures { result ≡ slots_in self.now }
    {
        match &self.state {
            State::Up(switch) => switch.len(),
            State::AtRest(_) => 0,
        }
    }
}
