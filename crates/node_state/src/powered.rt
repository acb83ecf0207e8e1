//! One node of one kind, up or at rest.

ghost use Rattle.std.specs.Prelude.{◌≡◌, ◌≢◌, ◌≤◌, ℕ, List, [], Result, true, length, IfOk, OnErr};
ghost use Rattle.envelope.specs.Envelope.{Opened, envelope_text};
ghost use Rattle.bin_routes.specs.Table.{RouteMaps};
ghost use Rattle.claim_model.specs.Words.{EnvelopeFault as ModelFault};
ghost use Rattle.claim_model.specs.Bytes.{bytes_with, envelope_in};
ghost use Rattle.claim_model.specs.Node.{Node as ModelNode, Call as ModelCall, Outcome, Done, Refused, Power, Up, AtRest, Take, Stop, Start};
ghost use Rattle.claim_model.specs.declared.refusal.Refusal.TheVariants.{Down, AlreadyUp, Unreadable};
ghost use Rattle.claim_model.specs.Refusal.{refusal_of};
ghost use Rattle.world_setup.specs.Seen.{node_seen, lent_seen};
ghost use Rattle.claim_model.specs.Refused.{RefusedAs};
ghost use Rattle.node_state.specs.Outcomes.{Makes, Refuses};
ghost use Rattle.node_state.specs.Sends.{asks, is_up};
ghost use Rattle.node_state.specs.Taking.{taken, IsReadable};

use crate::opening::read_envelope;
use bin_routes::Routes;
use envelope::Envelope;
use octets::Octets;
use std::alloc::{AllocError, Global};
use std::marker::Model;
use world_setup::{Call, Fault, Node, Refusal, Sent};

/// A kind of node that is up: what it does, and what is kept of it at rest.
pub trait Kind: Drop + Sized {
    /// What is kept of it at rest.
    type Rest: Drop;

    /// What the rule of its kind makes of a call, under these routes.
    ghost step: { RouteMaps → Power Self Self.Rest → ModelCall → Outcome (Power Self Self.Rest) };

    /// What the rule makes of an envelope from this node, where it is up.
    ghost takes: { RouteMaps → Self → ModelNode → Opened → Outcome (Power Self Self.Rest) };

    /// How many packets it sends at most in a call.
    ghost most: { Power Self Self.Rest → ModelCall → ℕ };

    /// Takes a packet, whose envelope this is, and gives what it sent.
    fn take(
        &mut self,
        alloc: Global,
        routes: &Routes,
        from: Node,
        envelope: &Envelope<'_>,
        packet: &Octets,
    ) -> Result<Vec<Sent>, Fault>
        requires { packet.now ≡ envelope_text envelope.now.kind envelope.now.id envelope.now.payload }
        ensures ok { Makes (takes routes.now self.old (node_seen from) envelope.now) (Up self.new) result }
        ensures fault { Refuses (takes routes.now self.old (node_seen from) envelope.now) result }
        ensures few { IfOk result
            (λ sent. length sent.items ≤ most (Up self.old) (Take (node_seen from) packet.now)) }
        ensures err { OnErr result (self.new ≡ self.old) };

    /// As `take`, of a packet whose payload is known to be readable.
    fn take_known(
        &mut self,
        alloc: Global,
        routes: &Routes,
        from: Node,
        envelope: &Envelope<'_>,
        packet: &Octets,
    ) -> Result<Vec<Sent>, Fault>
        requires packet { packet.now ≡ envelope_text envelope.now.kind envelope.now.id envelope.now.payload }
        requires readable { takes routes.now self.old (node_seen from) envelope.now ≢ Refused Unreadable }
        ensures ok { Makes (takes routes.now self.old (node_seen from) envelope.now) (Up self.new) result }
        ensures fault { Refuses (takes routes.now self.old (node_seen from) envelope.now) result }
        ensures few { IfOk result
            (λ sent. length sent.items ≤ most (Up self.old) (Take (node_seen from) packet.now)) }
        ensures err { OnErr result (self.new ≡ self.old) };

    /// Makes a call that is no packet alone, and neither stops nor starts it; gives what it sent.
    fn ask(
        &mut self,
        alloc: Global,
        routes: &Routes,
        call: Call<&Octets>,
    ) -> Result<Vec<Sent>, Fault>
        requires { asks (lent_seen call) ≡ true }
        ensures ok { Makes (step routes.now (Up self.old) (lent_seen call.entry)) (Up self.new) result }
        ensures fault { Refuses (step routes.now (Up self.old) (lent_seen call.entry)) result }
        ensures few { IfOk result (λ sent. length sent.items ≤ most (Up self.old) (lent_seen call.entry)) }
        ensures err { OnErr result (self.new ≡ self.old) };

    /// What is kept of it when it stops.
    fn save(&self, alloc: Global) -> Result<Self::Rest, AllocError>
        ensures { (routes : RouteMaps)
            → IfOk result (λ rest. step routes (Up self.now) Stop ≡ Done (AtRest rest) []) };

    /// The node, started from what was kept of it.
    fn wake(alloc: Global, rest: &Self::Rest) -> Result<Self, AllocError>
        ensures { (routes : RouteMaps)
            → IfOk result (λ node. step routes (AtRest rest.now) Start ≡ Done (Up node) []) };

    /// Makes a call that is no packet, and neither stops nor starts it, of what is kept of it at rest; nothing is sent.
    fn revise(alloc: Global, rest: &mut Self::Rest, call: Call<&Octets>) -> Result<Vec<Sent>, Fault>
        requires { asks (lent_seen call) ≡ true }
        ensures ok { (routes : RouteMaps)
            → Makes (step routes (AtRest rest.old) (lent_seen call.entry)) (AtRest rest.new) result }
        ensures few { IfOk result (λ sent. length sent.items ≤ 0) }
        ensures fault { (routes : RouteMaps)
            → Refuses (step routes (AtRest rest.old) (lent_seen call.entry)) result }
        ensures err { OnErr result (rest.new ≡ rest.old) };

    /// A packet is taken as its envelope is.
    ghost reads: { (routes : RouteMaps) (node : Self) (from : ModelNode) (bytes : List ℕ)
        (read : Result Opened ModelFault) → (bytes_with routes).read_envelope bytes ≡ envelope_in read
        → step routes (Up node) (Take from bytes) ≡ taken (takes routes node from) read };

    /// At rest it takes no packet.
    ghost takes_nothing: { (routes : RouteMaps) (rest : Self.Rest) (from : ModelNode) (bytes : List ℕ)
        → step routes (AtRest rest) (Take from bytes) ≡ Refused Down };

    /// At rest it does not stop again.
    ghost stops_once: { (routes : RouteMaps) (rest : Self.Rest) → step routes (AtRest rest) Stop ≡ Refused Down };

    /// Up it does not start again.
    ghost starts_once: { (routes : RouteMaps) (node : Self) → step routes (Up node) Start ≡ Refused AlreadyUp };
}

/// What there is of a node: itself, or what is kept of it at rest.
#[derive(Drop)]
pub enum State<U, R> {
    Up(U),
    AtRest(R),
}

/// A node of one kind, up or at rest.
#[derive(Drop)]
pub struct Powered<K: Kind> {
    pub(crate) state: State<K, K::Rest>,
}

impl<K: Kind> Model for Powered<K> {
    ghost use Rattle.claim_model.specs.Node.{Power};

    ghost Value = { Power K K.Rest };

    ghost use Rattle.node_state.specs.Powered.{power_seen};

    ghost view = { λ n. power_seen n.state };
}

impl<K: Kind> Powered<K> {
    /// A node that is up.
    pub(crate) fn running(node: K) -> Powered<K>
        ensures { result ≡ Up node }
    {
        Powered {
            state: State::Up(node),
        }
    }

    /// Whether it is up.
    pub fn is_up(&self) -> bool
        ensures { result ≡ is_up self.now }
    {
        match &self.state {
            State::Up(_) => true,
            State::AtRest(_) => false,
        }
    }

    /// Makes a call, and gives what it sent.
    ///
    /// # Errors
    /// `NoSuchNode` for a call that is made for another kind of node; then `Down` or `AlreadyUp`; then the refusal of
    /// the node. The node is then as it was.
    pub fn step(
        &mut self,
        alloc: Global,
        routes: &Routes,
        call: Call<&Octets>,
    ) -> Result<Vec<Sent>, Fault>
        ensures ok { Makes (K.step routes.now self.old (lent_seen call.entry)) self.new result }
        ensures fault { Refuses (K.step routes.now self.old (lent_seen call.entry)) result }
        ensures few { IfOk result (λ sent. length sent.items ≤ K.most self.old (lent_seen call.entry)) }
        ensures err { OnErr result (self.new ≡ self.old) }
    {
        match call {
            Call::Stop => self.stop(alloc),
            Call::Start => self.start(alloc),
            Call::Take { from, bytes } => self.take(alloc, routes, from, bytes),
            _ => match &mut self.state {
                State::Up(node) => node.ask(alloc, routes, call),
                State::AtRest(rest) => K::revise(alloc, rest, call),
            },
        }
    }

    /// As [`step`](Powered::step), where a packet that it takes is known to be readable, as each that a node sent: its request
    /// or answer is not read again to see that.
    ///
    /// # Errors
    /// As of `step`.
    pub fn step_known(
        &mut self,
        alloc: Global,
        routes: &Routes,
        call: Call<&Octets>,
    ) -> Result<Vec<Sent>, Fault>
        requires { IsReadable (lent_seen call) (K.step routes.now self.old (lent_seen call)) }
        ensures ok { Makes (K.step routes.now self.old (lent_seen call.entry)) self.new result }
        ensures fault { Refuses (K.step routes.now self.old (lent_seen call.entry)) result }
        ensures few { IfOk result (λ sent. length sent.items ≤ K.most self.old (lent_seen call.entry)) }
        ensures err { OnErr result (self.new ≡ self.old) }
    {
        match call {
            Call::Take { from, bytes } => self.take_known(alloc, routes, from, bytes),
            _ => self.step(alloc, routes, call),
        }
    }

    /// Takes a packet from a node: opens it, and takes what its envelope has.
    fn take(
        &mut self,
        alloc: Global,
        routes: &Routes,
        from: Node,
        packet: &Octets,
    ) -> Result<Vec<Sent>, Fault>
        ensures ok { Makes (K.step routes.now self.old (Take (node_seen from) packet.now)) self.new result }
        ensures fault { Refuses (K.step routes.now self.old (Take (node_seen from) packet.now)) result }
        ensures few { IfOk result (λ sent. length sent.items ≤ K.most self.old (Take (node_seen from) packet.now)) }
        ensures err { OnErr result (self.new ≡ self.old) }
    {
        match &mut self.state {
            State::Up(node) => match read_envelope(packet) {
                Ok(envelope) => node.take(alloc, routes, from, &envelope, packet),
                Err(fault) => Err(Fault::Refused(Refusal::NoEnvelope(fault))),
            },
            State::AtRest(_) => Err(Fault::Refused(Refusal::Down)),
        }
    }

    /// Takes a packet whose payload is known to be readable.
    fn take_known(
        &mut self,
        alloc: Global,
        routes: &Routes,
        from: Node,
        packet: &Octets,
    ) -> Result<Vec<Sent>, Fault>
        requires { K.step routes.now self.old (Take (node_seen from) packet.now) ≢ Refused Unreadable }
        ensures ok { Makes (K.step routes.now self.old (Take (node_seen from) packet.now)) self.new result }
        ensures fault { Refuses (K.step routes.now self.old (Take (node_seen from) packet.now)) result }
        ensures few { IfOk result (λ sent. length sent.items ≤ K.most self.old (Take (node_seen from) packet.now)) }
        ensures err { OnErr result (self.new ≡ self.old) }
    {
        match &mut self.state {
            State::Up(node) => match read_envelope(packet) {
                Ok(envelope) => node.take_known(alloc, routes, from, &envelope, packet),
                Err(refused) => Err(Fault::Refused(Refusal::NoEnvelope(refused))),
            },
            State::AtRest(_) => Err(Fault::Refused(Refusal::Down)),
        }
    }

    /// Stops it. What is kept is saved first, so a stop that finds no memory leaves it up.
    ///
    /// # Errors
    /// `Down`. The node is then as it was.
    fn stop(&mut self, alloc: Global) -> Result<Vec<Sent>, Fault>
        ensures ok { (routes : RouteMaps) → Makes (K.step routes self.old Stop) self.new result }
        ensures fault { (routes : RouteMaps) → Refuses (K.step routes self.old Stop) result }
        ensures few { IfOk result (λ sent. length sent.items ≤ 0) }
        ensures err { OnErr result (self.new ≡ self.old) }
    {
        let rest = match &self.state {
            State::Up(node) => node.save(alloc)?,
            State::AtRest(_) => return Err(Fault::Refused(Refusal::Down)),
        };
        self.state = State::AtRest(rest);
        Ok(Vec::new(alloc))
    }

    /// Starts it again from what was kept of it, which is kept on until that has succeeded.
    ///
    /// # Errors
    /// `AlreadyUp`. The node is then as it was.
    fn start(&mut self, alloc: Global) -> Result<Vec<Sent>, Fault>
        ensures ok { (routes : RouteMaps) → Makes (K.step routes self.old Start) self.new result }
        ensures fault { (routes : RouteMaps) → Refuses (K.step routes self.old Start) result }
        ensures few { IfOk result (λ sent. length sent.items ≤ 0) }
        ensures err { OnErr result (self.new ≡ self.old) }
    {
        let node = match &self.state {
            State::Up(_) => return Err(Fault::Refused(Refusal::AlreadyUp)),
            State::AtRest(rest) => K::wake(alloc, rest)?,
        };
        self.state = State::Up(node);
        Ok(Vec::new(alloc))
    }
}
