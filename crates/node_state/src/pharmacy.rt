//! One pharmacy, up or at rest.

ghost use Rattle.std.specs.Prelude.{◌≡◌, ◌<◌, ◌≤◌, [], length, refl, None, IfOk, IfErr, OnErr};
ghost use Rattle.std.specs.Option.{option_copied};
ghost use Rattle.claim_model.specs.Bytes.{bytes_with};
ghost use Rattle.claim_model.specs.Journal.{opening_rule};
ghost use Rattle.claim_model.specs.Node.{Up, Submit, Tick, Revise, OfRule, pharmacy_step};
ghost use Rattle.claim_model.specs.Held.{journal_in};
ghost use Rattle.claim_model.specs.Refusal.{refusal_of};
ghost use Rattle.pharmacy_journal.specs.Ruling.{rule_in};
ghost use Rattle.node_state.specs.Nodes.{is_idle_pharmacy};
ghost use Rattle.node_state.specs.Outcomes.{Makes, Refuses, PharmacyMakes, PharmacyRefuses};
ghost use Rattle.node_state.specs.Records.{journal_record};
ghost use Rattle.node_state.specs.Sends.{most_due, most_sent};
ghost use Rattle.node_state.specs.Taking.{hears, pharmacy_reads};

use crate::journal_bytes::JournalBytes;
use crate::journal_reading::JournalReading;
use crate::powered::{Kind, Powered, State};
use crate::sending::to_switch;
use bin_routes::Routes;
use envelope::Envelope;
use octets::Octets;
use pharmacy_journal::{JournalAtRest, Pharmacy, PharmacySettings};
use std::alloc::{AllocError, Global};
use world_setup::{Call, Fault, Node, Refusal, Sent};

/// A pharmacy, up or at rest. At rest it is the bytes of its journal's record, beside its number and settings.
pub type PharmacyNode = Powered<Pharmacy>;

impl Kind for Pharmacy {
    type Rest = JournalBytes;

    ghost step = { λ routes node call. pharmacy_step (bytes_with routes) node call };

    ghost most = { λ node call. most_sent node call };

    ghost takes = { λ routes node from envelope. hears routes node envelope };

    /// Hears an answer, whoever sent it: it settles the entry of its number. Nothing is sent.
    fn take(
        &mut self,
        alloc: Global,
        _routes: &Routes,
        _from: Node,
        envelope: &Envelope<'_>,
        packet: &Octets,
    ) -> Result<Vec<Sent>, Fault> {
        self.hear_packet(envelope, packet)?;
        Ok(Vec::new(alloc))
    }

    /// The same, where the answer is readable and fits its request.
    fn take_known(
        &mut self,
        alloc: Global,
        _routes: &Routes,
        _from: Node,
        envelope: &Envelope<'_>,
        packet: &Octets,
    ) -> Result<Vec<Sent>, Fault> {
        self.hear_known(envelope, packet)?;
        Ok(Vec::new(alloc))
    }

    /// Submits a text, ticks, or goes by another rule of retries.
    fn ask(
        &mut self,
        alloc: Global,
        routes: &Routes,
        call: Call<&Octets>,
    ) -> Result<Vec<Sent>, Fault> {
        match call {
            Call::Submit(text) => submit(alloc, self, text.as_slice()),
            Call::Tick => tick(self),
            Call::Retry {
                nodes,
                again,
                tries,
            } => change_rule(alloc, self, routes, nodes.as_slice(), again, tries),
            Call::Plan { .. } | Call::Terms { .. } | Call::Cap { .. } | Call::Adjudicate { .. } => {
                Err(Fault::Refused(Refusal::NoSuchNode))
            }
            Call::Take { .. } | Call::Stop | Call::Start => unreachable!(),
        }
    }

    fn save(&self, alloc: Global) -> Result<JournalBytes, AllocError> {
        JournalBytes::save(alloc, self)
    }

    fn wake(alloc: Global, rest: &JournalBytes) -> Result<Pharmacy, AllocError> {
        rest.start(alloc)
    }

    fn revise(
        _alloc: Global,
        _rest: &mut JournalBytes,
        call: Call<&Octets>,
    ) -> Result<Vec<Sent>, Fault> {
        match call {
            Call::Plan { .. } | Call::Terms { .. } | Call::Cap { .. } | Call::Adjudicate { .. } => {
                Err(Fault::Refused(Refusal::NoSuchNode))
            }
            _ => Err(Fault::Refused(Refusal::Down)),
        }
    }

    ghost reads = { λ routes node from bytes read is. pharmacy_reads routes node from bytes read is };

    ghost takes_nothing = { λ routes rest from bytes. refl };

    ghost stops_once = { λ routes rest. refl };

    ghost starts_once = { λ routes node. refl };
}

/// Submits a text: enters it under the next number, and sends its packet to the first switch. The room for what is sent is
/// had first.
fn submit(alloc: Global, pharmacy: &mut Pharmacy, text: &[u8]) -> Result<Vec<Sent>, Fault>
    ensures ok { PharmacyMakes (Up pharmacy.old) (Submit text.now) (Up pharmacy.new) result }
    ensures fault { PharmacyRefuses (Up pharmacy.old) (Submit text.now) result }
    ensures few { IfOk result (λ sent. length sent.items ≤ 1) }
    ensures err { OnErr result (pharmacy.new ≡ pharmacy.old) }
{
    let mut sent = Vec::with_capacity(alloc, 1)?;
    let submitted = pharmacy.submit(text)?;
    sent.push_reserved(to_switch(submitted.1));
    Ok(sent)
}

/// One tick: sends each open entry again that is due, in order of numbers. Its packets become at once what a node sends.
fn tick(pharmacy: &mut Pharmacy) -> Result<Vec<Sent>, Fault>
    ensures ok { PharmacyMakes (Up pharmacy.old) Tick (Up pharmacy.new) result }
    ensures fault { IfErr result (λ fault. refusal_of fault ≡ None) }
    ensures few { IfOk result (λ sent. length sent.items ≤ length pharmacy.old.entries) }
    ensures err { OnErr result (pharmacy.new ≡ pharmacy.old) }
{
    Ok(pharmacy.tick_as::<Sent>()?)
}

/// Goes by another rule of retries. Nothing is sent.
fn change_rule(
    alloc: Global,
    pharmacy: &mut Pharmacy,
    routes: &Routes,
    nodes: &[u8],
    again: u32,
    tries: u32,
) -> Result<Vec<Sent>, Fault>
    ensures ok { Makes (pharmacy_step (bytes_with routes.now) (Up pharmacy.old)
        (Revise (OfRule (rule_in nodes.now again tries)))) (Up pharmacy.new) result }
    ensures fault { Refuses (pharmacy_step (bytes_with routes.now) (Up pharmacy.old)
        (Revise (OfRule (rule_in nodes.now again tries)))) result }
    ensures few { IfOk result (λ sent. length sent.items ≤ 1) }
    ensures err { OnErr result (pharmacy.new ≡ pharmacy.old) }
{
    pharmacy.change_rule(routes.switches(), nodes, again, tries)?;
    Ok(Vec::new(alloc))
}

impl PharmacyNode {
    /// A pharmacy that is up, with an empty journal. Number and list of switches are not empty.
    pub fn new(
        alloc: Global,
        number: u16,
        settings: PharmacySettings,
    ) -> Result<PharmacyNode, AllocError>
        requires some_number { 0 < number }
        requires some_node { 0 < length settings.nodes }
        ensures { IfOk result (λ n. n
            ≡ Up (record { number = number; settings = settings; rule = opening_rule settings; entries = [] })) }
    {
        let pharmacy = Pharmacy::new(alloc, number, settings)?;
        Ok(Powered::running(pharmacy))
    }

    /// How many packets its next tick sends at most.
    pub fn most_due(&self) -> usize
        ensures { result ≡ most_due self.now }
    {
        match &self.state {
            State::Up(pharmacy) => pharmacy.entries(),
            State::AtRest(_) => 0,
        }
    }

    /// Whether it is up and no entry is open: then a tick changes nothing and sends nothing.
    pub fn is_idle(&self) -> bool
        ensures { result ≡ is_idle_pharmacy self.now }
    {
        match &self.state {
            State::Up(pharmacy) => pharmacy.is_idle(),
            State::AtRest(_) => false,
        }
    }

    /// The bytes that there are of it at rest: its journal's text, of version 2, or 3 where it goes by another rule of retries
    /// than it was opened with. None while it is up.
    pub fn record(&self) -> Option<&[u8]>
        ensures { option_copied result ≡ journal_record self.now }
    {
        match &self.state {
            State::Up(_) => None,
            State::AtRest(kept) => Some(kept.bytes()),
        }
    }

    /// Its journal, where the node is no longer needed: as it stands, or at rest read from the record.
    pub fn into_journal(self, alloc: Global) -> Result<JournalAtRest, AllocError>
        ensures { IfOk result (λ journal. journal ≡ journal_in self) }
    {
        let Powered { state } = self;
        match state {
            State::Up(pharmacy) => Ok(pharmacy.stop()),
            State::AtRest(kept) => kept.read(alloc),
        }
    }

    /// Its journal to be read: as it stands, or at rest read once from the record.
    pub fn journal(&self, alloc: Global) -> Result<JournalReading<'_>, AllocError>
        ensures { IfOk result (λ journal. journal ≡ journal_in self.now) }
    {
        match &self.state {
            State::Up(pharmacy) => Ok(JournalReading::running(pharmacy)),
            State::AtRest(kept) => Ok(JournalReading::resting(kept.read(alloc)?)),
        }
    }
}
