//! The journal of a pharmacy that is up, and what it sends with time.

ghost use Rattle.std.specs.Prelude.{◌≡◌, ◌<◌, ◌≤◌, ◌++◌, length, map, [], Some, IfOk, OnErr, OnOk};
ghost use Rattle.bin_routes.specs.Table.{RouteMaps};
ghost use Rattle.claim_model.specs.Bytes.{bytes_with};
ghost use Rattle.claim_model.specs.Limits.{most_entries};
ghost use Rattle.claim_model.specs.Journal.{opening_rule, ticked, due, stopped};
ghost use Rattle.claim_model.specs.Node.{to_switch};
ghost use Rattle.pharmacy_journal.specs.Idle.{is_idle};
ghost use Rattle.pharmacy_journal.specs.Resting.{added_all};
ghost use Rattle.pharmacy_journal.specs.Sendings.{due_packets, sent_at};
ghost use Rattle.pharmacy_journal.specs.Settings.{rule_of};

use crate::rule::RetryRule;
use crate::sent::{ForSwitch, Sent};
use crate::settings::PharmacySettings;
use crate::slot::Slot;
use crate::timetable::Timetable;
use std::alloc::{AllocError, Global};
use std::marker::Model;

/// The journal of one pharmacy: its requests, numbered from 1, each with its answer or with its phase
/// on the circle of retries.
#[derive(Drop)]
pub struct Pharmacy {
    pub(crate) number: u16,
    pub(crate) settings: PharmacySettings,
    pub(crate) rule: RetryRule,
    pub(crate) timetable: Timetable,
    pub(crate) slots: Vec<Slot>,
}

impl Model for Pharmacy {
    ghost use Rattle.claim_model.specs.Journal.{Journal};

    ghost Value = { Journal };

    ghost use Rattle.pharmacy_journal.specs.Entries.{entries_of, IsUp};

    ghost view = { λ p.
        record {
          number = p.number;
          settings = p.settings;
          rule = p.rule;
          entries = entries_of p.slots.items p.timetable.phases;
        } };

    ghost invariant = { λ p. IsUp p.number p.settings p.rule p.timetable p.slots.items };
}

impl Pharmacy {
    /// An empty journal of the pharmacy of this number, with memory from `alloc`. Number and list of
    /// switches are not empty.
    pub fn new(
        alloc: Global,
        number: u16,
        settings: PharmacySettings,
    ) -> Result<Pharmacy, AllocError>
        requires some_number { 0 < number }
        requires some_node { 0 < length settings.nodes }
        ensures { IfOk result (λ p. p
            ≡ record { number = number; settings = settings; rule = opening_rule settings; entries = [] }) }
    {
        let rule = settings.rule().copy()?;
        let timetable = first_timetable(alloc, &rule)?;
        Ok(Pharmacy {
            number,
            settings,
            rule,
            timetable,
            slots: Vec::new(alloc),
        })
    }

    /// The pharmacy's number.
    pub fn number(&self) -> u16
        ensures value { result ≡ self.now.number }
        ensures some { 0 < result }
    {
        self.number
    }

    /// What it was opened with.
    pub fn settings(&self) -> &PharmacySettings
        ensures value { result.now ≡ self.now.settings }
        ensures some_node { 0 < length result.now.nodes }
    {
        &self.settings
    }

    /// The rule of retries that it goes by.
    pub fn rule(&self) -> &RetryRule
        ensures value { result.now ≡ self.now.rule }
        ensures some_node { 0 < length result.now.nodes }
    {
        &self.rule
    }

    /// How many entries there are.
    pub fn entries(&self) -> usize
        ensures value { result ≡ length self.now.entries }
        ensures in_limit { result ≤ self.now.settings.cap }
        ensures small { result ≤ most_entries }
        // The entries are such that the journal at rest is made by adding them one by one.
        ensures made { added_all
            (Some (record { number = self.now.number; settings = self.now.settings; rule = self.now.rule; entries = [] }))
            (stopped self.now).entries ≡ Some (stopped self.now) }
    {
        self.slots.len()
    }

    /// Whether no entry is open: then a tick changes nothing and sends nothing.
    #[tactic(auto, using(crate::proofs::Idle::idle_by_phases))]
    pub fn is_idle(&self) -> bool
        ensures { result ≡ is_idle self.now }
    {
        self.timetable.is_idle()
    }

    /// The allocator that the journal was opened with.
    pub fn allocator(&self) -> Global {
        *self.slots.allocator()
    }

    /// One tick: each open entry waits one tick longer, and those that waited long enough are sent, in
    /// order of their numbers.
    pub fn tick(&mut self) -> Result<Vec<Sent>, AllocError>
        ensures ok { OnOk result (self.new ≡ ticked self.old) }
        ensures sent { (routes : RouteMaps) → IfOk result (λ sent. sent.items ≡ due (bytes_with routes) self.new) }
        // No entry is sent twice, so room for as many packets as there are entries is enough.
        ensures few { IfOk result (λ sent. length sent.items ≤ length self.old.entries) }
        ensures err { OnErr result (self.new ≡ self.old) }
    {
        self.tick_as::<Sent>()
    }

    /// One tick, as [`tick`](Pharmacy::tick), where each packet becomes at once what is made of a packet for a switch.
    pub fn tick_as<S: ForSwitch>(&mut self) -> Result<Vec<S>, AllocError>
        ensures ok { OnOk result (self.new ≡ ticked self.old) }
        ensures sent { (routes : RouteMaps)
            → IfOk result (λ sent. map S.seen sent.items ≡ map to_switch (due (bytes_with routes) self.new)) }
        ensures few { IfOk result (λ sent. length sent.items ≤ length self.old.entries) }
        ensures err { OnErr result (self.new ≡ self.old) }
    {
        let sent = self.due_packets()?;
        self.timetable.tick();
        Ok(sent)
    }

    /// What the next tick sends.
    fn due_packets<S: ForSwitch>(&self) -> Result<Vec<S>, AllocError>
        ensures { IfOk result (λ sent. map S.seen sent.items ≡ map to_switch (due_packets (ticked self.now))) }
    {
        let places = self.timetable.due_next();
        let mut sent = Vec::with_capacity(*self.slots.allocator(), places.len())?;
        for place in places {
            self.push_packet(&mut sent, *place)?;
        }
        Ok(sent)
    }

    /// Adds the packet that the entry at a place has after the next tick, where it is open.
    fn push_packet<S: ForSwitch>(&self, sent: &mut Vec<S>, place: usize) -> Result<(), AllocError>
        requires { place < length self.now.entries }
        ensures { OnOk result (map S.seen sent.new.items
            ≡ map S.seen sent.old.items ++ sent_at (ticked self.now) place) }
    {
        let Some(node) = self.timetable.next_node(place) else {
            return Ok(());
        };
        if let Slot::Waiting(txn) = &self.slots[place] {
            let packet = txn.packet(*sent.allocator())?;
            sent.push(S::for_switch(self.rule.nodes()[node], packet))?;
        }
        Ok(())
    }
}

/// The timetable of a journal without entries.
pub(crate) fn first_timetable(alloc: Global, rule: &RetryRule) -> Result<Timetable, AllocError>
    requires { 0 < length rule.now.nodes }
    ensures { IfOk result (λ t. t ≡ record { rule = rule_of rule.now; phases = [] }) }
{
    Timetable::new(alloc, rule.again(), rule.tries(), rule.nodes().len() as u32)
}
