//! What is read of a pharmacy's journal, up or at rest.

ghost use Rattle.std.specs.Prelude.{◌≡◌, length, None, Some, IfOk, option_and_then};
ghost use Rattle.std.specs.Option.{option_copied};
ghost use Rattle.bin_routes.specs.Table.{RouteMaps};
ghost use Rattle.claim_model.specs.Bytes.{bytes_with};
ghost use Rattle.claim_model.specs.Counted.{counted};
ghost use Rattle.claim_model.specs.Journal.{stopped};
ghost use Rattle.claim_model.specs.Numbered.{numbered};
ghost use Rattle.pharmacy_journal.specs.Listing.{listed};
ghost use Rattle.pharmacy_journal.specs.Entries.{IsEntryOf};
ghost use Rattle.pharmacy_journal.specs.Telling.{Begins};
ghost use Rattle.node_state.specs.Nodes.{request_in};

use pharmacy_journal::{CountedPayment, EntryView, JournalAtRest, KeptEntry, Pharmacy, Teller};
use std::alloc::AllocError;
use std::marker::Model;

/// Whose journal is read: a pharmacy's that is up, or one that was read from its record.
#[derive(Drop)]
pub(crate) enum JournalSource<'a> {
    Running(&'a Pharmacy),
    Resting(JournalAtRest),
}

/// A pharmacy's journal to be read, up or at rest: its entries without phases.
#[derive(Drop)]
pub struct JournalReading<'a> {
    source: JournalSource<'a>,
}

impl<'a> Model for JournalReading<'a> {
    ghost use Rattle.claim_model.specs.Journal.{JournalAtRest as Resting};

    ghost Value = { Resting };

    ghost use Rattle.node_state.specs.Reading.{journal_read};

    ghost view = { λ r. journal_read r.source };
}

impl<'a> JournalReading<'a> {
    /// The journal of a pharmacy that is up.
    pub(crate) fn running(pharmacy: &'a Pharmacy) -> JournalReading<'a>
        ensures { result ≡ stopped pharmacy.now }
    {
        JournalReading {
            source: JournalSource::Running(pharmacy),
        }
    }

    /// A journal at rest.
    pub(crate) fn resting(journal: JournalAtRest) -> JournalReading<'a>
        ensures { result ≡ journal }
    {
        JournalReading {
            source: JournalSource::Resting(journal),
        }
    }

    /// The pharmacy's number.
    pub fn number(&self) -> u16
        ensures { result ≡ self.now.number }
    {
        match &self.source {
            JournalSource::Running(pharmacy) => pharmacy.number(),
            JournalSource::Resting(journal) => journal.number(),
        }
    }

    /// How many entries there are.
    pub fn entries(&self) -> usize
        ensures { result ≡ length self.now.entries }
    {
        match &self.source {
            JournalSource::Running(pharmacy) => pharmacy.entries(),
            JournalSource::Resting(journal) => journal.entries(),
        }
    }

    /// The entry of a number, from 1: its request, and its answer if there is one.
    pub fn entry(&self, number: u64) -> Option<KeptEntry<'_>>
        ensures { IsEntryOf self.now.entries number result }
    {
        match &self.source {
            JournalSource::Running(pharmacy) => pharmacy.entry(number),
            JournalSource::Resting(journal) => journal.entry(number),
        }
    }

    /// The request of a number, from 1.
    pub fn request(&self, number: u64) -> Option<&[u8]>
        ensures { option_copied result ≡ request_in self.now number }
    {
        match self.entry(number) {
            Some(entry) => Some(entry.request),
            None => None,
        }
    }

    /// The answer to the request of a number, from 1.
    pub fn held(&self, number: u64) -> Option<&[u8]>
        ensures { option_copied result ≡ option_and_then (λ k. k.answer) (numbered self.now.entries number) }
    {
        match &self.source {
            JournalSource::Running(pharmacy) => pharmacy.held(number),
            JournalSource::Resting(journal) => journal.held(number),
        }
    }

    /// The payments that the pharmacy counts.
    pub fn paid(&self) -> Result<Vec<CountedPayment>, AllocError>
        ensures { (routes : RouteMaps) → IfOk result (λ paid. paid.items ≡ counted (bytes_with routes) self.now) }
    {
        match &self.source {
            JournalSource::Running(pharmacy) => pharmacy.paid(),
            JournalSource::Resting(journal) => journal.paid(),
        }
    }

    /// All entries, in order of their numbers.
    pub fn list(&self) -> Result<Vec<EntryView>, AllocError>
        ensures { IfOk result (λ views. views.items ≡ listed self.now) }
    {
        match &self.source {
            JournalSource::Running(pharmacy) => pharmacy.list(),
            JournalSource::Resting(journal) => journal.list(),
        }
    }

    /// All entries, to be told one by one, and then the payments that the pharmacy counts.
    pub fn teller(&self) -> Teller<'_>
        ensures { Begins self.now.entries result }
    {
        match &self.source {
            JournalSource::Running(pharmacy) => return pharmacy.teller(),
            JournalSource::Resting(journal) => return journal.teller(),
        }
    }

    /// All entries, in order of their numbers, and the payments that the pharmacy counts, with each answer read once.
    pub fn told(&self) -> Result<(Vec<EntryView>, Vec<CountedPayment>), AllocError>
        ensures entries { IfOk result (λ t. t.0.items ≡ listed self.now) }
        ensures paid { (routes : RouteMaps) → IfOk result (λ t. t.1.items ≡ counted (bytes_with routes) self.now) }
    {
        match &self.source {
            JournalSource::Running(pharmacy) => pharmacy.told(),
            JournalSource::Resting(journal) => journal.told(),
        }
    }
}
