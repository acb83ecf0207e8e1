//! The ledger of a pharmacy.

ghost use Rattle.std.specs.Prelude.{◌≡◌, length, MatchOption};
ghost use Rattle.std.specs.Option.{option_copied};
ghost use Rattle.pharmacy_journal.specs.Entries.{IsEntryOf as HasEntry};
ghost use Rattle.node_logged.specs.Ledgers.{IsEntryOf, IsOfNone, answer_at, is_answer};

use crate::till::Receipt;
use node_state::JournalReading;
use pharmacy_journal::{JournalAtRest, KeptEntry};
use std::marker::Model;

/// Where a journal is read.
#[derive(Drop)]
pub(crate) enum Source<'a> {
    /// One that is at rest.
    Resting(JournalAtRest),
    /// That of a pharmacy as it stands.
    Standing(JournalReading<'a>),
}

/// A pharmacy, and the journal that it has.
#[derive(Drop)]
pub(crate) struct Ledger<'a> {
    pharmacy: u16,
    journal: Source<'a>,
}

impl<'a> Model for Ledger<'a> {
    ghost use Rattle.node_logged.specs.LedgerSource.{entries_read};
    ghost use Rattle.node_logged.specs.Ledgers as ledgers;

    ghost Value = { ledgers.Ledger };

    ghost view = { λ l. record { pharmacy = l.pharmacy; entries = entries_read l.journal } };
}

impl<'a> Ledger<'a> {
    /// The ledger of a pharmacy with this journal.
    pub(crate) fn new(pharmacy: u16, journal: JournalAtRest) -> Ledger<'a>
        ensures { result ≡ record { pharmacy = pharmacy; entries = journal.entries } }
    {
        Ledger {
            pharmacy,
            journal: Source::Resting(journal),
        }
    }

    /// The ledger of a pharmacy whose journal is read where it stands.
    pub(crate) fn standing(pharmacy: u16, journal: JournalReading<'a>) -> Ledger<'a>
        ensures { result ≡ record { pharmacy = pharmacy; entries = journal.entry.entries } }
    {
        Ledger {
            pharmacy,
            journal: Source::Standing(journal),
        }
    }

    /// The pharmacy's number.
    pub(crate) fn pharmacy(&self) -> u16
        ensures { result ≡ self.now.pharmacy }
    {
        self.pharmacy
    }

    /// How many entries the journal has.
    pub(crate) fn entries(&self) -> usize
        ensures { result ≡ length self.now.entries }
    {
        match &self.journal {
            Source::Resting(journal) => journal.entries(),
            Source::Standing(journal) => journal.entries(),
        }
    }

    /// The entry of a number, from 1.
    fn entry(&self, number: u64) -> Option<KeptEntry<'_>>
        ensures { HasEntry self.now.entries number result }
    {
        match &self.journal {
            Source::Resting(journal) => journal.entry(number),
            Source::Standing(journal) => journal.entry(number),
        }
    }

    /// The answer to the request of a number, from 1.
    fn held(&self, number: u64) -> Option<&[u8]>
        ensures { option_copied result ≡ answer_at self.now.entries number }
    {
        match &self.journal {
            Source::Resting(journal) => journal.held(number),
            Source::Standing(journal) => journal.held(number),
        }
    }

    /// The place of the entry that has the number and the request of this receipt.
    pub(crate) fn place_of(&self, receipt: &Receipt) -> Option<usize>
        ensures { MatchOption result (IsOfNone self.now.entries receipt.now) (IsEntryOf self.now.entries receipt.now) }
    {
        let number = receipt.number();
        let entry = self.entry(number)?;
        if entry.request == receipt.request() {
            Some(number as usize - 1)
        } else {
            None
        }
    }

    /// Whether the entry of this number has this answer.
    pub(crate) fn has_answer(&self, number: u64, answer: &[u8]) -> bool
        ensures { result ≡ is_answer self.now.entries (number, answer.now) }
    {
        match self.held(number) {
            Some(held) => held == answer,
            None => false,
        }
    }
}
