//! The journal of a pharmacy at rest, as bytes.

ghost use Rattle.std.specs.Prelude.{◌≡◌, false, Ok, IfNone, IfOk, IfSome, IsTrue};
ghost use Rattle.std.specs.Option.{option_copied};
ghost use Rattle.claim_model.specs.Journal.{stopped, started};
ghost use Rattle.kept_records.specs.Journals.{journal_in, kept_text};

use kept_records::{RecordFault, read_journal, save_journal};
use pharmacy_journal::{JournalAtRest, Pharmacy, PharmacySettings};
use std::alloc::{AllocError, Global};
use std::marker::Model;

/// The bytes of a journal's record, beside the pharmacy's number and settings.
#[derive(Drop)]
pub struct JournalBytes {
    number: u16,
    settings: PharmacySettings,
    bytes: Vec<u8>,
}

impl Model for JournalBytes {
    ghost use Rattle.claim_model.specs.Journal.{JournalAtRest as Resting};

    ghost Value = { Resting };

    ghost use Rattle.node_state.specs.Records.{journal_of, IsJournal};

    ghost view = { λ j. journal_of j.number j.settings j.bytes.items };

    ghost invariant = { λ j. IsJournal j.number j.settings j.bytes.items };
}

impl JournalBytes {
    /// The record of what a pharmacy leaves when it stops.
    #[tactic(auto, unfolding(claim_model::specs::Journal::stopped))]
    pub(crate) fn save(alloc: Global, pharmacy: &Pharmacy) -> Result<JournalBytes, AllocError>
        ensures { IfOk result (λ kept. kept ≡ stopped pharmacy.now) }
    {
        let settings = pharmacy.settings().copy()?;
        let bytes = save_journal(alloc, pharmacy)?;
        Ok(JournalBytes {
            number: pharmacy.number(),
            settings,
            bytes,
        })
    }

    /// The bytes: the journal's text.
    pub(crate) fn bytes(&self) -> &[u8]
        ensures { result.now ≡ kept_text self.now }
    {
        self.bytes.as_slice()
    }

    /// The bytes, where the pharmacy has this number and these settings: they are read as its journal.
    pub(crate) fn record_under(&self, number: u16, settings: &PharmacySettings) -> Option<&[u8]>
        ensures record { IfSome (option_copied result) (λ bytes.
            journal_in number settings.now bytes ≡ Ok self.now) }
        ensures none { IfNone result (self.now.number ≡ number → self.now.settings ≡ settings.now → ⊥) }
    {
        if self.number == number && is_same(&self.settings, settings) {
            Some(self.bytes.as_slice())
        } else {
            None
        }
    }

    /// The journal, read again. Its bytes are its record, so nothing but memory can be wanting.
    pub(crate) fn read(&self, alloc: Global) -> Result<JournalAtRest, AllocError>
        ensures { IfOk result (λ journal. journal ≡ self.now) }
    {
        let settings = self.settings.copy()?;
        match read_journal(alloc, self.bytes.as_slice(), self.number, settings) {
            Ok(journal) => Ok(journal),
            Err(RecordFault::OutOfMemory) => Err(AllocError),
            Err(_) => unreachable!(),
        }
    }

    /// The pharmacy, started again.
    pub(crate) fn start(&self, alloc: Global) -> Result<Pharmacy, AllocError>
        ensures { IfOk result (λ pharmacy. pharmacy ≡ started self.now) }
    {
        match self.read(alloc)?.start() {
            Ok(pharmacy) => Ok(pharmacy),
            Err(_) => Err(AllocError),
        }
    }
}

/// Whether two pharmacies have the same settings.
fn is_same(a: &PharmacySettings, b: &PharmacySettings) -> bool
    ensures same { IsTrue result → a.now ≡ b.now }
    ensures other { result ≡ false → a.now ≡ b.now → ⊥ }
{
    a.qualifier() == b.qualifier()
        && a.provider() == b.provider()
        && a.nodes() == b.nodes()
        && a.again() == b.again()
        && a.tries() == b.tries()
        && a.cap() == b.cap()
}
