//! A journal that is told entry by entry.

ghost use Rattle.std.specs.Prelude.{◌≡◌, ◌∷◌, [], map, IfOk, OnOk};
ghost use Rattle.claim_model.specs.Journal.{stopped};
ghost use Rattle.pharmacy_journal.specs.Entries.{kept_of};
ghost use Rattle.pharmacy_journal.specs.Listing.{listed_as};
ghost use Rattle.pharmacy_journal.specs.Telling.{told_by, NamesMore, ReversesMore, Begins, TellsNext, CountsIn};

use crate::at_rest::JournalAtRest;
use crate::counting::{CountedPayment, Told, counted_of, nothing_told, take_slot};
use crate::listing::{EntryView, no_view, view_in};
use crate::pharmacy::Pharmacy;
use crate::slot::Slot;
use claim_profile::Ruling;
use std::alloc::{AllocError, Global};
use std::marker::Model;

/// Tells the entries of a journal one by one, in order of their numbers, and then the payments that the pharmacy counts, with
/// each answer read once. What is told of an entry stands until the next is told, in memory that is used again.
#[derive(Drop)]
pub struct Teller<'a> {
    slots: &'a [Slot],
    passed: usize,
    told: Told,
    entry: EntryView,
}

impl<'a> Model for Teller<'a> {
    ghost use Rattle.std.specs.Prelude.{◌+◌, map, drop};
    ghost use Rattle.pharmacy_journal.specs.Entries.{kept_of};
    ghost use Rattle.pharmacy_journal.specs.Counting.{outcomes};
    ghost use Rattle.pharmacy_journal.specs.Telling.{Telling, IsTold};

    ghost Value = { Telling };

    ghost view = { λ t. record {
      number = t.passed + 1;
      left = map kept_of (drop t.passed t.slots.now);
      entries = map kept_of t.slots.now;
      entry = t.entry;
    } };

    ghost invariant = { λ t. IsTold t.told (outcomes (map kept_of (drop t.passed t.slots.now)))
        (outcomes (map kept_of t.slots.now)) };
}

impl Pharmacy {
    /// All entries, to be told one by one.
    pub fn teller(&self) -> Teller<'_>
        ensures { Begins (stopped self.now).entries result }
    {
        Teller::new(self.allocator(), self.slots.as_slice())
    }
}

impl JournalAtRest {
    /// All entries, to be told one by one, as for a pharmacy that is up.
    pub fn teller(&self) -> Teller<'_>
        ensures { Begins self.now.entries result }
    {
        Teller::new(self.allocator(), self.slots.as_slice())
    }
}

impl<'a> Teller<'a> {
    /// These entries, of which none is told yet.
    pub(crate) fn new(alloc: Global, slots: &'a [Slot]) -> Teller<'a>
        ensures { Begins (map kept_of slots.now) result }
    {
        Teller {
            slots,
            passed: 0,
            told: nothing_told(alloc),
            entry: no_view(alloc),
        }
    }

    /// Tells the next entry, and says whether there was one. Where memory is refused, all entries are to be told again.
    pub fn next(&mut self) -> Result<bool, AllocError>
        ensures next { IfOk result (λ more. TellsNext self.old self.new more) }
        ensures same { self.new.entries ≡ self.old.entries }
    {
        if self.passed >= self.slots.len() {
            return Ok(false);
        }
        let slot = &self.slots[self.passed];
        let number = self.passed as u64 + 1;
        match tell(&mut self.told, self.entry.release(), number, slot) {
            Ok(entry) => {
                self.entry = entry;
                self.passed += 1;
                Ok(true)
            }
            Err(refused) => {
                self.told = nothing_told(*self.told.named.allocator());
                self.passed = 0;
                Err(refused)
            }
        }
    }

    /// What is told of the entry that was told last.
    pub fn entry(&self) -> &EntryView
        ensures { result.now ≡ self.now.entry }
    {
        &self.entry
    }

    /// The payments that the pharmacy counts, once all entries are told.
    #[tactic(auto, using(crate::proofs::Tellings::told_all))]
    pub fn paid(self) -> Result<Vec<CountedPayment>, AllocError>
        requires { self.left ≡ [] }
        ensures { CountsIn self.entry.entries result }
    {
        let Teller { told, .. } = self;
        counted_of(told)
    }
}

/// Tells an entry, its rulings in a list whose memory is used again, and adds what it tells.
fn tell(
    told: &mut Told,
    list: Vec<Ruling>,
    number: u64,
    slot: &Slot,
) -> Result<EntryView, AllocError>
    ensures seen { IfOk result (λ entry. listed_as number (kept_of slot.now) ≡ entry ∷ []) }
    ensures named { OnOk result (NamesMore told.old told.new (told_by slot.now)) }
    ensures reversed { OnOk result (ReversesMore told.old told.new (told_by slot.now)) }
{
    let entry = view_in(list, number, slot)?;
    take_slot(told, slot, entry.rulings())?;
    Ok(entry)
}
