//! What a journal tells at once: its entries, and the payments that it counts.

ghost use Rattle.std.specs.Prelude.{◌≡◌, map, IfOk};
ghost use Rattle.claim_model.specs.Journal.{stopped};
ghost use Rattle.pharmacy_journal.specs.Entries.{kept_of};
ghost use Rattle.pharmacy_journal.specs.Listing.{listed, listed_from};
ghost use Rattle.pharmacy_journal.specs.Counting.{outcomes, counted_in};
ghost use Rattle.pharmacy_journal.specs.Telling.{NamesAll, ReversesAll, TellsPaid};

use crate::at_rest::JournalAtRest;
use crate::counting::{CountedPayment, Told, counted_of, nothing_told, take_slot};
use crate::listing::{EntryView, view_of};
use crate::pharmacy::Pharmacy;
use crate::slot::Slot;
use std::alloc::{AllocError, Global};

impl Pharmacy {
    /// All entries, in order of their numbers, and the payments that the pharmacy counts, with each answer read once:
    /// what `list` and `paid` give.
    pub fn told(&self) -> Result<(Vec<EntryView>, Vec<CountedPayment>), AllocError>
        ensures entries { IfOk result (λ told. told.0.items ≡ listed (stopped self.now)) }
        ensures paid { TellsPaid (stopped self.now) result }
    {
        told_by(self.allocator(), self.slots.as_slice())
    }
}

impl JournalAtRest {
    /// All entries and the payments that the pharmacy counts, as for one that is up.
    pub fn told(&self) -> Result<(Vec<EntryView>, Vec<CountedPayment>), AllocError>
        ensures entries { IfOk result (λ told. told.0.items ≡ listed self.now) }
        ensures paid { TellsPaid self.now result }
    {
        told_by(self.allocator(), self.slots.as_slice())
    }
}

/// What is told of these entries, and the payments that they count.
#[tactic(auto, using(crate::proofs::Payable::counted_by))]
fn told_by(
    alloc: Global,
    slots: &[Slot],
) -> Result<(Vec<EntryView>, Vec<CountedPayment>), AllocError>
    ensures entries { IfOk result (λ told. told.0.items ≡ listed_from 1 (map kept_of slots.now)) }
    ensures paid { IfOk result (λ told. told.1.items ≡ counted_in (outcomes (map kept_of slots.now))) }
{
    let (views, told) = read_both(alloc, slots)?;
    let paid = counted_of(told)?;
    Ok((views, paid))
}

/// What is told of these entries one by one, and what they tell together.
fn read_both(alloc: Global, slots: &[Slot]) -> Result<(Vec<EntryView>, Told), AllocError>
    ensures entries { IfOk result (λ told. told.0.items ≡ listed_from 1 (map kept_of slots.now)) }
    ensures named { IfOk result (λ told. NamesAll told.1 (outcomes (map kept_of slots.now))) }
    ensures reversed { IfOk result (λ told. ReversesAll told.1 (outcomes (map kept_of slots.now))) }
{
    let mut views = Vec::new(alloc);
    let mut told = nothing_told(alloc);
    let mut number = 1;
    for slot in slots {
        let view = view_of(alloc, number, slot)?;
        take_slot(&mut told, slot, view.rulings())?;
        views.push(view)?;
        number += 1;
    }
    Ok((views, told))
}
