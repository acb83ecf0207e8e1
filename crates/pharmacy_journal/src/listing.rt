//! The entries of a journal, one by one.

ghost use Rattle.std.specs.Prelude.{◌≡◌, ◌∷◌, [], IfOk, map};
ghost use Rattle.claim_model.specs.Journal.{stopped};
ghost use Rattle.pharmacy_journal.specs.Entries.{kept_of};
ghost use Rattle.pharmacy_journal.specs.Listing.{listed, listed_from, listed_as, rulings_of};

use crate::at_rest::JournalAtRest;
use crate::counting::rulings_of_into;
use crate::pharmacy::Pharmacy;
use crate::slot::Slot;
use claim_profile::{Ruling, code_of, count_of};
use std::alloc::{AllocError, Global};
use std::marker::Model;
use std::mem;

/// What is told of an entry: its number, the code (103-A3) and the count (109-A9) of its request, and
/// the rulings of its answer, none where it is open.
#[derive(Drop)]
pub struct EntryView {
    number: u64,
    code: [u8; 2],
    count: u8,
    rulings: Vec<Ruling>,
}

impl Model for EntryView {
    ghost use Rattle.pharmacy_journal.specs.Listing.{Listed};

    ghost Value = { Listed };

    ghost view = { λ v. record { number = v.number; code = v.code; count = v.count; rulings = v.rulings.items } };
}

impl EntryView {
    /// The number of the entry.
    pub fn number(&self) -> u64
        ensures { result ≡ self.now.number }
    {
        self.number
    }

    /// The code of the request.
    pub fn code(&self) -> [u8; 2]
        ensures { result ≡ self.now.code }
    {
        self.code
    }

    /// How many transactions the request has.
    pub fn count(&self) -> u8
        ensures { result ≡ self.now.count }
    {
        self.count
    }

    /// The rulings of the answer, by place.
    pub fn rulings(&self) -> &[Ruling]
        ensures { result.now ≡ self.now.rulings }
    {
        self.rulings.as_slice()
    }
}

impl EntryView {
    /// The list of rulings, so that its memory is used again.
    pub(crate) fn release(&mut self) -> Vec<Ruling> {
        let none = Vec::new(*self.rulings.allocator());
        mem::replace(&mut self.rulings, none)
    }
}

impl Pharmacy {
    /// All entries, in order of their numbers.
    pub fn list(&self) -> Result<Vec<EntryView>, AllocError>
        ensures { IfOk result (λ views. views.items ≡ listed (stopped self.now)) }
    {
        list_of(self.allocator(), self.slots.as_slice())
    }
}

impl JournalAtRest {
    /// All entries, in order of their numbers.
    pub fn list(&self) -> Result<Vec<EntryView>, AllocError>
        ensures { IfOk result (λ views. views.items ≡ listed self.now) }
    {
        list_of(self.allocator(), self.slots.as_slice())
    }
}

/// What is told of these entries.
fn list_of(alloc: Global, slots: &[Slot]) -> Result<Vec<EntryView>, AllocError>
    ensures { IfOk result (λ views. views.items ≡ listed_from 1 (map kept_of slots.now)) }
{
    let mut views = Vec::new(alloc);
    let mut number = 1;
    for slot in slots {
        views.push(view_of(alloc, number, slot)?)?;
        number += 1;
    }
    Ok(views)
}

/// What is told of an entry.
pub(crate) fn view_of(alloc: Global, number: u64, slot: &Slot) -> Result<EntryView, AllocError>
    ensures seen { IfOk result (λ view. listed_as number (kept_of slot.now) ≡ view ∷ []) }
    ensures rulings { IfOk result (λ view. view.rulings ≡ rulings_of (kept_of slot.now).answer) }
{
    view_in(Vec::new(alloc), number, slot)
}

/// What is told of an entry, its rulings in a list whose memory is used again.
pub(crate) fn view_in(list: Vec<Ruling>, number: u64, slot: &Slot) -> Result<EntryView, AllocError>
    ensures seen { IfOk result (λ view. listed_as number (kept_of slot.now) ≡ view ∷ []) }
    ensures rulings { IfOk result (λ view. view.rulings ≡ rulings_of (kept_of slot.now).answer) }
{
    let request = slot.request();
    let rulings = rulings_of_into(list, slot)?;
    Ok(EntryView {
        number,
        code: code_of(request),
        count: count_of(request),
        rulings,
    })
}

/// What is told before the first entry is.
pub(crate) fn no_view(alloc: Global) -> EntryView {
    EntryView {
        number: 0,
        code: [0, 0],
        count: 0,
        rulings: Vec::new(alloc),
    }
}
