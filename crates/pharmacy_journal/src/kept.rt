//! What is read of a journal, up or at rest.

ghost use Rattle.std.specs.Prelude.{◌≡◌, ◌<◌, ◌≤◌, ◌-◌, map, None, Some, SomeIff, option_and_then};
ghost use Rattle.std.specs.Option.{option_copied};
ghost use Rattle.claim_model.specs.Numbered.{numbered};
ghost use Rattle.claim_model.specs.Journal.{stopped};
ghost use Rattle.pharmacy_journal.specs.Entries.{kept_of, IsEntryOf};

use crate::at_rest::JournalAtRest;
use crate::pharmacy::Pharmacy;
use crate::slot::Slot;

/// An entry as it is kept: its request, and its answer if there is one.
#[derive(Clone, Copy)]
pub struct KeptEntry<'a> {
    /// The request's bytes.
    pub request: &'a [u8],
    /// The answer's bytes.
    pub answer: Option<&'a [u8]>,
}

impl Pharmacy {
    /// The entry of a number, from 1.
    pub fn entry(&self, number: u64) -> Option<KeptEntry<'_>>
        ensures { IsEntryOf (stopped self.now).entries number result }
    {
        entry_at(self.slots.as_slice(), number)
    }

    /// The answer to the request of a number, from 1.
    pub fn held(&self, number: u64) -> Option<&[u8]>
        ensures { option_copied result ≡ option_and_then (λ k. k.answer) (numbered (stopped self.now).entries number) }
    {
        held_at(self.slots.as_slice(), number)
    }
}

impl JournalAtRest {
    /// The entry of a number, from 1.
    pub fn entry(&self, number: u64) -> Option<KeptEntry<'_>>
        ensures { IsEntryOf self.now.entries number result }
    {
        entry_at(self.slots.as_slice(), number)
    }

    /// The answer to the request of a number, from 1.
    pub fn held(&self, number: u64) -> Option<&[u8]>
        ensures { option_copied result ≡ option_and_then (λ k. k.answer) (numbered self.now.entries number) }
    {
        held_at(self.slots.as_slice(), number)
    }
}

impl Slot {
    /// The entry as it is kept.
    fn kept(&self) -> KeptEntry<'_>
        ensures { kept_of self.now ≡ record { request = result.request.now; answer = option_copied result.answer } }
    {
        match self {
            Slot::Waiting(txn) => KeptEntry {
                request: txn.request(),
                answer: None,
            },
            Slot::Settled(txn) => KeptEntry {
                request: txn.request(),
                answer: Some(txn.answer()),
            },
        }
    }
}

/// The entry of a number among these.
fn entry_at(slots: &[Slot], number: u64) -> Option<KeptEntry<'_>>
    ensures { IsEntryOf (map kept_of slots.now) number result }
{
    let place = place_of(number, slots.len())?;
    Some(slots[place].kept())
}

/// The answer of a number among these entries.
fn held_at(slots: &[Slot], number: u64) -> Option<&[u8]>
    ensures { option_copied result ≡ option_and_then (λ k. k.answer) (numbered (map kept_of slots.now) number) }
{
    match entry_at(slots, number) {
        Some(entry) => entry.answer,
        None => None,
    }
}

/// The place of a number among this many entries.
pub(crate) fn place_of(number: u64, count: usize) -> Option<usize>
    ensures { SomeIff result ((0 < number) × (number ≤ count)) (number - 1) }
{
    if number == 0 || number > count as u64 {
        return None;
    }
    Some(number as usize - 1)
}
