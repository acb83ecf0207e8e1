//! The table of a switch: entries by their ids, oldest first.
//!
//! The map's entries are a ring. Until the table is full they stand in order of age; then a new entry takes
//! the place of the oldest, and the head goes one place on.

ghost use Rattle.std.specs.Prelude.{◌≡◌, ◌≤◌, ◌<◌, ◌+◌, List, [], ◌∷◌, ◌++◌, None, length, map, slice_set, IfOk, OnOk, OnErr};
ghost use Rattle.std.specs.List.{IsDistinct};
ghost use Rattle.std.specs.Map.{keys_of, lookup};
ghost use Rattle.std.specs.Option.{option_copied};
ghost use Rattle.envelope.specs.Txn.{Txn};
ghost use Rattle.claim_model.specs.Readable.{same_id};
ghost use Rattle.claim_model.specs.Table.{Slot as ModelSlot, slot_of, entered, filled};
ghost use Rattle.envelope.specs.Envelope.{longest_payload};
ghost use Rattle.switch_node.specs.Ring.{in_flight, answered_at, next};

use crate::settings::SwitchSettings;
use crate::slot::Slot;
use envelope::TxnId;
use indexmap::IndexMap;
use indexmap::map::Slice;
use octets::Octets;
use std::alloc::{AllocError, Global};
use std::marker::Model;

/// A request in the table.
#[derive(Clone, Copy, PartialEq, Eq)]
pub struct InFlight {
    /// Which transaction it is.
    pub id: TxnId,
    /// Whether its answer came.
    pub answered: bool,
}

/// The entries of a switch, oldest first.
#[derive(Drop)]
pub struct Table {
    settings: SwitchSettings,
    head: usize,
    map: IndexMap<TxnId, Slot>,
}

impl Model for Table {
    ghost use Rattle.claim_model.specs.Table.{Table as ModelTable};
    ghost use Rattle.switch_node.specs.Ring.{turned, IsRing};

    ghost Value = { ModelTable };

    ghost view = { λ t. record { cap = t.settings; entries = turned t.head t.map.entries } };

    ghost invariant = { λ t. IsRing t.settings t.head t.map.entries };
}

impl Table {
    /// The table without an entry.
    pub fn new(alloc: Global, settings: SwitchSettings) -> Table
        ensures { result ≡ record { cap = settings; entries = [] } }
    {
        Table {
            settings,
            head: 0,
            map: IndexMap::new(alloc),
        }
    }

    /// Its settings.
    pub fn settings(&self) -> SwitchSettings
        ensures { result ≡ self.now.cap }
    {
        self.settings
    }

    /// Where its memory comes from.
    pub fn allocator(&self) -> Global {
        *self.map.allocator()
    }

    /// How many entries there are.
    pub fn len(&self) -> usize
        ensures len { result ≡ length self.now.entries }
        ensures few { result ≤ self.now.cap }
        ensures distinct { IsDistinct same_id (keys_of self.now.entries) }
    {
        self.map.len()
    }

    /// The entry of an id.
    pub fn get(&self, id: TxnId) -> Option<&Slot>
        ensures { option_copied result ≡ slot_of id self.now.entries }
    {
        self.map.get(&id)
    }

    /// Puts a new entry last. In a full table the oldest leaves. Takes the memory that it needs first.
    pub fn enter(&mut self, id: TxnId, slot: Slot) -> Result<(), AllocError>
        requires { slot_of id self.old.entries ≡ None }
        ensures entered { OnOk result (self.new ≡ entered self.old id slot) }
        ensures unchanged { OnErr result (self.new ≡ self.old) }
    {
        let cap = self.settings.cap() as usize;
        let full = self.map.len() == cap;
        put(&mut self.map, id, slot)?;
        if full {
            replace(&mut self.map, self.head);
            self.head = next(self.head, cap);
        }
        Ok(())
    }

    /// Keeps the answer of an entry, which grows no younger by it.
    pub fn fill(&mut self, id: TxnId, answer: Octets)
        requires { length answer ≤ longest_payload }
        ensures { self.new ≡ filled self.old id answer }
    {
        write(&mut self.map, id, answer);
    }

    /// All entries, oldest first.
    #[tactic(auto, unfolding(crate::specs::Ring::turned))]
    pub fn list(&self) -> Result<Vec<InFlight>, AllocError>
        ensures { IfOk result (λ list. list.items ≡ map in_flight self.now.entries) }
    {
        let mut list = Vec::with_capacity(self.allocator(), self.map.len())?;
        let (younger, older) = self.map.as_slice().split_at(self.head);
        push_all(&mut list, older)?;
        push_all(&mut list, younger)?;
        Ok(list)
    }
}

/// Puts a new entry last.
fn put(ring: &mut IndexMap<TxnId, Slot>, id: TxnId, slot: Slot) -> Result<(), AllocError>
    requires { lookup (same_id id) ring.old.entries ≡ None }
    ensures put { OnOk result (ring.new.entries ≡ ring.old.entries ++ (id, slot) ∷ []) }
    ensures unchanged { OnErr result (ring.new.entries ≡ ring.old.entries) }
    ensures unique { IsDistinct same_id (keys_of ring.new.entries) }
{
    drop(ring.insert(id, slot)?);
    Ok(())
}

/// The place after this one, round a ring of this many places.
fn next(place: usize, cap: usize) -> usize
    requires { place < cap }
    ensures { result ≡ next place cap }
{
    if place + 1 == cap { 0 } else { place + 1 }
}

/// The ring after its oldest entry left for the last one, which stands in its place.
fn replace(ring: &mut IndexMap<TxnId, Slot>, head: usize)
    requires { head + 1 < length ring.old.entries }
    ensures entries { (rest : List (Txn × ModelSlot)) (last : Txn × ModelSlot)
        → ring.old.entries ≡ rest ++ last ∷ [] → ring.new.entries ≡ slice_set rest head last }
    ensures unique { IsDistinct same_id (keys_of ring.new.entries) }
{
    drop(ring.swap_remove_index(head));
}

/// Keeps the answer of an entry.
fn write(ring: &mut IndexMap<TxnId, Slot>, id: TxnId, answer: Octets)
    requires { length answer ≤ longest_payload }
    ensures { ring.new.entries ≡ map (answered_at id answer) ring.old.entries }
{
    if let Some(slot) = ring.get_mut(&id) {
        slot.settle(answer);
    }
}

/// Appends these entries.
fn push_all(list: &mut Vec<InFlight>, entries: Slice<'_, TxnId, Slot>) -> Result<(), AllocError>
    ensures { OnOk result (list.new.items ≡ list.old.items ++ map in_flight entries.entry) }
{
    for (id, slot) in entries {
        list.push(InFlight {
            id: *id,
            answered: slot.is_answered(),
        })?;
    }
    Ok(())
}
