//! The rows of a book, in the order in which they were decided, found by their id.

ghost use Rattle.std.specs.Prelude.{◌≡◌, ◌<◌, [], ◌∷◌, ◌++◌, length, slice_get, Some, None, OnOk, OnErr};
ghost use Rattle.std.specs.Option.{option_copied};
ghost use Rattle.claim_model.specs.Book.{row_of};
ghost use Rattle.payer_book.specs.RowPlaces.{IsPlaceOf};

use crate::book::place_map::PlaceMap;
use crate::book::row::Row;
use crate::keys::HashKeys;
use envelope::TxnId;
use std::alloc::{AllocError, Global};
use std::hash::Hash;
use std::marker::Model;

/// The list of rows, with an index from id to place.
#[derive(Drop)]
pub(crate) struct Rows {
    list: Vec<Row>,
    places: PlaceMap<TxnId>,
}

impl Model for Rows {
    ghost use Rattle.std.specs.Prelude.{List};
    ghost use Rattle.claim_model.specs.Rows.{Row as RowParts};

    ghost Value = { List RowParts };

    ghost use Rattle.payer_book.specs.PlaceMaps.{place_in};
    ghost use Rattle.payer_book.specs.RowPlaces.{IsPlaced};

    ghost view = { λ r. r.list.items };

    ghost invariant = { λ r. IsPlaced r.list.items (place_in ⟦<TxnId as PartialEq>⟧.eq ⟦<TxnId as Hash>⟧.hash_input r.places) };
}

impl Rows {
    /// No rows, with memory from `alloc`, found by these keys.
    pub(crate) fn new(alloc: Global, keys: &HashKeys) -> Rows
        ensures { result ≡ [] }
    {
        Rows {
            list: Vec::new(alloc),
            places: PlaceMap::new(alloc, keys.start()),
        }
    }

    /// The allocator that the rows were opened with.
    pub(crate) fn allocator(&self) -> Global {
        *self.list.allocator()
    }

    /// The keys that the rows are found by.
    pub(crate) fn keys(&self) -> HashKeys {
        HashKeys::from_start(self.places.start())
    }

    /// How many rows there are.
    pub(crate) fn len(&self) -> usize
        ensures { result ≡ length self.now }
    {
        self.list.len()
    }

    /// The rows, oldest first.
    pub(crate) fn as_slice(&self) -> &[Row]
        ensures { result.now ≡ self.now }
    {
        self.list.as_slice()
    }

    /// The place of the row of an id.
    #[tactic(auto, using(crate::proofs::RowIndex::place_found))]
    pub(crate) fn place_of(&self, id: TxnId) -> Option<usize>
        ensures { IsPlaceOf id self.now result }
    {
        self.places.get(&id)
    }

    /// The row at a place.
    pub(crate) fn at(&self, place: usize) -> &Row
        requires { place < length self.now }
        ensures { slice_get self.now place ≡ Some result.now }
    {
        &self.list[place]
    }

    /// The row of an id.
    pub(crate) fn find(&self, id: TxnId) -> Option<&Row>
        ensures { option_copied result ≡ row_of id self.now }
    {
        match self.place_of(id) {
            Some(place) => Some(self.at(place)),
            None => None,
        }
    }

    /// Room for this many more rows: adding them then moves none of those that are there.
    pub(crate) fn reserve(&mut self, more: usize) -> Result<(), AllocError>
        ensures { self.new ≡ self.old }
    {
        self.list.reserve(more)?;
        self.places.reserve(more)
    }

    /// Adds a row at the end.
    #[tactic(auto, using(crate::proofs::RowIndex::placed_by, crate::proofs::RowIndex::placed_more, crate::proofs::RowIndex::placed_same, crate::proofs::RowIndex::unplaced))]
    pub(crate) fn push(&mut self, row: Row) -> Result<(), AllocError>
        requires { row_of row.id self.old ≡ None }
        ensures ok { OnOk result (self.new ≡ self.old ++ row ∷ []) }
        ensures err { OnErr result (self.new ≡ self.old) }
    {
        self.list.reserve(1)?;
        self.places.reserve(1)?;
        self.places.insert(row.id(), self.list.len());
        self.list.push_reserved(row);
        Ok(())
    }
}
