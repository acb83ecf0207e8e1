//! Where the entries stand that one tick in this many sends.

ghost use Rattle.std.specs.Prelude.{◌≡◌, ◌<◌, ◌++◌, ◌∷◌, [], ℕ, OnOk, OnErr};
ghost use Rattle.std.specs.List.{AllByRecursion, filter};
ghost use Rattle.pharmacy_journal.specs.Timetable.{is_open, has_open};

use std::alloc::{AllocError, Global};
use std::marker::Model;

/// Places of entries, in increasing order: a new entry's place is put after the others. A settled entry leaves its place
/// after as a hole. Where more than half of the places would be holes, all holes are closed in one walk.
///
/// So a walk over the places meets at most two for each open entry, and none where no entry is open. Closing holes passes
/// fewer than two places for each entry that was settled since it was last done.
#[derive(Drop)]
pub(crate) struct Bucket {
    places: Vec<usize>,
    /// How many of the places are holes: at most half.
    holes: usize,
}

impl Model for Bucket {
    ghost use Rattle.std.specs.Prelude.{List, ℕ};

    ghost Value = { List ℕ };

    ghost view = { λ bucket. bucket.places.items };
}

impl Bucket {
    /// No places.
    pub(crate) fn new(alloc: Global) -> Bucket
        ensures { result ≡ [] }
    {
        Bucket {
            places: Vec::new(alloc),
            holes: 0,
        }
    }

    /// Adds the place of a new entry, after all others.
    pub(crate) fn push(&mut self, place: usize) -> Result<(), AllocError>
        ensures ok { OnOk result (self.new ≡ self.old ++ place ∷ []) }
        ensures err { OnErr result (self.new ≡ self.old) }
    {
        self.places.push(place)?;
        Ok(())
    }

    /// The places, holes among them.
    pub(crate) fn places(&self) -> &[usize]
        ensures { result.now ≡ self.now }
    {
        self.places.as_slice()
    }

    /// Whether one of the places is of an open entry: a walk up to the first such place.
    pub(crate) fn has_open(&self, leads: &[Option<u64>]) -> bool
        ensures { result ≡ has_open leads.now self.now }
    {
        self.places.iter().any(|place| is_open(leads, *place))
    }

    /// One more place is a hole: its entry has no lead any more.
    #[tactic(auto, using(crate::proofs::OpenPlaces::filter_again))]
    pub(crate) fn leave_hole(&mut self, leads: &[Option<u64>])
        ensures same_open { filter (is_open leads.now) self.new ≡ filter (is_open leads.now) self.old }
        ensures in_range { (n : ℕ) → AllByRecursion (λ k. k < n) self.old → AllByRecursion (λ k. k < n) self.new }
    {
        if self.holes < self.places.len() / 2 {
            self.holes += 1;
        } else {
            close_holes(&mut self.places, leads);
            self.holes = 0;
        }
    }
}

/// Keeps the places of open entries alone.
fn close_holes(places: &mut Vec<usize>, leads: &[Option<u64>])
    ensures { places.new.items ≡ filter (is_open leads.now) places.old.items }
{
    places.retain(|place| is_open(leads, *place));
}

/// Whether the entry of a place is open.
fn is_open(leads: &[Option<u64>], place: usize) -> bool
    ensures { result ≡ is_open leads.now place }
{
    match leads.get(place) {
        Some(lead) => lead.is_some(),
        None => false,
    }
}
