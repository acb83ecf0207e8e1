//! Where the thing of a key stands in a list, found by hash. However many keys there are, one more moves some thousands.

ghost use Rattle.std.specs.Prelude.{◌≡◌, ◌+◌, ◌<◌, ◌≤◌, true, false, length, None, IfOk, OnOk};
ghost use Rattle.payer_book.specs.PlaceMaps.{place_in, place_apart, room_in, number_of, get_at, IsEmptyAt, WithKey, WithoutKey, SameAt, Keyed, Unkeyed, SamePlaces};

use crate::keys::HashStart;
use std::alloc::{AllocError, Global};
use std::collections::HashMap;
use std::hash::{BuildHasher, Hash};

/// How many keys the first map takes at least (own).
const FEW: usize = 65_536;

/// For how many keys the first map then keeps room (own): for those whose own map is refused memory.
const SPARE: usize = 64;

/// How many maps there are beside the first (own): as many as nine bits of a hash tell apart.
const SHARDS: usize = 512;

/// The places of some keys. While they are few, all are in the first map. From then on each new key goes into one of many
/// others, which its hash picks, and what is in the first map stays there. A map that grows moves its own keys alone.
#[derive(Drop)]
pub(crate) struct PlaceMap<K: Eq + Hash + Copy + Drop> {
    first: HashMap<K, usize, HashStart>,
    shards: Vec<HashMap<K, usize, HashStart>>,
}

impl<K: Eq + Hash + Copy + Drop> PlaceMap<K> {
    /// No keys, with memory from `alloc`, hashed from this start. It takes none of it.
    #[tactic(auto, using(crate::proofs::PlaceLemmas::none_without))]
    pub(crate) fn new(alloc: Global, start: HashStart) -> PlaceMap<K>
        ensures { (k : K) → place_in K.eq K.hash_input result k ≡ None }
    {
        PlaceMap {
            first: HashMap::with_hasher(alloc, start),
            shards: Vec::new(alloc),
        }
    }

    /// What the keys are hashed from.
    pub(crate) fn start(&self) -> HashStart {
        *self.first.hasher()
    }

    /// The place of a key.
    pub(crate) fn get(&self, key: &K) -> Option<usize>
        ensures { result ≡ place_in K.eq K.hash_input self.now key.now }
    {
        match self.get_apart(key) {
            Some(place) => Some(place),
            None => match self.first.get(key) {
                Some(place) => Some(*place),
                None => None,
            },
        }
    }

    /// The place that a key's own map has.
    fn get_apart(&self, key: &K) -> Option<usize>
        ensures { result ≡ place_apart K.eq K.hash_input self.now key.now }
    {
        if self.shards.is_empty() {
            return None;
        }
        found_at(self.shards.as_slice(), self.number_of(key), key)
    }

    /// The number of a key's own map among the others: the first nine bits of its hash. A map takes the exclusive or of
    /// both halves of a hash, so the keys of one map differ there as all keys do.
    fn number_of(&self, key: &K) -> usize
        ensures { result ≡ number_of K.hash_input self.now key.now }
    {
        (self.first.hasher().hash_one(key) >> 55) as usize
    }

    /// Room for this many more keys: inserting them then wants no memory.
    pub(crate) fn reserve(&mut self, more: usize) -> Result<(), AllocError>
        ensures same { SamePlaces K.eq K.hash_input self.old self.new }
        ensures ok { OnOk result (more ≤ room_in self.new) }
    {
        self.first.reserve(more)
    }

    /// Adds a key that is not there. There is room for it.
    pub(crate) fn insert(&mut self, key: K, place: usize)
        requires room { 1 ≤ room_in self.old }
        requires none { place_in K.eq K.hash_input self.old key ≡ None }
        ensures more { Keyed K.eq K.hash_input key place self.old self.new }
        ensures room { room_in self.old ≤ room_in self.new + 1 }
    {
        if !self.is_full() {
            self.insert_first(key, place);
            return;
        }
        self.open_shards();
        if !self.insert_apart(key, place) {
            self.insert_first(key, place);
        }
    }

    /// Whether the first map has its part of the keys.
    fn is_full(&self) -> bool {
        let keys = self.first.len();
        keys >= FEW && self.first.capacity() - keys <= SPARE
    }

    /// Adds a key that is not there to the first map.
    #[tactic(auto, using(crate::proofs::Lists::ok_holds, crate::proofs::PlaceLemmas::first_keyed))]
    fn insert_first(&mut self, key: K, place: usize)
        requires room { 1 ≤ room_in self.old }
        requires none { place_in K.eq K.hash_input self.old key ≡ None }
        ensures more { Keyed K.eq K.hash_input key place self.old self.new }
        ensures room { room_in self.old ≤ room_in self.new + 1 }
    {
        let _ = self.first.insert(key, place);
    }

    /// Adds a key to its own map. Where memory is refused, or there is no such map, nothing changes and it answers false.
    #[tactic(auto, using(crate::proofs::PlaceLemmas::apart_keyed))]
    fn insert_apart(&mut self, key: K, place: usize) -> bool
        ensures done { result ≡ true → Keyed K.eq K.hash_input key place self.old self.new }
        ensures same { result ≡ false → SamePlaces K.eq K.hash_input self.old self.new }
        ensures room { room_in self.new ≡ room_in self.old }
    {
        let number = self.number_of(&key);
        number < self.shards.len() && put(&mut self.shards, number, key, place)
    }

    /// Makes the maps beside the first where there are none yet. Where memory is refused there are still none.
    fn open_shards(&mut self)
        ensures same { SamePlaces K.eq K.hash_input self.old self.new }
        ensures room { room_in self.new ≡ room_in self.old }
    {
        if !self.shards.is_empty() {
            return;
        }
        if let Ok(shards) = empty_shards(*self.shards.allocator(), self.start()) {
            self.shards = shards;
        }
    }

    /// Takes a key out.
    #[tactic(auto, using(crate::proofs::PlaceLemmas::unkeyed, crate::proofs::PlaceLemmas::out_of_none))]
    pub(crate) fn remove(&mut self, key: &K)
        ensures less { Unkeyed K.eq K.hash_input key.now self.old self.new }
        ensures room { room_in self.old ≤ room_in self.new }
    {
        let _ = self.first.remove(key);
        if self.shards.is_empty() {
            return;
        }
        let number = self.number_of(key);
        if number < self.shards.len() {
            take(&mut self.shards, number, key);
        }
    }
}

/// The place that the map of a number has for a key.
fn found_at<K: Eq + Hash + Copy + Drop>(
    shards: &[HashMap<K, usize, HashStart>],
    number: usize,
    key: &K,
) -> Option<usize>
    ensures { result ≡ get_at K.eq shards.now number key.now }
{
    match shards.get(number) {
        Some(shard) => match shard.get(key) {
            Some(place) => Some(*place),
            None => None,
        },
        None => None,
    }
}

/// Puts a key into the map of a number; where memory is refused nothing is changed, and the result is false.
#[tactic(auto, using(crate::proofs::Lists::ok_holds, crate::proofs::PlaceLemmas::found_same, crate::proofs::PlaceLemmas::puts, crate::proofs::PlaceLemmas::same_at, crate::proofs::PlaceLemmas::err_holds))]
fn put<K: Eq + Hash + Copy + Drop>(
    shards: &mut Vec<HashMap<K, usize, HashStart>>,
    number: usize,
    key: K,
    place: usize,
) -> bool
    requires { number < length shards.old.items }
    ensures done { result ≡ true → WithKey K.eq number key place shards.old.items shards.new.items }
    ensures same { result ≡ false → SameAt K.eq shards.old.items shards.new.items }
{
    shards[number].insert(key, place).is_ok()
}

/// Takes a key out of the map of a number.
#[tactic(auto, using(crate::proofs::PlaceLemmas::puts))]
fn take<K: Eq + Hash + Copy + Drop>(
    shards: &mut Vec<HashMap<K, usize, HashStart>>,
    number: usize,
    key: &K,
)
    requires { number < length shards.old.items }
    ensures { WithoutKey K.eq number key.now shards.old.items shards.new.items }
{
    let _ = shards[number].remove(key);
}

/// The maps beside the first, without a key.
#[tactic(auto, using(crate::proofs::PlaceLemmas::empty_more))]
fn empty_shards<K: Eq + Hash + Copy + Drop>(
    alloc: Global,
    start: HashStart,
) -> Result<Vec<HashMap<K, usize, HashStart>>, AllocError>
    ensures { IfOk result (λ shards. IsEmptyAt K.eq shards.items) }
{
    let mut shards = Vec::with_capacity(alloc, SHARDS)?;
    for _ in 0..SHARDS {
        shards.push(HashMap::with_hasher(alloc, start))?;
    }
    Ok(shards)
}
