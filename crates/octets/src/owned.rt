//! The owned byte string, its order and its copies.

ghost use Rattle.std.specs.Prelude.{◌≡◌, ◌↔◌, ◌==◌, ◌<◌, ◌≤◌, ◌+◌, ◌^◌, [], length, drop, nat_eq, IfOk, IsTrue, Some, refl};
ghost use Rattle.std.specs.Ordering.{nat_cmp};
ghost use Rattle.std.specs.Cmp;
ghost use Rattle.std.specs.Cmp.Lexicographic.{pointwise, slice_cmp, nat_list_eq_equiv, nat_list_cmp_total, texts_ties, texts_po};

use crate::held::Held;
use std::alloc::{AllocError, Global};
use std::cmp::Ordering;
use std::marker::Model;
use std::sync::Arc;

/// An owned byte string of any length.
///
/// It is made from a `Vec` without taking memory. Once it is [`shared`](Octets::shared), copies of it and of its ends
/// take no memory. Equality is equality of the bytes, and the order is the lexicographic one, so it can be a map's key.
#[derive(Debug, Drop)]
pub struct Octets {
    held: Held,
}

impl Model for Octets {
    ghost use Rattle.std.specs.Prelude.{List, ℕ};
    ghost use Rattle.octets.specs.Held.{bytes_in, IsHeld};

    ghost Value = { List ℕ };

    ghost view = { λ octets. bytes_in octets.held };

    ghost invariant = { λ octets. IsHeld octets.held };
}

impl Octets {
    /// The bytes of the vector, which keep their place in memory.
    pub fn from_vec(bytes: Vec<u8>) -> Octets
        ensures { result ≡ bytes.items }
    {
        Octets {
            held: Held::Alone(bytes),
        }
    }

    /// A copy of the bytes in memory of its own.
    pub fn copy_of(alloc: Global, bytes: &[u8]) -> Result<Octets, AllocError>
        ensures { IfOk result (λ copy. copy ≡ bytes.now) }
    {
        Ok(Octets::from_vec(Vec::from_slice(alloc, bytes)?))
    }

    /// The same bytes, whose copies are the same memory from now on. Where there is no memory to count the owners, they
    /// stay as they are.
    pub fn shared(self) -> Octets
        ensures { result ≡ self }
    {
        match self.held {
            Held::Alone(bytes) => match Arc::new(*bytes.allocator(), bytes) {
                Ok(bytes) => Octets {
                    held: Held::Shared(bytes, 0),
                },
                Err(refused) => Octets::from_vec(refused.value),
            },
            held => Octets { held },
        }
    }

    /// A copy. Shared bytes take no memory for it.
    pub fn copy(&self) -> Result<Octets, AllocError>
        ensures { IfOk result (λ copy. copy ≡ self.now) }
    {
        self.tail(0)
    }

    /// A copy of the bytes from this place on. Shared bytes take no memory for it.
    pub fn tail(&self, start: usize) -> Result<Octets, AllocError>
        requires { start ≤ length self.now }
        ensures { IfOk result (λ copy. copy ≡ drop start self.now) }
    {
        match &self.held {
            Held::Alone(bytes) => Octets::copy_of(*bytes.allocator(), &bytes.as_slice()[start..]),
            Held::Shared(bytes, first) => {
                let bytes = Arc::try_clone(bytes)?;
                Ok(Octets {
                    held: Held::Shared(bytes, *first + start),
                })
            }
        }
    }

    /// The bytes.
    pub fn as_slice(&self) -> &[u8]
        ensures { result.now ≡ self.now }
    {
        match &self.held {
            Held::Alone(bytes) => bytes.as_slice(),
            Held::Shared(bytes, start) => &bytes.as_slice()[*start..],
        }
    }

    /// How many bytes there are.
    pub fn len(&self) -> usize
        ensures { result ≡ length self.now }
    {
        self.as_slice().len()
    }

    /// Whether there is no byte.
    pub fn is_empty(&self) -> bool
        ensures { IsTrue result ↔ (self.now ≡ []) }
    {
        self.as_slice().is_empty()
    }
}

impl From<Vec<u8>> for Octets {
    ghost from_gives = { λ bytes octets. octets ≡ bytes.items };

    fn from(bytes: Vec<u8>) -> Octets {
        Octets::from_vec(bytes)
    }
}

impl PartialEq for Octets {
    ghost eq = { pointwise nat_eq };

    ghost laws = { Cmp.partial_equiv_from_equiv nat_list_eq_equiv };

    fn eq(&self, other: &Octets) -> bool
        ensures value { result ≡ pointwise nat_eq self.now other.now }
        ensures same_bytes { IsTrue result ↔ (self.now ≡ other.now) }
    {
        self.as_slice() == other.as_slice()
    }
}

impl Eq for Octets {
    ghost laws = { nat_list_eq_equiv };
}

impl PartialOrd for Octets {
    ghost partial_cmp = { λ a b. Some (slice_cmp nat_cmp a b) };

    ghost laws = { texts_po };

    fn partial_cmp(&self, other: &Octets) -> Option<Ordering> {
        Some(self.cmp(other))
    }
}

impl Ord for Octets {
    ghost cmp = { slice_cmp nat_cmp };

    ghost total = { nat_list_cmp_total };

    ghost matches_partial_cmp = { λ a b. refl };

    ghost matches_eq = { texts_ties };

    fn cmp(&self, other: &Octets) -> Ordering {
        self.as_slice().cmp(other.as_slice())
    }
}
