//! Ranges of providers.

ghost use Rattle.std.specs.Prelude.{◌≡◌};
ghost use Rattle.bin_routes.specs.Providers.{have, has_provider, is_up_to, meet, overlap};

use crate::key::RouteKey;
use std::marker::Model;

/// The providers of one qualifier (202-B2), from the first ID (201-B1) to the last, in the order of their bytes. One provider
/// is a range whose ends are the same.
#[derive(Clone, Copy, PartialEq, Eq)]
pub struct Providers {
    /// The qualifier.
    pub qualifier: [u8; 2],
    /// The first ID, filled with spaces.
    pub first: [u8; 15],
    /// The last one.
    pub last: [u8; 15],
}

impl Model for Providers {
    ghost use Rattle.bin_routes.specs.Providers.{Providers as Range};

    ghost Value = { Range };

    ghost view = { λ a. record { qualifier = a.qualifier; first = a.first; last = a.last } };

    ghost inverse = { λ a. record { qualifier = a.qualifier; first = a.first; last = a.last } };
}

impl Providers {
    /// Whether the provider of a header is one of these.
    #[tactic(auto, unfolding(crate::specs::Providers::have))]
    fn have(&self, key: &RouteKey) -> bool
        ensures { result ≡ have self.now key.now.qualifier key.now.provider }
    {
        self.qualifier == key.qualifier
            && is_up_to(&self.first, &key.provider)
            && is_up_to(&key.provider, &self.last)
    }

    /// Whether some provider may be one of both.
    #[tactic(auto, unfolding(crate::specs::Providers::overlap))]
    fn overlap(&self, other: &Providers) -> bool
        ensures { result ≡ overlap self.now other.now }
    {
        self.qualifier == other.qualifier
            && is_up_to(&self.first, &other.last)
            && is_up_to(&other.first, &self.last)
    }
}

/// Whether the provider of a header is one of these, if they are there.
pub(crate) fn has_provider(providers: &Option<Providers>, key: &RouteKey) -> bool
    ensures { result ≡ has_provider providers.now key.now.qualifier key.now.provider }
{
    match providers {
        Some(providers) => providers.have(key),
        None => false,
    }
}

/// Whether the two ranges overlap, or neither is there.
pub(crate) fn meet(a: &Option<Providers>, b: &Option<Providers>) -> bool
    ensures { result ≡ meet a.now b.now }
{
    match a {
        None => b.is_none(),
        Some(a) => match b {
            None => false,
            Some(b) => a.overlap(b),
        },
    }
}

/// Whether the first is the second or before it, in the order of bytes.
fn is_up_to(a: &[u8; 15], b: &[u8; 15]) -> bool
    ensures { result ≡ is_up_to a.now b.now }
{
    a.cmp(b).is_le()
}
