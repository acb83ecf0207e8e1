//! The number of a transaction.

ghost use Rattle.std.specs.Prelude.{◌≡◌, ◌<◌, SomeIff};

use std::fmt;
use std::fmt::{Display, Formatter};
use std::marker::Model;

/// Which transaction it is: the pharmacy that numbered it, and the number there, neither zero.
#[derive(Clone, Copy, PartialEq, Eq, PartialOrd, Ord, Hash)]
pub struct TxnId {
    pharmacy: u16,
    number: u64,
}

impl Model for TxnId {
    ghost use Rattle.std.specs.Prelude.{◌<◌};
    ghost use Rattle.envelope.specs.Txn.{Txn};

    ghost Value = { Txn };

    ghost view = { λ id. record { pharmacy = id.pharmacy; number = id.number } };

    ghost invariant = { λ id. (0 < id.pharmacy) × (0 < id.number) };

    ghost inverse = { λ txn. record { pharmacy = txn.pharmacy; number = txn.number } };
}

impl TxnId {
    /// The transaction of that number at that pharmacy; none where one of the two is zero.
    pub fn new(pharmacy: u16, number: u64) -> Option<TxnId>
        ensures { SomeIff result ((0 < pharmacy) × (0 < number)) (record { pharmacy = pharmacy; number = number }) }
    {
        if pharmacy == 0 || number == 0 {
            return None;
        }
        Some(TxnId { pharmacy, number })
    }

    /// The pharmacy that numbered it.
    pub fn pharmacy(self) -> u16
        ensures value { result ≡ self.pharmacy }
        ensures above_zero { 0 < result }
    {
        self.pharmacy
    }

    /// Its number at that pharmacy.
    pub fn number(self) -> u64
        ensures value { result ≡ self.number }
        ensures above_zero { 0 < result }
    {
        self.number
    }
}

impl Display for TxnId {
    /// The pharmacy and the number, with a point between, as reports have them.
    fn fmt<W: fmt::Write>(&self, f: &mut Formatter<W>) -> fmt::Result {
        let pharmacy = self.pharmacy();
        let number = self.number();
        write!(f, "{pharmacy}.{number}")
    }
}
