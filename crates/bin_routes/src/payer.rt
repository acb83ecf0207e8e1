//! The numbers of payers.

ghost use Rattle.std.specs.Prelude.{◌≡◌, ◌≤◌};
ghost use Rattle.bin_routes.specs.Payer.{payer_number};

use std::fmt;
use std::fmt::{Display, Formatter};
use std::marker::Model;

/// The number of a payer, the processor that adjudicates claims: 1 to 9,999.
#[derive(Clone, Copy, PartialEq, Eq, PartialOrd, Ord)]
pub struct PayerNo {
    number: u16,
}

impl Model for PayerNo {
    ghost use Rattle.std.specs.Prelude.{ℕ, ◌≤◌};

    ghost Value = { ℕ };

    ghost view = { λ a. a.number };

    ghost invariant = { λ a. (1 ≤ a.number) × (a.number ≤ 9999) };

    ghost inverse = { λ n. record { number = n } };
}

impl PayerNo {
    /// The largest number: it has four digits in an authorization number.
    pub const MAX: u16 = 9_999;

    /// The payer of this number, or `None` unless it is 1 to 9,999.
    pub fn new(number: u16) -> Option<PayerNo>
        ensures { result ≡ payer_number number }
    {
        if number == 0 || number > PayerNo::MAX {
            return None;
        }
        Some(PayerNo { number })
    }

    /// The number.
    pub fn get(self) -> u16
        ensures value { result ≡ self }
        ensures least { 1 ≤ result }
        ensures most { result ≤ 9999 }
    {
        self.number
    }
}

impl Display for PayerNo {
    /// The number, without leading zeros.
    fn fmt<W: fmt::Write>(&self, f: &mut Formatter<W>) -> fmt::Result {
        let number = self.get();
        write!(f, "{number}")
    }
}
