//! The four amounts of a paid claim.

ghost use Rattle.std.specs.Prelude.{◌≡◌, ◌≤◌, ◌↔◌, pos, IsSome, IfSome};
ghost use Rattle.claim_profile.specs.Money.{NoneNegative, IsMoney, largest};

use overpunch::Amount;
use std::marker::Model;

/// What is paid for a claim, in cents: ingredient cost paid (506-F6), dispensing fee paid (507-F7),
/// patient pay amount (505-F5) and total amount paid (509-F9). None is negative. Of what a plan pays, the total is cost and
/// fee less the patient's part; what a payer's own system pays has further parts, and its total is what it says.
#[derive(Clone, Copy, PartialEq, Eq)]
pub struct Amounts {
    cost: u32,
    fee: u32,
    copay: u32,
    total: u32,
}

impl Model for Amounts {
    ghost use Rattle.claim_profile.specs.Money.{Money, IsMoney};

    ghost Value = { Money };

    ghost view = { λ a. record { cost = a.cost; fee = a.fee; copay = a.copay; total = a.total } };

    ghost invariant = { λ a. IsMoney (record { cost = a.cost; fee = a.fee; copay = a.copay; total = a.total }) };

    ghost inverse = { λ v. record { cost = v.cost; fee = v.fee; copay = v.copay; total = v.total } };
}

impl Amounts {
    /// The four amounts, None where one is negative.
    pub fn new(cost: Amount, fee: Amount, copay: Amount, total: Amount) -> Option<Amounts>
        ensures variant { IsSome result ↔ NoneNegative cost fee copay total }
        ensures given { IfSome result (λ a. (pos a.cost ≡ cost) × (pos a.fee ≡ fee) × (pos a.copay ≡ copay)
            × (pos a.total ≡ total)) }
    {
        let (cost, fee) = (cost.cents(), fee.cents());
        let (copay, total) = (copay.cents(), total.cents());
        if cost < 0 || fee < 0 || copay < 0 || total < 0 {
            return None;
        }
        Some(Amounts {
            cost: cost as u32,
            fee: fee as u32,
            copay: copay as u32,
            total: total as u32,
        })
    }

    /// The four amounts, in cents.
    pub(crate) fn of_cents(cost: u32, fee: u32, copay: u32, total: u32) -> Amounts
        requires cost { cost ≤ largest }
        requires fee { fee ≤ largest }
        requires copay { copay ≤ largest }
        requires total { total ≤ largest }
        ensures { result ≡ record { cost = cost; fee = fee; copay = copay; total = total } }
    {
        Amounts {
            cost,
            fee,
            copay,
            total,
        }
    }

    /// The ingredient cost paid, in cents.
    pub fn cost(self) -> u32
        ensures value { result ≡ self.cost }
        ensures range { result ≤ largest }
    {
        self.cost
    }

    /// The dispensing fee paid, in cents.
    pub fn fee(self) -> u32
        ensures value { result ≡ self.fee }
        ensures range { result ≤ largest }
    {
        self.fee
    }

    /// What the patient pays, in cents.
    pub fn copay(self) -> u32
        ensures value { result ≡ self.copay }
        ensures range { result ≤ largest }
    {
        self.copay
    }

    /// What the plan pays, in cents.
    pub fn total(self) -> u32
        ensures value { result ≡ self.total }
        ensures range { result ≤ largest }
    {
        self.total
    }
}
