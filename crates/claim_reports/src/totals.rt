//! Totals of payments: by payer, by pharmacy or by day.

ghost use Rattle.std.specs.Prelude.{◌≡◌, ℕ, Option, true, false, IfNone, IfOk, IfSome, OnOk, OnSome};
ghost use Rattle.std.specs.BTreeMap.{get};
ghost use Rattle.claim_reports.specs.Causes.{RefusesFor};
ghost use Rattle.claim_reports.specs.Totals.{adding_cause, is_too_large, sums_cause, key_of, key_cmp, cents_if, one_if, with_payment, sums_or_none, total_at, AddsPayment, AddUp};

use crate::choice::Paid;
use crate::fault::ReportFault;
use std::alloc::Global;
use std::collections::BTreeMap;

/// What totals are made by.
#[derive(Clone, Copy, PartialEq, Eq)]
pub enum By {
    /// The payer.
    Payer,
    /// The pharmacy.
    Pharmacy,
    /// The day that the report goes by.
    Day,
    /// Nothing: all payments are in one row.
    All,
}

/// How many payments there are, and what they come to in cents: those that stand, and those that were reversed.
#[derive(Clone, Copy)]
pub struct Sums {
    /// How many stand.
    pub count: u64,
    /// Their totals (F9) in cents.
    pub cents: u64,
    /// How many were reversed.
    pub reversed_count: u64,
    /// Their totals in cents.
    pub reversed_cents: u64,
}

/// The sums of payments by payer, by pharmacy, by day or all together: first those of payments without a day, the others in order of its
/// number.
///
/// # Errors
/// `TooLarge` where a sum has more than 64 bits; want of memory.
#[tactic(auto, using(crate::proofs::Overflows::all_fit))]
pub fn totals_of(
    alloc: Global,
    by: By,
    paid: &[Paid],
) -> Result<BTreeMap<Option<u64>, Sums>, ReportFault>
    // Each number has the sums of the payments that have it, and no other number is there.
    ensures each { IfOk result (λ totals. (key : Option ℕ) → get key_cmp totals key ≡ total_at by key paid.now) }
    // All of them together are the sums of all payments.
    ensures all { IfOk result (λ totals. AddUp totals.entries paid.now) }
    // They are refused for sums that are too large or for want of memory, and for nothing else.
    ensures refuses { RefusesFor result (sums_cause by paid.now) }
{
    let mut totals = BTreeMap::new(alloc);
    for payment in paid {
        add(&mut totals, by.key(payment), payment)?;
    }
    Ok(totals)
}

/// Adds a payment to the sums of a number.
fn add(
    totals: &mut BTreeMap<Option<u64>, Sums>,
    key: Option<u64>,
    payment: &Paid,
) -> Result<(), ReportFault>
    ensures adds { OnOk result (AddsPayment totals.old totals.new key payment.now) }
    ensures refuses { RefusesFor result (adding_cause (sums_or_none (get key_cmp totals.old key)) payment.now) }
{
    let before = sums_at(totals, key);
    let Some(after) = before.with(payment) else {
        return Err(ReportFault::TooLarge);
    };
    totals.insert(key, after)?;
    Ok(())
}

/// The sums of a number; none where there are none yet.
fn sums_at(totals: &BTreeMap<Option<u64>, Sums>, key: Option<u64>) -> Sums
    ensures { result ≡ sums_or_none (get key_cmp totals.now key) }
{
    totals.get(&key).copied().unwrap_or(Sums {
        count: 0,
        cents: 0,
        reversed_count: 0,
        reversed_cents: 0,
    })
}

impl By {
    /// The number that a payment has.
    fn key(self, payment: &Paid) -> Option<u64>
        ensures { result ≡ key_of self payment.now }
    {
        match self {
            By::Payer => Some(payment.payer),
            By::Pharmacy => Some(payment.pharmacy),
            By::Day => payment.day,
            By::All => None,
        }
    }
}

impl Sums {
    /// The sums with one payment more; none where one has more than 64 bits.
    fn with(self, payment: &Paid) -> Option<Sums>
        ensures more { IfSome result (λ sums. sums ≡ with_payment self payment.now) }
        ensures fits { OnSome result (is_too_large (with_payment self payment.now) ≡ false) }
        ensures none { IfNone result (is_too_large (with_payment self payment.now) ≡ true) }
    {
        if payment.reversed {
            let reversed_count = self.reversed_count.checked_add(1)?;
            let reversed_cents = self.reversed_cents.checked_add(payment.cents)?;
            return Some(Sums {
                reversed_count,
                reversed_cents,
                ..self
            });
        }
        let count = self.count.checked_add(1)?;
        let cents = self.cents.checked_add(payment.cents)?;
        Some(Sums {
            count,
            cents,
            ..self
        })
    }
}
