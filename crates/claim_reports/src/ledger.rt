//! The ledger of a payer and a pharmacy: what was paid, what was reversed, and what stands.

ghost use Rattle.std.specs.Prelude.{◌≡◌, ◌<◌, ◌+◌, ◌++◌, ◌^◌, [], List, length, IfOk};
ghost use Rattle.std.specs.Option.{option_or};
ghost use Rattle.std.specs.Ordering.{nat_cmp};
ghost use Rattle.std.specs.BTreeMap.{get};
ghost use Rattle.claim_reports.specs.declared.ledger.Move.{Move};
ghost use Rattle.claim_reports.specs.declared.ledger.Move.TheVariants.{Paid as PaidSeen, Reversed as ReversedSeen};
ghost use Rattle.claim_reports.specs.Causes.{RefusesFor};
ghost use Rattle.claim_reports.specs.Ledger.{moves_cause, period_cause, taking_cause, IsLedgerOf, Pays, Reverses, Takes, TakesAll, IsPeriod, back_cents, cents_in, standing_in, over};

use crate::fault::ReportFault;
use std::alloc::Global;
use std::collections::BTreeMap;

/// A ruling that moves money.
#[derive(Clone, Copy, PartialEq, Eq)]
pub enum Move {
    /// A payment under an authorization, by its number, of this many cents.
    Paid(u64, u64),
    /// A reversal of the payment under an authorization.
    Reversed(u64),
}

/// A payment of a ledger.
#[derive(Clone, Copy, PartialEq, Eq)]
pub struct LedgerPayment {
    /// Its total (F9) in cents.
    pub cents: u64,
    /// Whether it was reversed.
    pub reversed: bool,
}

/// The payments of some rulings, and what those that stand come to.
#[derive(Drop)]
pub struct Ledger {
    payments: BTreeMap<u64, LedgerPayment>,
    standing: u64,
}

/// What rulings moved: what they paid, and what they took back, in cents.
#[derive(Clone, Copy)]
pub struct Moved {
    /// The totals of their payments.
    pub paid: u64,
    /// The totals of the payments that they reverse.
    pub reversed: u64,
}

/// A period of a ledger, in cents.
#[derive(Clone, Copy)]
pub struct Period {
    /// What stood at its beginning.
    pub begin: u64,
    /// What was moved in it.
    pub moved: Moved,
    /// What stood at its end.
    pub end: u64,
}

/// The period of these rulings after those before them.
///
/// # Errors
/// `PaidAgain` and `NotStanding` with the number of a ruling, from the first of all; `TooLarge`; want of memory.
pub fn period_of(alloc: Global, before: &[Move], moves: &[Move]) -> Result<Period, ReportFault>
    // What stood and what stands are the payments that no ruling up to there reversed.
    ensures figures { IfOk result (λ period. IsPeriod before.now moves.now period) }
    // So the period closes.
    ensures closes { IfOk result (λ period.
        period.begin + period.moved.paid ≡ period.end + period.moved.reversed) }
    // It is refused for the first ruling that is wrong, for sums that are too large, or for want of memory, and for nothing else.
    ensures refuses { RefusesFor result (period_cause before.now moves.now) }
{
    let mut ledger = Ledger::new(alloc);
    ledger.take_all(0, before)?;
    let begin = ledger.standing();
    let moved = ledger.take_all(before.len() as u64, moves)?;
    let end = ledger.standing();
    Ok(Period { begin, moved, end })
}

/// The ledger of these rulings after those before them.
pub(crate) fn ledger_of(
    alloc: Global,
    before: &[Move],
    moves: &[Move],
) -> Result<Ledger, ReportFault>
    ensures is { IfOk result (λ ledger. IsLedgerOf (before.now ++ moves.now) ledger) }
    ensures refuses { RefusesFor result (period_cause before.now moves.now) }
{
    let mut ledger = Ledger::new(alloc);
    ledger.take_all(0, before)?;
    ledger.take_all(before.len() as u64, moves)?;
    Ok(ledger)
}

impl Ledger {
    /// A ledger of no rulings.
    pub fn new(alloc: Global) -> Ledger
        ensures { IsLedgerOf [] result }
    {
        Ledger {
            payments: BTreeMap::new(alloc),
            standing: 0,
        }
    }

    /// What stands, in cents.
    pub fn standing(&self) -> u64
        ensures { result ≡ self.now.standing }
    {
        self.standing
    }

    /// Takes rulings after this many others, and gives what they moved.
    ///
    /// # Errors
    /// `PaidAgain` and `NotStanding` with the number of a ruling; `TooLarge`; want of memory.
    #[tactic(auto, using(crate::proofs::Telling::passed, crate::proofs::WrongMoves::good_end, crate::proofs::WrongMoves::sums_wrong, crate::proofs::WrongMoves::wrong_here))]
    pub fn take_all(&mut self, passed: u64, moves: &[Move]) -> Result<Moved, ReportFault>
        ensures takes { (before : List Move) → IsLedgerOf before self.old
            → IfOk result (λ moved. TakesAll before moves.now self.old self.new moved) }
        // They are refused for the first that is wrong, by its number, for sums that are too large, or for want of memory.
        ensures refuses { (before : List Move) → IsLedgerOf before self.old → passed + length moves.now < 2 ^ 64
            → RefusesFor result (moves_cause before (passed + 1) 0 0 moves.now) }
    {
        let mut all = Moved {
            paid: 0,
            reversed: 0,
        };
        for (place, ruling) in moves.iter().enumerate() {
            let number = passed.saturating_add(place as u64).saturating_add(1);
            let moved = self.take(number, *ruling)?;
            all = all.and(moved)?;
        }
        Ok(all)
    }

    /// Takes a ruling of this number, and gives what it moved.
    fn take(&mut self, number: u64, ruling: Move) -> Result<Moved, ReportFault>
        ensures takes { IfOk result (λ moved. Takes self.old self.new ruling moved) }
        ensures refuses { RefusesFor result (taking_cause self.old number ruling) }
    {
        match ruling {
            Move::Paid(auth, cents) => self.pay(number, auth, cents),
            Move::Reversed(auth) => self.reverse(number, auth),
        }
    }

    /// Takes a payment.
    fn pay(&mut self, number: u64, auth: u64, cents: u64) -> Result<Moved, ReportFault>
        ensures pays { IfOk result (λ moved. Pays self.old self.new auth cents moved) }
        ensures refuses { RefusesFor result (taking_cause self.old number (PaidSeen auth cents)) }
    {
        if self.payments.contains_key(&auth) {
            return Err(ReportFault::PaidAgain(number));
        }
        let Some(standing) = self.standing.checked_add(cents) else {
            return Err(ReportFault::TooLarge);
        };
        let held = LedgerPayment {
            cents,
            reversed: false,
        };
        self.payments.insert(auth, held)?;
        self.standing = standing;
        Ok(Moved {
            paid: cents,
            reversed: 0,
        })
    }

    /// Takes a reversal.
    fn reverse(&mut self, number: u64, auth: u64) -> Result<Moved, ReportFault>
        ensures reverses { IfOk result (λ moved. Reverses self.old self.new auth moved) }
        ensures refuses { RefusesFor result (taking_cause self.old number (ReversedSeen auth)) }
    {
        let Some(cents) = self.standing_at(auth) else {
            return Err(ReportFault::NotStanding(number));
        };
        let Some(standing) = self.standing.checked_sub(cents) else {
            return Err(ReportFault::NotStanding(number));
        };
        let held = LedgerPayment {
            cents,
            reversed: true,
        };
        self.payments.insert(auth, held)?;
        self.standing = standing;
        Ok(Moved {
            paid: 0,
            reversed: cents,
        })
    }

    /// What a ruling takes back: of a reversal what was paid under its authorization.
    #[tactic(auto, using(crate::proofs::Dated::cents_are))]
    pub(crate) fn back_cents(&self, ruling: Move) -> u64
        ensures { (all : List Move) → IsLedgerOf all self.now → result ≡ back_cents all ruling }
    {
        match ruling {
            Move::Paid(_, _) => 0,
            Move::Reversed(auth) => self.cents_at(auth),
        }
    }

    /// What was paid under an authorization; nothing where nothing was.
    fn cents_at(&self, auth: u64) -> u64
        ensures { result ≡ cents_in (get nat_cmp self.now.payments auth) }
    {
        self.payments.get(&auth).map_or(0, |held| held.cents)
    }

    /// What the payment of an authorization comes to, where it stands.
    fn standing_at(&self, auth: u64) -> Option<u64>
        ensures { result ≡ standing_in (get nat_cmp self.now.payments auth) }
    {
        match self.payments.get(&auth) {
            Some(held) if !held.reversed => Some(held.cents),
            _ => None,
        }
    }
}

impl Moved {
    /// Both together.
    fn and(self, more: Moved) -> Result<Moved, ReportFault>
        ensures sums { IfOk result (λ all. all ≡ record {
          paid = self.paid + more.paid;
          reversed = self.reversed + more.reversed;
        }) }
        ensures refuses { RefusesFor result
            (option_or (over (self.paid + more.paid)) (over (self.reversed + more.reversed))) }
    {
        let Some(paid) = self.paid.checked_add(more.paid) else {
            return Err(ReportFault::TooLarge);
        };
        let Some(reversed) = self.reversed.checked_add(more.reversed) else {
            return Err(ReportFault::TooLarge);
        };
        Ok(Moved { paid, reversed })
    }
}
