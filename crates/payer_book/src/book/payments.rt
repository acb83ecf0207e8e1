//! The payments of a book in the order of their serial numbers, with the place of each fill's standing one.

ghost use Rattle.std.specs.Prelude.{◌≡◌, ◌+◌, ◌<◌, ◌≤◌, [], ◌∷◌, ◌++◌, map, find, filter, length, slice_get, option_and_then, None, IsSome, OnOk};
ghost use Rattle.std.specs.Option.{option_copied};
ghost use Rattle.claim_model.specs.Payments.{same_auth};
ghost use Rattle.payer_book.specs.declared.book.payment.Payment.TheVariants.{Standing as Stands};
ghost use Rattle.payer_book.specs.Ledger.{IsLedger, SameButRoom, auth_next, still, payment_with, standing_in, standing_of, after_reversal, HasFillNumber};
ghost use Rattle.payer_book.specs.Drafts.{IsAuthAfter};
ghost use Rattle.payer_book.specs.PaymentPlaces.{IsPlaceOf};
ghost use Rattle.payer_book.specs.Matches.{tally, is_match, matched_number, tally_between, fill_for};

use crate::book::payment::{Payment, Standing};
use crate::book::place_map::PlaceMap;
use crate::keys::HashKeys;
use crate::ruling::changes::{Change, payments_in};
use crate::ruling::matches::{Matches, is_match};
use bin_routes::PayerNo;
use claim_profile::{Auth, Fill, Reversal};
use envelope::TxnId;
use std::alloc::{AllocError, Global};
use std::hash::Hash;
use std::marker::Model;

/// The payments of a payer, whose first one has the serial number `first`, and where each fill's standing one is. Each fill
/// number (403-D3) that was paid is below `numbers`.
#[derive(Drop)]
pub(crate) struct Payments {
    payer: PayerNo,
    first: u64,
    numbers: u16,
    list: Vec<Payment>,
    standing: PlaceMap<Fill>,
}

impl Model for Payments {
    ghost use Rattle.std.specs.Prelude.{◌-◌, min, vec_len, vec_capacity};
    ghost use Rattle.payer_book.specs.Ledger.{Ledger};
    ghost use Rattle.payer_book.specs.PlaceMaps.{place_in, room_in};
    ghost use Rattle.payer_book.specs.PaymentPlaces.{IsIndexed};

    ghost Value = { Ledger };

    ghost view = { λ p. record {
      payer = p.payer;
      first = p.first;
      payments = p.list.items;
      room = min (vec_capacity p.list - vec_len p.list) (room_in p.standing);
    } };

    ghost invariant = { λ p. IsIndexed p.payer p.first p.numbers p.list.items (place_in ⟦<Fill as PartialEq>⟧.eq ⟦<Fill as Hash>⟧.hash_input p.standing) };
}

impl Payments {
    /// No payments, with memory from `alloc`, found by these keys.
    pub(crate) fn new(alloc: Global, payer: PayerNo, first: u64, keys: &HashKeys) -> Payments
        requires { 1 ≤ first }
        ensures payer { result.payer ≡ payer }
        ensures first { result.first ≡ first }
        ensures none { result.payments ≡ [] }
    {
        Payments {
            payer,
            first,
            numbers: 0,
            list: Vec::new(alloc),
            standing: PlaceMap::new(alloc, keys.start()),
        }
    }

    /// How many payments there are.
    pub(crate) fn len(&self) -> usize
        ensures value { result ≡ length self.now.payments }
        ensures ledger { IsLedger self.now }
    {
        self.list.len()
    }

    /// The authorization of the next payment after some changes; None where its serial number would be over 999,999,999,999.
    pub(crate) fn next_auth(&self, changes: &[Change]) -> Option<Auth>
        ensures { IsAuthAfter self.now changes.now result }
    {
        let before = self.first.saturating_add(self.list.len() as u64);
        let serial = before.saturating_add(payments_in(changes) as u64);
        Auth::new(self.payer.get(), serial)
    }

    /// The place of the payment of that authorization.
    #[tactic(auto, using(crate::proofs::Numbering::payment_at, crate::proofs::Numbering::no_payment))]
    pub(crate) fn place_of(&self, auth: Auth) -> Option<usize>
        ensures { IsPlaceOf auth self.now.payments result }
    {
        if auth.payer() != self.payer.get() {
            return None;
        }
        let serial = auth.serial();
        if serial < self.first {
            return None;
        }
        let place = (serial - self.first) as usize;
        if place < self.list.len() {
            Some(place)
        } else {
            None
        }
    }

    /// The payment of that authorization.
    pub(crate) fn find(&self, auth: Auth) -> Option<&Payment>
        ensures { option_copied result ≡ payment_with auth self.now.payments }
    {
        match self.place_of(auth) {
            Some(place) => self.list.get(place),
            None => None,
        }
    }

    /// The fill's standing payment.
    pub(crate) fn standing_of(&self, fill: &Fill) -> Option<&Standing>
        ensures value { option_copied result ≡ standing_of fill.now (standing_in self.now.payments) }
        ensures ledger { IsLedger self.now }
    {
        match self.standing.get(fill) {
            Some(place) => standing_at(&self.list, place),
            None => None,
        }
    }

    /// The standing payments that the reversal is for, those left out that the changes reverse.
    #[tactic(auto, using(crate::proofs::Matching::matches_one, crate::proofs::Matching::matches_any))]
    pub(crate) fn matching(&self, reversal: &Reversal, changes: &[Change]) -> Matches
        ensures { result ≡ tally (filter (is_match reversal.now changes.now) (standing_in self.now.payments)) }
    {
        match reversal.fill {
            Some(number) => {
                let first = u16::from(number);
                self.matching_from(reversal, changes, first, first + 1)
            }
            None => self.matching_from(reversal, changes, 0, self.numbers),
        }
    }

    /// Those whose fill number is `first` or more, and below `end`.
    #[tactic(auto, using(crate::proofs::Matching::none_between, crate::proofs::Matching::matches_more))]
    fn matching_from(
        &self,
        reversal: &Reversal,
        changes: &[Change],
        first: u16,
        end: u16,
    ) -> Matches
        requires in_order { first ≤ end }
        requires bytes { end ≤ 256 }
        ensures value { result ≡ tally_between self.now reversal.now changes.now first end }
        ensures ledger { IsLedger self.now }
    {
        let _ = self.len();
        let mut matches = Matches::Nothing;
        for number in first..end {
            matches = self.matching_number(reversal, changes, number as u8, matches);
        }
        matches
    }

    /// The matches, and the one of that fill number.
    fn matching_number(
        &self,
        reversal: &Reversal,
        changes: &[Change],
        number: u8,
        matches: Matches,
    ) -> Matches
        ensures value { result ≡ matched_number self.now reversal.now changes.now number matches }
        ensures ledger { IsLedger self.now }
    {
        match self.standing_of(&fill_for(reversal, number)) {
            Some(payment) => {
                if is_match(reversal, changes, payment) {
                    matches.with(payment.auth())
                } else {
                    matches
                }
            }
            None => matches,
        }
    }

    /// Room for this many more payments: this many calls of `push` then take no memory.
    pub(crate) fn reserve(&mut self, more: usize) -> Result<(), AllocError>
        ensures same { SameButRoom self.old self.new }
        ensures ok { OnOk result (more ≤ self.new.room) }
    {
        self.list.reserve(more)?;
        self.standing.reserve(more)
    }

    /// Adds a payment at the end. There is room for it, it has the next serial number, and its fill has no standing payment.
    pub(crate) fn push(&mut self, payment: Standing)
        requires room { 1 ≤ self.old.room }
        requires auth { payment.auth ≡ auth_next self.old }
        requires number { HasFillNumber payment.claim }
        requires none { standing_of payment.claim.fill (standing_in self.old.payments) ≡ None }
        ensures same { (self.new.payer ≡ self.old.payer) × (self.new.first ≡ self.old.first) }
        ensures payments { self.new.payments ≡ self.old.payments ++ Stands payment ∷ [] }
        ensures room { self.old.room ≤ self.new.room + 1 }
    {
        let place = self.list.len();
        self.numbers = above(self.numbers, payment.claim().fill.fill);
        self.standing.insert(payment.claim().fill, place);
        self.list.push_reserved(Payment::Standing(payment));
    }

    /// Reverses the standing payment of that authorization.
    pub(crate) fn reverse(&mut self, auth: Auth, by: TxnId)
        requires { IsSome (find (λ s. same_auth s.auth auth) (standing_in self.old.payments)) }
        ensures same { (self.new.payer ≡ self.old.payer) × (self.new.first ≡ self.old.first) }
        ensures payments { self.new.payments ≡ map (after_reversal auth by) self.old.payments }
        ensures room { self.old.room ≤ self.new.room }
    {
        let Some(place) = self.place_of(auth) else {
            return;
        };
        if let Some(payment) = standing_at(&self.list, place) {
            self.standing.remove(&payment.claim().fill);
            self.list[place] = Payment::Reversed(payment.copy().reverse(by));
        }
    }
}

/// The bound of the fill numbers below it, and of one more.
fn above(numbers: u16, number: u8) -> u16
    ensures others { numbers ≤ result }
    ensures number { number < result }
    ensures most { numbers ≤ 100 → number ≤ 99 → result ≤ 100 }
{
    numbers.max(u16::from(number) + 1)
}

/// The standing payment at a place.
fn standing_at(payments: &[Payment], place: usize) -> Option<&Standing>
    ensures { option_copied result ≡ option_and_then still (slice_get payments.now place) }
{
    match payments.get(place) {
        Some(payment) => still(payment),
        None => None,
    }
}

/// The payment, where it stands.
fn still(payment: &Payment) -> Option<&Standing>
    ensures { option_copied result ≡ still payment.now }
{
    match payment {
        Payment::Standing(payment) => Some(payment),
        Payment::Reversed(_) => None,
    }
}

/// The fill of a reversal with that number.
fn fill_for(reversal: &Reversal, number: u8) -> Fill
    ensures { result ≡ fill_for reversal.now number }
{
    Fill {
        bin: reversal.bin,
        pcn: reversal.pcn,
        qualifier: reversal.qualifier,
        provider: reversal.provider,
        prescription: reversal.prescription,
        fill: number,
    }
}
