//! What rulings change among the payments, before any of it is entered.

ghost use Rattle.std.specs.Prelude.{◌≡◌, count_by, filter};
ghost use Rattle.std.specs.Option.{option_copied};
ghost use Rattle.claim_model.specs.Bytes.{order_in};
ghost use Rattle.claim_model.specs.Payments.{same_auth};
ghost use Rattle.claim_model.specs.Judgement.{same_fill};
ghost use Rattle.payer_book.specs.Ledger.{standing_of, is_for_payment};
ghost use Rattle.payer_book.specs.Changes.{change_by, is_reversal_of, is_reversed, pays, left, left_by};
ghost use Rattle.payer_book.specs.Matches.{tally, with_own};

use crate::book::payment::Standing;
use crate::ruling::matches::{Matches, is_for};
use claim_profile::{Auth, Fill, Order, OrderFault, Reversal, Ruling};

/// What a ruling changes.
#[derive(Drop)]
pub(crate) enum Change {
    /// There is one payment more.
    Pays(Standing),
    /// The payment of this authorization is reversed.
    Reverses(Auth),
    /// Nothing.
    Keeps,
}

impl Change {
    /// What the ruling on an order changes.
    pub(crate) fn of(order: &Result<Order, OrderFault>, ruling: &Ruling) -> Change
        ensures { result ≡ change_by (order_in order.now) ruling.now }
    {
        match ruling {
            Ruling::Paid { auth, amounts, .. } => match order {
                Ok(Order::Claim(claim)) => Change::Pays(Standing::new(*auth, *claim, *amounts)),
                _ => Change::Keeps,
            },
            Ruling::Reversed { auth, .. } => Change::Reverses(*auth),
            Ruling::Duplicate { .. } => Change::Keeps,
            Ruling::Rejected { .. } => Change::Keeps,
        }
    }

    /// Whether it reverses the payment of this authorization.
    pub(crate) fn is_reversal_of(&self, auth: Auth) -> bool
        ensures { result ≡ is_reversal_of auth self.now }
    {
        match self {
            Change::Reverses(named) => same_auth(*named, auth),
            Change::Pays(_) => false,
            Change::Keeps => false,
        }
    }

    /// The payment that it makes, where none of the later changes reverses it.
    fn left(&self, later: &[Change]) -> Option<&Standing>
        ensures { option_copied result ≡ left self.now later.now }
    {
        match self {
            Change::Pays(payment) => {
                if is_reversed(payment.auth(), later) {
                    None
                } else {
                    Some(payment)
                }
            }
            Change::Reverses(_) => None,
            Change::Keeps => None,
        }
    }

    /// Whether it is a payment.
    pub(crate) fn pays(&self) -> bool
        ensures { result ≡ pays self.now }
    {
        match self {
            Change::Pays(_) => true,
            Change::Reverses(_) => false,
            Change::Keeps => false,
        }
    }
}

/// Whether the two authorizations are one.
pub(crate) fn same_auth(a: Auth, b: Auth) -> bool
    ensures { result ≡ same_auth a b }
{
    a.payer() == b.payer() && a.serial() == b.serial()
}

/// Whether the two fills are one.
pub(crate) fn same_fill(a: &Fill, b: &Fill) -> bool
    ensures { result ≡ same_fill a.now b.now }
{
    a.bin == b.bin
        && (a.pcn == b.pcn
            && (a.qualifier == b.qualifier
                && (a.provider == b.provider
                    && (a.prescription == b.prescription && a.fill == b.fill))))
}

/// Whether one of the changes reverses the payment of this authorization.
pub(crate) fn is_reversed(auth: Auth, changes: &[Change]) -> bool
    ensures { result ≡ is_reversed auth changes.now }
{
    changes.iter().any(|change| change.is_reversal_of(auth))
}

/// How many of the changes are payments.
pub(crate) fn payments_in(changes: &[Change]) -> usize
    ensures { result ≡ count_by pays changes.now }
{
    changes.iter().filter(|change| change.pays()).count()
}

/// The payment of a fill that the changes make and do not reverse.
pub(crate) fn left_for<'a>(fill: &Fill, changes: &'a [Change]) -> Option<&'a Standing>
    ensures { option_copied result ≡ standing_of fill.now (left_by changes.now) }
{
    match changes.split_first() {
        None => None,
        Some((first, later)) => match first.left(later) {
            Some(payment) => {
                if same_fill(fill, &payment.claim().fill) {
                    Some(payment)
                } else {
                    left_for(fill, later)
                }
            }
            None => left_for(fill, later),
        },
    }
}

/// The payments that a reversal is for, of those that the changes make and do not reverse.
pub(crate) fn left_matching(reversal: &Reversal, changes: &[Change]) -> Matches
    ensures { result ≡ tally (filter (is_for_payment reversal.now) (left_by changes.now)) }
{
    match changes.split_first() {
        None => Matches::Nothing,
        Some((first, later)) => {
            let matches = left_matching(reversal, later);
            match first.left(later) {
                Some(payment) => add_match(matches, reversal, payment),
                None => matches,
            }
        }
    }
}

/// The matches, and this payment where the reversal is for it.
fn add_match(matches: Matches, reversal: &Reversal, payment: &Standing) -> Matches
    ensures { result ≡ with_own reversal.now payment.now matches }
{
    if is_for(reversal, payment.claim()) {
        matches.with(payment.auth())
    } else {
        matches
    }
}
