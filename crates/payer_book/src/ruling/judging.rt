//! What is known of a group before a price or a consent is asked for: no plan and no advice is looked at here.

ghost use Rattle.std.specs.Prelude.{◌≡◌, filter, [], ◌∷◌};
ghost use Rattle.std.specs.Option.{option_copied, option_map};
ghost use Rattle.claim_model.specs.Words.{Rejected};
ghost use Rattle.claim_model.specs.Bytes.{order_in};
ghost use Rattle.claim_model.specs.Judgement.{only, same_claim, Unpriced};
ghost use Rattle.payer_book.specs.Ledger.{standing_of, is_for_payment};
ghost use Rattle.payer_book.specs.Changes.{still_standing};
ghost use Rattle.payer_book.specs.Drafts.{claim_on, billed_again, reversal_by, judged_on, verdict};

use crate::book::payment::Standing;
use crate::book::payments::Payments;
use crate::ruling::changes::{Change, is_reversed, left_for, left_matching};
use claim_profile::{Auth, Claim, Code, Fill, Order, OrderFault, Rejects, Reversal, Ruling};

/// A ruling that is settled, a claim that is to be priced, or a reversal that may take back the payment of an authorization.
#[derive(Drop)]
pub(crate) enum Verdict<'a> {
    Unpriced(Ruling),
    ToPrice(&'a Claim),
    ToReverse(Auth, &'a Reversal),
}

/// The verdict on an order over the payments of a book and what the places before change among them.
pub(crate) fn judge<'a>(
    payments: &Payments,
    changes: &[Change],
    order: &'a Result<Order, OrderFault>,
) -> Verdict<'a>
    ensures { verdict result ≡ judged_on (still_standing payments.now changes.now) (order_in order.now) }
{
    match order {
        Err(fault) => Verdict::Unpriced(refused(fault)),
        Ok(order) => judge_order(payments, changes, order),
    }
}

fn judge_order<'a>(payments: &Payments, changes: &[Change], order: &'a Order) -> Verdict<'a>
    ensures { verdict result ≡ judged_on (still_standing payments.now changes.now) (Ok order.now) }
{
    match order {
        Order::Claim(claim) => judge_claim(claim, standing_for(payments, changes, &claim.fill)),
        Order::Reversal(reversal) => {
            judge_reversal(reversal, auth_to_reverse(payments, changes, reversal))
        }
    }
}

/// The verdict on a claim, where its fill has this standing payment.
fn judge_claim<'a>(claim: &'a Claim, standing: Option<&Standing>) -> Verdict<'a>
    ensures { verdict result ≡ claim_on claim.now (option_copied standing.entry) }
{
    match standing {
        None => Verdict::ToPrice(claim),
        Some(payment) => Verdict::Unpriced(billed_again(payment, claim)),
    }
}

/// The ruling of a claim whose fill has a standing payment: that payment once more where the claim is the same.
fn billed_again(payment: &Standing, claim: &Claim) -> Ruling
    ensures { result ≡ billed_again payment.now claim.now }
{
    if same_claim(payment.claim(), claim) {
        Ruling::Duplicate {
            auth: payment.auth(),
            prescription: claim.fill.prescription,
            amounts: payment.amounts(),
        }
    } else {
        rejected(Code::DuplicateClaim)
    }
}

/// The verdict on a reversal that is for the payment of this authorization alone.
fn judge_reversal<'a>(reversal: &'a Reversal, auth: Option<Auth>) -> Verdict<'a>
    ensures { verdict result ≡ reversal_by reversal.now auth }
{
    match auth {
        None => Verdict::Unpriced(rejected(Code::ReversalNotProcessed)),
        Some(auth) => Verdict::ToReverse(auth, reversal),
    }
}

/// Whether two claims of one fill ask for the same.
fn same_claim(a: &Claim, b: &Claim) -> bool
    ensures { result ≡ same_claim a.now b.now }
{
    a.date == b.date
        && (a.cardholder.as_slice() == b.cardholder.as_slice()
            && (a.product.as_slice() == b.product.as_slice()
                && (a.quantity == b.quantity && (a.cost == b.cost && a.fee == b.fee))))
}

/// The standing payment of a fill, in the book or made by a place before.
#[tactic(auto, using(crate::proofs::Overlay::none_after))]
fn standing_for<'a>(
    payments: &'a Payments,
    changes: &'a [Change],
    fill: &Fill,
) -> Option<&'a Standing>
    ensures { option_copied result ≡ standing_of fill.now (still_standing payments.now changes.now) }
{
    match payments.standing_of(fill) {
        Some(payment) => {
            if is_reversed(payment.auth(), changes) {
                left_for(fill, changes)
            } else {
                Some(payment)
            }
        }
        None => left_for(fill, changes),
    }
}

/// The authorization of the only standing payment that a reversal is for, in the book or made by a place before.
#[tactic(auto, using(crate::proofs::Overlay::only_after))]
fn auth_to_reverse(payments: &Payments, changes: &[Change], reversal: &Reversal) -> Option<Auth>
    ensures { result ≡ option_map (λ s. s.auth)
        (only (filter (is_for_payment reversal.now) (still_standing payments.now changes.now))) }
{
    let kept = payments.matching(reversal, changes);
    let made = left_matching(reversal, changes);
    kept.and(made).only()
}

/// The ruling on a group whose order does not read.
fn refused(fault: &OrderFault) -> Ruling
    ensures { Unpriced result ≡ judged_on [] (order_in (Err fault.now)) }
{
    match fault {
        OrderFault::Rejected(rejects) => Ruling::Rejected { rejects: *rejects },
    }
}

/// A rejection for one reason.
pub(crate) fn rejected(code: Code) -> Ruling
    ensures { result ≡ Rejected (code ∷ []) }
{
    Ruling::Rejected {
        rejects: Rejects::one(code),
    }
}
