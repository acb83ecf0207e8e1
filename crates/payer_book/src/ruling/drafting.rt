//! The rulings of a request, place by place, before any of it is entered.

ghost use Rattle.std.specs.Prelude.{◌≡◌, ◌&&◌, true, [], Some, OnOk};
ghost use Rattle.std.specs.List.{list_all};
ghost use Rattle.std.specs.Option.{option_map};
ghost use Rattle.d0_segments.specs.FramedParts.{framed_parts};
ghost use Rattle.claim_model.specs.Bytes.{order_in, orders_in};
ghost use Rattle.claim_model.specs.Book.{serial_fits};
ghost use Rattle.payer_book.specs.Faults.{LacksSerial};
ghost use Rattle.payer_book.specs.Drafts.{pricing, ruling_on, rulings_on, IsDraft, next_ruling, AddsRuling, AddsChange, auth_after, IsRulingThatFits, next_advised, advised_on, price_seen, consent_seen};
ghost use Rattle.claim_model.specs.Judgement.{priced, Pays, taken_back};

use crate::book::payments::Payments;
use crate::ruling::changes::Change;
use crate::ruling::judging::{Verdict, judge, rejected};
use crate::ruling::pricing::{Consent, Price, Prices};
use claim_model::{Fault, Refusal};
use claim_profile::{Amounts, Auth, Claim, Code, Order, OrderFault, Reversal, Ruling, order_at};
use d0_header::RequestHeader;
use d0_segments::Framed;
use std::alloc::Global;

/// The ruling of each place so far, what each changes among the payments, and room for the answer's bytes. A book lends
/// the same lists to one request after another.
#[derive(Drop)]
pub(crate) struct Draft {
    pub(crate) rulings: Vec<Ruling>,
    pub(crate) changes: Vec<Change>,
    pub(crate) answer: Vec<u8>,
    /// Whether each claim that is to be priced had a verdict, and each reversal that is asked about a consent.
    pub(crate) advised: bool,
}

/// Fills a draft with the rulings of a request over the payments of a book. What stood in it is gone.
pub(crate) fn rule_all(
    draft: &mut Draft,
    payments: &Payments,
    prices: Prices<'_>,
    framed: &Framed<'_, RequestHeader>,
) -> Result<(), Fault>
    ensures made { OnOk result
        (IsDraft payments.now (pricing prices.entry) (orders_in (Some (framed_parts framed.now))) draft.new) }
    ensures fault { LacksSerial (list_all serial_fits
        (rulings_on payments.now (pricing prices.entry) [] (orders_in (Some (framed_parts framed.now))))) result }
{
    draft.clear();
    let places = framed.group_count();
    for place in 0..places {
        draft.rule(payments, &prices, &order_at(framed, place))?;
    }
    Ok(())
}

impl Draft {
    /// An empty draft, which has taken no memory.
    pub(crate) fn new(alloc: Global) -> Draft {
        Draft {
            rulings: Vec::new(alloc),
            changes: Vec::new(alloc),
            answer: Vec::new(alloc),
            advised: true,
        }
    }

    /// Takes out the rulings and the changes, and keeps the memory.
    fn clear(&mut self)
        ensures lists { (self.new.rulings.items ≡ []) × (self.new.changes.items ≡ []) }
        ensures advised { self.new.advised ≡ true }
    {
        self.rulings.clear();
        self.changes.clear();
        self.advised = true;
    }

    /// Adds the ruling of the next place.
    fn rule(
        &mut self,
        payments: &Payments,
        prices: &Prices<'_>,
        order: &Result<Order, OrderFault>,
    ) -> Result<(), Fault>
        ensures rulings { OnOk result (AddsRuling self.old payments.now prices.now order.now self.new) }
        ensures changes { OnOk result (AddsChange self.old payments.now prices.now order.now self.new) }
        ensures advised { OnOk result (self.new.advised
            ≡ (self.old.advised && next_advised self.old payments.now prices.now order.now)) }
        ensures fits { OnOk result (serial_fits (next_ruling self.old payments.now prices.now order.now) ≡ true) }
        ensures fault { LacksSerial (serial_fits (next_ruling self.old payments.now prices.now order.now)) result }
    {
        let Settled { ruling, advised } = settle(payments, prices, self.changes.as_slice(), order);
        let Some(ruling) = ruling else {
            return Err(Fault::Refused(Refusal::SerialsUsedUp));
        };
        self.changes.push(Change::of(order, &ruling))?;
        self.rulings.push(ruling)?;
        self.advised = self.advised && advised;
        Ok(())
    }
}

/// What is settled of the next place.
#[derive(Drop)]
struct Settled {
    /// Its ruling, after the changes of the places before; None where no serial number is left for it.
    ruling: Option<Ruling>,
    /// Whether it has the verdict or the consent that it wants.
    advised: bool,
}

/// Settles the next place.
#[tactic(auto, unfolding(crate::specs::Drafts::ruling_on, crate::specs::Drafts::advised_on))]
fn settle(
    payments: &Payments,
    prices: &Prices<'_>,
    changes: &[Change],
    order: &Result<Order, OrderFault>,
) -> Settled
    ensures ruling { IsRulingThatFits
        (ruling_on payments.now (pricing prices.now) changes.now (order_in order.now)) result.ruling }
    ensures advised { result.advised ≡ advised_on payments.now (pricing prices.now) changes.now (order_in order.now) }
{
    match judge(payments, changes, order) {
        Verdict::Unpriced(ruling) => Settled {
            ruling: Some(ruling),
            advised: true,
        },
        Verdict::ToPrice(claim) => {
            let price = prices.price(changes.len(), claim);
            Settled {
                advised: price.is_some(),
                ruling: priced(payments, changes, claim, price),
            }
        }
        Verdict::ToReverse(auth, reversal) => {
            let consent = prices.consent(changes.len(), reversal);
            Settled {
                advised: consent.is_some(),
                ruling: Some(taken_back(auth, reversal, consent)),
            }
        }
    }
}

/// The ruling of a reversal by the consent to it.
fn taken_back(auth: Auth, reversal: &Reversal, consent: Option<Consent>) -> Ruling
    ensures value { result ≡ taken_back auth reversal.now (option_map consent_seen consent) }
    ensures fits { serial_fits result ≡ true }
{
    match consent {
        None => rejected(Code::ReversalNotProcessed),
        Some(Ok(())) => Ruling::Reversed {
            auth,
            prescription: reversal.prescription,
        },
        Some(Err(rejects)) => Ruling::Rejected { rejects },
    }
}

/// The ruling of a claim by its verdict; None where it would be paid and no serial number is left.
fn priced(
    payments: &Payments,
    changes: &[Change],
    claim: &Claim,
    price: Option<Price>,
) -> Option<Ruling>
    ensures { IsRulingThatFits (priced (auth_after payments.now changes.now) claim.now (option_map price_seen price)) result }
{
    match price {
        None => Some(rejected(Code::NotCovered)),
        Some(Ok(amounts)) => paid(payments, changes, claim, amounts),
        Some(Err(rejects)) => Some(Ruling::Rejected { rejects }),
    }
}

/// The ruling of a claim that is paid; None where no serial number is left.
fn paid(payments: &Payments, changes: &[Change], claim: &Claim, amounts: Amounts) -> Option<Ruling>
    ensures { IsRulingThatFits (priced (auth_after payments.now changes.now) claim.now (Some (Pays amounts))) result }
{
    match payments.next_auth(changes) {
        Some(auth) => Some(Ruling::Paid {
            auth,
            prescription: claim.fill.prescription,
            amounts,
        }),
        None => None,
    }
}
