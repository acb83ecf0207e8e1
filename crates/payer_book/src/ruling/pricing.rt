//! Where the verdict on a claim and the consent to a reversal come from.

ghost use Rattle.std.specs.Prelude.{◌≡◌, cond, Some, None, slice_get};
ghost use Rattle.std.specs.Option.{option_map};
ghost use Rattle.claim_model.specs.Judgement.{Pays, planned, verdict_in, Allows, consent_in};
ghost use Rattle.payer_book.specs.Drafts.{ByPlan, pricing, price_at, price_seen, amounts_in, kept_verdict, consent_at, consent_seen};

use claim_profile::{Amounts, Claim, Code, Rejects, Reversal, Ruling};
use plan_rules::Plan;

/// A plan, or, of a payer that asks so, the rulings of an answer: a kept one, or an advice.
#[derive(Clone, Copy)]
pub(crate) enum Prices<'a> {
    Plan(&'a Plan),
    Kept {
        asks: bool,
        reversals: bool,
        said: &'a [Ruling],
    },
}

/// What is paid for a claim, or the codes that reject it.
pub(crate) type Price = Result<Amounts, Rejects>;

/// That a payment is taken back, or the codes that reject its reversal.
pub(crate) type Consent = Result<(), Rejects>;

impl Prices<'_> {
    /// The verdict on the claim at a place of the request, from 0; None where none was given.
    pub(crate) fn price(&self, place: usize, claim: &Claim) -> Option<Price>
        ensures { option_map price_seen result ≡ price_at (pricing self.now) place claim.now }
    {
        match self {
            Prices::Plan(plan) => Some(by_plan(plan, claim)),
            Prices::Kept { asks, said, .. } => {
                kept_at(*asks, said, place, claim.fill.prescription)
            }
        }
    }

    /// The consent to the reversal at a place of the request, from 0; None where none was given.
    pub(crate) fn consent(&self, place: usize, reversal: &Reversal) -> Option<Consent>
        ensures { option_map consent_seen result ≡ consent_at (pricing self.now) place reversal.now }
    {
        match self {
            Prices::Plan(_) => Some(Ok(())),
            Prices::Kept {
                asks,
                reversals,
                said,
            } => {
                if *asks && *reversals {
                    consent_at(said, place, reversal.prescription)
                } else {
                    Some(Ok(()))
                }
            }
        }
    }
}

/// What an answer says of the reversal of a prescription, at a place.
fn consent_at(said: &[Ruling], place: usize, asked: u64) -> Option<Consent>
    ensures { option_map consent_seen result ≡ consent_in asked (slice_get said.now place) }
{
    match said.get(place) {
        Some(ruling) => consent_in(ruling, asked),
        None => None,
    }
}

/// What a ruling says of the reversal of a prescription.
fn consent_in(ruling: &Ruling, asked: u64) -> Option<Consent>
    ensures { option_map consent_seen result ≡ consent_in asked (Some ruling.now) }
{
    match ruling {
        Ruling::Paid { .. } => None,
        Ruling::Duplicate { .. } => None,
        Ruling::Reversed { prescription, .. } => allowed(*prescription == asked),
        Ruling::Rejected { rejects } => Some(Err(*rejects)),
    }
}

/// Consent, where it is to the reversal of the prescription that was asked about.
fn allowed(same: bool) -> Option<Consent>
    ensures { option_map consent_seen result ≡ cond same (Some Allows) None }
{
    if same { Some(Ok(())) } else { None }
}

/// The verdict of a plan.
fn by_plan(plan: &Plan, claim: &Claim) -> Price
    ensures { Some (price_seen result) ≡ price_at (ByPlan plan.now) 0 claim.now }
{
    match plan.price(claim) {
        Some(amounts) => Ok(amounts),
        None => Err(Rejects::one(Code::NotCovered)),
    }
}

/// The verdict of an answer on the claim of a prescription, at a place.
fn kept_at(asks: bool, said: &[Ruling], place: usize, claimed: u64) -> Option<Price>
    ensures { option_map price_seen result ≡ kept_verdict asks claimed (slice_get said.now place) }
{
    match said.get(place) {
        Some(ruling) => kept_by(asks, ruling, claimed),
        None => unsaid(asks),
    }
}

/// The verdict that a ruling is.
fn kept_by(asks: bool, ruling: &Ruling, claimed: u64) -> Option<Price>
    ensures { option_map price_seen result ≡ kept_verdict asks claimed (Some ruling.now) }
{
    if asks {
        said_in(ruling, claimed)
    } else {
        Some(paid_in(ruling))
    }
}

/// What the system of a payer that asks says of a claim.
fn said_in(ruling: &Ruling, claimed: u64) -> Option<Price>
    ensures { option_map price_seen result ≡ verdict_in claimed (Some ruling.now) }
{
    match ruling {
        Ruling::Paid {
            prescription,
            amounts,
            ..
        } => said_of(*prescription == claimed, *amounts),
        Ruling::Duplicate {
            prescription,
            amounts,
            ..
        } => said_of(*prescription == claimed, *amounts),
        Ruling::Reversed { .. } => None,
        Ruling::Rejected { rejects } => Some(Err(*rejects)),
    }
}

/// Amounts, where they are of the claim's prescription.
fn said_of(same: bool, amounts: Amounts) -> Option<Price>
    ensures { option_map price_seen result ≡ cond same (Some (Pays amounts)) None }
{
    if same { Some(Ok(amounts)) } else { None }
}

/// What a kept answer of a payer that does not ask says of a claim.
fn paid_in(ruling: &Ruling) -> Price
    ensures { price_seen result ≡ planned (amounts_in (Some ruling.now)) }
{
    match ruling {
        Ruling::Paid { amounts, .. } => Ok(*amounts),
        Ruling::Duplicate { .. } => Err(Rejects::one(Code::NotCovered)),
        Ruling::Reversed { .. } => Err(Rejects::one(Code::NotCovered)),
        Ruling::Rejected { .. } => Err(Rejects::one(Code::NotCovered)),
    }
}

/// The verdict where an answer says nothing of a claim.
fn unsaid(asks: bool) -> Option<Price>
    ensures { option_map price_seen result ≡ kept_verdict asks 0 None }
{
    if asks {
        None
    } else {
        Some(Err(Rejects::one(Code::NotCovered)))
    }
}
