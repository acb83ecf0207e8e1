//! The standing payments that a reversal is for, counted as far as it matters.

ghost use Rattle.std.specs.Prelude.{◌≡◌};
ghost use Rattle.claim_model.specs.Judgement.{is_for, is_fill_number};
ghost use Rattle.payer_book.specs.Matches.{with_one, together, only_of, is_match};

use crate::book::payment::Standing;
use crate::ruling::changes::{Change, is_reversed};
use claim_profile::{Auth, Claim, Reversal};

/// No payment, one of this authorization, or several.
#[derive(Clone, Copy)]
pub(crate) enum Matches {
    Nothing,
    One(Auth),
    Several,
}

impl Matches {
    /// One payment more, of this authorization.
    pub(crate) fn with(self, auth: Auth) -> Matches
        ensures { result ≡ with_one self auth }
    {
        match self {
            Matches::Nothing => Matches::One(auth),
            Matches::One(_) => Matches::Several,
            Matches::Several => Matches::Several,
        }
    }

    /// The payments of both together.
    pub(crate) fn and(self, other: Matches) -> Matches
        ensures { result ≡ together self other }
    {
        match self {
            Matches::Nothing => other,
            Matches::One(auth) => other.with(auth),
            Matches::Several => Matches::Several,
        }
    }

    /// The authorization of the payment, where there is exactly one.
    pub(crate) fn only(self) -> Option<Auth>
        ensures { result ≡ only_of self }
    {
        match self {
            Matches::Nothing => None,
            Matches::One(auth) => Some(auth),
            Matches::Several => None,
        }
    }
}

/// Whether the reversal is for this payment, which none of the changes reverses.
pub(crate) fn is_match(reversal: &Reversal, changes: &[Change], payment: &Standing) -> bool
    ensures { result ≡ is_match reversal.now changes.now payment.now }
{
    is_for(reversal, payment.claim()) && !is_reversed(payment.auth(), changes)
}

/// Whether the reversal is for this claim.
pub(crate) fn is_for(reversal: &Reversal, claim: &Claim) -> bool
    ensures { result ≡ is_for reversal.now claim.now }
{
    reversal.bin == claim.fill.bin
        && (reversal.pcn == claim.fill.pcn
            && (reversal.qualifier == claim.fill.qualifier
                && (reversal.provider == claim.fill.provider
                    && (reversal.prescription == claim.fill.prescription
                        && (reversal.date == claim.date
                            && is_fill_number(claim.fill.fill, reversal.fill))))))
}

/// Whether the fill number is the one that is asked for, or none is.
fn is_fill_number(fill: u8, asked: Option<u8>) -> bool
    ensures { result ≡ is_fill_number fill asked }
{
    match asked {
        None => true,
        Some(number) => number == fill,
    }
}
