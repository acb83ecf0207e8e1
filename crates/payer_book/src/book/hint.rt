//! A guess at what a kept answer says, from the places where an answer to a request of one group has its parts. It is only a
//! guess: whoever has one rules by it, writes the answer, and compares.

ghost use Rattle.std.specs.Prelude.{[], ◌∷◌, IfSome};
ghost use Rattle.claim_model.specs.Laws.{AdvisesWell};

use crate::ruling::judging::rejected;
use crate::settings::BookSettings;
use claim_profile::{Amounts, Auth, Code, Ruling};
use d0_segments::SEGMENT_SEPARATOR;
use overpunch::Amount;
use std::simd::prelude::*;

/// Where an answer's header counts the groups.
const COUNT: usize = 4;
/// Where the answer to one group has its status (112-AN).
const STATUS: usize = 41;
/// Where its prescription number (402-D2) begins, after the header, sixteen digits of the authorization and what stands between.
const PRESCRIPTION: usize = 74;

/// A number that some bytes begin with, and what stands behind it.
#[derive(Clone, Copy)]
struct Digits<'a> {
    number: u64,
    /// The byte after the digits.
    last: u8,
    /// What stands after that byte.
    rest: &'a [u8],
}

/// What an answer likely says of its one group: the amounts of a payment, or a rejection; of a repeat, or of a reversal that
/// nobody was asked about, anything. None where it has to be read: it has more groups, tells of a reversal that may have been
/// rejected, or is no answer as this product writes it.
pub(crate) fn likely_said(settings: &BookSettings, answer: &[u8]) -> Option<Ruling>
    ensures { IfSome result (λ ruling. AdvisesWell (ruling ∷ [])) }
{
    if *answer.get(COUNT)? != b'1' {
        return None;
    }
    match *answer.get(STATUS)? {
        b'P' => likely_paid(settings.asks(), answer.get(PRESCRIPTION..)?),
        b'D' => Some(rejected(Code::NotCovered)),
        b'A' => likely_rejected(settings.asks_reversals()),
        b'R' => likely_rejected(settings.asks()),
        _ => None,
    }
}

/// The rejection of which an answer likely tells: with 70, if no rule gives its codes. A payer that asks about it is told others
/// too, and its answer has to be read.
fn likely_rejected(asks: bool) -> Option<Ruling>
    ensures { IfSome result (λ ruling. AdvisesWell (ruling ∷ [])) }
{
    if asks {
        None
    } else {
        Some(rejected(Code::NotCovered))
    }
}

/// The payment of which an answer likely tells: its prescription number, which matters where the payer asks, the head of a
/// segment, and its amounts.
fn likely_paid(asks: bool, bytes: &[u8]) -> Option<Ruling>
    ensures { IfSome result (λ ruling. AdvisesWell (ruling ∷ [])) }
{
    let prescription = if asks { leading(bytes)?.number } else { 0 };
    let pricing = bytes.get(before_segment(bytes)?..)?;
    let copay = amount_in(pricing.get(6..)?)?;
    let cost = amount_in(copay.rest)?;
    let fee = amount_in(cost.rest)?;
    let total = amount_in(fee.rest)?;
    let amounts = Amounts::new(
        cents_of(&cost)?,
        cents_of(&fee)?,
        cents_of(&copay)?,
        cents_of(&total)?,
    )?;
    Some(payment(Auth::new(1, 1)?, prescription, amounts))
}

/// The payment of these amounts. Nobody looks at its authorization.
fn payment(auth: Auth, prescription: u64, amounts: Amounts) -> Ruling
    ensures { AdvisesWell (result ∷ []) }
{
    let (_cost, _fee) = (amounts.cost(), amounts.fee());
    let (_copay, _total) = (amounts.copay(), amounts.total());
    Ruling::Paid {
        auth,
        prescription,
        amounts,
    }
}

/// How many bytes stand before a segment's separator, which is one of the first sixteen.
#[inline(always)]
fn before_segment(bytes: &[u8]) -> Option<usize> {
    let separators = u8x16::from_slice(bytes.get(..16)?)
        .simd_eq(u8x16::splat(SEGMENT_SEPARATOR))
        .to_bitmask();
    if separators == 0 {
        return None;
    }
    Some(separators.trailing_zeros() as usize)
}

/// The digits of an amount, after a field's separator and its name of two bytes.
#[inline(always)]
fn amount_in(bytes: &[u8]) -> Option<Digits<'_>> {
    leading(bytes.get(3..)?)
}

/// The amount of these digits, the last of which has the sign in it.
#[inline(always)]
fn cents_of(digits: &Digits<'_>) -> Option<Amount> {
    let last = match digits.last {
        b'A'..=b'I' => digits.last & 15,
        _ => 0,
    };
    let cents = digits.number.wrapping_mul(10).wrapping_add(u64::from(last));
    Amount::new(i64::try_from(cents).ok()?)
}

/// The number that these bytes begin with.
#[inline(always)]
fn leading(bytes: &[u8]) -> Option<Digits<'_>> {
    let mut number = 0_u64;
    for (place, byte) in bytes.iter().enumerate() {
        if !byte.is_ascii_digit() {
            let rest = bytes.get(place.saturating_add(1)..)?;
            return Some(Digits {
                number,
                last: *byte,
                rest,
            });
        }
        number = number.wrapping_mul(10).wrapping_add(u64::from(byte & 15));
    }
    None
}
