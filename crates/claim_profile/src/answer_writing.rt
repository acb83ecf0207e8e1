//! Writing answers.

ghost use Rattle.std.specs.Prelude.{◌≡◌, ◌≤◌, pos, [], ◌∷◌, ◌++◌, length, take, IsTrue, IfOk, OnOk};
ghost use Rattle.overpunch.specs.Amount.{amount_text};
ghost use Rattle.d0_header.specs.Field.{is_plain};
ghost use Rattle.d0_segments.specs.Texts.{field_text, segment_text, group_text};
ghost use Rattle.claim_profile.specs.Money.{largest};
ghost use Rattle.claim_profile.specs.Answer.{status_byte_of, field, status_segment, claim_segment, pricing_segment, reject_segment, ruling_segments, answer_text, AreWritable};

use crate::authorization::Auth;
use crate::paid::Amounts;
use crate::reject::Rejects;
use crate::ruling::{HeaderStatus, Ruling};
use d0_header::{RequestHeader, ResponseHeader};
use overpunch::{Amount, write_number};
use std::alloc::{AllocError, Global};

/// The longest text of a response header and four groups.
const LONGEST: usize = 31 + 4 * 105;

/// Writes the answer to a request: the header of the response, and one group for each ruling.
///
/// There are as many rulings as the header counts, their prescription numbers have at most twelve
/// digits, and status `R` goes with rejected rulings alone.
pub fn write_answer(
    alloc: Global,
    header: &RequestHeader,
    status: HeaderStatus,
    rulings: &[Ruling],
) -> Result<Vec<u8>, AllocError>
    requires count { length rulings.now ≡ header.now.count }
    requires writable { AreWritable status rulings.now }
    ensures text { IfOk result (λ v. v.items ≡ answer_text header.now status rulings.now) }
{
    let mut text = Vec::new(alloc);
    put_answer(&mut text, header, status, rulings)?;
    Ok(text)
}

/// Appends the answer that [`write_answer`] writes. Where memory is refused, a part of it may stand there.
#[tactic(auto, unfolding(crate::specs::Answer::answer_text), using(std::proofs::lemmas::List::append_assoc, std::proofs::lemmas::List::take_all, crate::proofs::AnswerTexts::group_written))]
pub fn put_answer(
    text: &mut Vec<u8>,
    header: &RequestHeader,
    status: HeaderStatus,
    rulings: &[Ruling],
) -> Result<(), AllocError>
    requires count { length rulings.now ≡ header.now.count }
    requires writable { AreWritable status rulings.now }
    ensures text { OnOk result (text.new.items ≡ text.old.items ++ answer_text header.now status rulings.now) }
{
    text.reserve(LONGEST)?;
    let response = ResponseHeader::answering(header, status_byte(status));
    text.extend_from_slice(&response.to_bytes())?;
    for ruling in rulings {
        put_ruling(text, ruling)?;
    }
    Ok(())
}

/// The header response status (501-F1).
fn status_byte(status: HeaderStatus) -> u8
    ensures value { result ≡ status_byte_of status }
    ensures plain { IsTrue (is_plain result) }
{
    match status {
        HeaderStatus::Accepted => b'A',
        HeaderStatus::Rejected => b'R',
    }
}

/// Appends the group of a ruling.
fn put_ruling(text: &mut Vec<u8>, ruling: &Ruling) -> Result<(), AllocError>
    ensures { OnOk result (text.new.items ≡ text.old.items ++ group_text (ruling_segments ruling.now)) }
{
    match *ruling {
        Ruling::Paid {
            auth,
            prescription,
            amounts,
        } => put_payment(text, b'P', auth, prescription, amounts),
        Ruling::Duplicate {
            auth,
            prescription,
            amounts,
        } => put_payment(text, b'D', auth, prescription, amounts),
        Ruling::Reversed { auth, prescription } => {
            put_status(text, b'A', auth)?;
            put_claim(text, prescription)
        }
        Ruling::Rejected { rejects } => put_rejects(text, &rejects),
    }
}

/// Appends the group of a paid claim.
#[tactic(auto, using(crate::proofs::AnswerTexts::on_ok_also, crate::proofs::AnswerTexts::payment_written))]
fn put_payment(
    text: &mut Vec<u8>,
    status: u8,
    auth: Auth,
    prescription: u64,
    amounts: Amounts,
) -> Result<(), AllocError>
    ensures { OnOk result (text.new.items ≡ text.old.items ++ group_text
        (status_segment (status ∷ []) auth ∷ claim_segment prescription ∷ pricing_segment amounts ∷ [])) }
{
    put_status(text, status, auth)?;
    put_claim(text, prescription)?;
    put_pricing(text, amounts)
}

/// Appends the group separator and the response status segment (AM21) with an authorization number.
fn put_status(text: &mut Vec<u8>, status: u8, auth: Auth) -> Result<(), AllocError>
    ensures { OnOk result (text.new.items ≡ text.old.items ++ (29 ∷ segment_text (status_segment (status ∷ []) auth))) }
{
    text.extend_from_slice(&[
        0x1d, 0x1e, 0x1c, b'A', b'M', b'2', b'1', 0x1c, b'A', b'N', status, 0x1c, b'F', b'3',
    ])?;
    text.extend_from_slice(&auth.digits())
}

/// Appends the response claim segment (AM22).
#[tactic(auto, using(crate::proofs::AnswerTexts::on_ok_also, crate::proofs::AnswerTexts::claim_written))]
fn put_claim(text: &mut Vec<u8>, prescription: u64) -> Result<(), AllocError>
    ensures { OnOk result (text.new.items ≡ text.old.items ++ segment_text (claim_segment prescription)) }
{
    text.extend_from_slice(b"\x1e\x1cAM22\x1cEM1\x1cD2")?;
    let mut digits = [0; 20];
    let len = write_number(prescription, &mut digits);
    put_front(text, &digits, len)
}

/// Appends the response pricing segment (AM23).
#[tactic(auto, using(crate::proofs::AnswerTexts::on_ok_also, crate::proofs::AnswerTexts::pricing_written))]
fn put_pricing(text: &mut Vec<u8>, amounts: Amounts) -> Result<(), AllocError>
    ensures { OnOk result (text.new.items ≡ text.old.items ++ segment_text (pricing_segment amounts)) }
{
    text.extend_from_slice(b"\x1e\x1cAM23")?;
    put_amount(text, b'5', amounts.copay())?;
    put_amount(text, b'6', amounts.cost())?;
    put_amount(text, b'7', amounts.fee())?;
    put_amount(text, b'9', amounts.total())
}

/// Appends the field `F` and this digit with an amount in cents.
fn put_amount(text: &mut Vec<u8>, name: u8, cents: u32) -> Result<(), AllocError>
    requires { cents ≤ largest }
    ensures { OnOk result (text.new.items ≡ text.old.items ++ field_text
        (field (70 ∷ name ∷ []) (amount_text (pos cents)))) }
{
    text.extend_from_slice(&[0x1c, b'F', name])?;
    let mut digits = [0; 8];
    let len = amount_of_cents(cents).write(&mut digits);
    put_front(text, &digits, len)
}

/// Appends the first of these bytes, this many. All of them are copied and those after are cut off again: a copy of a length
/// that is known is one move.
#[inline(always)]
fn put_front(text: &mut Vec<u8>, bytes: &[u8], count: usize) -> Result<(), AllocError>
    requires { count ≤ length bytes.now }
    ensures { OnOk result (text.new.items ≡ text.old.items ++ take count bytes.now) }
{
    let end = text.len() + count;
    text.extend_from_slice(bytes)?;
    text.truncate(end);
    Ok(())
}

/// Appends the group of a rejection.
#[tactic(auto, using(std::proofs::lemmas::List::take_all, crate::proofs::AnswerTexts::rejects_written))]
fn put_rejects(text: &mut Vec<u8>, rejects: &Rejects) -> Result<(), AllocError>
    ensures { OnOk result (text.new.items ≡ text.old.items ++ group_text (reject_segment rejects.now ∷ [])) }
{
    let codes = rejects.as_slice();
    text.extend_from_slice(b"\x1d\x1e\x1cAM21\x1cANR\x1cFA")?;
    text.push(b'0' + codes.len() as u8)?;
    for code in codes {
        text.extend_from_slice(b"\x1cFB")?;
        text.extend_from_slice(code.text())?;
    }
    Ok(())
}

/// The amount of this many cents.
fn amount_of_cents(cents: u32) -> Amount
    requires { cents ≤ largest }
    ensures { result ≡ pos cents }
{
    Amount::new(i64::from(cents)).unwrap()
}
