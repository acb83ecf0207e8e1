//! The words of rulings, and the lines of the payments that a pharmacy counts.

ghost use Rattle.std.specs.Prelude.{◌≡◌, ◌+◌, ◌≤◌, ◌∷◌, [], ◌++◌, drop, decimal, OnOk};
ghost use Rattle.std.specs.List.{flat_map};
ghost use Rattle.claim_profile.specs.Authorization.{authorization_text};
ghost use Rattle.claim_profile.specs.Reject.{code_text};
ghost use Rattle.world_report.specs.Words.{behind_spaces};
ghost use Rattle.world_report.specs.Adding.{AddsLine, AddsWords};
ghost use Rattle.world_report.specs.Rulings.{amount_words, payment_words, ruling_words, codes_word, paid_line};

use crate::words::{end_line, put_word};
use claim_profile::{Amounts, Auth, Code, Ruling};
use itoa::write_digits;
use pharmacy_journal::CountedPayment;
use std::alloc::AllocError;

/// The room for the longest words of a payment: an authorization of sixteen digits and four amounts of at most ten, each
/// after a space.
const PAYMENT: usize = 61;

/// Appends the words of a ruling: `P` or `D` with the authorization and the amounts of the payment, `A` with the
/// authorization that was reversed, `R` with the reject codes.
pub fn put_ruling(out: &mut Vec<u8>, ruling: &Ruling) -> Result<(), AllocError>
    ensures { OnOk result (AddsWords out.old out.new (ruling_words ruling.now)) }
{
    match *ruling {
        Ruling::Paid { auth, amounts, .. } => {
            put_word(out, b"P")?;
            put_payment(out, auth, amounts)
        }
        Ruling::Duplicate { auth, amounts, .. } => {
            put_word(out, b"D")?;
            put_payment(out, auth, amounts)
        }
        Ruling::Reversed { auth, .. } => {
            put_word(out, b"A")?;
            put_word(out, &auth.digits())
        }
        Ruling::Rejected { rejects } => {
            put_word(out, b"R")?;
            put_codes(out, rejects.as_slice())
        }
    }
}

/// Appends the line of a payment that a pharmacy counts: `paid`, the authorization and the amounts.
#[tactic(auto, using(std::proofs::lemmas::Result::on_ok_weaker, crate::proofs::JoinedWords::line_joins))]
pub fn put_paid(out: &mut Vec<u8>, payment: &CountedPayment) -> Result<(), AllocError>
    ensures { OnOk result (AddsLine out.old out.new (paid_line payment.now)) }
{
    out.extend_from_slice(b"paid")?;
    put_payment(out, payment.auth(), payment.amounts())?;
    end_line(out)
}

/// Appends an authorization and the amounts that were paid under it.
fn put_payment(out: &mut Vec<u8>, auth: Auth, amounts: Amounts) -> Result<(), AllocError>
    ensures { OnOk result (AddsWords out.old out.new (payment_words auth amounts)) }
{
    let mut text = [0; PAYMENT];
    let start = write_payment(auth, amounts, &mut text);
    out.extend_from_slice(&text[start..])?;
    Ok(())
}

/// Writes an authorization and amounts at the end of a text, each after a space, and gives the place where they begin.
#[tactic(auto, using(crate::proofs::Payments::payment_text))]
fn write_payment(auth: Auth, amounts: Amounts, text: &mut [u8; PAYMENT]) -> usize
    ensures within { result ≤ 61 }
    ensures written { drop result text.new ≡ behind_spaces (payment_words auth amounts) }
{
    let behind = write_amounts(amounts, text);
    write_digits_of(auth, text, behind)
}

/// Writes a space and the digits of an authorization so that they end at a place of a text, and gives the place where they
/// begin.
fn write_digits_of(auth: Auth, text: &mut [u8; PAYMENT], end: usize) -> usize
    requires room { 17 ≤ end }
    requires within { end ≤ 61 }
    ensures front { result ≤ 61 }
    ensures written { drop result text.new ≡ 32 ∷ (authorization_text auth ++ drop end text.old) }
{
    let first = end - 16;
    text[first..end].copy_from_slice(&auth.digits());
    text[first - 1] = b' ';
    first - 1
}

/// Writes amounts in cents at the end of a text, each after a space, and gives the place where they begin: cost (506-F6),
/// fee (507-F7), the patient's part (505-F5), total (509-F9).
fn write_amounts(amounts: Amounts, text: &mut [u8; PAYMENT]) -> usize
    ensures room { 17 ≤ result }
    ensures within { result ≤ 61 }
    ensures written { drop result text.new ≡ behind_spaces (amount_words amounts) }
{
    let total = write_number(amounts.total(), text, PAYMENT);
    let copay = write_number(amounts.copay(), text, total);
    let fee = write_number(amounts.fee(), text, copay);
    write_number(amounts.cost(), text, fee)
}

/// Writes a space and a number so that they end at a place of a text, and gives the place where they begin.
fn write_number(number: u32, text: &mut [u8; PAYMENT], end: usize) -> usize
    requires room { 11 ≤ end }
    requires within { end ≤ 61 }
    ensures start { end ≤ result + 11 }
    ensures front { result ≤ 61 }
    ensures written { drop result text.new ≡ 32 ∷ (decimal number ++ drop end text.old) }
{
    let first = write_digits(u64::from(number), text, end);
    text[first - 1] = b' ';
    first - 1
}

/// Appends a word of reject codes with a comma between them.
#[tactic(auto, using(std::proofs::lemmas::Result::on_ok_weaker, crate::proofs::Payments::no_codes_join))]
fn put_codes(out: &mut Vec<u8>, codes: &[Code]) -> Result<(), AllocError>
    ensures { OnOk result (AddsWords out.old out.new (codes_word codes.now ∷ [])) }
{
    let [first, others @ ..] = codes else {
        return put_word(out, b"");
    };
    put_word(out, first.text())?;
    put_more_codes(out, others)
}

/// Appends codes with a comma before each.
fn put_more_codes(out: &mut Vec<u8>, codes: &[Code]) -> Result<(), AllocError>
    ensures { OnOk result (out.new.items ≡ out.old.items ++ flat_map (λ code. 44 ∷ code_text code) codes.now) }
{
    for code in codes {
        out.push(b',')?;
        out.extend_from_slice(code.text())?;
    }
    Ok(())
}
