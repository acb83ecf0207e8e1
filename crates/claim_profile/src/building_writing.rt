//! The texts of billings and reversals, piece by piece.

ghost use Rattle.std.specs.Prelude.{◌≡◌, ◌∷◌, ◌++◌, codes, Some, IfOk, OnOk};
ghost use Rattle.overpunch.specs.Number.{number_text};
ghost use Rattle.overpunch.specs.Amount.{amount_text};
ghost use Rattle.d0_segments.specs.Texts.{field_text, segment_text};
ghost use Rattle.claim_profile.specs.Answer.{field, segment};
ghost use Rattle.claim_profile.specs.Building.{billing_said, reversal_said, insurance_segment, dispensing_fields, submitted_segment, billing_text, reversal_text};

use crate::building::{BillingParts, ReversalParts};
use overpunch::{Amount, write_number};
use std::alloc::{AllocError, Global};

/// The longest text of a billing.
const LONGEST: usize = 56 + 6 + 23 + 1 + 6 + 4 + 15 + 5 + 5 + 22 + 13 + 6 + 11 + 11;

/// The text of a billing: the header, the insurance segment, and the group of its transaction.
pub fn write_billing(alloc: Global, parts: &BillingParts<'_>) -> Result<Vec<u8>, AllocError>
    ensures { IfOk result (λ v. v.items ≡ billing_text (billing_said parts.now)) }
{
    let mut text = Vec::with_capacity(alloc, LONGEST)?;
    text.extend_from_slice(&parts.header.to_bytes())?;
    put_insurance(&mut text, parts.cardholder)?;
    put_dispensing(
        &mut text,
        parts.prescription,
        Some(parts.fill),
        parts.product,
    )?;
    put_quantity(&mut text, parts.quantity)?;
    put_pricing(&mut text, parts.cost, parts.fee)?;
    Ok(text)
}

/// The text of a reversal: the header, and the group of its transaction.
pub fn write_reversal(alloc: Global, parts: &ReversalParts<'_>) -> Result<Vec<u8>, AllocError>
    ensures { IfOk result (λ v. v.items ≡ reversal_text (reversal_said parts.now)) }
{
    let mut text = Vec::with_capacity(alloc, LONGEST)?;
    text.extend_from_slice(&parts.header.to_bytes())?;
    put_dispensing(&mut text, parts.prescription, parts.fill, parts.product)?;
    Ok(text)
}

/// Appends the insurance segment (AM04).
#[tactic(auto, using(crate::proofs::AnswerTexts::on_ok, crate::proofs::BuildingTexts::insurance_written))]
fn put_insurance(text: &mut Vec<u8>, cardholder: &[u8]) -> Result<(), AllocError>
    ensures { OnOk result (text.new.items ≡ text.old.items ++ segment_text (insurance_segment cardholder.now)) }
{
    text.extend_from_slice(b"\x1e\x1cAM04\x1cC2")?;
    text.extend_from_slice(cardholder)
}

/// Appends the group separator and the claim segment (AM07), up to the product.
fn put_dispensing(
    text: &mut Vec<u8>,
    prescription: u64,
    fill: Option<u8>,
    product: &[u8],
) -> Result<(), AllocError>
    ensures { OnOk result (text.new.items ≡ text.old.items ++
        (29 ∷ segment_text (segment (codes "07") (dispensing_fields prescription fill product.now)))) }
{
    text.extend_from_slice(b"\x1d\x1e\x1cAM07\x1cEM1\x1cD2")?;
    put_number(text, prescription)?;
    if let Some(fill) = fill {
        text.extend_from_slice(b"\x1cD3")?;
        put_number(text, u64::from(fill))?;
    }
    put_product(text, product)
}

/// Appends the product and its qualifier.
fn put_product(text: &mut Vec<u8>, product: &[u8]) -> Result<(), AllocError>
    ensures { OnOk result (text.new.items ≡ text.old.items ++
        (field_text (field (codes "E1") (codes "03")) ++ field_text (field (codes "D7") product.now))) }
{
    text.extend_from_slice(b"\x1cE103\x1cD7")?;
    text.extend_from_slice(product)
}

/// Appends the quantity.
fn put_quantity(text: &mut Vec<u8>, quantity: u64) -> Result<(), AllocError>
    ensures { OnOk result (text.new.items ≡ text.old.items ++ field_text (field (codes "E7") (number_text quantity))) }
{
    text.extend_from_slice(b"\x1cE7")?;
    put_number(text, quantity)
}

/// Appends the pricing segment (AM11).
#[tactic(auto, using(crate::proofs::AnswerTexts::on_ok_also, crate::proofs::BuildingTexts::submitted_written))]
fn put_pricing(text: &mut Vec<u8>, cost: Amount, fee: Amount) -> Result<(), AllocError>
    ensures { OnOk result (text.new.items ≡ text.old.items ++ segment_text (submitted_segment cost fee)) }
{
    text.extend_from_slice(b"\x1e\x1cAM11\x1cD9")?;
    put_amount(text, cost)?;
    text.extend_from_slice(b"\x1cDC")?;
    put_amount(text, fee)
}

/// Appends a number in its shortest text.
fn put_number(text: &mut Vec<u8>, number: u64) -> Result<(), AllocError>
    ensures { OnOk result (text.new.items ≡ text.old.items ++ number_text number) }
{
    let mut digits = [0; 20];
    let len = write_number(number, &mut digits);
    text.extend_from_slice(&digits[..len])
}

/// Appends an amount in its shortest text.
fn put_amount(text: &mut Vec<u8>, amount: Amount) -> Result<(), AllocError>
    ensures { OnOk result (text.new.items ≡ text.old.items ++ amount_text amount) }
{
    let mut digits = [0; 8];
    let len = amount.write(&mut digits);
    text.extend_from_slice(&digits[..len])
}
