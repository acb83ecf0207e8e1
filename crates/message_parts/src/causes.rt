//! Every cause for which a transaction is rejected.

ghost use Rattle.std.specs.Prelude.{◌≡◌, ◌<◌, ◌≤◌, [], ◌∷◌, ◌++◌, codes, length, map, IfOk, OnOk};
ghost use Rattle.d0_segments.specs.Pieces.{shared_of, groups_of};
ghost use Rattle.d0_segments.specs.FramedParts.{framed_parts};
ghost use Rattle.claim_profile.specs.Fields.{texts_in, values_in};
ghost use Rattle.claim_profile.specs.Order.{number_up_to, text_up_to};
ghost use Rattle.message_parts.specs.Found.{found_seen};
ghost use Rattle.message_parts.specs.Causes.{
  causes_seen,
  code_for,
  condition_seen,
  counted,
  qualified,
  unless_required,
  holding,
  causes_in,
  uncarried_cause,
  claim_conditions,
  reversal_conditions,
  cardholder_condition,
  date_condition,
  prescription_condition,
  fill_condition,
  product_condition,
  quantity_condition,
  cost_condition,
  fee_condition,
  given_fill_condition,
};

use crate::found::Found;
use crate::names::FieldName;
use crate::values::{
    is_bad_amount, is_bad_fee, is_bad_given_fill, is_bad_number, is_bad_text, is_exactly,
};
use claim_profile::{Code, TransactionCode};
use d0_header::{RequestHeader, is_date};
use d0_segments::{Cursor, Framed};
use std::alloc::{AllocError, Global};

/// Why a transaction is rejected: the field that is not good, which has a code, and what stands in it.
#[derive(Clone, Copy)]
pub struct Cause<'a> {
    /// The field that is not good.
    pub field: FieldName,
    /// What stands in it; nothing of the date of service, which stands in the header.
    pub found: Found<'a>,
}

/// The code (511-FB) that tells of a field that is not good; 70 of the transaction code, and of fields that nothing is rejected for.
pub fn code_for(field: FieldName) -> Code
    ensures { result ≡ code_for field }
{
    match field {
        FieldName::Cardholder => Code::Cardholder,
        FieldName::DateOfService => Code::DateOfService,
        FieldName::PrescriptionQualifier => Code::Prescription,
        FieldName::Prescription => Code::Prescription,
        FieldName::FillNumber => Code::FillNumber,
        FieldName::ProductQualifier => Code::Product,
        FieldName::Product => Code::Product,
        FieldName::Quantity => Code::Quantity,
        FieldName::IngredientCost => Code::IngredientCost,
        FieldName::DispensingFee => Code::DispensingFee,
        _ => Code::NotCovered,
    }
}

/// All causes for which the transaction at `place`, from 0, is rejected, in the order in which their codes are told;
/// none where it has an order.
///
/// # Errors
/// Want of memory.
#[tactic(auto, unfolding(crate::specs::Causes::causes_of))]
pub fn all_causes<'a>(
    alloc: Global,
    framed: &Framed<'a, RequestHeader>,
    place: usize,
) -> Result<Vec<Cause<'a>>, AllocError>
    requires { place < length (groups_of framed.now.body.bytes.now) }
    ensures { IfOk result (λ found. causes_seen found.items ≡ causes_in (framed_parts framed.now) place) }
{
    let group = framed.group(place);
    match TransactionCode::read(framed.header().code()) {
        Some(TransactionCode::Billing) => {
            claim_causes(alloc, framed.header(), framed.body(), group)
        }
        Some(TransactionCode::Reversal) => reversal_causes(alloc, framed.header(), group),
        None => uncarried_causes(alloc),
    }
}

/// The cause of a transaction of no kind that is carried.
fn uncarried_causes<'a>(alloc: Global) -> Result<Vec<Cause<'a>>, AllocError>
    ensures { IfOk result (λ found. causes_seen found.items ≡ uncarried_cause ∷ []) }
{
    collect(
        alloc,
        &[condition(true, FieldName::TransactionCode, Found::Nothing)],
    )
}

/// The causes of a claim.
#[tactic(auto, unfolding(crate::specs::Causes::claim_conditions))]
fn claim_causes<'a>(
    alloc: Global,
    header: &RequestHeader,
    shared: Cursor<'a>,
    group: Cursor<'a>,
) -> Result<Vec<Cause<'a>>, AllocError>
    ensures { IfOk result (λ found. causes_seen found.items
        ≡ holding (claim_conditions header.now (shared_of shared.entry.bytes.now) (shared_of group.entry.bytes.now))) }
{
    collect(
        alloc,
        &[
            cardholder(shared),
            date(header),
            prescription(group),
            fill(group),
            product(group),
            quantity(group),
            cost(group),
            fee(group),
        ],
    )
}

/// The causes of a reversal.
#[tactic(auto, unfolding(crate::specs::Causes::reversal_conditions))]
fn reversal_causes<'a>(
    alloc: Global,
    header: &RequestHeader,
    group: Cursor<'a>,
) -> Result<Vec<Cause<'a>>, AllocError>
    ensures { IfOk result (λ found. causes_seen found.items
        ≡ holding (reversal_conditions header.now (shared_of group.entry.bytes.now))) }
{
    collect(
        alloc,
        &[date(header), prescription(group), given_fill(group)],
    )
}

/// The causes whose condition holds.
#[tactic(auto, using(crate::proofs::Conditions::holding_more))]
fn collect<'a>(
    alloc: Global,
    conditions: &[(bool, Cause<'a>)],
) -> Result<Vec<Cause<'a>>, AllocError>
    ensures { IfOk result (λ found. causes_seen found.items ≡ holding (map condition_seen conditions.now)) }
{
    let mut found = Vec::new(alloc);
    for condition in conditions {
        put_holding(&mut found, condition)?;
    }
    Ok(found)
}

/// Adds a cause, where its condition holds.
fn put_holding<'a>(
    found: &mut Vec<Cause<'a>>,
    condition: &(bool, Cause<'a>),
) -> Result<(), AllocError>
    ensures { OnOk result (causes_seen found.new.items
        ≡ causes_seen found.old.items ++ holding (condition_seen condition.now ∷ [])) }
{
    if !condition.0 {
        return Ok(());
    }
    found.push(condition.1)?;
    Ok(())
}

/// A cause of these parts, where this holds.
fn condition<'a>(holds: bool, field: FieldName, found: Found<'a>) -> (bool, Cause<'a>)
    ensures { condition_seen result ≡ counted holds field (found_seen found.entry) }
{
    (holds, Cause { field, found })
}

/// Whether there is not one text of at most this many bytes in this field.
#[tactic(auto, using(crate::proofs::Conditions::required_condition))]
fn text<'a>(
    from: Cursor<'a>,
    at: ([u8; 2], [u8; 2]),
    field: FieldName,
    limit: usize,
) -> (bool, Cause<'a>)
    ensures { condition_seen result
        ≡ unless_required (code_for field) field (text_up_to limit) (texts_in at.0 at.1 (shared_of from.entry.bytes.now)) }
{
    let found = Found::text(from, at.0, at.1);
    condition(is_bad_text(found, limit), field, found)
}

/// Whether there is not one number of at most this many digits in this field.
#[tactic(auto, using(crate::proofs::Conditions::required_condition))]
fn number<'a>(
    from: Cursor<'a>,
    at: ([u8; 2], [u8; 2]),
    field: FieldName,
    digits: usize,
) -> (bool, Cause<'a>)
    requires some { 1 ≤ digits }
    requires room { digits ≤ 18 }
    ensures { condition_seen result
        ≡ unless_required (code_for field) field (number_up_to digits) (values_in at.0 at.1 (shared_of from.entry.bytes.now)) }
{
    let found = Found::value(from, at.0, at.1);
    condition(is_bad_number(found, digits), field, found)
}

/// This condition, beside a qualifier of the claim segment: where that is another one, it is the cause.
#[tactic(auto, using(crate::proofs::Conditions::is_qualifier))]
fn beside<'a>(
    from: Cursor<'a>,
    id: [u8; 2],
    qualifier: FieldName,
    expected: &[u8],
    other: (bool, Cause<'a>),
) -> (bool, Cause<'a>)
    ensures { condition_seen result ≡ qualified (code_for qualifier) expected.now qualifier
        (texts_in (codes "07") id (shared_of from.entry.bytes.now)) (condition_seen other.entry) }
{
    let found = Found::text(from, *b"07", id);
    if is_exactly(found, expected) {
        return other;
    }
    condition(true, qualifier, found)
}

/// 302-C2: one text of 1 to 20 bytes.
#[tactic(auto, unfolding(crate::specs::Causes::cardholder_condition))]
fn cardholder(from: Cursor<'_>) -> (bool, Cause<'_>)
    ensures { condition_seen result ≡ cardholder_condition (shared_of from.entry.bytes.now) }
{
    text(from, (*b"04", *b"C2"), FieldName::Cardholder, 20)
}

/// 401-D1: a day of the calendar. It stands in the header, and not in a segment.
#[tactic(auto, unfolding(crate::specs::Causes::date_condition))]
fn date<'a>(header: &RequestHeader) -> (bool, Cause<'a>)
    ensures { condition_seen result ≡ date_condition header.now }
{
    condition(
        !is_date(&header.date()),
        FieldName::DateOfService,
        Found::Nothing,
    )
}

/// 402-D2: one number of 1 to 12 digits beside the qualifier 455-EM of prescription billing.
#[tactic(auto, unfolding(crate::specs::Causes::prescription_condition))]
fn prescription(from: Cursor<'_>) -> (bool, Cause<'_>)
    ensures { condition_seen result ≡ prescription_condition (shared_of from.entry.bytes.now) }
{
    let given = number(from, (*b"07", *b"D2"), FieldName::Prescription, 12);
    beside(from, *b"EM", FieldName::PrescriptionQualifier, b"1", given)
}

/// 403-D3: one number of 1 or 2 digits.
#[tactic(auto, unfolding(crate::specs::Causes::fill_condition))]
fn fill(from: Cursor<'_>) -> (bool, Cause<'_>)
    ensures { condition_seen result ≡ fill_condition (shared_of from.entry.bytes.now) }
{
    number(from, (*b"07", *b"D3"), FieldName::FillNumber, 2)
}

/// 407-D7: one text of 1 to 19 bytes beside the qualifier 436-E1 of national drug codes.
#[tactic(auto, unfolding(crate::specs::Causes::product_condition))]
fn product(from: Cursor<'_>) -> (bool, Cause<'_>)
    ensures { condition_seen result ≡ product_condition (shared_of from.entry.bytes.now) }
{
    let given = text(from, (*b"07", *b"D7"), FieldName::Product, 19);
    beside(from, *b"E1", FieldName::ProductQualifier, b"03", given)
}

/// 442-E7: one number of 1 to 10 digits.
#[tactic(auto, unfolding(crate::specs::Causes::quantity_condition))]
fn quantity(from: Cursor<'_>) -> (bool, Cause<'_>)
    ensures { condition_seen result ≡ quantity_condition (shared_of from.entry.bytes.now) }
{
    number(from, (*b"07", *b"E7"), FieldName::Quantity, 10)
}

/// 409-D9: one amount that is not negative.
#[tactic(auto, unfolding(crate::specs::Causes::cost_condition), using(crate::proofs::Conditions::required_condition))]
fn cost(from: Cursor<'_>) -> (bool, Cause<'_>)
    ensures { condition_seen result ≡ cost_condition (shared_of from.entry.bytes.now) }
{
    let found = Found::value(from, *b"11", *b"D9");
    condition(is_bad_amount(found), FieldName::IngredientCost, found)
}

/// 412-DC: at most one amount that is not negative.
#[tactic(auto, unfolding(crate::specs::Causes::fee_condition), using(crate::proofs::Conditions::optional_condition))]
fn fee(from: Cursor<'_>) -> (bool, Cause<'_>)
    ensures { condition_seen result ≡ fee_condition (shared_of from.entry.bytes.now) }
{
    let found = Found::value(from, *b"11", *b"DC");
    condition(is_bad_fee(found), FieldName::DispensingFee, found)
}

/// 403-D3 of a reversal: at most one number of 1 or 2 digits.
#[tactic(auto, unfolding(crate::specs::Causes::given_fill_condition), using(crate::proofs::Conditions::optional_condition))]
fn given_fill(from: Cursor<'_>) -> (bool, Cause<'_>)
    ensures { condition_seen result ≡ given_fill_condition (shared_of from.entry.bytes.now) }
{
    let found = Found::value(from, *b"07", *b"D3");
    condition(is_bad_given_fill(found), FieldName::FillNumber, found)
}
