//! Billings and reversals of one transaction, from their parts.

ghost use Rattle.std.specs.Prelude.{◌≡◌, Some, None, IfOk, IfErr, IfSome};
ghost use Rattle.claim_profile.specs.declared.building.BuildFault.TheVariants.{OutOfMemory};
ghost use Rattle.claim_profile.specs.Building.{billing_said, reversal_said, billing_text, reversal_text, is_billing_too_long, is_reversal_too_long, is_fill_too_long, has_separator, billing_fault, reversal_fault, told};

use crate::building_writing::{write_billing, write_reversal};
use d0_header::RequestHeader;
use d0_segments::{FIELD_SEPARATOR, GROUP_SEPARATOR, SEGMENT_SEPARATOR};
use overpunch::Amount;
use std::alloc::{AllocError, Global};
use thiserror::Error;

/// Why a transmission was not written.
#[derive(Clone, Copy, Debug, PartialEq, Eq, Error)]
pub enum BuildFault {
    /// There was no memory for the bytes.
    #[error("out of memory")]
    OutOfMemory,
    /// A part is longer than its field: more than 20 bytes of cardholder, 12 digits of prescription,
    /// 2 of fill, 19 bytes of product or 10 digits of quantity.
    #[error("a cardholder has at most 20 bytes, a prescription 12 digits, a fill 2, a product 19 bytes and a quantity 10 digits")]
    FieldTooLong,
    /// A separator stands in the cardholder or the product.
    #[error("a separator stands in the cardholder or the product")]
    Separator,
}

impl From<AllocError> for BuildFault {
    ghost from_gives = { λ _ e. e ≡ OutOfMemory };

    fn from(_error: AllocError) -> BuildFault {
        BuildFault::OutOfMemory
    }
}

/// What a billing says: a header with code `B1`, count 1 and a day as its date, texts that are not
/// empty and end in no space, and amounts that are not negative.
#[derive(Clone, Copy)]
pub struct BillingParts<'a> {
    pub header: RequestHeader,
    /// Cardholder ID (302-C2).
    pub cardholder: &'a [u8],
    /// Prescription/service reference number (402-D2).
    pub prescription: u64,
    /// Fill number (403-D3).
    pub fill: u8,
    /// Product/service ID (407-D7).
    pub product: &'a [u8],
    /// Quantity dispensed (442-E7), in thousandths of a unit.
    pub quantity: u64,
    /// Ingredient cost submitted (409-D9).
    pub cost: Amount,
    /// Dispensing fee submitted (412-DC).
    pub fee: Amount,
}

/// What a reversal says: a header with code `B2`, count 1 and a day as its date, and a product that
/// is not empty and ends in no space.
#[derive(Clone, Copy)]
pub struct ReversalParts<'a> {
    pub header: RequestHeader,
    /// Prescription/service reference number (402-D2).
    pub prescription: u64,
    /// Fill number (403-D3), which may be left out.
    pub fill: Option<u8>,
    /// Product/service ID (407-D7).
    pub product: &'a [u8],
}

/// The most bytes of a cardholder ID (own).
const CARDHOLDER_LIMIT: usize = 20;

/// The most bytes of a product (own).
const PRODUCT_LIMIT: usize = 19;

/// The first prescription number of more than twelve digits.
const PRESCRIPTION_END: u64 = 1_000_000_000_000;

/// The first fill number of more than two digits.
const FILL_END: u8 = 100;

/// The first quantity of more than ten digits.
const QUANTITY_END: u64 = 10_000_000_000;

/// Writes a billing of one transaction: the insurance segment, and a group of the claim segment and
/// the pricing segment.
///
/// # Errors
/// `FieldTooLong` where a part is longer than its field, else `Separator` where one stands in the
/// cardholder or the product; only parts without either fault need memory.
pub fn billing(alloc: Global, parts: &BillingParts<'_>) -> Result<Vec<u8>, BuildFault>
    ensures text { IfOk result (λ v. v.items ≡ billing_text (billing_said parts.now)) }
    ensures sound { IfOk result (λ v. billing_fault (billing_said parts.now) ≡ None) }
    ensures fault { IfErr result (λ e. billing_fault (billing_said parts.now) ≡ told e) }
{
    match fault_of_billing(parts) {
        Some(fault) => Err(fault),
        None => Ok(write_billing(alloc, parts)?),
    }
}

/// Writes a reversal of one transaction: a group of the claim segment.
///
/// # Errors
/// `FieldTooLong` where a part is longer than its field, else `Separator` where one stands in the
/// product; only parts without either fault need memory.
pub fn reversal(alloc: Global, parts: &ReversalParts<'_>) -> Result<Vec<u8>, BuildFault>
    ensures text { IfOk result (λ v. v.items ≡ reversal_text (reversal_said parts.now)) }
    ensures sound { IfOk result (λ v. reversal_fault (reversal_said parts.now) ≡ None) }
    ensures fault { IfErr result (λ e. reversal_fault (reversal_said parts.now) ≡ told e) }
{
    match fault_of_reversal(parts) {
        Some(fault) => Err(fault),
        None => Ok(write_reversal(alloc, parts)?),
    }
}

/// What is wrong with the parts of a billing.
#[tactic(auto, unfolding(crate::specs::Building::billing_fault))]
fn fault_of_billing(parts: &BillingParts<'_>) -> Option<BuildFault>
    ensures value { result ≡ billing_fault (billing_said parts.now) }
    ensures named { IfSome result (λ e. told e ≡ Some e) }
{
    if is_billing_too_long(parts) {
        return Some(BuildFault::FieldTooLong);
    }
    if has_separator(parts.cardholder) || has_separator(parts.product) {
        return Some(BuildFault::Separator);
    }
    None
}

/// What is wrong with the parts of a reversal.
#[tactic(auto, unfolding(crate::specs::Building::reversal_fault))]
fn fault_of_reversal(parts: &ReversalParts<'_>) -> Option<BuildFault>
    ensures value { result ≡ reversal_fault (reversal_said parts.now) }
    ensures named { IfSome result (λ e. told e ≡ Some e) }
{
    if is_reversal_too_long(parts) {
        return Some(BuildFault::FieldTooLong);
    }
    if has_separator(parts.product) {
        return Some(BuildFault::Separator);
    }
    None
}

/// Whether a part of a billing is longer than its field.
fn is_billing_too_long(parts: &BillingParts<'_>) -> bool
    ensures { result ≡ is_billing_too_long (billing_said parts.now) }
{
    parts.cardholder.len() > CARDHOLDER_LIMIT
        || parts.prescription >= PRESCRIPTION_END
        || parts.fill >= FILL_END
        || parts.product.len() > PRODUCT_LIMIT
        || parts.quantity >= QUANTITY_END
}

/// Whether a part of a reversal is longer than its field.
fn is_reversal_too_long(parts: &ReversalParts<'_>) -> bool
    ensures { result ≡ is_reversal_too_long (reversal_said parts.now) }
{
    parts.prescription >= PRESCRIPTION_END
        || is_fill_too_long(parts.fill)
        || parts.product.len() > PRODUCT_LIMIT
}

/// Whether a fill number, where there is one, has more than two digits.
fn is_fill_too_long(fill: Option<u8>) -> bool
    ensures { result ≡ is_fill_too_long fill }
{
    match fill {
        Some(fill) => fill >= FILL_END,
        None => false,
    }
}

/// Whether a separator stands in these bytes.
fn has_separator(bytes: &[u8]) -> bool
    ensures { result ≡ has_separator bytes.now }
{
    bytes.iter().any(|byte| matches!(*byte, FIELD_SEPARATOR | GROUP_SEPARATOR | SEGMENT_SEPARATOR))
}
