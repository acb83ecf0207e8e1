//! Messages from plain fields.

ghost use Rattle.std.specs.Prelude.{◌≡◌, None, IfOk, IfErr, pos};
ghost use Rattle.claim_profile.specs.Building.{billing_text, reversal_text};
ghost use Rattle.message_making.specs.Judged.{number_fault, wrong_in_billing, wrong_in_reversal};
ghost use Rattle.message_making.specs.PlainFields.{billing_said, fill_said, reversal_said};
ghost use Rattle.message_making.specs.Making.{wrong_told};
ghost use Rattle.message_making.specs.declared.making.MakingFault.TheVariants.{OutOfMemory};

use crate::fields::{PlainBilling, PlainReversal};
use crate::header::header_of;
use crate::judging::{NO_FILL, WrongField, wrong_in_billing, wrong_in_reversal};
use crate::texts::text_in;
use claim_profile::{Amount, BillingParts, ReversalParts, billing, reversal};
use std::alloc::Global;

/// Why a message was not made.
#[derive(Clone, Copy, Debug, PartialEq, Eq)]
pub enum MakingFault {
    /// Memory was refused.
    OutOfMemory,
    /// A field is wrong, and none before it.
    Field(WrongField),
}

/// The billing of these fields, as a pharmacy submits it: it reads back as these fields.
///
/// # Errors
/// The first wrong field, in the order of the message; memory is asked for only where there is none.
pub fn make_billing(alloc: Global, fields: &PlainBilling) -> Result<Vec<u8>, MakingFault>
    ensures sound { IfOk result (λ _. wrong_in_billing fields.now ≡ None) }
    ensures text { IfOk result (λ text. text.items ≡ billing_text (billing_said fields.now)) }
    ensures fault { IfErr result (λ why. wrong_in_billing fields.now ≡ wrong_told why) }
{
    match wrong_in_billing(fields) {
        Some(wrong) => Err(MakingFault::Field(wrong)),
        None => sound_billing(alloc, fields),
    }
}

/// The reversal of these fields, as a pharmacy submits it: it reads back as these fields.
///
/// # Errors
/// The first wrong field, in the order of the message; memory is asked for only where there is none.
pub fn make_reversal(alloc: Global, fields: &PlainReversal) -> Result<Vec<u8>, MakingFault>
    ensures sound { IfOk result (λ _. wrong_in_reversal fields.now ≡ None) }
    ensures text { IfOk result (λ text. text.items ≡ reversal_text (reversal_said fields.now)) }
    ensures fault { IfErr result (λ why. wrong_in_reversal fields.now ≡ wrong_told why) }
{
    match wrong_in_reversal(fields) {
        Some(wrong) => Err(MakingFault::Field(wrong)),
        None => sound_reversal(alloc, fields),
    }
}

/// The billing of fields of which none is wrong.
fn sound_billing(alloc: Global, fields: &PlainBilling) -> Result<Vec<u8>, MakingFault>
    requires { wrong_in_billing fields.now ≡ None }
    ensures text { IfOk result (λ text. text.items ≡ billing_text (billing_said fields.now)) }
    ensures fault { IfErr result (λ why. why ≡ OutOfMemory) }
{
    let parts = BillingParts {
        header: header_of(&fields.header, *b"B1"),
        cardholder: text_in(&fields.cardholder),
        prescription: fields.prescription,
        fill: fields.fill_number,
        product: text_in(&fields.product),
        quantity: fields.quantity,
        cost: amount_of(fields.cost),
        fee: amount_of(fields.fee),
    };
    match billing(alloc, &parts) {
        Ok(text) => Ok(text),
        Err(_) => Err(MakingFault::OutOfMemory),
    }
}

/// The reversal of fields of which none is wrong.
fn sound_reversal(alloc: Global, fields: &PlainReversal) -> Result<Vec<u8>, MakingFault>
    requires { wrong_in_reversal fields.now ≡ None }
    ensures text { IfOk result (λ text. text.items ≡ reversal_text (reversal_said fields.now)) }
    ensures fault { IfErr result (λ why. why ≡ OutOfMemory) }
{
    let parts = ReversalParts {
        header: header_of(&fields.header, *b"B2"),
        prescription: fields.prescription,
        fill: fill_of(fields.fill_number),
        product: text_in(&fields.product),
    };
    match reversal(alloc, &parts) {
        Ok(text) => Ok(text),
        Err(_) => Err(MakingFault::OutOfMemory),
    }
}

/// An amount of cents that has at most eight digits.
fn amount_of(cents: u32) -> Amount
    requires { number_fault 8 cents ≡ None }
    ensures { result ≡ pos cents }
{
    match Amount::new(i64::from(cents)) {
        Some(amount) => amount,
        None => unreachable!(),
    }
}

/// The fill number of a reversal, where it is not left out.
fn fill_of(fill: u8) -> Option<u8>
    ensures { result ≡ fill_said fill }
{
    if fill == NO_FILL { None } else { Some(fill) }
}
