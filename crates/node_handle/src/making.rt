//! Messages from plain fields.

ghost use Rattle.std.specs.Prelude.{◌≡◌};
ghost use Rattle.claim_profile.specs.Building.{billing_text, reversal_text};
ghost use Rattle.message_making.specs.Judged.{wrong_in_billing, wrong_in_reversal};
ghost use Rattle.message_making.specs.PlainFields.{billing_said, reversal_said};
ghost use Rattle.message_making.specs.Making.{wrong_told};
ghost use Rattle.node_handle.specs.Messages.{Makes, TellsWrong};

use crate::reading::copy_out;
use crate::refusal::{Refusal, refusal_of_field};
use message_making::{MakingFault, PlainBilling, PlainReversal, make_billing, make_reversal};
use std::alloc::Global;

/// Copies the billing of these fields into a buffer. It reads back as these fields: `made_messages_read_back` of
/// message_making says so.
///
/// # Errors
/// The first wrong field, in the order of the message, with its number in `field`; `ShortBuffer`, or memory was refused. Then
/// the buffer is as it was.
pub fn billing(
    alloc: Global,
    fields: &PlainBilling,
    buffer: &mut [u8],
    size: &mut usize,
    field: &mut u32,
) -> Result<(), Refusal>
    ensures { Makes (wrong_in_billing fields.now) (billing_text (billing_said fields.now)) result
        buffer.old buffer.new size.old size.new field.old field.new }
{
    match make_billing(alloc, fields) {
        Ok(text) => copy_out(text.as_slice(), buffer, size),
        Err(fault) => Err(told(fault, field)),
    }
}

/// Copies the reversal of these fields into a buffer, in the same way.
///
/// # Errors
/// As of `billing`.
pub fn reversal(
    alloc: Global,
    fields: &PlainReversal,
    buffer: &mut [u8],
    size: &mut usize,
    field: &mut u32,
) -> Result<(), Refusal>
    ensures { Makes (wrong_in_reversal fields.now) (reversal_text (reversal_said fields.now)) result
        buffer.old buffer.new size.old size.new field.old field.new }
{
    match make_reversal(alloc, fields) {
        Ok(text) => copy_out(text.as_slice(), buffer, size),
        Err(fault) => Err(told(fault, field)),
    }
}

/// What is wrong, with the number of the field that it is about.
fn told(fault: MakingFault, field: &mut u32) -> Refusal
    ensures { TellsWrong (wrong_told fault) result field.old field.new }
{
    match fault {
        MakingFault::OutOfMemory => Refusal::OutOfMemory,
        MakingFault::Field(wrong) => {
            *field = wrong.number;
            refusal_of_field(wrong.why)
        }
    }
}
