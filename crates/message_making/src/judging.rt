//! What is wrong with the fields of a message.

ghost use Rattle.std.specs.Prelude.{◌≡◌};
ghost use Rattle.std.specs.List.{list_all};
ghost use Rattle.d0_header.specs.Field.{is_digit};
ghost use Rattle.claim_profile.specs.Building.{ends_in_space, has_separator};
ghost use Rattle.message_making.specs.Judged.{are_digits, below_fault, date_fault, digits_fault, end_fault, fill_fault, first_of, in_field, plain_fault, text_fault, wrong_in_billing, wrong_in_header, wrong_in_reversal};

use crate::fields::{PlainBilling, PlainHeader, PlainReversal};
use crate::texts::{exact, text_in};
use d0_header::is_date;

/// What is wrong with a field.
#[derive(Clone, Copy, Debug, PartialEq, Eq)]
pub enum FieldFault {
    /// A text has no byte.
    Empty,
    /// A text has more bytes than its field, or a number more digits.
    TooLong,
    /// A separator stands in a text.
    Separator,
    /// A text ends in a space, which would not come back.
    TrailingSpace,
    /// Digits are wanted, and just this many.
    NotDigits,
    /// The calendar has no such day.
    NoDay,
}

/// A field that is wrong.
#[derive(Clone, Copy, Debug, PartialEq, Eq)]
pub struct WrongField {
    /// The field's number: 302 of the cardholder ID (302-C2).
    pub number: u32,
    /// What is wrong with it.
    pub why: FieldFault,
}

/// The number that says that a fill number is left out.
pub(crate) const NO_FILL: u8 = 255;

/// The first wrong field of a billing.
#[tactic(auto, unfolding(crate::specs::Judged::wrong_in_billing))]
pub(crate) fn wrong_in_billing(fields: &PlainBilling) -> Option<WrongField>
    ensures { result ≡ wrong_in_billing fields.now }
{
    first_of(&[
        wrong_in_header(&fields.header),
        in_field(302, text_fault(20, text_in(&fields.cardholder))),
        in_field(402, below_fault(1_000_000_000_000, fields.prescription)),
        in_field(403, below_fault(100, u64::from(fields.fill_number))),
        in_field(407, text_fault(19, text_in(&fields.product))),
        in_field(442, below_fault(10_000_000_000, fields.quantity)),
        in_field(409, below_fault(100_000_000, u64::from(fields.cost))),
        in_field(412, below_fault(100_000_000, u64::from(fields.fee))),
    ])
}

/// The first wrong field of a reversal.
#[tactic(auto, unfolding(crate::specs::Judged::wrong_in_reversal))]
pub(crate) fn wrong_in_reversal(fields: &PlainReversal) -> Option<WrongField>
    ensures { result ≡ wrong_in_reversal fields.now }
{
    first_of(&[
        wrong_in_header(&fields.header),
        in_field(402, below_fault(1_000_000_000_000, fields.prescription)),
        in_field(403, fill_fault(fields.fill_number)),
        in_field(407, text_fault(19, text_in(&fields.product))),
    ])
}

/// The first wrong field of a header.
#[tactic(auto, unfolding(crate::specs::Judged::wrong_in_header))]
fn wrong_in_header(fields: &PlainHeader) -> Option<WrongField>
    ensures { result ≡ wrong_in_header fields.now }
{
    first_of(&[
        in_field(101, digits_fault(6, text_in(&fields.bin))),
        in_field(104, plain_fault(10, text_in(&fields.pcn))),
        in_field(202, plain_fault(2, text_in(&fields.qualifier))),
        in_field(201, plain_fault(15, text_in(&fields.provider))),
        in_field(401, date_fault(text_in(&fields.date))),
        in_field(110, plain_fault(10, text_in(&fields.vendor))),
    ])
}

/// The first that is there.
fn first_of(found: &[Option<WrongField>]) -> Option<WrongField>
    ensures { result ≡ first_of found.now }
{
    for one in found {
        if let Some(wrong) = *one {
            return Some(wrong);
        }
    }
    None
}

/// A fault of the field of this number.
fn in_field(number: u32, fault: Option<FieldFault>) -> Option<WrongField>
    ensures { result ≡ in_field number fault }
{
    match fault {
        Some(why) => Some(WrongField { number, why }),
        None => None,
    }
}

/// What is wrong with a text that has to be this many digits.
fn digits_fault(width: usize, text: &[u8]) -> Option<FieldFault>
    ensures { result ≡ digits_fault width text.now }
{
    if are_digits(width, text) {
        None
    } else {
        Some(FieldFault::NotDigits)
    }
}

/// Whether a text is this many digits.
fn are_digits(width: usize, text: &[u8]) -> bool
    ensures { result ≡ are_digits width text.now }
{
    text.len() == width && all_digits(text)
}

/// Whether every byte is a digit.
fn all_digits(text: &[u8]) -> bool
    ensures { result ≡ list_all is_digit text.now }
{
    text.iter().all(|byte| byte.is_ascii_digit())
}

/// What is wrong with a date.
fn date_fault(text: &[u8]) -> Option<FieldFault>
    ensures { result ≡ date_fault text.now }
{
    if !are_digits(8, text) {
        return Some(FieldFault::NotDigits);
    }
    let date: [u8; 8] = exact(text);
    if is_date(&date) {
        None
    } else {
        Some(FieldFault::NoDay)
    }
}

/// What is wrong with a text of at most this many bytes.
fn plain_fault(width: usize, text: &[u8]) -> Option<FieldFault>
    ensures { result ≡ plain_fault width text.now }
{
    if text.len() > width {
        return Some(FieldFault::TooLong);
    }
    if has_separator(text) {
        return Some(FieldFault::Separator);
    }
    None
}

/// What is wrong with a text that has to be there, of at most this many bytes.
fn text_fault(width: usize, text: &[u8]) -> Option<FieldFault>
    ensures { result ≡ text_fault width text.now }
{
    if text.is_empty() {
        return Some(FieldFault::Empty);
    }
    if text.len() > width {
        return Some(FieldFault::TooLong);
    }
    if has_separator(text) {
        return Some(FieldFault::Separator);
    }
    end_fault(text)
}

/// What is wrong with the end of a text.
fn end_fault(text: &[u8]) -> Option<FieldFault>
    ensures { result ≡ end_fault text.now }
{
    if ends_in_space(text) {
        Some(FieldFault::TrailingSpace)
    } else {
        None
    }
}

/// Whether a text ends in a space.
fn ends_in_space(text: &[u8]) -> bool
    ensures { result ≡ ends_in_space text.now }
{
    match text.last() {
        Some(byte) => *byte == b' ',
        None => false,
    }
}

/// Whether a separator stands in a text.
fn has_separator(text: &[u8]) -> bool
    ensures { result ≡ has_separator text.now }
{
    text.iter().any(|byte| matches!(*byte, 0x1c | 0x1d | 0x1e))
}

/// What is wrong with a number that has to be below this one, the first of more digits.
fn below_fault(end: u64, number: u64) -> Option<FieldFault>
    ensures { result ≡ below_fault end number }
{
    if number >= end {
        Some(FieldFault::TooLong)
    } else {
        None
    }
}

/// What is wrong with a fill number that may be left out.
fn fill_fault(fill: u8) -> Option<FieldFault>
    ensures { result ≡ fill_fault fill }
{
    if fill == NO_FILL {
        return None;
    }
    below_fault(100, u64::from(fill))
}
