//! Numbers as tables of reports have them.

ghost use Rattle.std.specs.Prelude.{◌≡◌, decimal, IfOk};
ghost use Rattle.claim_reports.specs.Compared.{auth_digits};
ghost use Rattle.claim_reports.specs.Digits.{filled};
ghost use Rattle.claim_reports.specs.Statement.{below_zero};

use input_text::put_decimal;
use std::alloc::{AllocError, Global};

/// How many digits an authorization number has.
const DIGITS: usize = 16;

/// The digits of an authorization number: filled with zeros to 16.
pub(crate) fn auth_text(alloc: Global, number: u64) -> Result<Vec<u8>, AllocError>
    ensures { IfOk result (λ text. text.items ≡ auth_digits number) }
{
    filled_text(alloc, number, DIGITS)
}

/// A number, filled with zeros to this many digits.
pub(crate) fn filled_text(alloc: Global, number: u64, width: usize) -> Result<Vec<u8>, AllocError>
    ensures { IfOk result (λ text. text.items ≡ filled width number) }
{
    let digits = number_text(alloc, number)?;
    let mut text = Vec::new(alloc);
    text.resize(width.saturating_sub(digits.len()), b'0')?;
    text.extend_from_slice(digits.as_slice())?;
    Ok(text)
}

/// The digits of a number.
fn number_text(alloc: Global, number: u64) -> Result<Vec<u8>, AllocError>
    ensures { IfOk result (λ text. text.items ≡ decimal number) }
{
    let mut text = Vec::new(alloc);
    put_decimal(&mut text, number)?;
    Ok(text)
}

/// Cents that were taken back, as a number below zero.
pub(crate) fn taken_back(alloc: Global, cents: u64) -> Result<Vec<u8>, AllocError>
    ensures { IfOk result (λ text. text.items ≡ below_zero cents) }
{
    let digits = number_text(alloc, cents)?;
    if cents == 0 {
        return Ok(digits);
    }
    let mut text = Vec::new(alloc);
    text.push(b'-')?;
    text.extend_from_slice(digits.as_slice())?;
    Ok(text)
}
