//! Lists of switches, as bytes and as numbers.

ghost use Rattle.std.specs.Prelude.{◌≡◌, IfOk};
ghost use Rattle.pharmacy_journal.specs.Ruling.{bytes_of, numbers_in};

use std::alloc::{AllocError, Global};

/// The numbers of switches that bytes are, two bytes each, the higher first; a byte that is left over is a 0, which is no
/// switch's number.
pub fn switch_numbers(alloc: Global, bytes: &[u8]) -> Result<Vec<u16>, AllocError>
    ensures { IfOk result (λ numbers. numbers.items ≡ numbers_in bytes.now) }
{
    let mut numbers = Vec::new(alloc);
    let mut read = None;
    for byte in bytes {
        match read {
            None => read = Some(*byte),
            Some(high) => {
                numbers.push(u16::from_be_bytes([high, *byte]))?;
                read = None;
            }
        }
    }
    if read.is_some() {
        numbers.push(0)?;
    }
    Ok(numbers)
}

/// The bytes that are these numbers, two for each, the higher first. They are read as these numbers.
#[tactic(auto, using(crate::proofs::Switches::read_back))]
pub fn switch_bytes(alloc: Global, numbers: &[u16]) -> Result<Vec<u8>, AllocError>
    ensures text { IfOk result (λ bytes. bytes.items ≡ bytes_of numbers.now) }
    ensures read { IfOk result (λ bytes. numbers_in bytes.items ≡ numbers.now) }
{
    let bytes = spell(alloc, numbers)?;
    Ok(bytes)
}

/// The bytes of numbers.
fn spell(alloc: Global, numbers: &[u16]) -> Result<Vec<u8>, AllocError>
    ensures { IfOk result (λ bytes. bytes.items ≡ bytes_of numbers.now) }
{
    let mut bytes = Vec::with_capacity(alloc, numbers.len().saturating_mul(2))?;
    for number in numbers {
        bytes.push((*number >> 8) as u8)?;
        bytes.push((*number & 255) as u8)?;
    }
    Ok(bytes)
}
