//! Lists of numbers of two bytes, after how many they are.

ghost use Rattle.std.specs.Prelude.{◌≡◌, ◌++◌, IfOk, OnOk};
ghost use Rattle.std.specs.Option.{option_map};
ghost use Rattle.std.specs.List.{AllByRecursion, flat_map};
ghost use Rattle.codec.specs.Codecs.{u16, counted, times};

use crate::putting::put_u16;
use crate::taking::take_u16;
use std::alloc::{AllocError, Global};

/// Puts numbers of two bytes after how many they are, in two bytes. More than 65,535 are refused as memory would be.
pub fn put_u16s(out: &mut Vec<u8>, numbers: &[u16]) -> Result<(), AllocError>
    ensures text { OnOk result (out.new.items ≡ out.old.items ++ (counted u16 u16).text numbers.now) }
    ensures fits { OnOk result ((counted u16 u16).Fits numbers.now) }
{
    if numbers.len() > u16::MAX as usize {
        return Err(AllocError);
    }
    put_u16(out, numbers.len() as u16)?;
    put_each(out, numbers)
}

/// Puts numbers, one after the other.
fn put_each(out: &mut Vec<u8>, numbers: &[u16]) -> Result<(), AllocError>
    ensures text { OnOk result (out.new.items ≡ out.old.items ++ flat_map u16.text numbers.now) }
    ensures fits { OnOk result (AllByRecursion u16.Fits numbers.now) }
{
    for number in numbers {
        put_u16(out, *number)?;
    }
    Ok(())
}

/// The numbers of two bytes at the front, after how many they are, and what follows them; none where they are cut off.
pub fn take_u16s(alloc: Global, bytes: &[u8]) -> Result<Option<(Vec<u16>, &[u8])>, AllocError>
    ensures { IfOk result (λ o. option_map (λ taken. (taken.0.items, taken.1.now)) o ≡ (counted u16 u16).at bytes.now) }
{
    let Some((count, rest)) = take_u16(bytes) else {
        return Ok(None);
    };
    take_each(alloc, count, rest)
}

/// This many numbers at the front, and what follows them; none where they are cut off.
fn take_each(
    alloc: Global,
    count: u16,
    bytes: &[u8],
) -> Result<Option<(Vec<u16>, &[u8])>, AllocError>
    ensures { IfOk result (λ o. option_map (λ taken. (taken.0.items, taken.1.now)) o ≡ times u16 count bytes.now) }
{
    let mut all = Vec::new(alloc);
    let mut rest = bytes;
    for _ in 0..count {
        let Some((one, after)) = take_u16(rest) else {
            return Ok(None);
        };
        all.push(one)?;
        rest = after;
    }
    Ok(Some((all, rest)))
}
