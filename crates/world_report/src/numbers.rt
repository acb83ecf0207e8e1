//! Numbers after a space.

ghost use Rattle.std.specs.Prelude.{◌≡◌, ◌≤◌, ◌<◌, ◌+◌, ◌-◌, ◌^◌, ◌∷◌, [], ◌++◌, decimal, drop, map, OnOk};
ghost use Rattle.world_report.specs.Adding.{AddsWords};
ghost use Rattle.world_report.specs.Heads.{numbers_from};

use crate::backwards::{LINE, byte_before, digits_before};
use std::alloc::AllocError;

/// Appends a space and a number in decimal, in one piece.
#[tactic(auto, using(std::proofs::lemmas::Result::on_ok_weaker, crate::proofs::NextDigits::one_word))]
pub fn put_number(out: &mut Vec<u8>, number: u64) -> Result<(), AllocError>
    ensures { OnOk result (AddsWords out.old out.new (decimal number ∷ [])) }
{
    let mut text = [0; LINE];
    let start = write_number(number, &mut text);
    put_end(out, &text, start)
}

/// Appends the numbers from `first` on, up to the one before `past`, each after a space. The text of one becomes that of the
/// next, of which mostly the last digit is another.
pub(crate) fn put_numbers(out: &mut Vec<u8>, first: u64, past: u64) -> Result<(), AllocError>
    ensures { OnOk result (AddsWords out.old out.new (map decimal (numbers_from first (past - first)))) }
{
    let mut text = [0; LINE];
    let mut start = write_number(first, &mut text);
    for number in first..past {
        put_end(out, &text, start)?;
        start = write_next(number, start, &mut text);
    }
    Ok(())
}

/// Writes a space and a number at the end of a text, and gives the place where they begin.
fn write_number(number: u64, text: &mut [u8; LINE]) -> usize
    ensures within { result ≤ 45 }
    ensures written { drop result text.new ≡ 32 ∷ decimal number }
{
    let digits = digits_before(number, text, LINE);
    byte_before(b' ', text, digits)
}

/// Where a space and a number stand at the end of a text, from `start` on, writes the next number in its place, and gives the
/// place where its space stands.
fn write_next(number: u64, start: usize, text: &mut [u8; LINE]) -> usize
    requires some { number + 1 < 2 ^ 64 }
    requires within { start ≤ 45 }
    requires written { drop start text.old ≡ 32 ∷ decimal number }
    ensures within { result ≤ 45 }
    ensures written { drop result text.new ≡ 32 ∷ decimal (number + 1) }
{
    let last = text[LINE - 1];
    if last < b'9' {
        text[LINE - 1] = last + 1;
        return start;
    }
    write_number(number + 1, text)
}

/// Appends the end of a text, from `start` on.
fn put_end(out: &mut Vec<u8>, text: &[u8; LINE], start: usize) -> Result<(), AllocError>
    requires { start ≤ 45 }
    ensures { OnOk result (out.new.items ≡ out.old.items ++ drop start text.now) }
{
    out.extend_from_slice(&text[start..])?;
    Ok(())
}
