//! Short texts that are written from their end, and so appended in one piece.

ghost use Rattle.std.specs.Prelude.{◌≡◌, ◌≤◌, ◌+◌, ◌∷◌, ◌++◌, drop, decimal};

use itoa::write_digits;

/// The room for the longest of them: the line of an event that sent one packet, which has two numbers of at most twenty
/// digits, ` ok ` and a newline.
pub(crate) const LINE: usize = 45;

/// Writes a byte before a place of a text, and gives its place.
#[inline(always)]
pub(crate) fn byte_before(byte: u8, text: &mut [u8; LINE], place: usize) -> usize
    requires some { 1 ≤ place }
    requires within { place ≤ 45 }
    ensures place { result + 1 ≡ place }
    ensures written { drop result text.new ≡ byte ∷ drop place text.old }
{
    text[place - 1] = byte;
    place - 1
}

/// Writes the digits of a number before a place of a text, and gives the place where they begin.
#[inline(always)]
pub(crate) fn digits_before(number: u64, text: &mut [u8; LINE], place: usize) -> usize
    requires room { 20 ≤ place }
    requires within { place ≤ 45 }
    ensures start { place ≤ result + 20 }
    ensures front { result ≤ 45 }
    ensures written { drop result text.new ≡ decimal number ++ drop place text.old }
{
    write_digits(number, text, place)
}
