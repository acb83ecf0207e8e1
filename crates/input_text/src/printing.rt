//! Bytes as printed text.

ghost use Rattle.std.specs.Prelude.{◌≡◌, ◌∷◌, [], ◌++◌, ◌+◌, ◌*◌, ◌<◌, ◌≤◌, length, take, nat_le, ◌&&◌, IsTrue, IsFalse, OnOk, OnErr};
ghost use Rattle.input_text.specs.Printing.{hex_digit, printed, printed_byte};

use crate::copying::{LANES, copy_run, stands_for_itself};
use std::alloc::AllocError;

/// The most bytes that one byte is printed as.
const LONGEST: usize = 4;

/// Appends bytes spelled in printable characters.
///
/// 0x20 to 0x7E stand for themselves but for `\`, which is `\\`. The separators 0x1C, 0x1D and 0x1E are `\F`, `\G` and
/// `\S`. Any other byte is `\x` and two lower-case hexadecimal digits. Where memory runs out nothing is appended.
pub fn put_printed(out: &mut Vec<u8>, bytes: &[u8]) -> Result<(), AllocError>
    ensures ok { OnOk result (out.new.items ≡ out.old.items ++ printed bytes.now) }
    ensures err { OnErr result (out.new.items ≡ out.old.items) }
{
    let before = out.len();
    make_room(out, bytes.len())?;
    let end = print(out.as_mut_slice(), before, bytes);
    out.truncate(end);
    Ok(())
}

/// Appends zeros that this many bytes can be printed over.
fn make_room(out: &mut Vec<u8>, count: usize) -> Result<(), AllocError>
    ensures kept { OnOk result (take (length out.old.items) out.new.items ≡ out.old.items) }
    ensures room { OnOk result (length out.old.items + 4 * count ≤ length out.new.items) }
    ensures err { OnErr result (out.new.items ≡ out.old.items) }
{
    let Some(most) = count.checked_mul(LONGEST) else {
        return Err(AllocError);
    };
    let Some(len) = out.len().checked_add(most) else {
        return Err(AllocError);
    };
    out.resize(len, 0)
}

/// Writes bytes as they are printed from a place of `out` on, and gives the place after them.
fn print(out: &mut [u8], from: usize, bytes: &[u8]) -> usize
    requires { from + 4 * length bytes.now ≤ length out.old }
    ensures { take result out.new ≡ take from out.old ++ printed bytes.now }
{
    let mut place = 0;
    let mut end = from;
    while place + LANES <= bytes.len() {
        let run = copy_run(out, end, &bytes[place..]);
        place += run;
        end += run;
        if run == LANES {
            continue;
        }
        let byte = bytes[place];
        end += put_byte(out, end, byte);
        place += 1;
        if is_followed(byte, bytes, place) {
            end += put_byte(out, end, bytes[place]);
            place += 1;
        }
    }
    print_rest(out, end, &bytes[place..])
}

/// Whether a separator stands at a place after a byte. None is looked for after that of fields, which stands most often
/// and before a name.
#[inline(always)]
fn is_followed(byte: u8, bytes: &[u8], place: usize) -> bool
    ensures { IsTrue result → place < length bytes.now }
{
    byte != 0x1C && place < bytes.len() && is_separator(bytes[place])
}

/// The same one byte after another.
fn print_rest(out: &mut [u8], from: usize, bytes: &[u8]) -> usize
    requires { from + 4 * length bytes.now ≤ length out.old }
    ensures { take result out.new ≡ take from out.old ++ printed bytes.now }
{
    let mut end = from;
    for byte in bytes {
        if stands_for_itself(*byte) {
            out[end] = *byte;
            end += 1;
            continue;
        }
        end += put_byte(out, end, *byte);
    }
    end
}

/// Writes a byte as it is printed to a place of `out`, and gives how many bytes that takes.
#[inline(always)]
fn put_byte(out: &mut [u8], at: usize, byte: u8) -> usize
    requires { at + 4 ≤ length out.old }
    ensures text { take (at + result) out.new ≡ take at out.old ++ printed_byte byte }
    ensures most { result ≤ 4 }
    ensures len { length out.new ≡ length out.old }
{
    if is_separator(byte) {
        return put_escaped(out, at, separator_letter(byte));
    }
    put_other(out, at, byte)
}

/// The same for a byte that is no separator.
#[tactic(auto, unfolding(crate::specs::Printing::printed_byte))]
fn put_other(out: &mut [u8], at: usize, byte: u8) -> usize
    requires room { at + 4 ≤ length out.old }
    requires other { IsFalse (nat_le 28 byte && nat_le byte 30) }
    ensures text { take (at + result) out.new ≡ take at out.old ++ printed_byte byte }
    ensures most { result ≤ 4 }
    ensures len { length out.new ≡ length out.old }
{
    match byte {
        b'\\' => put_escaped(out, at, b'\\'),
        0x20..=0x7E => put(out, at, &[byte]),
        _ => put(
            out,
            at,
            &[b'\\', b'x', hex_digit(byte / 16), hex_digit(byte % 16)],
        ),
    }
}

/// Whether a byte is a separator.
fn is_separator(byte: u8) -> bool
    ensures { result ≡ nat_le 28 byte && nat_le byte 30 }
{
    matches!(byte, 0x1C..=0x1E)
}

/// The letter that a separator is printed as, after a backslash.
#[tactic(auto, unfolding(crate::specs::Printing::printed_byte))]
fn separator_letter(byte: u8) -> u8
    requires { IsTrue (nat_le 28 byte && nat_le byte 30) }
    ensures { 92 ∷ result ∷ [] ≡ printed_byte byte }
{
    let letters = *b"FGS";
    letters[usize::from(byte) - 0x1C]
}

/// Writes a text to a place of `out`, and gives how many bytes it has.
#[inline(always)]
fn put(out: &mut [u8], at: usize, text: &[u8]) -> usize
    requires { at + length text.now ≤ length out.old }
    ensures copied { take (at + result) out.new ≡ take at out.old ++ text.now }
    ensures count { result ≡ length text.now }
    ensures len { length out.new ≡ length out.old }
{
    out[at..at + text.len()].copy_from_slice(text);
    text.len()
}

/// Writes a backslash and a letter to a place of `out`, and gives how many bytes they are.
#[inline(always)]
fn put_escaped(out: &mut [u8], at: usize, letter: u8) -> usize
    requires { at + 2 ≤ length out.old }
    ensures text { take (at + result) out.new ≡ take at out.old ++ 92 ∷ letter ∷ [] }
    ensures count { result ≡ 2 }
    ensures len { length out.new ≡ length out.old }
{
    out[at] = b'\\';
    out[at + 1] = letter;
    2
}

/// The lower-case hexadecimal digit of a number.
fn hex_digit(number: u8) -> u8
    requires { number < 16 }
    ensures { result ≡ hex_digit number }
{
    if number < 10 {
        b'0' + number
    } else {
        b'a' + (number - 10)
    }
}
