//! How a line spells the bytes of a message.

ghost use Rattle.std.specs.Prelude.{◌≡◌, ◌≤◌, ◌<◌, ◌+◌, ◌++◌, [], ◌∷◌, length, is_some, true, Ok, IfOk, OnOk, IfErr, IfSome, MatchResult};
ghost use Rattle.d0_segments.specs.Separators.{begins_with};
ghost use Rattle.input_text.specs.Printing.{unprinted};
ghost use Rattle.message_words.specs.Spelled.{FailsAt, ends_with, hex_at, hex_byte, hex_digit, hex_pair, hex_spelled, spelled_behind, without_first, without_last};
ghost use Rattle.message_words.specs.declared.spelling.SpellingFault.TheVariants.{OutOfMemory};

use input_text::{PrintedFault, unprint};
use std::alloc::{AllocError, Global};

/// How messages are spelled in the input.
#[derive(Clone, Copy, PartialEq, Eq)]
pub enum Spelling {
    /// A message a line, as bytes are printed.
    Printed,
    /// A message a line, two hexadecimal digits a byte, with spaces between bytes or none.
    Hex,
    /// One message, the input's own bytes.
    Raw,
}

/// Why a line spells no bytes.
#[derive(Clone, Copy, PartialEq, Eq)]
pub enum SpellingFault {
    /// Memory was refused.
    OutOfMemory,
    /// No byte is spelled at this place of the line, from 0.
    NoByte(usize),
}

impl From<AllocError> for SpellingFault {
    ghost from_gives = { λ _ e. e ≡ OutOfMemory };

    fn from(_refused: AllocError) -> SpellingFault {
        SpellingFault::OutOfMemory
    }
}

/// The bytes that a line spells in printed bytes.
///
/// # Errors
/// `NoByte` where no byte is spelled, the first such place; `OutOfMemory`.
pub fn printed_bytes(alloc: Global, line: &[u8]) -> Result<Vec<u8>, SpellingFault>
    ensures { MatchResult result (λ v. unprinted line.now ≡ Ok v.items) (λ e. FailsAt e (unprinted line.now)) }
{
    match unprint(alloc, line) {
        Ok(bytes) => Ok(bytes),
        Err(PrintedFault::OutOfMemory) => Err(SpellingFault::OutOfMemory),
        Err(PrintedFault::BadByte(place)) => Err(SpellingFault::NoByte(place)),
    }
}

/// The bytes that a line spells in hexadecimal digits, two a byte, of either case. Spaces may stand before a byte.
///
/// # Errors
/// `NoByte` at the first letter that is no digit, and at the end where a digit is left over; `OutOfMemory`.
#[tactic(auto, unfolding(crate::specs::Spelled::hex_spelled))]
pub fn hex_bytes(alloc: Global, line: &[u8]) -> Result<Vec<u8>, SpellingFault>
    ensures { MatchResult result (λ v. hex_spelled line.now ≡ Ok v.items) (λ e. FailsAt e (hex_spelled line.now)) }
{
    let mut bytes = Vec::with_capacity(alloc, line.len() / 2)?;
    let mut place = 0;
    while place < line.len() {
        let count = take_hex(&mut bytes, line, place)?;
        place += count;
    }
    Ok(bytes)
}

/// Appends the byte that two hexadecimal digits at a place of a line spell, or passes over the space there, and gives how
/// many letters these are.
#[tactic(auto, using(crate::proofs::Hex::from_place, crate::proofs::Hex::space, crate::proofs::Hex::byte))]
fn take_hex(bytes: &mut Vec<u8>, line: &[u8], place: usize) -> Result<usize, SpellingFault>
    requires { place < length line.now }
    ensures some { IfOk result (λ count. 1 ≤ count) }
    ensures room { IfOk result (λ count. place + count ≤ length line.now) }
    ensures spelled { IfOk result (λ count. spelled_behind bytes.new.items (hex_at (place + count) line.now)
        ≡ spelled_behind bytes.old.items (hex_at place line.now)) }
    ensures fault { IfErr result (λ e. FailsAt e (hex_at place line.now)) }
{
    let letters = &line[place..];
    if is_space(letters) {
        return Ok(1);
    }
    match hex_byte(letters) {
        Ok(byte) => {
            put_byte(bytes, byte)?;
            Ok(2)
        }
        Err(behind) => Err(SpellingFault::NoByte(place + behind)),
    }
}

/// Whether a space comes next.
fn is_space(letters: &[u8]) -> bool
    ensures { result ≡ begins_with 32 letters.now }
{
    matches!(letters, [b' ', ..])
}

/// The byte that two hexadecimal digits at the front spell; where they spell none, how many letters stand before the
/// place where a digit is missing.
fn hex_byte(letters: &[u8]) -> Result<u8, usize>
    ensures byte { result ≡ hex_byte letters.now }
    ensures two { OnOk result (2 ≤ length letters.now) }
    ensures place { IfErr result (λ n. n ≤ length letters.now) }
{
    match letters {
        [first, second, ..] => hex_pair(digit_of(*first), digit_of(*second)),
        [first] => hex_pair(digit_of(*first), None),
        [] => Err(0),
    }
}

/// The byte of two digits.
fn hex_pair(high: Option<u8>, low: Option<u8>) -> Result<u8, usize>
    requires high { IfSome high (λ digit. digit < 16) }
    requires low { IfSome low (λ digit. digit < 16) }
    ensures byte { result ≡ hex_pair high low }
    ensures place { IfErr result (λ n. n ≤ 1) }
    ensures both { OnOk result (is_some low ≡ true) }
{
    match (high, low) {
        (Some(high), Some(low)) => Ok(16 * high + low),
        (Some(_), None) => Err(1),
        (None, _) => Err(0),
    }
}

/// Appends a byte.
fn put_byte(bytes: &mut Vec<u8>, byte: u8) -> Result<(), AllocError>
    ensures { OnOk result (bytes.new.items ≡ bytes.old.items ++ byte ∷ []) }
{
    bytes.extend_from_slice(&[byte])
}

/// What a hexadecimal digit of either case stands for.
#[tactic(auto, unfolding(crate::specs::Spelled::hex_digit))]
fn digit_of(letter: u8) -> Option<u8>
    ensures digit { result ≡ hex_digit letter }
    ensures small { IfSome result (λ digit. digit < 16) }
{
    match letter {
        b'0'..=b'9' => Some(letter - b'0'),
        b'a'..=b'f' => Some(letter - b'a' + 10),
        b'A'..=b'F' => Some(letter - b'A' + 10),
        _ => None,
    }
}

/// A message without one byte 0x02 before it and one byte 0x03 after it, and whether each of the two was there.
pub fn unwrapped(bytes: &[u8]) -> (&[u8], bool, bool)
    ensures before { result.1 ≡ begins_with 2 bytes.now }
    ensures behind { result.2 ≡ ends_with 3 (without_first result.1 bytes.now) }
    ensures bytes { result.0.now ≡ without_last result.2 (without_first result.1 bytes.now) }
{
    let (inside, before) = match bytes {
        [0x02, rest @ ..] => (rest, true),
        _ => (bytes, false),
    };
    if is_ended(inside) {
        return (&inside[..inside.len().saturating_sub(1)], before, true);
    }
    (inside, before, false)
}

/// Whether the last byte is 0x03.
fn is_ended(bytes: &[u8]) -> bool
    ensures { result ≡ ends_with 3 bytes.now }
{
    let last = &bytes[bytes.len().saturating_sub(1)..];
    matches!(last, [0x03, ..])
}
