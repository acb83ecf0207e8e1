//! Reading printed text back as bytes.

ghost use Rattle.std.specs.Prelude.{◌≡◌, ◌<◌, ◌≤◌, ◌+◌, ◌^◌, ℕ, All, IfSome, List, MatchResult, Some, Ok, Err, ◌∷◌, length, take, drop};
ghost use Rattle.input_text.specs.declared.unprinting.PrintedFault.TheVariants.{OutOfMemory};
ghost use Rattle.input_text.specs.Printing.{escaped, first_spelling, hex_value, printed, spelling_behind_x, unprinted};
ghost use Rattle.input_text.specs.Unprinting.{FailsFor};

use crate::copying::{LANES, copy_run};
use std::alloc::{AllocError, AllocFailed, Global};
use thiserror::Error;

/// Why a printed text could not be read.
#[derive(Clone, Copy, Debug, PartialEq, Eq, Error)]
pub enum PrintedFault {
    /// There is no memory for the bytes.
    #[error("out of memory")]
    OutOfMemory,
    /// No spelling of a byte begins at this place, counted from 0; the text before it is good.
    #[error("no byte is spelled at place {0}")]
    BadByte(usize),
}

impl From<AllocError> for PrintedFault {
    ghost from_gives = { λ _ e. e ≡ OutOfMemory };

    fn from(_e: AllocError) -> PrintedFault {
        PrintedFault::OutOfMemory
    }
}

impl<T: Drop> From<AllocFailed<T>> for PrintedFault {
    ghost from_gives = { λ _ e. e ≡ OutOfMemory };

    fn from(_e: AllocFailed<T>) -> PrintedFault {
        PrintedFault::OutOfMemory
    }
}

/// The bytes that a printed text spells.
///
/// It takes each spelling that `put_printed` writes, and `\x` with two hexadecimal digits of either case for every byte.
pub fn unprint(alloc: Global, text: &[u8]) -> Result<Vec<u8>, PrintedFault>
    ensures { MatchResult result (λ v. unprinted text.now ≡ Ok v.items) (λ e. FailsFor e (unprinted text.now)) }
{
    let mut bytes = Vec::new(alloc);
    unprint_into(&mut bytes, text)?;
    Ok(bytes)
}

/// Puts the bytes that a printed text spells, as [`unprint`] reads them, in the place of those that stand in `bytes`, whose
/// memory is used again. After an error nothing is known of what stands there.
pub fn unprint_into(bytes: &mut Vec<u8>, text: &[u8]) -> Result<(), PrintedFault>
    ensures { MatchResult result (λ _. unprinted text.now ≡ Ok bytes.new.items) (λ e. FailsFor e (unprinted text.now)) }
{
    bytes.resize(text.len(), 0)?;
    match unprint_over(bytes.as_mut_slice(), text) {
        Ok(end) => {
            bytes.truncate(end);
            Ok(())
        }
        Err(place) => Err(PrintedFault::BadByte(place)),
    }
}

/// Writes the bytes that a printed text spells over `out`, and gives how many they are; or else the place where no
/// spelling of a byte begins.
fn unprint_over(out: &mut [u8], text: &[u8]) -> Result<usize, usize>
    requires { length text.now ≤ length out.old }
    ensures { MatchResult result (λ end. unprinted text.now ≡ Ok (take end out.new))
        (λ place. unprinted text.now ≡ Err place) }
{
    let mut place = 0;
    let mut end = 0;
    while place + LANES < text.len() {
        let run = copy_run(out, end, &text[place..]);
        place += run;
        end += run;
        if run == LANES {
            continue;
        }
        if let Some(separator) = frequent_separator(text[place], text[place + 1]) {
            out[end] = separator;
            end += 1;
            place += 2;
            continue;
        }
        match first_spelling(&text[place..]) {
            Some((byte, size)) => {
                out[end] = byte;
                end += 1;
                place += size;
            }
            None => return Err(place),
        }
        // A separator of segments stands before one of fields.
        if let Some(separator) = separator_at(text, place) {
            out[end] = separator;
            end += 1;
            place += 2;
        }
    }
    while place < text.len() {
        match first_spelling(&text[place..]) {
            Some((byte, size)) => {
                out[end] = byte;
                end += 1;
                place += size;
            }
            None => return Err(place),
        }
    }
    Ok(end)
}

/// The separator of fields or of groups, where the two bytes at a place spell one of these.
#[inline(always)]
fn separator_at(text: &[u8], place: usize) -> Option<u8>
    requires { place ≤ length text.now }
    ensures spelled { IfSome result (λ separator. first_spelling (drop place text.now) ≡ Some (separator, 2)) }
    ensures within { IfSome result (λ _. place + 2 ≤ length text.now) }
{
    match &text[place..] {
        [byte, letter, ..] => frequent_separator(*byte, *letter),
        _ => None,
    }
}

/// The separator of fields or of groups, where two bytes spell one of these, the two that stand most often.
#[inline(always)]
#[tactic(auto, unfolding(crate::specs::Printing::first_spelling, crate::specs::Printing::escaped))]
fn frequent_separator(byte: u8, letter: u8) -> Option<u8>
    ensures { IfSome result (λ separator. (rest : List ℕ)
        → first_spelling (byte ∷ letter ∷ rest) ≡ Some (separator, 2)) }
{
    if byte == b'\\' && matches!(letter, b'F'..=b'G') {
        Some(letter - b'F' + 0x1C)
    } else {
        None
    }
}

/// The byte that the spelling at the front of a text stands for, and the length of that spelling.
#[inline(always)]
#[tactic(auto, unfolding(crate::specs::Printing::first_spelling))]
fn first_spelling(text: &[u8]) -> Option<(u8, usize)>
    ensures value { result ≡ first_spelling text.now }
    ensures size { IfSome result (λ spelling. (0 < spelling.1) × (spelling.1 ≤ length text.now)) }
{
    match text {
        [b'\\', rest @ ..] => escaped(rest),
        [byte @ 0x20..=0x7E, ..] => Some((*byte, 1)),
        _ => None,
    }
}

/// The same for a text after a backslash.
#[inline(always)]
#[tactic(auto, unfolding(crate::specs::Printing::escaped))]
fn escaped(text: &[u8]) -> Option<(u8, usize)>
    ensures value { result ≡ escaped text.now }
    ensures size { IfSome result (λ spelling. (0 < spelling.1) × (spelling.1 ≤ length text.now + 1)) }
{
    match text {
        [b'\\', ..] => Some((b'\\', 2)),
        [b'F', ..] => Some((0x1C, 2)),
        [b'G', ..] => Some((0x1D, 2)),
        [b'S', ..] => Some((0x1E, 2)),
        [b'x', rest @ ..] => spelling_behind_x(rest),
        _ => None,
    }
}

/// The same for a text after `\x`.
#[inline(never)]
fn spelling_behind_x(text: &[u8]) -> Option<(u8, usize)>
    ensures value { result ≡ spelling_behind_x text.now }
    ensures size { IfSome result (λ spelling. (0 < spelling.1) × (spelling.1 ≤ length text.now + 2)) }
{
    match text {
        [high, low, ..] => Some((16 * hex_value(*high)? + hex_value(*low)?, 4)),
        _ => None,
    }
}

/// What a hexadecimal digit of either case stands for.
#[tactic(auto, unfolding(crate::specs::Printing::hex_value))]
fn hex_value(digit: u8) -> Option<u8>
    ensures value { result ≡ hex_value digit }
    ensures bound { IfSome result (λ value. value < 16) }
{
    match digit {
        b'0'..=b'9' => Some(digit - b'0'),
        b'a'..=b'f' => Some(digit - b'a' + 10),
        b'A'..=b'F' => Some(digit - b'A' + 10),
        _ => None,
    }
}

/// Every list of bytes is read back from its printed text.
pub fn printed_reads_back()
    ensures { (bytes : List ℕ) → All (λ b. b < 2 ^ 8) bytes → unprinted (printed bytes) ≡ Ok bytes }
{}
