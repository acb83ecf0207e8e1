//! Numbers as texts of digits.

ghost use Rattle.std.specs.Prelude.{◌≡◌, ◌+◌, ◌^◌, ◌<◌, ◌≤◌, ◌++◌, length, take, drop, slice_index, EachIndex, IfOk};
ghost use Rattle.std.specs.Char.{IsAsciiDigit};
ghost use Rattle.std.specs.Int.Digits.{digits_of};
ghost use Rattle.overpunch.specs.Number.{number_value, first_other, spelled_number, number_of, leading_digits, number_text};

use thiserror::Error;

/// Why a text is no number.
#[derive(Clone, Copy, Debug, PartialEq, Eq, Error)]
pub enum NumberFault {
    /// There is no byte.
    #[error("the number is empty")]
    Empty,
    /// There are more bytes than the field has digits.
    #[error("the number has more digits than its field")]
    TooLong,
    /// The first byte that is no digit, by its offset.
    #[error("byte {0} of the number is no digit")]
    BadDigit(usize),
}

/// Reads a number of at most `digits` digits. Leading zeros are taken.
///
/// A text without a byte is `Empty`, one of more than `digits` bytes `TooLong`, and else the
/// first byte that is no digit makes it `BadDigit`.
#[tactic(auto, unfolding(crate::specs::Number::number_of))]
pub fn read_number(text: &[u8], digits: usize) -> Result<u64, NumberFault>
    requires some { 1 ≤ digits }
    requires room { digits ≤ 18 }
    ensures value { result ≡ number_of digits text.now }
    ensures small { IfOk result (λ number. number < 10 ^ digits) }
{
    if text.is_empty() {
        return Err(NumberFault::Empty);
    }
    if text.len() > digits {
        return Err(NumberFault::TooLong);
    }
    match spelled(text) {
        Ok(number) => Ok(number),
        Err(place) => Err(NumberFault::BadDigit(place)),
    }
}

/// Writes the shortest text of a number at the front of `text`, and says how many bytes it has.
/// The bytes after it stay.
#[tactic(auto, unfolding(crate::specs::Number::number_text))]
pub fn write_number(number: u64, text: &mut [u8; 20]) -> usize
    ensures length { result ≡ length (number_text number) }
    ensures written { take result text.new ≡ number_text number }
    ensures rest { drop result text.new ≡ drop result text.old }
{
    let places = write_digits(number / 10, text);
    text[places] = b'0' + (number % 10) as u8;
    places + 1
}

/// The number that the digits spell, or the place of the first byte that is no digit.
#[tactic(auto, using(std::proofs::lemmas::List::take_all, crate::proofs::Texts::number_value_more, crate::proofs::Texts::digits_more, crate::proofs::Texts::digit_when, crate::proofs::Texts::other_at, crate::proofs::Texts::no_other))]
pub(crate) fn spelled(text: &[u8]) -> Result<u64, usize>
    requires { length text.now ≤ 18 }
    ensures value { result ≡ spelled_number text.now }
    ensures small { IfOk result (λ number. number < 10 ^ length text.now) }
{
    let mut value = 0u64;
    let mut place = 0;
    while place < text.len() {
        let byte = text[place];
        if !byte.is_ascii_digit() {
            return Err(place);
        }
        value = value * 10 + u64::from(byte - b'0');
        place += 1;
    }
    Ok(value)
}

/// Writes the digits of a number, none for zero, at the front of `text`, and counts them.
pub(crate) fn write_digits(number: u64, text: &mut [u8]) -> usize
    requires { length (digits_of 10 number) ≤ length text.old }
    ensures count { result ≡ length (digits_of 10 number) }
    ensures written { text.new ≡ leading_digits number ++ drop result text.old }
{
    if number == 0 {
        return 0;
    }
    if number < 10 {
        text[0] = b'0' + number as u8;
        return 1;
    }
    let places = write_digits(number / 100, text);
    let pair = (number % 100) as u8;
    text[places] = b'0' + pair / 10;
    text[places + 1] = b'0' + pair % 10;
    places + 2
}
