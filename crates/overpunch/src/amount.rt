//! Signed amounts in cents.

ghost use Rattle.std.specs.Prelude.{◌≡◌, ◌+◌, ◌*◌, ◌^◌, ◌<◌, ◌≤◌, slice_index, IfSome, length, take, drop, SomeIff};
ghost use Rattle.std.specs.Int.RustNames.{unsigned_abs};
ghost use Rattle.overpunch.specs.Amount.{IsAmount, signed, signed_digits, sign_of, last_digit_of, amount_of, amount_text};

use crate::number::{spelled, write_digits};
use std::marker::Model;
use thiserror::Error;

/// An amount in cents, from -99,999,999 to 99,999,999: the picture `s9(6)v99`.
#[derive(Clone, Copy, PartialEq, Eq, PartialOrd, Ord, Hash)]
pub struct Amount {
    cents: i64,
}

impl Model for Amount {
    ghost use Rattle.std.specs.Prelude.{ℤ};
    ghost use Rattle.overpunch.specs.Amount.{IsAmount};

    ghost Value = { ℤ };

    ghost view = { λ amount. amount.cents };

    ghost invariant = { λ amount. IsAmount amount.cents };

    ghost inverse = { λ cents. record { cents = cents } };
}

/// Why a text is no amount.
#[derive(Clone, Copy, Debug, PartialEq, Eq, Error)]
pub enum AmountFault {
    /// There is no byte.
    #[error("the amount is empty")]
    Empty,
    /// There are more than eight bytes.
    #[error("an amount has at most 8 digits")]
    TooLong,
    /// The first byte before the last one that is no digit, by its offset.
    #[error("byte {0} of the amount is no digit")]
    BadDigit(usize),
    /// The last byte is no digit with a sign.
    #[error("the last byte of the amount is no signed digit")]
    BadSign,
}

/// The sign of an amount.
#[derive(Clone, Copy)]
enum Sign {
    /// Zero or more.
    Positive,
    /// Zero or less.
    Negative,
}

/// The last bytes of positive amounts, by their digit.
const POSITIVE: [u8; 10] = *b"{ABCDEFGHI";

/// The last bytes of negative amounts, by their digit.
const NEGATIVE: [u8; 10] = *b"}JKLMNOPQR";

/// The largest amount in cents.
const LARGEST: u64 = 99_999_999;

impl Amount {
    /// The amount of this many cents; none outside -99,999,999 to 99,999,999.
    pub fn new(cents: i64) -> Option<Amount>
        ensures { SomeIff result (IsAmount cents) cents }
    {
        if cents.unsigned_abs() > LARGEST {
            return None;
        }
        Some(Amount { cents })
    }

    /// The amount in cents.
    pub fn cents(self) -> i64
        ensures value { result ≡ self }
        ensures in_range { IsAmount result }
    {
        self.cents
    }

    /// Reads an amount: digits, the last one from the table of signed digits.
    ///
    /// Leading zeros are taken, a plain last digit is positive, and `}` after zeros alone is
    /// zero (own). A text without a byte is `Empty`, one of more than eight bytes `TooLong`;
    /// then the first byte before the last that is no digit makes it `BadDigit`, and a last
    /// byte that is neither in the table nor a digit `BadSign`.
    #[tactic(auto, unfolding(crate::specs::Amount::amount_of))]
    pub fn read(text: &[u8]) -> Result<Amount, AmountFault>
        ensures { result ≡ amount_of text.now }
    {
        let Some((last, front)) = text.split_last() else {
            return Err(AmountFault::Empty);
        };
        if text.len() > 8 {
            return Err(AmountFault::TooLong);
        }
        let tens = match spelled(front) {
            Ok(tens) => tens,
            Err(place) => return Err(AmountFault::BadDigit(place)),
        };
        match last_digit(*last) {
            Some((sign, digit)) => Ok(Amount {
                cents: with_sign(sign, tens * 10 + u64::from(digit)),
            }),
            None => Err(AmountFault::BadSign),
        }
    }

    /// Writes the shortest text of the amount at the front of `text`, and says how many bytes
    /// it has. The bytes after it stay.
    #[tactic(auto, unfolding(crate::specs::Amount::amount_text))]
    pub fn write(self, text: &mut [u8; 8]) -> usize
        ensures length { result ≡ length (amount_text self) }
        ensures written { take result text.new ≡ amount_text self }
        ensures rest { drop result text.new ≡ drop result text.old }
    {
        let magnitude = self.cents.unsigned_abs();
        let places = write_digits(magnitude / 10, text);
        text[places] = last_byte(self.cents, (magnitude % 10) as usize);
        places + 1
    }
}

/// The sign and the digit of an amount's last byte.
fn last_digit(byte: u8) -> Option<(Sign, u8)>
    ensures value { result ≡ last_digit_of byte }
    ensures digit { IfSome result (λ last. last.1 < 10) }
{
    match byte {
        b'0'..=b'9' => Some((Sign::Positive, byte - b'0')),
        b'{' => Some((Sign::Positive, 0)),
        b'A'..=b'I' => Some((Sign::Positive, byte - b'A' + 1)),
        b'}' => Some((Sign::Negative, 0)),
        b'J'..=b'R' => Some((Sign::Negative, byte - b'J' + 1)),
        _ => None,
    }
}

/// The last byte of an amount with this digit.
fn last_byte(cents: i64, digit: usize) -> u8
    requires { digit < 10 }
    ensures { result ≡ slice_index (signed_digits (sign_of cents)) digit }
{
    if cents < 0 {
        NEGATIVE[digit]
    } else {
        POSITIVE[digit]
    }
}

/// The number with the sign.
fn with_sign(sign: Sign, number: u64) -> i64
    requires { number < 2 ^ 63 }
    ensures value { result ≡ signed sign number }
    ensures magnitude { unsigned_abs result ≡ number }
{
    match sign {
        Sign::Positive => number as i64,
        Sign::Negative => -(number as i64),
    }
}
