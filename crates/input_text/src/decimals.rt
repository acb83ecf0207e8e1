//! Decimal words, read and written.

ghost use Rattle.std.specs.Prelude.{◌≡◌, ◌++◌, ◌≤◌, decimal, length, IsTrue, OnOk, OnErr};
ghost use Rattle.std.specs.List.{list_all};
ghost use Rattle.input_text.specs.Decimals.{decimal_number, decimal_value, is_digit};

use itoa::Buffer;
use std::alloc::AllocError;

/// The number that a word of 1 to `max_digits` decimal digits spells; None for any other word.
///
/// Leading zeros are taken. Signs, points and other spellings are not.
pub fn read_decimal(word: &[u8], max_digits: usize) -> Option<u64>
    requires { max_digits ≤ 18 }
    ensures { result ≡ decimal_number max_digits word.now }
{
    if word.is_empty() || word.len() > max_digits || !are_digits(word) {
        return None;
    }
    Some(value_of(word))
}

fn are_digits(word: &[u8]) -> bool
    ensures { result ≡ list_all is_digit word.now }
{
    word.iter().all(u8::is_ascii_digit)
}

/// The number that digits spell.
#[tactic(auto, using(crate::proofs::Places::digit_at, crate::proofs::Places::below_more_places, crate::proofs::Places::few_places))]
fn value_of(digits: &[u8]) -> u64
    requires digits { IsTrue (list_all is_digit digits.now) }
    requires few { length digits.now ≤ 18 }
    ensures { result ≡ decimal_value digits.now }
{
    let mut value = 0;
    for digit in digits {
        value = value * 10 + u64::from(*digit - b'0');
    }
    value
}

/// Appends the shortest decimal text of a number.
pub fn put_decimal(out: &mut Vec<u8>, number: u64) -> Result<(), AllocError>
    ensures ok { OnOk result (out.new.items ≡ out.old.items ++ decimal number) }
    ensures err { OnErr result (out.new.items ≡ out.old.items) }
{
    let mut buffer = Buffer::new();
    out.extend_from_slice(buffer.format(number).as_bytes())
}
