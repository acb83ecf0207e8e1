//! Tests of the values that fields have.

ghost use Rattle.std.specs.Prelude.{◌≡◌, ◌≤◌, ◌^◌, ◌<◌, is_some, option_and_then, option_map, IfSome};
ghost use Rattle.std.specs.Result.{result_ok};
ghost use Rattle.overpunch.specs.Amount.{amount_of};
ghost use Rattle.claim_profile.specs.Tally.{seen, the_one};
ghost use Rattle.claim_profile.specs.Order.{text_up_to, number_up_to, amount_in_cents, the_text};
ghost use Rattle.claim_profile.specs.OrderSeen.{optional_seen};
ghost use Rattle.claim_profile.specs.Money.{largest};

use crate::found::Found;
use crate::texts::Text;
use overpunch::{Amount, number_in_range, read_number};

/// The one value as a text of at most `N` bytes.
pub fn text<const N: usize>(found: Found<'_>) -> Option<Text<N>>
    ensures { result ≡ option_and_then (text_up_to N) (the_one (seen found.entry)) }
{
    Text::new(found.one()?)
}

/// The one value as a number of at most `digits` digits.
pub fn number(found: Found<'_>, digits: usize) -> Option<u64>
    requires some { 1 ≤ digits }
    requires room { digits ≤ 18 }
    ensures value { result ≡ option_and_then (number_up_to digits) (the_one (seen found.entry)) }
    ensures range { IfSome result (λ n. n < 10 ^ digits) }
{
    number_in_range();
    read_number(found.one()?, digits).ok()
}

/// The one value as a fill number (403-D3), of one or two digits.
pub fn fill_number(found: Found<'_>) -> Option<u8>
    ensures { result ≡ option_and_then (number_up_to 2) (the_one (seen found.entry)) }
{
    u8::try_from(number(found, 2)?).ok()
}

/// The one value as an amount.
fn amount(found: Found<'_>) -> Option<Amount>
    ensures { result ≡ option_and_then (λ value. result_ok (amount_of value)) (the_one (seen found.entry)) }
{
    Amount::read(found.one()?).ok()
}

/// The one value as an amount that is not negative, in cents.
pub fn cents(found: Found<'_>) -> Option<u32>
    ensures value { result ≡ option_and_then amount_in_cents (the_one (seen found.entry)) }
    ensures range { IfSome result (λ n. n ≤ largest) }
{
    u32::try_from(amount(found)?.cents()).ok()
}

/// The one value as an amount that is not negative, in cents; 0 where there is none.
pub fn cents_if_given(found: Found<'_>) -> Option<u32>
    ensures value { result ≡ optional_seen 0 amount_in_cents (seen found.entry) }
    ensures range { IfSome result (λ n. n ≤ largest) }
{
    match found {
        Found::Nothing => Some(0),
        Found::One(_) | Found::Several => cents(found),
    }
}

/// Whether there is one value, and it is this one.
pub fn is_exactly(found: Found<'_>, expected: &[u8]) -> bool
    ensures { result ≡ is_some (option_and_then (the_text expected.now) (the_one (seen found.entry))) }
{
    match found.one() {
        Some(value) => value == expected,
        None => false,
    }
}
