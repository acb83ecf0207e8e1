//! Tests of the values that stand in fields.

ghost use Rattle.std.specs.Prelude.{◌≡◌, ◌≤◌, None, is_none, is_some};
ghost use Rattle.claim_profile.specs.Order.{text_up_to, number_up_to, amount_in_cents, the_text};
ghost use Rattle.claim_profile.specs.OrderSeen.{required_seen, optional_seen};
ghost use Rattle.message_parts.specs.Causes.{given_number};
ghost use Rattle.message_parts.specs.Found.{found_seen};

use crate::found::Found;
use overpunch::{Amount, read_number};

/// Whether there is not exactly one value, or it has more bytes than this.
pub(crate) fn is_bad_text(found: Found<'_>, limit: usize) -> bool
    ensures { result ≡ is_none (required_seen (text_up_to limit) (found_seen found.entry)) }
{
    match found {
        Found::One(value) => value.len() > limit,
        Found::Nothing | Found::Several => true,
    }
}

/// Whether there is not exactly one value, or it is no number of at most this many digits.
pub(crate) fn is_bad_number(found: Found<'_>, digits: usize) -> bool
    requires some { 1 ≤ digits }
    requires room { digits ≤ 18 }
    ensures { result ≡ is_none (required_seen (number_up_to digits) (found_seen found.entry)) }
{
    match found {
        Found::One(value) => read_number(value, digits).is_err(),
        Found::Nothing | Found::Several => true,
    }
}

/// Whether there is not exactly one value, or it is no amount, or a negative one.
pub(crate) fn is_bad_amount(found: Found<'_>) -> bool
    ensures { result ≡ is_none (required_seen amount_in_cents (found_seen found.entry)) }
{
    match found {
        Found::One(value) => is_no_amount(value),
        Found::Nothing | Found::Several => true,
    }
}

/// The same for a fee, which may be left out.
pub(crate) fn is_bad_fee(found: Found<'_>) -> bool
    ensures { result ≡ is_none (optional_seen 0 amount_in_cents (found_seen found.entry)) }
{
    match found {
        Found::Nothing => false,
        Found::One(_) | Found::Several => is_bad_amount(found),
    }
}

/// The same for a fill number of one or two digits that may be left out.
pub(crate) fn is_bad_given_fill(found: Found<'_>) -> bool
    ensures { result ≡ is_none (optional_seen None given_number (found_seen found.entry)) }
{
    match found {
        Found::Nothing => false,
        Found::One(_) | Found::Several => is_bad_number(found, 2),
    }
}

/// Whether there is one value, and it is this one.
pub(crate) fn is_exactly(found: Found<'_>, expected: &[u8]) -> bool
    ensures { result ≡ is_some (required_seen (the_text expected.now) (found_seen found.entry)) }
{
    match found {
        Found::One(value) => value == expected,
        Found::Nothing | Found::Several => false,
    }
}

/// Whether a value is no amount, or a negative one.
fn is_no_amount(value: &[u8]) -> bool
    ensures { result ≡ is_none (amount_in_cents value.now) }
{
    match Amount::read(value) {
        Ok(amount) => amount.cents() < 0,
        Err(_) => true,
    }
}
