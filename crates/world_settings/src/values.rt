//! What the value at a key of a table is.

ghost use Rattle.std.specs.Prelude.{◌≡◌, ◌≤◌, IfSome};
ghost use Rattle.std.specs.Option.{option_map};
ghost use Rattle.toml.specs.Data.{get_member, as_str};
ghost use Rattle.toml.specs.View.{view, table_view};
ghost use Rattle.world_settings.specs.Values.{filled, number, number_at, number_or, text_at, within};

use toml::{Table, Value};

/// The most of a number of 16 bits.
const MOST_SHORT: u64 = 65_535;
/// The most of a number of 32 bits.
const MOST_WORD: u64 = 4_294_967_295;

/// The value at a key.
pub(crate) fn value_at<'a>(table: &'a Table, key: &str) -> Option<&'a Value>
    ensures { option_map (λ value. view value.now) result ≡ get_member key.now (table_view table.now) }
{
    table.get(key)
}

/// The number that an integer is, from 0 to `most`.
fn within(number: i64, most: u64) -> Option<u64>
    ensures value { result ≡ within most number }
    ensures bound { IfSome result (λ number. number ≤ most) }
{
    if number < 0 || number as u64 > most {
        return None;
    }
    Some(number as u64)
}

/// The number that a value is, from 0 to `most`; a value of another type is none.
pub(crate) fn number(value: &Value, most: u64) -> Option<u64>
    ensures value { result ≡ number most (view value.now) }
    ensures bound { IfSome result (λ number. number ≤ most) }
{
    match value.as_integer() {
        Some(integer) => within(integer, most),
        None => None,
    }
}

/// The number of 16 bits that a value is.
pub(crate) fn short(value: &Value) -> Option<u16>
    ensures { result ≡ number 65535 (view value.now) }
{
    match number(value, MOST_SHORT) {
        Some(number) => Some(number as u16),
        None => None,
    }
}

/// The number of 32 bits that a value is.
pub(crate) fn word(value: &Value) -> Option<u32>
    ensures { result ≡ number 4294967295 (view value.now) }
{
    match number(value, MOST_WORD) {
        Some(number) => Some(number as u32),
        None => None,
    }
}

/// The number at a key, from 0 to `most`.
pub(crate) fn number_at(table: &Table, key: &str, most: u64) -> Option<u64>
    ensures value { result ≡ number_at key.now most (table_view table.now) }
    ensures bound { IfSome result (λ number. number ≤ most) }
{
    match value_at(table, key) {
        Some(value) => number(value, most),
        None => None,
    }
}

/// The number of 16 bits at a key.
pub(crate) fn short_at(table: &Table, key: &str) -> Option<u16>
    ensures { result ≡ number_at key.now 65535 (table_view table.now) }
{
    match value_at(table, key) {
        Some(value) => short(value),
        None => None,
    }
}

/// The number of 32 bits at a key.
pub(crate) fn word_at(table: &Table, key: &str) -> Option<u32>
    ensures { result ≡ number_at key.now 4294967295 (table_view table.now) }
{
    match value_at(table, key) {
        Some(value) => word(value),
        None => None,
    }
}

/// The number at a key, from 0 to `most`, or the default where the key is not there.
pub(crate) fn number_or(table: &Table, key: &str, default: u64, most: u64) -> Option<u64>
    ensures { result ≡ number_or default most (get_member key.now (table_view table.now)) }
{
    match value_at(table, key) {
        Some(value) => number(value, most),
        None => Some(default),
    }
}

/// The text at a key.
pub(crate) fn text_at<'a>(table: &'a Table, key: &str) -> Option<&'a str>
    ensures { option_map (λ text. text.now) result ≡ text_at key.now (table_view table.now) }
{
    match value_at(table, key) {
        Some(value) => value.as_str(),
        None => None,
    }
}

/// A text of at most two bytes, filled with spaces.
#[tactic(auto, unfolding(crate::specs::Values::filled))]
pub(crate) fn filled_to_2(text: &[u8]) -> Option<[u8; 2]>
    ensures { result ≡ filled 2 text.now }
{
    if text.len() > 2 {
        return None;
    }
    let mut field = [b' '; 2];
    field[..text.len()].copy_from_slice(text);
    Some(field)
}

/// A text of at most fifteen bytes, filled with spaces.
#[tactic(auto, unfolding(crate::specs::Values::filled))]
pub(crate) fn filled_to_15(text: &[u8]) -> Option<[u8; 15]>
    ensures { result ≡ filled 15 text.now }
{
    if text.len() > 15 {
        return None;
    }
    let mut field = [b' '; 15];
    field[..text.len()].copy_from_slice(text);
    Some(field)
}
