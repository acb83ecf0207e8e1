//! The words of a row's argument.

use case_files::cut;
use envelope::TxnId;
use input_text::{read_decimal, split_word};
use overpunch::Amount;
use payer_book::BookSettings;

/// The first word of a text, and what stands after its space. A text without a space is one word.
pub(crate) fn first_word(text: &[u8]) -> (&[u8], &[u8]) {
    match split_word(text) {
        Some(parts) => parts,
        None => (text, b""),
    }
}

/// The number of at most eighteen digits that stands first, and what stands after its space, where it has one.
pub(crate) fn number_first(argument: &[u8]) -> Option<(u64, &[u8])> {
    let (word, rest) = first_word(argument);
    match read_decimal(word, 18) {
        Some(number) => Some((number, rest)),
        None => None,
    }
}

/// Two numbers, and what stands after them.
pub(crate) fn two_first(argument: &[u8]) -> Option<(u64, u64, &[u8])> {
    match number_first(argument) {
        Some((first, rest)) => match number_first(rest) {
            Some((second, rest)) => Some((first, second, rest)),
            None => None,
        },
        None => None,
    }
}

/// Three numbers that fit 32 bits, with one space between them.
pub(crate) fn three_numbers(argument: &[u8]) -> Option<(u32, u32, u32)> {
    let (first, rest) = split_word(argument)?;
    let (second, third) = split_word(rest)?;
    Some((small(first)?, small(second)?, small(third)?))
}

/// A number that fits 32 bits.
pub(crate) fn small(word: &[u8]) -> Option<u32> {
    match read_decimal(word, 10) {
        Some(number @ 0..=4_294_967_295) => Some(number as u32),
        _ => None,
    }
}

/// A number with or without a sign.
pub(crate) fn signed(text: &[u8]) -> Option<i64> {
    match std::str::from_utf8(text) {
        Ok(text) => match text.parse::<i64>() {
            Ok(number) => Some(number),
            Err(_) => None,
        },
        Err(_) => None,
    }
}

/// A number of at most twenty digits.
pub(crate) fn unsigned(text: &[u8]) -> Option<u64> {
    match std::str::from_utf8(text) {
        Ok(text) => match text.parse::<u64>() {
            Ok(number) => Some(number),
            Err(_) => None,
        },
        Err(_) => None,
    }
}

/// The amount of this many cents.
pub(crate) fn amount_of(cents: u64) -> Option<Amount> {
    match cents {
        0..=99_999_999 => Amount::new(cents as i64),
        _ => None,
    }
}

/// The transaction that two numbers name, where there is one.
pub(crate) fn id_of(pharmacy: u64, number: u64) -> Option<TxnId> {
    match pharmacy {
        0..=65_535 => TxnId::new(pharmacy as u16, number),
        _ => None,
    }
}

/// A transaction, and the text after it: `PHARMACY NUMBER TEXT`.
pub(crate) fn id_first(argument: &[u8]) -> Option<(TxnId, &[u8])> {
    match two_first(argument) {
        Some((pharmacy, number, text)) => match id_of(pharmacy, number) {
            Some(id) => Some((id, text)),
            None => None,
        },
        None => None,
    }
}

/// The id of a request of pharmacy 1, and what stands after its number.
pub(crate) fn numbered(text: &[u8]) -> Option<(TxnId, &[u8])> {
    match number_first(text) {
        Some((number, rest)) => match TxnId::new(1, number) {
            Some(id) => Some((id, rest)),
            None => None,
        },
        None => None,
    }
}

/// The number of a first word `NAMENUMBER`, and what stands after it.
pub(crate) fn named_number<'a>(name: &[u8], text: &'a [u8]) -> Option<(u64, &'a [u8])> {
    let (word, rest) = first_word(text);
    match number_in(name, word) {
        Some(number) => Some((number, rest)),
        None => None,
    }
}

/// The number of a word `NAMENUMBER`.
fn number_in(name: &[u8], word: &[u8]) -> Option<u64> {
    match word.strip_prefix(name) {
        Some(digits) => read_decimal(digits, 18),
        None => None,
    }
}

/// The first serial number and the most rows of a book, and what stands after them.
pub(crate) fn book_settings(text: &[u8]) -> Option<(BookSettings, &[u8])> {
    match named_number(b"serial=", text) {
        Some((serial, rest)) => settings_from(serial, rest),
        None => None,
    }
}

/// The same after the first serial number.
fn settings_from(serial: u64, text: &[u8]) -> Option<(BookSettings, &[u8])> {
    match capped(text) {
        Some((cap, rest)) => match BookSettings::new(serial, cap) {
            Ok(settings) => Some((settings, rest)),
            Err(_) => None,
        },
        None => None,
    }
}

/// The most rows or entries, and what stands after them.
pub(crate) fn capped(text: &[u8]) -> Option<(u32, &[u8])> {
    match named_number(b"cap=", text) {
        Some((cap @ 0..=65_536, rest)) => Some((cap as u32, rest)),
        _ => None,
    }
}

/// What stands before and after the arrow `=>`; nothing where it ends the text.
pub(crate) fn in_two(argument: &[u8]) -> Option<(&[u8], &[u8])> {
    match argument.strip_suffix(b" =>") {
        Some(front) => Some((front, b"")),
        None => cut(argument, b" => "),
    }
}

/// Whether two texts are the same.
pub(crate) fn are_same(one: &[u8], other: &[u8]) -> bool {
    one == other
}
