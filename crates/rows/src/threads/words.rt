//! The words of rows.

use input_text::{read_decimal, split_word};
use world_setup::Node;

/// A number of at most nine digits.
pub(crate) fn read_count(digits: &[u8]) -> Option<u64> {
    read_decimal(digits, 9)
}

/// A number of at most four digits.
pub(crate) fn read_number(digits: &[u8]) -> Option<u16> {
    match read_decimal(digits, 4) {
        Some(number @ 0..=9999) => Some(number as u16),
        _ => None,
    }
}

/// A number and what stands after it; nothing may stand there.
pub(crate) fn count_and_rest(argument: &[u8]) -> Option<(u64, &[u8])> {
    let (digits, rest) = split_word(argument).unwrap_or((argument, b""));
    match read_count(digits) {
        Some(count) => Some((count, rest)),
        None => None,
    }
}

/// Two numbers and what stands after them.
pub(crate) fn two_and_rest(argument: &[u8]) -> Option<(u64, u64, &[u8])> {
    match count_and_rest(argument) {
        Some((first, rest)) => match count_and_rest(rest) {
            Some((second, rest)) => Some((first, second, rest)),
            None => None,
        },
        None => None,
    }
}

/// The place, from 0, of a number from 1; no place for 0.
pub(crate) fn place_of(number: u64) -> usize {
    match number.checked_sub(1) {
        Some(place) => place as usize,
        None => usize::MAX,
    }
}

/// The node of a name as schedules have them: `ph1`, `sw1`, `pr1`; nobody where it is none.
pub(crate) fn read_node(name: &[u8]) -> Node {
    let (kind, digits) = name.split_at(name.len().min(2));
    match (kind, read_number(digits)) {
        (b"ph", Some(number)) => Node::Pharmacy(number),
        (b"sw", Some(number)) => Node::Switch(number),
        (b"pr", Some(number)) => Node::Payer(number),
        _ => Node::Switch(0),
    }
}
