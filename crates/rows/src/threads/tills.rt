//! Tills of callers, by their places.

use crate::threads::held::tell_receipt;
use crate::threads::words::{place_of, two_and_rest};
use case_files::Told;
use input_text::split_word;
use node_threads::Till;
use octets::Octets;
use std::alloc::Global;

/// Tells what comes of a row about tills, or refuses it. A row has the place of its till before the rest.
pub(crate) fn tell(
    told: &mut Told,
    alloc: Global,
    tills: &mut Vec<Till>,
    word: &str,
    argument: &[u8],
) {
    match (word, two_and_rest(argument)) {
        ("receipt", Some((till, number, request))) => match tills.get_mut(place_of(till)) {
            Some(till) => add(told, alloc, till, number, request),
            None => told.refuse(),
        },
        ("hear", Some((till, number, answer))) => match tills.get_mut(place_of(till)) {
            Some(till) => hear(told, alloc, till, number, answer),
            None => told.refuse(),
        },
        ("heard", Some((till, number, _))) => match tills.get(place_of(till)) {
            Some(till) => tell_heard(told, till.answer(number)),
            None => told.refuse(),
        },
        ("has", Some((till, _, _))) => match tills.get(place_of(till)) {
            Some(till) => tell_receipt(told, till, behind(argument)),
            None => told.refuse(),
        },
        _ => told.refuse(),
    }
}

/// What stands after the first word.
fn behind(argument: &[u8]) -> &[u8] {
    match split_word(argument) {
        Some((_, rest)) => rest,
        None => b"",
    }
}

/// Adds a receipt.
fn add(told: &mut Told, alloc: Global, till: &mut Till, number: u64, request: &[u8]) {
    match Octets::copy_of(alloc, request) {
        Ok(request) => match till.reserve() {
            Ok(()) => {
                till.add(number, request);
                told.word("ok");
            }
            Err(_) => told.refuse(),
        },
        Err(_) => told.refuse(),
    }
}

/// Keeps an answer.
fn hear(told: &mut Told, alloc: Global, till: &mut Till, number: u64, answer: &[u8]) {
    match Octets::copy_of(alloc, answer) {
        Ok(answer) => match till.hear(number, answer) {
            Ok(()) => told.word("ok"),
            Err(_) => told.refuse(),
        },
        Err(_) => told.refuse(),
    }
}

/// Tells the answer that was heard.
fn tell_heard(told: &mut Told, answer: Option<&[u8]>) {
    match answer {
        Some(answer) => told.bytes(answer),
        None => told.word("none"),
    }
}
