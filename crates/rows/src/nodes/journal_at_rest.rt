//! A journal at rest: its entries are added one by one, and then it starts.

use crate::arguments::{in_two, small};
use crate::nodes::journal_settings::pharmacy_settings;
use crate::nodes::journal_told::{tell_entry, tell_list, tell_paid, tell_sent};
use crate::telling::{done, tell_found};
use case_files::{Subject, Told};
use input_text::read_decimal;
use pharmacy_journal::{JournalAtRest, Pharmacy};
use std::alloc::Global;

/// The journal of pharmacy 1, at rest or started.
#[derive(Drop)]
pub(crate) struct Rests {
    rest: Option<JournalAtRest>,
    pharmacy: Option<Pharmacy>,
}

impl Subject for Rests {
    fn tell(&mut self, told: &mut Told, alloc: Global, word: &str, argument: &[u8]) {
        match word {
            "open" => self.open(told, alloc, argument),
            "close" => self.close(told),
            "start" => self.start(told),
            _ => match (&mut self.rest, &mut self.pharmacy) {
                (Some(rest), _) => at_rest(told, rest, word, argument),
                (None, Some(pharmacy)) => started(told, pharmacy, word, argument),
                (None, None) => told.refuse(),
            },
        }
    }
}

impl Rests {
    /// No journal yet.
    pub(crate) fn new() -> Rests {
        Rests {
            rest: None,
            pharmacy: None,
        }
    }

    /// A journal at rest without entries, which takes this many.
    fn open(&mut self, told: &mut Told, alloc: Global, argument: &[u8]) {
        self.rest = match small(argument) {
            Some(cap) => opened(alloc, cap),
            None => None,
        };
        match &self.rest {
            Some(_) => told.word("ok"),
            None => told.refuse(),
        }
    }

    /// Lets the journal go, and tells the cap of the settings that are left.
    fn close(&mut self, told: &mut Told) {
        match self.rest.take() {
            Some(rest) => told.field("cap", rest.into_settings().cap()),
            None => told.refuse(),
        }
    }

    /// Starts the journal.
    fn start(&mut self, told: &mut Told) {
        self.pharmacy = match self.rest.take() {
            Some(rest) => rest.start().ok(),
            None => None,
        };
        match &self.pharmacy {
            Some(_) => told.word("ok"),
            None => told.refuse(),
        }
    }
}

/// A journal at rest of pharmacy 1, which takes this many entries.
fn opened(alloc: Global, cap: u32) -> Option<JournalAtRest> {
    match pharmacy_settings(alloc, 1, 1, cap) {
        Some(settings) => JournalAtRest::new(alloc, 1, settings).ok(),
        None => None,
    }
}

/// Takes a step on a journal at rest.
fn at_rest(told: &mut Told, rest: &mut JournalAtRest, word: &str, argument: &[u8]) {
    match word {
        "add" => done(told, rest.add(argument, None)),
        "settled" => settled(told, rest, argument),
        "entry" => entry(told, rest, argument),
        "held" => held(told, rest, argument),
        "list" => tell_list(told, rest.list()),
        "paid" => tell_paid(told, rest.paid()),
        "tell" => tell(told, rest),
        _ => told.refuse(),
    }
}

/// Adds an entry that has its answer: `REQUEST => ANSWER`.
fn settled(told: &mut Told, rest: &mut JournalAtRest, argument: &[u8]) {
    match in_two(argument) {
        Some((request, answer)) => done(told, rest.add(request, Some(answer))),
        None => told.refuse(),
    }
}

/// Tells the entry of a number.
fn entry(told: &mut Told, rest: &JournalAtRest, argument: &[u8]) {
    match read_decimal(argument, 18) {
        Some(number) => tell_entry(told, rest.entry(number)),
        None => told.refuse(),
    }
}

/// Tells the answer that a number has.
fn held(told: &mut Told, rest: &JournalAtRest, argument: &[u8]) {
    match read_decimal(argument, 18) {
        Some(number) => tell_found(told, rest.held(number)),
        None => told.refuse(),
    }
}

/// Tells the pharmacy's number, its cap, and how many entries it has.
fn tell(told: &mut Told, rest: &JournalAtRest) {
    told.field("number", rest.number());
    told.field("cap", rest.settings().cap());
    told.field("entries", rest.entries());
}

/// Takes a step on the pharmacy that was started.
fn started(told: &mut Told, pharmacy: &mut Pharmacy, word: &str, argument: &[u8]) {
    match (word, read_decimal(argument, 18)) {
        ("entry", Some(number)) => tell_entry(told, pharmacy.entry(number)),
        ("held", Some(number)) => tell_found(told, pharmacy.held(number)),
        ("tick", None) => tell_sent(told, pharmacy.tick()),
        _ => told.refuse(),
    }
}
