//! Steps on the journal of pharmacy 1, and its text.

use crate::arguments::{capped, number_first};
use crate::nodes::journal_settings::pharmacy_settings;
use crate::nodes::records::{self, Kind};
use crate::telling::tell_text;
use case_files::{Subject, Told};
use kept_records::{RecordFault, read_journal, save_journal, write_journal};
use pharmacy_journal::{JournalAtRest, Pharmacy};
use std::alloc::Global;

/// The pharmacy that the next step is for, up or at rest.
#[derive(Drop)]
pub(crate) struct Journals {
    up: Option<Pharmacy>,
    rest: Option<JournalAtRest>,
}

impl Subject for Journals {
    fn tell(&mut self, told: &mut Told, alloc: Global, word: &str, argument: &[u8]) {
        match word {
            "open" => self.open(told, alloc, argument),
            "submit" => self.submit(told, argument),
            "read" => self.read(told, alloc, argument),
            "start" => self.start(told),
            "write" => self.write(told, alloc),
            "entry" => self.entry(told, argument),
            "length" => told.shown(argument.len()),
            "beginnings" => beginnings(told, alloc, argument),
            "alter-each" => alter_each(told, alloc, argument),
            _ => told.refuse(),
        }
    }
}

impl Journals {
    /// No pharmacy yet.
    pub(crate) fn new() -> Journals {
        Journals {
            up: None,
            rest: None,
        }
    }

    /// Opens an empty journal: `cap=ENTRIES`.
    fn open(&mut self, told: &mut Told, alloc: Global, argument: &[u8]) {
        match capped(argument) {
            Some((cap, _)) => {
                self.rest = None;
                self.up = opened(alloc, 6, 2, cap);
                told.word("ok");
            }
            None => told.refuse(),
        }
    }

    /// Submits a request, and tells its number.
    fn submit(&mut self, told: &mut Told, request: &[u8]) {
        match &mut self.up {
            Some(pharmacy) => match pharmacy.submit(request) {
                Ok((number, _)) => told.field("number", number),
                Err(fault) => told.word(fault.name()),
            },
            None => told.refuse(),
        }
    }

    /// Reads a journal at rest: `cap=ENTRIES TEXT`.
    fn read(&mut self, told: &mut Told, alloc: Global, argument: &[u8]) {
        match capped(argument) {
            Some((cap, text)) => self.take(told, read_as(alloc, cap, text)),
            None => told.refuse(),
        }
    }

    /// From now on steps are for the journal that was read.
    fn take(&mut self, told: &mut Told, read: Result<JournalAtRest, RecordFault>) {
        match read {
            Ok(rest) => {
                told.word("taken");
                told.field("pharmacy", rest.number());
                told.field("cap", rest.settings().cap());
                told.field("entries", rest.entries());
                self.up = None;
                self.rest = Some(rest);
            }
            Err(fault) => told.named(fault),
        }
    }

    /// The pharmacy comes up.
    fn start(&mut self, told: &mut Told) {
        match self.rest.take() {
            Some(rest) => {
                self.up = rest.start().ok();
                told.word("up");
            }
            None => told.refuse(),
        }
    }

    /// Tells the text of the journal.
    fn write(&self, told: &mut Told, alloc: Global) {
        if let Some(pharmacy) = &self.up {
            return tell_text(told, save_journal(alloc, pharmacy));
        }
        match &self.rest {
            Some(rest) => tell_text(told, write_journal(alloc, rest)),
            None => told.refuse(),
        }
    }

    /// Tells the request and the answer of a number in the journal at rest.
    fn entry(&self, told: &mut Told, argument: &[u8]) {
        match number_first(argument) {
            Some((number, _)) => match &self.rest {
                Some(rest) => tell_entry(told, rest, number),
                None => told.refuse(),
            },
            None => told.refuse(),
        }
    }
}

/// Pharmacy 1 without an entry.
fn opened(alloc: Global, again: u32, tries: u32, cap: u32) -> Option<Pharmacy> {
    match pharmacy_settings(alloc, again, tries, cap) {
        Some(settings) => Pharmacy::new(alloc, 1, settings).ok(),
        None => None,
    }
}

/// Tells an entry.
fn tell_entry(told: &mut Told, rest: &JournalAtRest, number: u64) {
    match rest.entry(number) {
        Some(entry) => told.bytes(entry.request),
        None => told.word("none"),
    }
    match rest.held(number) {
        Some(answer) => {
            told.word("answered");
            told.bytes(answer);
        }
        None => told.word("open"),
    }
}

/// The journal of pharmacy 1 that the bytes are.
fn read_as(alloc: Global, cap: u32, bytes: &[u8]) -> Result<JournalAtRest, RecordFault> {
    match pharmacy_settings(alloc, 6, 2, cap) {
        Some(settings) => read_journal(alloc, bytes, 1, settings),
        None => Err(RecordFault::OutOfMemory),
    }
}

/// A journal of pharmacy 1 with at most this many entries.
#[derive(Clone, Copy)]
struct JournalKind {
    cap: u32,
}

impl Kind for JournalKind {
    fn rewritten(&self, alloc: Global, bytes: &[u8]) -> Result<Vec<u8>, RecordFault> {
        match read_as(alloc, self.cap, bytes) {
            Ok(rest) => match write_journal(alloc, &rest) {
                Ok(text) => Ok(text),
                Err(_) => Err(RecordFault::OutOfMemory),
            },
            Err(fault) => Err(fault),
        }
    }
}

/// Tells what each beginning of a journal's text comes to: `cap=ENTRIES TEXT`.
fn beginnings(told: &mut Told, alloc: Global, argument: &[u8]) {
    match capped(argument) {
        Some((cap, text)) => records::beginnings(told, alloc, &JournalKind { cap }, text),
        None => told.refuse(),
    }
}

/// Tells what a journal's text comes to with a byte changed, at each place: `cap=ENTRIES TEXT`.
fn alter_each(told: &mut Told, alloc: Global, argument: &[u8]) {
    match capped(argument) {
        Some((cap, text)) => records::alter_each(told, alloc, &JournalKind { cap }, text),
        None => told.refuse(),
    }
}
