//! Books as texts.

use crate::arguments::{book_settings, number_first};
use crate::nodes::book::{Books, views};
use crate::nodes::records::{self, Kind, with_byte};
use crate::telling::tell_text;
use case_files::Told;
use d0_segments::check_request;
use kept_records::{RecordFault, read_book, save_book, write_book};
use payer_book::{Book, BookAtRest, BookSettings, PayerNo};
use std::alloc::Global;

/// A book of payer 1 with these settings.
#[derive(Clone, Copy)]
struct BookKind {
    settings: BookSettings,
}

impl Kind for BookKind {
    fn rewritten(&self, alloc: Global, bytes: &[u8]) -> Result<Vec<u8>, RecordFault> {
        match read_as(alloc, bytes, self.settings) {
            Ok(rest) => match write_book(alloc, &rest) {
                Ok(text) => Ok(text),
                Err(_) => Err(RecordFault::OutOfMemory),
            },
            Err(fault) => Err(fault),
        }
    }
}

impl Books {
    /// Reads a book at rest: `serial=FIRST cap=ROWS TEXT`.
    pub(crate) fn read(&mut self, told: &mut Told, alloc: Global, argument: &[u8]) {
        match book_settings(argument) {
            Some((settings, text)) => self.take(told, read_as(alloc, text, settings)),
            None => told.refuse(),
        }
    }

    /// Reads a book at rest whose text has another byte at a place: `PLACE BYTE serial=FIRST cap=ROWS TEXT`.
    pub(crate) fn read_altered(&mut self, told: &mut Told, alloc: Global, argument: &[u8]) {
        match altered(argument) {
            Some((place, byte, settings, text)) => match with_byte(alloc, text, place, byte) {
                Some(text) => self.take(told, read_as(alloc, text.as_slice(), settings)),
                None => told.refuse(),
            },
            None => told.refuse(),
        }
    }

    /// From now on steps are for the book that was read.
    fn take(&mut self, told: &mut Told, read: Result<BookAtRest, RecordFault>) {
        match read {
            Ok(rest) => {
                told.word("taken");
                views::counts(told, rest.plan(), rest.rows());
                self.set_rest(rest);
            }
            Err(fault) => told.named(fault),
        }
    }
}

/// A place, the byte there, the settings of a book and its text.
fn altered(argument: &[u8]) -> Option<(usize, u8, BookSettings, &[u8])> {
    match number_first(argument) {
        Some((place, [byte, b' ', rest @ ..])) => match book_settings(rest) {
            Some((settings, text)) => Some((place as usize, *byte, settings, text)),
            None => None,
        },
        _ => None,
    }
}

/// The book of payer 1 that the bytes are.
fn read_as(alloc: Global, bytes: &[u8], settings: BookSettings) -> Result<BookAtRest, RecordFault> {
    match PayerNo::new(1) {
        Some(payer) => read_book(alloc, bytes, payer, settings),
        None => Err(RecordFault::NotABook),
    }
}

/// Tells the text of a book at work.
pub(crate) fn written(told: &mut Told, alloc: Global, book: &Book) {
    tell_text(told, save_book(alloc, book));
}

/// Tells the text of a book at rest.
pub(crate) fn written_rest(told: &mut Told, alloc: Global, rest: &BookAtRest) {
    tell_text(told, write_book(alloc, rest));
}

/// Tells what each beginning of a book's text comes to: `serial=FIRST cap=ROWS TEXT`.
pub(crate) fn beginnings(told: &mut Told, alloc: Global, argument: &[u8]) {
    match book_settings(argument) {
        Some((settings, text)) => records::beginnings(told, alloc, &BookKind { settings }, text),
        None => told.refuse(),
    }
}

/// Tells what a book's text comes to with a byte changed, at each place: `serial=FIRST cap=ROWS TEXT`.
pub(crate) fn alter_each(told: &mut Told, alloc: Global, argument: &[u8]) {
    match book_settings(argument) {
        Some((settings, text)) => records::alter_each(told, alloc, &BookKind { settings }, text),
        None => told.refuse(),
    }
}

/// Tells whether a text is framed as a request.
pub(crate) fn framing(told: &mut Told, text: &[u8]) {
    match check_request(text) {
        Ok(_) => told.word("framed"),
        Err(fault) => told.named(fault),
    }
}
