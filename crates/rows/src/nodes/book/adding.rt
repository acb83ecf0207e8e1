//! Books that are made again from kept rows, and rows that cannot stand.

use crate::arguments::{are_same, numbered};
use crate::nodes::book::{Books, opening};
use case_files::{Told, cut};
use envelope::TxnId;
use payer_book::{Book, BookAtRest, Row};
use std::alloc::Global;

impl Books {
    /// Adds a kept row to the book at rest: `NUMBER REQUEST answered ANSWER`.
    pub(crate) fn add(&mut self, told: &mut Told, argument: &[u8]) {
        match &mut self.rest {
            Some(rest) => add_kept(told, rest, argument),
            None => told.refuse(),
        }
    }

    /// Adds all rows of the book at work to an empty one at rest, which takes its place.
    pub(crate) fn add_all(&mut self, told: &mut Told, alloc: Global) {
        match &self.work {
            Some(book) => match opening::opened(alloc, book.settings()) {
                Some(empty) => {
                    let again = added(told, empty.stop(), book);
                    self.set_rest(again);
                }
                None => told.refuse(),
            },
            None => told.refuse(),
        }
    }
}

/// The number, the request and the answer of a row.
fn kept_row(argument: &[u8]) -> Option<(TxnId, &[u8], &[u8])> {
    match numbered(argument) {
        Some((id, texts)) => match cut(texts, b" answered ") {
            Some((request, answer)) => Some((id, request, answer)),
            None => None,
        },
        None => None,
    }
}

/// Adds a row, and tells whether it stands, and how many rows there are then.
fn add_kept(told: &mut Told, rest: &mut BookAtRest, argument: &[u8]) {
    match kept_row(argument) {
        Some((id, request, answer)) => {
            match rest.add(id, request, answer) {
                Ok(()) => tell_last(told, rest.rows().last(), request, answer),
                Err(fault) => told.named(fault),
            }
            told.field("rows", rest.rows().len());
        }
        None => told.refuse(),
    }
}

/// Tells that the last row is the one that was added.
fn tell_last(told: &mut Told, row: Option<&Row>, request: &[u8], answer: &[u8]) {
    match row {
        Some(row) => {
            let same = are_same(row.request(), request) && are_same(row.answer(), answer);
            told.word(if same { "stands" } else { "stands-otherwise" });
        }
        None => told.word("is-lost"),
    }
}

/// The book at rest with the rows of another, in order.
fn added(told: &mut Told, mut rest: BookAtRest, book: &Book) -> BookAtRest {
    for row in book.rows() {
        if let Err(fault) = rest.add(row.id(), row.request(), row.answer()) {
            told.named(fault);
        }
    }
    told.field("rows", rest.rows().len());
    rest
}
