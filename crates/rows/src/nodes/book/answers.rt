//! What a book at work answers.

use crate::arguments::{are_same, first_word, numbered};
use crate::nodes::book::{texts, views};
use crate::nodes::routed;
use crate::telling::{tell_envelope, tell_refused};
use bin_routes::Routes;
use case_files::Told;
use envelope::TxnId;
use input_text::read_decimal;
use payer_book::{Book, PlanFault, Reply, Row};
use std::alloc::Global;

/// Tells what comes of a step.
pub(crate) fn tell(told: &mut Told, alloc: Global, book: &mut Book, word: &str, argument: &[u8]) {
    match word {
        "answer" | "packet" | "place" => request(told, alloc, book, word, argument),
        "price" => price(told, book, argument),
        "held" => views::held(told, book, argument),
        "payment" => views::payment(told, book, argument),
        "row" => views::row(told, book.rows(), argument),
        "terms" => views::terms(told, book),
        "write" => texts::written(told, alloc, book),
        _ => told.refuse(),
    }
}

/// A request comes to the book: `NUMBER REQUEST`.
fn request(told: &mut Told, alloc: Global, book: &mut Book, word: &str, argument: &[u8]) {
    match numbered(argument) {
        Some((id, request)) => match routed(alloc, b"610455") {
            Some(routes) => match word {
                "answer" => answer(told, book, &routes, id, request),
                "place" => place(told, book, &routes, id, request),
                _ => packet(told, book, &routes, id, request),
            },
            None => told.refuse(),
        },
        None => told.refuse(),
    }
}

/// The book answers.
fn answer(told: &mut Told, book: &mut Book, routes: &Routes, id: TxnId, request: &[u8]) {
    match book.answer(routes, id, request) {
        Ok(reply) => tell_reply(told, book, id, &reply),
        Err(fault) => tell_refused(told, fault),
    }
}

/// Tells an answer. The book has to hold it from now on.
fn tell_reply(told: &mut Told, book: &Book, id: TxnId, reply: &Reply) {
    told.word(said(reply.kept));
    told.bytes(reply.bytes.as_slice());
    tell_held(told, book.held(id), reply.bytes.as_slice());
}

/// The book tells where its answer stands, and the row there lends it.
fn place(told: &mut Told, book: &mut Book, routes: &Routes, id: TxnId, request: &[u8]) {
    match book.answer_at(routes, id, request) {
        Ok(at) => {
            told.word(said(at.kept));
            told.shown(at.place);
            tell_answer(told, book.row(at.place));
        }
        Err(fault) => tell_refused(told, fault),
    }
}

/// Tells the answer of a row.
fn tell_answer(told: &mut Told, row: Option<&Row>) {
    match row {
        Some(row) => told.bytes(row.answer()),
        None => told.word("no-row"),
    }
}

/// Whether an answer was kept.
fn said(kept: bool) -> &'static str {
    if kept { "kept" } else { "new" }
}

/// Tells where the answer that is held is not the one that was given.
fn tell_held(told: &mut Told, held: Option<&[u8]>, answer: &[u8]) {
    match held {
        Some(held) => {
            if !are_same(held, answer) {
                told.word("held-otherwise");
            }
        }
        None => told.word("not-held"),
    }
}

/// The book answers with a packet.
fn packet(told: &mut Told, book: &mut Book, routes: &Routes, id: TxnId, request: &[u8]) {
    match book.answer_packet(routes, id, request) {
        Ok(packet) => tell_envelope(told, packet.as_slice()),
        Err(fault) => tell_refused(told, fault),
    }
}

/// The plan has another price from now on, in ten-thousandths of a dollar a unit, or none: `PRICE PRODUCT`, `off PRODUCT`.
fn price(told: &mut Told, book: &mut Book, argument: &[u8]) {
    let (word, product) = first_word(argument);
    match word {
        b"off" => tell_price(told, book.change_plan(product, None)),
        _ => match read_price(word) {
            Some(price) => tell_price(told, book.change_plan(product, Some(price))),
            None => told.refuse(),
        },
    }
}

/// The price that a word tells.
fn read_price(word: &[u8]) -> Option<u32> {
    match read_decimal(word, 9) {
        Some(price @ 0..=999_999_999) => Some(price as u32),
        _ => None,
    }
}

/// Tells what a change of the plan came to.
fn tell_price(told: &mut Told, changed: Result<(), PlanFault>) {
    match changed {
        Ok(()) => told.word("ok"),
        Err(fault) => told.named(fault),
    }
}
