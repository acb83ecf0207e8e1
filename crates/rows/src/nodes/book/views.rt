//! What is seen of a book.

use crate::arguments::{named_number, number_first, numbered};
use case_files::Told;
use claim_profile::Auth;
use payer_book::{Book, BookAtRest, BookSettings, PayerNo, PaymentView, Plan, Row};

/// Tells the answer that a book holds for a number.
pub(crate) fn held(told: &mut Told, book: &Book, argument: &[u8]) {
    match numbered(argument) {
        Some((id, _)) => match book.held(id) {
            Some(answer) => told.bytes(answer),
            None => told.word("nothing"),
        },
        None => told.refuse(),
    }
}

/// Tells the payment of an authorization: `payer=PAYER serial=SERIAL`.
pub(crate) fn payment(told: &mut Told, book: &Book, argument: &[u8]) {
    match authorization(argument) {
        Some(auth) => match book.payment(auth) {
            Some(payment) => tell_payment(told, &payment),
            None => told.word("none"),
        },
        None => told.refuse(),
    }
}

/// The authorization that an argument tells.
fn authorization(argument: &[u8]) -> Option<Auth> {
    match named_number(b"payer=", argument) {
        Some((payer @ 0..=65_535, rest)) => match named_number(b"serial=", rest) {
            Some((serial, _)) => Auth::new(payer as u16, serial),
            None => None,
        },
        _ => None,
    }
}

/// Tells a payment, and which request reversed it.
fn tell_payment(told: &mut Told, payment: &PaymentView) {
    told.field("prescription", payment.fill.prescription);
    told.field("total", payment.amounts.total());
    match payment.reversed_by {
        Some(id) => told.field("reversed-by", id),
        None => told.word("standing"),
    }
}

/// Tells the row at a place, from 0.
pub(crate) fn row(told: &mut Told, rows: &[Row], argument: &[u8]) {
    match number_first(argument) {
        Some((place, _)) => match rows.get(place as usize) {
            Some(row) => tell_row(told, row),
            None => told.word("none"),
        },
        None => told.refuse(),
    }
}

/// Tells a row.
fn tell_row(told: &mut Told, row: &Row) {
    told.shown(row.id());
    told.field("rulings", row.rulings().len());
    told.bytes(row.request());
    told.word("answered");
    told.bytes(row.answer());
}

/// Tells whose book it is, what it was opened with, and how many products and rows it has.
pub(crate) fn terms(told: &mut Told, book: &Book) {
    opened_with(told, book.payer(), book.settings());
    counts(told, book.plan(), book.rows());
}

/// The same of a book at rest.
pub(crate) fn rest_terms(told: &mut Told, rest: &BookAtRest) {
    opened_with(told, rest.payer(), rest.settings());
    counts(told, rest.plan(), rest.rows());
}

/// Tells a payer, and what its book was opened with.
fn opened_with(told: &mut Told, payer: PayerNo, settings: BookSettings) {
    told.field("payer", payer.get());
    told.field("serial", settings.serial());
    told.field("cap", settings.cap());
}

/// Tells how many products and rows a book has.
pub(crate) fn counts(told: &mut Told, plan: &Plan, rows: &[Row]) {
    told.field("products", plan.products());
    told.field("rows", rows.len());
}
