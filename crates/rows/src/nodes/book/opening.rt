//! Opening, stopping and starting books.

use crate::arguments::book_settings;
use crate::nodes::book::Books;
use case_files::Told;
use claim_profile::Amount;
use payer_book::{Book, BookAtRest, BookSettings, PayerNo, Plan};
use std::alloc::Global;

impl Books {
    /// Opens an empty book: `open serial=FIRST cap=ROWS`.
    pub(crate) fn open(&mut self, told: &mut Told, alloc: Global, argument: &[u8]) {
        match book_settings(argument) {
            Some((settings, _)) => self.begin(told, opened(alloc, settings)),
            None => told.refuse(),
        }
    }

    /// From now on steps are for this book.
    fn begin(&mut self, told: &mut Told, book: Option<Book>) {
        match book {
            Some(_) => told.word("ok"),
            None => told.refuse(),
        }
        self.set_work(book);
    }

    /// The book goes to rest.
    pub(crate) fn stop(&mut self, told: &mut Told) {
        match self.work.take() {
            Some(book) => {
                self.set_rest(book.stop());
                told.word("at-rest");
            }
            None => told.refuse(),
        }
    }

    /// The book goes to work.
    pub(crate) fn start(&mut self, told: &mut Told) {
        match self.rest.take() {
            Some(rest) => {
                self.set_work(rest.start().ok());
                told.word("at-work");
            }
            None => told.refuse(),
        }
    }

    /// From now on steps are for this book at work.
    pub(crate) fn set_work(&mut self, book: Option<Book>) {
        self.work = book;
        self.rest = None;
    }

    /// From now on steps are for this book at rest.
    pub(crate) fn set_rest(&mut self, rest: BookAtRest) {
        self.work = None;
        self.rest = Some(rest);
    }
}

/// An empty book of payer 1.
pub(crate) fn opened(alloc: Global, settings: BookSettings) -> Option<Book> {
    let payer = PayerNo::new(1)?;
    match plan(alloc) {
        Some(plan) => Some(Book::new(alloc, payer, settings, plan)),
        None => None,
    }
}

/// A plan of one product at 1.8567 dollars a unit, with a fee of 1.50 and a copay of 10.00 dollars.
fn plan(alloc: Global) -> Option<Plan> {
    let fee = Amount::new(150)?;
    let copay = Amount::new(1000)?;
    match Plan::new(alloc, fee, copay) {
        Ok(plan) => priced(plan),
        Err(_) => None,
    }
}

/// The plan with its product.
fn priced(mut plan: Plan) -> Option<Plan> {
    match plan.set(b"00093721410", 18_567) {
        Ok(()) => Some(plan),
        Err(_) => None,
    }
}
