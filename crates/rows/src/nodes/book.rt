//! Steps on one book of payer 1, at work or at rest.

mod adding;
mod answers;
mod opening;
mod texts;
mod views;

use case_files::{Subject, Told};
use payer_book::{Book, BookAtRest};
use std::alloc::Global;

/// The book that the next step is for, at work or at rest.
#[derive(Drop)]
pub(crate) struct Books {
    work: Option<Book>,
    rest: Option<BookAtRest>,
}

impl Subject for Books {
    fn tell(&mut self, told: &mut Told, alloc: Global, word: &str, argument: &[u8]) {
        match word {
            "open" => self.open(told, alloc, argument),
            "stop" => self.stop(told),
            "start" => self.start(told),
            "add" => self.add(told, argument),
            "add-all" => self.add_all(told, alloc),
            "read" => self.read(told, alloc, argument),
            "read-altered" => self.read_altered(told, alloc, argument),
            _ => self.ask(told, alloc, word, argument),
        }
    }
}

impl Books {
    /// No book yet.
    pub(crate) fn new() -> Books {
        Books {
            work: None,
            rest: None,
        }
    }

    /// Tells what needs no book, or else what the book has to say.
    fn ask(&mut self, told: &mut Told, alloc: Global, word: &str, argument: &[u8]) {
        match word {
            "length" => told.shown(argument.len()),
            "framing" => texts::framing(told, argument),
            "beginnings" => texts::beginnings(told, alloc, argument),
            "alter-each" => texts::alter_each(told, alloc, argument),
            _ => self.ask_book(told, alloc, word, argument),
        }
    }

    /// Tells what the book has to say.
    fn ask_book(&mut self, told: &mut Told, alloc: Global, word: &str, argument: &[u8]) {
        if let Some(book) = &mut self.work {
            return answers::tell(told, alloc, book, word, argument);
        }
        match &self.rest {
            Some(rest) => tell_rest(told, alloc, rest, word, argument),
            None => told.refuse(),
        }
    }
}

/// Tells of a book at rest.
fn tell_rest(told: &mut Told, alloc: Global, rest: &BookAtRest, word: &str, argument: &[u8]) {
    match word {
        "row" => views::row(told, rest.rows(), argument),
        "terms" => views::rest_terms(told, rest),
        "write" => texts::written_rest(told, alloc, rest),
        _ => told.refuse(),
    }
}
