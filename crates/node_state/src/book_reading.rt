//! What is read of a payer's book, up or at rest.

ghost use Rattle.std.specs.Prelude.{◌≡◌};

use payer_book::Book;
use std::marker::Model;

/// Whose book is read: a payer's that is up, or one that was started from its record.
#[derive(Drop)]
pub(crate) enum BookSource<'a> {
    Lent(&'a Book),
    Read(Book),
}

/// A payer's book to be read, up or at rest.
#[derive(Drop)]
pub struct BookReading<'a> {
    source: BookSource<'a>,
}

impl<'a> Model for BookReading<'a> {
    ghost use Rattle.claim_model.specs.Rows.{Book as BookParts};

    ghost Value = { BookParts };

    ghost use Rattle.node_state.specs.Reading.{book_read};

    ghost view = { λ r. book_read r.source };
}

impl<'a> BookReading<'a> {
    /// The book of a payer that is up.
    pub(crate) fn lent(book: &'a Book) -> BookReading<'a>
        ensures { result ≡ book.now }
    {
        BookReading {
            source: BookSource::Lent(book),
        }
    }

    /// A book that was started from its record.
    pub(crate) fn read(book: Book) -> BookReading<'a>
        ensures { result ≡ book }
    {
        BookReading {
            source: BookSource::Read(book),
        }
    }

    /// The book, whose rows, payments and answers are read from it.
    pub fn book(&self) -> &Book
        ensures { result.now ≡ self.now }
    {
        match &self.source {
            BookSource::Lent(book) => book,
            BookSource::Read(book) => book,
        }
    }
}
