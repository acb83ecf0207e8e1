//! The book of a payer at rest, as bytes.

ghost use Rattle.std.specs.Prelude.{◌≡◌, Ok, IfNone, IfOk, IfSome};
ghost use Rattle.std.specs.Option.{option_copied};
ghost use Rattle.kept_records.specs.Books.{book_in, book_text};

use bin_routes::PayerNo;
use kept_records::{RecordFault, read_book_keyed, save_book};
use payer_book::{Book, BookAtRest, BookSettings, HashKeys};
use std::alloc::{AllocError, Global};
use std::marker::Model;

/// The bytes of a book's record, beside the payer's number, the book's settings and the keys that its maps hash with.
#[derive(Drop)]
pub struct BookBytes {
    payer: PayerNo,
    settings: BookSettings,
    keys: HashKeys,
    bytes: Vec<u8>,
}

impl Model for BookBytes {
    ghost use Rattle.claim_model.specs.Rows.{Book as BookParts};

    ghost Value = { BookParts };

    ghost use Rattle.node_state.specs.Records.{book_of, IsBook};

    ghost view = { λ b. book_of b.payer b.settings b.bytes.items };

    ghost invariant = { λ b. IsBook b.payer b.settings b.bytes.items };
}

impl BookBytes {
    /// The record of what a payer leaves when it stops.
    pub(crate) fn save(alloc: Global, book: &Book) -> Result<BookBytes, AllocError>
        ensures { IfOk result (λ kept. kept ≡ book.now) }
    {
        let bytes = save_book(alloc, book)?;
        Ok(BookBytes {
            payer: book.payer(),
            settings: book.settings(),
            keys: book.keys(),
            bytes,
        })
    }

    /// The bytes: the book's text, of version 2.
    pub(crate) fn bytes(&self) -> &[u8]
        ensures { result.now ≡ book_text 2 self.now }
    {
        self.bytes.as_slice()
    }

    /// The bytes, where the payer has this number and its book these settings: they are read as its book.
    pub(crate) fn record_under(&self, number: u16, settings: BookSettings) -> Option<&[u8]>
        ensures record { IfSome (option_copied result) (λ bytes. book_in number settings bytes ≡ Ok self.now) }
        ensures none { IfNone result (self.now.payer ≡ number → self.now.settings ≡ settings → ⊥) }
    {
        if self.payer.get() == number && self.settings == settings {
            Some(self.bytes.as_slice())
        } else {
            None
        }
    }

    /// The book, started again. Its bytes are its record, so nothing but memory can be wanting.
    pub(crate) fn start(&self, alloc: Global) -> Result<Book, AllocError>
        ensures { IfOk result (λ book. book ≡ self.now) }
    {
        match self.read(alloc)?.start() {
            Ok(book) => Ok(book),
            Err(_) => Err(AllocError),
        }
    }

    /// The book at rest, read again.
    fn read(&self, alloc: Global) -> Result<BookAtRest, AllocError>
        ensures { IfOk result (λ book. book ≡ self.now) }
    {
        let bytes = self.bytes.as_slice();
        match read_book_keyed(alloc, bytes, self.payer, self.settings, &self.keys) {
            Ok(book) => Ok(book),
            Err(RecordFault::OutOfMemory) => Err(AllocError),
            Err(_) => unreachable!(),
        }
    }
}
