//! A book at rest. It is kept whole, with its indexes, so that a start is a move.

ghost use Rattle.std.specs.Prelude.{◌≡◌, ◌≢◌, ◌≤◌, [], map, length, slice_get, Ok, Some, None, IfErr, OnOk, OnErr};
ghost use Rattle.std.specs.Option.{option_copied};
ghost use Rattle.payer_book.specs.declared.fault.RowFault.TheVariants.{OutOfMemory};
ghost use Rattle.payer_book.specs.Added.{kept_row, added, added_all, without_rows};

use crate::book::Book;
use crate::book::row::Row;
use crate::fault::RowFault;
use crate::keys::HashKeys;
use crate::settings::BookSettings;
use bin_routes::PayerNo;
use envelope::TxnId;
use plan_rules::Plan;
use std::alloc::{AllocError, Global};
use std::marker::Model;

/// A book that was stopped: it answers nothing until it is started again.
#[derive(Drop)]
pub struct BookAtRest {
    pub(crate) book: Book,
}

impl Model for BookAtRest {
    ghost use Rattle.claim_model.specs.Rows.{Book as BookParts};

    ghost Value = { BookParts };

    ghost view = { λ b. b.book };
}

impl Book {
    /// The same book at rest.
    pub fn stop(self) -> BookAtRest
        ensures { result ≡ self }
    {
        BookAtRest { book: self }
    }
}

impl BookAtRest {
    /// An empty book at rest, with memory from `alloc`. Nothing is taken before the first row. Its maps hash with keys that
    /// are the same in every program.
    pub fn new(alloc: Global, payer: PayerNo, settings: BookSettings, plan: Plan) -> BookAtRest
        ensures { result ≡ record { payer = payer; settings = settings; plan = plan; rows = [] } }
    {
        BookAtRest::keyed(alloc, payer, settings, plan, &HashKeys::fixed())
    }

    /// The same, and its maps hash with these keys.
    pub fn keyed(
        alloc: Global,
        payer: PayerNo,
        settings: BookSettings,
        plan: Plan,
        keys: &HashKeys,
    ) -> BookAtRest
        ensures { result ≡ record { payer = payer; settings = settings; plan = plan; rows = [] } }
    {
        BookAtRest {
            book: Book::keyed(alloc, payer, settings, plan, keys),
        }
    }

    /// Adds a row that was kept: the id, the request and the answer's bytes. A place that would be priced may be paid any
    /// amounts that add up, or be rejected with 70; no plan and no routes are asked.
    ///
    /// # Errors
    /// `BadRow` where the book has as many rows as its settings allow, or has the id; where the request is not readable;
    /// and where the answer is not the one that the rules give after the rows before, with a serial number that there is
    /// for each payment. The book is as it was after each error.
    pub fn add(&mut self, id: TxnId, request: &[u8], answer: &[u8]) -> Result<(), RowFault>
        ensures ok { OnOk result (added self.old id request.now answer.now ≡ Some self.new) }
        ensures err { OnErr result (self.new ≡ self.old) }
        ensures fault { IfErr result (λ e. e ≢ OutOfMemory → added self.old id request.now answer.now ≡ None) }
    {
        self.book.add(id, request, answer)
    }

    /// The same book, at work. Where memory is refused the book is handed back; this body takes none, so it never is.
    pub fn start(self) -> Result<Book, (BookAtRest, AllocError)>
        ensures { result ≡ Ok self }
    {
        let BookAtRest { book } = self;
        Ok(book)
    }

    /// The payer whose book it is.
    pub fn payer(&self) -> PayerNo
        ensures { result ≡ self.now.payer }
    {
        self.book.payer()
    }

    /// What the book was opened with.
    pub fn settings(&self) -> BookSettings
        ensures { result ≡ self.now.settings }
    {
        self.book.settings()
    }

    /// The plan in force.
    pub fn plan(&self) -> &Plan
        ensures { result.now ≡ self.now.plan }
    {
        self.book.plan()
    }

    /// The decided requests, oldest first.
    pub fn rows(&self) -> &[Row]
        ensures value { result.now ≡ self.now.rows }
        ensures in_limit { length self.now.rows ≤ self.now.settings.cap }
        // The book is what adding its rows one by one to an empty book makes.
        ensures made { added_all (Some (without_rows self.now)) (map kept_row self.now.rows) ≡ Some self.now }
    {
        self.book.rows()
    }

    /// The decided request at a place, from 0.
    pub fn row(&self, place: usize) -> Option<&Row>
        ensures { option_copied result ≡ slice_get self.now.rows place }
    {
        self.book.row(place)
    }
}
