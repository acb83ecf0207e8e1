//! Answering a request: the kept answer of a known number, or a new row.

ghost use Rattle.std.specs.Prelude.{◌≡◌, OnErr, Ok, None};
ghost use Rattle.claim_model.specs.Book.{row_of, unadvised};
ghost use Rattle.payer_book.specs.Answers.{Answers, Refuses};

use crate::book::advice::Advice;
use crate::book::{Book, Reply};
use crate::ruling::drafting::Draft;
use bin_routes::Routes;
use claim_model::Fault;
use envelope::TxnId;
use std::alloc::Global;

impl Book {
    /// Answers the request that came under that id.
    ///
    /// A known id with the same request gets the bytes that were kept for it, also when the book is full. A new
    /// one adds one row, with the ruling of each of its groups over the rows before and the groups before.
    ///
    /// # Errors
    /// In this order: `Unreadable`, `NotOurs`, `NumberReused`, `BookFull`, `SerialsUsedUp`. `OutOfMemory` may
    /// stand in place of any answer. The book is as it was after each of them.
    pub fn answer(&mut self, routes: &Routes, id: TxnId, request: &[u8]) -> Result<Reply, Fault>
        ensures ok { Answers routes.now self.old id request.now self.new result }
        ensures fault { Refuses routes.now self.old unadvised id request.now result }
        ensures err { OnErr result (self.new ≡ self.old) }
    {
        let alloc = self.allocator();
        if let Some(place) = self.known(routes, id, request, Advice::none())? {
            let bytes = Vec::from_slice(alloc, self.row_at(place).answer())?;
            return Ok(Reply { bytes, kept: true });
        }
        let mut draft = self.lend_draft(alloc);
        let result = self.answer_new(alloc, &mut draft, routes, id, request);
        self.keep_draft(draft);
        result
    }

    /// Answers the request of a new id.
    fn answer_new(
        &mut self,
        alloc: Global,
        draft: &mut Draft,
        routes: &Routes,
        id: TxnId,
        request: &[u8],
    ) -> Result<Reply, Fault>
        requires { row_of id self.old.rows ≡ None }
        ensures ok { Answers routes.now self.old id request.now self.new result }
        ensures fault { Refuses routes.now self.old unadvised id request.now result }
        ensures err { OnErr result (self.new ≡ self.old) }
    {
        let row = self.decide_new(alloc, draft, routes, id, request, Advice::none())?;
        let bytes = Vec::from_slice(alloc, row.answer())?;
        self.enter(row, draft.changes.as_slice())?;
        Ok(Reply { bytes, kept: false })
    }
}
