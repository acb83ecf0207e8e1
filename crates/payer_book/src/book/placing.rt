//! Answering a request with the row that keeps the answer, so that no byte of it is copied.

ghost use Rattle.std.specs.Prelude.{◌≡◌, OnErr, None};
ghost use Rattle.claim_model.specs.Book.{row_of, unadvised};
ghost use Rattle.payer_book.specs.Placing.{AnswersAt};
ghost use Rattle.payer_book.specs.Answers.{Refuses};

use crate::book::Book;
use crate::book::advice::Advice;
use crate::ruling::drafting::Draft;
use bin_routes::Routes;
use claim_model::Fault;
use envelope::TxnId;
use std::alloc::Global;

/// Where the answer to a request stands, and whether the book had it already.
#[derive(Clone, Copy, PartialEq, Eq)]
pub struct Placed {
    /// The place of the row that has the answer, from 0: [`Book::row`] lends it.
    pub place: usize,
    /// True where the number was known with the same request.
    pub kept: bool,
}

impl Book {
    /// Answers the request that came under that id as `answer` does, and tells which row has the answer. `row` lends
    /// that row and its bytes, so they are not copied.
    ///
    /// # Errors
    /// Those of `answer`, in its order. The book is as it was after each of them.
    pub fn answer_at(&mut self, routes: &Routes, id: TxnId, request: &[u8]) -> Result<Placed, Fault>
        ensures ok { AnswersAt routes.now self.old id request.now self.new result }
        ensures fault { Refuses routes.now self.old unadvised id request.now result }
        ensures err { OnErr result (self.new ≡ self.old) }
    {
        if let Some(place) = self.known(routes, id, request, Advice::none())? {
            return Ok(Placed { place, kept: true });
        }
        let alloc = self.allocator();
        let mut draft = self.lend_draft(alloc);
        let result = self.place_new(alloc, &mut draft, routes, id, request);
        self.keep_draft(draft);
        result
    }

    /// Answers the request of a new id.
    fn place_new(
        &mut self,
        alloc: Global,
        draft: &mut Draft,
        routes: &Routes,
        id: TxnId,
        request: &[u8],
    ) -> Result<Placed, Fault>
        requires { row_of id self.old.rows ≡ None }
        ensures ok { AnswersAt routes.now self.old id request.now self.new result }
        ensures fault { Refuses routes.now self.old unadvised id request.now result }
        ensures err { OnErr result (self.new ≡ self.old) }
    {
        let row = self.decide_new(alloc, draft, routes, id, request, Advice::none())?;
        let place = self.rows().len();
        self.enter(row, draft.changes.as_slice())?;
        Ok(Placed { place, kept: false })
    }
}
