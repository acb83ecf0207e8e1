//! Adding a row that was kept, to a book that is made again.

ghost use Rattle.std.specs.Prelude.{◌≡◌, ◌≢◌, true, ◌&&◌, nat_lt, is_none, length, Some, None, IfSome, IfOk, IfErr, OnOk, OnErr};
ghost use Rattle.claim_model.specs.Book.{row_of};
ghost use Rattle.payer_book.specs.declared.fault.RowFault.TheVariants.{OutOfMemory};
ghost use Rattle.payer_book.specs.Books.{reading};
ghost use Rattle.payer_book.specs.Added.{with_row, with_kept, added};
ghost use Rattle.claim_model.specs.Laws.{AdvisesWell};
ghost use Rattle.payer_book.specs.Entries.{IsEntry};
ghost use Rattle.d0_segments.specs.Framing.{request_kind, transmission_of};
ghost use Rattle.d0_segments.specs.FramedParts.{framed_parts};
ghost use Rattle.claim_profile.specs.Readable.{readable_header};

use crate::book::Book;
use crate::book::hint::likely_said;
use crate::book::row::Row;
use crate::fault::RowFault;
use crate::ruling::drafting::Draft;
use crate::ruling::pricing::Prices;
use claim_model::bytes_keep_laws;
use claim_profile::{Answer, AnswerFault, check_readable, read_answer};
use d0_header::RequestHeader;
use d0_segments::Framed;
use envelope::TxnId;
use std::alloc::Global;

impl Book {
    /// Adds a row of which the request and the answer were kept. What it paid need not be what the plan pays now.
    ///
    /// # Errors
    /// `BadRow` where the book is full or has the id, where the request is not readable, and where the answer is not
    /// the one that the rules give after the rows before. The book is as it was after each error.
    pub(crate) fn add(&mut self, id: TxnId, request: &[u8], answer: &[u8]) -> Result<(), RowFault>
        ensures ok { OnOk result (added self.old id request.now answer.now ≡ Some self.new) }
        ensures err { OnErr result (self.new ≡ self.old) }
        ensures fault { IfErr result (λ e. e ≢ OutOfMemory → added self.old id request.now answer.now ≡ None) }
    {
        if !self.takes(id) {
            return Err(RowFault::BadRow);
        }
        let alloc = self.allocator();
        let mut draft = self.lend_draft(alloc);
        let result = self.add_new(alloc, &mut draft, id, request, answer);
        self.keep_draft(draft);
        result
    }

    /// Whether there is room for a row of that id, which no row has.
    fn takes(&self, id: TxnId) -> bool
        ensures { result ≡ (nat_lt (length self.now.rows) self.now.settings.cap && is_none (row_of id self.now.rows)) }
    {
        self.rows().len() < self.settings().cap() as usize && self.row_for(id).is_none()
    }

    /// Adds a row that there is room for.
    fn add_new(
        &mut self,
        alloc: Global,
        draft: &mut Draft,
        id: TxnId,
        request: &[u8],
        answer: &[u8],
    ) -> Result<(), RowFault>
        requires { (nat_lt (length self.old.rows) self.old.settings.cap && is_none (row_of id self.old.rows)) ≡ true }
        ensures ok { OnOk result (with_kept self.old id request.now answer.now ≡ Some self.new) }
        ensures err { OnErr result (self.new ≡ self.old) }
        ensures fault { IfErr result (λ e. e ≢ OutOfMemory → with_kept self.old id request.now answer.now ≡ None) }
    {
        let row = self.kept_row(alloc, draft, id, request, answer)?;
        self.enter(row, draft.changes.as_slice())?;
        Ok(())
    }

    /// The row of a request and its answer, which is the one that the rules give for what it says; the draft then has
    /// what the row changes.
    fn kept_row(
        &self,
        alloc: Global,
        draft: &mut Draft,
        id: TxnId,
        request: &[u8],
        answer: &[u8],
    ) -> Result<Row, RowFault>
        ensures made { IfOk result (λ row. IsEntry self.now row draft.new.changes.items) }
        ensures id { IfOk result (λ row. row.id ≡ id) }
        ensures row { IfOk result (λ row. with_kept self.now id request.now answer.now ≡ Some (with_row self.now row)) }
        ensures fault { IfErr result (λ e. e ≢ OutOfMemory → with_kept self.now id request.now answer.now ≡ None) }
    {
        let framed = match check_readable(request) {
            Some(framed) => framed,
            None => return Err(RowFault::BadRow),
        };
        match self.likely_row(alloc, draft, id, &framed, request, answer) {
            Some(row) => Ok(row),
            None => self.said_row(alloc, draft, id, &framed, request, answer),
        }
    }

    /// The row of a readable request and its answer, whose parts are taken from where an answer most likely has them. None
    /// where that leads to another answer, or to no row: then the answer has to be read.
    fn likely_row(
        &self,
        alloc: Global,
        draft: &mut Draft,
        id: TxnId,
        framed: &Framed<'_, RequestHeader>,
        request: &[u8],
        answer: &[u8],
    ) -> Option<Row>
        requires parts { transmission_of request_kind request.now ≡ Some (framed_parts framed.now) }
        requires readable { readable_header request.now ≡ Some framed.now.header }
        ensures made { IfSome result (λ row. IsEntry self.now row draft.new.changes.items) }
        ensures id { IfSome result (λ row. row.id ≡ id) }
        ensures row { IfSome result (λ row. with_kept self.now id request.now answer.now ≡ Some (with_row self.now row)) }
    {
        let likely = [likely_said(&self.settings, answer)?];
        let prices = Prices::Kept {
            asks: self.settings.asks(),
            reversals: self.settings.reversals(),
            said: &likely,
        };
        let row = self
            .prepare(alloc, draft, id, framed, request, prices, Some(answer))
            .ok()?;
        if row.answer() == answer {
            Some(row)
        } else {
            None
        }
    }

    /// The same row by what its answer says.
    fn said_row(
        &self,
        alloc: Global,
        draft: &mut Draft,
        id: TxnId,
        framed: &Framed<'_, RequestHeader>,
        request: &[u8],
        answer: &[u8],
    ) -> Result<Row, RowFault>
        requires parts { transmission_of request_kind request.now ≡ Some (framed_parts framed.now) }
        requires readable { readable_header request.now ≡ Some framed.now.header }
        ensures made { IfOk result (λ row. IsEntry self.now row draft.new.changes.items) }
        ensures id { IfOk result (λ row. row.id ≡ id) }
        ensures row { IfOk result (λ row. with_kept self.now id request.now answer.now ≡ Some (with_row self.now row)) }
        ensures fault { IfErr result (λ e. e ≢ OutOfMemory → with_kept self.now id request.now answer.now ≡ None) }
    {
        let said = said(alloc, answer)?;
        let prices = Prices::Kept {
            asks: self.settings.asks(),
            reversals: self.settings.reversals(),
            said: said.rulings(),
        };
        let row = self.prepare(alloc, draft, id, framed, request, prices, Some(answer))?;
        if row.answer() != answer {
            return Err(RowFault::BadRow);
        }
        Ok(row)
    }
}

/// What a kept answer says.
fn said(alloc: Global, answer: &[u8]) -> Result<Answer, RowFault>
    ensures read { IfOk result (λ a. reading.read_answer answer.now
        ≡ Some (record { header = a.header; rulings = a.rulings })) }
    ensures says { IfOk result (λ a. AdvisesWell a.rulings) }
    ensures fault { IfErr result (λ e. e ≢ OutOfMemory → reading.read_answer answer.now ≡ None) }
{
    bytes_keep_laws();
    match read_answer(alloc, answer) {
        Ok(answer) => Ok(answer),
        Err(AnswerFault::OutOfMemory) => Err(RowFault::OutOfMemory),
        Err(_) => Err(RowFault::BadRow),
    }
}
