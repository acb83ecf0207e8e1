//! Whether what logs begin with agrees: rows with what pharmacies submitted, answers with what was decided.

ghost use Rattle.std.specs.Prelude.{◌≡◌, ◌<◌, ◌≤◌, ◌+◌, Some, length, IfOk};
ghost use Rattle.claim_model.specs.Bytes.{bytes_with};
ghost use Rattle.claim_model.specs.Held.{book_in, journal_in};
ghost use Rattle.claim_model.specs.Limits.{most_pharmacies};
ghost use Rattle.node_log.specs.Fits.{Tells};
ghost use Rattle.vouched_runs.specs.Agreeing.{Agree, payer_of};
ghost use Rattle.days_audit.specs.Agreeing.{AllAnswersFit, AllRowsFit, AnswerFits, BookFits, Each, Finds, JournalFits, RowFits};

use crate::live::Live;
use crate::said::is_one;
use bin_routes::Routes;
use claim_model::readable_requests;
use claim_profile::check_readable;
use envelope::TxnId;
use node_state::{JournalReading, PayerNode, PharmacyNode};
use payer_book::Row;
use request_route::key_of;
use std::alloc::{AllocError, Global};

/// Something in which states do not agree.
#[derive(Clone, Copy)]
pub(crate) enum Misfit {
    /// A row of this payer, by its number, of this id: its pharmacy does not have that request under it, or the request is routed to
    /// another payer, or to none.
    Row(usize, TxnId),
    /// The answer that a pharmacy has under this id was not decided.
    Answer(TxnId),
}

impl Live {
    /// The first thing in which these states do not agree: of rows, and then of answers.
    pub(crate) fn misfit(
        &self,
        alloc: Global,
        routes: &Routes,
    ) -> Result<Option<Misfit>, AllocError>
        requires { length self.now.pharmacies ≤ most_pharmacies }
        ensures { IfOk result (λ found. Finds found (Agree (bytes_with routes.now) self.now)) }
    {
        match self.odd_row(alloc, routes)? {
            Some(misfit) => Ok(Some(misfit)),
            None => self.odd_answer(alloc, routes),
        }
    }

    /// The first row that does not agree.
    fn odd_row(&self, alloc: Global, routes: &Routes) -> Result<Option<Misfit>, AllocError>
        ensures { IfOk result (λ found. Finds found (AllRowsFit (bytes_with routes.now) self.now)) }
    {
        self.odd_row_among(alloc, routes, self.payers.as_slice())
    }

    /// The first row of these payers, numbered from 1, that does not.
    fn odd_row_among(
        &self,
        alloc: Global,
        routes: &Routes,
        nodes: &[PayerNode],
    ) -> Result<Option<Misfit>, AllocError>
        ensures { IfOk result (λ found. Finds found
            (Each (λ k s. BookFits (bytes_with routes.now) self.now (k + 1) (book_in s)) nodes.now)) }
    {
        for (place, node) in nodes.iter().enumerate() {
            match self.odd_row_of(alloc, routes, place + 1, node)? {
                Some(misfit) => return Ok(Some(misfit)),
                None => {}
            }
        }
        Ok(None)
    }

    /// The first row of a payer that does not.
    fn odd_row_of(
        &self,
        alloc: Global,
        routes: &Routes,
        payer: usize,
        node: &PayerNode,
    ) -> Result<Option<Misfit>, AllocError>
        ensures { IfOk result (λ found. Finds found
            (BookFits (bytes_with routes.now) self.now payer (book_in node.now))) }
    {
        let reading = node.book(alloc)?;
        self.odd_row_in(alloc, routes, payer, reading.book().rows())
    }

    /// The first of these rows of a payer that does not.
    fn odd_row_in(
        &self,
        alloc: Global,
        routes: &Routes,
        payer: usize,
        rows: &[Row],
    ) -> Result<Option<Misfit>, AllocError>
        ensures { IfOk result (λ found. Finds found
            (Each (λ k row. RowFits (bytes_with routes.now) self.now payer row) rows.now)) }
    {
        for row in rows {
            if !self.row_fits(alloc, routes, payer, row)? {
                return Ok(Some(Misfit::Row(payer, row.id())));
            }
        }
        Ok(None)
    }

    /// Whether a row of a payer does.
    fn row_fits(
        &self,
        alloc: Global,
        routes: &Routes,
        payer: usize,
        row: &Row,
    ) -> Result<bool, AllocError>
        ensures { IfOk result (λ yes. Tells yes (RowFits (bytes_with routes.now) self.now payer row.now)) }
    {
        let asked = self.asked(alloc, row.id())?;
        Ok(is_one(&asked, row.request()) && is_routed_to(routes, row, payer))
    }

    /// The first answer of a pharmacy that does not agree.
    fn odd_answer(&self, alloc: Global, routes: &Routes) -> Result<Option<Misfit>, AllocError>
        requires { length self.now.pharmacies ≤ most_pharmacies }
        ensures { IfOk result (λ found. Finds found (AllAnswersFit (bytes_with routes.now) self.now)) }
    {
        self.odd_answer_among(alloc, routes, self.pharmacies.as_slice())
    }

    /// The first answer of these pharmacies, numbered from 1, that does not.
    fn odd_answer_among(
        &self,
        alloc: Global,
        routes: &Routes,
        nodes: &[PharmacyNode],
    ) -> Result<Option<Misfit>, AllocError>
        requires { length nodes.now ≤ most_pharmacies }
        ensures { IfOk result (λ found. Finds found
            (Each (λ k s. JournalFits (bytes_with routes.now) self.now (k + 1) (journal_in s)) nodes.now)) }
    {
        for (place, node) in nodes.iter().enumerate() {
            match self.odd_answer_of(alloc, routes, place as u16 + 1, node)? {
                Some(misfit) => return Ok(Some(misfit)),
                None => {}
            }
        }
        Ok(None)
    }

    /// The first answer of the pharmacy of this number that does not.
    fn odd_answer_of(
        &self,
        alloc: Global,
        routes: &Routes,
        pharmacy: u16,
        node: &PharmacyNode,
    ) -> Result<Option<Misfit>, AllocError>
        requires { 0 < pharmacy }
        ensures { IfOk result (λ found. Finds found
            (JournalFits (bytes_with routes.now) self.now pharmacy (journal_in node.now))) }
    {
        let journal = node.journal(alloc)?;
        self.odd_answer_in(alloc, routes, pharmacy, &journal)
    }

    /// The first answer in the journal of the pharmacy of this number that does not.
    fn odd_answer_in(
        &self,
        alloc: Global,
        routes: &Routes,
        pharmacy: u16,
        journal: &JournalReading<'_>,
    ) -> Result<Option<Misfit>, AllocError>
        requires { 0 < pharmacy }
        ensures { IfOk result (λ found. Finds found (JournalFits (bytes_with routes.now) self.now pharmacy journal.now)) }
    {
        for passed in 0..journal.entries() {
            let Some(id) = TxnId::new(pharmacy, passed as u64 + 1) else {
                continue;
            };
            if !self.answer_fits(alloc, routes, id, journal)? {
                return Ok(Some(Misfit::Answer(id)));
            }
        }
        Ok(None)
    }

    /// Whether the answer of a journal under an id does, if there is one.
    fn answer_fits(
        &self,
        alloc: Global,
        routes: &Routes,
        id: TxnId,
        journal: &JournalReading<'_>,
    ) -> Result<bool, AllocError>
        ensures { IfOk result (λ yes. Tells yes (AnswerFits (bytes_with routes.now) self.now id journal.now)) }
    {
        match journal.held(id.number()) {
            Some(answer) => {
                let decided = self.decided(alloc, routes, id)?;
                Ok(is_one(&decided, answer))
            }
            None => Ok(true),
        }
    }
}

/// Whether the request of a row is routed to the payer of this number.
fn is_routed_to(routes: &Routes, row: &Row, payer: usize) -> bool
    ensures { Tells result (payer_of (bytes_with routes.now) row.now ≡ Some payer) }
{
    readable_requests();
    let Some(framed) = check_readable(row.request()) else {
        return false;
    };
    routes
        .payer_under(row.id().number(), &key_of(framed.header()))
        .is_some_and(|found| found.get() as usize == payer)
}
