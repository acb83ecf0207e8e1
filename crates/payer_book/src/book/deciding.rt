//! What a book decides on a request: the row that it has for it, or a new one. The book is not changed here.

ghost use Rattle.std.specs.Prelude.{◌≡◌, IfOk, OnOk, Some, None};
ghost use Rattle.claim_model.specs.Laws.{AdvisesWell};
ghost use Rattle.payer_book.specs.Advices.{advice_seen};
ghost use Rattle.payer_book.specs.Drafts.{pricing, pricing_of, Suits};
ghost use Rattle.payer_book.specs.MadeBooks.{ArePrices};
ghost use Rattle.claim_model.specs.Bytes.{bytes_with};
ghost use Rattle.claim_model.specs.Readable.{is_payer, payer_for, route_key};
ghost use Rattle.claim_model.specs.Book.{row_of};
ghost use Rattle.payer_book.specs.Deciding.{IsKnown, IsAgain, IsNew};
ghost use Rattle.payer_book.specs.Answers.{Refuses};

use crate::book::Book;
use crate::book::advice::Advice;
use crate::book::row::Row;
use crate::ruling::drafting::Draft;
use crate::ruling::pricing::Prices;
use bin_routes::{PayerNo, RouteKey, Routes};
use claim_model::{Fault, Refusal};
use claim_profile::check_readable;
use d0_header::RequestHeader;
use envelope::TxnId;
use std::alloc::Global;

impl Book {
    /// The place of the row that has the request and the id already; None where no row has the id. Where the request is
    /// a new one under an old id, the first that stands of `Unreadable`, `NotOurs` and `NumberReused`.
    pub(crate) fn known(
        &self,
        routes: &Routes,
        id: TxnId,
        request: &[u8],
        advice: Advice<'_>,
    ) -> Result<Option<usize>, Fault>
        ensures known { IfOk result
            (λ place. IsKnown (bytes_with routes.now) self.now (advice_seen advice.entry) id request.now place) }
        ensures fault { Refuses routes.now self.now (advice_seen advice.entry) id request.now result }
    {
        let Some(place) = self.place_of(id) else {
            return Ok(None);
        };
        self.decide_known(routes, id, self.row_at(place), request, advice)?;
        Ok(Some(place))
    }

    /// Whether a request gets the answer of the row that has its id.
    fn decide_known(
        &self,
        routes: &Routes,
        id: TxnId,
        row: &Row,
        request: &[u8],
        advice: Advice<'_>,
    ) -> Result<(), Fault>
        requires { row_of id self.now.rows ≡ Some row.now }
        ensures decided { OnOk result
            (IsAgain (bytes_with routes.now) self.now (advice_seen advice.entry) id request.now row.now) }
        ensures fault { Refuses routes.now self.now (advice_seen advice.entry) id request.now result }
    {
        if row.request() == request {
            return self.decide_again(routes, id, row, advice);
        }
        let framed = match check_readable(request) {
            Some(framed) => framed,
            None => return Err(Fault::Refused(Refusal::Unreadable)),
        };
        if !leads_to(routes, id, framed.header(), self.payer()) {
            return Err(Fault::Refused(Refusal::NotOurs));
        }
        Err(Fault::Refused(Refusal::NumberReused))
    }

    /// Whether a row's own request gets its answer. It is readable, as the request of every row, so only its route is
    /// asked.
    fn decide_again(
        &self,
        routes: &Routes,
        id: TxnId,
        row: &Row,
        _advice: Advice<'_>,
    ) -> Result<(), Fault>
        requires { row_of id self.now.rows ≡ Some row.now }
        ensures decided { OnOk result
            (IsAgain (bytes_with routes.now) self.now (advice_seen _advice.entry) id row.now.request row.now) }
        ensures fault { Refuses routes.now self.now (advice_seen _advice.entry) id row.now.request result }
    {
        let key = row.route_key();
        if !is_routed(routes, id, &key, self.payer()) {
            return Err(Fault::Refused(Refusal::NotOurs));
        }
        Ok(())
    }

    /// The row that a request gets under an id that has none, with an advice; the draft then has what the row changes.
    pub(crate) fn decide_new(
        &self,
        alloc: Global,
        draft: &mut Draft,
        routes: &Routes,
        id: TxnId,
        request: &[u8],
        advice: Advice<'_>,
    ) -> Result<Row, Fault>
        requires fresh { row_of id self.now.rows ≡ None }
        requires advice { AdvisesWell (advice_seen advice).rulings }
        ensures decided { IfOk result
            (λ row. IsNew (bytes_with routes.now) self.now (advice_seen advice.entry) id request.now row draft.new.changes.items) }
        ensures fault { Refuses routes.now self.now (advice_seen advice.entry) id request.now result }
    {
        let framed = match check_readable(request) {
            Some(framed) => framed,
            None => return Err(Fault::Refused(Refusal::Unreadable)),
        };
        if !leads_to(routes, id, framed.header(), self.payer) {
            return Err(Fault::Refused(Refusal::NotOurs));
        }
        if self.rows.len() >= self.settings.cap() as usize {
            return Err(Fault::Refused(Refusal::BookFull));
        }
        let prices = self.prices(advice);
        let said = advice.given();
        let row = self.prepare(alloc, draft, id, &framed, request, prices, said)?;
        if draft.advised {
            Ok(row)
        } else {
            Err(Fault::Refused(Refusal::NotAdvised))
        }
    }

    /// Where the verdicts on claims and the consents to reversals come from: the plan, or where the payer asks an advice.
    fn prices<'a>(&'a self, advice: Advice<'a>) -> Prices<'a>
        requires { AdvisesWell (advice_seen advice).rulings }
        ensures pricing { pricing result ≡ pricing_of self.now (advice_seen advice.entry) }
        ensures prices { ArePrices (pricing result) }
        ensures suits { Suits (pricing result) self.now.settings }
    {
        if self.settings.asks() {
            Prices::Kept {
                asks: true,
                reversals: self.settings.reversals(),
                said: advice.rulings,
            }
        } else {
            Prices::Plan(&self.plan)
        }
    }
}

/// Whether the request of an id and this header is routed to the payer.
fn leads_to(routes: &Routes, id: TxnId, header: &RequestHeader, payer: PayerNo) -> bool
    ensures { (result ≡ is_payer payer (payer_for (bytes_with routes.now) id header.now)) }
{
    is_routed(routes, id, &key_of(header), payer)
}

/// What a route may look at in a header.
fn key_of(header: &RequestHeader) -> RouteKey
    ensures { result ≡ route_key header.now }
{
    RouteKey {
        bin: header.bin(),
        pcn: header.pcn(),
        qualifier: header.qualifier(),
        provider: header.provider(),
    }
}

/// Whether what a route may look at is routed to the payer, for the request of an id.
fn is_routed(routes: &Routes, id: TxnId, key: &RouteKey, payer: PayerNo) -> bool
    ensures { (result ≡ is_payer payer ((bytes_with routes.now).route id.number key.now)) }
{
    match routes.payer_under(id.number(), key) {
        Some(other) => other.get() == payer.get(),
        None => false,
    }
}
