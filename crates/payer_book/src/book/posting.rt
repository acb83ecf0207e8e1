//! Answering a request with a packet.

ghost use Rattle.std.specs.Prelude.{◌≡◌, ◌≤◌, length, None, OnErr, IfOk};
ghost use Rattle.envelope.specs.Envelope.{envelope_text, longest_payload};
ghost use Rattle.claim_model.specs.Words.{Response};
ghost use Rattle.claim_model.specs.Bytes.{bytes_with};
ghost use Rattle.claim_model.specs.Book.{row_of, unadvised};
ghost use Rattle.claim_model.specs.Laws.{AdvisesWell};
ghost use Rattle.claim_model.specs.Node.{advice_in};
ghost use Rattle.payer_book.specs.Advices.{advice_seen};
ghost use Rattle.payer_book.specs.Posted.{IsPosted, SendsBack};
ghost use Rattle.payer_book.specs.Answers.{Refuses};

use crate::book::Book;
use crate::book::advice::Advice;
use crate::ruling::drafting::Draft;
use bin_routes::Routes;
use claim_model::{Fault, bytes_keep_laws};
use claim_profile::{AnswerFault, Ruling, read_advice};
use envelope::{Kind, TxnId, write};
use octets::Octets;
use std::alloc::{AllocError, Global};

impl Book {
    /// Answers the request that came under that id as `answer` does, and gives the packet that takes the answer back: the
    /// envelope of kind answer with that id and the answer's bytes. Its memory is had before the book changes.
    ///
    /// # Errors
    /// In this order: `Unreadable`, `NotOurs`, `NumberReused`, `BookFull`, `SerialsUsedUp`. `OutOfMemory` may
    /// stand in place of any answer. The book is as it was after each of them.
    pub fn answer_packet(
        &mut self,
        routes: &Routes,
        id: TxnId,
        request: &[u8],
    ) -> Result<Octets, Fault>
        ensures ok { IfOk result (λ packet. IsPosted (bytes_with routes.now) self.old unadvised id request.now self.new packet) }
        ensures sent { SendsBack routes.now self.old unadvised id request.now self.new result }
        ensures fault { Refuses routes.now self.old unadvised id request.now result }
        ensures err { OnErr result (self.new ≡ self.old) }
    {
        self.packet_for(routes, id, request, Advice::none())
    }

    /// The same with an advice, whose bytes are those of an answer to the request: where the payer asks, a claim that is to be
    /// priced gets what the advice says at its place, and where its settings say so the answer carries what the advice says
    /// beside its rulings. Bytes that are no answer advise nothing.
    ///
    /// # Errors
    /// Those of `answer_packet`, in its order.
    pub fn advised_packet(
        &mut self,
        routes: &Routes,
        id: TxnId,
        request: &[u8],
        advice: &[u8],
    ) -> Result<Octets, Fault>
        ensures ok { IfOk result (λ packet. IsPosted (bytes_with routes.now) self.old
            (advice_in (bytes_with routes.now) advice.now) id request.now self.new packet) }
        ensures sent { SendsBack routes.now self.old (advice_in (bytes_with routes.now) advice.now) id request.now
            self.new result }
        ensures fault { Refuses routes.now self.old (advice_in (bytes_with routes.now) advice.now) id request.now result }
        ensures err { OnErr result (self.new ≡ self.old) }
    {
        let alloc = self.allocator();
        let rulings = advised(alloc, routes, advice)?;
        let said = Advice {
            rulings: rulings.as_slice(),
            text: advice,
        };
        self.packet_for(routes, id, request, said)
    }

    /// The packet that answers a request, with an advice.
    fn packet_for(
        &mut self,
        routes: &Routes,
        id: TxnId,
        request: &[u8],
        advice: Advice<'_>,
    ) -> Result<Octets, Fault>
        requires { AdvisesWell (advice_seen advice).rulings }
        ensures ok { IfOk result
            (λ packet. IsPosted (bytes_with routes.now) self.old (advice_seen advice.entry) id request.now self.new packet) }
        ensures sent { SendsBack routes.now self.old (advice_seen advice.entry) id request.now self.new result }
        ensures fault { Refuses routes.now self.old (advice_seen advice.entry) id request.now result }
        ensures err { OnErr result (self.new ≡ self.old) }
    {
        let alloc = self.allocator();
        if let Some(place) = self.known(routes, id, request, advice)? {
            return Ok(packet(alloc, id, self.row_at(place).answer())?);
        }
        let mut draft = self.lend_draft(alloc);
        let result = self.packet_new(alloc, &mut draft, routes, id, request, advice);
        self.keep_draft(draft);
        result
    }

    /// The packet that answers the request of a new id.
    fn packet_new(
        &mut self,
        alloc: Global,
        draft: &mut Draft,
        routes: &Routes,
        id: TxnId,
        request: &[u8],
        advice: Advice<'_>,
    ) -> Result<Octets, Fault>
        requires fresh { row_of id self.old.rows ≡ None }
        requires advice { AdvisesWell (advice_seen advice).rulings }
        ensures ok { IfOk result
            (λ packet. IsPosted (bytes_with routes.now) self.old (advice_seen advice.entry) id request.now self.new packet) }
        ensures fault { Refuses routes.now self.old (advice_seen advice.entry) id request.now result }
        ensures err { OnErr result (self.new ≡ self.old) }
    {
        let row = self.decide_new(alloc, draft, routes, id, request, advice)?;
        let packet = packet(alloc, id, row.answer())?;
        self.enter(row, draft.changes.as_slice())?;
        Ok(packet)
    }
}

/// The rulings of an advice; none where its bytes are no answer.
fn advised(alloc: Global, routes: &Routes, advice: &[u8]) -> Result<Vec<Ruling>, AllocError>
    ensures said { IfOk result (λ rulings. rulings.items ≡ (advice_in (bytes_with routes.now) advice.now).rulings) }
    ensures well { IfOk result (λ rulings. AdvisesWell rulings.items) }
{
    bytes_keep_laws();
    match read_advice(alloc, advice) {
        Ok(answer) => Ok(answer.into_rulings()),
        Err(AnswerFault::OutOfMemory) => Err(AllocError),
        Err(_) => Ok(Vec::new(alloc)),
    }
}

/// The envelope of an answer that is not too long.
fn packet(alloc: Global, id: TxnId, answer: &[u8]) -> Result<Octets, AllocError>
    requires { length answer.now ≤ longest_payload }
    ensures { IfOk result (λ packet. packet ≡ envelope_text Response id answer.now) }
{
    // The answer is not too long, so nothing but memory can be refused.
    match write(alloc, Kind::Answer, id, answer) {
        Ok(packet) => Ok(Octets::from_vec(packet).shared()),
        Err(_) => Err(AllocError),
    }
}
