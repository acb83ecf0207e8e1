//! Transactions of a pharmacy: open ones, which have a packet to send, and settled ones, which have an
//! answer.

ghost use Rattle.std.specs.Prelude.{◌≡◌, ◌≢◌, ◌≤◌, true, false, IsSome, IfOk, IfErr, OnOk, length};
ghost use Rattle.bin_routes.specs.Table.{RouteMaps};
ghost use Rattle.d0_header.specs.Request.{request_of};
ghost use Rattle.claim_profile.specs.Readable.{readable_header};
ghost use Rattle.claim_model.specs.Readable.{settles};
ghost use Rattle.claim_model.specs.Bytes.{bytes_with};
ghost use Rattle.envelope.specs.Envelope.{envelope_text};
ghost use Rattle.envelope.specs.declared.opening.Kind.TheVariants.{Request};
ghost use Rattle.pharmacy_journal.specs.Reading.{has_same_words, settles_with};
ghost use Rattle.pharmacy_journal.specs.declared.fault.SettleFault.TheVariants.{OutOfMemory};

use crate::fault::SettleFault;
use claim_profile::{check_answer, code_of, count_of};
use d0_header::ResponseHeader;
use envelope::{HEAD, Kind, TxnId, WriteFault, payload_is_behind_its_head, write};
use octets::Octets;
use std::alloc::{AllocError, Global};
use std::marker::Model;

/// A transaction that waits for its answer: its number and a readable request. It alone has a packet.
#[derive(Drop)]
pub struct OpenTxn {
    id: TxnId,
    request: Octets,
    /// The packet, where it was written once: the request is its end.
    packet: Option<Octets>,
}

impl Model for OpenTxn {
    ghost use Rattle.std.specs.Prelude.{◌≡◌, IsSome};
    ghost use Rattle.std.specs.Option.{ForSome};
    ghost use Rattle.envelope.specs.Envelope.{envelope_text};
    ghost use Rattle.envelope.specs.declared.opening.Kind.TheVariants.{Request};
    ghost use Rattle.claim_profile.specs.Readable.{readable_header};
    ghost use Rattle.pharmacy_journal.specs.Transactions.{Submission};

    ghost Value = { Submission };

    ghost view = { λ t. record { id = t.id; request = t.request } };

    ghost invariant = { λ t. (IsSome (readable_header t.request))
        × (ForSome t.packet (λ packet. packet ≡ envelope_text Request t.id t.request)) };
}

/// A transaction that has its answer. It has no packet.
#[derive(Drop)]
pub struct SettledTxn {
    id: TxnId,
    request: Octets,
    answer: Octets,
}

impl Model for SettledTxn {
    ghost use Rattle.std.specs.Prelude.{◌≡◌, true, IsSome};
    ghost use Rattle.claim_profile.specs.Readable.{readable_header};
    ghost use Rattle.pharmacy_journal.specs.Reading.{settles_with};
    ghost use Rattle.pharmacy_journal.specs.Transactions.{Settlement};

    ghost Value = { Settlement };

    ghost view = { λ t. record { id = t.id; request = t.request; answer = t.answer } };

    ghost invariant = { λ t. (IsSome (readable_header t.request)) × (settles_with t.request t.answer ≡ true) };
}

impl OpenTxn {
    /// The transaction of this number with a readable request: at most 32,768 bytes, framed, of version
    /// `D0`, a billing or a reversal.
    pub fn new(id: TxnId, request: Vec<u8>) -> OpenTxn
        requires { IsSome (readable_header request.items) }
        ensures { result ≡ record { id = id; request = request.items } }
    {
        OpenTxn {
            id,
            request: Octets::from_vec(request),
            packet: None,
        }
    }

    /// The transaction of this number with a readable request, which stands in its packet.
    pub(crate) fn in_packet(alloc: Global, id: TxnId, request: &[u8]) -> Result<OpenTxn, AllocError>
        requires { IsSome (readable_header request.now) }
        ensures { IfOk result (λ t. t ≡ record { id = id; request = request.now }) }
    {
        payload_is_behind_its_head();
        let packet = request_packet(alloc, id, request)?.shared();
        let request = packet.tail(HEAD)?;
        Ok(OpenTxn {
            id,
            request,
            packet: Some(packet),
        })
    }

    /// Its number.
    pub fn id(&self) -> TxnId
        ensures { result ≡ self.now.id }
    {
        self.id
    }

    /// The request's bytes.
    pub fn request(&self) -> &[u8]
        ensures value { result.now ≡ self.now.request }
        ensures readable { IsSome (readable_header self.now.request) }
    {
        self.request.as_slice()
    }

    /// The envelope that carries the request, of kind 1. A packet that was written once takes no memory.
    #[inline(always)]
    pub fn packet(&self, alloc: Global) -> Result<Octets, AllocError>
        ensures { IfOk result (λ packet. packet ≡ envelope_text Request self.now.id self.now.request) }
    {
        match &self.packet {
            Some(packet) => packet.copy(),
            None => request_packet(alloc, self.id, self.request.as_slice()),
        }
    }

    /// Settles the transaction with an answer, which it keeps. Where the answer does not fit, transaction
    /// and bytes come back.
    pub fn settle(self, answer: Vec<u8>) -> Result<SettledTxn, (OpenTxn, Vec<u8>, SettleFault)>
        ensures kept { IfOk result (λ t. t ≡ record { id = self.id; request = self.request; answer = answer.items }) }
        ensures fits { (routes : RouteMaps)
            → OnOk result (settles (bytes_with routes) self.request answer.items ≡ true) }
        ensures back { IfErr result (λ e. (e.0 ≡ self) × (e.1.items ≡ answer.items)) }
        ensures fault { (routes : RouteMaps) → IfErr result
            (λ e. e.2 ≢ OutOfMemory → settles (bytes_with routes) self.request answer.items ≡ false) }
    {
        match judge(self.request.as_slice(), answer.as_slice()) {
            Ok(()) => Ok(self.settled(Octets::from_vec(answer))),
            Err(fault) => Err((self, answer, fault)),
        }
    }

    /// The transaction with an answer that fits.
    pub(crate) fn settled(self, answer: Octets) -> SettledTxn
        requires { settles_with self.request answer ≡ true }
        ensures { result ≡ record { id = self.id; request = self.request; answer = answer } }
    {
        let OpenTxn {
            id,
            request,
            packet: _,
        } = self;
        SettledTxn {
            id,
            request,
            answer,
        }
    }
}

impl SettledTxn {
    /// Its number.
    pub fn id(&self) -> TxnId
        ensures { result ≡ self.now.id }
    {
        self.id
    }

    /// The request's bytes.
    pub fn request(&self) -> &[u8]
        ensures value { result.now ≡ self.now.request }
        ensures readable { IsSome (readable_header self.now.request) }
    {
        self.request.as_slice()
    }

    /// The answer's bytes.
    pub fn answer(&self) -> &[u8]
        ensures value { result.now ≡ self.now.answer }
        ensures fits { settles_with self.now.request self.now.answer ≡ true }
    {
        self.answer.as_slice()
    }
}

/// The envelope that carries a readable request. It is written once for a transaction, and its code stays out of the calls that send it
/// again.
#[inline(never)]
#[tactic(auto, using(crate::proofs::ReadingLemmas::readable_short))]
fn request_packet(alloc: Global, id: TxnId, request: &[u8]) -> Result<Octets, AllocError>
    requires { IsSome (readable_header request.now) }
    ensures { IfOk result (λ packet. packet ≡ envelope_text Request id request.now) }
{
    match write(alloc, Kind::Request, id, request) {
        Ok(packet) => Ok(Octets::from_vec(packet)),
        Err(WriteFault::OutOfMemory) => Err(AllocError),
        Err(WriteFault::TooLong) => unreachable!(),
    }
}

/// Whether an answer settles a readable request: it reads as an answer of the request's code and count.
#[tactic(auto, using(crate::proofs::ReadingLemmas::settles_none))]
pub(crate) fn judge(request: &[u8], answer: &[u8]) -> Result<(), SettleFault>
    requires { IsSome (readable_header request.now) }
    ensures ok { OnOk result (settles_with request.now answer.now ≡ true) }
    ensures fault { IfErr result (λ e. e ≢ OutOfMemory → settles_with request.now answer.now ≡ false) }
{
    let answered = match check_answer(answer) {
        Ok(answered) => answered,
        Err(_) => return Err(SettleFault::Unreadable),
    };
    if fits(request, &answered) {
        Ok(())
    } else {
        Err(SettleFault::Unreadable)
    }
}

/// Whether a response has a readable request's code and count.
fn fits(request: &[u8], response: &ResponseHeader) -> bool
    requires { IsSome (readable_header request.now) }
    ensures { result ≡ has_same_words response.now (request_of request.now) }
{
    response.code() == code_of(request) && response.count() == count_of(request)
}
