//! Which envelopes a switch takes.

ghost use Rattle.std.specs.Prelude.{◌≡◌, IfErr, IsSome, OnOk};
ghost use Rattle.claim_model.specs.Bytes.{bytes_with};
ghost use Rattle.claim_model.specs.Readable.{is_request, payer_for, route_key};
ghost use Rattle.claim_profile.specs.Readable.{readable_header};
ghost use Rattle.d0_header.specs.Request.{request_of};
ghost use Rattle.switch_node.specs.Sent.{content, header_in};
ghost use Rattle.switch_node.specs.Steps.{HasHeader, IsNoRequest, HasAnswer, IsNoAnswer, HasRequest};

use bin_routes::{PayerNo, RouteKey, Routes};
use claim_model::{Fault, Refusal};
use claim_profile::{bin_of, check_answer, check_readable, pcn_of, provider_of, qualifier_of};
use d0_header::{RequestHeader, request_text_laws};
use envelope::{Envelope, Kind};

/// Tests that an envelope has a request.
pub fn expect_request(envelope: &Envelope<'_>) -> Result<(), Fault>
    ensures readable { OnOk result (HasRequest envelope.now) }
    ensures header { OnOk result (HasHeader envelope.now (header_in envelope.now)) }
    ensures fault { IfErr result (λ fault. IsNoRequest envelope.now fault) }
{
    if !is_request(envelope) {
        return Err(Fault::Refused(Refusal::Unreadable));
    }
    match check_readable(envelope.payload()) {
        Some(_) => Ok(()),
        None => Err(Fault::Refused(Refusal::Unreadable)),
    }
}

/// The payer of a request, by the routes. Of its header only what a route may look at is read, where it stands.
#[tactic(auto, unfolding(crate::specs::Sent::header_in))]
pub fn route_of(routes: &Routes, envelope: &Envelope<'_>) -> Option<PayerNo>
    requires { HasRequest envelope.now }
    ensures { result ≡ payer_for (bytes_with routes.now) envelope.now.id (header_in envelope.now) }
{
    routes.payer_under(envelope.id().number(), &key_of(envelope.payload()))
}

/// What a route may look at in a readable request.
fn key_of(request: &[u8]) -> RouteKey
    requires { IsSome (readable_header request.now) }
    ensures { result ≡ route_key (request_of request.now) }
{
    RouteKey {
        bin: bin_of(request),
        pcn: pcn_of(request),
        qualifier: qualifier_of(request),
        provider: provider_of(request),
    }
}

/// The header of a readable request: it is cut from the front, and what follows is not read.
#[tactic(auto, unfolding(crate::specs::Sent::header_in), using(claim_profile::proofs::Headers::readable_cut))]
pub fn header_of(envelope: &Envelope<'_>) -> RequestHeader
    requires { HasRequest envelope.now }
    ensures { result ≡ header_in envelope.now }
{
    request_text_laws();
    match RequestHeader::read(envelope.payload()) {
        Ok(header) => header,
        Err(_) => unreachable!(),
    }
}

/// Tests that an envelope has an answer.
pub fn expect_answer(envelope: &Envelope<'_>) -> Result<(), Fault>
    ensures read { OnOk result (HasAnswer envelope.now) }
    ensures fault { IfErr result (λ fault. IsNoAnswer envelope.now fault) }
{
    if is_request(envelope) {
        return Err(Fault::Refused(Refusal::Unreadable));
    }
    match check_answer(envelope.payload()) {
        Ok(_) => Ok(()),
        Err(_) => Err(Fault::Refused(Refusal::Unreadable)),
    }
}

/// Whether an envelope is that of a request.
fn is_request(envelope: &Envelope<'_>) -> bool
    ensures { result ≡ is_request (content envelope.now) }
{
    match envelope.kind() {
        Kind::Request => true,
        Kind::Answer => false,
    }
}
