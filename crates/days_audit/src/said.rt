//! What journals and books say of a packet.

ghost use Rattle.std.specs.Prelude.{◌≡◌, Some, IfOk, option_and_then};
ghost use Rattle.std.specs.Option.{option_copied};
ghost use Rattle.bin_routes.specs.Table.{RouteMaps};
ghost use Rattle.claim_model.specs.Bytes.{bytes_with};
ghost use Rattle.claim_model.specs.Held.{asked, decided, decided_by, decided_for, row_answer, row_at};
ghost use Rattle.claim_model.specs.Readable.{payer_for, readable};
ghost use Rattle.world_setup.specs.Seen.{call_seen};
ghost use Rattle.node_log.specs.Fits.{Tells};
ghost use Rattle.vouched_runs.specs.Parties.{world_of};
ghost use Rattle.claim_model.specs.Carried.{Carries, IsVouched, Says};

use crate::live::Live;
use bin_routes::Routes;
use claim_model::{bytes_keep_laws, envelopes_know_no_place, readable_requests};
use claim_profile::check_readable;
use d0_header::RequestHeader;
use envelope::{Envelope, Kind, TxnId};
use octets::Octets;
use request_route::key_of;
use std::alloc::{AllocError, Global};
use switch_node::rejection;
use world_setup::Call;

impl Live {
    /// Whether what these nodes have vouches for a call.
    pub(crate) fn vouches(
        &self,
        alloc: Global,
        routes: &Routes,
        call: &Call,
    ) -> Result<bool, AllocError>
        ensures { IfOk result (λ yes. Tells yes
            (IsVouched (bytes_with routes.now) (world_of self.now) (call_seen call.now))) }
    {
        match call {
            Call::Take { bytes, .. } | Call::Adjudicate { bytes, .. } => {
                self.carries(alloc, routes, bytes)
            }
            Call::Submit(_)
            | Call::Tick
            | Call::Stop
            | Call::Start
            | Call::Plan { .. }
            | Call::Terms { .. }
            | Call::Retry { .. }
            | Call::Cap { .. } => Ok(true),
        }
    }

    /// Whether a packet is one that journals and books vouch for: an envelope with the request that was submitted under its id,
    /// or with the answer that was decided for it.
    fn carries(&self, alloc: Global, routes: &Routes, packet: &Octets) -> Result<bool, AllocError>
        ensures { IfOk result (λ yes. Tells yes (Carries (bytes_with routes.now) (world_of self.now) packet.now)) }
    {
        bytes_keep_laws();
        envelopes_know_no_place();
        match Envelope::read(packet.as_slice()) {
            Ok(envelope) => self.says(alloc, routes, &envelope),
            Err(_) => Ok(false),
        }
    }

    /// Whether an envelope has what was submitted under its id, or decided for it.
    fn says(
        &self,
        alloc: Global,
        routes: &Routes,
        envelope: &Envelope<'_>,
    ) -> Result<bool, AllocError>
        ensures { IfOk result (λ yes. Tells yes (Says (bytes_with routes.now) (world_of self.now)
            envelope.now.id envelope.now.payload envelope.now.kind)) }
    {
        let said = match envelope.kind() {
            Kind::Request => self.asked(alloc, envelope.id())?,
            Kind::Answer => self.decided(alloc, routes, envelope.id())?,
        };
        Ok(is_one(&said, envelope.payload()))
    }

    /// The request that was submitted under an id.
    pub(crate) fn asked(&self, alloc: Global, id: TxnId) -> Result<Option<Octets>, AllocError>
        ensures { IfOk result (λ request. request ≡ asked (world_of self.now) id) }
    {
        match self.pharmacy(id.pharmacy()) {
            Some(node) => node.request(alloc, id.number()),
            None => Ok(None),
        }
    }

    /// The answer that was decided for an id.
    #[tactic(auto, unfolding(claim_model::specs::Held::decided))]
    pub(crate) fn decided(
        &self,
        alloc: Global,
        routes: &Routes,
        id: TxnId,
    ) -> Result<Option<Octets>, AllocError>
        ensures { IfOk result (λ answer. answer ≡ decided (bytes_with routes.now) (world_of self.now) id) }
    {
        match self.asked(alloc, id)? {
            Some(request) => self.decided_for(alloc, routes, id, request.as_slice()),
            None => Ok(None),
        }
    }

    /// The answer that was decided for an id with this request.
    fn decided_for(
        &self,
        alloc: Global,
        routes: &Routes,
        id: TxnId,
        request: &[u8],
    ) -> Result<Option<Octets>, AllocError>
        ensures { IfOk result (λ answer. answer ≡ decided_for (bytes_with routes.now) (world_of self.now) id
            (readable (bytes_with routes.now) request.now)) }
    {
        readable_requests();
        match check_readable(request) {
            Some(framed) => self.decided_by(alloc, routes, id, framed.header()),
            None => Ok(None),
        }
    }

    /// The answer of the payer to which a request of this header is routed, or the rejection where there is no route.
    fn decided_by(
        &self,
        alloc: Global,
        routes: &Routes,
        id: TxnId,
        header: &RequestHeader,
    ) -> Result<Option<Octets>, AllocError>
        ensures { IfOk result (λ answer. answer ≡ decided_by (bytes_with routes.now) (world_of self.now) id header.now
            (payer_for (bytes_with routes.now) id header.now)) }
    {
        match routes.payer_under(id.number(), &key_of(header)) {
            Some(payer) => self.held_by(alloc, payer.get(), id),
            None => Ok(Some(Octets::from_vec(rejection(alloc, header)?))),
        }
    }

    /// The answer of a payer's row of an id.
    fn held_by(&self, alloc: Global, payer: u16, id: TxnId) -> Result<Option<Octets>, AllocError>
        ensures { (routes : RouteMaps) → IfOk result (λ answer. answer
            ≡ option_and_then (row_answer (bytes_with routes)) (row_at (world_of self.now) payer id)) }
    {
        match self.payer(payer) {
            Some(node) => node.held(alloc, id),
            None => Ok(None),
        }
    }
}

/// Whether something was said, and is this.
pub(crate) fn is_one(said: &Option<Octets>, bytes: &[u8]) -> bool
    ensures { Tells result (said.now ≡ Some bytes.now) }
{
    match said {
        Some(said) => said.as_slice() == bytes,
        None => false,
    }
}
