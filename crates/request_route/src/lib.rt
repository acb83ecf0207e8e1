//! Whether a request has a route, so that what answers it is a payer's; and whether an answer is a switch's.
#![tactic(auto)]

ghost use Rattle.std.specs.Prelude.{◌≡◌};
ghost use Rattle.claim_model.specs.Bytes.{bytes_with};
ghost use Rattle.claim_model.specs.Readable.{route_key};
ghost use Rattle.request_route.specs.Routed.{is_rejected, is_routed};

use bin_routes::{RouteKey, Routes};
use claim_model::readable_requests;
use claim_profile::check_readable;
use d0_header::RequestHeader;
use envelope::TxnId;

/// Whether the request of an id is one that this product carries, and has a route.
pub fn is_routed(routes: &Routes, id: TxnId, request: &[u8]) -> bool
    ensures { result ≡ is_routed (bytes_with routes.now) id request.now }
{
    readable_requests();
    match check_readable(request) {
        Some(framed) => routes
            .payer_under(id.number(), &key_of(framed.header()))
            .is_some(),
        None => false,
    }
}

/// Whether an answer has the status of a rejection (501-F1, the sixth byte), which is a switch's: that of each payer is another.
pub fn is_rejected(answer: &[u8]) -> bool
    ensures { result ≡ is_rejected answer.now }
{
    match answer.get(5) {
        Some(status) => *status == b'R',
        None => false,
    }
}

/// What a route may look at in a header.
pub fn key_of(header: &RequestHeader) -> RouteKey
    ensures { result ≡ route_key header.now }
{
    RouteKey {
        bin: header.bin(),
        pcn: header.pcn(),
        qualifier: header.qualifier(),
        provider: header.provider(),
    }
}
