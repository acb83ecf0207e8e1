//! Which requests this product carries.

ghost use Rattle.std.specs.Prelude.{◌≡◌, None, Some, IfSome, IfOk, IfErr, MatchOption};
ghost use Rattle.d0_segments.specs.Framing.{request_kind, transmission_of};
ghost use Rattle.d0_segments.specs.FramedParts.{framed_parts};
ghost use Rattle.d0_segments.specs.Transmissions.{transmission_parts};
ghost use Rattle.claim_profile.specs.Readable.{RefusesFor, fault_of_framing, is_carried, readable_header};

use crate::names::is_same;
use crate::transaction::TransactionCode;
use d0_header::RequestHeader;
use d0_segments::{Framed, FramingFault, Transmission, check_request, read_request};
use std::alloc::Global;
use thiserror::Error;

/// The most bytes of a request: as many as an envelope takes (own).
pub const LONGEST_REQUEST: usize = 32_768;

/// Why a text is not taken as a request.
#[derive(Clone, Copy, Debug, PartialEq, Eq, Error)]
pub enum RequestFault {
    /// Memory was refused.
    #[error("out of memory")]
    OutOfMemory,
    /// The text has more than 32,768 bytes, is not framed as a request, is not of version `D0` (102-A2),
    /// or is neither a billing (`B1`) nor a reversal (`B2`, 103-A3).
    #[error("the request is no billing or reversal of at most 32,768 bytes")]
    Unreadable,
}

/// Reads a request that this product carries: at most 32,768 bytes, framed, of version `D0` (102-A2),
/// and a billing (`B1`) or a reversal (`B2`, 103-A3) of one to four transactions.
///
/// # Errors
/// `Unreadable` for every other text; `OutOfMemory` may stand in place of any answer.
#[tactic(auto, using(crate::proofs::ReadableLemmas::long_text, crate::proofs::ReadableLemmas::framing_refuses))]
pub fn read_readable(
    alloc: Global,
    request: &[u8],
) -> Result<Transmission<'_, RequestHeader>, RequestFault>
    // What was read is the transmission of these bytes.
    ensures parts { IfOk result (λ t. transmission_of request_kind request.now ≡ Some (transmission_parts t)) }
    ensures readable { IfOk result (λ t. readable_header request.now ≡ Some t.header) }
    // Another text is refused for its own sake, unless memory ran out.
    ensures fault { IfErr result (λ e. RefusesFor e (readable_header request.now)) }
{
    if request.len() > LONGEST_REQUEST {
        return Err(RequestFault::Unreadable);
    }
    let transmission = match read_request(alloc, request) {
        Ok(transmission) => transmission,
        Err(fault) => return Err(fault_of_framing(fault)),
    };
    if is_carried(transmission.header()) {
        Ok(transmission)
    } else {
        Err(RequestFault::Unreadable)
    }
}

/// Tells whether this product carries a request, as [`read_readable`] does, without building it. Takes
/// no memory.
#[tactic(auto, using(crate::proofs::ReadableLemmas::long_text, crate::proofs::ReadableLemmas::fault_refuses))]
pub fn check_readable(request: &[u8]) -> Option<Framed<'_, RequestHeader>>
    // What was read is the transmission of these bytes.
    ensures parts { IfSome result (λ framed. transmission_of request_kind request.now ≡ Some (framed_parts framed)) }
    // Exactly the readable ones are taken.
    ensures readable { MatchOption result (readable_header request.now ≡ None)
        (λ framed. readable_header request.now ≡ Some framed.header) }
{
    if request.len() > LONGEST_REQUEST {
        return None;
    }
    let framed = match check_request(request) {
        Ok(framed) => framed,
        Err(_) => return None,
    };
    if is_carried(framed.header()) {
        Some(framed)
    } else {
        None
    }
}

/// The fault of a request whose framing has this fault.
fn fault_of_framing(fault: FramingFault) -> RequestFault
    ensures { result ≡ fault_of_framing fault }
{
    match fault {
        FramingFault::OutOfMemory => RequestFault::OutOfMemory,
        _ => RequestFault::Unreadable,
    }
}

/// Whether a header is that of a billing or a reversal of version `D0`.
fn is_carried(header: &RequestHeader) -> bool
    ensures { result ≡ is_carried header.now }
{
    is_same(header.version(), *b"D0") && TransactionCode::read(header.code()).is_some()
}
