//! Whether bytes are framed, told without memory.

ghost use Rattle.std.specs.Prelude.{◌≡◌, Some, IfOk};
ghost use Rattle.std.specs.Result.{result_err};
ghost use Rattle.d0_segments.specs.Framing.{request_kind, response_kind, transmission_of, framing_fault};
ghost use Rattle.d0_segments.specs.FramedParts.{framed_parts};

use crate::cursor::Cursor;
use crate::fault::FramingFault;
use crate::framed::Framed;
use crate::header::Header;
use crate::passing::count_groups;
use crate::tail::Tail;
use d0_header::{RequestHeader, ResponseHeader};

/// Tells whether all of the bytes are a request, without building it. Takes no memory.
pub fn check_request(bytes: &[u8]) -> Result<Framed<'_, RequestHeader>, FramingFault>
    ensures parts { IfOk result (λ framed. transmission_of request_kind bytes.now ≡ Some (framed_parts framed)) }
    // Which fault it is, and that there is none: the first one.
    ensures fault { result_err result ≡ framing_fault request_kind bytes.now }
{
    check(bytes)
}

/// Tells whether all of the bytes are a response, without building it. Takes no memory.
pub fn check_response(bytes: &[u8]) -> Result<Framed<'_, ResponseHeader>, FramingFault>
    ensures parts { IfOk result (λ framed. transmission_of response_kind bytes.now ≡ Some (framed_parts framed)) }
    // Which fault it is, and that there is none: the first one.
    ensures fault { result_err result ≡ framing_fault response_kind bytes.now }
{
    check(bytes)
}

/// Tells whether all of the bytes are a transmission with a header of this kind.
#[inline(always)]
#[tactic(auto, using(crate::proofs::Whole::header_fails, crate::proofs::Faultless::inside_body, crate::proofs::Left::groups_counted))]
fn check<H: Header>(bytes: &[u8]) -> Result<Framed<'_, H>, FramingFault>
    ensures parts { IfOk result (λ framed. transmission_of H.kind bytes.now ≡ Some (framed_parts framed)) }
    ensures fault { result_err result ≡ framing_fault H.kind bytes.now }
{
    let (header, body) = match H::split_front(bytes) {
        Ok(front) => front,
        Err(fault) => return Err(FramingFault::Header(fault)),
    };
    let end = bytes.len();
    let found = count_groups(Tail { bytes: body, end })?;
    let said = header.announced();
    if found != said as usize {
        return Err(FramingFault::CountMismatch { said, found });
    }
    Ok(Framed::new(header, Cursor::at(body)))
}
