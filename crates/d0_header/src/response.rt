//! The header of a response.

ghost use Rattle.std.specs.Prelude.{◌≡◌, ◌≤◌, ℕ, List, ◌++◌, length, drop, slice_index, Ok, IfOk, IsTrue};
ghost use Rattle.std.specs.Result.{result_err};
ghost use Rattle.d0_header.specs.Field.{is_plain};
ghost use Rattle.d0_header.specs.Response.{Response, IsResponse, response_text, response_of, response_fault, answer_to};

use crate::fault::HeaderFault;
use crate::field::{are_digits, field_at, is_count, put, separator_in};
use crate::request::RequestHeader;
use std::marker::Model;

/// The header of a response transmission: 31 bytes that passed every test of [`ResponseHeader::read`].
/// Fields keep their padding. [`ResponseHeader::answering`] makes one too.
#[derive(Clone, Copy, PartialEq, Eq)]
pub struct ResponseHeader {
    version: [u8; 2],
    code: [u8; 2],
    count: u8,
    status: u8,
    qualifier: [u8; 2],
    provider: [u8; 15],
    date: [u8; 8],
}

impl Model for ResponseHeader {
    ghost use Rattle.d0_header.specs.Response.{Response, IsResponse};

    ghost Value = { Response };

    ghost use Rattle.d0_header.specs.ResponseFields.{response_seen, response_kept};

    ghost view = { response_seen };

    ghost invariant = { λ a. IsResponse (response_seen a) };

    ghost inverse = { response_kept };
}

impl ResponseHeader {
    /// Reads the first 31 bytes. The faults are tested in the order of [`HeaderFault`]: length, count,
    /// date, separators.
    pub fn read(bytes: &[u8]) -> Result<ResponseHeader, HeaderFault>
        ensures found { IfOk result (λ h. IsResponse h × (bytes.now ≡ response_text h ++ drop 31 bytes.now)) }
        // Whatever header the bytes begin with is read.
        ensures only { (h : Response) (rest : List ℕ) → IsResponse h → bytes.now ≡ response_text h ++ rest
            → result ≡ Ok h }
        ensures fault { result_err result ≡ response_fault bytes.now }
    {
        match fault_in(bytes) {
            Some(fault) => Err(fault),
            None => Ok(ResponseHeader::cut(bytes)),
        }
    }

    /// The header of bytes without a fault.
    fn cut(bytes: &[u8]) -> ResponseHeader
        requires long { 31 ≤ length bytes.now }
        requires sound { IsResponse (response_of bytes.now) }
        requires digit { 48 ≤ slice_index bytes.now 4 }
        ensures { result ≡ response_of bytes.now }
    {
        ResponseHeader {
            version: field_at(bytes, 0),
            code: field_at(bytes, 2),
            count: bytes[4] - b'0',
            status: bytes[5],
            qualifier: field_at(bytes, 6),
            provider: field_at(bytes, 8),
            date: field_at(bytes, 23),
        }
    }

    /// The header that answers a request, in version `D0`: the status, and the code, count, qualifier,
    /// provider and date of the request.
    pub fn answering(request: &RequestHeader, status: u8) -> ResponseHeader
        requires { IsTrue (is_plain status) }
        ensures value { result ≡ answer_to request.now status }
        ensures valid { IsResponse result }
    {
        ResponseHeader {
            version: *b"D0",
            code: request.code(),
            count: request.count(),
            status,
            qualifier: request.qualifier(),
            provider: request.provider(),
            date: request.date(),
        }
    }

    /// The 31 bytes of the header.
    #[tactic(auto, unfolding(crate::specs::Response::response_text), using(std::proofs::lemmas::List::take_all, crate::proofs::Cutting::put_first, crate::proofs::Cutting::put_behind, crate::proofs::Cutting::seven_joined))]
    pub fn to_bytes(&self) -> [u8; 31]
        ensures value { result ≡ response_text self.now }
        ensures valid { IsResponse self.now }
    {
        let mut text = [0; 31];
        let place = put(&mut text, 0, &self.version);
        let place = put(&mut text, place, &self.code);
        let place = put(&mut text, place, &[b'0' + self.count]);
        let place = put(&mut text, place, &[self.status]);
        let place = put(&mut text, place, &self.qualifier);
        let place = put(&mut text, place, &self.provider);
        let _end = put(&mut text, place, &self.date);
        text
    }

    /// The version and release number (102-A2), as it stands.
    pub fn version(&self) -> [u8; 2]
        ensures value { result ≡ self.now.version }
        ensures valid { IsResponse self.now }
    {
        self.version
    }

    /// The transaction code (103-A3), as it stands.
    pub fn code(&self) -> [u8; 2]
        ensures value { result ≡ self.now.code }
        ensures valid { IsResponse self.now }
    {
        self.code
    }

    /// The transaction count (109-A9), 1 to 4.
    pub fn count(&self) -> u8
        ensures value { result ≡ self.now.count }
        ensures valid { IsResponse self.now }
    {
        self.count
    }

    /// The header response status (501-F1), as it stands.
    pub fn status(&self) -> u8
        ensures value { result ≡ self.now.status }
        ensures valid { IsResponse self.now }
    {
        self.status
    }

    /// The service provider ID qualifier (202-B2).
    pub fn qualifier(&self) -> [u8; 2]
        ensures value { result ≡ self.now.qualifier }
        ensures valid { IsResponse self.now }
    {
        self.qualifier
    }

    /// The service provider ID (201-B1), filled with spaces.
    pub fn provider(&self) -> [u8; 15]
        ensures value { result ≡ self.now.provider }
        ensures valid { IsResponse self.now }
    {
        self.provider
    }

    /// The date of service (401-D1): eight digits CCYYMMDD, which need not name a day.
    pub fn date(&self) -> [u8; 8]
        ensures value { result ≡ self.now.date }
        ensures valid { IsResponse self.now }
    {
        self.date
    }
}

/// The first fault, in the order of [`HeaderFault`].
#[tactic(auto, unfolding(crate::specs::Response::response_fault))]
fn fault_in(bytes: &[u8]) -> Option<HeaderFault>
    ensures { result ≡ response_fault bytes.now }
{
    if bytes.len() < 31 {
        return Some(HeaderFault::Short);
    }
    if !is_count(bytes[4]) {
        return Some(HeaderFault::BadCount);
    }
    if !are_digits(&bytes[23..31]) {
        return Some(HeaderFault::DateNotDigits);
    }
    separator_in(&bytes[..31]).map(HeaderFault::Separator)
}
