//! The header of a request.

ghost use Rattle.std.specs.Prelude.{◌≡◌, ◌≤◌, ℕ, List, ◌++◌, length, drop, slice_index, Ok, IfOk};
ghost use Rattle.std.specs.Result.{result_err};
ghost use Rattle.d0_header.specs.Request.{Request, IsRequest, request_text, request_of, request_fault};

use crate::fault::HeaderFault;
use crate::field::{are_digits, field_at, is_count, put, separator_in};
use std::marker::Model;

/// The header of a request transmission: 56 bytes that passed every test of [`RequestHeader::read`].
/// Fields keep their padding.
#[derive(Clone, Copy, PartialEq, Eq)]
pub struct RequestHeader {
    bin: [u8; 6],
    version: [u8; 2],
    code: [u8; 2],
    pcn: [u8; 10],
    count: u8,
    qualifier: [u8; 2],
    provider: [u8; 15],
    date: [u8; 8],
    vendor: [u8; 10],
}

impl Model for RequestHeader {
    ghost use Rattle.d0_header.specs.Request.{Request, IsRequest};

    ghost Value = { Request };

    ghost use Rattle.d0_header.specs.RequestFields.{request_seen, request_kept};

    ghost view = { request_seen };

    ghost invariant = { λ a. IsRequest (request_seen a) };

    ghost inverse = { request_kept };
}

impl RequestHeader {
    /// Reads the first 56 bytes. The faults are tested in the order of [`HeaderFault`]: length, BIN,
    /// count, date, separators.
    pub fn read(bytes: &[u8]) -> Result<RequestHeader, HeaderFault>
        ensures found { IfOk result (λ h. IsRequest h × (bytes.now ≡ request_text h ++ drop 56 bytes.now)) }
        // Whatever header the bytes begin with is read.
        ensures only { (h : Request) (rest : List ℕ) → IsRequest h → bytes.now ≡ request_text h ++ rest
            → result ≡ Ok h }
        ensures fault { result_err result ≡ request_fault bytes.now }
    {
        match fault_in(bytes) {
            Some(fault) => Err(fault),
            None => Ok(RequestHeader::cut(bytes)),
        }
    }

    /// The header of bytes without a fault.
    fn cut(bytes: &[u8]) -> RequestHeader
        requires long { 56 ≤ length bytes.now }
        requires sound { IsRequest (request_of bytes.now) }
        requires digit { 48 ≤ slice_index bytes.now 20 }
        ensures { result ≡ request_of bytes.now }
    {
        RequestHeader {
            bin: field_at(bytes, 0),
            version: field_at(bytes, 6),
            code: field_at(bytes, 8),
            pcn: field_at(bytes, 10),
            count: bytes[20] - b'0',
            qualifier: field_at(bytes, 21),
            provider: field_at(bytes, 23),
            date: field_at(bytes, 38),
            vendor: field_at(bytes, 46),
        }
    }

    /// The 56 bytes of the header.
    #[tactic(auto, unfolding(crate::specs::Request::request_text), using(std::proofs::lemmas::List::take_all, crate::proofs::Cutting::put_first, crate::proofs::Cutting::put_behind, crate::proofs::Cutting::nine_joined))]
    pub fn to_bytes(&self) -> [u8; 56]
        ensures value { result ≡ request_text self.now }
        ensures valid { IsRequest self.now }
    {
        let mut text = [0; 56];
        let place = put(&mut text, 0, &self.bin);
        let place = put(&mut text, place, &self.version);
        let place = put(&mut text, place, &self.code);
        let place = put(&mut text, place, &self.pcn);
        let place = put(&mut text, place, &[b'0' + self.count]);
        let place = put(&mut text, place, &self.qualifier);
        let place = put(&mut text, place, &self.provider);
        let place = put(&mut text, place, &self.date);
        let _end = put(&mut text, place, &self.vendor);
        text
    }

    /// The BIN number (101-A1): six digits.
    pub fn bin(&self) -> [u8; 6]
        ensures value { result ≡ self.now.bin }
        ensures valid { IsRequest self.now }
    {
        self.bin
    }

    /// The version and release number (102-A2), as it stands.
    pub fn version(&self) -> [u8; 2]
        ensures value { result ≡ self.now.version }
        ensures valid { IsRequest self.now }
    {
        self.version
    }

    /// The transaction code (103-A3), as it stands.
    pub fn code(&self) -> [u8; 2]
        ensures value { result ≡ self.now.code }
        ensures valid { IsRequest self.now }
    {
        self.code
    }

    /// The processor control number (104-A4), filled with spaces.
    pub fn pcn(&self) -> [u8; 10]
        ensures value { result ≡ self.now.pcn }
        ensures valid { IsRequest self.now }
    {
        self.pcn
    }

    /// The transaction count (109-A9), 1 to 4.
    pub fn count(&self) -> u8
        ensures value { result ≡ self.now.count }
        ensures valid { IsRequest self.now }
    {
        self.count
    }

    /// The service provider ID qualifier (202-B2).
    pub fn qualifier(&self) -> [u8; 2]
        ensures value { result ≡ self.now.qualifier }
        ensures valid { IsRequest self.now }
    {
        self.qualifier
    }

    /// The service provider ID (201-B1), filled with spaces.
    pub fn provider(&self) -> [u8; 15]
        ensures value { result ≡ self.now.provider }
        ensures valid { IsRequest self.now }
    {
        self.provider
    }

    /// The date of service (401-D1): eight digits CCYYMMDD, which need not name a day.
    pub fn date(&self) -> [u8; 8]
        ensures value { result ≡ self.now.date }
        ensures valid { IsRequest self.now }
    {
        self.date
    }

    /// The software vendor and certification ID (110-AK), filled with spaces.
    pub fn vendor(&self) -> [u8; 10]
        ensures value { result ≡ self.now.vendor }
        ensures valid { IsRequest self.now }
    {
        self.vendor
    }
}

/// The first fault, in the order of [`HeaderFault`].
#[tactic(auto, unfolding(crate::specs::Request::request_fault))]
fn fault_in(bytes: &[u8]) -> Option<HeaderFault>
    ensures { result ≡ request_fault bytes.now }
{
    if bytes.len() < 56 {
        return Some(HeaderFault::Short);
    }
    if !are_digits(&bytes[..6]) {
        return Some(HeaderFault::BadBin);
    }
    if !is_count(bytes[20]) {
        return Some(HeaderFault::BadCount);
    }
    if !are_digits(&bytes[38..46]) {
        return Some(HeaderFault::DateNotDigits);
    }
    separator_in(&bytes[..56]).map(HeaderFault::Separator)
}
