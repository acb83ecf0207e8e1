//! What the two headers have in common.

ghost use Rattle.std.specs.Prelude.{◌≡◌, ◌≤◌, ◌++◌, length, drop, IfOk, OnOk};
ghost use Rattle.std.specs.Result.{result_err};
ghost use Rattle.d0_header.specs.Request.{IsRequest};
ghost use Rattle.d0_header.specs.Response.{IsResponse};
ghost use Rattle.d0_segments.specs.Framing.{HeaderKind, request_kind, response_kind};
ghost use Rattle.d0_segments.specs.Address.{beyond};

use crate::tail::behind;
use d0_header::{
    HeaderFault, RequestHeader, ResponseHeader, request_text_laws, response_text_laws,
};
use std::alloc::AllocError;

/// The header of a transmission: a text of fixed length that says how many groups follow.
pub trait Header: Drop {
    /// How headers of this kind are written and read.
    ghost kind: { HeaderKind Self };

    /// What every header of this kind is.
    ghost sound: { Self → Type 0 };

    /// Reads the header that the bytes begin with, and answers it with the bytes after it.
    fn split_front(bytes: &[u8]) -> Result<(Self, &[u8]), HeaderFault>
        ensures sound { IfOk result (λ front. sound front.0) }
        ensures header { IfOk result (λ front. front.0 ≡ kind.header_of bytes.now) }
        ensures parts { IfOk result (λ front. bytes.now ≡ kind.text front.0 ++ front.1.now) }
        ensures behind { IfOk result (λ front. front.1.now ≡ drop kind.size bytes.now) }
        ensures long { IfOk result (λ front. kind.size ≤ length bytes.now) }
        ensures lent { IfOk result (λ front. front.1.ref_ptr ≡ beyond bytes.entry.ref_ptr kind.size) }
        ensures fault { result_err result ≡ kind.fault bytes.now };

    /// The number of groups that it announces (109-A9), 1 to 4.
    fn announced(&self) -> u8
        ensures { result ≡ kind.said self.now };

    /// Writes the header after the bytes that are there.
    fn append_to(&self, text: &mut Vec<u8>) -> Result<(), AllocError>
        ensures text { OnOk result (text.new.items ≡ text.old.items ++ kind.text self.now) }
        ensures sound { sound self.now };
}

impl Header for RequestHeader {
    ghost kind = { request_kind };

    ghost sound = { IsRequest };

    fn split_front(bytes: &[u8]) -> Result<(RequestHeader, &[u8]), HeaderFault> {
        request_text_laws();
        let header = RequestHeader::read(bytes)?;
        Ok((header, behind(bytes, 56)))
    }

    fn announced(&self) -> u8 {
        self.count()
    }

    fn append_to(&self, text: &mut Vec<u8>) -> Result<(), AllocError> {
        text.extend_from_slice(&self.to_bytes())
    }
}

impl Header for ResponseHeader {
    ghost kind = { response_kind };

    ghost sound = { IsResponse };

    fn split_front(bytes: &[u8]) -> Result<(ResponseHeader, &[u8]), HeaderFault> {
        response_text_laws();
        let header = ResponseHeader::read(bytes)?;
        Ok((header, behind(bytes, 31)))
    }

    fn announced(&self) -> u8 {
        self.count()
    }

    fn append_to(&self, text: &mut Vec<u8>) -> Result<(), AllocError> {
        text.extend_from_slice(&self.to_bytes())
    }
}
