//! The bytes of a request and of its answer, together.

ghost use Rattle.std.specs.Prelude.{◌≡◌, IfOk};

use std::alloc::{AllocError, Global};
use std::marker::Model;

/// A request and its answer in one piece of memory without room to spare: the request, and the answer after it.
#[derive(Drop)]
pub(crate) struct Texts {
    bytes: Vec<u8>,
    split: usize,
}

impl Model for Texts {
    ghost use Rattle.std.specs.Prelude.{◌≤◌, length, take, drop};
    ghost use Rattle.payer_book.specs.Kept.{BothTexts};

    ghost Value = { BothTexts };

    ghost view = { λ t. record { request = take t.split t.bytes.items; answer = drop t.split t.bytes.items } };

    ghost invariant = { λ t. t.split ≤ length t.bytes.items };
}

impl Texts {
    /// Copies of a request and its answer.
    pub(crate) fn copy_of(alloc: Global, request: &[u8], answer: &[u8]) -> Result<Texts, AllocError>
        ensures { IfOk result (λ t. t ≡ record { request = request.now; answer = answer.now }) }
    {
        let split = request.len();
        let mut bytes = Vec::with_capacity(alloc, split + answer.len())?;
        bytes.extend_from_slice(request)?;
        bytes.extend_from_slice(answer)?;
        Ok(Texts { bytes, split })
    }

    /// The request's bytes.
    pub(crate) fn request(&self) -> &[u8]
        ensures { result.now ≡ self.now.request }
    {
        &self.bytes[..self.split]
    }

    /// The answer's bytes.
    pub(crate) fn answer(&self) -> &[u8]
        ensures { result.now ≡ self.now.answer }
    {
        &self.bytes[self.split..]
    }
}
