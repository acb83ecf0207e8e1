//! A request that was forwarded, and its answer once that came.

ghost use Rattle.std.specs.Prelude.{◌≡◌, ◌≤◌, length, None, Some, IfSome, is_some, bytes_eq};
ghost use Rattle.std.specs.Option.{option_copied};
ghost use Rattle.envelope.specs.Envelope.{longest_payload};

use octets::Octets;
use std::marker::Model;

/// A request that was forwarded, and its answer once that came. An answer has at most 32,768 bytes.
#[derive(Drop)]
pub struct Slot {
    request: Octets,
    answer: Option<Octets>,
}

impl Model for Slot {
    ghost use Rattle.std.specs.Prelude.{◌≤◌, length};
    ghost use Rattle.std.specs.Option.{ForSome};
    ghost use Rattle.envelope.specs.Envelope.{longest_payload};
    ghost use Rattle.claim_model.specs.Table.{Slot as ModelSlot};

    ghost Value = { ModelSlot };

    ghost view = { λ s. record { request = s.request; answer = s.answer } };

    ghost invariant = { λ s. ForSome s.answer (λ answer. length answer ≤ longest_payload) };
}

impl Slot {
    /// A request whose answer has not come.
    pub fn waiting(request: Octets) -> Slot
        ensures { result ≡ record { request = request; answer = None } }
    {
        Slot {
            request,
            answer: None,
        }
    }

    /// Whether it is the slot of this request.
    pub fn is_of(&self, request: &[u8]) -> bool
        ensures { result ≡ bytes_eq self.now.request request.now }
    {
        self.request.as_slice() == request
    }

    /// The answer, once it came.
    pub fn answer(&self) -> Option<&[u8]>
        ensures value { option_copied result ≡ self.now.answer }
        ensures short { IfSome result (λ answer. length answer.now ≤ longest_payload) }
    {
        match &self.answer {
            Some(answer) => Some(answer.as_slice()),
            None => None,
        }
    }

    /// Whether the answer came.
    pub fn is_answered(&self) -> bool
        ensures { result ≡ is_some self.now.answer }
    {
        self.answer.is_some()
    }

    /// Keeps the answer.
    pub fn settle(&mut self, answer: Octets)
        requires { length answer ≤ longest_payload }
        ensures { self.new ≡ record { request = self.old.request; answer = Some answer } }
    {
        self.answer = Some(answer);
    }
}
