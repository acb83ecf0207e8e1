//! What a caller has of a submission.

ghost use Rattle.std.specs.Prelude.{◌≡◌};

use octets::Octets;
use std::marker::Model;

/// What a caller has of a submission: the number that the pharmacy gave it, and the request.
#[derive(Drop)]
pub struct Receipt {
    number: u64,
    request: Octets,
}

impl Model for Receipt {
    ghost use Rattle.node_logged.specs.Tills as tills;

    ghost Value = { tills.Receipt };

    ghost view = { λ r. record { number = r.number; request = r.request } };
}

impl Receipt {
    /// The receipt of a request under this number.
    pub(crate) fn new(number: u64, request: Octets) -> Receipt
        ensures { result ≡ record { number = number; request = request } }
    {
        Receipt { number, request }
    }

    /// The number that the pharmacy gave the request, from 1.
    pub fn number(&self) -> u64
        ensures { result ≡ self.now.number }
    {
        self.number
    }

    /// The request's bytes.
    pub fn request(&self) -> &[u8]
        ensures { result.now ≡ self.now.request }
    {
        self.request.as_slice()
    }
}
