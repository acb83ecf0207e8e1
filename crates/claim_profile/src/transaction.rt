//! What kind of transaction a request is.

ghost use Rattle.std.specs.Prelude.{◌≡◌, ℕ, List, Some};
ghost use Rattle.claim_profile.specs.Transaction.{code_bytes, transaction_code};

use crate::names::is_same;

/// What kind of transaction a request is, by its transaction code (103-A3).
#[derive(Clone, Copy, PartialEq, Eq)]
pub enum TransactionCode {
    /// `B1`: it asks that claims are paid.
    Billing,
    /// `B2`: it asks that payments are taken back.
    Reversal,
}

impl TransactionCode {
    /// The code that these bytes are; None where this product carries no such transaction.
    #[inline(always)]
    #[tactic(auto, unfolding(crate::specs::Transaction::transaction_code))]
    pub fn read(code: [u8; 2]) -> Option<TransactionCode>
        ensures { result ≡ transaction_code code }
    {
        if is_same(code, TransactionCode::Billing.bytes()) {
            return Some(TransactionCode::Billing);
        }
        if is_same(code, TransactionCode::Reversal.bytes()) {
            return Some(TransactionCode::Reversal);
        }
        None
    }

    /// The bytes of the code.
    #[inline(always)]
    pub fn bytes(self) -> [u8; 2]
        ensures { result ≡ code_bytes self }
    {
        match self {
            TransactionCode::Billing => *b"B1",
            TransactionCode::Reversal => *b"B2",
        }
    }
}

/// What is written as a code is read as it, and nothing else is.
#[tactic(auto, using(crate::proofs::TransactionLemmas::reads_back, crate::proofs::TransactionLemmas::only))]
pub fn transaction_laws()
    ensures reads_back { (kind : TransactionCode) → transaction_code (code_bytes kind) ≡ Some kind }
    ensures only { (bytes : List ℕ) (kind : TransactionCode) → transaction_code bytes ≡ Some kind
        → bytes ≡ code_bytes kind }
{}
