//! Payments: standing, or reversed by a later request. `Standing::reverse` is the only way between the two.

ghost use Rattle.std.specs.Prelude.{◌≡◌};

use claim_profile::{Amounts, Auth, Claim};
use envelope::TxnId;

/// A payment that no later request has reversed.
#[derive(Drop, PartialEq, Eq)]
pub struct Standing {
    auth: Auth,
    claim: Claim,
    amounts: Amounts,
}

/// A payment and the request that reversed it.
#[derive(Drop, PartialEq, Eq)]
pub struct Reversed {
    auth: Auth,
    claim: Claim,
    amounts: Amounts,
    by: TxnId,
}

/// A payment of a book.
#[derive(Drop, PartialEq, Eq)]
pub enum Payment {
    /// No later request has reversed it.
    Standing(Standing),
    /// A later request has.
    Reversed(Reversed),
}

impl Standing {
    /// The payment of a claim, with its authorization and in these amounts.
    pub fn new(auth: Auth, claim: Claim, amounts: Amounts) -> Standing
        ensures { result ≡ record { auth = auth; claim = claim; amounts = amounts } }
    {
        Standing {
            auth,
            claim,
            amounts,
        }
    }

    /// The authorization (503-F3) that it was paid with.
    pub fn auth(&self) -> Auth
        ensures { result ≡ self.now.auth }
    {
        self.auth
    }

    /// What was billed.
    pub fn claim(&self) -> &Claim
        ensures { result.now ≡ self.now.claim }
    {
        &self.claim
    }

    /// What was paid.
    pub fn amounts(&self) -> Amounts
        ensures { result ≡ self.now.amounts }
    {
        self.amounts
    }

    /// The same payment, for a ruling over it. Who keeps payments reverses them.
    pub(crate) fn copy(&self) -> Standing
        ensures { result ≡ self.now }
    {
        Standing {
            auth: self.auth,
            claim: self.claim,
            amounts: self.amounts,
        }
    }

    /// The same payment, reversed by the request of that id.
    pub fn reverse(self, by: TxnId) -> Reversed
        ensures { result ≡ record { auth = self.auth; claim = self.claim; amounts = self.amounts; by = by } }
    {
        Reversed {
            auth: self.auth,
            claim: self.claim,
            amounts: self.amounts,
            by,
        }
    }
}

impl Reversed {
    /// The authorization (503-F3) that it was paid with.
    pub fn auth(&self) -> Auth
        ensures { result ≡ self.now.auth }
    {
        self.auth
    }

    /// What was billed.
    pub fn claim(&self) -> &Claim
        ensures { result.now ≡ self.now.claim }
    {
        &self.claim
    }

    /// What was paid.
    pub fn amounts(&self) -> Amounts
        ensures { result ≡ self.now.amounts }
    {
        self.amounts
    }

    /// The request that reversed the payment.
    pub fn by(&self) -> TxnId
        ensures { result ≡ self.now.by }
    {
        self.by
    }
}
