//! What a processor rules about a transaction.

use crate::authorization::Auth;
use crate::paid::Amounts;
use crate::reject::Rejects;

/// The ruling about one transaction.
#[derive(Clone, Copy, PartialEq, Eq)]
pub enum Ruling {
    /// A claim is paid.
    Paid {
        auth: Auth,
        prescription: u64,
        amounts: Amounts,
    },
    /// The very claim was paid before, with this authorization and these amounts.
    Duplicate {
        auth: Auth,
        prescription: u64,
        amounts: Amounts,
    },
    /// The payment with this authorization is reversed.
    Reversed {
        auth: Auth,
        prescription: u64,
    },
    /// The transaction is rejected.
    Rejected {
        rejects: Rejects,
    },
}

/// The status of a whole response (501-F1).
#[derive(Clone, Copy, PartialEq, Eq)]
pub enum HeaderStatus {
    /// `A`: the transmission is taken.
    Accepted,
    /// `R`: the transmission is refused, and so is each transaction of it.
    Rejected,
}
