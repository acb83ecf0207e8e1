//! Why a plan is not made or not changed.

ghost use Rattle.std.specs.Prelude.{◌≡◌};
ghost use Rattle.plan_rules.specs.declared.fault.PlanFault.TheVariants.{OutOfMemory};

use std::alloc::{AllocError, AllocFailed};
use thiserror::Error;

/// Why a plan is not made or not changed.
#[derive(Clone, Copy, Debug, PartialEq, Eq, Error)]
pub enum PlanFault {
    /// There is no memory for one more product.
    #[error("out of memory")]
    OutOfMemory,
    /// The price is over 99,999,999 ten-thousandths of a dollar a unit, or the fee or the copay over 99,999,999 cents.
    #[error("a price is at most 99,999,999 ten-thousandths of a dollar, a fee and a copay as many cents")]
    PriceTooLarge,
    /// The product does not have 1 to 19 bytes, holds a separator, or ends in a space.
    #[error("a product has 1 to 19 bytes, no separator and no space at its end")]
    BadProduct,
    /// The product is new, and the plan has 4,096 products.
    #[error("a plan has at most 4,096 products")]
    PlanFull,
    /// The fee or the copay is below zero.
    #[error("a fee and a copay are not negative")]
    NegativeAmount,
}

impl From<AllocError> for PlanFault {
    ghost from_gives = { λ _ e. e ≡ OutOfMemory };

    fn from(_e: AllocError) -> PlanFault {
        PlanFault::OutOfMemory
    }
}

impl<T: Drop> From<AllocFailed<T>> for PlanFault {
    ghost from_gives = { λ _ e. e ≡ OutOfMemory };

    fn from(_e: AllocFailed<T>) -> PlanFault {
        PlanFault::OutOfMemory
    }
}
