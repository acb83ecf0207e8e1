//! What a caller is told of a request.

ghost use Rattle.std.specs.Prelude.{◌≡◌, IfOk, OnErr, Some};
ghost use Rattle.node_logged.specs.Tills.{with_answer};
ghost use Rattle.node_logged.specs.TillSeen.{till_seen};
ghost use Rattle.node_threads.specs.Telling.{told};
ghost use Rattle.node_threads.specs.declared.status.StatusFault.TheVariants.{OutOfMemory};

use node_logged::Till;
use octets::Octets;
use std::alloc::AllocError;
use thiserror::Error;

/// What a caller is told of a request.
#[derive(Drop, PartialEq, Eq)]
pub enum Status {
    /// No answer is there yet.
    Open,
    /// The answer.
    Settled(Octets),
}

/// Why a caller is told nothing of a request.
#[derive(Clone, Copy, Debug, PartialEq, Eq, Error)]
pub enum StatusFault {
    /// Memory was refused.
    #[error("out of memory")]
    OutOfMemory,
    /// The till has no receipt with this number.
    #[error("the till has no receipt with this number")]
    NotThisTill,
}

impl From<AllocError> for StatusFault {
    ghost from_gives = { λ _ fault. fault ≡ OutOfMemory };

    fn from(_refused: AllocError) -> StatusFault {
        StatusFault::OutOfMemory
    }
}

/// Tells a caller this answer, which its till hears: what it takes is taken first.
pub(crate) fn tell(till: &mut Till, number: u64, answer: Octets) -> Result<Status, AllocError>
    ensures told { IfOk result (λ status. told status ≡ Some answer) }
    ensures heard { IfOk result (λ status. till_seen till.new ≡ with_answer number answer (till_seen till.old)) }
    ensures same { OnErr result (till_seen till.new ≡ till_seen till.old) }
{
    let copy = answer.copy()?;
    till.hear(number, answer)?;
    Ok(Status::Settled(copy))
}
