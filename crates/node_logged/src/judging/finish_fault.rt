//! Why a run is not found.

ghost use Rattle.std.specs.Prelude.{◌≡◌};
ghost use Rattle.node_logged.specs.declared.judging.finish_fault.FinishFault.TheVariants.{OutOfMemory};
ghost use Rattle.node_logged.specs.FinishNames.{finish_name};

use node_log::NodeLog;
use std::alloc::AllocError;
use thiserror::Error;

/// Why the logs of a system that has ended are not judged to have a run, in the order in which the causes are looked for
/// after want of memory. Each of the others carries the logs that were judged.
#[derive(Debug, Drop, Error)]
pub enum FinishFault {
    /// Memory was refused.
    #[error("out of memory")]
    OutOfMemory,
    /// The least pharmacy whose tills have another count of receipts than its journal has entries.
    #[error("the tills of pharmacy {0} do not have as many receipts as its journal has entries")]
    TillMissing(u16, Vec<NodeLog>),
    /// Some pharmacy's receipts are not the numbers and requests of its journal.
    #[error("an entry has no receipt")]
    ReceiptMissing(Vec<NodeLog>),
    /// An answer that was heard is not the journal's.
    #[error("an answer that was heard is not the journal's")]
    HeardDiffers(Vec<NodeLog>),
    /// No events are a legal interleaving of the logs.
    #[error("the logs have no history in common")]
    Tangled(Vec<NodeLog>),
}

impl FinishFault {
    /// The name of the cause, as a report prints it.
    pub fn name(&self) -> &'static str
        ensures { result.now ≡ finish_name self.now }
    {
        match self {
            FinishFault::OutOfMemory => "OutOfMemory",
            FinishFault::TillMissing(_, _) => "TillMissing",
            FinishFault::ReceiptMissing(_) => "ReceiptMissing",
            FinishFault::HeardDiffers(_) => "HeardDiffers",
            FinishFault::Tangled(_) => "Tangled",
        }
    }
}

impl From<AllocError> for FinishFault {
    ghost from_gives = { λ _ fault. fault ≡ OutOfMemory };

    fn from(_refused: AllocError) -> FinishFault {
        FinishFault::OutOfMemory
    }
}
