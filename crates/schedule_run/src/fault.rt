//! Why a run stopped, and the line that says so.

ghost use Rattle.std.specs.Prelude.{◌≡◌};
ghost use Rattle.program_io.specs.declared.fault.ProgramFault.TheVariants.{OutOfMemory};
ghost use Rattle.program_io.specs.Stops.{check_told};
ghost use Rattle.schedule_run.specs.declared.fault.RunFault.TheVariants.{Program};
ghost use Rattle.schedule_run.specs.Output.{start_told, finish_told};

use node_threads::{FinishFault, StartFault};
use program_io::{CheckFault, ProgramFault};
use std::alloc::{AllocError, AllocFailed};
use thiserror::Error;

/// Why a run stopped. The text is that of the line on standard error.
#[derive(Clone, Copy, Debug, PartialEq, Eq, Error)]
pub enum RunFault {
    /// As in the programs that wait for nobody. Where memory was refused or a call of the writer failed, the threads have
    /// ended all the same, and what was written until then is a beginning of the output.
    #[error("{0}")]
    Program(ProgramFault),
    /// What the nodes did is not judged to be a run. The lines of the commands were written.
    #[error("finish refused {0}")]
    Finish(Unjudged),
    /// A thread could not be started. Nothing was written.
    #[error("no thread")]
    NoThread,
}

/// Why what the nodes did is not judged to be a run.
#[derive(Clone, Copy, Debug, PartialEq, Eq, Error)]
pub enum Unjudged {
    /// The caller has no till of a pharmacy that took requests.
    #[error("TillMissing")]
    TillMissing,
    /// A receipt is missing.
    #[error("ReceiptMissing")]
    ReceiptMissing,
    /// An answer that was heard is another one than the journal's.
    #[error("HeardDiffers")]
    HeardDiffers,
    /// No order of events leads to what the nodes did.
    #[error("Tangled")]
    Tangled,
}

impl From<AllocError> for RunFault {
    ghost from_gives = { λ _ fault. fault ≡ Program OutOfMemory };

    fn from(_refused: AllocError) -> RunFault {
        RunFault::Program(ProgramFault::OutOfMemory)
    }
}

impl<T: Drop> From<AllocFailed<T>> for RunFault {
    ghost from_gives = { λ _ fault. fault ≡ Program OutOfMemory };

    fn from(_refused: AllocFailed<T>) -> RunFault {
        RunFault::Program(ProgramFault::OutOfMemory)
    }
}

impl From<ProgramFault> for RunFault {
    ghost from_gives = { λ fault run. run ≡ Program fault };

    fn from(fault: ProgramFault) -> RunFault {
        RunFault::Program(fault)
    }
}

impl From<CheckFault> for RunFault {
    ghost from_gives = { λ fault run. run ≡ Program (check_told fault) };

    fn from(fault: CheckFault) -> RunFault {
        RunFault::Program(ProgramFault::from(fault))
    }
}

impl From<StartFault> for RunFault {
    ghost from_gives = { λ fault run. run ≡ start_told fault };

    fn from(fault: StartFault) -> RunFault {
        match fault {
            StartFault::OutOfMemory => RunFault::Program(ProgramFault::OutOfMemory),
            StartFault::NoThread => RunFault::NoThread,
        }
    }
}

impl From<FinishFault> for RunFault {
    ghost from_gives = { λ fault run. run ≡ finish_told fault };

    fn from(fault: FinishFault) -> RunFault {
        match fault {
            FinishFault::OutOfMemory => RunFault::Program(ProgramFault::OutOfMemory),
            FinishFault::TillMissing(_, _) => RunFault::Finish(Unjudged::TillMissing),
            FinishFault::ReceiptMissing(_) => RunFault::Finish(Unjudged::ReceiptMissing),
            FinishFault::HeardDiffers(_) => RunFault::Finish(Unjudged::HeardDiffers),
            FinishFault::Tangled(_) => RunFault::Finish(Unjudged::Tangled),
        }
    }
}
