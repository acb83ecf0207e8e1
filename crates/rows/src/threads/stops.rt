//! Why `run` stops, as it is told on standard error.

use case_files::{Subject, Told};
use program_io::{InputFault, ProgramFault};
use schedule_run::{RunFault, Unjudged};
use std::alloc::Global;

/// Rows of reasons.
#[derive(Drop)]
pub(crate) struct Stops;

impl Subject for Stops {
    fn tell(&mut self, told: &mut Told, _alloc: Global, word: &str, _argument: &[u8]) {
        match word {
            "line-7" => told.shown(line_refused(7)),
            "no-thread" => told.shown(RunFault::NoThread),
            "TillMissing" => told.shown(RunFault::Finish(Unjudged::TillMissing)),
            "ReceiptMissing" => told.shown(RunFault::Finish(Unjudged::ReceiptMissing)),
            "HeardDiffers" => told.shown(RunFault::Finish(Unjudged::HeardDiffers)),
            "Tangled" => told.shown(RunFault::Finish(Unjudged::Tangled)),
            _ => told.refuse(),
        }
    }
}

/// A line is bad.
fn line_refused(number: u64) -> RunFault {
    RunFault::Program(ProgramFault::Input(InputFault::Line(number)))
}
