//! What a program reads and writes: the whole input from a source, what a schedule over its settings begins with, and the whole
//! output to a sink. The words of `claimswitch`, its exit statuses and the lines for standard error stand here too, so that
//! `main` is thin.
#![tactic(auto)]

mod fault;
mod input;
mod kept;
mod opening;
mod output;
mod scheduled;
mod sink;
mod source;
mod why;
mod words;

pub use fault::{CheckFault, InputFault, ProgramFault};
pub use input::{MOST_CALLS, MOST_INPUT, read_all};
pub use kept::KeptReader;
pub use opening::{opened, taken_settings};
pub use output::write_output;
pub use scheduled::{Scheduled, read_scheduled};
pub use sink::{Sink, WriterSink};
pub use source::{Failed, ReaderSource, Source};
pub use why::{Spelled, line_at, why_refused};
pub use words::{Stop, Word, word_of};
