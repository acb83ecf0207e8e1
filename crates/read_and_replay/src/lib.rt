//! The programs `read` and `replay`: lines of billings and reversals for one book, and each line's answer; a schedule of events over
//! the nodes of its settings, and the report on all of them. The whole input is read, checked and answered or run, and only then
//! something is written.
#![tactic(auto)]

mod answers;
mod entries;
mod events;
mod read;
mod replaying;
mod sample;
mod why;

pub use read::read_claims;
pub use replaying::replay;
pub use why::{EntryFault, entry_fault, why_refused};
