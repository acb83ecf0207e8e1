//! A node with the log of its calls beside it, the receipts of its callers, and the verdict on what nodes did, by their logs.
//!
//! Where `judge` answers with a run, the receipts at the tills of each pharmacy are the numbers and requests of its journal's
//! entries, each exactly once (`receipts_are_the_entries_each_once`).
#![tactic(auto)]

mod held;
mod judging;
mod laws;
mod same_settings;
mod till;

pub use held::Held;
pub use judging::{FinishFault, Finished, judge, judge_nodes};
pub use laws::{ledgers_are_the_worlds, receipts_are_the_entries_each_once};
pub use till::{Receipt, Till};
