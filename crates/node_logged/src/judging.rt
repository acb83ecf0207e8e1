//! Judging what the nodes did against what the callers have.

mod counting;
mod finish_fault;
mod hearing;
mod ledger;
mod objection;
mod receipts;
mod replaying;
mod standing;
mod verdict;
mod worlds;

pub use finish_fault::FinishFault;
pub use verdict::{Finished, judge, judge_nodes};
