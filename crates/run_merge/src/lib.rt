//! The logs of all nodes as the events of one run, exactly where there is such a run.
#![tactic(auto)]

mod history;
mod known;
mod line;
mod order;
mod posted;
mod slip;
mod turn;
mod woken;

pub use history::{MergeFault, are_distinct, merge};
pub use known::{MergedRun, merge_fitting};
pub use posted::Posted;
