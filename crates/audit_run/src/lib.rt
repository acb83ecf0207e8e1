//! What `claimaudit` does with the logs whose files were read: which logs are judged, what is put of them, and why there is no
//! verdict.
#![tactic(auto)]

mod completing;
mod judged;
mod no_verdict;
mod putting;

pub use completing::{Judged, completed};
pub use judged::{Files, calls_of, judged_logs, may_go_on};
pub use no_verdict::{NoVerdict, answered};
pub use putting::{put_verdict, why_nothing};
