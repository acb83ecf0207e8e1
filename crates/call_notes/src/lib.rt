//! What was asked of a system, noted for clauses alone: nothing of it is in memory.
#![tactic(auto)]

mod noted;

pub use noted::Noted;
