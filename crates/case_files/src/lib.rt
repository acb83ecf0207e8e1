//! Files of cases, for the programs that run them: rows of a call and what it comes to, long texts by name, and the
//! count of all that was compared. And readers and writers that fail.
#![tactic(auto)]

mod compared;
mod fakes;
mod folder;
mod row;
mod runner;
mod texts;
mod told;

pub use fakes::{ALL, Endless, Paper, Pieces};
pub use folder::{CaseFile, read_folder};
pub use row::Row;
pub use runner::{Runner, Subject};
pub use texts::cut;
pub use told::Told;
