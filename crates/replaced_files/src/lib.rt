//! Files that are to be replaced, all of them or none: in which order a program asks the system for it. They are taken for this process
//! (`take_all`), and where each of them has new bytes, or is as it is to be, these get their names one after the other, each once they
//! are on disk (`replace_all`), over any files (`Files`). Who dies meanwhile leaves under each name the old bytes or the new ones
//! (`replacing_leaves_a_file`).
#![tactic(auto)]

mod fault;
mod files;
mod laws;
mod replacing;
mod taking;

pub use fault::{ReplaceFault, TakeFault};
pub use files::Files;
pub use laws::replacing_leaves_a_file;
pub use replacing::{Fate, replace_all, some_stay};
pub use taking::take_all;
