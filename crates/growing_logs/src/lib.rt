//! What becomes of logs whose settings have grown, as who looks after a network wants to know it: a log goes over where log_growth has
//! it go over, and no entry of its pharmacy has a rejection that would not stay; else it is said why, with a hint at the routes
//! (`judge_all`), and by which rows what was rejected stays so (`rows_for`). `Disk` is the files of logs that are replaced
//! by what they have become, all of them or none.
#![tactic(auto)]

mod becoming;
mod disk;
mod fault;
mod hints;
mod judging;
mod logs;
mod reading;
mod rows;
mod telling;
mod texts;

pub use becoming::Stays;
pub use disk::Disk;
pub use fault::GrowFault;
pub use hints::Hint;
pub use judging::{Judged, judge_all};
pub use logs::Logs;
pub use reading::{Reader, name_of};
pub use rows::rows_for;
