//! The process of one node, over whatever system it runs on: it reads its log, and then serves lines in turns. What a turn
//! records is appended and synced before anything of it is said.
//!
//! The order is proved of every run, at each moment and at each failure, of the calls that the process asks of the system
//! (`Machine`). `Host` is the system over a real file. Processes that follow one another over one file, whatever their deaths
//! leave of it, are the process of `crash_safety`.
#![tactic(auto)]

mod diskless;
mod greeting;
mod host;
mod kept_files;
mod kinds;
mod laws;
mod machine;
mod opening;
mod pending;
mod serving;
mod streams;
mod unserved;

pub use diskless::Diskless;
pub use host::Host;
pub use kept_files::{keep_end, leave_mark, mark_of_failed_sync, sync_folder};
pub use laws::{files_are_processes, files_keep_promises, processes_follow_one_another};
pub use machine::Machine;
pub use opening::Owner;
pub use serving::serve_all;
pub use unserved::Unserved;
