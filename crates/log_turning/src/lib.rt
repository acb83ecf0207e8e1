//! Logs that turn over: a log is closed, and its node goes on in a new one, which begins with what the node left at rest; and such
//! logs joined, as if none had been closed.
#![tactic(auto)]

mod closed_logs;
mod fault;
mod files;
mod joining;
mod laws;
mod leaving;
mod turning;
mod whole;

pub use closed_logs::{check_regular, closed_name, log_files, read_logs};
pub use fault::{JoinFault, RestFault, TurnFault};
pub use files::{BEFORE_REST, part_of, rest_size, write_file};
pub use joining::{Part, join_logs};
pub use laws::{files_have_their_parts, turned_logs_go_on};
pub use leaving::check_rests;
pub use turning::{Turned, turn_log};
pub use whole::{LogFile, OneLog, Reach, WholeFault, join_files, one_log};
