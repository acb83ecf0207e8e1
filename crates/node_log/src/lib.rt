//! What one node did, as a list: the log of its accepted calls, each with what it sent. A node makes its log again from its
//! opening state, up to the first call that it does not make.
#![tactic(auto)]

mod comparing;
mod existing_nodes;
mod log;
mod making;
mod misfit;
mod record;
mod record_check;
mod replay;

pub use comparing::{is_same_node, is_same_sent};
pub use existing_nodes::{is_numbered, is_there};
pub use log::NodeLog;
pub use making::{make_log, make_log_from};
pub use misfit::{FirstMisfit, fits};
pub use record::Record;
pub use record_check::makes;
pub use replay::replay_log;
