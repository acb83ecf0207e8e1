//! Nodes on threads: each node with its log behind a lock of its own, an inbox, into which any thread puts packets, and a
//! worker, which takes them; and a running system of all nodes, which ends with the verdict on their logs.
//!
//! Nodes with their logs, tills and the verdict are those of `node_logged`, and are named here too.
#![tactic(auto)]

mod ending;
mod hall;
mod inbox;
mod links;
mod packets;
mod post;
mod starting;
mod station;
mod status;
mod system;
mod treatment;
mod workers;

pub use inbox::{EnterFault, Inbox, Mail, Pass, Places, PutFault, Traffic};
pub use node_logged::{
    FinishFault, Finished, Held, Receipt, Till, judge, judge_nodes,
    receipts_are_the_entries_each_once,
};
pub use post::Post;
pub use starting::StartFault;
pub use status::{Status, StatusFault};
pub use system::System;
pub use workers::{Gate, Workers};
