//! One node as a process serves it: lines in, lines out, and beside them the records that have to be on disk before what
//! was sent may leave. A host moves such lines between a node's process and the carrier that brings its packets.
//!
//! A host appends the records to the node's log, syncs the log, and only then writes what came of the lines. Then
//! whatever left the node is in its log, and the node of a log that is read again is the one that was.
#![tactic(auto)]

mod answering;
mod asking;
mod book_row;
mod fault;
mod idle;
mod laws;
mod listing;
mod most;
mod opening;
mod payment_lines;
mod payments;
mod questions;
mod references;
mod service;
mod sharing;
mod telling;

pub use answering::ready_line;
pub use fault::ServiceFault;
pub use laws::{
    crashed_files_restart, lines_add, restarts_are_the_same, served_logs_grow, words_read_back,
};
pub use payment_lines::put_word;
pub use payments::{NodePayment, payments_of};
pub use service::Service;
pub use sharing::SharedSettings;
