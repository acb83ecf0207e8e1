//! Logs one by one: whether its node makes each, and what the node has then.

pub(crate) mod ages;
pub(crate) mod lines;
pub(crate) mod log;
pub(crate) mod object;
pub(crate) mod report;
pub(crate) mod tables;
