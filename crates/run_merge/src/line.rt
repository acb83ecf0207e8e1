//! What is left of a log, while an order is made.

ghost use Rattle.std.specs.Prelude.{◌≡◌, ◌<◌, drop, length, IfOk};
ghost use Rattle.world_setup.specs.Seen.{node_seen};
ghost use Rattle.run_merge.specs.LineSeen.{line_seen};
ghost use Rattle.node_log.specs.LogSeen.{log_seen};
ghost use Rattle.run_merge.specs.Found.{NextOf};

use crate::posted::Posted;
use crate::turn::event_for;
use node_log::{NodeLog, Record};
use std::alloc::AllocError;
use world_setup::{Event, Node};

/// A node, and the records of its log that were not placed yet.
#[derive(Drop)]
pub(crate) struct Line<'a> {
    pub(crate) node: Node,
    pub(crate) left: &'a [Record],
}

impl<'a> Line<'a> {
    /// The whole log of a node.
    pub(crate) fn whole(log: &'a NodeLog) -> Line<'a>
        ensures { line_seen result ≡ log_seen log.now }
    {
        Line {
            node: log.node(),
            left: log.records(),
        }
    }

    /// The event that makes the next call, where there is one.
    pub(crate) fn next(&self, posted: &Posted<'a>) -> Result<Option<Event>, AllocError>
        ensures { IfOk result (λ o. NextOf posted.now (line_seen self.now) o) }
    {
        if self.left.is_empty() {
            return Ok(None);
        }
        event_for(posted, self.node, self.left[0].call())
    }

    /// What is left after the next call.
    pub(crate) fn rest(&self) -> Line<'a>
        requires { 0 < length self.now.left.now }
        ensures { line_seen result ≡ record { node = node_seen self.now.node; calls = drop 1 self.now.left.now } }
    {
        Line {
            node: self.node,
            left: &self.left[1..],
        }
    }
}
