//! What is left of a log, while an order is made.

ghost use Rattle.std.specs.Prelude.{◌≡◌, ◌<◌, drop, length, IfOk};
ghost use Rattle.world_setup.specs.Seen.{node_seen};
ghost use Rattle.claim_model.specs.Bytes.{bytes_with};
ghost use Rattle.node_log.specs.Fits.{Tells};
ghost use Rattle.node_log.specs.LogSeen.{log_seen};
ghost use Rattle.vouched_runs.specs.Parties.{world_of};
ghost use Rattle.days_audit.specs.Calls.{NextIsVouched};
ghost use Rattle.days_audit.specs.Orders.{line_seen};

use crate::live::Live;
use bin_routes::Routes;
use node_log::{NodeLog, Record};
use std::alloc::{AllocError, Global};
use world_setup::{Call, Node};

/// A node, and the records of its log that were not placed yet.
#[derive(Drop)]
pub(crate) struct Line<'a> {
    pub(crate) node: Node,
    pub(crate) left: &'a [Record],
}

impl<'a> Line<'a> {
    /// The whole log of a node.
    pub(crate) fn whole(log: &'a NodeLog) -> Line<'a>
        ensures { line_seen result ≡ log_seen log.now }
    {
        Line {
            node: log.node(),
            left: log.records(),
        }
    }

    /// Whether there is a next call, and what these nodes have vouches for it.
    pub(crate) fn is_vouched(
        &self,
        alloc: Global,
        routes: &Routes,
        live: &Live,
    ) -> Result<bool, AllocError>
        ensures { IfOk result (λ yes. Tells yes
            (NextIsVouched (bytes_with routes.now) (world_of live.now) (line_seen self.now))) }
    {
        if self.left.is_empty() {
            return Ok(false);
        }
        live.vouches(alloc, routes, self.left[0].call())
    }

    /// The next call, where there is one.
    pub(crate) fn next(&self) -> Option<&'a Record> {
        self.left.first()
    }

    /// Whether the next call is a stop.
    pub(crate) fn stops(&self) -> bool {
        self.left
            .first()
            .is_some_and(|one| matches!(one.call(), Call::Stop))
    }

    /// What is left after the next call.
    pub(crate) fn rest(&self) -> Line<'a>
        requires { 0 < length self.now.left.now }
        ensures { line_seen result ≡ record { node = node_seen self.now.node; calls = drop 1 self.now.left.now } }
    {
        Line {
            node: self.node,
            left: &self.left[1..],
        }
    }
}
