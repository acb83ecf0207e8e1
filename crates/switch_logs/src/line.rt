//! What is left of a log.

use node_log::{NodeLog, Record};
use world_setup::Node;

/// A node, and the records of its log that were not walked over yet.
#[derive(Clone, Copy)]
pub(crate) struct Line<'a> {
    pub(crate) node: Node,
    left: &'a [Record],
}

impl<'a> Line<'a> {
    /// The whole log of a node.
    pub(crate) fn whole(log: &'a NodeLog) -> Line<'a> {
        Line {
            node: log.node(),
            left: log.records(),
        }
    }

    /// How many records are left.
    pub(crate) fn len(&self) -> usize {
        self.left.len()
    }

    /// The next record.
    pub(crate) fn next(&self) -> Option<&'a Record> {
        self.left.first()
    }

    /// What is left after it.
    pub(crate) fn rest(&self) -> Line<'a> {
        let left = match self.left {
            [_, rest @ ..] => rest,
            [] => self.left,
        };
        Line {
            node: self.node,
            left,
        }
    }
}
