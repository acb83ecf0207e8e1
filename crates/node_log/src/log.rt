//! The log of a node.

ghost use Rattle.std.specs.Prelude.{◌≡◌, ◌<◌, [], vec_len, vec_capacity, map, IfOk, OnOk};
ghost use Rattle.world_setup.specs.Seen.{node_seen, call_seen, sent_seen};
ghost use Rattle.claim_model.specs.Nodes.{same_node};
ghost use Rattle.node_log.specs.LogSeen.{log_seen, with_call};

use crate::comparing::is_same_node;
use crate::record::Record;
use std::alloc::{AllocError, Global};
use world_setup::{Call, Node, Sent};

/// The log of a node: its accepted calls in order, each with what it sent. Refused calls are not in it (own).
#[derive(Debug, Drop)]
pub struct NodeLog {
    node: Node,
    calls: Vec<Record>,
}

impl NodeLog {
    /// The log of a node that was not called yet.
    pub fn new(alloc: Global, node: Node) -> NodeLog
        ensures { log_seen result ≡ record { node = node_seen node; calls = [] } }
    {
        NodeLog {
            node,
            calls: Vec::new(alloc),
        }
    }

    /// Makes room for one more record, so that recording cannot fail after a step. Of the log itself nothing changes.
    pub fn reserve(&mut self) -> Result<(), AllocError>
        ensures same { log_seen self.new ≡ log_seen self.old }
        ensures room { OnOk result (vec_len self.new.calls < vec_capacity self.new.calls) }
    {
        self.calls.reserve(1)
    }

    /// Records an accepted call with what the step gave, in room that was made before.
    pub fn record(&mut self, call: Call, sent: Vec<Sent>)
        requires { vec_len self.old.calls < vec_capacity self.old.calls }
        ensures { log_seen self.new
            ≡ with_call (log_seen self.old) (record { call = call_seen call; sent = map sent_seen sent.items }) }
    {
        self.enter(Record::new(call, sent));
    }

    /// Enters a record, in room that was made before.
    pub fn enter(&mut self, one: Record)
        requires { vec_len self.old.calls < vec_capacity self.old.calls }
        ensures { log_seen self.new ≡ with_call (log_seen self.old) one }
    {
        self.calls.push_reserved(one);
    }

    /// The node.
    pub fn node(&self) -> Node
        ensures { result ≡ self.now.node }
    {
        self.node
    }

    /// Whether it is the log of the node of this name.
    pub fn is_of(&self, node: Node) -> bool
        ensures { result ≡ same_node (node_seen self.now.node) (node_seen node) }
    {
        is_same_node(self.node, node)
    }

    /// The records, in order.
    pub fn records(&self) -> &[Record]
        ensures { result.now ≡ self.now.calls.items }
    {
        self.calls.as_slice()
    }

    /// An equal log, in memory of its own.
    pub fn copy(&self, alloc: Global) -> Result<NodeLog, AllocError>
        ensures { IfOk result (λ copy. log_seen copy ≡ log_seen self.now) }
    {
        let calls = copy_records(alloc, self.calls.as_slice())?;
        Ok(NodeLog {
            node: self.node,
            calls,
        })
    }
}

/// Equal records.
fn copy_records(alloc: Global, records: &[Record]) -> Result<Vec<Record>, AllocError>
    ensures { IfOk result (λ copy. copy.items ≡ records.now) }
{
    let mut copy = Vec::new(alloc);
    for record in records {
        copy.push(record.copy(alloc)?)?;
    }
    Ok(copy)
}
