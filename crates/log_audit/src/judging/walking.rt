//! How far the calls of logs can be made, one after another, as far as packets were sent.
//!
//! What is found here is a guess: `waiting` judges it.

use node_log::NodeLog;
use octets::Octets;
use std::alloc::{AllocError, Global};
use std::collections::BTreeSet;
use world_setup::{Call, Node, Sent};

/// The calls that were made, and the packets that they sent.
#[derive(Drop)]
struct Walk<'a> {
    alloc: Global,
    logs: &'a [NodeLog],
    /// How many calls of each log were made.
    made: Vec<usize>,
    /// Each packet that was sent so far: sender, addressee and bytes.
    sent: BTreeSet<Octets>,
}

/// How many calls of each log can be made.
pub(crate) fn calls_that_go(alloc: Global, logs: &[NodeLog]) -> Result<Vec<usize>, AllocError> {
    let mut walk = Walk::new(alloc, logs)?;
    for _ in 0..u64::MAX {
        if !walk.go_on()? {
            break;
        }
    }
    Ok(walk.ended())
}

impl<'a> Walk<'a> {
    /// No call.
    fn new(alloc: Global, logs: &'a [NodeLog]) -> Result<Walk<'a>, AllocError> {
        Ok(Walk {
            alloc,
            logs,
            made: vec![in alloc; 0usize; logs.len()]?,
            sent: BTreeSet::new(alloc),
        })
    }

    /// How many calls of each log were made.
    fn ended(self) -> Vec<usize> {
        let Walk { made, .. } = self;
        made
    }

    /// Makes the calls of each log that can be made; whether there was one.
    fn go_on(&mut self) -> Result<bool, AllocError> {
        let mut went = false;
        for place in 0..self.logs.len() {
            for _ in 0..u64::MAX {
                if !self.make_next(place)? {
                    break;
                }
                went = true;
            }
        }
        Ok(went)
    }

    /// Makes the next call of the log at a place, if it can be made.
    fn make_next(&mut self, place: usize) -> Result<bool, AllocError> {
        let (Some(log), Some(made)) = (self.logs.get(place), self.made.get_mut(place)) else {
            return Ok(false);
        };
        let Some(one) = log.records().get(*made) else {
            return Ok(false);
        };
        if let Some((from, bytes)) = taken_by(one.call()) {
            if !self
                .sent
                .contains(&key_of(self.alloc, from, log.node(), bytes)?)
            {
                return Ok(false);
            }
        }
        *made = made.saturating_add(1);
        self.send(log.node(), one.sent())?;
        Ok(true)
    }

    /// Enters what a node sent.
    fn send(&mut self, from: Node, sent: &[Sent]) -> Result<(), AllocError> {
        for one in sent {
            let key = key_of(self.alloc, from, one.to, &one.bytes)?;
            if self.sent.insert(key).is_err() {
                return Err(AllocError);
            }
        }
        Ok(())
    }
}

/// The packet that a call takes, and who sent it.
fn taken_by(call: &Call) -> Option<(Node, &Octets)> {
    match call {
        Call::Take { from, bytes } | Call::Adjudicate { from, bytes, .. } => Some((*from, bytes)),
        Call::Submit(_)
        | Call::Tick
        | Call::Stop
        | Call::Start
        | Call::Plan { .. }
        | Call::Terms { .. }
        | Call::Retry { .. }
        | Call::Cap { .. } => None,
    }
}

/// A packet as a key.
fn key_of(alloc: Global, from: Node, to: Node, bytes: &Octets) -> Result<Octets, AllocError> {
    let mut key = Vec::with_capacity(alloc, bytes.len().saturating_add(6))?;
    put_key(&mut key, from)?;
    put_key(&mut key, to)?;
    key.extend_from_slice(bytes.as_slice())?;
    Ok(Octets::from_vec(key))
}

/// Appends a node's kind and number.
fn put_key(key: &mut Vec<u8>, node: Node) -> Result<(), AllocError> {
    let (kind, number) = match node {
        Node::Pharmacy(number) => (0u8, number),
        Node::Switch(number) => (1u8, number),
        Node::Payer(number) => (2u8, number),
    };
    let [high, low] = number.to_be_bytes();
    key.extend_from_slice(&[kind, high, low])
}
