//! Nodes one by one, each with the log of its calls, and the packets that they sent.

use node_log::{NodeLog, Record, is_there};
use node_state::NodeState;
use octets::Octets;
use std::alloc::{AllocError, Global};
use world_setup::{Call, CheckedSettings, Event, Fault, Node, Packet, Refusal};

/// A node with the log of its calls.
#[derive(Drop)]
pub(crate) struct Logged {
    pub(crate) state: NodeState,
    pub(crate) log: NodeLog,
}

impl Logged {
    /// Makes a call, and records it with what the node sent.
    fn call(&mut self, alloc: Global, shared: &CheckedSettings, call: Call) -> Result<(), Fault> {
        self.log.reserve()?;
        let sent = self.state.step(alloc, shared.routes(), &call)?;
        self.log.record(call, sent);
        Ok(())
    }

    /// Forgets all calls, or all but the first and what that sent.
    pub(crate) fn forget(&mut self, alloc: Global, has_call: bool) {
        let mut log = NodeLog::new(alloc, self.log.node());
        if has_call {
            if let Some(record) = self.log.records().first() {
                put_unsent(alloc, &mut log, record);
            }
        }
        self.log = log;
    }
}

/// Records a call without what it sent, where there is memory for it.
fn put_unsent(alloc: Global, log: &mut NodeLog, record: &Record) {
    if let Ok(call) = copy_of(record.call()) {
        if log.reserve().is_ok() {
            log.record(call, Vec::new(alloc));
        }
    }
}

/// The same submission; a tick in the place of another call.
fn copy_of(call: &Call) -> Result<Call, AllocError> {
    match call {
        Call::Submit(text) => match text.copy() {
            Ok(text) => Ok(Call::Submit(text)),
            Err(refused) => Err(refused),
        },
        _ => Ok(Call::Tick),
    }
}

/// Settings, their nodes, and all packets that these sent.
#[derive(Drop)]
pub(crate) struct Recorded {
    pub(crate) shared: CheckedSettings,
    pub(crate) nodes: Vec<Logged>,
    pub(crate) packets: Vec<Packet>,
}

/// The nodes of settings as they open; none where memory is refused.
pub(crate) fn opened(alloc: Global, shared: CheckedSettings) -> Option<Recorded> {
    let mut recorded = Recorded {
        shared,
        nodes: Vec::new(alloc),
        packets: Vec::new(alloc),
    };
    if recorded.open_all(alloc) {
        Some(recorded)
    } else {
        None
    }
}

/// A call and the node that it is made on.
#[derive(Drop)]
pub(crate) struct Made {
    node: Node,
    call: Call,
}

impl Recorded {
    /// Opens all nodes: pharmacies, then switches, then payers.
    fn open_all(&mut self, alloc: Global) -> bool {
        for number in 1..=64 {
            if !self.open(alloc, Node::Pharmacy(number)) {
                return false;
            }
        }
        for number in 1..=64 {
            if !self.open(alloc, Node::Switch(number)) {
                return false;
            }
        }
        for number in 1..=64 {
            if !self.open(alloc, Node::Payer(number)) {
                return false;
            }
        }
        true
    }

    /// Opens a node, where it is there; false where memory is refused.
    fn open(&mut self, alloc: Global, node: Node) -> bool {
        if !is_there(self.shared.settings(), node) {
            return true;
        }
        match NodeState::opening(alloc, &self.shared, node) {
            Ok(state) => {
                let log = NodeLog::new(alloc, node);
                self.nodes.push(Logged { state, log }).is_ok()
            }
            Err(_) => false,
        }
    }

    /// The call of an event, and its node; none where a packet is not there, or memory is refused.
    pub(crate) fn made_by(&self, event: &Event) -> Option<Made> {
        match event {
            Event::Submit { pharmacy, text } => submission(*pharmacy, text),
            Event::Tick { pharmacy } => call_on(Node::Pharmacy(*pharmacy), Call::Tick),
            Event::Deliver { packet } => self.taking(*packet),
            Event::Stop(node) => call_on(*node, Call::Stop),
            Event::Start(node) => call_on(*node, Call::Start),
            Event::Plan {
                payer,
                product,
                price,
            } => plan(*payer, product, *price),
            Event::Terms { payer, fee, copay } => terms(*payer, *fee, *copay),
            Event::Retry {
                pharmacy,
                nodes,
                again,
                tries,
            } => retry(*pharmacy, nodes, *again, *tries),
            Event::Cap { switch, entries } => {
                let entries = *entries;
                call_on(Node::Switch(*switch), Call::Cap { entries })
            }
            Event::Adjudicate { packet, advice } => self.adjudicating(*packet, advice),
        }
    }

    /// The taking of the packet of a number.
    fn taking(&self, number: u64) -> Option<Made> {
        match number.checked_sub(1) {
            Some(place) => match self.packets.get(place as usize) {
                Some(packet) => taken(packet),
                None => None,
            },
            None => None,
        }
    }

    /// The taking of the packet of a number with an advice.
    fn adjudicating(&self, number: u64, advice: &Octets) -> Option<Made> {
        match number.checked_sub(1) {
            Some(place) => match self.packets.get(place as usize) {
                Some(packet) => adjudicated(packet, advice),
                None => None,
            },
            None => None,
        }
    }

    /// Makes a call, and keeps the packets that it sends. Says how many they are.
    pub(crate) fn make(&mut self, alloc: Global, made: Made) -> Result<usize, Fault> {
        let Made { node, call } = made;
        match self
            .nodes
            .iter_mut()
            .find(|logged| logged.log.node() == node)
        {
            Some(logged) => match logged.call(alloc, &self.shared, call) {
                Ok(()) => keep_sent(&mut self.packets, &logged.log),
                Err(fault) => Err(fault),
            },
            None => Err(Fault::Refused(Refusal::NoSuchNode)),
        }
    }

    /// Copies of all logs; none where memory is refused.
    pub(crate) fn logs(&self, alloc: Global) -> Option<Vec<NodeLog>> {
        let mut logs = Vec::new(alloc);
        for logged in &self.nodes {
            if !push_copy(alloc, &mut logs, &logged.log) {
                return None;
            }
        }
        Some(logs)
    }
}

/// A call on a node.
fn call_on(node: Node, call: Call) -> Option<Made> {
    Some(Made { node, call })
}

/// The submission of a text.
fn submission(pharmacy: u16, text: &Octets) -> Option<Made> {
    match text.copy() {
        Ok(text) => call_on(Node::Pharmacy(pharmacy), Call::Submit(text)),
        Err(_) => None,
    }
}

/// A change of a plan.
fn plan(payer: u16, product: &Octets, price: Option<u32>) -> Option<Made> {
    match product.copy() {
        Ok(product) => call_on(Node::Payer(payer), Call::Plan { product, price }),
        Err(_) => None,
    }
}

/// A change of terms.
fn terms(payer: u16, fee: u32, copay: u32) -> Option<Made> {
    call_on(Node::Payer(payer), Call::Terms { fee, copay })
}

/// Another rule of retries.
fn retry(pharmacy: u16, nodes: &Octets, again: u32, tries: u32) -> Option<Made> {
    match nodes.copy() {
        Ok(nodes) => call_on(
            Node::Pharmacy(pharmacy),
            Call::Retry {
                nodes,
                again,
                tries,
            },
        ),
        Err(_) => None,
    }
}

/// The taking of a packet by whom it is for.
fn taken(packet: &Packet) -> Option<Made> {
    match packet.bytes.copy() {
        Ok(bytes) => call_on(
            packet.to,
            Call::Take {
                from: packet.from,
                bytes,
            },
        ),
        Err(_) => None,
    }
}

/// The taking of a packet by whom it is for, with an advice.
fn adjudicated(packet: &Packet, advice: &Octets) -> Option<Made> {
    let from = packet.from;
    match (packet.bytes.copy(), advice.copy()) {
        (Ok(bytes), Ok(advice)) => call_on(
            packet.to,
            Call::Adjudicate {
                from,
                bytes,
                advice,
            },
        ),
        _ => None,
    }
}

/// Keeps the packets of the last call of a log, and says how many they are.
fn keep_sent(packets: &mut Vec<Packet>, log: &NodeLog) -> Result<usize, Fault> {
    match log.records().last() {
        Some(record) => {
            for sent in record.sent() {
                if !is_kept(packets, log.node(), sent.to, &sent.bytes) {
                    return Err(Fault::OutOfMemory);
                }
            }
            Ok(record.sent().len())
        }
        None => Ok(0),
    }
}

/// Keeps a packet; false where memory is refused.
fn is_kept(packets: &mut Vec<Packet>, from: Node, to: Node, bytes: &Octets) -> bool {
    match bytes.copy() {
        Ok(bytes) => packets.push(Packet { from, to, bytes }).is_ok(),
        Err(_) => false,
    }
}

/// Appends a copy of a log; false where memory is refused.
fn push_copy(alloc: Global, logs: &mut Vec<NodeLog>, log: &NodeLog) -> bool {
    match log.copy(alloc) {
        Ok(copy) => logs.push(copy).is_ok(),
        Err(_) => false,
    }
}
