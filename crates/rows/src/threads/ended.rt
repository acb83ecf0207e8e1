//! What a system did that has ended.

use crate::threads::commands::event_of;
use crate::threads::words::{read_node, read_number};
use case_files::Told;
use envelope::Envelope;
use node_log::NodeLog;
use node_threads::{FinishFault, Finished};
use std::alloc::Global;
use world_core::World;
use world_report::put_nodes;
use world_setup::{Call, Event, Node};

/// The logs of a system, and the run of them where one was found.
#[derive(Drop)]
pub(crate) struct Ended {
    logs: Vec<NodeLog>,
    run: Option<Run>,
    beside: Beside,
}

/// What was counted beside the logs.
#[derive(Clone, Copy)]
pub(crate) struct Beside {
    /// How often a worker was inside a switch.
    pub(crate) switches: u64,
    /// How often a worker was inside a payer.
    pub(crate) payers: u64,
    /// How many ticks were made while a node was restarted.
    pub(crate) ticks: u64,
}

/// The run of logs.
#[derive(Drop)]
struct Run {
    events: Vec<Event>,
    world: World,
}

/// Kinds of calls.
#[derive(Clone, Copy)]
enum Kind {
    Submit,
    Tick,
    Take,
}

/// Tells how a system ended, and keeps what it did.
pub(crate) fn tell_end(
    told: &mut Told,
    outcome: Result<Finished, FinishFault>,
    beside: Beside,
) -> Option<Ended> {
    match outcome {
        Ok(finished) => {
            told.word("ok");
            Some(with_run(finished, beside))
        }
        Err(FinishFault::TillMissing(pharmacy, logs)) => {
            told.word("TillMissing");
            told.shown(pharmacy);
            Some(Ended {
                logs,
                run: None,
                beside,
            })
        }
        Err(fault) => {
            told.word(fault.name());
            None
        }
    }
}

/// What a system did whose run was found.
fn with_run(finished: Finished, beside: Beside) -> Ended {
    let Finished {
        events,
        world,
        logs,
    } = finished;
    Ended {
        logs,
        run: Some(Run { events, world }),
        beside,
    }
}

impl Ended {
    /// Tells something of what was done.
    pub(crate) fn tell(&self, told: &mut Told, alloc: Global, word: &str, argument: &[u8]) {
        let node = read_node(argument);
        match word {
            "submits" => told.shown(self.count(node, Kind::Submit)),
            "ticks" => told.shown(self.count(node, Kind::Tick)),
            "takes" => told.shown(self.count(node, Kind::Take)),
            "inside-as-logged" => told.truth(self.is_inside_as_logged()),
            "ticks-as-logged" => told.truth(self.count(node, Kind::Tick) == self.beside.ticks),
            "ticked" => told.truth(self.count(node, Kind::Tick) > 0),
            "numbers" => self.tell_numbers(told, node),
            _ => match &self.run {
                Some(run) => run.tell(told, alloc, word, argument),
                None => told.refuse(),
            },
        }
    }

    /// How many calls of a kind stand in the log of a node.
    fn count(&self, node: Node, kind: Kind) -> u64 {
        let mut count = 0u64;
        for log in &self.logs {
            if log.node() == node {
                count = count.saturating_add(counted(log, kind));
            }
        }
        count
    }

    /// Whether workers were as often inside switch 1 and payer 1, which are the only ones, as these took packets.
    fn is_inside_as_logged(&self) -> bool {
        self.count(Node::Switch(1), Kind::Take) == self.beside.switches
            && self.count(Node::Payer(1), Kind::Take) == self.beside.payers
    }

    /// Tells the numbers of the packets that switch 1 took from a node, in order.
    fn tell_numbers(&self, told: &mut Told, sender: Node) {
        for log in &self.logs {
            if log.node() == Node::Switch(1) {
                tell_taken(told, log, sender);
            }
        }
    }
}

/// How many calls of a kind stand in a log.
fn counted(log: &NodeLog, kind: Kind) -> u64 {
    let mut count = 0u64;
    for record in log.records() {
        if is_of(kind, record.call()) {
            count = count.saturating_add(1);
        }
    }
    count
}

/// Whether a call is of a kind.
fn is_of(kind: Kind, call: &Call) -> bool {
    match (kind, call) {
        (Kind::Submit, Call::Submit(_)) => true,
        (Kind::Tick, Call::Tick) => true,
        (Kind::Take, Call::Take { .. } | Call::Adjudicate { .. }) => true,
        _ => false,
    }
}

/// Tells the numbers of the packets that a node took from another one.
fn tell_taken(told: &mut Told, log: &NodeLog, sender: Node) {
    for record in log.records() {
        match record.call() {
            Call::Take { from, bytes } | Call::Adjudicate { from, bytes, .. } if *from == sender =>
                { tell_number(told, bytes.as_slice()) }
            _ => {}
        }
    }
}

/// Tells the number of a packet.
fn tell_number(told: &mut Told, packet: &[u8]) {
    match Envelope::read(packet) {
        Ok(envelope) => told.shown(envelope.id().number()),
        Err(_) => told.word("none"),
    }
}

impl Run {
    /// Tells something of the run.
    fn tell(&self, told: &mut Told, alloc: Global, word: &str, argument: &[u8]) {
        match word {
            "events" => told.shown(self.events.len()),
            "event" => match event_of(alloc, argument) {
                Some(event) => told.shown(self.times(&event)),
                None => told.refuse(),
            },
            "others" => told.shown(self.others()),
            "stop-then-start" => told.truth(self.stops_then_starts(read_node(argument))),
            "entries" => self.tell_entries(told, argument),
            "nodes" => self.tell_nodes(told, alloc),
            "begins" => told.truth(self.lines(alloc).starts_with(argument)),
            "ends" => told.truth(self.lines(alloc).ends_with(argument)),
            _ => told.refuse(),
        }
    }

    /// How often an event stands among those of the run.
    fn times(&self, wanted: &Event) -> usize {
        let mut times = 0usize;
        for event in &self.events {
            if event == wanted {
                times = times.saturating_add(1);
            }
        }
        times
    }

    /// How many events are no tick of pharmacy 1, no stop and no start of it.
    fn others(&self) -> usize {
        let all = self.events.len();
        let ticks = self.times(&Event::Tick { pharmacy: 1 });
        let stops = self.times(&Event::Stop(Node::Pharmacy(1)));
        let starts = self.times(&Event::Start(Node::Pharmacy(1)));
        all.saturating_sub(ticks)
            .saturating_sub(stops)
            .saturating_sub(starts)
    }

    /// The place of an event.
    fn place_of(&self, wanted: &Event) -> Option<usize> {
        self.events.iter().position(|event| event == wanted)
    }

    /// Whether a node stops, and starts later.
    fn stops_then_starts(&self, node: Node) -> bool {
        let stop = self.place_of(&Event::Stop(node));
        stop.is_some() && stop < self.place_of(&Event::Start(node))
    }

    /// Tells how many entries the journal of a pharmacy has.
    fn tell_entries(&self, told: &mut Told, argument: &[u8]) {
        match read_number(argument) {
            Some(pharmacy) => match self.world.journal(pharmacy) {
                Ok(entries) => told.shown(entries.len()),
                Err(_) => told.refuse(),
            },
            None => told.refuse(),
        }
    }

    /// Tells the report's lines of all nodes.
    fn tell_nodes(&self, told: &mut Told, alloc: Global) {
        told.bytes(&self.lines(alloc));
    }

    /// The report's lines of all nodes; fewer where memory is refused.
    fn lines(&self, alloc: Global) -> Vec<u8> {
        let mut lines = Vec::new(alloc);
        let _short = put_nodes(&mut lines, alloc, &self.world);
        lines
    }
}
