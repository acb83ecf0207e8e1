//! The walk over the calls of logs, each once what it takes is explained.

ghost use Rattle.std.specs.Prelude.{◌≡◌, OnOk, map};
ghost use Rattle.switch_logs.specs.MadeLogs.{who};

use crate::handing::handed;
use crate::known::{Known, id_of};
use crate::line::Line;
use crate::unlogged::Unlogged;
use envelope::TxnId;
use node_log::NodeLog;
use octets::Octets;
use std::alloc::{AllocError, Global};
use std::collections::HashMap;
use world_setup::{Call, CheckedSettings, Node, Sent};

/// What is left of each log, what was sent so far, and which logs are worth a try.
#[derive(Drop)]
pub(crate) struct Walk<'a> {
    lines: Vec<Line<'a>>,
    known: Known<'a>,
    /// The place of the log of each node.
    places: HashMap<Node, usize>,
    /// The log that waits for the request of a transaction.
    waiting: HashMap<TxnId, usize>,
    /// The places of logs to be tried, the last first.
    awake: Vec<usize>,
}

impl<'a> Walk<'a> {
    /// At the beginning of all logs.
    pub(crate) fn new(alloc: Global, logs: &'a [NodeLog]) -> Result<Walk<'a>, AllocError> {
        let mut lines = Vec::new(alloc);
        let mut places = HashMap::new(alloc);
        let mut awake = Vec::new(alloc);
        for (place, log) in logs.iter().enumerate() {
            lines.push(Line::whole(log))?;
            places.insert(log.node(), place)?;
            awake.push(place)?;
        }
        Ok(Walk {
            lines,
            known: Known::new(alloc),
            places,
            waiting: HashMap::new(alloc),
            awake,
        })
    }

    /// Walks to the end of all logs. A call that nothing explains is walked over when no other log goes on, so that what
    /// follows it is explained still.
    pub(crate) fn go(
        mut self,
        alloc: Global,
        settings: &CheckedSettings,
        switches: &mut Unlogged,
    ) -> Result<(), AllocError>
        ensures { OnOk result (map who switches.new.switches.items ≡ map who switches.old.switches.items) }
    {
        for _ in 0..self.calls() {
            match self.next(alloc, settings, switches)? {
                Some(place) => self.pass(place)?,
                None => self.pass(self.first_left())?,
            }
        }
        Ok(())
    }

    /// How many calls the logs have.
    fn calls(&self) -> usize {
        let mut count = 0usize;
        for line in &self.lines {
            count = count.saturating_add(line.len());
        }
        count
    }

    /// The place of a log whose next call is explained. When those that are awake are used up, each log is tried once more.
    fn next(
        &mut self,
        alloc: Global,
        settings: &CheckedSettings,
        switches: &mut Unlogged,
    ) -> Result<Option<usize>, AllocError>
        ensures { OnOk result (map who switches.new.switches.items ≡ map who switches.old.switches.items) }
    {
        match self.next_awake(alloc, settings, switches)? {
            Some(place) => Ok(Some(place)),
            None => self.next_of_all(alloc, settings, switches),
        }
    }

    /// The place of such a log among those that are awake.
    fn next_awake(
        &mut self,
        alloc: Global,
        settings: &CheckedSettings,
        switches: &mut Unlogged,
    ) -> Result<Option<usize>, AllocError>
        ensures { OnOk result (map who switches.new.switches.items ≡ map who switches.old.switches.items) }
    {
        for _ in 0..self.awake.len() {
            let Some(place) = self.awake.pop() else {
                return Ok(None);
            };
            if self.explain(alloc, settings, switches, place)? {
                return Ok(Some(place));
            }
        }
        Ok(None)
    }

    /// The place of the first such log.
    fn next_of_all(
        &mut self,
        alloc: Global,
        settings: &CheckedSettings,
        switches: &mut Unlogged,
    ) -> Result<Option<usize>, AllocError>
        ensures { OnOk result (map who switches.new.switches.items ≡ map who switches.old.switches.items) }
    {
        for place in 0..self.lines.len() {
            if self.explain(alloc, settings, switches, place)? {
                return Ok(Some(place));
            }
        }
        Ok(None)
    }

    /// Whether the next call of the log at a place is explained; then a switch without a log has been handed what it takes.
    fn explain(
        &mut self,
        alloc: Global,
        settings: &CheckedSettings,
        switches: &mut Unlogged,
        place: usize,
    ) -> Result<bool, AllocError>
        ensures { OnOk result (map who switches.new.switches.items ≡ map who switches.old.switches.items) }
    {
        let Some(line) = self.lines.get(place) else {
            return Ok(false);
        };
        let node = line.node;
        let Some(record) = line.next() else {
            return Ok(false);
        };
        match record.call() {
            Call::Take { from, bytes } => {
                self.explain_packet(alloc, settings, switches, place, node, *from, bytes)
            }
            Call::Adjudicate { from, bytes, .. } => {
                self.explain_packet(alloc, settings, switches, place, node, *from, bytes)
            }
            _ => Ok(true),
        }
    }

    /// Whether the packet that the log at a place takes next is explained.
    fn explain_packet(
        &mut self,
        alloc: Global,
        settings: &CheckedSettings,
        switches: &mut Unlogged,
        place: usize,
        node: Node,
        from: Node,
        bytes: &'a Octets,
    ) -> Result<bool, AllocError>
        ensures { OnOk result (map who switches.new.switches.items ≡ map who switches.old.switches.items) }
    {
        if !switches.has(from) {
            return Ok(self.known.was_sent(from, node, bytes));
        }
        match handed(alloc, settings, &self.known, from, node, bytes)? {
            Some(packets) => {
                switches.hand(alloc, from, packets)?;
                Ok(true)
            }
            None => {
                if let Some(id) = id_of(bytes) {
                    self.waiting.insert(id, place)?;
                }
                Ok(false)
            }
        }
    }

    /// The place of the first log that has a call left; the number of logs where none has.
    fn first_left(&self) -> usize {
        for (place, line) in self.lines.iter().enumerate() {
            if line.next().is_some() {
                return place;
            }
        }
        self.lines.len()
    }

    /// Walks over the next call of the log at a place, and wakes the logs that may go on then.
    fn pass(&mut self, place: usize) -> Result<(), AllocError> {
        let Some(line) = self.lines.get(place) else {
            return Ok(());
        };
        let Some(record) = line.next() else {
            return Ok(());
        };
        let node = line.node;
        let rest = line.rest();
        let sent = record.sent();
        self.lines[place] = rest;
        self.known.note(node, sent)?;
        self.awake.push(place)?;
        for one in sent {
            self.wake(one)?;
        }
        Ok(())
    }

    /// Wakes the log of a packet's addressee, and those of the nodes to which a switch hands it.
    fn wake(&mut self, one: &Sent) -> Result<(), AllocError> {
        if let Some(place) = self.places.get(&one.to) {
            self.awake.push(*place)?;
        }
        let Some(id) = id_of(&one.bytes) else {
            return Ok(());
        };
        if let Some(place) = self.waiting.get(&id) {
            self.awake.push(*place)?;
        }
        if let Some(place) = self.places.get(&Node::Pharmacy(id.pharmacy())) {
            self.awake.push(*place)?;
        }
        Ok(())
    }
}
