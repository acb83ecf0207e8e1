//! The judge over logs and tills, without a thread.

use crate::threads::commands::event_of;
use crate::threads::held::tell_bytes;
use crate::threads::logs::{Recorded, opened};
use crate::threads::settings::taken_named;
use crate::threads::tills;
use crate::threads::words::{place_of, read_count, read_number};
use case_files::{CaseFile, Subject, Told};
use envelope::TxnId;
use node_log::{NodeLog, is_there, replay_log};
use node_state::NodeState;
use node_threads::{FinishFault, Finished, Till, judge};
use std::alloc::Global;
use world_setup::CheckedSettings;

/// Rows about logs and tills.
#[derive(Drop)]
pub(crate) struct Judging<'a> {
    files: &'a [CaseFile],
    recorded: Option<Recorded>,
    tills: Vec<Till>,
}

impl<'a> Judging<'a> {
    /// No settings and no till yet.
    pub(crate) fn new(alloc: Global, files: &'a [CaseFile]) -> Judging<'a> {
        Judging {
            files,
            recorded: None,
            tills: Vec::new(alloc),
        }
    }
}

impl Subject for Judging<'_> {
    fn tell(&mut self, told: &mut Told, alloc: Global, word: &str, argument: &[u8]) {
        match word {
            "open" => self.open(told, alloc, argument),
            "event" => self.event(told, alloc, argument),
            "empty" => self.put_log(told, alloc, argument, false),
            "forget-sent" => self.put_log(told, alloc, argument, true),
            "till" => self.till(told, alloc, argument),
            "no-till" => {
                self.tills.clear();
                told.word("ok");
            }
            "judge" => self.judge(told, alloc),
            "replay" => self.replay(told, alloc, argument),
            _ => tills::tell(told, alloc, &mut self.tills, word, argument),
        }
    }
}

impl Judging<'_> {
    /// Opens all nodes of the settings of a name.
    fn open(&mut self, told: &mut Told, alloc: Global, name: &[u8]) {
        self.recorded = match taken_named(alloc, self.files, name) {
            Some(settings) => opened(alloc, settings),
            None => None,
        };
        self.tills.clear();
        told.word(if self.recorded.is_some() {
            "ok"
        } else {
            "none"
        });
    }

    /// Makes the call of an event, and tells how many packets it sends.
    fn event(&mut self, told: &mut Told, alloc: Global, line: &[u8]) {
        match (&mut self.recorded, event_of(alloc, line)) {
            (Some(recorded), Some(event)) => match recorded.made_by(&event) {
                Some(made) => match recorded.make(alloc, made) {
                    Ok(sent) => told.field("sends", sent),
                    Err(fault) => told.word(fault.name()),
                },
                None => told.refuse(),
            },
            _ => told.refuse(),
        }
    }

    /// Puts a log of no calls in the place of a log, or one of its first call without what that sent.
    fn put_log(&mut self, told: &mut Told, alloc: Global, argument: &[u8], has_call: bool) {
        match (&mut self.recorded, read_count(argument)) {
            (Some(recorded), Some(number)) => match recorded.nodes.get_mut(place_of(number)) {
                Some(logged) => {
                    told.named(logged.log.node());
                    logged.forget(alloc, has_call);
                }
                None => told.refuse(),
            },
            _ => told.refuse(),
        }
    }

    /// Opens a till of a pharmacy.
    fn till(&mut self, told: &mut Told, alloc: Global, argument: &[u8]) {
        match read_number(argument) {
            Some(pharmacy) => {
                let till = Till::new(alloc, pharmacy);
                told.field("pharmacy", till.pharmacy());
                if self.tills.push(till).is_err() {
                    told.refuse();
                }
            }
            None => told.refuse(),
        }
    }

    /// Tells what the judge finds in the logs and tills.
    fn judge(&self, told: &mut Told, alloc: Global) {
        match &self.recorded {
            Some(recorded) => match recorded.logs(alloc) {
                Some(logs) => tell_judged(told, judge(alloc, &recorded.shared, logs, &self.tills)),
                None => told.refuse(),
            },
            None => told.refuse(),
        }
    }

    /// Tells what a log replays to: its entries, the first request, and the answer that is held for it.
    fn replay(&self, told: &mut Told, alloc: Global, argument: &[u8]) {
        match (&self.recorded, read_count(argument)) {
            (Some(recorded), Some(number)) => match recorded.nodes.get(place_of(number)) {
                Some(logged) => match replayed(alloc, &recorded.shared, &logged.log) {
                    Some(state) => tell_state(told, alloc, &state),
                    None => told.refuse(),
                },
                None => told.refuse(),
            },
            _ => told.refuse(),
        }
    }
}

/// The node of a log after its calls.
fn replayed(alloc: Global, shared: &CheckedSettings, log: &NodeLog) -> Option<NodeState> {
    if !is_there(shared.settings(), log.node()) {
        return None;
    }
    replay_log(alloc, shared, log).ok()
}

/// Tells how many entries a node has, its first request, and the answer that it holds for that of pharmacy 1.
fn tell_state(told: &mut Told, alloc: Global, state: &NodeState) {
    match (state.entries(alloc), state.request(alloc, 1)) {
        (Ok(entries), Ok(request)) => {
            told.field("entries", entries);
            tell_bytes(told, request);
        }
        _ => told.refuse(),
    }
    match TxnId::new(1, 1) {
        Some(id) => match state.held(alloc, id) {
            Ok(answer) => tell_bytes(told, answer),
            Err(_) => told.refuse(),
        },
        None => told.refuse(),
    }
}

/// Tells a verdict, with the count of events or calls in the logs.
pub(crate) fn tell_judged(told: &mut Told, outcome: Result<Finished, FinishFault>) {
    match outcome {
        Ok(finished) => {
            told.field("events", finished.events.len());
            told.field("calls", calls_in(&finished.logs));
        }
        Err(fault) => tell_fault(told, fault),
    }
}

/// Tells a refusal.
fn tell_fault(told: &mut Told, fault: FinishFault) {
    told.word(fault.name());
    match fault {
        FinishFault::TillMissing(pharmacy, logs) => {
            told.shown(pharmacy);
            told.field("calls", calls_in(&logs));
        }
        FinishFault::ReceiptMissing(logs) => told.field("calls", calls_in(&logs)),
        FinishFault::HeardDiffers(logs) => told.field("calls", calls_in(&logs)),
        FinishFault::Tangled(logs) => told.field("calls", calls_in(&logs)),
        FinishFault::OutOfMemory => told.refuse(),
    }
}

/// How many calls stand in logs.
fn calls_in(logs: &[NodeLog]) -> usize {
    let mut calls = 0usize;
    for log in logs {
        calls = calls.saturating_add(log.records().len());
    }
    calls
}
