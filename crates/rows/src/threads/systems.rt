//! Running systems: nodes behind locks of their own, with threads of their own, and the calls made on them.

use crate::threads::callers::submit_by_two;
use crate::threads::commands::{command_of, fault_of};
use crate::threads::ended::{Beside, Ended, tell_end};
use crate::threads::gates::Counting;
use crate::threads::holding::held_switch;
use crate::threads::restarts::restarted;
use crate::threads::settings::taken_named;
use crate::threads::waits::{settled, settled_by_itself};
use crate::threads::words::{count_and_rest, place_of, read_count, read_node, read_number};
use case_files::{CaseFile, Runner, Told};
use input_text::{Lines, split_word};
use node_threads::{Status, StatusFault, System, Till, Workers};
use octets::Octets;
use schedule::Command;
use std::alloc::{AllocError, Global};
use std::sync::{Arc, Wait};
use std::thread::Threads;
use std::time::Clock;
use world_setup::{CheckedSettings, Fault, LinkFault, Refusal};

/// Runs rows about systems.
pub(crate) fn run<T>(
    rt: &T,
    runner: &mut Runner,
    files: &[CaseFile],
    file: &CaseFile,
) -> Result<(), AllocError>
where
    T: Threads + Wait + Clock + Copy + Send + Sync + 'static,
{
    let alloc = runner.alloc();
    let mut running = Running {
        files,
        faults: Vec::new(alloc),
        live: None,
        ended: None,
    };
    run_rows(rt, runner, file, &mut running)
}

/// Runs all rows of a file.
fn run_rows<T>(
    rt: &T,
    runner: &mut Runner,
    file: &CaseFile,
    running: &mut Running<'_>,
) -> Result<(), AllocError>
where
    T: Threads + Wait + Clock + Copy + Send + Sync + 'static,
{
    let alloc = runner.alloc();
    for line in Lines::new(file.bytes()) {
        if let Some(row) = runner.row(file, line)? {
            running.tell(rt, runner.told(), alloc, row.word(), row.argument());
            runner.compare(file, line.number, &row)?;
        }
    }
    runner.end(file)
}

/// One running system, and what it did once it has ended.
#[derive(Drop)]
struct Running<'a> {
    files: &'a [CaseFile],
    faults: Vec<LinkFault>,
    live: Option<Live>,
    ended: Option<Ended>,
}

/// A system that runs.
#[derive(Drop)]
struct Live {
    system: System,
    workers: Workers,
    gate: Arc<Counting>,
    tills: Vec<Till>,
    /// How many ticks were made beside restarts.
    ticks: u64,
}

impl Running<'_> {
    /// Tells what comes of a row.
    fn tell<T>(&mut self, rt: &T, told: &mut Told, alloc: Global, word: &str, argument: &[u8])
    where
        T: Threads + Wait + Clock + Copy + Send + Sync + 'static,
    {
        match word {
            "fault" => self.fault(told, alloc, argument),
            "start" => self.start(rt, told, alloc, argument),
            "held-until" => self.held_until(rt, told, alloc, argument),
            "finish" => self.finish(rt, told, argument),
            _ => match &mut self.live {
                Some(live) => live.tell(rt, told, alloc, word, argument),
                None => match &self.ended {
                    Some(ended) => ended.tell(told, alloc, word, argument),
                    None => told.refuse(),
                },
            },
        }
    }

    /// Takes a fault of a link for the next start; its line stands after the word.
    fn fault(&mut self, told: &mut Told, alloc: Global, line: &[u8]) {
        match fault_of(alloc, line) {
            Some(fault) => match self.faults.push(fault) {
                Ok(()) => told.word("ok"),
                Err(_) => told.refuse(),
            },
            None => told.refuse(),
        }
    }

    /// Starts the nodes of the settings of a name.
    fn start<T>(&mut self, rt: &T, told: &mut Told, alloc: Global, name: &[u8])
    where
        T: Threads + Wait + Copy + Send + 'static,
    {
        self.live = match taken_named(alloc, self.files, name) {
            Some(settings) => started(rt, alloc, settings, &self.faults),
            None => None,
        };
        self.faults.clear();
        told.word(if self.live.is_some() { "ok" } else { "none" });
    }

    /// Runs a system whose gate holds switch 1 until another node is inside.
    fn held_until<T>(&mut self, rt: &T, told: &mut Told, alloc: Global, argument: &[u8])
    where
        T: Threads + Wait + Clock + Copy + Send + Sync + 'static,
    {
        let (name, request) = split_word(argument).unwrap_or((argument, b""));
        match taken_named(alloc, self.files, b"two-switches") {
            Some(settings) => {
                let node = read_node(name);
                self.ended = held_switch(rt, told, alloc, settings, node, request);
            }
            None => told.refuse(),
        }
    }

    /// Ends the system with the first this many of its tills, or with all.
    fn finish<T: Threads + Wait>(&mut self, rt: &T, told: &mut Told, argument: &[u8]) {
        match self.live.take() {
            Some(live) => {
                let tills = match read_count(argument) {
                    Some(tills) => tills as usize,
                    None => usize::MAX,
                };
                self.ended = finished(rt, told, live, tills);
            }
            None => told.refuse(),
        }
    }
}

/// The nodes of settings on threads.
fn started<T>(
    rt: &T,
    alloc: Global,
    settings: CheckedSettings,
    faults: &[LinkFault],
) -> Option<Live>
where
    T: Threads + Wait + Copy + Send + 'static,
{
    match Arc::new(alloc, Counting::new()) {
        Ok(gate) => match System::start(rt, alloc, settings, &gate, faults) {
            Ok((system, workers)) => Some(Live {
                system,
                workers,
                gate,
                tills: Vec::new(alloc),
                ticks: 0,
            }),
            Err(_) => None,
        },
        Err(_) => None,
    }
}

/// Ends a system with the first this many of its tills.
fn finished<T: Threads + Wait>(rt: &T, told: &mut Told, live: Live, tills: usize) -> Option<Ended> {
    let Live {
        system,
        workers,
        gate,
        tills: mut all,
        ticks,
    } = live;
    all.truncate(tills);
    let outcome = system.finish(rt, workers, &all);
    let beside = Beside {
        switches: gate.switches(),
        payers: gate.payers(),
        ticks,
    };
    tell_end(told, outcome, beside)
}

impl Live {
    /// Tells what comes of one call.
    fn tell<T>(&mut self, rt: &T, told: &mut Told, alloc: Global, word: &str, argument: &[u8])
    where
        T: Threads + Wait + Clock + Sync,
    {
        match word {
            "till" => self.till(told, argument),
            "do" => match command_of(alloc, argument) {
                Some(command) => tell_done(told, make(rt, &self.system, &command)),
                None => told.refuse(),
            },
            "restarts" => self.restarts(rt, told, argument),
            "two-callers" => self.two_callers(rt, told, alloc, argument),
            _ => self.tell_till(rt, told, word, argument),
        }
    }

    /// Tells what comes of a call with a till, whose place stands first.
    fn tell_till<T: Wait + Clock>(&mut self, rt: &T, told: &mut Told, word: &str, argument: &[u8]) {
        match count_and_rest(argument) {
            Some((place, rest)) => match self.tills.get_mut(place_of(place)) {
                Some(till) => tell_with(rt, told, &self.system, till, word, rest),
                None => told.refuse(),
            },
            None => told.refuse(),
        }
    }

    /// Opens a till.
    fn till(&mut self, told: &mut Told, argument: &[u8]) {
        match read_number(argument) {
            Some(pharmacy) => match self.system.till(pharmacy) {
                Ok(till) => match self.tills.push(till) {
                    Ok(()) => told.word("ok"),
                    Err(_) => told.refuse(),
                },
                Err(fault) => told.word(fault.name()),
            },
            None => told.refuse(),
        }
    }

    /// Restarts pharmacy 1 so often while it is ticked, and tells how many restarts were made.
    fn restarts<T: Threads + Wait + Clock + Sync>(
        &mut self,
        rt: &T,
        told: &mut Told,
        argument: &[u8],
    ) {
        match read_count(argument) {
            Some(times) => {
                let meanwhile = restarted(rt, &self.system, times);
                self.ticks = meanwhile.ticks;
                told.field("made", meanwhile.restarts);
                told.field("refused-ticks", meanwhile.refused);
            }
            None => told.refuse(),
        }
    }

    /// Two callers submit this many fills each, by tills of their own.
    fn two_callers<T: Threads + Wait + Sync>(
        &mut self,
        rt: &T,
        told: &mut Told,
        alloc: Global,
        argument: &[u8],
    ) {
        match count_and_rest(argument) {
            Some((each @ 1..=50, billing)) => {
                let tills = submit_by_two(rt, alloc, &self.system, each as u8, billing);
                for till in tills {
                    told.field("receipts", till.receipts().len());
                    if self.tills.push(till).is_err() {
                        told.refuse();
                    }
                }
            }
            _ => told.refuse(),
        }
    }
}

/// Makes a command that needs no till.
fn make<T: Wait>(rt: &T, system: &System, command: &Command) -> Result<(), Fault> {
    match command {
        Command::Tick { pharmacy } => system.tick(rt, *pharmacy),
        Command::Plan {
            payer,
            product,
            price,
        } => system.change_plan(rt, *payer, product.as_slice(), *price),
        Command::Restart(node) => system.restart(rt, *node),
        Command::Submit { .. } => Err(Fault::Refused(Refusal::NoSuchPacket)),
        Command::Await { .. } => Err(Fault::Refused(Refusal::NoSuchPacket)),
    }
}

/// Tells how a call ended.
fn tell_done(told: &mut Told, done: Result<(), Fault>) {
    match done {
        Ok(()) => told.word("ok"),
        Err(fault) => told.word(fault.name()),
    }
}

/// Tells what comes of a call with a till.
fn tell_with<T: Wait + Clock>(
    rt: &T,
    told: &mut Told,
    system: &System,
    till: &mut Till,
    word: &str,
    argument: &[u8],
) {
    match (word, read_count(argument)) {
        ("submit", _) => match system.submit(rt, till, argument) {
            Ok(number) => told.shown(number),
            Err(fault) => told.word(fault.name()),
        },
        ("answer", Some(number)) => tell_answer(told, settled(rt, system, till, number)),
        ("comes", Some(number)) => tell_answer(told, settled_by_itself(rt, system, till, number)),
        ("status", Some(number)) => tell_status(told, system.status(rt, till, number)),
        _ => told.refuse(),
    }
}

/// Tells an answer, where it came.
fn tell_answer(told: &mut Told, answer: Option<Octets>) {
    match answer {
        Some(answer) => told.bytes(answer.as_slice()),
        None => told.word("none"),
    }
}

/// Tells what is known of a request.
fn tell_status(told: &mut Told, status: Result<Status, StatusFault>) {
    match status {
        Ok(Status::Settled(answer)) => told.bytes(answer.as_slice()),
        Ok(Status::Open) => told.word("open"),
        Err(fault) => told.named(fault),
    }
}
