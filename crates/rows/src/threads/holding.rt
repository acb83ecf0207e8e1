//! A system whose gate holds a switch until another node is inside.

use crate::threads::ended::{Beside, Ended, tell_end};
use crate::threads::gates::Holding;
use crate::threads::waits::settled;
use case_files::Told;
use node_threads::{System, Till, Workers};
use octets::Octets;
use std::alloc::Global;
use std::sync::{Arc, Wait};
use std::thread::Threads;
use std::time::Clock;
use world_setup::{CheckedSettings, Node};

/// A request goes to switch 1, which is held inside until another node is inside; a tick sends it to switch 2. Tells
/// whether switch 1 was let go, the answer, and how the system ended.
pub(crate) fn held_switch<T>(
    rt: &T,
    told: &mut Told,
    alloc: Global,
    settings: CheckedSettings,
    until: Node,
    request: &[u8],
) -> Option<Ended>
where
    T: Threads + Wait + Clock + Copy + Send + Sync + 'static,
{
    match Arc::new(alloc, Holding::until(*rt, until)) {
        Ok(gate) => match System::start(rt, alloc, settings, &gate, &[]) {
            Ok((system, workers)) => asked(rt, told, system, workers, &gate, request),
            Err(_) => None,
        },
        Err(_) => None,
    }
}

/// Asks a system, and ends it.
fn asked<T>(
    rt: &T,
    told: &mut Told,
    system: System,
    workers: Workers,
    gate: &Holding<T>,
    request: &[u8],
) -> Option<Ended>
where
    T: Threads + Wait + Clock + Copy,
{
    match system.till(1) {
        Ok(mut till) => {
            tell_asked(rt, told, &system, &mut till, gate, request);
            let outcome = system.finish(rt, workers, &[till]);
            let beside = Beside {
                switches: 0,
                payers: 0,
                ticks: 0,
            };
            tell_end(told, outcome, beside)
        }
        Err(_) => None,
    }
}

/// Tells the answer to a request, and whether switch 1 was let go.
fn tell_asked<T: Wait + Clock + Copy>(
    rt: &T,
    told: &mut Told,
    system: &System,
    till: &mut Till,
    gate: &Holding<T>,
    request: &[u8],
) {
    match answer_past(rt, system, till, gate, request) {
        Some(answer) => told.bytes(answer.as_slice()),
        None => told.word("no-answer"),
    }
    told.word(if gate.was_passed() {
        "let-go"
    } else {
        "not-let-go"
    });
}

/// Submits a request, and ticks once switch 1 is held: the answer, if all of this was taken.
fn answer_past<T: Wait + Clock + Copy>(
    rt: &T,
    system: &System,
    till: &mut Till,
    gate: &Holding<T>,
    request: &[u8],
) -> Option<Octets> {
    match system.submit(rt, till, request) {
        Ok(1) => {
            if gate.holds() && system.tick(rt, 1).is_ok() {
                settled(rt, system, till, 1)
            } else {
                None
            }
        }
        _ => None,
    }
}
