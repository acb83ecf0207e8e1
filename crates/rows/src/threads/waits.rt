//! Waiting by turns, each of which lets other threads go on.

use node_threads::{Status, System, Till};
use octets::Octets;
use std::sync::Wait;
use std::thread;
use std::time::{Clock, Duration};

/// How many turns a test waits at most, each a yield.
pub(crate) const TURNS: u32 = 1_000_000;

/// After how many turns a test pauses as well: where a processor is idle a yield comes back at once, and a million of them are
/// over before a busy machine has woken the workers.
const TURNS_A_PAUSE: u32 = 1_000;

/// For how many millionths of a second it pauses at least, so all turns together take ten seconds.
const PAUSE: u64 = 10_000;

/// Lets other threads go on.
pub(crate) fn give_way<R: Clock>(rt: &R, turn: u32) {
    thread::yield_now();
    if pauses(turn) {
        thread::sleep(rt, Duration::from_micros(PAUSE));
    }
}

/// Whether a turn is one with a pause.
fn pauses(turn: u32) -> bool {
    turn % TURNS_A_PAUSE == TURNS_A_PAUSE - 1
}

/// The answer for a number of a till, waited for by turns, with a tick at each pause, as one who never gives up would; none where it
/// does not come.
pub(crate) fn settled<R: Wait + Clock>(
    rt: &R,
    system: &System,
    till: &mut Till,
    number: u64,
) -> Option<Octets> {
    for turn in 0..TURNS {
        if let Some(answer) = told(rt, system, till, number) {
            return Some(answer);
        }
        if pauses(turn) {
            let _ticked = system.tick(rt, till.pharmacy());
        }
        give_way(rt, turn);
    }
    None
}

/// The answer for a number of a till, waited for by turns without a tick; none where it does not come.
pub(crate) fn settled_by_itself<R: Wait + Clock>(
    rt: &R,
    system: &System,
    till: &mut Till,
    number: u64,
) -> Option<Octets> {
    for turn in 0..TURNS {
        if let Some(answer) = told(rt, system, till, number) {
            return Some(answer);
        }
        give_way(rt, turn);
    }
    None
}

/// The answer that is told for a number of a till, if one is.
pub(crate) fn told<R: Wait>(
    rt: &R,
    system: &System,
    till: &mut Till,
    number: u64,
) -> Option<Octets> {
    match system.status(rt, till, number) {
        Ok(Status::Settled(answer)) => Some(answer),
        _ => None,
    }
}
