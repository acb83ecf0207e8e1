//! A node that is restarted while it is called.

use crate::threads::waits::{TURNS, give_way};
use node_threads::System;
use std::sync::Wait;
use std::sync::atomic::{AtomicBool, Ordering};
use std::thread;
use std::thread::Threads;
use std::time::Clock;
use world_setup::Node;

/// How often a pharmacy is ticked at most while it is restarted.
const TICKS: u64 = 100_000;

/// How many restarts and ticks were made at the same time, and how many ticks were refused.
#[derive(Clone, Copy)]
pub(crate) struct Meanwhile {
    pub(crate) restarts: u64,
    pub(crate) ticks: u64,
    pub(crate) refused: u64,
}

/// Whether the ticks have begun, and whether the restarts have ended.
#[derive(Drop)]
struct Turns {
    begun: AtomicBool,
    ended: AtomicBool,
}

/// Restarts pharmacy 1 so often, and ticks it until that is done.
pub(crate) fn restarted<T: Threads + Wait + Clock + Sync>(
    rt: &T,
    system: &System,
    times: u64,
) -> Meanwhile {
    let turns = Turns {
        begun: AtomicBool::new(false),
        ended: AtomicBool::new(false),
    };
    let both = &turns;
    let (restarts, (ticks, refused)) = thread::join(
        rt,
        || restart_all(rt, system, both, times),
        || tick_all(rt, system, both),
    );
    Meanwhile {
        restarts,
        ticks,
        refused,
    }
}

/// Restarts pharmacy 1 once the ticks have begun, and says how many restarts are made.
fn restart_all<T: Wait + Clock>(rt: &T, system: &System, turns: &Turns, times: u64) -> u64 {
    let mut made = 0u64;
    if has_begun(rt, turns) {
        for _ in 0..times {
            if system.restart(rt, Node::Pharmacy(1)) == Ok(()) {
                made = made.saturating_add(1);
            }
        }
    }
    turns.ended.store(true, Ordering::SeqCst);
    made
}

/// Waits by turns until the ticks have begun.
fn has_begun<T: Clock>(rt: &T, turns: &Turns) -> bool {
    for turn in 0..TURNS {
        if turns.begun.load(Ordering::SeqCst) {
            return true;
        }
        give_way(rt, turn);
    }
    false
}

/// Ticks pharmacy 1 until the restarts have ended, and says how many ticks are made, and how many are refused.
fn tick_all<T: Wait>(rt: &T, system: &System, turns: &Turns) -> (u64, u64) {
    let mut made = 0u64;
    let mut refused = 0u64;
    for _ in 0..TICKS {
        if turns.ended.load(Ordering::SeqCst) {
            break;
        }
        match system.tick(rt, 1) {
            Ok(()) => made = made.saturating_add(1),
            Err(_) => refused = refused.saturating_add(1),
        }
        turns.begun.store(true, Ordering::SeqCst);
    }
    (made, refused)
}
