//! Two callers of one pharmacy, each on a thread of its own.

use crate::threads::requests::fill;
use node_threads::{System, Till};
use std::alloc::Global;
use std::sync::Wait;
use std::thread;
use std::thread::Threads;

/// The tills of two callers that submit this many fills each of one prescription at pharmacy 1. A till is not there where a
/// submission was refused.
pub(crate) fn submit_by_two<T: Threads + Wait + Sync>(
    rt: &T,
    alloc: Global,
    system: &System,
    each: u8,
    billing: &[u8],
) -> Vec<Till> {
    let (one, other) = thread::join(
        rt,
        || submit_all(rt, alloc, system, 0, each, billing),
        || submit_all(rt, alloc, system, each, each, billing),
    );
    let mut tills = Vec::new(alloc);
    push_till(&mut tills, one);
    push_till(&mut tills, other);
    tills
}

/// Appends a till, where it is there and there is memory for it.
pub(crate) fn push_till(tills: &mut Vec<Till>, till: Option<Till>) {
    if let Some(till) = till {
        let _missing = tills.push(till);
    }
}

/// Submits this many fills from one on by a till of its own.
fn submit_all<T: Wait>(
    rt: &T,
    alloc: Global,
    system: &System,
    first: u8,
    count: u8,
    billing: &[u8],
) -> Option<Till> {
    match system.till(1) {
        Ok(mut till) => {
            for number in first..first.saturating_add(count) {
                if !is_submitted(rt, system, &mut till, fill(alloc, billing, number)) {
                    return None;
                }
            }
            Some(till)
        }
        Err(_) => None,
    }
}

/// Whether a request is there, and taken.
fn is_submitted<T: Wait>(
    rt: &T,
    system: &System,
    till: &mut Till,
    request: Option<Vec<u8>>,
) -> bool {
    match request {
        Some(request) => system.submit(rt, till, &request).is_ok(),
        None => false,
    }
}
