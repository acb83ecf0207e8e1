//! Gates, through which workers go into their nodes.

use crate::threads::waits::{TURNS, give_way};
use node_threads::Gate;
use std::sync::atomic::{AtomicU64, Ordering};
use std::time::Clock;
use world_setup::Node;

/// A gate that counts the calls for each kind of node.
#[derive(Drop)]
pub(crate) struct Counting {
    switches: AtomicU64,
    payers: AtomicU64,
}

impl Counting {
    /// No calls yet.
    pub(crate) fn new() -> Counting {
        Counting {
            switches: AtomicU64::new(0),
            payers: AtomicU64::new(0),
        }
    }

    /// How often a worker was inside a switch.
    pub(crate) fn switches(&self) -> u64 {
        self.switches.load(Ordering::SeqCst)
    }

    /// How often a worker was inside a payer.
    pub(crate) fn payers(&self) -> u64 {
        self.payers.load(Ordering::SeqCst)
    }
}

impl Gate for Counting {
    fn inside(&self, node: Node) {
        match node {
            Node::Pharmacy(_) => {}
            Node::Switch(_) => {
                self.switches.fetch_add(1, Ordering::SeqCst);
            }
            Node::Payer(_) => {
                self.payers.fetch_add(1, Ordering::SeqCst);
            }
        }
    }
}

/// A gate that holds switch 1 until another node is inside, which was not inside before.
#[derive(Drop)]
pub(crate) struct Holding<R> {
    rt: R,
    until: Node,
    held: AtomicU64,
    passed: AtomicU64,
    gave_up: AtomicU64,
}

impl<R: Clock> Holding<R> {
    /// A gate that holds switch 1 until this node is inside.
    pub(crate) fn until(rt: R, node: Node) -> Holding<R> {
        Holding {
            rt,
            until: node,
            held: AtomicU64::new(0),
            passed: AtomicU64::new(0),
            gave_up: AtomicU64::new(0),
        }
    }

    /// Waits by turns until switch 1 is held, and says whether it is.
    pub(crate) fn holds(&self) -> bool {
        for turn in 0..TURNS {
            if self.held.load(Ordering::SeqCst) > 0 {
                return true;
            }
            give_way(&self.rt, turn);
        }
        false
    }

    /// Whether switch 1 was let go since the other node was inside, and not since the turns were up.
    pub(crate) fn was_passed(&self) -> bool {
        self.passed.load(Ordering::SeqCst) > 0 && self.gave_up.load(Ordering::SeqCst) == 0
    }

    /// Holds a worker by turns until the other node is inside.
    fn hold(&self) {
        self.held.fetch_add(1, Ordering::SeqCst);
        for turn in 0..TURNS {
            if self.passed.load(Ordering::SeqCst) > 0 {
                return;
            }
            give_way(&self.rt, turn);
        }
        self.gave_up.fetch_add(1, Ordering::SeqCst);
    }

    /// Counts a worker inside the other node, unless that came before switch 1 was held.
    fn pass(&self) {
        if self.held.load(Ordering::SeqCst) > 0 {
            self.passed.fetch_add(1, Ordering::SeqCst);
        }
    }
}

impl<R: Clock> Gate for Holding<R> {
    fn inside(&self, node: Node) {
        if node == Node::Switch(1) {
            self.hold();
        } else if node == self.until {
            self.pass();
        }
    }
}
