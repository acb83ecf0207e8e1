//! A node behind a lock of its own.

ghost use Rattle.std.specs.Prelude.{IsSome};
ghost use Rattle.std.specs.Arc.{arc_value};
ghost use Rattle.world_setup.specs.Seen.{node_seen};
ghost use Rattle.node_logged.specs.Setting.{opened};

use node_logged::Held;
use std::alloc::{AllocError, Global};
use std::sync::{Arc, Mutex, MutexGuard, Wait};
use world_setup::{Call, CheckedSettings, Fault, Node};

/// A node and its log behind a lock of their own (own). Whenever the lock is free, the node is the replay of the log
/// beside it.
#[derive(Drop)]
pub struct Post {
    held: Mutex<Held>,
}

impl Post {
    /// The node of this name as it opens, with an empty log, behind its lock. The node is one of the settings.
    pub fn new(alloc: Global, shared: &Arc<CheckedSettings>, node: Node) -> Result<Post, AllocError>
        requires { IsSome (opened (arc_value shared.now) (node_seen node)) }
    {
        let held = Held::new(alloc, shared, node)?;
        Ok(Post {
            held: Mutex::new(held),
        })
    }

    /// Makes a call on the node, and records it with what the node sent.
    ///
    /// # Errors
    /// Those of `Held::call`.
    pub fn call<R: Wait>(&self, rt: &R, alloc: Global, call: Call) -> Result<(), Fault> {
        self.held.lock(rt).call(alloc, call)
    }

    /// Takes the lock.
    pub(crate) fn lock<R: Wait>(&self, rt: &R) -> MutexGuard<'_, Held> {
        self.held.lock(rt)
    }

    /// The node and its log, where nobody else has the post any more.
    pub(crate) fn into_held(self) -> Held {
        let Post { held } = self;
        held.into_inner()
    }
}
