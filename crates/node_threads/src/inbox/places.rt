//! The places of an inbox.

ghost use Rattle.std.specs.Prelude.{◌≡◌, ◌+◌, ◌-◌, ◌↔◌, ◌≢◌, true, false, OnOk, OnErr, IsTrue, Err};
ghost use Rattle.node_threads.specs.InboxPlaces.{places};
ghost use Rattle.node_threads.specs.declared.inbox.places.EnterFault.TheVariants.{Full, Closed};

use std::marker::Model;
use thiserror::Error;

/// Why no place is given, in the order in which the causes are judged.
#[derive(Clone, Copy, Debug, PartialEq, Eq, Error)]
pub enum EnterFault {
    /// All places are taken.
    #[error("all places are taken")]
    Full,
    /// The inbox was closed.
    #[error("the inbox is closed")]
    Closed,
}

/// The places of an inbox, and whether it was closed. A packet takes its place before it is put, and gives it back
/// after it was taken (own).
#[derive(Drop)]
pub struct Places {
    cap: usize,
    taken: usize,
    closed: bool,
}

impl Model for Places {
    ghost use Rattle.std.specs.Prelude.{◌≤◌};
    ghost use Rattle.node_threads.specs.InboxPlaces as seen;

    ghost Value = { seen.Places };

    ghost view = { λ p. seen.places p.cap p.taken p.closed };

    ghost invariant = { λ p. p.taken ≤ p.cap };
}

impl Places {
    /// This many places, none of them taken, of an inbox that is open.
    pub fn new(cap: usize) -> Places
        ensures { result ≡ places cap 0 false }
    {
        Places {
            cap,
            taken: 0,
            closed: false,
        }
    }

    /// How many places there are.
    pub fn cap(&self) -> usize
        ensures { result ≡ self.now.cap }
    {
        self.cap
    }

    /// How many places are taken.
    pub fn taken(&self) -> usize
        ensures { result ≡ self.now.taken }
    {
        self.taken
    }

    /// Whether the inbox was closed.
    pub fn closed(&self) -> bool
        ensures { result ≡ self.now.closed }
    {
        self.closed
    }

    /// Takes a place.
    ///
    /// # Errors
    /// `Full` exactly where every place is taken, else `Closed` exactly where the inbox was closed. Nothing has changed then.
    pub fn enter(&mut self) -> Result<(), EnterFault>
        ensures full { (result ≡ Err Full) ↔ (self.old.taken ≡ self.old.cap) }
        ensures closed { (result ≡ Err Closed) ↔ ((self.old.taken ≢ self.old.cap) × (self.old.closed ≡ true)) }
        ensures entered { OnOk result (self.new ≡ places self.old.cap (self.old.taken + 1) false) }
        ensures refused { OnErr result (self.new ≡ self.old) }
    {
        if self.taken == self.cap {
            return Err(EnterFault::Full);
        }
        if self.closed {
            return Err(EnterFault::Closed);
        }
        self.taken += 1;
        Ok(())
    }

    /// Gives a place back. Where none is taken nothing changes.
    pub fn leave(&mut self)
        ensures { self.new ≡ places self.old.cap (self.old.taken - 1) self.old.closed }
    {
        self.taken = self.taken.saturating_sub(1);
    }

    /// Closes the inbox, and says whether it was open until then.
    pub fn close(&mut self) -> bool
        ensures first { IsTrue result ↔ (self.old.closed ≡ false) }
        ensures closed { self.new ≡ places self.old.cap self.old.taken true }
    {
        let first = !self.closed;
        self.closed = true;
        first
    }
}
