//! How old the entries of a pharmacy are, in ticks of its own.

ghost use Rattle.std.specs.Prelude.{◌≡◌, ◌++◌, ◌-◌, length, IfOk, OnOk};
ghost use Rattle.world_setup.specs.Seen.{call_seen};
ghost use Rattle.log_audit.specs.Alone.{ticked, ticks_then, submitted, ticks_after, submitted_at};

use node_log::Record;
use std::alloc::{AllocError, Global};
use world_setup::Call;

/// How many ticks there were at each submission, and in all.
#[derive(Drop)]
pub(crate) struct Ages {
    at: Vec<u64>,
    ticks: u64,
}

impl Ages {
    /// Those of the calls of a log.
    pub(crate) fn of(alloc: Global, records: &[Record]) -> Result<Ages, AllocError>
        ensures at { IfOk result (λ ages. ages.at.items ≡ submitted_at 0 records.now) }
        ensures ticks { IfOk result (λ ages. ages.ticks ≡ ticks_after 0 records.now) }
    {
        let mut ages = Ages {
            at: Vec::new(alloc),
            ticks: 0,
        };
        for one in records {
            ages.take(one.call())?;
        }
        Ok(ages)
    }

    /// One call more.
    fn take(&mut self, call: &Call) -> Result<(), AllocError>
        ensures at { OnOk result (self.new.at.items
            ≡ self.old.at.items ++ submitted self.old.ticks (call_seen call.now)) }
        ensures ticks { OnOk result (self.new.ticks ≡ ticked self.old.ticks (call_seen call.now)) }
    {
        match call {
            Call::Submit(_) => {
                self.at.push(self.ticks)?;
                Ok(())
            }
            Call::Tick => {
                self.ticks = self.ticks.saturating_add(1);
                Ok(())
            }
            Call::Take { .. } => Ok(()),
            Call::Stop => Ok(()),
            Call::Start => Ok(()),
            Call::Plan { .. } => Ok(()),
            Call::Terms { .. } => Ok(()),
            Call::Retry { .. } => Ok(()),
            Call::Cap { .. } => Ok(()),
            Call::Adjudicate { .. } => Ok(()),
        }
    }

    /// How many of this many entries of the pharmacy were submitted before these calls.
    pub(crate) fn entries_before(&self, entries: usize) -> u64
        ensures { result ≡ entries - length self.now.at.items }
    {
        entries.saturating_sub(self.at.len()) as u64
    }

    /// How many ticks came after the submission of the entry of a number, from 1, where this many were submitted before these
    /// calls; all of them for one of those.
    pub(crate) fn age(&self, before: u64, number: u64) -> u64
        ensures { result ≡ self.now.ticks - ticks_then self.now.at.items before number }
    {
        if number <= before {
            return self.ticks;
        }
        let place = (number - before - 1) as usize;
        match self.at.get(place) {
            Some(then) => self.ticks.saturating_sub(*then),
            None => self.ticks,
        }
    }
}
