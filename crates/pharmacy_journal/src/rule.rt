//! The rule of retries that a pharmacy goes by.

ghost use Rattle.std.specs.Prelude.{◌≡◌, ◌≤◌, ◌<◌, ◌↔◌, length, IsOk, IfOk};
ghost use Rattle.pharmacy_journal.specs.Settings.{rule_made, IsGoing, AreRounds};

use crate::fault::SettingFault;
use crate::settings::in_limit;
use std::alloc::AllocError;
use std::marker::Model;

/// The most ticks of a wait, and the most tries at one switch (own).
pub(crate) const MOST_ROUNDS: u32 = 1_000;

/// The switches that a pharmacy tries in turn, after how many ticks an entry is sent again, and how often to one switch
/// before the next (own).
#[derive(Drop)]
pub struct RetryRule {
    nodes: Vec<u16>,
    again: u32,
    tries: u32,
}

impl Model for RetryRule {
    ghost use Rattle.claim_model.specs.Journal.{RetryRule as Rule};
    ghost use Rattle.pharmacy_journal.specs.Settings.{rule_made, IsGoing};

    ghost Value = { Rule };

    ghost view = { λ r. rule_made r.nodes.items r.again r.tries };

    ghost invariant = { λ r. IsGoing (rule_made r.nodes.items r.again r.tries) };
}

impl RetryRule {
    /// The rule that tries the switches of these numbers in turn: after `again` ticks without an answer, 1 to 1,000, an entry
    /// is sent again, and after `tries` sends to one switch, 1 to 1,000, to the next.
    ///
    /// # Errors
    /// `BadSetting` for other numbers.
    pub fn new(nodes: Vec<u16>, again: u32, tries: u32) -> Result<RetryRule, SettingFault>
        requires { length nodes.items ≤ 4294967295 }
        ensures taken { IsOk result ↔ AreRounds again tries }
        ensures given { IfOk result (λ r. r ≡ rule_made nodes.items again tries) }
    {
        if !in_limit(again, MOST_ROUNDS) || !in_limit(tries, MOST_ROUNDS) {
            return Err(SettingFault::BadSetting);
        }
        Ok(RetryRule {
            nodes,
            again,
            tries,
        })
    }

    /// An equal rule, in memory of its own.
    pub fn copy(&self) -> Result<RetryRule, AllocError>
        ensures { IfOk result (λ copy. copy ≡ self.now) }
    {
        let nodes = Vec::from_slice(*self.nodes.allocator(), self.nodes.as_slice())?;
        Ok(RetryRule {
            nodes,
            again: self.again,
            tries: self.tries,
        })
    }

    /// The switches, in the order in which they are tried.
    pub fn nodes(&self) -> &[u16]
        ensures value { result.now ≡ self.now.nodes }
        ensures in_limit { length result.now ≤ 4294967295 }
    {
        self.nodes.as_slice()
    }

    /// After how many ticks an entry is sent again.
    pub fn again(&self) -> u32
        ensures value { result ≡ self.now.again }
        ensures going { IsGoing self.now }
    {
        self.again
    }

    /// How often an entry is sent to one switch.
    pub fn tries(&self) -> u32
        ensures value { result ≡ self.now.tries }
        ensures going { IsGoing self.now }
    {
        self.tries
    }
}
