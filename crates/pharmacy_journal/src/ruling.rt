//! Another rule of retries.

ghost use Rattle.std.specs.Prelude.{◌≡◌, ◌∷◌, ◌&&◌, [], nat_le, length, IfOk, IfErr, OnOk, OnErr, true};
ghost use Rattle.std.specs.List.{list_all};
ghost use Rattle.claim_model.specs.Journal.{is_switch, have_switches, is_rounds, is_rule, most_nodes};
ghost use Rattle.claim_model.specs.Node.{Up, Done};
ghost use Rattle.claim_model.specs.Refusal.{refusal_of};
ghost use Rattle.claim_model.specs.Refused.{RefusedAs};
ghost use Rattle.pharmacy_journal.specs.Ruling.{rule_in, after_rule, RefusesRule};

use crate::at_rest::restarted;
use crate::pharmacy::Pharmacy;
use crate::rule::{MOST_ROUNDS, RetryRule};
use crate::settings::in_limit;
use crate::switch_list::switch_numbers;
use claim_model::{Fault, Refusal};
use std::alloc::Global;

/// The most switches that a rule names (own).
const MOST_NODES: usize = 4_096;

impl Pharmacy {
    /// Goes by another rule of retries: it tries the switches of these numbers in turn, each of two bytes, the higher first;
    /// after `again` ticks without an answer an entry is sent again, and after `tries` sends to one switch to the next. Each
    /// open entry is one round of waiting before its first send then, as after a start.
    ///
    /// # Errors
    /// `BadRule` where no switch is named, more than 4,096 are, or one that is not among the `switches` of the network,
    /// numbered from 1; and where `again` or `tries` is not 1 to 1,000. The journal is then as it was.
    pub fn change_rule(
        &mut self,
        switches: u16,
        nodes: &[u8],
        again: u32,
        tries: u32,
    ) -> Result<(), Fault>
        ensures ok { OnOk result (after_rule switches (rule_in nodes.now again tries) self.old ≡ Done (Up self.new) []) }
        ensures fault { IfErr result
            (λ e. RefusedAs (refusal_of e) (after_rule switches (rule_in nodes.now again tries) self.old)) }
        ensures err { OnErr result (self.new ≡ self.old) }
    {
        let alloc = *self.slots.allocator();
        let rule = read_rule(alloc, switches, nodes, again, tries)?;
        let timetable = restarted(alloc, &rule, &self.slots)?;
        self.rule = rule;
        self.timetable = timetable;
        Ok(())
    }
}

/// The rule of these switches and numbers, where a pharmacy takes it.
fn read_rule(
    alloc: Global,
    switches: u16,
    nodes: &[u8],
    again: u32,
    tries: u32,
) -> Result<RetryRule, Fault>
    ensures ok { IfOk result (λ r. (r ≡ rule_in nodes.now again tries) × (is_rule switches r ≡ true)) }
    ensures fault { IfErr result
        (λ e. RefusesRule (is_rule switches (rule_in nodes.now again tries)) (refusal_of e)) }
{
    let numbers = switch_numbers(alloc, nodes)?;
    if !is_rule(&numbers, again, tries, switches) {
        return Err(Fault::Refused(Refusal::BadRule));
    }
    match RetryRule::new(numbers, again, tries) {
        Ok(rule) => Ok(rule),
        Err(_) => unreachable!(),
    }
}

/// Whether a pharmacy takes a rule of these switches and numbers.
fn is_rule(nodes: &[u16], again: u32, tries: u32, switches: u16) -> bool
    ensures { result ≡ (is_rounds again
        && (is_rounds tries && (have_switches switches nodes.now && nat_le (length nodes.now) most_nodes))) }
{
    in_limit(again, MOST_ROUNDS)
        && in_limit(tries, MOST_ROUNDS)
        && have_switches(nodes, switches as usize)
        && nodes.len() <= MOST_NODES
}

/// Whether there is a switch of a list, and all of the list are among the `switches` of a network, numbered from 1.
#[tactic(auto, using(crate::proofs::AnotherRule::empty_by_length))]
pub fn have_switches(nodes: &[u16], switches: usize) -> bool
    ensures { result ≡ have_switches switches nodes.now }
{
    !nodes.is_empty() && are_switches(nodes, switches)
}

/// Whether there are switches of all these numbers.
fn are_switches(nodes: &[u16], switches: usize) -> bool
    ensures { result ≡ list_all (is_switch switches) nodes.now }
{
    nodes.iter().all(|node| is_switch(*node, switches))
}

/// Whether there is a switch of this number.
fn is_switch(node: u16, switches: usize) -> bool
    ensures { result ≡ is_switch switches node }
{
    node > 0 && node as usize <= switches
}
