//! The rule of retries that a journal's text has, where it is another than that of its settings.

ghost use Rattle.std.specs.Prelude.{◌≡◌, ◌<◌, ◌++◌, length, true, Ok, IfOk, OnOk};
ghost use Rattle.std.specs.Option.{option_map};
ghost use Rattle.claim_model.specs.Journal.{is_rounds};
ghost use Rattle.kept_records.specs.Faults.{RefusesAs};
ghost use Rattle.kept_records.specs.Rules.{rule_codec, rule_taken, same_rule, can_stand, IsKeptRule, version_by, rule_text, rule_at};

use crate::fault::RecordFault;
use codec::{put_u16s, put_u32, take_u16s, take_u32};
use pharmacy_journal::{PharmacySettings, RetryRule};
use std::alloc::{AllocError, Global};

/// The version that is written where the rule is that of the settings.
const PLAIN_VERSION: u8 = 2;

/// The version that has the rule.
pub(crate) const RULED_VERSION: u8 = 3;

/// Where the rule stands: after the 9 bytes of the head.
const RULE: usize = 9;

/// The most ticks of a wait, and the most tries at one switch (own).
const MOST_ROUNDS: u32 = 1_000;

/// The most switches (own).
const MOST_NODES: usize = 4_096;

/// A rule as it stands in bytes.
#[derive(Drop)]
struct RuleText {
    again: u32,
    tries: u32,
    nodes: Vec<u16>,
}

/// The version in which the journal of a pharmacy with these settings that goes by this rule is written.
pub(crate) fn version_by(settings: &PharmacySettings, rule: &RetryRule) -> u8
    ensures { result ≡ version_by settings.now rule.now }
{
    if is_same(rule, settings.rule()) {
        PLAIN_VERSION
    } else {
        RULED_VERSION
    }
}

/// Whether two rules are the same.
fn is_same(a: &RetryRule, b: &RetryRule) -> bool
    ensures { result ≡ same_rule a.now b.now }
{
    a.again() == b.again() && a.tries() == b.tries() && a.nodes() == b.nodes()
}

/// Puts what the text of this version has of the rule. In version 3 a rule of more than 4,096 switches, which no pharmacy
/// takes, is refused as memory would be.
pub(crate) fn put_rule_of(
    text: &mut Vec<u8>,
    version: u8,
    rule: &RetryRule,
) -> Result<(), AllocError>
    requires { 0 < length rule.now.nodes }
    ensures text { OnOk result (text.new.items ≡ text.old.items ++ rule_text version rule.now) }
    ensures kept { OnOk result (version ≡ 3 → IsKeptRule rule.now) }
{
    if version == RULED_VERSION {
        put_rule(text, rule)
    } else {
        Ok(())
    }
}

/// Puts a rule.
#[tactic(auto, unfolding(crate::specs::Rules::rule_codec))]
fn put_rule(text: &mut Vec<u8>, rule: &RetryRule) -> Result<(), AllocError>
    requires { 0 < length rule.now.nodes }
    ensures text { OnOk result (text.new.items ≡ text.old.items ++ rule_codec.text rule.now) }
    ensures kept { OnOk result (IsKeptRule rule.now) }
{
    if rule.nodes().len() > MOST_NODES {
        return Err(AllocError);
    }
    put_u32(text, rule.again())?;
    put_u32(text, rule.tries())?;
    put_u16s(text, rule.nodes())
}

/// The rule that stands after the head, another than that of these settings, and what follows it.
#[tactic(auto, unfolding(crate::specs::Rules::rule_at))]
pub(crate) fn read_rule<'a>(
    alloc: Global,
    settings: &PharmacySettings,
    bytes: &'a [u8],
) -> Result<(RetryRule, &'a [u8]), RecordFault>
    ensures ok { IfOk result (λ read. rule_at settings.now bytes.now ≡ Ok (read.0, read.1.now)) }
    ensures fault { RefusesAs (rule_at settings.now bytes.now) result }
    ensures some_node { IfOk result (λ read. 0 < length read.0.nodes) }
{
    let Some((said, rest)) = take_rule(alloc, bytes)? else {
        return Err(RecordFault::BadRecord(RULE));
    };
    if !can_stand(&said) {
        return Err(RecordFault::BadRecord(RULE));
    }
    let rule = made(said);
    if is_same(&rule, settings.rule()) {
        return Err(RecordFault::BadRecord(RULE));
    }
    Ok((rule, rest))
}

/// Whether a text may have this rule.
fn can_stand(said: &RuleText) -> bool
    ensures { result ≡ can_stand (rule_taken said.now) }
{
    is_rounds(said.again)
        && is_rounds(said.tries)
        && !said.nodes.is_empty()
        && said.nodes.len() <= MOST_NODES
}

/// Whether a number is 1 to 1,000.
fn is_rounds(number: u32) -> bool
    ensures { result ≡ is_rounds number }
{
    number > 0 && number <= MOST_ROUNDS
}

/// The rule that was said.
fn made(said: RuleText) -> RetryRule
    requires { can_stand (rule_taken said) ≡ true }
    ensures value { result ≡ rule_taken said }
    ensures some_node { 0 < length result.nodes }
{
    let RuleText {
        again,
        tries,
        nodes,
    } = said;
    match RetryRule::new(nodes, again, tries) {
        Ok(rule) => rule,
        Err(_) => unreachable!(),
    }
}

/// The rule at the front, and what follows it; none where it is cut off.
#[tactic(auto, unfolding(crate::specs::Rules::rule_codec))]
fn take_rule(alloc: Global, bytes: &[u8]) -> Result<Option<(RuleText, &[u8])>, AllocError>
    ensures { IfOk result (λ o. option_map (λ taken. (rule_taken taken.0, taken.1.now)) o ≡ rule_codec.at bytes.now) }
{
    let Some((again, rest)) = take_u32(bytes) else {
        return Ok(None);
    };
    let Some((tries, rest)) = take_u32(rest) else {
        return Ok(None);
    };
    let Some((nodes, rest)) = take_u16s(alloc, rest)? else {
        return Ok(None);
    };
    let said = RuleText {
        again,
        tries,
        nodes,
    };
    Ok(Some((said, rest)))
}
