//! The rows of changes of rules of retries.

ghost use Rattle.std.specs.Prelude.{◌≡◌, ◌++◌, ◌∷◌, [], map, IfOk, OnOk};
ghost use Rattle.std.specs.List.{flat_map};
ghost use Rattle.std.specs.Option.{option_map, option_or};
ghost use Rattle.table_text.specs.Adding.{Adds, AddsRows};
ghost use Rattle.table_text.specs.Rows.{head_text};
ghost use Rattle.table_text.specs.declared.layout.Style.TheVariants.{Csv};
ghost use Rattle.log_audit.specs.Changes.{change_seen, rule_seen, switches_seen, to_seen};
ghost use Rattle.log_audit.specs.Following.{had_after, had_then};
ghost use Rattle.log_audit.specs.Rules.{opening_rule_of, rule_names, rule_of, rule_row, rule_rows, switch_name, switches_in, switches_text};

use crate::revisions::changes::{Change, To};
use pharmacy_journal::switch_numbers;
use schedule::put_node;
use std::alloc::{AllocError, Global};
use table_text::{Field, Style, put_head, put_row};
use world_setup::{Node, WorldSettings};

/// A rule of retries.
#[derive(Clone, Copy)]
pub(crate) struct Rule<'a> {
    pub(crate) switches: Switches<'a>,
    pub(crate) again: u64,
    pub(crate) tries: u64,
}

/// The switches that a pharmacy tries in turn.
#[derive(Clone, Copy)]
pub(crate) enum Switches<'a> {
    /// By their numbers, as settings have them.
    Numbers(&'a [u16]),
    /// By two bytes each, as calls have them.
    Spelled(&'a [u8]),
}

/// Appends the names of the columns, of which that of the place is this one.
pub(crate) fn put_rule_names(out: &mut Vec<u8>, name: &[u8]) -> Result<(), AllocError>
    ensures { OnOk result (Adds out.old out.new (head_text (rule_names name.now))) }
{
    put_head(
        out,
        &[
            b"pharmacy",
            name,
            b"switches_before",
            b"again_before",
            b"tries_before",
            b"switches_after",
            b"again_after",
            b"tries_after",
        ],
    )
}

/// Appends the row of a change after these, if it is one of a rule.
#[tactic(auto, using(crate::proofs::Changing::unseen_told))]
pub(crate) fn put_rule_change(
    out: &mut Vec<u8>,
    settings: &WorldSettings,
    name: &'static [u8],
    before: &[Change<'_>],
    change: &Change<'_>,
) -> Result<(), AllocError>
    ensures { OnOk result (AddsRows Csv out.old out.new
        (rule_rows settings.now name.now (map change_seen before.now) (change_seen change.now))) }
{
    match rule_of(change.to) {
        Some(after) => {
            let opening = opening_rule_of(settings, change.number);
            let before = rule_after(change.number, opening, before);
            put_rule(out, name, change, before, after)
        }
        None => Ok(()),
    }
}

/// Appends the row of a change of this rule, where it is known, to that.
#[tactic(auto, unfolding(crate::specs::Rules::rule_row))]
fn put_rule(
    out: &mut Vec<u8>,
    name: &'static [u8],
    change: &Change<'_>,
    before: Option<Rule<'_>>,
    after: Rule<'_>,
) -> Result<(), AllocError>
    ensures { OnOk result (AddsRows Csv out.old out.new
        (rule_row name.now change.now.number change.now.place (option_map rule_seen before.entry) (rule_seen after.entry) ∷ [])) }
{
    let alloc = *out.allocator();
    let from = switches_before(alloc, before)?;
    let to = switches_text(alloc, after.switches)?;
    let fields = [
        Field::number(b"pharmacy", change.number),
        Field::number(name, change.place),
        Field::text(b"switches_before", from.as_slice()),
        Field::number_or_nothing(b"again_before", again_in(before)),
        Field::number_or_nothing(b"tries_before", tries_in(before)),
        Field::text(b"switches_after", to.as_slice()),
        Field::number(b"again_after", after.again),
        Field::number(b"tries_after", after.tries),
    ];
    put_row(out, Style::Csv, &fields)
}

/// The names of the switches of a rule, where it is known.
fn switches_before(alloc: Global, rule: Option<Rule<'_>>) -> Result<Vec<u8>, AllocError>
    ensures { IfOk result (λ text. text.items ≡ switches_in (option_map rule_seen rule.entry)) }
{
    match rule {
        Some(rule) => switches_text(alloc, rule.switches),
        None => Ok(Vec::new(alloc)),
    }
}

/// After how many ticks, where a rule is known.
fn again_in(rule: Option<Rule<'_>>) -> Option<u64>
    ensures { result ≡ option_map (λ r. r.again) (option_map rule_seen rule.entry) }
{
    match rule {
        Some(rule) => Some(rule.again),
        None => None,
    }
}

/// How often to one switch, where a rule is known.
fn tries_in(rule: Option<Rule<'_>>) -> Option<u64>
    ensures { result ≡ option_map (λ r. r.tries) (option_map rule_seen rule.entry) }
{
    match rule {
        Some(rule) => Some(rule.tries),
        None => None,
    }
}

/// The names of switches, with a space between them.
fn switches_text(alloc: Global, switches: Switches<'_>) -> Result<Vec<u8>, AllocError>
    ensures { IfOk result (λ text. text.items ≡ switches_text (switches_seen switches.entry)) }
{
    match switches {
        Switches::Numbers(numbers) => names_of(alloc, numbers),
        Switches::Spelled(bytes) => {
            let numbers = switch_numbers(alloc, bytes)?;
            names_of(alloc, numbers.as_slice())
        }
    }
}

/// The same of switches by their numbers.
fn names_of(alloc: Global, nodes: &[u16]) -> Result<Vec<u8>, AllocError>
    ensures { IfOk result (λ text. text.items ≡ switches_text nodes.now) }
{
    let mut text = Vec::new(alloc);
    if let Some((first, more)) = nodes.split_first() {
        put_node(&mut text, Node::Switch(*first))?;
        put_more(&mut text, more)?;
    }
    Ok(text)
}

/// Appends the names of switches, each behind a space.
fn put_more(text: &mut Vec<u8>, nodes: &[u16]) -> Result<(), AllocError>
    ensures { OnOk result (text.new.items ≡ text.old.items ++ flat_map (λ node. 32 ∷ switch_name node) nodes.now) }
{
    for node in nodes {
        text.push(b' ')?;
        put_node(text, Node::Switch(*node))?;
    }
    Ok(())
}

/// The rule of retries of the settings of a pharmacy, where there is such a pharmacy.
fn opening_rule_of(settings: &WorldSettings, pharmacy: u64) -> Option<Rule<'_>>
    ensures { option_map rule_seen result ≡ opening_rule_of settings.now pharmacy }
{
    match settings
        .pharmacies
        .get((pharmacy as usize).saturating_sub(1))
    {
        Some(pharmacy) => Some(Rule {
            switches: Switches::Numbers(pharmacy.rule().nodes()),
            again: u64::from(pharmacy.rule().again()),
            tries: u64::from(pharmacy.rule().tries()),
        }),
        None => None,
    }
}

/// The rule of a pharmacy that had this before, after some changes.
fn rule_after<'a>(pharmacy: u64, rule: Option<Rule<'a>>, changes: &[Change<'a>]) -> Option<Rule<'a>>
    ensures { option_map rule_seen result
        ≡ had_after rule_of pharmacy (option_map rule_seen rule.entry) (map change_seen changes.now) }
{
    let mut then = rule;
    for change in changes {
        then = rule_then(pharmacy, then, change);
    }
    then
}

/// The same after one change.
fn rule_then<'a>(pharmacy: u64, rule: Option<Rule<'a>>, change: &Change<'a>) -> Option<Rule<'a>>
    ensures { option_map rule_seen result
        ≡ had_then rule_of pharmacy (option_map rule_seen rule.entry) (change_seen change.now) }
{
    if change.number == pharmacy {
        rule_set(rule, change.to)
    } else {
        rule
    }
}

/// The rule after a change of its pharmacy.
fn rule_set<'a>(rule: Option<Rule<'a>>, to: To<'a>) -> Option<Rule<'a>>
    ensures { option_map rule_seen result ≡ option_or (rule_of (to_seen to.entry)) (option_map rule_seen rule.entry) }
{
    match rule_of(to) {
        Some(after) => Some(after),
        None => rule,
    }
}

/// The rule of a change, if it is one of a rule.
fn rule_of(to: To<'_>) -> Option<Rule<'_>>
    ensures { option_map rule_seen result ≡ rule_of (to_seen to.entry) }
{
    match to {
        To::Price { .. } => None,
        To::Terms(_) => None,
        To::Rule(rule) => Some(rule),
        To::Cap(_) => None,
    }
}
