//! The changes of payers' plans, of pharmacies' rules of retries and of switches' caps, of a run or of logs.

ghost use Rattle.std.specs.Prelude.{◌≡◌, ◌++◌, ◌∷◌, [], map, IfOk, OnOk};
ghost use Rattle.std.specs.List.{flat_map};
ghost use Rattle.claim_model.specs.Node.{OfPlan, OfRule, OfCap};
ghost use Rattle.claim_model.specs.Words.{SetPrice, SetTerms};
ghost use Rattle.pharmacy_journal.specs.Ruling.{rule_in};
ghost use Rattle.switch_node.specs.Settings.{nearest};
ghost use Rattle.world_setup.specs.Seen.{call_seen, event_seen};
ghost use Rattle.node_log.specs.LogSeen.{log_seen, logs_seen};
ghost use Rattle.log_audit.specs.Changes.{call_change, call_changes, change_seen, event_change, event_changes, log_changes, to_seen};

use crate::revisions::retries::{Rule, Switches};
use crate::revisions::terms::Terms;
use crate::tables::kinds::number_of;
use node_log::{NodeLog, Record};
use std::alloc::{AllocError, Global};
use switch_node::SwitchSettings;
use world_setup::{Call, Event};

/// A change at the node of this number, whose kind says what changes; by its place among events, or among the calls of a log.
#[derive(Clone, Copy)]
pub(crate) struct Change<'a> {
    pub(crate) number: u64,
    pub(crate) place: u64,
    pub(crate) to: To<'a>,
}

/// What a node has from here on.
#[derive(Clone, Copy)]
pub(crate) enum To<'a> {
    /// A payer: a price of a product, or that it has none.
    Price {
        product: &'a [u8],
        price: Option<u64>,
    },
    /// A payer: terms.
    Terms(Terms),
    /// A pharmacy: a rule of retries.
    Rule(Rule<'a>),
    /// A switch: a cap.
    Cap(u64),
}

/// The changes among events.
pub(crate) fn event_changes(alloc: Global, events: &[Event]) -> Result<Vec<Change<'_>>, AllocError>
    ensures { IfOk result (λ changes. map change_seen changes.items ≡ event_changes 1 (map event_seen events.now)) }
{
    let mut changes = Vec::new(alloc);
    for (passed, event) in events.iter().enumerate() {
        push_event(&mut changes, passed as u64 + 1, event)?;
    }
    Ok(changes)
}

/// Adds the change that an event is, if it is one.
fn push_event<'a>(
    changes: &mut Vec<Change<'a>>,
    place: u64,
    event: &'a Event,
) -> Result<(), AllocError>
    ensures { OnOk result (map change_seen changes.new.items
        ≡ map change_seen changes.old.items ++ event_change place (event_seen event.now)) }
{
    match event {
        Event::Plan {
            payer,
            product,
            price,
        } => {
            let to = to_price(product.as_slice(), *price);
            push_change(changes, u64::from(*payer), place, to)
        }
        Event::Terms { payer, fee, copay } => {
            let to = to_terms(*fee, *copay);
            push_change(changes, u64::from(*payer), place, to)
        }
        Event::Retry {
            pharmacy,
            nodes,
            again,
            tries,
        } => {
            let to = to_rule(nodes.as_slice(), *again, *tries);
            push_change(changes, u64::from(*pharmacy), place, to)
        }
        Event::Cap { switch, entries } => {
            let to = to_cap(*entries);
            push_change(changes, u64::from(*switch), place, to)
        }
        Event::Submit { .. } => Ok(()),
        Event::Tick { .. } => Ok(()),
        Event::Deliver { .. } => Ok(()),
        Event::Stop(_) => Ok(()),
        Event::Start(_) => Ok(()),
        Event::Adjudicate { .. } => Ok(()),
    }
}

/// The changes among the calls of these logs.
pub(crate) fn log_changes(alloc: Global, logs: &[NodeLog]) -> Result<Vec<Change<'_>>, AllocError>
    ensures { IfOk result (λ changes. map change_seen changes.items ≡ flat_map log_changes (logs_seen logs.now)) }
{
    let mut changes = Vec::new(alloc);
    for log in logs {
        push_log(&mut changes, log)?;
    }
    Ok(changes)
}

/// Adds the changes among the calls of a log.
fn push_log<'a>(changes: &mut Vec<Change<'a>>, log: &'a NodeLog) -> Result<(), AllocError>
    ensures { OnOk result (map change_seen changes.new.items
        ≡ map change_seen changes.old.items ++ log_changes (log_seen log.now)) }
{
    push_calls(changes, number_of(log.node()), log.records())
}

/// Adds the changes among the calls of the node of a number.
fn push_calls<'a>(
    changes: &mut Vec<Change<'a>>,
    number: u64,
    records: &'a [Record],
) -> Result<(), AllocError>
    ensures { OnOk result (map change_seen changes.new.items
        ≡ map change_seen changes.old.items ++ call_changes number 1 records.now) }
{
    for (passed, one) in records.iter().enumerate() {
        push_call(changes, number, passed as u64 + 1, one.call())?;
    }
    Ok(())
}

/// Adds the change that a call is, if it is one.
fn push_call<'a>(
    changes: &mut Vec<Change<'a>>,
    number: u64,
    place: u64,
    call: &'a Call,
) -> Result<(), AllocError>
    ensures { OnOk result (map change_seen changes.new.items
        ≡ map change_seen changes.old.items ++ call_change number place (call_seen call.now)) }
{
    match call {
        Call::Plan { product, price } => {
            let to = to_price(product.as_slice(), *price);
            push_change(changes, number, place, to)
        }
        Call::Terms { fee, copay } => {
            let to = to_terms(*fee, *copay);
            push_change(changes, number, place, to)
        }
        Call::Retry {
            nodes,
            again,
            tries,
        } => {
            let to = to_rule(nodes.as_slice(), *again, *tries);
            push_change(changes, number, place, to)
        }
        Call::Cap { entries } => {
            let to = to_cap(*entries);
            push_change(changes, number, place, to)
        }
        Call::Submit(_) => Ok(()),
        Call::Tick => Ok(()),
        Call::Take { .. } => Ok(()),
        Call::Stop => Ok(()),
        Call::Start => Ok(()),
        Call::Adjudicate { .. } => Ok(()),
    }
}

/// Adds a change.
fn push_change<'a>(
    changes: &mut Vec<Change<'a>>,
    number: u64,
    place: u64,
    to: To<'a>,
) -> Result<(), AllocError>
    ensures { OnOk result (map change_seen changes.new.items
        ≡ map change_seen changes.old.items ++ record { number = number; place = place; to = to_seen to.entry } ∷ []) }
{
    changes.push(Change { number, place, to })?;
    Ok(())
}

/// A product has this price from here on, or none.
fn to_price(product: &[u8], price: Option<u32>) -> To<'_>
    ensures { to_seen result ≡ OfPlan (SetPrice product.now price) }
{
    To::Price {
        product,
        price: widened(price),
    }
}

/// Fee and copay are these from here on.
fn to_terms<'a>(fee: u32, copay: u32) -> To<'a>
    ensures { to_seen result ≡ OfPlan (SetTerms fee copay) }
{
    To::Terms(Terms {
        fee: u64::from(fee),
        copay: u64::from(copay),
    })
}

/// The rule is that of these switches, whose numbers are two bytes each, and of these numbers from here on.
fn to_rule(nodes: &[u8], again: u32, tries: u32) -> To<'_>
    ensures { to_seen result ≡ OfRule (rule_in nodes.now again tries) }
{
    To::Rule(Rule {
        switches: Switches::Spelled(nodes),
        again: u64::from(again),
        tries: u64::from(tries),
    })
}

/// The cap is the one nearest to this number from here on.
fn to_cap<'a>(entries: u32) -> To<'a>
    ensures { to_seen result ≡ OfCap (nearest entries) }
{
    To::Cap(u64::from(SwitchSettings::nearest(entries).cap()))
}

/// A price, if there is one.
fn widened(price: Option<u32>) -> Option<u64>
    ensures { result ≡ price }
{
    match price {
        Some(price) => Some(u64::from(price)),
        None => None,
    }
}
