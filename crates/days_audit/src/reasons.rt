//! Why logs are not those of legal days.

use crate::begun::{begin_with, rest_at};
use crate::naming::{is_party, place_of};
use crate::telling::put_said;
use node_log::{NodeLog, fits, is_there};
use std::alloc::{AllocError, Global};
use world_setup::{CheckedSettings, Node};

/// The lines of the first kind of reason that there is: nodes of which there is not one log, and logs of other nodes; nodes that do
/// not make their logs; and these, on calls that nothing vouches for.
pub(crate) fn reasons(
    alloc: Global,
    settings: &CheckedSettings,
    rests: &[Option<Vec<u8>>],
    logs: &[NodeLog],
    waits: Vec<u8>,
) -> Result<Vec<u8>, AllocError> {
    let lines = lacking(alloc, settings, logs)?;
    if !lines.is_empty() {
        return Ok(lines);
    }
    let lines = unmade(alloc, settings, rests, logs)?;
    if !lines.is_empty() {
        return Ok(lines);
    }
    Ok(waits)
}

/// The lines on nodes without a log, or with two, in the order of the settings; and on logs of nodes of which nothing is asked, or
/// which are not there.
fn lacking(
    alloc: Global,
    settings: &CheckedSettings,
    logs: &[NodeLog],
) -> Result<Vec<u8>, AllocError> {
    let given = settings.settings();
    let mut out = Vec::new(alloc);
    for passed in 0..given.pharmacies.len() as u16 {
        put_lack(&mut out, Node::Pharmacy(passed + 1), logs)?;
    }
    for passed in 0..given.payers.len() as u16 {
        put_lack(&mut out, Node::Payer(passed + 1), logs)?;
    }
    for log in logs {
        put_stranger(&mut out, settings, log.node())?;
    }
    Ok(out)
}

/// The line on a node that has no log, or more than one.
fn put_lack(out: &mut Vec<u8>, node: Node, logs: &[NodeLog]) -> Result<(), AllocError> {
    match place_of(node, logs) {
        None => put_said(out, node, b" has no log"),
        Some(place) => match logs.get(place.saturating_add(1)..) {
            Some(others) if place_of(node, others).is_some() => put_said(
                out,
                node,
                b" has more than one log",
            ),
            _ => Ok(()),
        },
    }
}

/// The line on a node that is no pharmacy and no payer of the settings.
fn put_stranger(
    out: &mut Vec<u8>,
    settings: &CheckedSettings,
    node: Node,
) -> Result<(), AllocError> {
    if is_party(settings.settings(), node) {
        return Ok(());
    }
    match node {
        Node::Switch(_) => put_said(out, node, b" is a switch, and nothing is asked of switches"),
        _ => put_said(out, node, b" is no node of these settings"),
    }
}

/// The lines on nodes that cannot begin with what their closed logs left, or do not make their calls.
fn unmade(
    alloc: Global,
    settings: &CheckedSettings,
    rests: &[Option<Vec<u8>>],
    logs: &[NodeLog],
) -> Result<Vec<u8>, AllocError> {
    let mut out = Vec::new(alloc);
    for (place, log) in logs.iter().enumerate() {
        if !is_made(alloc, settings, rest_at(rests, place), log)? {
            put_said(&mut out, log.node(), b" does not make its log")?;
        }
    }
    Ok(out)
}

/// Whether the node of a log begins with this, and makes the log.
fn is_made(
    alloc: Global,
    settings: &CheckedSettings,
    rest: Option<&[u8]>,
    log: &NodeLog,
) -> Result<bool, AllocError> {
    if !is_there(settings.settings(), log.node()) {
        return Ok(false);
    }
    match begin_with(alloc, settings, log.node(), rest)? {
        Some(node) => {
            let mut begun = node;
            fits(alloc, settings.routes(), &mut begun, log.records())
        }
        None => Ok(false),
    }
}
