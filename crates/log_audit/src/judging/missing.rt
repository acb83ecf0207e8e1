//! Logs that are not one for each node.

ghost use Rattle.std.specs.Prelude.{◌≡◌, IfOk, OnOk};
ghost use Rattle.world_setup.specs.Seen.{node_seen, settings_seen};
ghost use Rattle.node_log.specs.LogSeen.{log_seen, logs_seen};
ghost use Rattle.log_audit.specs.Adding.{AddsLine, AddsLines};
ghost use Rattle.log_audit.specs.Sentences.{told_lines};
ghost use Rattle.log_audit.specs.Lacks.{count_of, lack_of, lack_word, lack_lines, node_line, kind_node, lacks_up_to, stranger_lines, strangers, missing_lines};

use crate::sentences::{Manner, Piece, put_pieces, put_told};
use node_log::{NodeLog, is_there};
use std::alloc::{AllocError, Global};
use world_setup::{CheckedSettings, Node};

/// The lines on each node without a log, each with two, and each log of a node that is not there.
pub(crate) fn missing_lines(
    alloc: Global,
    manner: Manner,
    settings: &CheckedSettings,
    logs: &[NodeLog],
) -> Result<Vec<u8>, AllocError>
    ensures { IfOk result (λ text. text.items
        ≡ told_lines manner (missing_lines (settings_seen settings.now) (logs_seen logs.now))) }
{
    let mut out = Vec::new(alloc);
    put_missing(&mut out, manner, settings, logs)?;
    Ok(out)
}

/// Appends these lines.
#[tactic(auto, unfolding(crate::specs::Lacks::missing_lines))]
fn put_missing(
    out: &mut Vec<u8>,
    manner: Manner,
    settings: &CheckedSettings,
    logs: &[NodeLog],
) -> Result<(), AllocError>
    ensures { OnOk result (AddsLines manner out.old out.new
        (missing_lines (settings_seen settings.now) (logs_seen logs.now))) }
{
    let given = settings.settings();
    let pharmacies = given.pharmacies.len() as u16;
    let switches = given.switches.len() as u16;
    let payers = given.payers.len() as u16;
    put_lacks(out, manner, logs, NodeKind::Pharmacy, pharmacies)?;
    put_lacks(out, manner, logs, NodeKind::Switch, switches)?;
    put_lacks(out, manner, logs, NodeKind::Payer, payers)?;
    put_strangers(out, manner, settings, logs)
}

/// A kind of node.
#[derive(Clone, Copy, PartialEq, Eq)]
pub(crate) enum NodeKind {
    /// A pharmacy.
    Pharmacy,
    /// A switch.
    Switch,
    /// A payer.
    Payer,
}

impl NodeKind {
    /// The node of this kind and a number.
    fn numbered(self, number: u16) -> Node
        ensures { node_seen result ≡ kind_node self number }
    {
        match self {
            NodeKind::Pharmacy => Node::Pharmacy(number),
            NodeKind::Switch => Node::Switch(number),
            NodeKind::Payer => Node::Payer(number),
        }
    }
}

/// Appends a line on each node of a kind, of which there are this many, that has no log or more than one.
#[tactic(auto, using(crate::proofs::AppendLoops::lacks_more))]
fn put_lacks(
    out: &mut Vec<u8>,
    manner: Manner,
    logs: &[NodeLog],
    kind: NodeKind,
    count: u16,
) -> Result<(), AllocError>
    ensures { OnOk result (AddsLines manner out.old out.new (lacks_up_to (logs_seen logs.now) kind count)) }
{
    for passed in 0..count {
        put_lack(out, manner, logs, kind.numbered(passed + 1))?;
    }
    Ok(())
}

/// Appends a line on a node that has no log, or more than one.
fn put_lack(
    out: &mut Vec<u8>,
    manner: Manner,
    logs: &[NodeLog],
    node: Node,
) -> Result<(), AllocError>
    ensures { OnOk result (AddsLines manner out.old out.new (lack_lines (logs_seen logs.now) (node_seen node))) }
{
    match lack_of(logs, node) {
        Some(lack) => put_line(out, manner, node, lack.word()),
        None => Ok(()),
    }
}

/// Appends a line on each log of a node that is not there.
fn put_strangers(
    out: &mut Vec<u8>,
    manner: Manner,
    settings: &CheckedSettings,
    logs: &[NodeLog],
) -> Result<(), AllocError>
    ensures { OnOk result (AddsLines manner out.old out.new
        (strangers (settings_seen settings.now) (logs_seen logs.now))) }
{
    for log in logs {
        put_stranger(out, manner, settings, log)?;
    }
    Ok(())
}

/// Appends a line on a log of a node that is not there.
#[tactic(auto, using(std::proofs::lemmas::Result::on_ok_weaker, crate::proofs::SomeReason::told_unless))]
fn put_stranger(
    out: &mut Vec<u8>,
    manner: Manner,
    settings: &CheckedSettings,
    log: &NodeLog,
) -> Result<(), AllocError>
    ensures { OnOk result (AddsLines manner out.old out.new
        (stranger_lines (settings_seen settings.now) (log_seen log.now))) }
{
    if is_there(settings.settings(), log.node()) {
        Ok(())
    } else {
        put_line(out, manner, log.node(), b" is no node of these settings")
    }
}

/// Appends what is said of a node.
fn put_line(out: &mut Vec<u8>, manner: Manner, node: Node, said: &[u8]) -> Result<(), AllocError>
    ensures { OnOk result (AddsLine manner out.old out.new (node_line (node_seen node) said.now)) }
{
    let mut line = Vec::new(*out.allocator());
    put_pieces(&mut line, &[Piece::Named(node), Piece::Words(said)])?;
    put_told(out, manner, line.as_slice())
}

/// What is wrong with the number of a node's logs.
#[derive(Clone, Copy, PartialEq, Eq)]
pub(crate) enum Lack {
    /// There is none.
    NoLog,
    /// There is more than one.
    SeveralLogs,
}

impl Lack {
    /// How it is said of a node.
    fn word(self) -> &'static [u8]
        ensures { result.now ≡ lack_word self }
    {
        match self {
            Lack::NoLog => b" has no log",
            Lack::SeveralLogs => b" has more than one log",
        }
    }
}

/// What is wrong with the number of a node's logs; nothing exactly where it is one.
fn lack_of(logs: &[NodeLog], node: Node) -> Option<Lack>
    ensures { result ≡ lack_of (logs_seen logs.now) (node_seen node) }
{
    match logs_of(logs, node) {
        0 => Some(Lack::NoLog),
        1 => None,
        _ => Some(Lack::SeveralLogs),
    }
}

/// How many logs are of this node.
fn logs_of(logs: &[NodeLog], node: Node) -> usize
    ensures { result ≡ count_of (logs_seen logs.now) (node_seen node) }
{
    logs.iter().filter(|log| log.is_of(node)).count()
}
