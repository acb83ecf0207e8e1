//! One log by itself: whether its node makes it, and what the node has then. Nothing is judged of other nodes.

ghost use Rattle.std.specs.Prelude.{◌≡◌, IfOk};
ghost use Rattle.std.specs.Option.{option_copied};
ghost use Rattle.world_setup.specs.Seen.{node_seen};
ghost use Rattle.node_log.specs.LogSeen.{log_seen};
ghost use Rattle.log_audit.specs.Lacks.{node_line};
ghost use Rattle.log_audit.specs.Wrongs.{calls_made, wrong_line};
ghost use Rattle.log_audit.specs.WrongsSeen.{first_seen};
ghost use Rattle.log_audit.specs.Alone.{ended, is_made, lone_node};
ghost use Rattle.log_audit.specs.Lones.{is_behind, makes};
ghost use Rattle.log_audit.specs.Telling.{context_for};
ghost use Rattle.log_audit.specs.AloneSeen.{came_seen, lone_seen};

use crate::judging::wrongs::{FirstWrong, make_calls, put_wrong_line};
use crate::sentences::{Piece, put_pieces};
use kept_logs::begins;
use node_log::{NodeLog, is_there};
use node_state::NodeState;
use std::alloc::{AllocError, Global};
use world_setup::{CheckedSettings, Node};

/// What a log comes to by itself.
#[derive(Drop)]
pub(crate) enum Came {
    /// Its node makes it, and is then this one.
    Made(NodeState),
    /// Its node does not make it; the line says why.
    NotMade(Vec<u8>),
}

impl Came {
    /// Whether the node makes the log.
    fn is_made(&self) -> bool
        ensures { result ≡ is_made (came_seen self.now) }
    {
        match self {
            Came::Made(_) => true,
            Came::NotMade(_) => false,
        }
    }
}

/// A log, how many calls were made before it, how many bytes its torn end has, and what it comes to by itself.
#[derive(Drop)]
pub(crate) struct Lone<'a> {
    pub(crate) log: &'a NodeLog,
    pub(crate) before: u64,
    pub(crate) torn: u64,
    pub(crate) came: Came,
}

impl<'a> Lone<'a> {
    /// Whether the node makes the log.
    pub(crate) fn is_made(&self) -> bool
        ensures { result ≡ makes (lone_seen self.now) }
    {
        self.came.is_made()
    }

    /// Whether calls were made before the log.
    pub(crate) fn is_behind(&self) -> bool
        ensures { result ≡ is_behind (lone_seen self.now) }
    {
        self.before != 0
    }
}

/// What a log comes to by itself, which begins with this rest, where it goes on after closed ones.
#[tactic(auto, using(crate::proofs::LoneNodes::not_begun, crate::proofs::LoneNodes::not_there))]
pub(crate) fn lone_node(
    alloc: Global,
    settings: &CheckedSettings,
    rest: Option<&[u8]>,
    log: &NodeLog,
) -> Result<Came, AllocError>
    ensures { IfOk result (λ came. came_seen came
        ≡ lone_node (context_for settings.now) settings.now (option_copied rest.entry) (log_seen log.now)) }
{
    if !is_there(settings.settings(), log.node()) {
        let line = line_on(alloc, log.node(), b" is no node of these settings")?;
        return Ok(Came::NotMade(line));
    }
    let Some(before) = begins(alloc, settings, log.node(), rest)? else {
        let line = line_on(
            alloc,
            log.node(),
            b" cannot begin with what its closed logs left",
        )?;
        return Ok(Came::NotMade(line));
    };
    node_behind(alloc, settings, before.node, log)
}

/// What the calls of a log come to, from this state of its node.
fn node_behind(
    alloc: Global,
    settings: &CheckedSettings,
    before: NodeState,
    log: &NodeLog,
) -> Result<Came, AllocError>
    ensures { IfOk result (λ came. came_seen came ≡ ended (log_seen log.now)
        (calls_made (context_for settings.now) before 1 log.now.calls.items)) }
{
    let mut node = before;
    match make_calls(alloc, settings.routes(), &mut node, log.records())? {
        None => Ok(Came::Made(node)),
        Some(first) => Ok(Came::NotMade(wrong_line(alloc, log.node(), first)?)),
    }
}

/// The line that says this of a node.
fn line_on(alloc: Global, node: Node, says: &'static [u8]) -> Result<Vec<u8>, AllocError>
    ensures { IfOk result (λ line. line.items ≡ node_line (node_seen node) says.now) }
{
    let mut line = Vec::new(alloc);
    put_pieces(&mut line, &[Piece::Named(node), Piece::Words(says)])?;
    Ok(line)
}

/// The line on the first call of a node that it does not make.
fn wrong_line(alloc: Global, node: Node, first: FirstWrong) -> Result<Vec<u8>, AllocError>
    ensures { IfOk result (λ line. line.items ≡ wrong_line (node_seen node) (first_seen first)) }
{
    let mut line = Vec::new(alloc);
    put_wrong_line(&mut line, node, first)?;
    Ok(line)
}
