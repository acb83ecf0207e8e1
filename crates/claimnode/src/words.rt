//! The words of the command line.

ghost use Rattle.std.specs.Prelude.{◌≡◌, true, IfOk, IfSome};
ghost use Rattle.clap.specs.Words.{found_of};
ghost use Rattle.claimnode.specs.Words.{IsNamed, IsTask, has_its_log};

use crate::finding::Finding;
use clap::ArgMatches;
use clap::error::ErrorKind;
use command_line::{End, Program, Takes, Word};
use schedule::node_in;
use std::alloc::Global;
use world_setup::Node;

/// The program, and its words.
const PROGRAM: Program = Program {
    name: "claimnode",
    about: "Serves one node from its log: lines on standard input ask it, and each call is on disk before what it sent \
is said.",
    after: "",
    words: &[
        Word {
            name: "SETTINGS",
            takes: Takes::Place,
            help: "the settings of a replay, a TOML file",
        },
        Word {
            name: "NODE",
            takes: Takes::Place,
            help: "ph1, sw1, pr1 ..",
        },
        Word {
            name: "LOG",
            takes: Takes::MaybePlace,
            help: "the node's log, which is made where it is not there; a switch keeps nothing without it",
        },
        Word {
            name: "at-least",
            takes: Takes::Number("CALLS"),
            help: "refuse a log of fewer calls, such as an older copy",
        },
        Word {
            name: "repair",
            takes: Takes::Flag,
            help: "serve nothing: tell what stands behind the damage of a log",
        },
        Word {
            name: "cut-at",
            takes: Takes::Number("PLACE"),
            help: "with --repair: cut the log off at this place, that of its damage, and keep what stands behind it beside the log",
        },
        Word {
            name: "turn",
            takes: Takes::Flag,
            help: "serve nothing: close the log, keep it as LOG.CALLS, and begin a new one with what the node has",
        },
        Word {
            name: "at-size",
            takes: Takes::Number("BYTES"),
            help: "with --turn: close the log only where its file has so many bytes",
        },
        Word {
            name: "join",
            takes: Takes::Text("OUT"),
            help: "serve nothing: write all calls, those of the closed logs LOG.CALLS too, to a new file as one log",
        },
    ],
    never_with: &[
        ("repair", "at-least"),
        ("turn", "at-least"),
        ("turn", "repair"),
        ("join", "at-least"),
        ("join", "repair"),
        ("join", "turn"),
    ],
    only_with: &[("cut-at", "repair"), ("at-size", "turn")],
};

/// What the command line names.
#[derive(Drop)]
pub(crate) struct Words<'a> {
    /// The file of the settings.
    pub(crate) settings: &'a str,
    /// The node.
    pub(crate) node: Node,
    /// The file of the node's log; none of a switch that keeps nothing.
    pub(crate) log: Option<&'a str>,
    /// How many calls the logs are known to have, the closed ones too.
    pub(crate) least: u64,
    /// Whether the log is not served: what stands after its damage is told.
    pub(crate) repair: bool,
    /// Where the log is cut: the place of its damage, typed back.
    pub(crate) cut_at: Option<u64>,
    /// Whether the log is not served, but closed, so that the node goes on in a new one.
    pub(crate) turn: bool,
    /// How many bytes its file has at least where it is closed.
    pub(crate) at_size: u64,
    /// The file of all logs joined: the log is not served, but written there after those that were closed before it.
    pub(crate) join: Option<&'a str>,
}

/// What is done with a node.
#[derive(Clone, Copy)]
pub(crate) enum Task<'a> {
    /// It is served, and keeps nothing.
    ServeDiskless,
    /// It is served from this log.
    Serve(&'a str),
    /// It is told how damaged this log is, which is cut where that was asked for.
    Repair(&'a str),
    /// This log is closed, so that the node goes on in a new one.
    Turn(&'a str),
    /// All calls of this log, and of the closed ones before it, are written to this file.
    Join(&'a str, &'a str),
}

/// What the command line names; its first word is the program's own name.
///
/// # Errors
/// The words are wrong, or ask for help or for the version; or no log is named where one is wanted.
pub(crate) fn words_of<'a>(alloc: Global, given: &'a [String]) -> Result<Words<'a>, End<Finding>>
    ensures { IfOk result (λ words. has_its_log words ≡ true) }
{
    let matches = PROGRAM.matches(alloc, given)?;
    let Some(words) = words_in(&matches) else {
        return Err(End::Words(PROGRAM.wrong(
            alloc,
            ErrorKind::ValueValidation,
            "NODE is ph, sw or pr and a number, as ph1",
        )?));
    };
    if words.has_its_log() {
        return Ok(words);
    }
    Err(End::Words(PROGRAM.wrong(
        alloc,
        ErrorKind::MissingRequiredArgument,
        "LOG may be left out for a switch alone, and then no option is about it",
    )?))
}

impl<'a> Words<'a> {
    /// Whether a log is named, or none is wanted: a switch may keep nothing, and then it has none that is counted, mended, closed
    /// or joined.
    fn has_its_log(&self) -> bool
        ensures { result ≡ has_its_log self.now }
    {
        if self.log.is_some() {
            return true;
        }
        let is_switch = match self.node {
            Node::Switch(_) => true,
            Node::Pharmacy(_) | Node::Payer(_) => false,
        };
        is_switch && self.least == 0 && !self.repair && !self.turn && self.join.is_none()
    }

    /// What is done with the node.
    pub(crate) fn task(&self) -> Task<'a>
        ensures { IsTask self.now result }
    {
        let Some(log) = self.log else {
            return Task::ServeDiskless;
        };
        if self.repair {
            return Task::Repair(log);
        }
        if self.turn {
            return Task::Turn(log);
        }
        match self.join {
            Some(out) => Task::Join(log, out),
            None => Task::Serve(log),
        }
    }
}

/// What was matched; none where the node's name is none.
fn words_in<'a>(matches: &ArgMatches<'a>) -> Option<Words<'a>>
    ensures { IfSome result (λ words. IsNamed (found_of matches.now) words) }
{
    Some(Words {
        settings: matches.get_str("SETTINGS")?,
        node: node_in(matches.get_str("NODE")?.as_bytes())?,
        log: matches.get_str("LOG"),
        least: matches.get_one::<u64>("at-least").unwrap_or(0),
        repair: matches.get_flag("repair"),
        cut_at: matches.get_one::<u64>("cut-at"),
        turn: matches.get_flag("turn"),
        at_size: matches.get_one::<u64>("at-size").unwrap_or(0),
        join: matches.get_str("join"),
    })
}
