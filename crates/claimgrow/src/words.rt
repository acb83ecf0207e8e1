//! The words of the command line.

use crate::Ungone;
use crate::finding::Finding;
use command_line::{End, Program, Takes, Word};
use std::alloc::Global;

/// What the help says of a word.
const REJECT: &str =
    "writes the rows of NEW by which requests that switches rejected, and that have a route now, stay rejected; and no log";

/// The program, and its words.
const PROGRAM: Program = Program {
    name: "claimgrow",
    about: "Takes the logs of nodes over to settings that theirs have grown to: more nodes and routes, larger caps.",
    after: "",
    words: &[
        Word {
            name: "check",
            takes: Takes::Flag,
            help: "tells of each log whether it goes over, and writes none",
        },
        Word {
            name: "reject",
            takes: Takes::Flag,
            help: REJECT,
        },
        Word {
            name: "OLD",
            takes: Takes::Place,
            help: "the settings of the logs, a TOML file",
        },
        Word {
            name: "NEW",
            takes: Takes::Place,
            help: "the settings that they have grown to",
        },
        Word {
            name: "LOG",
            takes: Takes::Places,
            help: "the log of a node that is stopped",
        },
    ],
    never_with: &[("reject", "check")],
    only_with: &[],
};

/// What the command line names.
#[derive(Drop)]
pub(crate) struct Words<'a> {
    /// Whether nothing is written.
    pub(crate) check: bool,
    /// Whether the rows are written by which what was rejected stays so, and no log.
    pub(crate) reject: bool,
    /// The file of the settings that the logs are of.
    pub(crate) old: &'a str,
    /// The file of the settings that they are to be of.
    pub(crate) new: &'a str,
    /// The files of the logs.
    pub(crate) logs: Vec<&'a str>,
}

/// What the command line names; its first word is the program's own name.
pub(crate) fn words_of<'a>(alloc: Global, given: &'a [String]) -> Result<Words<'a>, Ungone> {
    let found = PROGRAM.matches(alloc, given)?;
    match (
        found.get_str("OLD"),
        found.get_str("NEW"),
        found.get_strs("LOG"),
    ) {
        (Some(old), Some(new), Some(logs)) => Ok(Words {
            check: found.get_flag("check"),
            reject: found.get_flag("reject"),
            old,
            new,
            logs: Vec::from_slice(alloc, logs)?,
        }),
        _ => Err(End::Own(Finding::Usage)),
    }
}
