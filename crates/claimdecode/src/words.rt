//! The words of the command line.

use clap::Error;
use command_line::{Program, Takes, Word};
use message_lines::{Manner, kind_worded, spelling_asked, style_asked};
use message_words::Style;
use std::alloc::Global;

/// What the program is asked to do.
#[derive(Clone, Copy)]
pub(crate) struct Asked {
    /// How lines spell messages, and what these are.
    pub(crate) manner: Manner,
    /// How messages are described.
    pub(crate) style: Style,
    /// Whether messages are made of their descriptions.
    pub(crate) encode: bool,
}

const ABOUT: &str =
    "Describes pharmacy claims of NCPDP D.0: what is in a message, and why it is rejected.";

const AFTER: &str =
    "Messages come on standard input, one a line, in printed bytes: \\F, \\G and \\S are the \
separators of fields, groups and segments, \\\\ a backslash, \\xHH any byte. Empty lines and those that begin \
with # are skipped. Each message is described before the next one is read. With --encode lines are descriptions in \
JSON, and a line that describes no message is answered by one that begins with # and says why.

Exit status:
  0  every message was described, a rejected or a faulty one too
  1  a line spells no bytes, or describes no message (the others are described, or made), or reading or writing failed
  2  the words are wrong";

/// The program's words.
static PROGRAM: Program = Program {
    name: "claimdecode",
    about: ABOUT,
    after: AFTER,
    words: &[
        Word {
            name: "kind",
            takes: Takes::MaybeOneOf("KIND", &["request", "answer", "packet", "record"]),
            help: "What each message is; told by its first bytes where it is left out",
        },
        Word {
            name: "json",
            takes: Takes::Flag,
            help: "Writes an object of JSON for each message, on one line",
        },
        Word {
            name: "hex",
            takes: Takes::Flag,
            help: "Reads a message a line as hexadecimal digits",
        },
        Word {
            name: "raw",
            takes: Takes::Flag,
            help: "Reads the whole input as one message, without 0x02 before it and 0x03 behind it",
        },
        Word {
            name: "encode",
            takes: Takes::Flag,
            help: "Makes messages of what --json has written: one a line, with --hex in hexadecimal digits, \
with --raw one as its bytes",
        },
    ],
    never_with: &[("raw", "hex"), ("encode", "json"), ("encode", "kind")],
    only_with: &[],
};

/// What the words of a command line ask for.
pub(crate) fn asked_in(alloc: Global, words: &[String]) -> Result<Asked, Error> {
    let matches = PROGRAM.matches(alloc, words)?;
    Ok(Asked {
        manner: Manner {
            kind: kind_worded(matches.get_str("kind")),
            spelling: spelling_asked(matches.get_flag("raw"), matches.get_flag("hex")),
        },
        style: style_asked(matches.get_flag("json")),
        encode: matches.get_flag("encode"),
    })
}
