//! The words of the command line.

use crate::Undumped;
use crate::finding::Finding;
use command_line::{End, Program, Takes, Word};
use std::alloc::Global;

/// The program, and its words.
const PROGRAM: Program = Program {
    name: "claimdump",
    about: "Runs the replay on standard input and writes what its nodes would have on disk.",
    after: "",
    words: &[Word {
        name: "DIR",
        takes: Takes::Place,
        help: "the folder of the files, which is there",
    }],
    never_with: &[],
    only_with: &[],
};

/// The folder that the command line names; its first word is the program's own name.
pub(crate) fn folder_of<'a>(alloc: Global, given: &'a [String]) -> Result<&'a str, Undumped> {
    match PROGRAM.matches(alloc, given)?.get_str("DIR") {
        Some(folder) => Ok(folder),
        None => Err(End::Own(Finding::Usage)),
    }
}
