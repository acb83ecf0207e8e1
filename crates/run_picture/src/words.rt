//! The words of the command line.

use crate::extent::Extent;
use crate::stop::PictureStop;
use clap::Error as ClapError;
use clap::error::ErrorKind;
use command_line::{Program, Takes, Word};
use input_text::read_decimal;
use std::alloc::Global;

/// The most digits of an event's number.
const MOST_DIGITS: usize = 18;

/// The program, and its words.
static PROGRAM: Program = Program {
    name: "claimpicture",
    about: "Draws a replay as a sequence diagram: the input of `claimswitch replay` in, one SVG file out.",
    after: "",
    words: &[Word {
        name: "EVENTS",
        takes: Takes::MaybePlace,
        help: "`all`, or a part as `100-180`; without it, of more than 2,000 events the first and the last 500",
    }],
    never_with: &[],
    only_with: &[],
};

/// What the words of the command line ask for.
#[derive(Drop)]
pub enum Wish {
    /// A picture of a run.
    Draw(Extent),
    /// This text on standard output: how the program is used, or its version.
    Tell(String),
}

/// What the command line asks for; its first word is the program's own name.
///
/// # Errors
/// `Usage` where more stands after the name than `all`, a part such as `100-180`, or a wish for help or the version;
/// `Fault(OutOfMemory)` where memory was refused.
pub fn wish_of(alloc: Global, words: &[String]) -> Result<Wish, PictureStop> {
    match PROGRAM.matches(alloc, words) {
        Ok(matches) => match matches.get_str("EVENTS") {
            Some(word) => match extent_in(word.as_bytes()) {
                Some(extent) => Ok(Wish::Draw(extent)),
                None => Err(PictureStop::Usage),
            },
            None => Ok(Wish::Draw(Extent::Ends)),
        },
        Err(error) => told_of(alloc, error),
    }
}

/// What is told in place of a picture, where that was asked for.
fn told_of(alloc: Global, error: ClapError) -> Result<Wish, PictureStop> {
    match error.kind() {
        ErrorKind::DisplayHelp | ErrorKind::DisplayVersion => {
            let text = format!(in alloc; "{error}")?;
            Ok(Wish::Tell(text))
        }
        _ => Err(PictureStop::from(error)),
    }
}

/// The extent that a word spells: `all`, or two numbers of events with a hyphen between them, the first from 1 on and not
/// above the last.
fn extent_in(word: &[u8]) -> Option<Extent> {
    if word == b"all".as_slice() {
        return Some(Extent::All);
    }
    let hyphen = word.iter().position(|byte| *byte == b'-')?;
    let first = read_decimal(&word[..hyphen], MOST_DIGITS)?;
    let last = read_decimal(&word[hyphen + 1..], MOST_DIGITS)?;
    if 1 <= first && first <= last {
        Some(Extent::Part { first, last })
    } else {
        None
    }
}
