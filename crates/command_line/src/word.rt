//! The words that a program takes, as rows of a table.

use crate::VERSION;
use clap::error::ErrorKind;
use clap::{Arg, ArgAction, ArgMatches, Command, Error as ClapError, value_parser};
use std::alloc::{AllocError, Global};

/// A program, and the words that it takes.
#[derive(Clone, Copy)]
pub struct Program {
    /// Its name.
    pub name: &'static str,
    /// What it does, as its help says.
    pub about: &'static str,
    /// What its help says after the words; may be empty.
    pub after: &'static str,
    /// Its words, in the order of its help.
    pub words: &'static [Word],
    /// Words that may not stand beside others, each with such another.
    pub never_with: &'static [(&'static str, &'static str)],
    /// Words that want another beside them, each with that.
    pub only_with: &'static [(&'static str, &'static str)],
}

/// A word that a program takes.
#[derive(Clone, Copy)]
pub struct Word {
    /// What it is asked for by; of an option also what is typed, after two hyphens.
    pub name: &'static str,
    /// How it is typed.
    pub takes: Takes,
    /// What its help says.
    pub help: &'static str,
}

/// How a word is typed.
#[derive(Clone, Copy)]
pub enum Takes {
    /// At its place; it has to be there.
    Place,
    /// At its place, where it is there.
    MaybePlace,
    /// The same, as one of these words; the help calls it so.
    MaybeOneOf(&'static str, &'static [&'static str]),
    /// At its place, and all words behind it; one has to be there.
    Places,
    /// At its place, and all words behind it, where any are there.
    MaybePlaces,
    /// By its name alone.
    Flag,
    /// By its name, with a text behind it that the help calls so.
    Text(&'static str),
    /// By its name, with a number below 2 to the 64th behind it that the help calls so.
    Number(&'static str),
}

impl Program {
    /// What is given of the words of a command line; the first is the program's own name.
    ///
    /// # Errors
    /// The words are wrong, ask for help or for the version, or memory was refused: `End::Words` tells of each.
    pub fn matches<'a>(
        &self,
        alloc: Global,
        given: &'a [String],
    ) -> Result<ArgMatches<'a>, ClapError> {
        self.command(alloc)?.try_get_matches_from(given)
    }

    /// An error of words that are wrong in a way that no row says, as clap tells its own.
    ///
    /// # Errors
    /// Memory was refused.
    pub fn wrong(
        &self,
        alloc: Global,
        kind: ErrorKind,
        why: &'static str,
    ) -> Result<ClapError, AllocError> {
        let mut command = self.command(alloc)?;
        command.error(kind, why)
    }

    /// The command line, as clap has it.
    fn command<'a>(&self, alloc: Global) -> Result<Command<'a>, AllocError> {
        let mut command = Command::new(alloc, self.name)
            .version(VERSION)
            .about(self.about);
        if !self.after.is_empty() {
            command = command.after_help(self.after);
        }
        for word in self.words {
            command = command.arg(self.arg(alloc, word)?)?;
        }
        Ok(command)
    }

    /// One of its words, as clap has it.
    fn arg<'a>(&self, alloc: Global, word: &Word) -> Result<Arg<'a>, AllocError> {
        let mut arg = word.typed(alloc).help(word.help);
        for (name, other) in self.never_with {
            if *name == word.name {
                arg = arg.conflicts_with(other)?;
            }
        }
        for (name, other) in self.only_with {
            if *name == word.name {
                arg = arg.requires_arg(other)?;
            }
        }
        Ok(arg)
    }
}

impl Word {
    /// How it is typed, as clap has it.
    fn typed<'a>(&self, alloc: Global) -> Arg<'a> {
        let arg = Arg::new(alloc, self.name);
        match self.takes {
            Takes::Place => arg.required(true).action(ArgAction::Set),
            Takes::MaybePlace => arg.action(ArgAction::Set),
            Takes::MaybeOneOf(what, words) => arg
                .value_name(what)
                .action(ArgAction::Set)
                .value_parser(words),
            Takes::Places => arg.required(true).action(ArgAction::Append).num_args(1..),
            Takes::MaybePlaces => arg.action(ArgAction::Append).num_args(0..),
            Takes::Flag => arg.long(self.name).action(ArgAction::SetTrue),
            Takes::Text(what) => arg.long(self.name).value_name(what).action(ArgAction::Set),
            Takes::Number(what) => arg
                .long(self.name)
                .value_name(what)
                .value_parser(value_parser!(u64))
                .action(ArgAction::Set),
        }
    }
}
