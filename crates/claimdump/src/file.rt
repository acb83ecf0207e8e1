//! A file that is to be written.

use std::fmt;
use std::fmt::{Display, Formatter};
use world_setup::Node;

/// The name of a file, without a folder.
#[derive(Clone, Copy)]
pub(crate) enum FileName {
    /// `settings.toml`.
    Settings,
    /// The log of a node, `ph1.log`.
    Log(Node),
    /// The journal of the pharmacy of a number, `ph1.journal`.
    Journal(u64),
    /// The book of the payer of a number, `pr1.book`.
    Book(u64),
}

impl Display for FileName {
    fn fmt<W: fmt::Write>(&self, f: &mut Formatter<W>) -> fmt::Result {
        match self {
            FileName::Settings => write!(f, "settings.toml"),
            FileName::Log(Node::Pharmacy(number)) => write!(f, "ph{number}.log"),
            FileName::Log(Node::Switch(number)) => write!(f, "sw{number}.log"),
            FileName::Log(Node::Payer(number)) => write!(f, "pr{number}.log"),
            FileName::Journal(number) => write!(f, "ph{number}.journal"),
            FileName::Book(number) => write!(f, "pr{number}.book"),
        }
    }
}

/// A file that is to be written.
#[derive(Drop)]
pub(crate) struct DumpFile {
    pub(crate) name: FileName,
    pub(crate) bytes: Vec<u8>,
}
