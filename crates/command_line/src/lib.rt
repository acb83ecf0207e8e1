//! How a program begins and ends that has ordinary manners: the words of its command line, which are rows of a table, the files
//! that these name, and the text and the status with which it ends early.
#![tactic(auto)]

mod end;
mod reading;
mod word;

pub use end::End;
pub use reading::{given_words, read_file, read_settings_file};
pub use word::{Program, Takes, Word};

/// The version that `-V` tells: that of the repository's change log.
pub const VERSION: &str = "0.7.0";
