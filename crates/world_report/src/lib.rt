//! The report on a world: the lines of events, by what came of them, and those of each node, up or at rest, with what stands in
//! its journal, table or book. Nothing here makes an event.
//!
//! Each function appends exactly the text of one line or of the lines of one entry; where memory runs out, a part of
//! it may have been appended. A line is a list of words with one space between them.
#![tactic(auto)]

mod backwards;
mod book_rows;
mod entries;
mod heads;
mod lists;
mod nodes;
mod numbers;
mod places;
mod report;
mod rows;
mod rulings;
mod words;

pub use book_rows::put_row;
pub use entries::put_entry;
pub use heads::{put_done, put_head, put_refused};
pub use numbers::put_number;
pub use places::put_mark;
pub use report::put_nodes;
pub use rows::put_in_flight;
pub use rulings::{put_paid, put_ruling};
pub use words::{end_line, put_word};
