//! Journals and books at rest as bytes, both ways.
//!
//! The format is own to this project; numbers of several bytes have their high byte first.
#![tactic(auto)]

mod book_head;
mod book_laws;
mod book_reading;
mod book_writing;
mod fault;
mod journal_laws;
mod journal_parts;
mod journal_reading;
mod journal_writing;
mod products;
mod rows;
mod rules;
mod texts;
mod versions;

pub use book_laws::{book_is_its_text, book_reads_back, books_share_no_text};
pub use book_reading::{read_book, read_book_keyed};
pub use book_writing::{save_book, write_book};
pub use fault::RecordFault;
pub use journal_laws::{journal_is_its_text, journal_reads_back, journals_share_no_text};
pub use journal_reading::read_journal;
pub use journal_writing::{save_journal, write_journal};
