//! How a message is told: its parts, and what is found of it, as lines of text or as JSON; and how messages are read
//! from an input.
#![tactic(auto)]

mod answer_lines;
mod cause_lines;
mod code_lines;
mod dates;
mod describing;
mod envelope_lines;
mod facts;
mod fault_lines;
mod figures;
mod finding_page;
mod laws;
mod line_source;
mod meaning;
mod order_lines;
mod page;
mod part_rows;
mod record_lines;
mod request_lines;
mod ruling_lines;
mod segments;
mod sentences;
mod spelling;
mod text;
mod wanted;

pub use laws::{description_laws, sentence_laws};
pub use line_source::{ByteSource, InputFault, LONGEST_LINE, LineSource, ReadFailed, ReaderBytes};
pub use page::{Page, Style};
pub use spelling::{Spelling, SpellingFault, hex_bytes, printed_bytes, unwrapped};
