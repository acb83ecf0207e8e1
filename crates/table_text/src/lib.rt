//! The text of tables: rows of named values, as lines of CSV or as objects of JSON.
//!
//! What a value says cannot become another value: CSV stands between quotation marks where it has a comma or a quotation
//! mark, and a text of JSON always does.
#![tactic(auto)]

mod fields;
mod laws;
mod layout;
mod quoting;
mod values;

pub use fields::{Cell, Field};
pub use laws::{csv_is_read_back, json_is_read_back, lists_are_separated};
pub use layout::{Style, put_head, put_list, put_row};
pub use quoting::put_json_text;
