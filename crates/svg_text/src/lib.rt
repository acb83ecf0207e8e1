//! Pictures as SVG: lines, boxes and words with places in pixels, and the file that holds them.
//!
//! What words say cannot become markup: the characters `<`, `>` and `"` of a picture are those that it has with empty
//! words and an empty title, for all words (`words_are_no_markup`).
#![tactic(auto)]

mod drawing;
mod escaping;
mod frame;
mod laws;
mod numbers;
mod shapes;
mod styles;

pub use drawing::Drawing;
pub use frame::Frame;
pub use laws::words_are_no_markup;
pub use shapes::{Point, Size};
pub use styles::{Anchor, Face, Fill, Stroke};
