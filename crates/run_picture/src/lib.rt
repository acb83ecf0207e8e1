//! The sequence diagram of a run: a lifeline for each node, time downwards, and an arrow from the sending of each packet
//! to each of its deliveries.
//!
//! What is drawn is a list of marks: each event that was made, each refusal, each packet that was sent, and each arrow
//! that a delivery ends. The arrows are those of the run and no others: the packets that the marks tell as sent are the
//! packets of the world, in order, and the arrows are its deliveries that were made (`marks_are_the_runs`). How a mark
//! stands on the page is decided here: columns are as wide as the longest words between them, and no words stand on
//! others.
#![tactic(auto)]

mod arrows;
mod columns;
mod drawing;
mod events;
mod extent;
mod foot;
mod frame;
mod labels;
mod lanes;
mod laws;
mod lettering;
mod lifelines;
mod mark;
mod marking;
mod measures;
mod page;
mod plan;
mod rowing;
mod rows;
mod sheet;
mod stop;
mod words;

pub use drawing::draw_replay;
pub use extent::Extent;
pub use laws::marks_are_the_runs;
pub use mark::Mark;
pub use marking::mark_run;
pub use sheet::picture;
pub use stop::PictureStop;
pub use words::{Wish, wish_of};
