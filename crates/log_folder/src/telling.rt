//! What is told of a log that was looked at, a line each.

use crate::undamaged::Run;
use node_service::ServiceFault;
use std::fmt;
use std::fmt::{Display, Formatter};

/// A line that is told of a log. It shows as its words.
#[derive(Clone, Copy, Debug, PartialEq, Eq)]
pub enum Line {
    /// It is not damaged: how many calls it has, and how many bytes these take with the head.
    Sound(u64, usize),
    /// So many bytes after them are the beginning of a record that is cut off.
    Torn(usize),
    /// How many calls stand before a damage, and how many bytes these take with the head.
    Before(u64, usize),
    /// What the damage is, and how many bytes stand from it on.
    Damage(ServiceFault, usize),
    /// None of these is an undamaged record.
    NoneUndamaged,
    /// These are undamaged records.
    Undamaged(Run),
    /// The log was cut at this place, and this many calls are left.
    Cut(usize, u64),
}

impl Display for Line {
    fn fmt<W: fmt::Write>(&self, f: &mut Formatter<W>) -> fmt::Result {
        match self {
            Line::Sound(calls, whole) => write!(f, "calls {calls}, in {whole} bytes: not damaged"),
            Line::Torn(torn) => {
                write!(
                    f,
                    "torn {torn} bytes, which a start cuts off and keeps beside the log"
                )
            }
            Line::Before(calls, place) => write!(f, "calls {calls}, in {place} bytes"),
            Line::Damage(fault, behind) => {
                write!(f, "then {fault}, and {behind} bytes from there on")
            }
            Line::NoneUndamaged => f.write_str("undamaged none of them"),
            Line::Undamaged(run) => write!(f, "undamaged records {run}"),
            Line::Cut(place, calls) => write!(f, "cut at byte {place}: {calls} calls are left"),
        }
    }
}

impl Display for Run {
    fn fmt<W: fmt::Write>(&self, f: &mut Formatter<W>) -> fmt::Result {
        let (first, last, from, to) = (self.first, self.last, self.from, self.to);
        write!(f, "{first} to {last}, from byte {from} to byte {to}")
    }
}
