//! Why a description gives no message.

use message_encoding::{Described, Misfit, PartFault};
use std::alloc::AllocError;

/// Why a description gives no message.
#[derive(Clone, Copy, Debug, PartialEq, Eq)]
pub enum Fault {
    /// It is no JSON.
    NotJson,
    /// It has no list of parts.
    NoParts,
    /// The part at this place, from 0, is wrong.
    Part(usize, Misread),
    /// Its message has no bytes, and no line spells that.
    NoBytes,
}

/// What is wrong with a part.
#[derive(Clone, Copy, Debug, PartialEq, Eq)]
pub enum Misread {
    /// It has no name.
    NoName,
    /// Its field is none.
    NotField,
    /// Its value spells no bytes.
    NotValue,
    /// The message that the parts give is described with another part there.
    ReadsOtherwise,
}

/// A description that gives no message.
#[derive(Drop)]
pub struct Refusal {
    /// Why.
    pub fault: Fault,
    /// The description; None where it was not read.
    pub described: Option<Described>,
}

/// Why no message was made.
#[derive(Drop)]
pub(crate) enum Unmade {
    /// Memory was refused.
    OutOfMemory,
    /// The description gives none.
    Refused(Refusal),
}

/// The same, before it is known whose fault it is.
#[derive(Clone, Copy)]
pub(crate) enum Lack {
    OutOfMemory,
    Fault(Fault),
}

impl From<AllocError> for Unmade {
    ghost use Rattle.std.specs.Prelude.{◌≡◌};
    ghost use Rattle.message_lines.specs.declared.fault.Unmade.TheVariants.{OutOfMemory};

    ghost from_gives = { λ _ fault. fault ≡ OutOfMemory };

    fn from(_refused: AllocError) -> Unmade {
        Unmade::OutOfMemory
    }
}

impl From<Misfit> for Lack {
    ghost use Rattle.std.specs.Prelude.{◌≡◌};
    ghost use Rattle.message_lines.specs.Refused.{lack_of};

    ghost from_gives = { λ misfit lack. lack ≡ lack_of misfit };

    fn from(misfit: Misfit) -> Lack {
        match misfit {
            Misfit::OutOfMemory => Lack::OutOfMemory,
            Misfit::NoParts => Lack::Fault(Fault::NoParts),
            Misfit::Part(_, PartFault::OutOfMemory) => Lack::OutOfMemory,
            Misfit::Part(place, PartFault::NoName) => {
                Lack::Fault(Fault::Part(place, Misread::NoName))
            }
            Misfit::Part(place, PartFault::NotField) => {
                Lack::Fault(Fault::Part(place, Misread::NotField))
            }
            Misfit::Part(place, PartFault::NotValue) => {
                Lack::Fault(Fault::Part(place, Misread::NotValue))
            }
        }
    }
}
