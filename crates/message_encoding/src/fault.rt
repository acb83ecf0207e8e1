//! Why a description gives no message.

use std::alloc::AllocError;

/// Why a text was not read as a description.
#[derive(Clone, Copy, Debug, PartialEq, Eq)]
pub enum ReadFault {
    /// Memory was refused.
    OutOfMemory,
    /// The text is no JSON: UTF-8, one value, nested at most 127 deep.
    NotJson,
}

/// What is wrong with a part of a description.
#[derive(Clone, Copy, Debug, PartialEq, Eq)]
pub enum PartFault {
    /// Memory was refused.
    OutOfMemory,
    /// It has no text at `name`.
    NoName,
    /// What stands at `field` is no number of a field, as `302-C2`, and no two bytes, as they are printed.
    NotField,
    /// It has no text at `value`, or one that spells no bytes.
    NotValue,
}

/// A description without a message.
#[derive(Clone, Copy, Debug, PartialEq, Eq)]
pub enum Misfit {
    /// Memory was refused.
    OutOfMemory,
    /// There is no array at `parts`.
    NoParts,
    /// The part at this place, from 0, is wrong, and none before it.
    Part(usize, PartFault),
}

impl From<AllocError> for PartFault {
    ghost use Rattle.std.specs.Prelude.{◌≡◌};
    ghost use Rattle.message_encoding.specs.declared.fault.PartFault.TheVariants.{OutOfMemory};

    ghost from_gives = { λ _ fault. fault ≡ OutOfMemory };

    fn from(_refused: AllocError) -> PartFault {
        PartFault::OutOfMemory
    }
}
