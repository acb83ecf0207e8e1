//! One place of a request: which of how many, and the code of the request.

ghost use Rattle.std.specs.Prelude.{◌≡◌, ◌++◌, OnOk};
ghost use Rattle.world_report.specs.Places.{place_mark};

use input_text::put_decimal;
use std::alloc::AllocError;

/// A place of a request.
#[derive(Clone, Copy)]
pub(crate) struct Place {
    /// How many transactions the request has.
    pub(crate) count: u64,
    /// Which of them it is, from 1.
    pub(crate) number: u64,
    /// The code of the request (103-A3).
    pub(crate) code: [u8; 2],
}

/// Appends what names one of this many places, from 1, after the number of its request: nothing where the request has one
/// transaction.
pub fn put_mark(out: &mut Vec<u8>, count: u64, place: u64) -> Result<(), AllocError>
    ensures { OnOk result (out.new.items ≡ out.old.items ++ place_mark count place) }
{
    if count == 1 {
        return Ok(());
    }
    out.push(b'/')?;
    put_decimal(out, place)
}
