//! Files that are taken for this process.

ghost use Rattle.std.specs.Prelude.{◌≡◌, OnOk, IfErr};
ghost use Rattle.replaced_files.specs.Plans.{IsUntaken, all_taken};

use crate::fault::TakeFault;
use crate::files::Files;

/// Takes this many files, the first first.
///
/// # Errors
/// The first that is not taken: nothing is asked for after it.
pub fn take_all<F: Files>(files: &mut F, count: usize) -> Result<(), TakeFault>
    ensures taken { OnOk result (F.deeds files.new ≡ all_taken count (F.deeds files.old)) }
    ensures refused { IfErr result (λ why. IsUntaken why (F.deeds files.old) (F.deeds files.new)) }
{
    for place in 0..count {
        match files.take(place) {
            Ok(true) => {}
            Ok(false) => return Err(TakeFault::Busy(place)),
            Err(error) => return Err(TakeFault::Io(place, error)),
        }
    }
    Ok(())
}
