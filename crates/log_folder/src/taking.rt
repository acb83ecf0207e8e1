//! A log that is taken for this process.

ghost use Rattle.std.specs.Prelude.{◌≡◌, ◌∷◌, List, false, is_ok, true, IfErr, OnOk};
ghost use Rattle.log_folder.specs.Deeds.{Deed, Marked, is_failed, newest};
ghost use Rattle.log_folder.specs.Plans.{IsUntaken, locked, taken_to_close, taken_to_mend, taken_to_serve};

use crate::fault::TakeFault;
use crate::folder::Folder;
use std::io;

/// Takes a log to be served, or makes it: no sync of it failed, its name is on disk, and no other process has it.
///
/// # Errors
/// The first that stands: `SyncFailed`, `Busy`; or `Unopened`, `Io`.
pub fn take_to_serve<F: Folder>(folder: &mut F) -> Result<(), TakeFault>
    ensures taken { OnOk result (F.deeds folder.new ≡ taken_to_serve (F.deeds folder.old)) }
    ensures refused { IfErr result (λ why. IsUntaken why (F.deeds folder.new)) }
{
    look_for_mark(folder)?;
    opened(folder.open_or_make())?;
    folder.sync_names()?;
    lock(folder)
}

/// Takes a log that is there, to be closed: no sync of it failed, and no other process has it.
///
/// # Errors
/// The first that stands: `SyncFailed`, `Busy`; or `Unopened`, `Io`.
pub fn take_to_close<F: Folder>(folder: &mut F) -> Result<(), TakeFault>
    ensures taken { OnOk result (F.deeds folder.new ≡ taken_to_close (F.deeds folder.old)) }
    ensures refused { IfErr result (λ why. IsUntaken why (F.deeds folder.new)) }
{
    look_for_mark(folder)?;
    opened(folder.open())?;
    lock(folder)
}

/// Takes a log that is there, to be mended: no other process has it.
///
/// # Errors
/// `Busy`, or `Unopened`, `Io`.
pub fn take_to_mend<F: Folder>(folder: &mut F) -> Result<(), TakeFault>
    ensures taken { OnOk result (F.deeds folder.new ≡ taken_to_mend (F.deeds folder.old)) }
    ensures refused { IfErr result (λ why. IsUntaken why (F.deeds folder.new)) }
{
    opened(folder.open())?;
    lock(folder)
}

/// Refuses a log beside which the mark of a failed sync stands.
fn look_for_mark<F: Folder>(folder: &mut F) -> Result<(), TakeFault>
    ensures none { OnOk result (F.deeds folder.new ≡ Marked false ∷ F.deeds folder.old) }
    ensures refused { IfErr result (λ why. IsUntaken why (F.deeds folder.new)) }
{
    if folder.is_marked()? {
        return Err(TakeFault::SyncFailed);
    }
    Ok(())
}

/// Locks the file that was opened, and sees that it has its name still.
fn lock<F: Folder>(folder: &mut F) -> Result<(), TakeFault>
    ensures taken { OnOk result (F.deeds folder.new ≡ locked (F.deeds folder.old)) }
    ensures refused { IfErr result (λ why. IsUntaken why (F.deeds folder.new)) }
{
    if !folder.lock()? {
        return Err(TakeFault::Busy);
    }
    if !folder.has_name()? {
        return Err(TakeFault::Busy);
    }
    Ok(())
}

/// A file that was opened, or why the log is not taken.
fn opened(answer: io::Result<()>) -> Result<(), TakeFault>
    ensures opened { is_ok result ≡ is_ok answer }
    ensures refused { IfErr result (λ why. (deeds : List Deed) → newest is_failed deeds ≡ true → IsUntaken why deeds) }
{
    match answer {
        Ok(()) => Ok(()),
        Err(error) => Err(TakeFault::Unopened(error)),
    }
}
