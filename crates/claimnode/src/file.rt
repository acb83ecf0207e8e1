//! The file of a node's log, for the process that serves it.

ghost use Rattle.std.specs.Prelude.{◌≡◌, [], IfOk};
ghost use Rattle.log_folder.specs.Noting.{deeds_of};
ghost use Rattle.claimnode.specs.Taken.{taken_for};

use crate::finding::Finding;
use log_folder::{Disk, TakeFault, take_to_close, take_to_mend, take_to_serve};
use node_process::mark_of_failed_sync;

/// What a log is taken for.
#[derive(Clone, Copy)]
pub(crate) enum Purpose {
    Serve,
    Close,
    Mend,
}

/// Takes the log of this name for this process.
///
/// # Errors
/// A call of the system failed; a sync of the log failed before, or another process has it.
pub(crate) fn take<'a>(
    rt: &'a HostRuntime,
    path: &'a str,
    purpose: Purpose,
) -> Result<Disk<'a>, Finding>
    ensures { IfOk result (λ disk. deeds_of disk.noted.notes ≡ taken_for purpose []) }
{
    let mut disk = Disk::new(rt, path);
    let taken = match purpose {
        Purpose::Serve => take_to_serve(&mut disk),
        Purpose::Close => take_to_close(&mut disk),
        Purpose::Mend => take_to_mend(&mut disk),
    };
    match taken {
        Ok(()) => Ok(disk),
        Err(TakeFault::Unopened(error)) => Err(Finding::of_file(rt.alloc(), path, error)),
        Err(TakeFault::SyncFailed) => {
            let mark = mark_of_failed_sync(rt.alloc(), path)?;
            Err(Finding::SyncFailed(mark))
        }
        Err(fault) => Err(Finding::Untaken(fault)),
    }
}
