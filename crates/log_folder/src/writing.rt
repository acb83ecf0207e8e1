//! A new file that is written once, and is on disk with its name then.

ghost use Rattle.std.specs.Prelude.{◌≡◌, ◌∷◌, [], is_ok, IfErr, OnOk};
ghost use Rattle.log_folder.specs.Deeds.{Append, IsFollowed, Opened, Sync, SyncNames, all_done};
ghost use Rattle.log_folder.specs.Noting.{deeds_of};
ghost use Rattle.log_folder.specs.Writing.{IsUnwritten, written};

use crate::disk::{Disk, OPENED, SYNCED, SYNCED_NAMES};
use crate::fault::WriteFault;
use crate::folder::Folder;
use node_process::sync_folder;
use std::fs::OpenOptions;
use std::io;
use std::os::unix::fs::OpenOptionsExt;

/// A file that is to be made. Whatever a call answers, it is noted as a deed.
pub trait NewFile {
    ghost use Rattle.std.specs.Prelude.{List};
    ghost use Rattle.log_folder.specs.Deeds.{Deed};

    /// What was asked of it so far, the newest first.
    ghost deeds: { Self → List Deed };

    /// Makes the file, where its name is nobody's.
    fn make(&mut self) -> io::Result<()>
        ensures { deeds self.new ≡ Opened (is_ok result) ∷ deeds self.old };

    /// Appends bytes to the file.
    fn append(&mut self, bytes: &[u8]) -> io::Result<()>
        ensures { deeds self.new ≡ Append bytes.now (is_ok result) ∷ deeds self.old };

    /// Has the file on disk as it is.
    fn sync(&mut self) -> io::Result<()>
        ensures { deeds self.new ≡ Sync (is_ok result) ∷ deeds self.old };

    /// Has its name on disk.
    fn sync_names(&mut self) -> io::Result<()>
        ensures { deeds self.new ≡ SyncNames (is_ok result) ∷ deeds self.old };
}

/// Makes a file of these bytes, which is on disk with its name then.
///
/// # Errors
/// The first call of the system that failed: nothing is done after it.
pub fn write_new<F: NewFile>(file: &mut F, bytes: &[u8]) -> Result<(), WriteFault>
    ensures each { IsFollowed (written bytes.now) (F.deeds file.old) (F.deeds file.new) }
    ensures refused { IfErr result (λ why. IsUnwritten why (F.deeds file.old) (F.deeds file.new)) }
    ensures done { OnOk result (F.deeds file.new ≡ all_done (written bytes.now) (F.deeds file.old)) }
{
    if let Err(error) = file.make() {
        return Err(WriteFault::Unmade(error));
    }
    file.append(bytes)?;
    file.sync()?;
    file.sync_names()?;
    Ok(())
}

/// The file of this name. Nobody else may read it: it has what was claimed for whom.
#[derive(Drop)]
pub struct OutFile<'a> {
    disk: Disk<'a>,
}

impl<'a> OutFile<'a> {
    /// Of this name, of which nothing was asked yet.
    pub fn new(rt: &'a HostRuntime, path: &'a str) -> OutFile<'a>
        ensures { result.disk.noted.notes ≡ [] }
    {
        OutFile {
            disk: Disk::new(rt, path),
        }
    }
}

impl<'a> NewFile for OutFile<'a> {
    ghost deeds = { λ file. deeds_of file.disk.noted.notes };

    fn make(&mut self) -> io::Result<()> {
        let mut options = OpenOptions::new();
        options.write(true).create_new(true).mode(0o600);
        let answer = self.disk.open_as(&options);
        self.disk.noted.answered(OPENED, 0, &[], answer)
    }

    fn append(&mut self, bytes: &[u8]) -> io::Result<()> {
        self.disk.append(bytes)
    }

    fn sync(&mut self) -> io::Result<()> {
        let answer = match self.disk.file() {
            Ok(file) => file.sync_all(),
            Err(error) => Err(error),
        };
        self.disk.noted.answered(SYNCED, 0, &[], answer)
    }

    fn sync_names(&mut self) -> io::Result<()> {
        let answer = sync_folder(self.disk.rt, self.disk.path);
        self.disk.noted.answered(SYNCED_NAMES, 0, &[], answer)
    }
}
