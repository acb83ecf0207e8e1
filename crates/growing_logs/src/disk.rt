//! The files of logs. Each method makes its calls of the system, and then notes them with their answer.

ghost use Rattle.std.specs.Prelude.{◌≡◌, ◌∷◌, [], false, is_ok};
ghost use Rattle.replaced_files.specs.Deeds.{Failed};
ghost use Rattle.growing_logs.specs.Noting.{deeds_of};

use crate::reading::name_at;
use call_notes::Noted;
use log_turning::check_regular;
use node_process::sync_folder;
use replaced_files::Files;
use std::fs::{File, OpenOptions, TryLockError};
use std::io::{ErrorKind, Write};
use std::{fs, io};

/// Kinds of deeds, as they are noted.
const FAILED: u64 = 0;

const TAKEN: u64 = 1;

const COPIED: u64 = 2;

const EXCHANGED: u64 = 3;

const SYNCED_NAMES: u64 = 4;

/// The files of logs under these names. A process that serves a node has its log, so the node is stopped where this one has it.
#[derive(Drop)]
pub struct Disk<'a> {
    rt: &'a HostRuntime,
    names: &'a [&'a str],
    files: Vec<File>,
    noted: Noted,
}

impl<'a> Disk<'a> {
    /// Of logs of these names, of which nothing was asked yet.
    pub fn new(rt: &'a HostRuntime, names: &'a [&'a str]) -> Disk<'a>
        ensures { result.noted.notes ≡ [] }
    {
        Disk {
            rt,
            names,
            files: Vec::new(rt.alloc()),
            noted: Noted::new(),
        }
    }

    /// The file at a place, which was taken.
    fn file(&self, place: usize) -> io::Result<&File> {
        match self.files.get(place) {
            Some(file) => Ok(file),
            None => Err(untaken()),
        }
    }

    /// Opens the file at a place, where it is a regular one, and locks it; `false` where another process has it.
    fn lock(&mut self, place: usize) -> io::Result<bool>
        ensures { self.new.noted ≡ self.old.noted }
    {
        let name = name_at(self.names, place);
        check_regular(self.rt, name)?;
        let file = OpenOptions::new().read(true).open(self.rt, name)?;
        match file.try_lock() {
            Ok(()) => {
                self.files.push(file)?;
                Ok(true)
            }
            Err(TryLockError::WouldBlock) => Ok(false),
            Err(TryLockError::Error(error)) => Err(error),
        }
    }

    /// The name of the file that is made beside the one at a place.
    fn copy_name(&self, place: usize) -> io::Result<String> {
        let name = name_at(self.names, place);
        Ok(format!(in self.rt.alloc(); "{name}.grown")?)
    }

    /// Makes a file of these bytes beside the one at a place. It may be read and written by whom that may be.
    fn write_copy(&self, place: usize, bytes: &[u8]) -> io::Result<()> {
        let name = self.copy_name(place)?;
        let mut file = File::create(self.rt, name.as_str())?;
        file.set_permissions(self.file(place)?.metadata()?.permissions())?;
        file.write_all(bytes)?;
        file.sync_all()
    }

    /// Renames the file beside the one at a place.
    fn rename_copy(&self, place: usize) -> io::Result<()> {
        let name = self.copy_name(place)?;
        fs::rename(self.rt, name.as_str(), name_at(self.names, place))
    }

    /// Has the names of the folder of the file at a place on disk.
    fn sync_folder_of(&self, place: usize) -> io::Result<()> {
        sync_folder(self.rt, name_at(self.names, place))
    }

    /// Notes that the file at a place could not be opened or locked.
    fn failed(&mut self, place: usize, error: io::Error) -> io::Result<bool>
        ensures noted { deeds_of self.new.noted.notes ≡ Failed place ∷ deeds_of self.old.noted.notes }
        ensures refused { is_ok result ≡ false }
    {
        self.noted.note(&[FAILED, 0, place as u64], &[]);
        Err(error)
    }
}

impl<'a> Files for Disk<'a> {
    ghost deeds = { λ disk. deeds_of disk.noted.notes };

    fn take(&mut self, place: usize) -> io::Result<bool> {
        match self.lock(place) {
            Ok(got) => {
                self.noted.note(&[TAKEN, u64::from(got), place as u64], &[]);
                Ok(got)
            }
            Err(error) => self.failed(place, error),
        }
    }

    fn copy(&mut self, place: usize, bytes: &[u8]) -> io::Result<()> {
        let answer = self.write_copy(place, bytes);
        self.noted.answered(COPIED, place as u64, bytes, answer)
    }

    fn exchange(&mut self, place: usize) -> io::Result<()> {
        let answer = self.rename_copy(place);
        self.noted.answered(EXCHANGED, place as u64, &[], answer)
    }

    fn sync_names(&mut self, place: usize) -> io::Result<()> {
        let answer = self.sync_folder_of(place);
        self.noted.answered(SYNCED_NAMES, place as u64, &[], answer)
    }
}

/// That a file was not taken.
fn untaken() -> io::Error {
    io::Error::new(ErrorKind::NotFound, "the log was not taken")
}
