//! The folder of a real file. Each method makes its calls of the system, and then notes them with their answer.

ghost use Rattle.std.specs.Prelude.{◌≡◌, ◌∷◌, [], false, is_ok};
ghost use Rattle.log_folder.specs.Deeds.{Failed};
ghost use Rattle.log_folder.specs.Noting.{deeds_of};

use crate::folder::Folder;
use call_notes::Noted;
use log_turning::{check_regular, closed_name};
use node_process::{keep_end, leave_mark, mark_of_failed_sync, sync_folder};
use std::alloc::Global;
use std::fs::{File, OpenOptions, TryLockError};
use std::io::{ErrorKind, Read, Seek, SeekFrom, Write};
use std::os::unix::fs::OpenOptionsExt;
use std::{fs, io};

/// How many bytes of two files are compared.
const FRONT: u64 = 96;

/// Kinds of deeds, as they are noted.
const FAILED: u64 = 0;

const MARKED: u64 = 1;

pub(crate) const OPENED: u64 = 2;

const LOCKED: u64 = 3;

const NAMED: u64 = 4;

const FOUND: u64 = 5;

const MADE_NEXT: u64 = 6;

const KEPT_END: u64 = 7;

const CUT: u64 = 8;

const APPENDED: u64 = 9;

pub(crate) const SYNCED: u64 = 10;

const LINKED: u64 = 11;

pub(crate) const SYNCED_NAMES: u64 = 12;

const EXCHANGED: u64 = 13;

/// The folder in which a log of this name stands. A file that is made nobody else may read: it has what was claimed for whom.
#[derive(Drop)]
pub struct Disk<'a> {
    pub(crate) rt: &'a HostRuntime,
    pub(crate) path: &'a str,
    file: Option<File>,
    pub(crate) noted: Noted,
}

impl<'a> Disk<'a> {
    /// Of a log of this name, of which nothing was asked yet.
    pub fn new(rt: &'a HostRuntime, path: &'a str) -> Disk<'a>
        ensures { result.noted.notes ≡ [] }
    {
        Disk {
            rt,
            path,
            file: None,
            noted: Noted::new(),
        }
    }

    /// The file, locked if the log was taken.
    ///
    /// # Errors
    /// It was not opened.
    pub fn into_file(self) -> io::Result<File> {
        match self.file {
            Some(file) => Ok(file),
            None => Err(unopened()),
        }
    }

    /// The file that was opened.
    pub(crate) fn file(&self) -> io::Result<&File> {
        match &self.file {
            Some(file) => Ok(file),
            None => Err(unopened()),
        }
    }

    /// Opens the file, where its name is a regular file's, or nobody's and it is to be made.
    fn open_by(&mut self, options: &OpenOptions) -> io::Result<()>
        ensures { self.new.noted ≡ self.old.noted }
    {
        check_regular(self.rt, self.path)?;
        self.open_as(options)
    }

    /// Opens the file, and notes nothing: who calls it does.
    pub(crate) fn open_as(&mut self, options: &OpenOptions) -> io::Result<()>
        ensures { self.new.noted ≡ self.old.noted }
    {
        self.file = Some(options.open(self.rt, self.path)?);
        Ok(())
    }

    /// Locks the file; `false` where another process has it.
    fn try_lock(&self) -> io::Result<bool> {
        match self.file()?.try_lock() {
            Ok(()) => Ok(true),
            Err(TryLockError::WouldBlock) => Ok(false),
            Err(TryLockError::Error(error)) => Err(error),
        }
    }

    /// Whether the file of that name begins as the one that was opened does.
    fn is_named(&self) -> io::Result<bool> {
        let alloc = self.rt.alloc();
        let named = File::open(self.rt, self.path)?;
        Ok(first_bytes(alloc, &named)? == first_bytes(alloc, self.file()?)?)
    }

    /// Whether the mark of a failed sync stands beside the log.
    fn mark_stands(&self) -> io::Result<bool> {
        let mark = mark_of_failed_sync(self.rt.alloc(), self.path)?;
        fs::exists(self.rt, mark.as_str())
    }

    /// All bytes of the file.
    fn all_bytes(&self, alloc: Global) -> io::Result<Vec<u8>> {
        let mut bytes = Vec::new(alloc);
        let mut file = self.file()?;
        file.seek(SeekFrom::Start(0))?;
        file.read_to_end(&mut bytes)?;
        Ok(bytes)
    }

    /// Appends bytes.
    fn append_all(&self, bytes: &[u8]) -> io::Result<()> {
        let mut file = self.file()?;
        file.write_all(bytes)
    }

    /// Makes the next file.
    fn write_next(&self, bytes: &[u8]) -> io::Result<()> {
        let name = self.next_name()?;
        let mut options = OpenOptions::new();
        options.write(true).create(true).truncate(true).mode(0o600);
        let mut file = options.open(self.rt, name.as_str())?;
        file.write_all(bytes)?;
        file.sync_all()
    }

    /// The name of the next file before it has that of the log.
    fn next_name(&self) -> io::Result<String> {
        let path = self.path;
        Ok(format!(in self.rt.alloc(); "{path}.next")?)
    }

    /// Gives the file the name of a log that was closed with this many calls.
    fn link_closed(&self, calls: u64) -> io::Result<()> {
        let name = closed_name(self.rt.alloc(), self.path, calls)?;
        fs::hard_link(self.rt, self.path, name.as_str())
    }

    /// Renames the next file.
    fn rename_next(&self) -> io::Result<()> {
        let name = self.next_name()?;
        fs::rename(self.rt, name.as_str(), self.path)
    }

    /// What a sync answered; a mark stays beside the log where it failed.
    fn or_marked(&self, answer: io::Result<()>) -> io::Result<()> {
        if answer.is_err() {
            if let Err(error) = leave_mark(self.rt, self.path) {
                let _ = eprintln!(self.rt;
                    "claimnode: there is no mark of the failed sync: {error}"
                );
            }
        }
        answer
    }

    /// Notes that a call which only looks or asks has failed.
    fn failed<T: Drop>(&mut self, error: io::Error) -> io::Result<T>
        ensures noted { deeds_of self.new.noted.notes ≡ Failed ∷ deeds_of self.old.noted.notes }
        ensures refused { is_ok result ≡ false }
    {
        self.noted.note(&[FAILED, 0, 0], &[]);
        Err(error)
    }
}

impl<'a> Folder for Disk<'a> {
    ghost deeds = { λ disk. deeds_of disk.noted.notes };

    fn is_marked(&mut self) -> io::Result<bool> {
        match self.mark_stands() {
            Ok(stands) => {
                self.noted.note(&[MARKED, u64::from(stands), 0], &[]);
                Ok(stands)
            }
            Err(error) => self.failed(error),
        }
    }

    fn open(&mut self) -> io::Result<()> {
        let mut options = OpenOptions::new();
        options.read(true).append(true);
        let answer = self.open_by(&options);
        self.noted.answered(OPENED, 0, &[], answer)
    }

    fn open_or_make(&mut self) -> io::Result<()> {
        let mut options = OpenOptions::new();
        options.read(true).append(true).create(true).mode(0o600);
        let answer = self.open_by(&options);
        self.noted.answered(OPENED, 0, &[], answer)
    }

    fn lock(&mut self) -> io::Result<bool> {
        match self.try_lock() {
            Ok(got) => {
                self.noted.note(&[LOCKED, u64::from(got), 0], &[]);
                Ok(got)
            }
            Err(error) => self.failed(error),
        }
    }

    fn has_name(&mut self) -> io::Result<bool> {
        match self.is_named() {
            Ok(still) => {
                self.noted.note(&[NAMED, u64::from(still), 0], &[]);
                Ok(still)
            }
            Err(error) => self.failed(error),
        }
    }

    fn read(&mut self, alloc: Global) -> io::Result<Vec<u8>> {
        match self.all_bytes(alloc) {
            Ok(bytes) => {
                self.noted.note(&[FOUND, 1, 0], bytes.as_slice());
                Ok(bytes)
            }
            Err(error) => self.failed(error),
        }
    }

    fn make_next(&mut self, bytes: &[u8]) -> io::Result<()> {
        let answer = self.write_next(bytes);
        self.noted.answered(MADE_NEXT, 0, bytes, answer)
    }

    fn keep_end(&mut self, size: u64) -> io::Result<()> {
        let answer = keep_end(self.rt, self.path, size);
        self.noted.answered(KEPT_END, size, &[], answer)
    }

    fn cut(&mut self, size: u64) -> io::Result<()> {
        let answer = match self.file() {
            Ok(file) => file.set_len(size),
            Err(error) => Err(error),
        };
        self.noted.answered(CUT, size, &[], answer)
    }

    fn append(&mut self, bytes: &[u8]) -> io::Result<()> {
        let answer = self.append_all(bytes);
        self.noted.answered(APPENDED, 0, bytes, answer)
    }

    fn sync(&mut self) -> io::Result<()> {
        let answer = match self.file() {
            Ok(file) => self.or_marked(file.sync_all()),
            Err(error) => Err(error),
        };
        self.noted.answered(SYNCED, 0, &[], answer)
    }

    fn link(&mut self, calls: u64) -> io::Result<()> {
        let answer = self.link_closed(calls);
        self.noted.answered(LINKED, calls, &[], answer)
    }

    fn sync_names(&mut self) -> io::Result<()> {
        let answer = self.or_marked(sync_folder(self.rt, self.path));
        self.noted.answered(SYNCED_NAMES, 0, &[], answer)
    }

    fn exchange(&mut self) -> io::Result<()> {
        let answer = self.rename_next();
        self.noted.answered(EXCHANGED, 0, &[], answer)
    }
}

/// The first bytes of a file.
fn first_bytes(alloc: Global, file: &File) -> io::Result<Vec<u8>> {
    let mut bytes = Vec::new(alloc);
    let mut file = file;
    file.seek(SeekFrom::Start(0))?;
    file.take(FRONT).read_to_end(&mut bytes)?;
    Ok(bytes)
}

/// That a file was not opened.
fn unopened() -> io::Error {
    io::Error::new(ErrorKind::NotFound, "the log was not opened")
}
