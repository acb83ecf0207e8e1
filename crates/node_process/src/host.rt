//! The system over a real file. Each method makes its call, and then notes it with its answer.

ghost use Rattle.std.specs.Prelude.{◌≡◌, []};
ghost use Rattle.node_process.specs.Noting.{acts_of};

use crate::kept_files::{keep_all, keep_end, leave_mark};
use crate::kinds::{APPENDED, CUT, FOUND, SYNCED};
use crate::machine::Machine;
use crate::streams::{hear, say};
use call_notes::Noted;
use std::alloc::Global;
use std::fs::File;
use std::io::{ErrorKind, Read, Write};
use std::os::unix::fs::MetadataExt;
use std::{fs, io};

/// A log in a file, which is read from where it begins and appended to, an input and an output. What is cut off the file is kept
/// in another one beside it, and a sync that fails leaves a mark there.
#[derive(Drop)]
pub struct Host<'a, I: Read + Drop, O: Write + Drop> {
    rt: &'a HostRuntime,
    path: &'a str,
    file: File,
    /// How many bytes stand before the log in the file.
    front: u64,
    input: I,
    output: O,
    noted: Noted,
}

impl<'a, I: Read + Drop, O: Write + Drop> Host<'a, I, O> {
    /// Over a file of this name that was opened to read and to append, and stands at the place where the log begins, after so
    /// many bytes.
    pub fn new(
        rt: &'a HostRuntime,
        path: &'a str,
        file: File,
        front: u64,
        input: I,
        output: O,
    ) -> Host<'a, I, O>
        ensures { result.noted.notes ≡ [] }
    {
        Host {
            rt,
            path,
            file,
            front,
            input,
            output,
            noted: Noted::new(),
        }
    }
}

impl<'a, I: Read + Drop, O: Write + Drop> Machine for Host<'a, I, O> {
    ghost acts = { λ host. acts_of host.noted.notes };

    ghost coming = { λ host. I.remaining host.input };

    fn read(&mut self, alloc: Global) -> io::Result<Vec<u8>> {
        let mut bytes = Vec::new(alloc);
        match self.file.read_to_end(&mut bytes) {
            Ok(_) => {
                self.noted.note(&[FOUND, 1, 0], bytes.as_slice());
                Ok(bytes)
            }
            Err(error) => {
                self.noted.note(&[FOUND, 0, 0], &[]);
                Err(error)
            }
        }
    }

    fn cut(&mut self, size: usize) -> io::Result<()> {
        let behind = self.front.saturating_add(size as u64);
        let answer = cut_off(self.rt, self.path, &self.file, behind);
        self.noted.answered(CUT, size as u64, &[], answer)
    }

    fn append(&mut self, bytes: &[u8]) -> io::Result<()> {
        let answer = self.file.write_all(bytes);
        self.noted.answered(APPENDED, 0, bytes, answer)
    }

    fn sync(&mut self) -> io::Result<()> {
        let answer = synced(self.rt, self.path, &self.file);
        self.noted.answered(SYNCED, 0, &[], answer)
    }

    fn say(&mut self, bytes: &[u8]) -> io::Result<()> {
        say(&mut self.output, &mut self.noted, bytes)
    }

    fn hear(&mut self, buffer: &mut [u8]) -> io::Result<usize> {
        hear(&mut self.input, &mut self.noted, buffer)
    }
}

/// Cuts a file after this many bytes, once what stands there is kept beside it.
fn cut_off(rt: &HostRuntime, path: &str, file: &File, size: u64) -> io::Result<()> {
    keep_end(rt, path, size)?;
    file.set_len(size)
}

/// Has a file on disk, under its name still; a mark beside it stays where that fails.
fn synced(rt: &HostRuntime, path: &str, file: &File) -> io::Result<()> {
    match file.sync_all() {
        Ok(()) => check_name(rt, path, file),
        Err(error) => {
            mark(rt, path);
            Err(error)
        }
    }
}

/// Leaves the mark of a log whose sync failed; where that fails too, it says so on standard error.
fn mark(rt: &HostRuntime, path: &str) {
    if let Err(error) = leave_mark(rt, path) {
        let _ = eprintln!(rt; "claimnode: there is no mark of the failed sync: {error}");
    }
}

/// Refuses to go on with a file that has lost its name, since no later process would find it; what it has is kept beside.
fn check_name(rt: &HostRuntime, path: &str, file: &File) -> io::Result<()> {
    if has_name(rt, path, file)? {
        return Ok(());
    }
    keep_all(rt, path, file)?;
    Err(io::Error::new(
        ErrorKind::NotFound,
        "the log was removed or replaced while the node ran",
    ))
}

/// Whether this name is still the file's.
fn has_name(rt: &HostRuntime, path: &str, file: &File) -> io::Result<bool> {
    let held = file.metadata()?;
    match fs::metadata(rt, path) {
        Ok(named) => Ok(named.dev() == held.dev() && named.ino() == held.ino()),
        Err(error) => {
            if error.kind() == ErrorKind::NotFound {
                return Ok(false);
            }
            Err(error)
        }
    }
}
