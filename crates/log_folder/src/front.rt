//! What stands before the log in its file.

ghost use Rattle.std.specs.Prelude.{◌≡◌, ◌∷◌, [], is_ok, IfOk, OnErr};
ghost use Rattle.log_folder.specs.Front.{HasFailed, IsFront, Read, Rewound, Unread, reads_of};

use call_notes::Noted;
use log_turning::{BEFORE_REST, rest_size};
use std::alloc::Global;
use std::fs::File;
use std::io;
use std::io::{Read, Seek, SeekFrom};

/// Kinds of calls, as they are noted.
const UNREAD: u64 = 0;

const REWOUND: u64 = 1;

const READ: u64 = 2;

/// What stands before the log in its file.
#[derive(Drop)]
pub struct Front {
    /// What the log begins with, where it goes on after closed ones.
    pub rest: Option<Vec<u8>>,
    /// How many bytes stand before the log.
    pub size: u64,
}

/// A file that is read from its beginning on. Whatever a call answers, it is noted.
pub trait Readable {
    ghost use Rattle.std.specs.Prelude.{List};
    ghost use Rattle.log_folder.specs.Front.{Reading};

    /// What was asked of it so far, the newest first.
    ghost reads: { Self → List Reading };

    /// Goes to the beginning of the file.
    fn rewind(&mut self) -> io::Result<()>
        ensures { reads self.new ≡ Rewound (is_ok result) ∷ reads self.old };

    /// Reads on: so many bytes, or fewer where the file ends.
    fn read_on(&mut self, alloc: Global, most: u64) -> io::Result<Vec<u8>>
        ensures read { IfOk result (λ bytes. reads self.new ≡ Read most bytes.items ∷ reads self.old) }
        ensures failed { OnErr result (reads self.new ≡ Unread ∷ reads self.old) };
}

/// What stands before the log in a file, which is left at the place where the log begins.
///
/// # Errors
/// The first call of the system that failed.
pub fn front_of<F: Readable>(alloc: Global, file: &mut F) -> io::Result<Front>
    ensures front { IfOk result (λ front. IsFront front (F.reads file.new)) }
    ensures failed { OnErr result (HasFailed (F.reads file.new)) }
{
    file.rewind()?;
    let head = file.read_on(alloc, BEFORE_REST as u64)?;
    match rest_size(head.as_slice()) {
        None => {
            file.rewind()?;
            Ok(Front {
                rest: None,
                size: 0,
            })
        }
        Some(size) => {
            let rest = file.read_on(alloc, size)?;
            let size = (head.len() as u64).saturating_add(rest.len() as u64);
            Ok(Front {
                rest: Some(rest),
                size,
            })
        }
    }
}

/// A file that was opened, and is read from its beginning on.
#[derive(Drop)]
pub struct OpenedFile {
    file: File,
    noted: Noted,
}

impl OpenedFile {
    /// Of this file, of which nothing was asked yet.
    pub fn new(file: File) -> OpenedFile
        ensures { result.noted.notes ≡ [] }
    {
        OpenedFile {
            file,
            noted: Noted::new(),
        }
    }

    /// The file, at the place to which it was read.
    pub fn into_file(self) -> File {
        self.file
    }

    /// So many bytes, or fewer where the file ends.
    fn next_bytes(&self, alloc: Global, most: u64) -> io::Result<Vec<u8>> {
        let mut bytes = Vec::new(alloc);
        let file = &self.file;
        file.take(most).read_to_end(&mut bytes)?;
        Ok(bytes)
    }

    /// Goes to the beginning.
    fn to_beginning(&self) -> io::Result<()> {
        let mut file = &self.file;
        file.seek(SeekFrom::Start(0))?;
        Ok(())
    }
}

impl Readable for OpenedFile {
    ghost reads = { λ file. reads_of file.noted.notes };

    fn rewind(&mut self) -> io::Result<()> {
        let answer = self.to_beginning();
        self.noted.answered(REWOUND, 0, &[], answer)
    }

    fn read_on(&mut self, alloc: Global, most: u64) -> io::Result<Vec<u8>> {
        match self.next_bytes(alloc, most) {
            Ok(bytes) => {
                self.noted.note(&[READ, 1, most], bytes.as_slice());
                Ok(bytes)
            }
            Err(error) => {
                self.noted.note(&[UNREAD, 0, 0], &[]);
                Err(error)
            }
        }
    }
}
