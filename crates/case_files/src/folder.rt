//! The files of a folder.

use std::alloc::{AllocError, Global};
use std::rt::Files;
use std::{fs, io};

/// A file of a folder: its name, and all its bytes.
#[derive(Drop)]
pub struct CaseFile {
    name: String,
    bytes: Vec<u8>,
}

impl CaseFile {
    /// The name without its folder.
    pub fn name(&self) -> &str {
        self.name.as_str()
    }

    /// The name up to its first dot.
    pub fn stem(&self) -> &str {
        match self.name.as_str().split_once('.') {
            Some((stem, _)) => stem,
            None => self.name.as_str(),
        }
    }

    /// The name after its first dot.
    pub fn ending(&self) -> &str {
        match self.name.as_str().split_once('.') {
            Some((_, ending)) => ending,
            None => "",
        }
    }

    /// All bytes of the file.
    pub fn bytes(&self) -> &[u8] {
        self.bytes.as_slice()
    }
}

/// The files of a folder whose names have a dot inside, by name.
pub fn read_folder<R: Files + AllocGlobal + Clone + Drop>(
    rt: &R,
    folder: &str,
) -> io::Result<Vec<CaseFile>> {
    let alloc = rt.alloc();
    let mut names = names_of(rt, folder)?;
    names.sort()?;
    let mut files = Vec::new(alloc);
    for name in names {
        let path = format!(in alloc; "{folder}/{name}")?;
        let bytes = fs::read(rt, path.as_str())?;
        files.push(CaseFile { name, bytes })?;
    }
    Ok(files)
}

/// The names of the files of a folder.
fn names_of<R: Files + AllocGlobal + Clone + Drop>(
    rt: &R,
    folder: &str,
) -> io::Result<Vec<String>> {
    let alloc = rt.alloc();
    let mut names = Vec::new(alloc);
    for entry in fs::read_dir(rt, folder)? {
        let entry = entry?;
        let name = copied(alloc, entry.path().file_name())?;
        if name.as_str().contains('.') {
            names.push(name)?;
        }
    }
    Ok(names)
}

/// A name of its own; the empty one where there is none.
fn copied(alloc: Global, name: Option<&str>) -> Result<String, AllocError> {
    String::from_str(alloc, name.unwrap_or(""))
}
