//! Files beside a log: what was cut off it, what it had where it lost its name, and the mark of a sync that failed.

use std::alloc::Global;
use std::fs::{File, OpenOptions};
use std::io::{ErrorKind, Read, Seek, SeekFrom, Write};
use std::os::unix::fs::OpenOptionsExt;
use std::{fs, io};

/// The most files beside one log that end alike.
const MOST_FILES: u32 = 1_000;

/// Keeps what stands in a file after this many bytes in a new file beside it, and says so on standard error: at the name of the
/// log with `.cut-` and the place after it. Its bytes and its name are on disk then.
pub fn keep_end(rt: &HostRuntime, path: &str, size: u64) -> io::Result<()> {
    let bytes = fs::read(rt, path)?;
    let Some(end) = bytes.get(size as usize..) else {
        return Ok(());
    };
    let ending = format!(in rt.alloc(); ".cut-{size}")?;
    let (name, mut file) = new_beside(rt, path, ending.as_str())?;
    file.write_all(end)?;
    file.sync_all()?;
    sync_folder(rt, path)?;
    let count = end.len();
    let _ = eprintln!(rt;
        "claimnode: {count} bytes behind byte {size} are cut off, and kept in {name}"
    );
    Ok(())
}

/// Keeps all that the file of a log has, which has lost its name, in a new file beside its place, and says so on standard error.
pub(crate) fn keep_all(rt: &HostRuntime, path: &str, file: &File) -> io::Result<()> {
    let mut log = file;
    let mut bytes = Vec::new(rt.alloc());
    log.seek(SeekFrom::Start(0))?;
    log.read_to_end(&mut bytes)?;
    let (name, mut kept) = new_beside(rt, path, ".removed")?;
    kept.write_all(bytes.as_slice())?;
    kept.sync_all()?;
    sync_folder(rt, path)?;
    let _ = eprintln!(rt; "claimnode: what the log had is kept in {name}");
    Ok(())
}

/// Has the names in the folder of a file on disk.
pub fn sync_folder(rt: &HostRuntime, path: &str) -> io::Result<()> {
    let folder = match path.rfind('/') {
        Some(0) => "/",
        Some(place) => &path[..place],
        None => ".",
    };
    File::open(rt, folder)?.sync_all()
}

/// A file beside a log that was not there, with its name: that of the log, this ending, and from the second on its number.
fn new_beside(rt: &HostRuntime, path: &str, ending: &str) -> io::Result<(String, File)> {
    for number in 1..=MOST_FILES {
        let name = name_of(rt.alloc(), path, ending, number)?;
        match private_file()
            .write(true)
            .create_new(true)
            .open(rt, name.as_str())
        {
            Ok(file) => return Ok((name, file)),
            Err(error) => {
                if error.kind() != ErrorKind::AlreadyExists {
                    return Err(error);
                }
            }
        }
    }
    Err(io::Error::new(
        ErrorKind::AlreadyExists,
        "too many files with that ending stand beside the log",
    ))
}

/// The name of the file of that number.
fn name_of(alloc: Global, path: &str, ending: &str, number: u32) -> io::Result<String> {
    match number {
        1 => Ok(format!(in alloc; "{path}{ending}")?),
        _ => Ok(format!(in alloc; "{path}{ending}-{number}")?),
    }
}

/// The name of the mark of a log whose sync failed. While it is there the log is not to be opened: the system may show bytes
/// that are on no disk.
pub fn mark_of_failed_sync(alloc: Global, path: &str) -> io::Result<String> {
    Ok(format!(in alloc; "{path}.sync-failed")?)
}

/// Leaves the mark of a log whose sync failed.
pub fn leave_mark(rt: &HostRuntime, path: &str) -> io::Result<()> {
    let name = mark_of_failed_sync(rt.alloc(), path)?;
    let mut file = private_file()
        .write(true)
        .create(true)
        .open(rt, name.as_str())?;
    file.write_all(b"a sync of the log failed\n")?;
    file.sync_all()
}

/// How a file is made that nobody else may read.
fn private_file() -> OpenOptions {
    let mut options = OpenOptions::new();
    options.mode(0o600);
    options
}
