//! The program `claimdump`: the input of a replay on standard input, and what its nodes would have on disk in a folder: the
//! settings, the log of each node, and the record of each journal and book.
#![tactic(auto)]

mod calls;
mod fault;
mod file;
mod files;
mod finding;
mod node_logs;
mod putting;
mod recorded;
mod words;

use crate::fault::DumpFault;
use crate::files::dump;
use crate::finding::Finding;
use crate::words::folder_of;
use command_line::{End, given_words};
use std::fs;
use std::io::Read;
use std::process::ExitCode;

/// The most bytes of an input (own): 1 GiB, since a run under wide limits has a longer schedule than `claimswitch` takes.
const MOST_INPUT: usize = 1_073_741_824;
/// How many bytes are asked for in a call.
const CHUNK: usize = 65_536;

/// Why the program ends without having written all.
type Undumped = End<Finding>;

fn main(rt: HostRuntime) -> ExitCode {
    match run(&rt) {
        Ok(()) => ExitCode::SUCCESS,
        Err(end) => end.told(&rt, "claimdump", 1),
    }
}

/// Writes the files of the replay on standard input into the folder that the command line names, which is there.
fn run(rt: &HostRuntime) -> Result<(), Undumped> {
    let alloc = rt.alloc();
    let given = given_words(rt)?;
    let folder = folder_of(alloc, given.as_slice())?;
    let input = read_input(rt)?;
    let files = match dump(alloc, input.as_slice()) {
        Ok(files) => files,
        Err(fault) => return Err(undumped(fault)),
    };
    for file in files {
        let name = &file.name;
        let path = format!(in alloc; "{folder}/{name}")?;
        if let Err(error) = fs::write(rt, path.as_str(), file.bytes.as_slice()) {
            return Err(End::of_file(alloc, path.as_str(), error));
        }
    }
    Ok(())
}

/// Why a replay has no files.
fn undumped(fault: DumpFault) -> Undumped {
    match fault {
        DumpFault::OutOfMemory => End::OutOfMemory,
        fault => End::Own(Finding::Fault(fault)),
    }
}

/// All of standard input.
fn read_input(rt: &HostRuntime) -> Result<Vec<u8>, Undumped> {
    let mut reader = rt.stdin();
    let mut chunk = Vec::from_elem(rt.alloc(), 0u8, CHUNK)?;
    let mut input = Vec::new(rt.alloc());
    for _ in 0..=MOST_INPUT {
        let count = reader.read(chunk.as_mut_slice())?;
        if count == 0 {
            return Ok(input);
        }
        if input.len().saturating_add(count) > MOST_INPUT {
            return Err(End::Own(Finding::LongInput));
        }
        input.extend_from_slice(&chunk.as_slice()[..count])?;
    }
    Err(End::Own(Finding::LongInput))
}
