//! The system of a switch that keeps nothing.

ghost use Rattle.std.specs.Prelude.{◌≡◌, []};
ghost use Rattle.node_process.specs.Noting.{acts_of};

use crate::kinds::{APPENDED, CUT, FOUND, SYNCED};
use crate::machine::Machine;
use crate::streams::{hear, say};
use call_notes::Noted;
use std::alloc::Global;
use std::io;
use std::io::{Read, Write};

/// An input and an output, and no log: it is empty at each start, and what is appended to it is let go. This is for a switch alone,
/// of which no promise asks a disk (`promises_without_disks` of crash_safety): a process of it that has died is a switch that was
/// stopped and started. Acts on the log are noted as done.
#[derive(Drop)]
pub struct Diskless<I: Read + Drop, O: Write + Drop> {
    input: I,
    output: O,
    noted: Noted,
}

impl<I: Read + Drop, O: Write + Drop> Diskless<I, O> {
    /// Over an input and an output.
    pub fn new(input: I, output: O) -> Diskless<I, O>
        ensures { result.noted.notes ≡ [] }
    {
        Diskless {
            input,
            output,
            noted: Noted::new(),
        }
    }
}

impl<I: Read + Drop, O: Write + Drop> Machine for Diskless<I, O> {
    ghost acts = { λ host. acts_of host.noted.notes };

    ghost coming = { λ host. I.remaining host.input };

    fn read(&mut self, alloc: Global) -> io::Result<Vec<u8>> {
        let bytes = Vec::new(alloc);
        self.noted.note(&[FOUND, 1, 0], bytes.as_slice());
        Ok(bytes)
    }

    fn cut(&mut self, size: usize) -> io::Result<()> {
        self.noted.note(&[CUT, 1, size as u64], &[]);
        Ok(())
    }

    fn append(&mut self, bytes: &[u8]) -> io::Result<()> {
        self.noted.note(&[APPENDED, 1, 0], bytes);
        Ok(())
    }

    fn sync(&mut self) -> io::Result<()> {
        self.noted.note(&[SYNCED, 1, 0], &[]);
        Ok(())
    }

    fn say(&mut self, bytes: &[u8]) -> io::Result<()> {
        say(&mut self.output, &mut self.noted, bytes)
    }

    fn hear(&mut self, buffer: &mut [u8]) -> io::Result<usize> {
        hear(&mut self.input, &mut self.noted, buffer)
    }
}
