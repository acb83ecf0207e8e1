//! Readers and writers which give and take pieces, or fail.

use std::alloc::Global;
use std::io;
use std::io::{Read, Write};

/// As many bytes as there are.
pub const ALL: usize = usize::MAX;

/// A reader that gives at most `most` bytes a call, and fails at the call of that number.
#[derive(Drop)]
pub struct Pieces<'a> {
    rest: &'a [u8],
    most: usize,
    fails_at: u64,
    calls: u64,
}

impl<'a> Pieces<'a> {
    /// A reader of this input. No call has the number 0.
    pub fn new(input: &'a [u8], most: usize, fails_at: u64) -> Pieces<'a> {
        Pieces {
            rest: input,
            most,
            fails_at,
            calls: 0,
        }
    }
}

impl Read for Pieces<'_> {
    fn read(&mut self, buf: &mut [u8]) -> io::Result<usize> {
        self.calls = self.calls.saturating_add(1);
        if self.calls == self.fails_at {
            return Err(io::Error::from(io::ErrorKind::Other));
        }
        let count = self.most.min(self.rest.len()).min(buf.len());
        let (front, rest) = self.rest.split_at(count);
        buf[..count].copy_from_slice(front);
        self.rest = rest;
        Ok(count)
    }
}

/// A reader that never ends.
#[derive(Drop)]
pub struct Endless {
    calls: u64,
}

impl Endless {
    /// A reader that was not called.
    pub fn new() -> Endless {
        Endless { calls: 0 }
    }

    /// How often it was called.
    pub fn calls(&self) -> u64 {
        self.calls
    }
}

impl Read for Endless {
    fn read(&mut self, buf: &mut [u8]) -> io::Result<usize> {
        self.calls = self.calls.saturating_add(1);
        let count = buf.len().min(64);
        buf[..count].fill(b'#');
        Ok(count)
    }
}

/// A writer that takes at most `most` bytes a call, fails at the write of that number, and counts its flushes.
#[derive(Drop)]
pub struct Paper {
    taken: Vec<u8>,
    most: usize,
    fails_at: u64,
    writes: u64,
    flushes: u64,
    flush_fails: bool,
}

impl Paper {
    /// A writer that took nothing yet. No write has the number 0.
    pub fn new(alloc: Global, most: usize, fails_at: u64) -> Paper {
        Paper {
            taken: Vec::new(alloc),
            most,
            fails_at,
            writes: 0,
            flushes: 0,
            flush_fails: false,
        }
    }

    /// A writer that takes all, and fails when it is flushed.
    pub fn failing_at_its_flush(alloc: Global) -> Paper {
        Paper {
            flush_fails: true,
            ..Paper::new(alloc, ALL, 0)
        }
    }

    /// What it took.
    pub fn taken(&self) -> &[u8] {
        self.taken.as_slice()
    }

    /// How often it was flushed since its last write.
    pub fn flushes(&self) -> u64 {
        self.flushes
    }
}

impl Write for Paper {
    fn write(&mut self, buf: &[u8]) -> io::Result<usize> {
        self.writes = self.writes.saturating_add(1);
        self.flushes = 0;
        if self.writes == self.fails_at {
            return Err(io::Error::from(io::ErrorKind::Other));
        }
        let count = self.most.min(buf.len());
        self.taken.extend_from_slice(&buf[..count])?;
        Ok(count)
    }

    fn flush(&mut self) -> io::Result<()> {
        if self.flush_fails {
            return Err(io::Error::from(io::ErrorKind::Other));
        }
        self.flushes = self.flushes.saturating_add(1);
        Ok(())
    }
}
