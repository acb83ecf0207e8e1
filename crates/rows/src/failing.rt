//! A flush that fails, and what else of failing reads and writes no program shows: how often a reader is called that never ends.

use case_files::{ALL, Endless, Paper, Pieces, Subject, Told};
use payer_book::HashKeys;
use program_io::{MOST_CALLS, ProgramFault, ReaderSource, Word, WriterSink};
use read_and_replay::{read_claims, replay};
use std::alloc::Global;
use std::io::Read;

/// An input, and what is written of it.
#[derive(Drop)]
pub(crate) struct Failing {
    input: Vec<u8>,
    want: Vec<u8>,
}

impl Failing {
    /// No input yet.
    pub(crate) fn new(alloc: Global) -> Failing {
        Failing {
            input: Vec::new(alloc),
            want: Vec::new(alloc),
        }
    }

    /// Tells what a writer that takes nothing leads to.
    fn nothing_taken(&self, told: &mut Told, alloc: Global, word: Word) {
        let mut reader = Pieces::new(&self.input, ALL, 0);
        let mut writer = Paper::new(alloc, 0, 0);
        told.named(run(alloc, word, &mut reader, &mut writer));
        told.field("written", writer.taken().len());
    }

    /// Tells what a flush that fails leads to, and whether all was written before it.
    fn flush_fails(&self, told: &mut Told, alloc: Global, word: Word) {
        let mut reader = Pieces::new(&self.input, ALL, 0);
        let mut writer = Paper::failing_at_its_flush(alloc);
        told.named(run(alloc, word, &mut reader, &mut writer));
        told.truth(writer.taken() == self.want.as_slice());
    }
}

impl Subject for Failing {
    fn tell(&mut self, told: &mut Told, alloc: Global, word: &str, argument: &[u8]) {
        match (word, word_named(argument)) {
            ("input", _) => take(told, alloc, argument, &mut self.input),
            ("writes", _) => take(told, alloc, argument, &mut self.want),
            ("nothing-is-taken", Some(word)) => self.nothing_taken(told, alloc, word),
            ("flush-fails", Some(word)) => self.flush_fails(told, alloc, word),
            ("never-ends", Some(word)) => never_ends(told, alloc, word),
            _ => told.refuse(),
        }
    }
}

/// Takes bytes in the place of an input or of what is written.
fn take(told: &mut Told, alloc: Global, bytes: &[u8], place: &mut Vec<u8>) {
    match Vec::from_slice(alloc, bytes) {
        Ok(bytes) => *place = bytes,
        Err(_) => told.refuse(),
    }
}

/// The program of a name, where it waits for nobody.
fn word_named(name: &[u8]) -> Option<Word> {
    match name {
        b"read" => Some(Word::Read),
        b"replay" => Some(Word::Replay),
        _ => None,
    }
}

/// One of the two programs that wait for nobody.
fn run<R: Read>(
    alloc: Global,
    word: Word,
    reader: &mut R,
    writer: &mut Paper,
) -> Result<(), ProgramFault> {
    let keys = HashKeys::fixed();
    let mut source = ReaderSource::new(reader);
    let mut sink = WriterSink::new(writer);
    match word {
        Word::Read => read_claims(alloc, &keys, &mut source, &mut sink),
        Word::Replay | Word::Run => replay(alloc, &keys, &mut source, &mut sink, &mut None),
    }
}

/// Tells what a reader that never ends leads to, and whether it was called no more often than is bounded.
fn never_ends(told: &mut Told, alloc: Global, word: Word) {
    let mut reader = Endless::new();
    let mut writer = Paper::new(alloc, ALL, 0);
    told.named(run(alloc, word, &mut reader, &mut writer));
    told.truth(reader.calls() <= MOST_CALLS);
    told.field("written", writer.taken().len());
}
