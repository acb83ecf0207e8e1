//! What a call came to, as words.

use input_text::put_printed;
use std::alloc::Global;
use std::fmt::{Debug, Display};
use std::io::Write;

/// What the call of a row came to: words with one space between them. Where memory ran out, or the row was not
/// understood, it is refused, and stays so.
#[derive(Drop)]
pub struct Told {
    text: Vec<u8>,
    refused: bool,
}

impl Told {
    /// Nothing yet.
    pub fn new(alloc: Global) -> Told {
        Told {
            text: Vec::new(alloc),
            refused: false,
        }
    }

    /// Appends a word as it stands.
    pub fn word(&mut self, word: &str) {
        self.space();
        let done = self.text.extend_from_slice(word.as_bytes());
        self.keep(done);
    }

    /// Appends bytes in printed form; none at all are `""`.
    pub fn bytes(&mut self, bytes: &[u8]) {
        if bytes.is_empty() {
            return self.word("\"\"");
        }
        self.space();
        let done = put_printed(&mut self.text, bytes);
        self.keep(done);
    }

    /// Appends a value as it is shown to people.
    pub fn shown<D: Display + Drop>(&mut self, value: D) {
        self.space();
        let done = write!(self.text, "{value}");
        self.keep(done);
    }

    /// Appends a value by the name that its type gives it.
    pub fn named<D: Debug + Drop>(&mut self, value: D) {
        self.space();
        let done = write!(self.text, "{value:?}");
        self.keep(done);
    }

    /// Appends `NAME=VALUE`.
    pub fn field<D: Display + Drop>(&mut self, name: &str, value: D) {
        self.space();
        let done = write!(self.text, "{name}={value}");
        self.keep(done);
    }

    /// Appends `yes` or `no`.
    pub fn truth(&mut self, holds: bool) {
        self.word(if holds { "yes" } else { "no" });
    }

    /// The row is not one that can be told.
    pub fn refuse(&mut self) {
        self.refused = true;
    }

    /// Whether the row was refused.
    pub(crate) fn is_refused(&self) -> bool {
        self.refused
    }

    /// All that was told.
    pub fn as_slice(&self) -> &[u8] {
        self.text.as_slice()
    }

    /// Forgets what was told of the row before.
    pub(crate) fn clear(&mut self) {
        self.text.clear();
        self.refused = false;
    }

    /// Parts one word from the next.
    fn space(&mut self) {
        if !self.text.is_empty() {
            let done = self.text.push(b' ');
            self.keep(done);
        }
    }

    /// Refuses the row where a word had no memory.
    fn keep<E: Drop>(&mut self, done: Result<(), E>) {
        if done.is_err() {
            self.refused = true;
        }
    }
}
