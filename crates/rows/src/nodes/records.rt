//! What holds of each kind of record, a book's or a journal's: what its beginnings come to, and what it comes to with one
//! byte changed.

use crate::arguments::are_same;
use case_files::Told;
use kept_records::RecordFault;
use std::alloc::Global;

/// A text with one byte replaced.
pub(crate) fn with_byte(alloc: Global, text: &[u8], place: usize, byte: u8) -> Option<Vec<u8>> {
    match Vec::from_slice(alloc, text) {
        Ok(text) => Some(put_byte(text, place, byte)),
        Err(_) => None,
    }
}

/// The same of a text that is owned.
fn put_byte(mut text: Vec<u8>, place: usize, byte: u8) -> Vec<u8> {
    if place < text.len() {
        text[place] = byte;
    }
    text
}

/// A kind of record.
pub(crate) trait Kind {
    /// The text of what bytes are read as.
    fn rewritten(&self, alloc: Global, bytes: &[u8]) -> Result<Vec<u8>, RecordFault>;
}

/// A fault, or none, and how often it came one after the other.
#[derive(Clone, Copy)]
struct Streak {
    fault: Option<RecordFault>,
    count: u64,
}

/// Tells a streak, `COUNT*FAULT`.
fn tell_streak(told: &mut Told, streak: Streak) {
    match streak.fault {
        Some(fault) => {
            told.shown(streak.count);
            told.word("times");
            told.named(fault);
        }
        None => told.field("taken", streak.count),
    }
}

/// The streak with one more. One that ends is told.
fn lengthen(told: &mut Told, streak: Streak, fault: Option<RecordFault>) -> Streak {
    if streak.count == 0 || streak.fault == fault {
        return Streak {
            fault,
            count: streak.count.saturating_add(1),
        };
    }
    tell_streak(told, streak);
    Streak { fault, count: 1 }
}

/// Tells what each beginning of the bytes comes to, from none of them to all but one.
pub(crate) fn beginnings<K: Kind>(told: &mut Told, alloc: Global, kind: &K, bytes: &[u8]) {
    let mut streak = Streak {
        fault: None,
        count: 0,
    };
    for length in 0..bytes.len() {
        let fault = kind.rewritten(alloc, &bytes[..length]).err();
        streak = lengthen(told, streak, fault);
    }
    tell_streak(told, streak);
}

/// How many texts were taken, and how many refused.
#[derive(Clone, Copy)]
struct Count {
    taken: u64,
    refused: u64,
}

/// Tells how many of the texts are taken that have another byte at one place. Each that is taken has to be the text of what
/// it is read as, but for the version.
pub(crate) fn alter_each<K: Kind>(told: &mut Told, alloc: Global, kind: &K, bytes: &[u8]) {
    let mut count = Count {
        taken: 0,
        refused: 0,
    };
    for place in 0..bytes.len() {
        for byte in [0, 1, 0x1c, 0x7f, 0xff] {
            match with_byte(alloc, bytes, place, byte) {
                Some(text) => count = judge(told, alloc, kind, text.as_slice(), count),
                None => told.refuse(),
            }
        }
    }
    told.field("taken", count.taken);
    told.field("refused", count.refused);
}

/// Counts a text that has another byte somewhere.
fn judge<K: Kind>(told: &mut Told, alloc: Global, kind: &K, bytes: &[u8], count: Count) -> Count {
    match kind.rewritten(alloc, bytes) {
        Ok(text) => {
            compare(told, text.as_slice(), bytes);
            Count {
                taken: count.taken.saturating_add(1),
                refused: count.refused,
            }
        }
        Err(RecordFault::OutOfMemory) => {
            told.refuse();
            count
        }
        Err(_) => Count {
            taken: count.taken,
            refused: count.refused.saturating_add(1),
        },
    }
}

/// Tells bytes that were read and are not the text of what they are read as, but for the version in their third byte.
fn compare(told: &mut Told, text: &[u8], bytes: &[u8]) {
    match (text, bytes) {
        ([t0, t1, 2, text @ ..], [b0, b1, _, bytes @ ..])
            if t0 == b0 && t1 == b1 && are_same(text, bytes) => {}
        _ => {
            told.word("not-its-text");
            told.bytes(bytes);
        }
    }
}
