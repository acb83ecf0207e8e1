//! Memory is refused once, anywhere: what asked for it has changed nothing and is asked again, and all comes out as it is told.
//! Where nothing is refused the cases show what reports show; `tests/refuse-memory` refuses each request for memory in turn.

mod day;
mod worlds;

use case_files::{CaseFile, Subject, Told, cut};
use day::{Day, day_at_last};
use input_text::split_word;
use std::alloc::Global;

/// Rows of cases of refused memory over the days of these files, none of whose requests is refused.
#[derive(Drop)]
pub(crate) struct Refused<'a> {
    pub(crate) files: &'a [CaseFile],
}

impl Subject for Refused<'_> {
    fn tell(&mut self, told: &mut Told, alloc: Global, word: &str, argument: &[u8]) {
        let (name, _) = split_word(argument).unwrap_or((argument, b""));
        for file in self.files {
            if file.ending() == "day" && file.stem().as_bytes() == name {
                match is_as_told(alloc, word, file.bytes()) {
                    Some(same) => told.truth(same),
                    None => told.refuse(),
                }
            }
        }
    }
}

/// Whether a case over a day comes out as it is told; none where there is no such case.
pub(crate) fn is_as_told(alloc: Global, name: &str, text: &[u8]) -> Option<bool> {
    match cut(text, b"\n===\n") {
        Some((input, outcome)) => match day_at_last(alloc, input, outcome) {
            Some(day) => goes_on(alloc, name, &day),
            None => Some(false),
        },
        None => None,
    }
}

/// Whether a case over a day goes on after a refusal.
fn goes_on(alloc: Global, name: &str, day: &Day<'_>) -> Option<bool> {
    match name {
        "steps" => Some(worlds::in_steps(alloc, day)),
        "runs" => Some(worlds::in_runs(alloc, day)),
        _ => None,
    }
}
