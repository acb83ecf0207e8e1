//! Numbers as decimal digits.

ghost use Rattle.std.specs.Prelude.{◌≤◌};

use crate::arguments::{number_first, unsigned};
use case_files::{Subject, Told};
use overpunch::{read_number, write_number};
use std::alloc::Global;

/// Rows of numbers.
#[derive(Drop)]
pub(crate) struct Numbers;

impl Subject for Numbers {
    fn tell(&mut self, told: &mut Told, _alloc: Global, word: &str, argument: &[u8]) {
        match word {
            "read" => read(told, argument),
            "write" => write(told, argument),
            _ => told.refuse(),
        }
    }
}

/// Tells the number of a field of this many digits.
fn read(told: &mut Told, argument: &[u8]) {
    match number_first(argument) {
        Some((digits @ 1..=18, text)) => read_field(told, text, digits as usize),
        _ => told.refuse(),
    }
}

/// The same of a text.
fn read_field(told: &mut Told, text: &[u8], digits: usize)
    requires some { 1 ≤ digits }
    requires room { digits ≤ 18 }
{
    match read_number(text, digits) {
        Ok(number) => told.shown(number),
        Err(fault) => told.named(fault),
    }
}

/// Tells how many bytes a number is written as, and the room of twenty bytes that it was written into.
fn write(told: &mut Told, argument: &[u8]) {
    match unsigned(argument) {
        Some(number) => {
            let mut room = [b'-'; 20];
            told.shown(write_number(number, &mut room));
            told.bytes(&room);
        }
        None => told.refuse(),
    }
}
