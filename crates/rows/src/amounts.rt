//! Signed amounts of money, whose last digit carries the sign.

use crate::arguments::signed;
use case_files::{Subject, Told};
use overpunch::{Amount, AmountFault};
use std::alloc::Global;

/// Rows of amounts.
#[derive(Drop)]
pub(crate) struct Amounts;

impl Subject for Amounts {
    fn tell(&mut self, told: &mut Told, _alloc: Global, word: &str, argument: &[u8]) {
        match word {
            "read" => read(told, argument),
            "write" => write(told, argument),
            _ => told.refuse(),
        }
    }
}

/// Tells the cents of an amount.
fn read(told: &mut Told, text: &[u8]) {
    match cents_of(text) {
        Ok(cents) => told.shown(cents),
        Err(fault) => told.named(fault),
    }
}

/// The cents of an amount.
fn cents_of(text: &[u8]) -> Result<i64, AmountFault> {
    match Amount::read(text) {
        Ok(amount) => Ok(amount.cents()),
        Err(fault) => Err(fault),
    }
}

/// Tells how many bytes an amount is written as, and the room of eight bytes that it was written into.
fn write(told: &mut Told, argument: &[u8]) {
    match signed(argument) {
        Some(cents) => write_cents(told, cents),
        None => told.refuse(),
    }
}

/// The same for this many cents, where they are an amount.
fn write_cents(told: &mut Told, cents: i64) {
    match Amount::new(cents) {
        Some(amount) => {
            let mut room = [b'-'; 8];
            told.shown(amount.write(&mut room));
            told.bytes(&room);
        }
        None => told.word("no amount"),
    }
}
