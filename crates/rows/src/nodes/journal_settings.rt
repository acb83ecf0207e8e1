//! What a pharmacy is opened with, and the limits of it.

ghost use Rattle.std.specs.Prelude.{◌≡◌, ◌≤◌, IfSome, length};

use crate::arguments::three_numbers;
use crate::nodes::journal_told::tell_settings;
use crate::telling::refused;
use case_files::{Subject, Told};
use input_text::split_word;
use pharmacy_journal::PharmacySettings;
use std::alloc::Global;

/// Settings of a provider `1234567893` and the switches 1 and 2.
#[derive(Drop)]
pub(crate) struct Limits;

impl Subject for Limits {
    fn tell(&mut self, told: &mut Told, alloc: Global, word: &str, argument: &[u8]) {
        match word {
            "open" => open(told, alloc, argument),
            _ => told.refuse(),
        }
    }
}

/// Tells a copy of the settings `QUALIFIER AGAIN TRIES CAP`, or why there are none.
fn open(told: &mut Told, alloc: Global, argument: &[u8]) {
    match split_word(argument) {
        Some(([first, second], numbers)) => open_of(told, alloc, [*first, *second], numbers),
        _ => told.refuse(),
    }
}

/// Tells a copy of the settings of a qualifier and three numbers.
fn open_of(told: &mut Told, alloc: Global, qualifier: [u8; 2], numbers: &[u8]) {
    match (three_numbers(numbers), Vec::from_slice(alloc, &[1, 2])) {
        (Some(numbers), Ok(nodes)) => open_with(told, qualifier, nodes, numbers),
        _ => told.refuse(),
    }
}

/// Tells a copy of settings with these nodes.
fn open_with(told: &mut Told, qualifier: [u8; 2], nodes: Vec<u16>, numbers: (u32, u32, u32))
    requires { length nodes.items ≤ 4294967295 }
{
    let (again, tries, cap) = numbers;
    match PharmacySettings::new(qualifier, *b"1234567893     ", nodes, again, tries, cap) {
        Ok(settings) => copied(told, &settings),
        Err(fault) => refused(told, fault),
    }
}

/// Tells a copy of settings.
fn copied(told: &mut Told, settings: &PharmacySettings) {
    match settings.copy() {
        Ok(copy) => tell_settings(told, &copy),
        Err(_) => told.refuse(),
    }
}

/// Settings of the provider `1234567893` and the switches 1 and 2, where there are some of these numbers.
pub(crate) fn pharmacy_settings(
    alloc: Global,
    again: u32,
    tries: u32,
    cap: u32,
) -> Option<PharmacySettings>
    ensures { IfSome result (λ s. length s.nodes ≡ 2) }
{
    match Vec::from_slice(alloc, &[1, 2]) {
        Ok(nodes) => {
            match PharmacySettings::new(*b"01", *b"1234567893     ", nodes, again, tries, cap) {
                Ok(settings) => Some(settings),
                Err(_) => None,
            }
        }
        Err(_) => None,
    }
}
