//! Billings and reversals that are written from their parts.

use crate::arguments::{amount_of, number_first, two_first};
use case_files::{Subject, Told};
use claim_profile::{Amount, BillingParts, BuildFault, ReversalParts, billing, reversal};
use d0_header::RequestHeader;
use input_text::split_word;
use std::alloc::Global;

/// Rows of billings and reversals.
#[derive(Drop)]
pub(crate) struct Building;

impl Subject for Building {
    fn tell(&mut self, told: &mut Told, alloc: Global, word: &str, argument: &[u8]) {
        match word {
            "billing" => bill(told, alloc, argument),
            "reversal" => reverse(told, alloc, argument),
            "reversal-of-any-fill" => reverse_any(told, alloc, argument),
            _ => told.refuse(),
        }
    }
}

/// A header, and what stands after it and a space.
fn header_first(argument: &[u8]) -> Option<(RequestHeader, &[u8])> {
    match argument.split_at_checked(57) {
        Some((front, rest)) => match RequestHeader::read(front) {
            Ok(header) => Some((header, rest)),
            Err(_) => None,
        },
        None => None,
    }
}

/// Tells a billing of a header, a prescription, a fill, a quantity, a cost, a fee, a cardholder and a product.
fn bill(told: &mut Told, alloc: Global, argument: &[u8]) {
    match header_first(argument) {
        Some((header, rest)) => match billing_of(header, rest) {
            Some(parts) => tell_built(told, billing(alloc, &parts)),
            None => told.refuse(),
        },
        None => told.refuse(),
    }
}

/// The parts of a billing.
fn billing_of(header: RequestHeader, argument: &[u8]) -> Option<BillingParts<'_>> {
    match dispensed(argument) {
        Some((prescription, fill, quantity, rest)) => match asked(rest) {
            Some((cost, fee, texts)) => match split_word(texts) {
                Some((cardholder, product)) => Some(BillingParts {
                    header,
                    cardholder,
                    prescription,
                    fill,
                    product,
                    quantity,
                    cost,
                    fee,
                }),
                None => None,
            },
            None => None,
        },
        None => None,
    }
}

/// A prescription, a fill and a quantity, and what stands after them.
fn dispensed(argument: &[u8]) -> Option<(u64, u8, u64, &[u8])> {
    match two_first(argument) {
        Some((prescription, fill @ 0..=255, rest)) => match number_first(rest) {
            Some((quantity, rest)) => Some((prescription, fill as u8, quantity, rest)),
            None => None,
        },
        _ => None,
    }
}

/// A cost and a fee, and what stands after them.
fn asked(argument: &[u8]) -> Option<(Amount, Amount, &[u8])> {
    match two_first(argument) {
        Some((cost, fee, rest)) => match (amount_of(cost), amount_of(fee)) {
            (Some(cost), Some(fee)) => Some((cost, fee, rest)),
            _ => None,
        },
        None => None,
    }
}

/// Tells a reversal of a header, a prescription, a fill and a product.
fn reverse(told: &mut Told, alloc: Global, argument: &[u8]) {
    match header_first(argument) {
        Some((header, rest)) => match two_first(rest) {
            Some((prescription, fill @ 0..=255, product)) => {
                let fill = Some(fill as u8);
                let parts = ReversalParts {
                    header,
                    prescription,
                    fill,
                    product,
                };
                tell_built(told, reversal(alloc, &parts));
            }
            _ => told.refuse(),
        },
        None => told.refuse(),
    }
}

/// Tells a reversal of a header, a prescription and a product.
fn reverse_any(told: &mut Told, alloc: Global, argument: &[u8]) {
    match header_first(argument) {
        Some((header, rest)) => match number_first(rest) {
            Some((prescription, product)) => {
                let parts = ReversalParts {
                    header,
                    prescription,
                    fill: None,
                    product,
                };
                tell_built(told, reversal(alloc, &parts));
            }
            None => told.refuse(),
        },
        None => told.refuse(),
    }
}

/// Tells a text that was written, or why none was.
fn tell_built(told: &mut Told, built: Result<Vec<u8>, BuildFault>) {
    match built {
        Ok(text) => told.bytes(text.as_slice()),
        Err(fault) => told.named(fault),
    }
}
