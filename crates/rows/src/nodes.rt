//! Nodes one at a time, and their records.

mod book;
mod journal_at_rest;
mod journal_settings;
mod journal_text;
mod journal_told;
mod records;
mod switch;
mod transactions;

use bin_routes::{RouteRow, Routes};
use case_files::{CaseFile, Runner};
use octets::Octets;
use std::alloc::{AllocError, Global};

/// Runs a file of nodes.
pub(crate) fn check(runner: &mut Runner, file: &CaseFile) -> Result<(), AllocError> {
    let alloc = runner.alloc();
    match file.stem() {
        "book" | "book_again" | "book_text" => runner.rows(file, &mut book::Books::new()),
        "switch" => runner.rows(file, &mut switch::Switches::new(alloc)),
        _ => journals(runner, file),
    }
}

/// Runs a file of pharmacies and their journals.
fn journals(runner: &mut Runner, file: &CaseFile) -> Result<(), AllocError> {
    match file.stem() {
        "journal_at_rest" => runner.rows(file, &mut journal_at_rest::Rests::new()),
        "journal_settings" => runner.rows(file, &mut journal_settings::Limits),
        "journal_text" => runner.rows(file, &mut journal_text::Journals::new()),
        "transactions" => runner.rows(file, &mut transactions::Transactions::new()),
        _ => runner.fail(file, 0, "a file that is not known"),
    }
}

/// The routes of one row: a BIN goes to payer 1.
fn routed(alloc: Global, bin: &[u8]) -> Option<Routes> {
    match Octets::copy_of(alloc, bin) {
        Ok(bin) => Routes::new(alloc, &[RouteRow::new(bin, None, 1)], 1).ok(),
        Err(_) => None,
    }
}
