//! The words of the command line.

use crate::Unjudged;
use crate::finding::Finding;
use audit_words::{Asked, asked_in};
use command_line::{End, Program, Takes, Word};
use std::alloc::Global;

/// The program, and the words that it takes.
const PROGRAM: Program = Program {
    name: "claimaudit",
    about: "Tells whether the logs of all nodes are those of one legal run, and what that run left.",
    after: "",
    words: WORDS,
    never_with: &[],
    only_with: &[],
};

/// What the command line names.
#[derive(Drop)]
pub(crate) struct Words<'a> {
    /// The file of the settings; of a report the first table.
    pub(crate) settings: &'a str,
    /// The files of the logs; of a report the other tables.
    pub(crate) logs: Vec<&'a str>,
    /// What is asked of them.
    pub(crate) asked: Asked,
}

/// What the command line names; its first word is the program's own name.
pub(crate) fn words_of<'a>(alloc: Global, given: &'a [String]) -> Result<Words<'a>, Unjudged> {
    let matches = PROGRAM.matches(alloc, given)?;
    match (asked_in(&matches), matches.get_str("SETTINGS")) {
        (Some(asked), Some(settings)) => Ok(Words {
            settings,
            logs: Vec::from_slice(alloc, matches.get_strs("LOG").unwrap_or(&[]))?,
            asked,
        }),
        _ => Err(End::Own(Finding::Usage)),
    }
}

/// The words: what is asked of logs, the files, and the reports.
const WORDS: &[Word] = &[
    Word {
        name: "alone",
        takes: Takes::Flag,
        help: "judges each log by itself, and nothing of other nodes",
    },
    Word {
        name: "days",
        takes: Takes::Flag,
        help: "judges logs of pharmacies and payers as those of some days, from what their closed logs left on: each packet that is taken \
is what journals and books then say",
    },
    Word {
        name: "calls",
        takes: Takes::Flag,
        help: "writes the records of each log as CSV, with their times and references, and judges nothing",
    },
    Word {
        name: "csv",
        takes: Takes::Text("TABLE"),
        help: "writes a table of what the run left as CSV: payments, entries, rows, packets, counted, prices, terms, retries or caps; alone, \
payments, entries, rows, open, counted, prices, terms, retries or caps; of days the first five of these",
    },
    Word {
        name: "json",
        takes: Takes::Flag,
        help: "writes one JSON object, with all tables of what the run left",
    },
    Word {
        name: "schedule",
        takes: Takes::Flag,
        help: "writes the input of a replay of the run in place of the counts",
    },
    Word {
        name: "SETTINGS",
        takes: Takes::Place,
        help: "the settings of all nodes, a TOML file; of a report a table",
    },
    Word {
        name: "LOG",
        takes: Takes::MaybePlaces,
        help: "the log of a node, each of them once, in any order; of a report a table",
    },
    Word {
        name: "compare",
        takes: Takes::Flag,
        help: "compares tables as CSV, in place of SETTINGS and LOG: counted and entries of a pharmacy, payments of a payer",
    },
    Word {
        name: "receipts",
        takes: Takes::Flag,
        help: "looks for what callers of a pharmacy were told in tables as CSV: receipts, and entries and packets of a run",
    },
    Word {
        name: "ruled",
        takes: Takes::Flag,
        help: "writes a table as CSV with when each row was ruled, in place of SETTINGS and LOG: rows or payments of payers, \
calls of their logs",
    },
    Word {
        name: "totals",
        takes: Takes::Text("BY"),
        help: "writes the totals of a table of payments by payer, pharmacy or day, or of all in one row",
    },
    Word {
        name: "remittance",
        takes: Takes::Text("WHAT"),
        help: "writes what a payer sends a pharmacy, by its table of rows: lines or sums; of several books by days of ruling",
    },
    Word {
        name: "payer",
        takes: Takes::Text("NUMBERS"),
        help: "the payer of a report, or the numbers of its books, as 3,5-8",
    },
    Word {
        name: "pharmacy",
        takes: Takes::Text("NUMBER"),
        help: "the pharmacy of a report",
    },
    Word {
        name: "by-ruling",
        takes: Takes::Flag,
        help: "the days of totals are those on which payments were ruled, in place of dates of service",
    },
    Word {
        name: "from",
        takes: Takes::Text("DAY"),
        help: "the first day of totals, CCYYMMDD: a date of service, or a day of ruling; of a remittance of several books, too",
    },
    Word {
        name: "to",
        takes: Takes::Text("DAY"),
        help: "the last one",
    },
    Word {
        name: "after",
        takes: Takes::Text("RULING"),
        help: "how many rulings of the payer stand before a remittance of one book",
    },
    Word {
        name: "up-to",
        takes: Takes::Text("RULING"),
        help: "the last ruling of a remittance of one book",
    },
    Word {
        name: "owed",
        takes: Takes::Text("CENTS"),
        help: "what the pharmacy owed before a remittance",
    },
];
