//! What is asked.

ghost use Rattle.std.specs.Prelude.{◌≡◌, codes};
ghost use Rattle.clap.specs.Words.{found_of};
ghost use Rattle.audit_words.specs.Asked.{asked_by, asked_in, asked_within, is_plain, logs_asked, one_or_other, report_asked, scope_in};

use crate::choosing::fitting;
use crate::found::{count_of, is_given};
use crate::logs::way_in;
use crate::reports::{other_tables, report_in};
use claim_reports::Report;
use clap::ArgMatches;
use log_audit::Form;

/// What is asked.
#[derive(Clone, Copy)]
pub enum Asked {
    /// What logs are judged to be.
    Verdict(Judging),
    /// The records of logs as a table.
    Calls,
    /// A report on tables.
    Report(Report),
}

/// As what logs are judged.
#[derive(Clone, Copy, PartialEq, Eq)]
pub enum Scope {
    /// As those of one legal run.
    Run,
    /// Each by itself: that its node makes it, with nothing judged of other nodes.
    Each,
    /// As those of days that begin where the logs begin, each packet vouched for by what journals and books then say.
    Days,
}

/// As what logs are judged, and how that is told.
#[derive(Clone, Copy, PartialEq, Eq)]
pub struct Judging {
    /// As what they are judged.
    pub scope: Scope,
    /// How it is told.
    pub form: Form,
}

/// What is asked by the words that were found of a command line: where they ask for a report, that and nothing else, of as many
/// tables as it has; else what is asked of logs, of which there is one at least. None where they do not fit each other.
pub fn asked_in(matches: &ArgMatches<'_>) -> Option<Asked>
    ensures { result ≡ asked_in (found_of matches.now) }
{
    asked_by(matches, report_in(matches))
}

/// What is asked, where it was found which report is asked for, if one is.
fn asked_by(matches: &ArgMatches<'_>, found: Option<Option<Report>>) -> Option<Asked>
    ensures { result ≡ asked_by (found_of matches.now) found }
{
    match found {
        Some(report) => one_or_other(matches, report),
        None => None,
    }
}

/// What is asked where this report is asked for, or none.
fn one_or_other(matches: &ArgMatches<'_>, report: Option<Report>) -> Option<Asked>
    ensures { result ≡ one_or_other (found_of matches.now) report }
{
    match report {
        Some(report) => report_asked(matches, report),
        None => logs_asked(matches),
    }
}

/// A report, where nothing else is asked for, and its tables are given.
fn report_asked(matches: &ArgMatches<'_>, report: Report) -> Option<Asked>
    ensures { result ≡ report_asked (found_of matches.now) report }
{
    if !is_plain(scope_in(matches)) || way_in(matches, Scope::Run)?.is_some() {
        return None;
    }
    if count_of(matches, "LOG") == other_tables(report) {
        Some(Asked::Report(report))
    } else {
        None
    }
}

/// What is asked of logs, of which there is one at least.
fn logs_asked(matches: &ArgMatches<'_>) -> Option<Asked>
    ensures { result ≡ logs_asked (found_of matches.now) }
{
    if count_of(matches, "LOG") == 0 {
        return None;
    }
    asked_within(matches, scope_in(matches)?)
}

/// What is asked of logs in a scope: the lines of a verdict where no word asks for another way of telling.
fn asked_within(matches: &ArgMatches<'_>, scope: Scope) -> Option<Asked>
    ensures { result ≡ asked_within (found_of matches.now) scope }
{
    match fitting(way_in(matches, scope)?)? {
        Some(asked) => Some(asked),
        None => Some(Asked::Verdict(Judging {
            scope,
            form: Form::Lines,
        })),
    }
}

/// As what logs are judged. None where two words ask for two things.
fn scope_in(matches: &ArgMatches<'_>) -> Option<Scope>
    ensures { result ≡ scope_in (found_of matches.now) }
{
    match (is_given(matches, "alone"), is_given(matches, "days")) {
        (false, false) => Some(Scope::Run),
        (true, false) => Some(Scope::Each),
        (false, true) => Some(Scope::Days),
        (true, true) => None,
    }
}

/// Whether no word says as what logs are judged.
fn is_plain(scope: Option<Scope>) -> bool
    ensures { result ≡ is_plain scope }
{
    match scope {
        Some(Scope::Run) => true,
        _ => false,
    }
}
