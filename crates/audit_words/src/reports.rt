//! Which report on tables is asked for.

ghost use Rattle.std.specs.Prelude.{◌≡◌};
ghost use Rattle.clap.specs.Words.{found_of};
ghost use Rattle.audit_words.specs.Reports.{between_in, by_named, daily_in, daily_named, choice_in, compare_in, days_in, other_tables, receipts_in, remittance_in, placed_named, remittance_named, remittances_in, report_in, ruled_in, totals_by, totals_in};

use crate::choosing::{fitting, one_of};
use crate::found::{books_of, is_given, is_there, number_of, wanted, wanted_books};
use claim_reports::{Between, Books, By, Choice, DailyRemittance, Days, Remittance, Report};
use clap::ArgMatches;

/// The report that is asked for, if one is. None at all where several are, or words do not fit it.
pub(crate) fn report_in(matches: &ArgMatches<'_>) -> Option<Option<Report>>
    ensures { result ≡ report_in (found_of matches.now) }
{
    let compare = compare_in(matches);
    let receipts = receipts_in(matches);
    let ruled = ruled_in(matches);
    let totals = totals_in(matches);
    let remittance = remittances_in(matches);
    if totals.is_none() && is_given(matches, "by-ruling") {
        return None;
    }
    let them = [compare, receipts, ruled, totals, remittance];
    fitting(one_of(&them)?)
}

/// How many tables a report has after the first.
pub(crate) fn other_tables(report: Report) -> usize
    ensures { result ≡ other_tables report }
{
    match report {
        Report::Compare(_) => 2,
        Report::Receipts(_) => 2,
        Report::Ruled => 1,
        Report::Totals(_, _, _) => 0,
        Report::Lines(_) => 0,
        Report::Sums(_) => 0,
        Report::DailyLines(_) => 0,
        Report::DailySums(_) => 0,
    }
}

/// A comparison, where it is asked for; none of its own where other words do not fit it.
fn compare_in(matches: &ArgMatches<'_>) -> Option<Option<Report>>
    ensures { result ≡ compare_in (found_of matches.now) }
{
    if !is_given(matches, "compare") {
        return None;
    }
    match between_in(matches) {
        Some(between) => Some(Some(Report::Compare(between))),
        None => Some(None),
    }
}

/// Receipts beside a run, where they are asked for.
fn receipts_in(matches: &ArgMatches<'_>) -> Option<Option<Report>>
    ensures { result ≡ receipts_in (found_of matches.now) }
{
    if !is_given(matches, "receipts") {
        return None;
    }
    match wanted(matches, "pharmacy") {
        Some(pharmacy) => Some(Some(Report::Receipts(pharmacy))),
        None => Some(None),
    }
}

/// When rows were ruled, where it is asked for.
fn ruled_in(matches: &ArgMatches<'_>) -> Option<Option<Report>>
    ensures { result ≡ ruled_in (found_of matches.now) }
{
    if is_given(matches, "ruled") {
        Some(Some(Report::Ruled))
    } else {
        None
    }
}

/// Totals, where they are asked for.
fn totals_in(matches: &ArgMatches<'_>) -> Option<Option<Report>>
    ensures { result ≡ totals_in (found_of matches.now) }
{
    match matches.get_str("totals") {
        Some(by) => Some(totals_by(matches, by)),
        None => None,
    }
}

/// Totals by what this word says.
fn totals_by(matches: &ArgMatches<'_>, by: &str) -> Option<Report>
    ensures { result ≡ totals_by (found_of matches.now) by.now }
{
    let by = by_named(by.as_bytes())?;
    let choice = choice_in(matches)?;
    Some(Report::Totals(by, days_in(matches), choice))
}

/// What totals are made by.
fn by_named(word: &[u8]) -> Option<By>
    ensures { result ≡ by_named word.now }
{
    if word == b"payer".as_slice() {
        return Some(By::Payer);
    }
    if word == b"pharmacy".as_slice() {
        return Some(By::Pharmacy);
    }
    if word == b"day".as_slice() {
        return Some(By::Day);
    }
    if word == b"all".as_slice() {
        return Some(By::All);
    }
    None
}

/// Which days totals go by.
fn days_in(matches: &ArgMatches<'_>) -> Days
    ensures { result ≡ days_in (found_of matches.now) }
{
    if is_given(matches, "by-ruling") {
        Days::Ruling
    } else {
        Days::Service
    }
}

/// A remittance, where it is asked for.
fn remittances_in(matches: &ArgMatches<'_>) -> Option<Option<Report>>
    ensures { result ≡ remittances_in (found_of matches.now) }
{
    match matches.get_str("remittance") {
        Some(what) => Some(remittance_named(matches, what.as_bytes())),
        None => None,
    }
}

/// What of a remittance this word says: of one book by the places of its rulings, of several by days.
fn remittance_named(matches: &ArgMatches<'_>, what: &[u8]) -> Option<Report>
    ensures { result ≡ remittance_named (found_of matches.now) what.now }
{
    let books = wanted_books(matches, "payer")?;
    match books.one() {
        Some(payer) => placed_named(matches, what, payer),
        None => daily_named(matches, what, books),
    }
}

/// What of a remittance of several books this word says.
fn daily_named(matches: &ArgMatches<'_>, what: &[u8], books: Books) -> Option<Report>
    ensures { result ≡ daily_named (found_of matches.now) what.now books }
{
    let asked = daily_in(matches, books)?;
    if what == b"lines".as_slice() {
        return Some(Report::DailyLines(asked));
    }
    if what == b"sums".as_slice() {
        return Some(Report::DailySums(asked));
    }
    None
}

/// What of a remittance of one book this word says.
fn placed_named(matches: &ArgMatches<'_>, what: &[u8], payer: u64) -> Option<Report>
    ensures { result ≡ placed_named (found_of matches.now) what.now payer }
{
    let asked = remittance_in(matches, payer)?;
    if what == b"lines".as_slice() {
        return Some(Report::Lines(asked));
    }
    if what == b"sums".as_slice() {
        return Some(Report::Sums(asked));
    }
    None
}

/// Which books and which pharmacy are compared.
#[tactic(auto, unfolding(crate::specs::Reports::between_in))]
fn between_in(matches: &ArgMatches<'_>) -> Option<Between>
    ensures { result ≡ between_in (found_of matches.now) }
{
    Some(Between {
        books: wanted_books(matches, "payer")?,
        pharmacy: wanted(matches, "pharmacy")?,
    })
}

/// Which payments totals are about.
#[tactic(auto, unfolding(crate::specs::Reports::choice_in))]
fn choice_in(matches: &ArgMatches<'_>) -> Option<Choice>
    ensures { result ≡ choice_in (found_of matches.now) }
{
    Some(Choice {
        books: books_of(matches, "payer")?,
        pharmacy: number_of(matches, "pharmacy")?,
        from: number_of(matches, "from")?,
        to: number_of(matches, "to")?,
    })
}

/// Whose remittance it is, and of which rulings.
#[tactic(auto, unfolding(crate::specs::Reports::remittance_in))]
fn remittance_in(matches: &ArgMatches<'_>, payer: u64) -> Option<Remittance>
    ensures { result ≡ remittance_in (found_of matches.now) payer }
{
    Some(Remittance {
        payer,
        pharmacy: wanted(matches, "pharmacy")?,
        after: number_of(matches, "after")?.unwrap_or(0),
        up_to: number_of(matches, "up-to")?.unwrap_or(u64::MAX),
        owed: number_of(matches, "owed")?.unwrap_or(0),
    })
}

/// Whose remittance it is, and of which days of ruling; the places of rulings are of one book.
#[tactic(auto, unfolding(crate::specs::Reports::daily_in))]
fn daily_in(matches: &ArgMatches<'_>, books: Books) -> Option<DailyRemittance>
    ensures { result ≡ daily_in (found_of matches.now) books }
{
    if is_there(matches, "after") || is_there(matches, "up-to") {
        return None;
    }
    Some(DailyRemittance {
        books,
        pharmacy: wanted(matches, "pharmacy")?,
        from: number_of(matches, "from")?,
        to: number_of(matches, "to")?,
        owed: number_of(matches, "owed")?.unwrap_or(0),
    })
}
