//! What is asked of logs.

ghost use Rattle.std.specs.Prelude.{◌≡◌};
ghost use Rattle.clap.specs.Words.{found_of};
ghost use Rattle.audit_words.specs.Logs.{calls_in, changes_in, changes_named, csv_in, csv_named, judged, json_in, last_table, not_of_days, of_run, one_table, schedule_in, table_named, way_in};

use crate::asked::{Asked, Judging, Scope};
use crate::choosing::one_of;
use crate::found::is_given;
use clap::ArgMatches;
use log_audit::{Changes, Form, Table};

/// In which way logs are told of, if a word asks for one. None at all where several are asked for.
pub(crate) fn way_in(matches: &ArgMatches<'_>, scope: Scope) -> Option<Option<Option<Asked>>>
    ensures { result ≡ way_in (found_of matches.now) scope }
{
    let calls = calls_in(matches, scope);
    let json = json_in(matches, scope);
    let schedule = schedule_in(matches, scope);
    let csv = csv_in(matches, scope);
    let them = [calls, json, schedule, csv];
    one_of(&them)
}

/// That logs are judged in a scope, and told of in a form.
fn judged(scope: Scope, form: Form) -> Asked
    ensures { result ≡ judged scope form }
{
    Asked::Verdict(Judging { scope, form })
}

/// What is asked of the logs of a run alone.
fn of_run(scope: Scope, asked: Asked) -> Option<Asked>
    ensures { result ≡ of_run scope asked }
{
    match scope {
        Scope::Run => Some(asked),
        Scope::Each => None,
        Scope::Days => None,
    }
}

/// What is asked of all logs but those of days.
fn not_of_days(scope: Scope, asked: Asked) -> Option<Asked>
    ensures { result ≡ not_of_days scope asked }
{
    match scope {
        Scope::Run => Some(asked),
        Scope::Each => Some(asked),
        Scope::Days => None,
    }
}

/// The records of logs, where they are asked for.
fn calls_in(matches: &ArgMatches<'_>, scope: Scope) -> Option<Option<Asked>>
    ensures { result ≡ calls_in (found_of matches.now) scope }
{
    if is_given(matches, "calls") {
        Some(of_run(scope, Asked::Calls))
    } else {
        None
    }
}

/// An object of JSON, where it is asked for.
fn json_in(matches: &ArgMatches<'_>, scope: Scope) -> Option<Option<Asked>>
    ensures { result ≡ json_in (found_of matches.now) scope }
{
    if is_given(matches, "json") {
        Some(not_of_days(scope, judged(scope, Form::Json)))
    } else {
        None
    }
}

/// A schedule, where it is asked for.
fn schedule_in(matches: &ArgMatches<'_>, scope: Scope) -> Option<Option<Asked>>
    ensures { result ≡ schedule_in (found_of matches.now) scope }
{
    if is_given(matches, "schedule") {
        Some(of_run(scope, judged(scope, Form::Schedule)))
    } else {
        None
    }
}

/// A table, where one is asked for.
fn csv_in(matches: &ArgMatches<'_>, scope: Scope) -> Option<Option<Asked>>
    ensures { result ≡ csv_in (found_of matches.now) scope }
{
    match matches.get_str("csv") {
        Some(name) => Some(csv_named(scope, name.as_bytes())),
        None => None,
    }
}

/// The table of this name.
fn csv_named(scope: Scope, name: &[u8]) -> Option<Asked>
    ensures { result ≡ csv_named scope name.now }
{
    if let Some(of) = changes_in(scope, name) {
        return Some(judged(scope, Form::Changes(of)));
    }
    let table = table_named(scope, name)?;
    Some(judged(scope, Form::Csv(table)))
}

/// The changes of this name, which are not told of days.
fn changes_in(scope: Scope, name: &[u8]) -> Option<Changes>
    ensures { result ≡ changes_in scope name.now }
{
    match scope {
        Scope::Run => changes_named(name),
        Scope::Each => changes_named(name),
        Scope::Days => None,
    }
}

/// The changes of this name.
fn changes_named(name: &[u8]) -> Option<Changes>
    ensures { result ≡ changes_named name.now }
{
    if name == b"prices".as_slice() {
        return Some(Changes::Prices);
    }
    if name == b"terms".as_slice() {
        return Some(Changes::Terms);
    }
    if name == b"retries".as_slice() {
        return Some(Changes::Retries);
    }
    if name == b"caps".as_slice() {
        return Some(Changes::Caps);
    }
    None
}

/// The table of a name, of those of all scopes or of its own.
fn table_named(scope: Scope, name: &[u8]) -> Option<Table>
    ensures { result ≡ table_named scope name.now }
{
    if name == b"payments".as_slice() {
        return Some(Table::Payments);
    }
    if name == b"entries".as_slice() {
        return Some(Table::Entries);
    }
    if name == b"rows".as_slice() {
        return Some(Table::Rows);
    }
    if name == b"counted".as_slice() {
        return Some(Table::Counted);
    }
    last_table(scope, name)
}

/// The table that a scope has of its own: of a run its packets, else the entries without an answer.
fn last_table(scope: Scope, name: &[u8]) -> Option<Table>
    ensures { result ≡ last_table scope name.now }
{
    match scope {
        Scope::Run => one_table(name, b"packets", Table::Packets),
        Scope::Each => one_table(name, b"open", Table::Open),
        Scope::Days => one_table(name, b"open", Table::Open),
    }
}

/// A table, where this is its name.
fn one_table(name: &[u8], own: &[u8], table: Table) -> Option<Table>
    ensures { result ≡ one_table name.now own.now table }
{
    if name == own { Some(table) } else { None }
}
