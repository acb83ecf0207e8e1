//! What is told of logs.

pub(crate) mod ledger;
pub(crate) mod left;
pub(crate) mod object;
pub(crate) mod paid;
pub(crate) mod scheduling;

ghost use Rattle.std.specs.Prelude.{◌≡◌, ◌++◌, codes, map, IfOk, IsOkAnd, OnOk};
ghost use Rattle.world_setup.specs.Seen.{event_seen};
ghost use Rattle.node_log.specs.LogSeen.{log_seen, logs_seen};
ghost use Rattle.table_text.specs.Adding.{Adds};
ghost use Rattle.log_audit.specs.ChangeTables.{run_changes_csv};
ghost use Rattle.log_audit.specs.Judged.{IsFound, IsLeft, IsTold};
ghost use Rattle.log_audit.specs.Tabled.{run_csv};
ghost use Rattle.log_audit.specs.Telling.{log_line, log_lines, legal_line, run_lines, run_object, IsSchedule, IsTextOf, IsNoRunLines, IsNoRunObject, IsUntold, IsWritten};
ghost use Rattle.log_audit.specs.Outgoing.{Puts, PutsSome};

use crate::fault::AuditFault;
use crate::judging::reasons::reasons;
use crate::judging::{Found, LegalRun, run_alone, run_and_world};
use crate::outgoing::{Outgoing, TextSink};
use crate::reading::Audited;
use crate::report::left::{put_left_counts, put_left_table, tells_senders};
use crate::report::object::{no_run_object, put_run_object, torn_at};
use crate::report::scheduling::scheduled;
use crate::revisions::tables::{Changes, run_changes_csv};
use crate::sentences::{Manner, Piece, put_pieces};
use crate::tables::table::Table;
use node_log::NodeLog;
use std::alloc::{AllocError, Global};
use world_setup::CheckedSettings;

/// What is told of logs, and whether they are those of a legal run.
#[derive(Drop)]
pub struct Report {
    /// The lines.
    pub text: Vec<u8>,
    /// Whether there is such a run.
    pub legal: bool,
}

/// How logs are told of.
#[derive(Clone, Copy, PartialEq, Eq)]
pub enum Form {
    /// A line for each log, then `one legal run of N events` and what it left, or `no legal run` and why. Of logs one by one
    /// whether the node of each makes it, and what the node has, after its line.
    Lines,
    /// The same as one object of JSON, with all tables of what the run left, or of what the nodes have.
    Json,
    /// A table of what the run left, or of what the nodes have, as CSV; nothing where there is none, or a node does not make its
    /// log.
    Csv(Table),
    /// The changes of payers' plans, of pharmacies' rules of retries or of switches' caps, as CSV; nothing where there is no table.
    Changes(Changes),
    /// The input of a replay of the run; the lines where there is none.
    Schedule,
}

/// Judges the logs and tells what they are, in the form that is asked for.
///
/// # Errors
/// `OutOfMemory`; `NoLine` where a schedule is asked for and the run has none.
#[tactic(auto, using(crate::proofs::RunTexts::put_whole))]
pub fn report_on(alloc: Global, audited: Audited, form: Form) -> Result<Report, AuditFault>
    // It is said that there is a run exactly where some events are a legal interleaving of the logs.
    ensures told { IfOk result (λ report. IsTold audited.settings (logs_seen audited.logs.items) report.legal) }
    // What is written is told of such a run and of the world that it leaves, or says why there is none.
    ensures text { IfOk result (λ report. IsWritten audited form report.legal report.text.items) }
{
    let mut out = Outgoing::new(alloc, Vec::new(alloc));
    let legal = put_report(alloc, audited, form, &mut out)?;
    let text = out.finish()?;
    Ok(Report { text, legal })
}

/// Judges the logs and puts what is told of them, in the form that is asked for; whether they are those of a legal run. The
/// rows of tables go out as they are made.
///
/// # Errors
/// Those of `report_on`.
#[tactic(auto, using(crate::proofs::RunTexts::run_put))]
pub fn put_report<K: TextSink + Drop>(
    alloc: Global,
    audited: Audited,
    form: Form,
    out: &mut Outgoing<K>,
) -> Result<bool, AuditFault>
    // It is said that there is a run exactly where some events are a legal interleaving of the logs.
    ensures told { IfOk result (λ legal. IsTold audited.settings (logs_seen audited.logs.items) legal) }
    // What is put is told of such a run and of the world that it leaves, or says why there is none.
    ensures text { IfOk result (λ legal. PutsSome (IsWritten audited form legal) out.old out.new) }
{
    match found_for(alloc, &audited, form)? {
        Found::Run(found) => {
            put_run(alloc, audited, found, form, out)?;
            Ok(true)
        }
        Found::NoRun => {
            put_no_run(alloc, &audited, form, out)?;
            Ok(false)
        }
    }
}

/// What is found of logs, with the world of a run where this form tells of one alone.
fn found_for(alloc: Global, audited: &Audited, form: Form) -> Result<Found, AllocError>
    ensures { IfOk result (λ found. IsFound audited.now.settings (logs_seen audited.now.logs.items) found) }
{
    if wants_world(form) {
        run_and_world(alloc, &audited.settings, audited.logs.as_slice())
    } else {
        run_alone(alloc, &audited.settings, audited.logs.as_slice())
    }
}

/// Whether the world of a run is all that is told in this form. Which event sent a packet only making the events tells, and
/// changes and schedules are told of events.
fn wants_world(form: Form) -> bool {
    match form {
        Form::Lines => true,
        Form::Json => false,
        Form::Csv(table) => !tells_senders(table),
        Form::Changes(_) => false,
        Form::Schedule => false,
    }
}

/// Puts the text that is told of this run.
#[tactic(auto, using(crate::proofs::RunTexts::made_put, crate::proofs::RunTexts::text_put))]
fn put_run<K: TextSink + Drop>(
    alloc: Global,
    audited: Audited,
    run: LegalRun,
    form: Form,
    out: &mut Outgoing<K>,
) -> Result<(), AuditFault>
    requires { IsLeft audited.settings run }
    ensures { OnOk result (PutsSome (IsTextOf audited (map event_seen run.events.items) form) out.old out.new) }
{
    match form {
        Form::Lines => put_made(out, run_lines(alloc, audited, run)),
        Form::Json => put_object_of(alloc, audited, run, out),
        Form::Csv(table) => put_table_of(alloc, audited, run, table, out),
        Form::Changes(of) => put_made(out, changes_of(alloc, audited, run, of)),
        Form::Schedule => put_made(out, schedule_of(alloc, audited, run)),
    }
}

/// Puts a text that was made whole.
fn put_made<K: TextSink + Drop>(
    out: &mut Outgoing<K>,
    made: Result<Vec<u8>, AuditFault>,
) -> Result<(), AuditFault>
    ensures { OnOk result (IsOkAnd made (λ text. Puts out.old out.new text.items)) }
{
    let text = made?;
    out.put_text(text.as_slice())?;
    Ok(())
}

/// Puts the text that says that there is no legal run, and why.
#[tactic(auto, using(crate::proofs::RunTexts::made_put))]
fn put_no_run<K: TextSink + Drop>(
    alloc: Global,
    audited: &Audited,
    form: Form,
    out: &mut Outgoing<K>,
) -> Result<(), AuditFault>
    ensures { OnOk result (PutsSome (IsUntold audited.now form) out.old out.new) }
{
    put_made(out, no_run_text(alloc, audited, form))
}

/// The text that says that there is no legal run, and why.
fn no_run_text(alloc: Global, audited: &Audited, form: Form) -> Result<Vec<u8>, AuditFault>
    ensures { IfOk result (λ text. IsUntold audited.now form text.items) }
{
    match form {
        Form::Lines => no_run_lines(alloc, audited),
        Form::Json => no_run_told(alloc, audited),
        Form::Csv(_) => Ok(Vec::new(alloc)),
        Form::Changes(_) => Ok(Vec::new(alloc)),
        Form::Schedule => no_run_lines(alloc, audited),
    }
}

/// Puts the object of logs of a legal run.
fn put_object_of<K: TextSink + Drop>(
    alloc: Global,
    audited: Audited,
    run: LegalRun,
    out: &mut Outgoing<K>,
) -> Result<(), AuditFault>
    ensures { OnOk result (Puts out.old out.new (run_object audited (map event_seen run.events.items))) }
{
    let events = run.into_events();
    put_run_object(alloc, out, audited, events.as_slice())
}

/// Puts a table of what a run left.
fn put_table_of<K: TextSink + Drop>(
    alloc: Global,
    audited: Audited,
    run: LegalRun,
    table: Table,
    out: &mut Outgoing<K>,
) -> Result<(), AuditFault>
    requires { IsLeft audited.settings run }
    ensures { OnOk result (Puts out.old out.new
        (run_csv audited.settings (map event_seen run.events.items) table)) }
{
    put_left_table(alloc, out, settings_alone(audited), run, table)
}

/// The changes of a run.
fn changes_of(
    alloc: Global,
    audited: Audited,
    run: LegalRun,
    of: Changes,
) -> Result<Vec<u8>, AuditFault>
    ensures { IfOk result (λ text. text.items ≡ run_changes_csv audited.settings of (map event_seen run.events.items)) }
{
    let events = run.into_events();
    Ok(run_changes_csv(alloc, audited.settings.settings(), of, events.as_slice())?)
}

/// The input of a replay of a run.
fn schedule_of(alloc: Global, audited: Audited, run: LegalRun) -> Result<Vec<u8>, AuditFault>
    ensures { IfOk result (λ text. IsSchedule audited.text.items (map event_seen run.events.items) text.items) }
{
    let events = run.into_events();
    scheduled(alloc, audited.text.as_slice(), events.as_slice())
}

/// The lines of logs of a legal run.
#[tactic(auto, unfolding(crate::specs::Telling::run_lines))]
fn run_lines(alloc: Global, audited: Audited, run: LegalRun) -> Result<Vec<u8>, AuditFault>
    requires { IsLeft audited.settings run }
    ensures { IfOk result (λ text. text.items ≡ run_lines audited (map event_seen run.events.items)) }
{
    let count = run.events.as_slice().len() as u64;
    let mut text = legal_lines(alloc, &audited, count)?;
    put_left_counts(alloc, &mut text, settings_alone(audited), run)?;
    Ok(text)
}

/// The lines of logs, and that they are those of one legal run of this many events.
fn legal_lines(alloc: Global, audited: &Audited, count: u64) -> Result<Vec<u8>, AllocError>
    ensures { IfOk result (λ text. text.items
        ≡ log_lines (logs_seen audited.now.logs.items) audited.now.torn.items ++ legal_line count) }
{
    let mut text = Vec::new(alloc);
    put_logs(&mut text, audited.logs.as_slice(), audited.torn.as_slice())?;
    put_legal(&mut text, count)?;
    Ok(text)
}

/// The settings, once the logs were told of. These are let go: a run is made from its events.
pub(crate) fn settings_alone(audited: Audited) -> CheckedSettings
    ensures { result ≡ audited.settings }
{
    let Audited {
        text: _,
        settings,
        logs: _,
        torn: _,
        rests: _,
    } = audited;
    settings
}

/// Appends that there is a legal run, and of how many events.
fn put_legal(text: &mut Vec<u8>, count: u64) -> Result<(), AllocError>
    ensures { OnOk result (Adds text.old text.new (legal_line count)) }
{
    let pieces = [
        Piece::Words(b"one legal run of "),
        Piece::Number(count),
        Piece::Words(b" events\n"),
    ];
    put_pieces(text, &pieces)
}

/// The lines of logs of no legal run.
fn no_run_lines(alloc: Global, audited: &Audited) -> Result<Vec<u8>, AuditFault>
    ensures { IfOk result (λ text. IsNoRunLines audited.now text.items) }
{
    let why = reasons(
        alloc,
        Manner::Line,
        &audited.settings,
        audited.logs.as_slice(),
    )?;
    Ok(lines_with(alloc, audited, why.as_slice())?)
}

/// The lines of logs, that there is no legal run, and these lines.
fn lines_with(alloc: Global, audited: &Audited, why: &[u8]) -> Result<Vec<u8>, AllocError>
    ensures { IfOk result (λ text. text.items ≡ log_lines (logs_seen audited.now.logs.items) audited.now.torn.items
        ++ (codes "no legal run\n" ++ why.now)) }
{
    let mut text = Vec::new(alloc);
    put_logs(&mut text, audited.logs.as_slice(), audited.torn.as_slice())?;
    text.extend_from_slice(b"no legal run\n")?;
    text.extend_from_slice(why)?;
    Ok(text)
}

/// The object of logs of no legal run.
fn no_run_told(alloc: Global, audited: &Audited) -> Result<Vec<u8>, AuditFault>
    ensures { IfOk result (λ text. IsNoRunObject audited.now text.items) }
{
    let why = reasons(
        alloc,
        Manner::Member,
        &audited.settings,
        audited.logs.as_slice(),
    )?;
    Ok(no_run_object(alloc, audited, why.as_slice())?)
}

/// Appends a line for each log: its node, how many calls it has, and how many bytes its torn end has.
pub(crate) fn put_logs(
    text: &mut Vec<u8>,
    logs: &[NodeLog],
    torn: &[usize],
) -> Result<(), AllocError>
    ensures { OnOk result (Adds text.old text.new (log_lines (logs_seen logs.now) torn.now)) }
{
    for (place, log) in logs.iter().enumerate() {
        put_log(text, log, torn_at(torn, place))?;
    }
    Ok(())
}

/// Appends the line of a log.
pub(crate) fn put_log(text: &mut Vec<u8>, log: &NodeLog, torn: u64) -> Result<(), AllocError>
    ensures { OnOk result (Adds text.old text.new (log_line (log_seen log.now) torn)) }
{
    let pieces = [
        Piece::Named(log.node()),
        Piece::Words(b" calls "),
        Piece::Number(log.records().len() as u64),
        Piece::Words(b" torn "),
        Piece::Number(torn),
        Piece::Words(b"\n"),
    ];
    put_pieces(text, &pieces)
}
