//! Whether logs are those of one legal run, as claimaudit tells it.

ghost use Rattle.std.specs.Prelude.{◌≡◌, ℕ, List, None, true, false, IfOk, IfErr, OnOk};
ghost use Rattle.node_log.specs.LogSeen.{logs_seen};
ghost use Rattle.log_audit.specs.Given.{IsRead, digest_of, opened, rests_seen};
ghost use Rattle.log_audit.specs.Names.{misnamed_log};
ghost use Rattle.log_audit.specs.Telling.{IsWritten};
ghost use Rattle.log_audit.specs.Refused.{IsRefused};
ghost use Rattle.log_audit.specs.Judged.{IsTold};
ghost use Rattle.node_handle.specs.declared.refusal.Refusal.TheVariants.{NoRun, OutOfMemory};
ghost use Rattle.node_handle.specs.Audits.{Audits, bytes_of, form_of, IsJudged, IsReported, IsUnjudged, RefusesRead, Reports};

use crate::cutting::pieces_of;
use crate::reading::copy_out;
use crate::refusal::{Refusal, refusal_of_log};
use log_audit::{AuditFault, Audited, Form, Report, opened, read_audited, report_on};
use message_words::Style;
use std::alloc::Global;

/// Judges logs, which stand one after another, each of its size; copies what claimaudit tells of them, as lines or as one
/// object of JSON.
///
/// # Errors
/// `NoRun` where they are those of no legal run; what is told of them was copied then too. Else the buffer is as it was, and
/// the first that stands is told: `NotALog`, with the count of sizes in `size`, where they are not those of all bytes;
/// `Settings`; `BadRecord` for the first log with a reference that no node keeps, and then the first fault of the first log that
/// is none, each with its place, from 0, in `size`; `ShortBuffer`. Memory that was refused may stand in place of any.
pub fn audit(
    alloc: Global,
    style: Style,
    settings: &[u8],
    logs: &[u8],
    sizes: &[usize],
    buffer: &mut [u8],
    size: &mut usize,
) -> Result<(), Refusal>
    ensures { Audits settings.now logs.now sizes.now style result buffer.old buffer.new size.old size.new }
{
    match report_of(alloc, style, settings, logs, sizes, size) {
        Ok(report) => give(&report, buffer, size),
        Err(why) => Err(why),
    }
}

/// Copies what is told of logs, and says whether there is a legal run.
fn give(report: &Report, buffer: &mut [u8], size: &mut usize) -> Result<(), Refusal>
    ensures { Reports report.now.text.items report.now.legal result buffer.old buffer.new size.new }
{
    match copy_out(report.text.as_slice(), buffer, size) {
        Ok(()) => verdict(report.legal),
        Err(_) => Err(Refusal::ShortBuffer),
    }
}

/// What is said of logs of which all was told.
fn verdict(legal: bool) -> Result<(), Refusal>
    ensures ok { OnOk result (legal ≡ true) }
    ensures err { IfErr result (λ why. (why ≡ NoRun) × (legal ≡ false)) }
{
    if legal { Ok(()) } else { Err(Refusal::NoRun) }
}

/// What is told of logs, or why nothing is, with the place of a log that is none.
fn report_of(
    alloc: Global,
    style: Style,
    settings: &[u8],
    logs: &[u8],
    sizes: &[usize],
    place: &mut usize,
) -> Result<Report, Refusal>
    ensures judged { IfOk result (λ report.
        IsJudged settings.now logs.now sizes.now style report.text.items report.legal) }
    ensures refused { IfErr result (λ why. IsUnjudged settings.now logs.now sizes.now why place.old place.new) }
{
    match pieces_of(alloc, logs, sizes) {
        Ok(Some(pieces)) => report_on_pieces(alloc, style, settings, pieces, place),
        Ok(None) => {
            *place = sizes.len();
            Err(Refusal::NotALog)
        }
        Err(_) => Err(Refusal::OutOfMemory),
    }
}

/// What is told of logs that stand each by itself.
fn report_on_pieces(
    alloc: Global,
    style: Style,
    settings: &[u8],
    logs: Vec<Vec<u8>>,
    place: &mut usize,
) -> Result<Report, Refusal>
    ensures judged { IfOk result (λ report.
        IsReported settings.now (bytes_of logs.items) style report.text.items report.legal) }
    ensures refused { IfErr result (λ why.
        RefusesRead settings.now (bytes_of logs.items) why place.old place.new) }
{
    match audited(alloc, settings, logs) {
        Ok(audited) => reported(alloc, style, audited),
        Err(fault) => Err(told(fault, place)),
    }
}

/// What is told of logs that were read. Only memory can be wanting by now.
fn reported(alloc: Global, style: Style, audited: Audited) -> Result<Report, Refusal>
    ensures judged { IfOk result (λ report. IsTold audited.settings (logs_seen audited.logs.items) report.legal) }
    ensures text { IfOk result (λ report. IsWritten audited (form_of style) report.legal report.text.items) }
    ensures refused { IfErr result (λ why. why ≡ OutOfMemory) }
{
    match report_on(alloc, audited, form_of(style)) {
        Ok(report) => Ok(report),
        Err(_) => Err(Refusal::OutOfMemory),
    }
}

/// The settings and the logs that bytes are.
fn audited(alloc: Global, settings: &[u8], logs: Vec<Vec<u8>>) -> Result<Audited, AuditFault>
    ensures read { IfOk result (λ a. IsRead settings.now (opened (bytes_of logs.items)) a.settings
        (logs_seen a.logs.items) (rests_seen a.rests.items) a.torn.items) }
    ensures named { OnOk result (misnamed_log (digest_of settings.now) (opened (bytes_of logs.items)) ≡ None) }
    ensures refused { IfErr result (λ why. IsRefused settings.now (opened (bytes_of logs.items)) why) }
{
    let text = Vec::from_slice(alloc, settings)?;
    let given = opened(alloc, logs)?;
    read_audited(alloc, text, given)
}

/// The form in which logs are told of.
fn form_of(style: Style) -> Form
    ensures { result ≡ form_of style }
{
    match style {
        Style::Lines => Form::Lines,
        Style::Json => Form::Json,
    }
}

/// The refusal of a fault, with the place of the log that it is about.
fn told(fault: AuditFault, place: &mut usize) -> Refusal
    ensures { (text : List ℕ) (pieces : List (List ℕ))
        → IsRefused text (opened pieces) fault → RefusesRead text pieces result place.old place.new }
{
    match fault {
        AuditFault::OutOfMemory => Refusal::OutOfMemory,
        AuditFault::Settings => Refusal::Settings,
        AuditFault::World(_) => Refusal::Settings,
        AuditFault::Log { place: log, fault } => {
            *place = log;
            refusal_of_log(fault)
        }
        AuditFault::Reference { place: log, .. } => {
            *place = log;
            Refusal::BadRecord
        }
        // No line of a schedule is asked for.
        AuditFault::NoLine => Refusal::OutOfMemory,
    }
}
