//! What is told of logs, as an object of JSON.

ghost use Rattle.std.specs.Prelude.{◌≡◌, ◌++◌, codes, map, slice_index, OnOk, IfOk};
ghost use Rattle.world_setup.specs.Seen.{event_seen};
ghost use Rattle.node_log.specs.LogSeen.{log_seen, logs_seen};
ghost use Rattle.table_text.specs.Adding.{Adds, AddsRow, AddsRows};
ghost use Rattle.table_text.specs.Rows.{list_text};
ghost use Rattle.log_audit.specs.Telling.{log_row, log_rows, logs_member, count_member, run_members, run_object};
ghost use Rattle.table_text.specs.declared.layout.Style.TheVariants.{Json};
ghost use Rattle.log_audit.specs.Outgoing.{Puts};

use crate::fault::AuditFault;
use crate::outgoing::{Outgoing, TextSink};
use crate::reading::Audited;
use crate::report::left::put_left_tables;
use crate::report::settings_alone;
use crate::sentences::{Piece, put_pieces};
use crate::tables::kinds::node_field;
use node_log::NodeLog;
use std::alloc::{AllocError, Global};
use table_text::{Field, Style, put_list, put_row};
use world_setup::Event;

/// Puts the object of logs of a legal run of these events.
#[tactic(auto, unfolding(crate::specs::Telling::run_object))]
pub(crate) fn put_run_object<K: TextSink + Drop>(
    alloc: Global,
    out: &mut Outgoing<K>,
    audited: Audited,
    events: &[Event],
) -> Result<(), AuditFault>
    ensures { OnOk result (Puts out.old out.new (run_object audited (map event_seen events.now))) }
{
    put_front(out, &audited, events.len() as u64)?;
    put_members(alloc, out, audited, events)?;
    out.put(b"\n}\n")?;
    Ok(())
}

/// Puts the tables that the run left, as members.
fn put_members<K: TextSink + Drop>(
    alloc: Global,
    out: &mut Outgoing<K>,
    audited: Audited,
    events: &[Event],
) -> Result<(), AuditFault>
    ensures { OnOk result (Puts out.old out.new (run_members audited.settings (map event_seen events.now))) }
{
    put_left_tables(alloc, out, settings_alone(audited), events)
}

/// Puts the beginning of an object of logs of a legal run: the list of logs, and of how many events it is.
fn put_front<K: TextSink + Drop>(
    out: &mut Outgoing<K>,
    audited: &Audited,
    count: u64,
) -> Result<(), AllocError>
    ensures { OnOk result (Puts out.old out.new
        (logs_member (logs_seen audited.now.logs.items) audited.now.torn.items ++ count_member count)) }
{
    let mut text = out.piece();
    put_logs(&mut text, audited.logs.as_slice(), audited.torn.as_slice())?;
    put_count(&mut text, count)?;
    out.put(text.as_slice())
}

/// Appends that there is a legal run, and of how many events.
fn put_count(text: &mut Vec<u8>, count: u64) -> Result<(), AllocError>
    ensures { OnOk result (Adds text.old text.new (count_member count)) }
{
    let pieces = [
        Piece::Words(b",\n\"legal\":true,\n\"events\": "),
        Piece::Number(count),
    ];
    put_pieces(text, &pieces)
}

/// The object of logs of no legal run, with these members of a list of reasons.
pub(crate) fn no_run_object(
    alloc: Global,
    audited: &Audited,
    why: &[u8],
) -> Result<Vec<u8>, AllocError>
    ensures { IfOk result (λ text. text.items ≡ logs_member (logs_seen audited.now.logs.items) audited.now.torn.items
        ++ (codes ",\n\"legal\":false,\n\"reasons\":" ++ (list_text why.now ++ codes "\n}\n"))) }
{
    let mut text = Vec::new(alloc);
    put_logs(&mut text, audited.logs.as_slice(), audited.torn.as_slice())?;
    put_reasons(&mut text, why)?;
    Ok(text)
}

/// Appends that there is no legal run and these reasons, and ends the object.
fn put_reasons(text: &mut Vec<u8>, why: &[u8]) -> Result<(), AllocError>
    ensures { OnOk result (Adds text.old text.new
        (codes ",\n\"legal\":false,\n\"reasons\":" ++ (list_text why.now ++ codes "\n}\n"))) }
{
    text.extend_from_slice(b",\n\"legal\":false,\n\"reasons\":")?;
    put_list(text, why)?;
    text.extend_from_slice(b"\n}\n")?;
    Ok(())
}

/// Appends the beginning of an object, with the list of logs.
#[tactic(auto, unfolding(crate::specs::Telling::logs_member))]
pub(crate) fn put_logs(
    text: &mut Vec<u8>,
    logs: &[NodeLog],
    torn: &[usize],
) -> Result<(), AllocError>
    ensures { OnOk result (Adds text.old text.new (logs_member (logs_seen logs.now) torn.now)) }
{
    let mut rows = Vec::new(*text.allocator());
    put_rows(&mut rows, logs, torn)?;
    text.extend_from_slice(b"{\"logs\":")?;
    put_list(text, rows.as_slice())
}

/// Appends a row for each log.
#[tactic(auto, unfolding(table_text::specs::Rows::rows_text), using(crate::proofs::AppendLoops::goes_on, crate::proofs::AppendLoops::is_done))]
fn put_rows(rows: &mut Vec<u8>, logs: &[NodeLog], torn: &[usize]) -> Result<(), AllocError>
    ensures { OnOk result (AddsRows Json rows.old rows.new (log_rows (logs_seen logs.now) torn.now)) }
{
    for (place, log) in logs.iter().enumerate() {
        put_log(rows, log, torn_at(torn, place))?;
    }
    Ok(())
}

/// Appends the row of a log.
fn put_log(rows: &mut Vec<u8>, log: &NodeLog, torn: u64) -> Result<(), AllocError>
    ensures { OnOk result (AddsRow Json rows.old rows.new (log_row (log_seen log.now) torn)) }
{
    let fields = [
        node_field(b"node", log.node()),
        Field::number(b"calls", log.records().len() as u64),
        Field::number(b"torn", torn),
    ];
    put_row(rows, Style::Json, &fields)
}

/// How many bytes the torn end of the log at a place has.
pub(crate) fn torn_at(torn: &[usize], place: usize) -> u64
    ensures { result ≡ slice_index torn.now place }
{
    match torn.get(place) {
        Some(bytes) => *bytes as u64,
        None => 0,
    }
}
