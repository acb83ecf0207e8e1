//! The records of logs as a table, with their times and their references.

ghost use Rattle.std.specs.Prelude.{◌≡◌, ◌≤◌, Ok, IfOk, IfErr, OnOk};
ghost use Rattle.bin_routes.specs.Table.{RouteMaps};
ghost use Rattle.claim_model.specs.Bytes.{bytes_with};
ghost use Rattle.world_setup.specs.Seen.{call_seen, node_seen};
ghost use Rattle.kept_logs.specs.Logs.{kept_in};
ghost use Rattle.kept_logs.specs.LogSeen.{kept_seen};
ghost use Rattle.settings_digest.specs.Digests.{under};
ghost use Rattle.table_text.specs.Adding.{Adds, AddsRow};
ghost use Rattle.table_text.specs.Rows.{head_text};
ghost use Rattle.table_text.specs.Seen.{field_seen};
ghost use Rattle.table_text.specs.declared.layout.Style.TheVariants.{Csv};
ghost use Rattle.log_audit.specs.Adding.{TellsRow, TellsRows};
ghost use Rattle.log_audit.specs.Given.{bytes_of, read_by};
ghost use Rattle.log_audit.specs.Packets.{carried_seen};
ghost use Rattle.log_audit.specs.Refused.{AreNoLogs, IsUntabled};
ghost use Rattle.log_audit.specs.Calls.{IsCallsTable, IsNotKept, TellsLog, TellsLogs, call_load, call_names, call_row, call_rows, call_word, noted_row, sender_member, submissions_in, time_said};

use crate::fault::AuditFault;
use crate::tables::kinds::{node_field, number_of};
use crate::tables::packets::{Carried, carried_in};
use kept_logs::{KeptLog, KeptRecord, LogFault, read_kept};
use payer_book::HashKeys;
use settings_digest::Digests;
use std::alloc::{AllocError, Global};
use table_text::{Field, Style, put_head, put_row};
use world_settings::read_checked_settings;
use world_setup::{Call, Node};

/// The records of logs as CSV, with what their hosts noted of them: a row for each record of each log, in order. Nothing
/// is judged. The bytes of a log are let go once its rows are written.
///
/// # Errors
/// The first that stands: `Settings`, `World`, `Log` for the first log that is none under these settings. `OutOfMemory` may
/// stand in place of any answer.
#[tactic(auto, using(std::proofs::lemmas::Result::err_from_is_err_and, crate::proofs::Refusing::untaken_unread))]
pub fn calls_table(alloc: Global, text: &[u8], logs: Vec<Vec<u8>>) -> Result<Vec<u8>, AuditFault>
    // What is told is what the bytes are under the settings that the text spells.
    ensures given { IfOk result (λ out. IsCallsTable text.now (bytes_of logs.items) out.items) }
    // The cause is true, and those before it do not stand.
    ensures refused { IfErr result (λ why. IsUntabled text.now (bytes_of logs.items) why) }
{
    let settings = read_checked_settings(alloc, &HashKeys::fixed(), text)?;
    let digests = Digests::of(alloc, settings.settings(), text)?;
    let mut out = Vec::new(alloc);
    put_names(&mut out)?;
    put_logs(alloc, &digests, &mut out, logs)?;
    Ok(out)
}

/// Appends the names of the columns.
fn put_names(out: &mut Vec<u8>) -> Result<(), AllocError>
    ensures { OnOk result (Adds out.old out.new (head_text call_names)) }
{
    put_head(
        out,
        &[
            b"node",
            b"call",
            b"time",
            b"reference",
            b"kind",
            b"from",
            b"carries",
            b"pharmacy",
            b"number",
        ],
    )
}

/// Appends the rows of each log, in order.
fn put_logs(
    alloc: Global,
    digests: &Digests,
    out: &mut Vec<u8>,
    logs: Vec<Vec<u8>>,
) -> Result<(), AuditFault>
    ensures told { OnOk result (TellsLogs (under digests.now) (bytes_of logs.items) out.old.items out.new.items) }
    ensures refused { IfErr result (λ why. AreNoLogs (read_by (under digests.now)) (bytes_of logs.items) why) }
{
    let mut place = 0;
    for bytes in logs {
        put_log(alloc, digests, out, place, bytes.as_slice())?;
        place += 1;
    }
    Ok(())
}

/// Appends the rows of the log that these bytes are, which stand at this place among those handed in.
fn put_log(
    alloc: Global,
    digests: &Digests,
    out: &mut Vec<u8>,
    place: usize,
    bytes: &[u8],
) -> Result<(), AuditFault>
    ensures told { OnOk result (TellsLog (under digests.now) bytes.now out.old.items out.new.items) }
    ensures refused { IfErr result (λ why. IsNotKept (under digests.now) bytes.now place why) }
{
    let KeptLog { node, calls, .. } = read_one(alloc, digests, place, bytes)?;
    put_calls(out, node, calls.as_slice())?;
    Ok(())
}

/// Reads one log, which stands at this place among those handed in.
fn read_one(
    alloc: Global,
    digests: &Digests,
    place: usize,
    bytes: &[u8],
) -> Result<KeptLog, AuditFault>
    ensures read { IfOk result (λ read. kept_in (under digests.now bytes.now) bytes.now ≡ Ok (kept_seen read)) }
    ensures refused { IfErr result (λ why. IsNotKept (under digests.now) bytes.now place why) }
{
    match read_kept(alloc, &digests.under(bytes), bytes) {
        Ok(read) => Ok(read),
        Err(LogFault::OutOfMemory) => Err(AuditFault::OutOfMemory),
        Err(fault) => Err(AuditFault::Log { place, fault }),
    }
}

/// Appends a row for each record of a node.
fn put_calls(out: &mut Vec<u8>, node: Node, calls: &[KeptRecord]) -> Result<(), AllocError>
    ensures { TellsRows Csv out.old out.new (λ ctx. call_rows ctx (node_seen node) 1 0 calls.now) result }
{
    let mut submissions = 0;
    for (place, one) in calls.iter().enumerate() {
        submissions += submissions_in(one.record().call());
        put_call(out, node, place as u64 + 1, submissions, one)?;
    }
    Ok(())
}

/// How many submissions a call is.
fn submissions_in(call: &Call) -> u64
    ensures is { result ≡ submissions_in (call_seen call.now) }
    ensures few { result ≤ 1 }
{
    match call {
        Call::Submit(_) => 1,
        Call::Tick
        | Call::Take { .. }
        | Call::Stop
        | Call::Start
        | Call::Plan { .. }
        | Call::Terms { .. }
        | Call::Retry { .. }
        | Call::Cap { .. }
        | Call::Adjudicate { .. } => 0,
    }
}

/// Appends the row of a record at a place, up to which the log has this many submissions.
fn put_call(
    out: &mut Vec<u8>,
    node: Node,
    place: u64,
    submissions: u64,
    one: &KeptRecord,
) -> Result<(), AllocError>
    ensures { TellsRow Csv out.old out.new (λ ctx. call_row ctx (node_seen node) place submissions one.now) result }
{
    let load = load_of(node, submissions, one.record().call());
    put_noted(out, node, place, one, &load)
}

/// Appends the row of a record that carries this.
#[tactic(auto, unfolding(crate::specs::Calls::noted_row))]
fn put_noted(
    out: &mut Vec<u8>,
    node: Node,
    place: u64,
    one: &KeptRecord,
    load: &Carried,
) -> Result<(), AllocError>
    ensures { OnOk result (AddsRow Csv out.old out.new
        (noted_row (node_seen node) place one.now (carried_seen load.now))) }
{
    let call = one.record().call();
    let fields = [
        node_field(b"node", node),
        Field::number(b"call", place),
        Field::number_or_nothing(b"time", time_said(one.time())),
        Field::text(b"reference", one.reference()),
        Field::word(b"kind", call_word(call)),
        sender_field(call),
        Field::word(b"carries", load.kind),
        Field::number_or_nothing(b"pharmacy", load.pharmacy),
        Field::number_or_nothing(b"number", load.number),
    ];
    put_row(out, Style::Csv, &fields)
}

/// When a call was made; nothing, where the host did not say.
fn time_said(time: u64) -> Option<u64>
    ensures { result ≡ time_said time }
{
    if time == 0 { None } else { Some(time) }
}

/// What a call is.
fn call_word(call: &Call) -> &'static [u8]
    ensures { result.now ≡ call_word (call_seen call.now) }
{
    match call {
        Call::Submit(_) => b"submission",
        Call::Tick => b"tick",
        Call::Take { .. } => b"packet",
        Call::Adjudicate { .. } => b"adjudication",
        Call::Stop => b"stop",
        Call::Start => b"start",
        Call::Plan { .. } => b"price",
        Call::Terms { .. } => b"terms",
        Call::Retry { .. } => b"retry",
        Call::Cap { .. } => b"cap",
    }
}

/// Who sent a packet.
fn sender_field<'a>(call: &Call) -> Field<'a>
    ensures { field_seen result ≡ sender_member (call_seen call.now) }
{
    match call {
        Call::Take { from, .. } => node_field(b"from", *from),
        Call::Adjudicate { from, .. } => node_field(b"from", *from),
        Call::Submit(_)
        | Call::Tick
        | Call::Stop
        | Call::Start
        | Call::Plan { .. }
        | Call::Terms { .. }
        | Call::Retry { .. }
        | Call::Cap { .. } => { Field::number_or_nothing(b"from", None) }
    }
}

/// What a call on a node carries, where this many submissions stand up to it.
fn load_of(node: Node, submissions: u64, call: &Call) -> Carried
    ensures { (routes : RouteMaps) → carried_seen result
        ≡ call_load (bytes_with routes) (node_seen node) submissions (call_seen call.now) }
{
    match call {
        Call::Submit(_) => Carried {
            kind: b"request",
            pharmacy: Some(number_of(node)),
            number: Some(submissions),
        },
        Call::Take { bytes, .. } => carried_in(bytes.as_slice()),
        Call::Adjudicate { bytes, .. } => carried_in(bytes.as_slice()),
        Call::Tick
        | Call::Stop
        | Call::Start
        | Call::Plan { .. }
        | Call::Terms { .. }
        | Call::Retry { .. }
        | Call::Cap { .. } => Carried {
            kind: b"",
            pharmacy: None,
            number: None,
        },
    }
}
