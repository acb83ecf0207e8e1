//! What is told of logs one by one.

ghost use Rattle.std.specs.Prelude.{◌≡◌, [], cond, IfOk, OnOk};
ghost use Rattle.std.specs.List.{list_all};
ghost use Rattle.std.specs.Option.{option_copied};
ghost use Rattle.claim_model.specs.Bytes.{bytes_with};
ghost use Rattle.node_log.specs.LogSeen.{log_seen, logs_seen};
ghost use Rattle.log_audit.specs.ChangeTables.{log_changes_csv};
ghost use Rattle.log_audit.specs.Lones.{lone_of, lone_rows, lones_from, makes, rest_at};
ghost use Rattle.log_audit.specs.AloneSeen.{lone_seen, lones_seen};
ghost use Rattle.log_audit.specs.LoneTelling.{all_make, lone_lines, lones_of, lones_text, alone_text};
ghost use Rattle.log_audit.specs.Outgoing.{Puts, TellsText};
ghost use Rattle.log_audit.specs.Tables.{table_csv};
ghost use Rattle.world_setup.specs.Taken.{routes_in};

use crate::alone::lines::lines_of;
use crate::alone::log::{Lone, lone_node};
use crate::alone::object::put_object;
use crate::fault::AuditFault;
use crate::outgoing::{Outgoing, TextSink};
use crate::reading::{Audited, bytes_in};
use crate::report::Form;
use crate::report::object::torn_at;
use crate::revisions::tables::{Changes, log_changes_csv};
use crate::tables::table::{Table, Tabled, put_csv};
use kept_logs::calls_before;
use node_log::NodeLog;
use std::alloc::{AllocError, Global};
use world_setup::CheckedSettings;

/// Judges each log by itself, and puts what its node has after it; whether each node makes its own log. The rows of tables go
/// out as they are made; lines end with what is to be said last.
///
/// # Errors
/// `OutOfMemory`.
pub fn put_alone<K: TextSink + Drop>(
    alloc: Global,
    audited: &Audited,
    form: Form,
    last: &[u8],
    out: &mut Outgoing<K>,
) -> Result<bool, AuditFault>
    // Whether each node makes its log: it accepts each call from what the log begins with, and sends with it each byte that the
    // log has.
    ensures made { IfOk result (λ made. made ≡ all_make (lones_of audited.now)) }
    // What is put is told of these logs, each by itself, and of what their nodes have then.
    ensures text { OnOk result (Puts out.old out.new (alone_text audited.now last.now form)) }
{
    let lones = lones_of(alloc, audited)?;
    let made = all_made(lones.as_slice());
    match put_lones_text(alloc, audited, lones.as_slice(), made, form, last, out) {
        Ok(()) => Ok(made),
        Err(_) => Err(AuditFault::OutOfMemory),
    }
}

/// What each log comes to by itself.
fn lones_of(alloc: Global, audited: &Audited) -> Result<Vec<Lone<'_>>, AuditFault>
    ensures { IfOk result (λ lones. lones_seen lones.items ≡ lones_of audited.now) }
{
    lones_by(
        alloc,
        &audited.settings,
        audited.rests.as_slice(),
        audited.torn.as_slice(),
        audited.logs.as_slice(),
    )
}

/// What each of these logs comes to by itself, with what it begins with.
fn lones_by<'a>(
    alloc: Global,
    settings: &CheckedSettings,
    rests: &[Option<Vec<u8>>],
    torn: &[usize],
    logs: &'a [NodeLog],
) -> Result<Vec<Lone<'a>>, AuditFault>
    ensures { IfOk result (λ lones. lones_seen lones.items ≡ lones_from (bytes_with (routes_in settings.now))
        settings.now rests.now torn.now 0 (logs_seen logs.now)) }
{
    let mut lones = Vec::new(alloc);
    for (place, log) in logs.iter().enumerate() {
        let lone = lone_of(
            alloc,
            settings,
            rest_at(rests, place),
            torn_at(torn, place),
            log,
        )?;
        lones.push(lone)?;
    }
    Ok(lones)
}

/// What a log comes to by itself, which begins with this rest, where it goes on after closed ones.
fn lone_of<'a>(
    alloc: Global,
    settings: &CheckedSettings,
    rest: Option<&[u8]>,
    torn: u64,
    log: &'a NodeLog,
) -> Result<Lone<'a>, AllocError>
    ensures { IfOk result (λ lone. lone_seen lone ≡ lone_of (bytes_with (routes_in settings.now))
        settings.now (option_copied rest.entry) torn (log_seen log.now)) }
{
    let before = calls_before(alloc, rest)?;
    let came = lone_node(alloc, settings, rest, log)?;
    Ok(Lone {
        log,
        before,
        torn,
        came,
    })
}

/// What the log at a place begins with.
fn rest_at(rests: &[Option<Vec<u8>>], place: usize) -> Option<&[u8]>
    ensures { option_copied result ≡ rest_at rests.now place }
{
    match rests.get(place) {
        Some(rest) => bytes_in(rest),
        None => None,
    }
}

/// Whether each log is made by its node.
fn all_made(lones: &[Lone<'_>]) -> bool
    ensures { result ≡ list_all (λ lone. makes (lone_seen lone)) lones.now }
{
    lones.iter().all(|lone| lone.is_made())
}

/// Puts what is told of logs that come to this.
fn put_lones_text<K: TextSink + Drop>(
    alloc: Global,
    audited: &Audited,
    lones: &[Lone<'_>],
    made: bool,
    form: Form,
    last: &[u8],
    out: &mut Outgoing<K>,
) -> Result<(), AllocError>
    ensures { TellsText out.old out.new
        (λ ctx. lones_text ctx audited.now made (lones_seen lones.now) last.now form) result }
{
    match form {
        Form::Lines => put_lines_of(
            alloc,
            audited.settings.settings().pharmacies.len(),
            lones,
            last,
            out,
        ),
        Form::Json => put_object(alloc, out, audited, lones, made),
        Form::Csv(table) => put_table_of(alloc, lones, made, table, out),
        Form::Changes(of) => put_changes_of(alloc, audited, made, of, out),
        Form::Schedule => put_lines_of(
            alloc,
            audited.settings.settings().pharmacies.len(),
            lones,
            last,
            out,
        ),
    }
}

/// Puts the lines of logs that come to this.
fn put_lines_of<K: TextSink + Drop>(
    alloc: Global,
    pharmacies: usize,
    lones: &[Lone<'_>],
    last: &[u8],
    out: &mut Outgoing<K>,
) -> Result<(), AllocError>
    ensures { TellsText out.old out.new
        (λ ctx. lone_lines ctx pharmacies (lones_seen lones.now) last.now) result }
{
    let text = lines_of(alloc, pharmacies, lones, last)?;
    out.put_text(text.as_slice())
}

/// Puts a table of what the nodes have, where each makes its log.
fn put_table_of<K: TextSink + Drop>(
    alloc: Global,
    lones: &[Lone<'_>],
    made: bool,
    table: Table,
    out: &mut Outgoing<K>,
) -> Result<(), AllocError>
    ensures { TellsText out.old out.new
        (λ ctx. cond made (table_csv (lone_rows ctx (lones_seen lones.now)) table) []) result }
{
    if made {
        put_csv(alloc, out, Tabled::Alone(lones), table)
    } else {
        Ok(())
    }
}

/// Puts the changes that are asked for, where each node makes its log.
fn put_changes_of<K: TextSink + Drop>(
    alloc: Global,
    audited: &Audited,
    made: bool,
    of: Changes,
    out: &mut Outgoing<K>,
) -> Result<(), AllocError>
    ensures { OnOk result (Puts out.old out.new
        (cond made (log_changes_csv audited.now.settings of (logs_seen audited.now.logs.items)) [])) }
{
    if made {
        let text = log_changes_csv(
            alloc,
            audited.settings.settings(),
            of,
            audited.logs.as_slice(),
        )?;
        out.put_text(text.as_slice())
    } else {
        Ok(())
    }
}
