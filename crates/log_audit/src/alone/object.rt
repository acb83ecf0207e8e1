//! The object of logs one by one.

ghost use Rattle.std.specs.Prelude.{◌≡◌, ◌++◌, OnOk};
ghost use Rattle.std.specs.List.{flat_map, list_any};
ghost use Rattle.node_log.specs.LogSeen.{logs_seen};
ghost use Rattle.world_setup.specs.Seen.{node_seen};
ghost use Rattle.table_text.specs.Adding.{Adds, AddsRow, AddsRows};
ghost use Rattle.table_text.specs.declared.layout.Style.TheVariants as style;
ghost use Rattle.log_audit.specs.AloneSeen.{lone_seen, lones_seen};
ghost use Rattle.log_audit.specs.Lones.{before_row, before_rows, is_behind};
ghost use Rattle.log_audit.specs.LoneTelling.{behind_list, behind_member, lone_object, lone_reasons, made_members, unmade_members, verdict_members};
ghost use Rattle.log_audit.specs.Sentences.{told_lines};
ghost use Rattle.log_audit.specs.Telling.{logs_member};
ghost use Rattle.log_audit.specs.declared.sentences.Manner.TheVariants.{Member};
ghost use Rattle.log_audit.specs.Outgoing.{Puts, TellsText};

use crate::alone::log::{Came, Lone};
use crate::outgoing::{Outgoing, TextSink};
use crate::reading::Audited;
use crate::report::object::put_logs;
use crate::sentences::{Manner, put_told};
use crate::tables::kinds::node_field;
use crate::tables::table::{Table, Tabled, put_json};
use std::alloc::{AllocError, Global};
use table_text::{Field, Style, put_list, put_row};
use world_setup::Node;

/// Puts the object of logs one by one: all tables where each node makes its log, else why one does not.
pub(crate) fn put_object<K: TextSink + Drop>(
    alloc: Global,
    out: &mut Outgoing<K>,
    audited: &Audited,
    lones: &[Lone<'_>],
    made: bool,
) -> Result<(), AllocError>
    ensures { TellsText out.old out.new
        (λ ctx. logs_member (logs_seen audited.now.logs.items) audited.now.torn.items
        ++ lone_object ctx made (lones_seen lones.now)) result }
{
    let mut logs = out.piece();
    put_logs(&mut logs, audited.logs.as_slice(), audited.torn.as_slice())?;
    out.put(logs.as_slice())?;
    put_verdict(alloc, out, lones, made)
}

/// Appends what stands after the list of logs.
#[tactic(auto, unfolding(crate::specs::LoneTelling::lone_object))]
fn put_verdict<K: TextSink + Drop>(
    alloc: Global,
    out: &mut Outgoing<K>,
    lones: &[Lone<'_>],
    made: bool,
) -> Result<(), AllocError>
    ensures { TellsText out.old out.new (λ ctx. lone_object ctx made (lones_seen lones.now)) result }
{
    out.put(b",\n\"alone\":true")?;
    put_behind(out, lones)?;
    out.put(b",\n\"made\":")?;
    put_found(alloc, out, lones, made)?;
    out.put(b"\n}\n")
}

/// Appends before which logs calls were made, where there are any.
fn put_behind<K: TextSink + Drop>(
    out: &mut Outgoing<K>,
    lones: &[Lone<'_>],
) -> Result<(), AllocError>
    ensures { OnOk result (Puts out.old out.new (behind_member (lones_seen lones.now))) }
{
    if some_behind(lones) {
        put_behind_list(out, lones)
    } else {
        Ok(())
    }
}

/// Appends the list of logs before which calls were made.
#[tactic(auto, unfolding(crate::specs::LoneTelling::behind_list))]
fn put_behind_list<K: TextSink + Drop>(
    out: &mut Outgoing<K>,
    lones: &[Lone<'_>],
) -> Result<(), AllocError>
    ensures { OnOk result (Puts out.old out.new (behind_list (lones_seen lones.now))) }
{
    let mut rows = out.piece();
    put_before(&mut rows, lones)?;
    let mut list = out.piece();
    list.extend_from_slice(b",\n\"behind\":")?;
    put_list(&mut list, rows.as_slice())?;
    out.put(list.as_slice())
}

/// Whether calls were made before one of these logs.
fn some_behind(lones: &[Lone<'_>]) -> bool
    ensures { result ≡ list_any (λ lone. is_behind (lone_seen lone)) lones.now }
{
    lones.iter().any(|lone| lone.is_behind())
}

/// Appends a row for each log before which calls were made.
fn put_before(rows: &mut Vec<u8>, lones: &[Lone<'_>]) -> Result<(), AllocError>
    ensures { OnOk result (AddsRows style.Json rows.old rows.new (flat_map before_rows (lones_seen lones.now))) }
{
    for lone in lones {
        put_before_row(rows, lone)?;
    }
    Ok(())
}

/// Appends a row for a log, where calls were made before it.
#[tactic(auto, using(crate::proofs::Joining::no_rows))]
fn put_before_row(rows: &mut Vec<u8>, lone: &Lone<'_>) -> Result<(), AllocError>
    ensures { OnOk result (AddsRows style.Json rows.old rows.new (before_rows (lone_seen lone.now))) }
{
    if lone.is_behind() {
        put_node_row(rows, lone.log.node(), lone.before)
    } else {
        Ok(())
    }
}

/// Appends the row of the log of a node, before which this many calls were made.
#[tactic(auto, unfolding(crate::specs::Lones::before_row))]
fn put_node_row(rows: &mut Vec<u8>, node: Node, before: u64) -> Result<(), AllocError>
    ensures { OnOk result (AddsRow style.Json rows.old rows.new (before_row (node_seen node) before)) }
{
    let fields = [node_field(b"node", node), Field::number(b"calls", before)];
    put_row(rows, Style::Json, &fields)
}

/// Appends all tables, or why there are none.
fn put_found<K: TextSink + Drop>(
    alloc: Global,
    out: &mut Outgoing<K>,
    lones: &[Lone<'_>],
    made: bool,
) -> Result<(), AllocError>
    ensures { TellsText out.old out.new (λ ctx. verdict_members ctx made (lones_seen lones.now)) result }
{
    if made {
        put_made(alloc, out, lones)
    } else {
        put_unmade(out, lones)
    }
}

/// Appends that each node makes its log, and all tables.
#[tactic(auto, unfolding(crate::specs::LoneTelling::made_members))]
fn put_made<K: TextSink + Drop>(
    alloc: Global,
    out: &mut Outgoing<K>,
    lones: &[Lone<'_>],
) -> Result<(), AllocError>
    ensures { TellsText out.old out.new (λ ctx. made_members ctx (lones_seen lones.now)) result }
{
    out.put(b"true")?;
    put_json(alloc, out, Tabled::Alone(lones), Table::Open)
}

/// Appends that a node does not make its log, and the lines that say why, as a list of texts.
#[tactic(auto, unfolding(crate::specs::LoneTelling::unmade_members))]
fn put_unmade<K: TextSink + Drop>(
    out: &mut Outgoing<K>,
    lones: &[Lone<'_>],
) -> Result<(), AllocError>
    ensures { OnOk result (Puts out.old out.new (unmade_members (lones_seen lones.now))) }
{
    let mut why = out.piece();
    put_reasons(&mut why, lones)?;
    let mut list = out.piece();
    list.extend_from_slice(b"false,\n\"reasons\":")?;
    put_list(&mut list, why.as_slice())?;
    out.put(list.as_slice())
}

/// Appends the lines that say why nodes do not make their logs.
fn put_reasons(why: &mut Vec<u8>, lones: &[Lone<'_>]) -> Result<(), AllocError>
    ensures { OnOk result (Adds why.old why.new (told_lines Member (flat_map lone_reasons (lones_seen lones.now)))) }
{
    for lone in lones {
        put_reason(why, lone)?;
    }
    Ok(())
}

/// Appends the line that says why a node does not make its log, if it does not.
fn put_reason(why: &mut Vec<u8>, lone: &Lone<'_>) -> Result<(), AllocError>
    ensures { OnOk result (Adds why.old why.new (told_lines Member (lone_reasons (lone_seen lone.now)))) }
{
    match &lone.came {
        Came::Made(_) => Ok(()),
        Came::NotMade(line) => put_told(why, Manner::Member, line.as_slice()),
    }
}
