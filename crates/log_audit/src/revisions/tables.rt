//! Tables of the changes of payers' plans, of pharmacies' rules of retries and of switches' caps, of a run or of logs.

ghost use Rattle.std.specs.Prelude.{◌≡◌, [], map, IfOk, OnOk};
ghost use Rattle.world_setup.specs.Seen.{event_seen};
ghost use Rattle.node_log.specs.LogSeen.{logs_seen};
ghost use Rattle.table_text.specs.Adding.{Adds, AddsRows};
ghost use Rattle.table_text.specs.Rows.{head_text};
ghost use Rattle.table_text.specs.declared.layout.Style.TheVariants.{Csv};
ghost use Rattle.log_audit.specs.Changes.{change_seen};
ghost use Rattle.log_audit.specs.Following.{rows_behind};
ghost use Rattle.log_audit.specs.ChangeTables.{change_names, change_rows, changes_csv, log_changes_csv, run_changes_csv};

use crate::revisions::caps::{put_cap_change, put_cap_names};
use crate::revisions::changes::{Change, event_changes, log_changes};
use crate::revisions::prices::{put_price_change, put_price_names};
use crate::revisions::retries::{put_rule_change, put_rule_names};
use crate::revisions::terms::{put_terms_change, put_terms_names};
use node_log::NodeLog;
use std::alloc::{AllocError, Global};
use world_setup::{Event, WorldSettings};

/// Of which changes a table tells.
#[derive(Clone, Copy, PartialEq, Eq)]
pub enum Changes {
    /// Those of prices of payers' products.
    Prices,
    /// Those of payers' fees and copays.
    Terms,
    /// Those of pharmacies' rules of retries.
    Retries,
    /// Those of switches' caps.
    Caps,
}

/// The changes of a run, by its events, as CSV.
pub(crate) fn run_changes_csv(
    alloc: Global,
    settings: &WorldSettings,
    of: Changes,
    events: &[Event],
) -> Result<Vec<u8>, AllocError>
    ensures { IfOk result (λ text. text.items ≡ run_changes_csv settings.now of (map event_seen events.now)) }
{
    let changes = event_changes(alloc, events)?;
    changes_csv(alloc, settings, of, b"event", changes.as_slice())
}

/// The changes among the calls of each of these logs, as CSV.
pub(crate) fn log_changes_csv(
    alloc: Global,
    settings: &WorldSettings,
    of: Changes,
    logs: &[NodeLog],
) -> Result<Vec<u8>, AllocError>
    ensures { IfOk result (λ text. text.items ≡ log_changes_csv settings.now of (logs_seen logs.now)) }
{
    let changes = log_changes(alloc, logs)?;
    changes_csv(alloc, settings, of, b"call", changes.as_slice())
}

/// Changes as a table, where the place of each has this name.
#[tactic(auto, unfolding(crate::specs::ChangeTables::changes_csv))]
fn changes_csv(
    alloc: Global,
    settings: &WorldSettings,
    of: Changes,
    name: &'static [u8],
    changes: &[Change<'_>],
) -> Result<Vec<u8>, AllocError>
    ensures { IfOk result (λ text. text.items ≡ changes_csv settings.now of name.now (map change_seen changes.now)) }
{
    let mut out = Vec::new(alloc);
    put_names(&mut out, of, name)?;
    put_changes(&mut out, settings, of, name, changes)?;
    Ok(out)
}

/// Appends the names of the columns.
fn put_names(out: &mut Vec<u8>, of: Changes, name: &[u8]) -> Result<(), AllocError>
    ensures { OnOk result (Adds out.old out.new (head_text (change_names of name.now))) }
{
    match of {
        Changes::Prices => put_price_names(out, name),
        Changes::Terms => put_terms_names(out, name),
        Changes::Retries => put_rule_names(out, name),
        Changes::Caps => put_cap_names(out, name),
    }
}

/// Appends the rows of changes.
fn put_changes(
    out: &mut Vec<u8>,
    settings: &WorldSettings,
    of: Changes,
    name: &'static [u8],
    changes: &[Change<'_>],
) -> Result<(), AllocError>
    ensures { OnOk result (AddsRows Csv out.old out.new
        (rows_behind (change_rows settings.now of name.now) [] (map change_seen changes.now))) }
{
    for (place, change) in changes.iter().enumerate() {
        put_change(out, settings, of, name, &changes[..place], change)?;
    }
    Ok(())
}

/// Appends the row of a change after these, if it is one of which the table tells.
fn put_change(
    out: &mut Vec<u8>,
    settings: &WorldSettings,
    of: Changes,
    name: &'static [u8],
    before: &[Change<'_>],
    change: &Change<'_>,
) -> Result<(), AllocError>
    ensures { OnOk result (AddsRows Csv out.old out.new
        (change_rows settings.now of name.now (map change_seen before.now) (change_seen change.now))) }
{
    match of {
        Changes::Prices => put_price_change(out, settings, name, before, change),
        Changes::Terms => put_terms_change(out, settings, name, before, change),
        Changes::Retries => put_rule_change(out, settings, name, before, change),
        Changes::Caps => put_cap_change(out, settings, name, before, change),
    }
}
