//! What a run left: as counts, as one table, or as all tables.

ghost use Rattle.std.specs.Prelude.{◌≡◌, map, IfOk, OnOk};
ghost use Rattle.claim_model.specs.Settings.{opening};
ghost use Rattle.world_setup.specs.Seen.{event_seen, settings_seen};
ghost use Rattle.table_text.specs.Adding.{Adds};
ghost use Rattle.log_audit.specs.Judged.{IsLeft};
ghost use Rattle.log_audit.specs.Tabled.{run_csv, tells_senders};
ghost use Rattle.log_audit.specs.Telling.{run_ledger, run_members};
ghost use Rattle.log_audit.specs.Outgoing.{Puts};
ghost use Rattle.world_setup.specs.Taken.{routes_in};

use crate::fault::AuditFault;
use crate::judging::LegalRun;
use crate::outgoing::{Outgoing, TextSink};
use crate::report::ledger::put_ledger;
use crate::tables::senders::run_noting;
use crate::tables::table::{Table, Tabled, put_csv, put_json};
use std::alloc::Global;
use world_core::World;
use world_setup::{CheckedSettings, Event};

/// Appends the counts of what a run left.
#[tactic(auto, using(crate::proofs::LeftWorlds::counts_left))]
pub(crate) fn put_left_counts(
    alloc: Global,
    text: &mut Vec<u8>,
    settings: CheckedSettings,
    run: LegalRun,
) -> Result<(), AuditFault>
    requires { IsLeft settings run }
    ensures { OnOk result (Adds text.old text.new (run_ledger settings (map event_seen run.events.items))) }
{
    let LegalRun { events, world } = run;
    match world {
        Some(world) => Ok(put_ledger(alloc, text, &world)?),
        None => put_made_counts(alloc, text, settings, events.as_slice()),
    }
}

/// Appends the counts of what a run of these events left, which are made for that.
#[tactic(auto, using(crate::proofs::LeftWorlds::ledger_is))]
fn put_made_counts(
    alloc: Global,
    text: &mut Vec<u8>,
    settings: CheckedSettings,
    events: &[Event],
) -> Result<(), AuditFault>
    ensures { OnOk result (Adds text.old text.new (run_ledger settings (map event_seen events.now))) }
{
    let mut world = opened(alloc, settings)?;
    match world.run(events) {
        Ok(()) => Ok(put_ledger(alloc, text, &world)?),
        Err(_) => Err(AuditFault::OutOfMemory),
    }
}

/// Appends a table of what a run left, as CSV.
pub(crate) fn put_left_table<K: TextSink + Drop>(
    alloc: Global,
    text: &mut Outgoing<K>,
    settings: CheckedSettings,
    run: LegalRun,
    table: Table,
) -> Result<(), AuditFault>
    requires { IsLeft settings run }
    ensures { OnOk result (Puts text.old text.new (run_csv settings (map event_seen run.events.items) table)) }
{
    if tells_senders(table) {
        let events = run.into_events();
        return put_made_table(alloc, text, settings, events.as_slice(), table);
    }
    let LegalRun { events, world } = run;
    match world {
        Some(world) => Ok(put_csv(alloc, text, Tabled::Run(&world, &[]), table)?),
        None => put_made_table(alloc, text, settings, events.as_slice(), table),
    }
}

/// Whether a table says which event sent a packet. Only making the events tells that.
pub(crate) fn tells_senders(table: Table) -> bool
    ensures { result ≡ tells_senders table }
{
    match table {
        Table::Payments => false,
        Table::Entries => false,
        Table::Rows => false,
        Table::Packets => true,
        Table::Counted => false,
        Table::Open => false,
    }
}

/// Appends a table of what a run of these events left, as CSV; they are made for that.
fn put_made_table<K: TextSink + Drop>(
    alloc: Global,
    text: &mut Outgoing<K>,
    settings: CheckedSettings,
    events: &[Event],
    table: Table,
) -> Result<(), AuditFault>
    ensures { OnOk result (Puts text.old text.new (run_csv settings (map event_seen events.now) table)) }
{
    let mut world = opened(alloc, settings)?;
    let senders = run_noting(alloc, &mut world, events)?;
    let tabled = Tabled::Run(&world, senders.as_slice());
    put_csv(alloc, text, tabled, table)?;
    Ok(())
}

/// Appends all tables of what a run of these events left, as members of an object of JSON, each after a comma. The events are
/// made for that, since it says of each packet which of them sent it.
pub(crate) fn put_left_tables<K: TextSink + Drop>(
    alloc: Global,
    text: &mut Outgoing<K>,
    settings: CheckedSettings,
    events: &[Event],
) -> Result<(), AuditFault>
    ensures { OnOk result (Puts text.old text.new (run_members settings (map event_seen events.now))) }
{
    let mut world = opened(alloc, settings)?;
    let senders = run_noting(alloc, &mut world, events)?;
    let tabled = Tabled::Run(&world, senders.as_slice());
    put_json(alloc, text, tabled, Table::Packets)?;
    Ok(())
}

/// The opening world of these settings.
fn opened(alloc: Global, settings: CheckedSettings) -> Result<World, AuditFault>
    ensures { IfOk result (λ w. w
        ≡ record { routes = routes_in settings; world = opening (settings_seen settings) }) }
{
    match World::opening(alloc, settings) {
        Ok(world) => Ok(world),
        Err(_) => Err(AuditFault::OutOfMemory),
    }
}
