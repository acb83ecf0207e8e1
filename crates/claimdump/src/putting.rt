//! The files of logs, and of what nodes leave that stop.

ghost use Rattle.std.specs.Prelude.{◌≡◌, ◌++◌, map, IfOk, OnOk};
ghost use Rattle.std.specs.Option.{option_copied};
ghost use Rattle.claim_model.specs.World.{run};
ghost use Rattle.node_log.specs.LogSeen.{logs_seen};
ghost use Rattle.world_core.specs.Parts.{context_of};
ghost use Rattle.world_setup.specs.Seen.{event_seen};
ghost use Rattle.claimdump.specs.Files.{book_files, file_seen, journal_files, log_file, name_seen, record_files, stop_of, stops, world_records};

use crate::file::{DumpFile, FileName};
use crate::node_logs::NodeLogs;
use kept_logs::{SettingsDigest, write_log};
use node_log::NodeLog;
use node_state::{PayerNode, PharmacyNode};
use std::alloc::{AllocError, Global};
use world_core::World;
use world_setup::Event;

/// Adds the files of logs under settings of this digest.
pub(crate) fn put_log_files(
    alloc: Global,
    files: &mut Vec<DumpFile>,
    digest: &SettingsDigest,
    logs: &[NodeLog],
) -> Result<(), AllocError>
    ensures { OnOk result (map file_seen files.new.items
        ≡ map file_seen files.old.items ++ map (log_file digest.now) (logs_seen logs.now)) }
{
    for log in logs {
        let name = FileName::Log(log.node());
        let bytes = write_log(alloc, digest, log)?;
        files.push(DumpFile { name, bytes })?;
    }
    Ok(())
}

/// Adds the files of the records that all pharmacies and payers of a world leave once they have stopped; these are the logs of
/// its nodes.
pub(crate) fn put_records(
    alloc: Global,
    files: &mut Vec<DumpFile>,
    world: World,
    logs: &NodeLogs,
) -> Result<(), AllocError>
    ensures { OnOk result (map file_seen files.new.items ≡ map file_seen files.old.items
        ++ world_records (run (context_of world) world.world (stops logs.now))) }
{
    let stopped = stopped(alloc, world, logs)?;
    put_journals(alloc, files, stopped.pharmacies())?;
    put_books(alloc, files, stopped.payers())
}

/// A world once all its pharmacies and payers have stopped; one that is down stays so.
fn stopped(alloc: Global, world: World, logs: &NodeLogs) -> Result<World, AllocError>
    ensures { IfOk result (λ stopped. stopped.world ≡ run (context_of world) world.world (stops logs.now)) }
{
    let mut world = world;
    let mut stops = Vec::new(alloc);
    push_stops(&mut stops, logs.pharmacies())?;
    push_stops(&mut stops, logs.payers())?;
    match world.run(stops.as_slice()) {
        Ok(()) => Ok(world),
        Err(_) => Err(AllocError),
    }
}

/// Adds a stop of the node of each of these logs.
fn push_stops(stops: &mut Vec<Event>, logs: &[NodeLog]) -> Result<(), AllocError>
    ensures { OnOk result (map event_seen stops.new.items
        ≡ map event_seen stops.old.items ++ map stop_of (logs_seen logs.now)) }
{
    for log in logs {
        stops.push(Event::Stop(log.node()))?;
    }
    Ok(())
}

/// Adds the record of each of these pharmacies, numbered from 1, that is at rest.
fn put_journals(
    alloc: Global,
    files: &mut Vec<DumpFile>,
    nodes: &[PharmacyNode],
) -> Result<(), AllocError>
    ensures { OnOk result (map file_seen files.new.items ≡ map file_seen files.old.items ++ journal_files 1 nodes.now) }
{
    for (place, node) in nodes.iter().enumerate() {
        put_record(
            alloc,
            files,
            FileName::Journal(place as u64 + 1),
            node.record(),
        )?;
    }
    Ok(())
}

/// Adds the record of each of these payers, numbered from 1, that is at rest.
fn put_books(
    alloc: Global,
    files: &mut Vec<DumpFile>,
    nodes: &[PayerNode],
) -> Result<(), AllocError>
    ensures { OnOk result (map file_seen files.new.items ≡ map file_seen files.old.items ++ book_files 1 nodes.now) }
{
    for (place, node) in nodes.iter().enumerate() {
        put_record(
            alloc,
            files,
            FileName::Book(place as u64 + 1),
            node.record(),
        )?;
    }
    Ok(())
}

/// Adds the file of a record, where there is one.
fn put_record(
    alloc: Global,
    files: &mut Vec<DumpFile>,
    name: FileName,
    bytes: Option<&[u8]>,
) -> Result<(), AllocError>
    ensures { OnOk result (map file_seen files.new.items
        ≡ map file_seen files.old.items ++ record_files (name_seen name) (option_copied bytes.entry)) }
{
    match bytes {
        Some(bytes) => {
            let bytes = Vec::from_slice(alloc, bytes)?;
            files.push(DumpFile { name, bytes })?;
            Ok(())
        }
        None => Ok(()),
    }
}
