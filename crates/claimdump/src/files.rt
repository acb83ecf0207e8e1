//! The files of a replay.

ghost use Rattle.std.specs.Prelude.{◌≡◌, None, Ok, Some, map, IfErr, IfOk};
ghost use Rattle.std.specs.Str.Lines.{lines};
ghost use Rattle.schedule.specs.Reading.{living_events_of};
ghost use Rattle.settings_digest.specs.Digests.{digest_in};
ghost use Rattle.world_core.specs.Parts.{context_of};
ghost use Rattle.world_settings.specs.Checked.{Spells};
ghost use Rattle.world_settings.specs.Document.{document_seen, living_in};
ghost use Rattle.world_setup.specs.Seen.{event_seen};
ghost use Rattle.claimdump.specs.Files.{file_seen, files_in, IsDump, IsRefusedFor, IsUnscheduled, IsUnsettled};
ghost use Rattle.claimdump.specs.Runs.{IsRun};

use crate::fault::DumpFault;
use crate::file::{DumpFile, FileName};
use crate::node_logs::NodeLogs;
use crate::putting::{put_log_files, put_records};
use crate::recorded::Recorded;
use kept_logs::SettingsDigest;
use payer_book::HashKeys;
use schedule::{ScheduleFault, divide, read_living_schedule};
use settings_digest::said;
use std::alloc::{AllocError, Global};
use world_core::World;
use world_settings::{Untaken, living_settings_fault, read_checked_settings};
use world_setup::{CheckedSettings, Event, WorldSettings};

/// The files of a replay: of each node its log; the settings; of each pharmacy the record of its journal, and of each payer
/// that of its book, as they leave them that stop after all events.
///
/// # Errors
/// `Settings`, then `World`, then `Line` of the first line that spells no event; `OutOfMemory`.
#[tactic(auto, using(std::proofs::lemmas::Result::err_from_is_err_and, crate::proofs::Refusing::unscheduled))]
pub(crate) fn dump(alloc: Global, input: &[u8]) -> Result<Vec<DumpFile>, DumpFault>
    ensures dumped { IfOk result (λ files. IsDump input.now (map file_seen files.items)) }
    ensures refused { IfErr result (λ fault. IsRefusedFor input.now fault) }
{
    let parts = divide(alloc, input)?;
    let settings = settings_in(alloc, parts.settings.as_slice())?;
    let events = events_in(alloc, parts.schedule)?;
    let digest = digest_of(alloc, parts.settings.as_slice(), settings.settings())?;
    let recorded = recorded(alloc, settings, events.as_slice())?;
    Ok(files_of(alloc, parts.settings, &digest, recorded)?)
}

/// The settings that a text spells, of which a world is made.
fn settings_in(alloc: Global, text: &[u8]) -> Result<CheckedSettings, DumpFault>
    ensures settled { IfOk result (λ settings. Spells text.now settings) }
    ensures refused { IfErr result (λ fault. IsUnsettled text.now fault) }
{
    match read_checked_settings(alloc, &HashKeys::fixed(), text) {
        Ok(settings) => Ok(settings),
        Err(Untaken::OutOfMemory) => Err(DumpFault::OutOfMemory),
        Err(Untaken::Settings) => Err(why_refused(alloc, text)?),
        Err(Untaken::World(fault)) => Err(DumpFault::World(fault)),
    }
}

/// What is wrong in a text that spells no settings.
fn why_refused(alloc: Global, text: &[u8]) -> Result<DumpFault, AllocError>
    ensures { IfOk result (λ fault. living_in text.now ≡ None → IsUnsettled text.now fault) }
{
    match living_settings_fault(alloc, text)? {
        Some(why) => Ok(DumpFault::Settings(why)),
        None => Ok(DumpFault::Settings(String::from_str(alloc, "they are none")?)),
    }
}

/// The events that the lines of a schedule spell.
fn events_in(alloc: Global, schedule: &[u8]) -> Result<Vec<Event>, DumpFault>
    ensures read { IfOk result (λ events. living_events_of (lines schedule.now) ≡ Ok events.items) }
    ensures refused { IfErr result (λ fault. IsUnscheduled (lines schedule.now) fault) }
{
    match read_living_schedule(alloc, schedule) {
        Ok(events) => Ok(events),
        Err(ScheduleFault::OutOfMemory) => Err(DumpFault::OutOfMemory),
        Err(ScheduleFault::Line(number)) => Err(DumpFault::Line(number)),
    }
}

/// The digest of what settings say that a text spells.
#[tactic(auto, using(settings_digest::proofs::Keeping::said_is))]
fn digest_of(
    alloc: Global,
    _text: &[u8],
    settings: &WorldSettings,
) -> Result<SettingsDigest, AllocError>
    requires { living_in _text.now ≡ Some (document_seen settings.now) }
    ensures { IfOk result (λ digest. digest ≡ digest_in _text.now) }
{
    let text = said(alloc, settings)?;
    Ok(SettingsDigest::of_said(text.as_slice()))
}

/// The world after a run of these events from settings, with the logs of its nodes.
fn recorded(
    alloc: Global,
    settings: CheckedSettings,
    events: &[Event],
) -> Result<Recorded, AllocError>
    ensures { IfOk result (λ recorded. IsRun settings (map event_seen events.now) recorded) }
{
    let logs = NodeLogs::opening(alloc, &settings)?;
    let world = World::opening(alloc, settings)?;
    let mut recorded = Recorded { world, logs };
    recorded.make_all(alloc, events)?;
    Ok(recorded)
}

/// The files of a world and the logs of its nodes, under the settings of a text, which have this digest.
fn files_of(
    alloc: Global,
    text: Vec<u8>,
    digest: &SettingsDigest,
    recorded: Recorded,
) -> Result<Vec<DumpFile>, AllocError>
    ensures { IfOk result (λ files. map file_seen files.items
        ≡ files_in (context_of recorded.world) text.items digest.now recorded.world.world recorded.logs) }
{
    let Recorded { world, logs } = recorded;
    let mut files = Vec::new(alloc);
    put_log_files(alloc, &mut files, digest, logs.pharmacies())?;
    put_log_files(alloc, &mut files, digest, logs.switches())?;
    put_log_files(alloc, &mut files, digest, logs.payers())?;
    files.push(DumpFile {
        name: FileName::Settings,
        bytes: text,
    })?;
    put_records(alloc, &mut files, world, &logs)?;
    Ok(files)
}
