//! The program `claimgrow`: the settings of a network, ones that they have grown to, and logs of its nodes. It tells of each log
//! whether it goes over to the new settings, and where all do, writes each of them so.
#![tactic(auto)]

ghost use Rattle.std.specs.Prelude.{IfOk};
ghost use Rattle.settings_digest.specs.Digests.{AreOf};

mod finding;
mod words;

use crate::finding::Finding;
use crate::words::{Words, words_of};
use command_line::{End, given_words, read_settings_file};
use growing_logs::{Disk, GrowFault, Reader, judge_all, name_of, rows_for};
use log_growth::{Grown, GrowthFault, grows};
use log_turning::WholeFault;
use replaced_files::{replace_all, some_stay, take_all};
use std::alloc::Global;
use std::io::Write;
use std::process::ExitCode;
use world_settings::living_settings_fault;

/// Why the program ends before each log is one of the new settings.
type Ungone = End<Finding>;

fn main(rt: HostRuntime) -> ExitCode {
    match run(&rt) {
        Ok(()) => ExitCode::SUCCESS,
        Err(end) => end.told(&rt, "claimgrow", 1),
    }
}

/// Takes the logs that the command line names over, where all of them go over.
fn run(rt: &HostRuntime) -> Result<(), Ungone> {
    let alloc = rt.alloc();
    let given = given_words(rt)?;
    let words = words_of(alloc, given.as_slice())?;
    let old = read_settings_file(rt, words.old)?;
    let new = read_settings_file(rt, words.new)?;
    let grown = check_growth(alloc, old.as_slice(), new.as_slice())?;
    match grow(rt, &words, &grown, old.as_slice(), new.as_slice()) {
        Ok(()) => Ok(()),
        Err(fault) => ended(alloc, words.logs.as_slice(), fault),
    }
}

/// Whether the old settings have grown to the new ones, and the digests of both.
fn check_growth(alloc: Global, old: &[u8], new: &[u8]) -> Result<Grown, Ungone>
    ensures old { IfOk result (λ grown. AreOf old.now grown.old) }
    ensures new { IfOk result (λ grown. AreOf new.now grown.new) }
{
    match grows(alloc, old, new) {
        Ok(grown) => Ok(grown),
        Err(GrowthFault::OutOfMemory) => Err(End::OutOfMemory),
        Err(GrowthFault::OldSettings) => Err(why_refused(alloc, GrowthFault::OldSettings, old)),
        Err(GrowthFault::NewSettings) => Err(why_refused(alloc, GrowthFault::NewSettings, new)),
        Err(fault) => Err(End::Own(Finding::Growth(fault))),
    }
}

/// The end for settings that are refused, with what is wrong in them.
fn why_refused(alloc: Global, fault: GrowthFault, text: &[u8]) -> Ungone {
    match living_settings_fault(alloc, text) {
        Ok(Some(why)) => End::Own(Finding::Refused(fault, why)),
        Ok(None) => End::Own(Finding::Growth(fault)),
        Err(_) => End::OutOfMemory,
    }
}

/// Takes the logs for this process, judges and tells of each, and replaces those that go over, where all do; or writes the rows by which
/// what switches rejected stays rejected.
fn grow(
    rt: &HostRuntime,
    words: &Words<'_>,
    grown: &Grown,
    old: &[u8],
    new: &[u8],
) -> Result<(), GrowFault>
    requires old { AreOf old.now grown.now.old }
    requires new { AreOf new.now grown.now.new }
{
    let names = words.logs.as_slice();
    let mut disk = Disk::new(rt, names);
    take_all(&mut disk, names.len())?;
    let mut logs = Reader::new(rt, names, old, new);
    if words.reject {
        let rows = rows_for(rt.alloc(), grown, new, names.len(), &mut logs)?;
        return write_out(rt, rows.as_slice());
    }
    let judged = judge_all(rt.alloc(), grown, old, new, names, &mut logs)?;
    write_out(rt, judged.lines.as_slice())?;
    let fates = judged.fates.as_slice();
    if !words.check || some_stay(fates) {
        replace_all(&mut disk, fates)?;
    }
    Ok(())
}

/// Writes to standard output.
fn write_out(rt: &HostRuntime, text: &[u8]) -> Result<(), GrowFault> {
    let mut writer = rt.stdout();
    writer.write_all(text)?;
    writer.flush()?;
    Ok(())
}

/// The end for a fault of logs of these names.
fn ended(alloc: Global, names: &[&str], fault: GrowFault) -> Result<(), Ungone> {
    Err(match fault {
        GrowFault::OutOfMemory => End::OutOfMemory,
        GrowFault::Output(error) => End::Io(error),
        GrowFault::Unread(fault) => unread(fault),
        GrowFault::Busy(place) => End::Own(Finding::Locked(name_of(alloc, names, place)?)),
        GrowFault::File(place, error) => End::File(name_of(alloc, names, place)?, error),
        GrowFault::Stays(place, fault) => {
            End::Own(Finding::Stays(name_of(alloc, names, place)?, fault))
        }
        GrowFault::Unspelled(place) => End::Own(Finding::Unspelled(name_of(alloc, names, place)?)),
        GrowFault::SomeStay => End::Own(Finding::SomeStay),
    })
}

/// The end for a log that is not read.
fn unread(fault: WholeFault) -> Ungone {
    match fault {
        WholeFault::OutOfMemory => End::OutOfMemory,
        WholeFault::File(name, error) => End::File(name, error),
        WholeFault::Logs(name, fault) => End::Own(Finding::Joining(name, fault)),
        WholeFault::Rest(name, fault) => End::Own(Finding::Rest(name, fault)),
    }
}
