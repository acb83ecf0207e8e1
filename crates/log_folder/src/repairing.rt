//! A damaged log that is repaired: what stands behind the damage is told, and is cut off where its place was typed back.

ghost use Rattle.std.specs.Prelude.{◌≡◌, ◌++◌, IfErr, IfOk, OnOk};
ghost use Rattle.world_setup.specs.Seen.{node_seen};
ghost use Rattle.log_turning.specs.Files.{part_in};
ghost use Rattle.log_folder.specs.declared.fault.RepairFault.TheVariants.{OutOfMemory};
ghost use Rattle.log_folder.specs.Repairing.{IsRepaired, IsUnrepaired, TellsDamage, TellsOf, cut_line, ends_damaged, ends_so, ends_sound, run_lines, sound_lines};

use crate::fault::{RepairFault, Unrepaired};
use crate::folder::Folder;
use crate::mending::{Condition, CutOff, Mended, mend_log};
use crate::telling::Line;
use crate::undamaged::{Run, records_before, runs_from};
use log_turning::part_of;
use node_service::ServiceFault;
use std::alloc::{AllocError, Global};
use world_setup::Node;

/// A log that was repaired, or looked at.
#[derive(Drop)]
pub struct Repaired {
    /// What is told of it, in this order.
    pub told: Vec<Line>,
    /// How it ends.
    pub ended: Result<(), Unrepaired>,
}

/// Tells what stands before and behind the damage of a log of a node, and cuts it off there where this place was typed. The log was
/// taken.
///
/// # Errors
/// The log is refused, and not for a damage; or it could not be read.
pub fn repair_log<F: Folder>(
    alloc: Global,
    text: &[u8],
    node: Node,
    typed: Option<u64>,
    folder: &mut F,
) -> Result<Repaired, RepairFault>
    ensures refused { IfErr result (λ why.
        IsUnrepaired text.now (node_seen node) why (F.deeds folder.old) (F.deeds folder.new)) }
    ensures done { IfOk result (λ repaired.
        IsRepaired text.now (node_seen node) typed repaired (F.deeds folder.old) (F.deeds folder.new)) }
{
    match mend_log(alloc, text, node, typed, folder) {
        Ok(mended) => told_of(alloc, mended),
        Err(why) => Err(RepairFault::Unmended(why)),
    }
}

/// What is told of a log that was mended, and how it ends.
fn told_of(alloc: Global, mended: Mended) -> Result<Repaired, RepairFault>
    ensures told { IfOk result (λ repaired.
        TellsOf (part_in mended.bytes.items).log mended.condition mended.cut repaired.told.items) }
    ensures ended { IfOk result (λ repaired. repaired.ended ≡ ends_so mended.condition mended.cut) }
    ensures memory { IfErr result (λ why. why ≡ OutOfMemory) }
{
    match lines_of(alloc, &mended) {
        Ok(told) => {
            let ended = end_of(mended.condition, mended.cut);
            Ok(Repaired { told, ended })
        }
        Err(_) => Err(RepairFault::OutOfMemory),
    }
}

/// What is told of a log that was mended.
fn lines_of(alloc: Global, mended: &Mended) -> Result<Vec<Line>, AllocError>
    ensures { IfOk result (λ told.
        TellsOf (part_in mended.now.bytes.items).log mended.now.condition mended.now.cut told.items) }
{
    let log = part_of(mended.bytes.as_slice()).log;
    match mended.condition {
        Condition::Sound(calls, whole) => sound_lines(alloc, calls, whole, log.len()),
        Condition::Damaged(place, why) => damage_in(alloc, log, place, why, &mended.cut),
    }
}

/// What is told of a log of this many bytes that is sound.
fn sound_lines(
    alloc: Global,
    calls: u64,
    whole: usize,
    size: usize,
) -> Result<Vec<Line>, AllocError>
    ensures { IfOk result (λ told. told.items ≡ sound_lines calls whole size) }
{
    let torn = size.saturating_sub(whole);
    let mut told = Vec::new(alloc);
    told.push(Line::Sound(calls, whole))?;
    if torn > 0 {
        told.push(Line::Torn(torn))?;
    }
    Ok(told)
}

/// What is told of a log that is damaged at this place, and so.
fn damage_in(
    alloc: Global,
    log: &[u8],
    place: usize,
    why: ServiceFault,
    cut: &CutOff,
) -> Result<Vec<Line>, AllocError>
    ensures { IfOk result (λ told. TellsDamage log.now place why cut.now told.items) }
{
    let calls = records_before(log, place);
    let runs = runs_from(alloc, log, place, calls + 1)?;
    let mut told = Vec::new(alloc);
    told.push(Line::Before(calls, place))?;
    told.push(Line::Damage(why, log.len().saturating_sub(place)))?;
    put_runs(&mut told, runs.as_slice())?;
    put_cut(&mut told, place, calls, cut)?;
    Ok(told)
}

/// Tells each run, or that there is none.
fn put_runs(told: &mut Vec<Line>, runs: &[Run]) -> Result<(), AllocError>
    ensures { OnOk result (told.new.items ≡ told.old.items ++ run_lines runs.now) }
{
    if runs.is_empty() {
        return Ok(told.push(Line::NoneUndamaged)?);
    }
    for run in runs {
        told.push(Line::Undamaged(*run))?;
    }
    Ok(())
}

/// Tells that a log was cut, where that was done.
fn put_cut(told: &mut Vec<Line>, place: usize, calls: u64, cut: &CutOff) -> Result<(), AllocError>
    ensures { OnOk result (told.new.items ≡ told.old.items ++ cut_line place calls cut.now) }
{
    match cut {
        CutOff::Done => Ok(told.push(Line::Cut(place, calls))?),
        CutOff::NotAsked | CutOff::Elsewhere | CutOff::Failed(_) => Ok(()),
    }
}

/// How the repair of a log in this condition ends, where this was cut off.
fn end_of(condition: Condition, cut: CutOff) -> Result<(), Unrepaired>
    ensures { result ≡ ends_so condition cut }
{
    match condition {
        Condition::Sound(_, _) => sound_end(cut),
        Condition::Damaged(place, _) => damage_end(place, cut),
    }
}

/// The same of a log that is sound.
fn sound_end(cut: CutOff) -> Result<(), Unrepaired>
    ensures { result ≡ ends_sound cut }
{
    match cut {
        CutOff::NotAsked | CutOff::Done => Ok(()),
        CutOff::Elsewhere => Err(Unrepaired::NotDamaged),
        CutOff::Failed(error) => Err(Unrepaired::Io(error)),
    }
}

/// The same of a log that is damaged at this place.
fn damage_end(place: usize, cut: CutOff) -> Result<(), Unrepaired>
    ensures { result ≡ ends_damaged place cut }
{
    match cut {
        CutOff::NotAsked => Err(Unrepaired::Damaged(place)),
        CutOff::Elsewhere => Err(Unrepaired::OtherPlace(place)),
        CutOff::Done => Ok(()),
        CutOff::Failed(error) => Err(Unrepaired::Io(error)),
    }
}
