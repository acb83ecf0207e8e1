//! A damaged log: what stands from the damage on is cut off where its place was typed back.

ghost use Rattle.std.specs.Prelude.{◌≡◌, IfErr, IfOk, OnOk};
ghost use Rattle.world_setup.specs.Seen.{node_seen};
ghost use Rattle.log_folder.specs.Deeds.{IsFollowed, all_done};
ghost use Rattle.log_folder.specs.Mending.{IsCutOff, IsInCondition, IsMended, IsUnmended, IsUntold};
ghost use Rattle.log_folder.specs.Plans.{cutting};
ghost use Rattle.log_folder.specs.Plans as plan;

use crate::cutting::{cut_off, place_in};
use crate::fault::MendFault;
use crate::folder::Folder;
use kept_logs::LogFault;
use log_turning::part_of;
use node_service::{Service, ServiceFault};
use payer_book::HashKeys;
use std::alloc::Global;
use std::io;
use world_setup::Node;

/// How a log was found.
#[derive(Clone, Copy, Debug, PartialEq, Eq)]
pub enum Condition {
    /// It is not damaged: how many calls it has, and how many of its bytes their records end at.
    Sound(u64, usize),
    /// It is damaged at this place, and so.
    Damaged(usize, ServiceFault),
}

/// What was cut off.
#[derive(Debug, Drop)]
pub enum CutOff {
    /// Nothing, since no place was typed.
    NotAsked,
    /// Nothing, since the place that was typed is not that of a damage.
    Elsewhere,
    /// What stood from the damage on. It is kept beside the log.
    Done,
    /// A call of the system failed: nothing was done after it.
    Failed(io::Error),
}

/// A log that was looked at.
#[derive(Drop)]
pub struct Mended {
    /// All bytes of its file, as they were read.
    pub bytes: Vec<u8>,
    /// How it was found.
    pub condition: Condition,
    /// What was cut off.
    pub cut: CutOff,
}

/// Looks whether the log of a node is damaged, and cuts it off at the damage where this place was typed. The log was taken.
///
/// # Errors
/// The log is refused, and not for a damage; or it could not be read.
pub fn mend_log<F: Folder>(
    alloc: Global,
    text: &[u8],
    node: Node,
    typed: Option<u64>,
    folder: &mut F,
) -> Result<Mended, MendFault>
    ensures refused { IfErr result (λ why.
        IsUnmended text.now (node_seen node) why (F.deeds folder.old) (F.deeds folder.new)) }
    ensures done { IfOk result (λ mended.
        IsMended text.now (node_seen node) typed mended (F.deeds folder.old) (F.deeds folder.new)) }
{
    let bytes = folder.read(alloc)?;
    let condition = condition_of(alloc, text, node, bytes.as_slice())?;
    let cut = cut_where_typed(condition, typed, bytes.as_slice(), folder);
    Ok(Mended {
        bytes,
        condition,
        cut,
    })
}

/// How the log is that stands in a file of these bytes.
fn condition_of(
    alloc: Global,
    text: &[u8],
    node: Node,
    bytes: &[u8],
) -> Result<Condition, MendFault>
    ensures told { IfOk result (λ condition. IsInCondition text.now (node_seen node) bytes.now condition) }
    ensures refused { IfErr result (λ why. IsUntold text.now (node_seen node) bytes.now why) }
{
    let part = part_of(bytes);
    match Service::open(alloc, &HashKeys::fixed(), text, node, part.rest, part.log) {
        Ok((service, whole)) => Ok(Condition::Sound(service.calls(), whole)),
        Err(fault) => match damage_in(fault) {
            Some(place) => Ok(Condition::Damaged(place, fault)),
            None => Err(MendFault::Refused(fault)),
        },
    }
}

/// Cuts a log off at its damage, where the place of that was typed.
fn cut_where_typed<F: Folder>(
    condition: Condition,
    typed: Option<u64>,
    bytes: &[u8],
    folder: &mut F,
) -> CutOff
    ensures { IsCutOff condition typed bytes.now result (F.deeds folder.old) (F.deeds folder.new) }
{
    let Some(typed) = typed else {
        return CutOff::NotAsked;
    };
    match condition {
        Condition::Sound(_, _) => CutOff::Elsewhere,
        Condition::Damaged(place, _) => {
            if typed != place as u64 {
                return CutOff::Elsewhere;
            }
            match cut(folder, place_in(bytes, place)) {
                Ok(()) => CutOff::Done,
                Err(error) => CutOff::Failed(error),
            }
        }
    }
}

/// Cuts the file after this many bytes, and has it on disk.
fn cut<F: Folder>(folder: &mut F, place: u64) -> io::Result<()>
    ensures each { IsFollowed (cutting place) (F.deeds folder.old) (F.deeds folder.new) }
    ensures done { OnOk result (F.deeds folder.new ≡ all_done (cutting place) (F.deeds folder.old)) }
{
    cut_off(folder, place)?;
    folder.sync()?;
    folder.sync_names()
}

/// The place of a damage; none of another fault.
fn damage_in(fault: ServiceFault) -> Option<usize>
    ensures { result ≡ plan.damage_in fault }
{
    match fault {
        ServiceFault::Log(LogFault::Damaged(place)) => Some(place),
        ServiceFault::Log(LogFault::BadRecord(place)) => Some(place),
        ServiceFault::NotMade(place) => Some(place),
        _ => None,
    }
}
