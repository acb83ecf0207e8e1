//! Lines served in turns.

ghost use Rattle.std.specs.Prelude.{◌≡◌, ◌<◌, ◌⊎◌, [], cond, length, Some, None, IfErr, OnErr, OnOk};
ghost use Rattle.std.specs.Io.KnownBytes.{IsAtEnd};
ghost use Rattle.node_process.specs.Acts.{heard};
ghost use Rattle.node_process.specs.Ends.{Breaks, EndsFor, Leaves, Remembers, Stops, stays};
ghost use Rattle.node_process.specs.Safe.{IsRun, IsRunDone, IsUnopened, Logs, Reads, Serves, owner_seen};

use crate::machine::Machine;
use crate::opening::{Opened, Owner, lay_down, open};
use crate::pending::serve_heard;
use crate::unserved::Unserved;
use node_service::Service;
use payer_book::HashKeys;
use std::alloc::Global;
use std::io;

/// The most bytes that are read at once. All lines that wait in them are served, and synced once.
const CHUNK: usize = 65_536;

/// Serves the owner's node from its log until the input ends: a turn takes what waits, appends what it records and syncs it,
/// and then says what came of it. What it had in memory when it ended is left to its caller: at the end of the input, and
/// where a call of the system has failed, the node that it served.
///
/// # Errors
/// What refuses the node, a log of fewer calls than it is known to have, a line that is too long, or the first call of the
/// system that failed: nothing is done after it.
pub fn serve_all<M: Machine>(
    alloc: Global,
    keys: &HashKeys,
    owner: &Owner<'_>,
    machine: &mut M,
    memory: &mut Option<Service>,
) -> Result<(), Unserved>
    requires new { M.acts machine.old ≡ [] }
    requires empty { memory.old ≡ None }
    // Stopped at any moment, it was safe: at `Ok`, and at every error; and nothing was said from a log of fewer calls.
    ensures each { IsUnopened (M.acts machine.new) ⊎ IsRun (owner_seen owner.now) (M.acts machine.new) }
    // At `Ok` the input has ended, and all whole lines of it are on disk and were answered.
    ensures done { OnOk result (IsRunDone (owner_seen owner.now) (M.acts machine.new)) }
    ensures ended { OnOk result (IsAtEnd (M.coming machine.new)) }
    // At an error its cause is true.
    ensures why { IfErr result (EndsFor (owner_seen owner.now) (M.acts machine.new)) }
    // What is in memory is what the log makes, whichever call of the system was the last; and nothing where opening was refused.
    ensures memory { Leaves (owner_seen owner.now) (M.acts machine.new) result memory.new }
{
    let mut buffer = Vec::from_elem(alloc, 0u8, CHUNK)?;
    let opened = open(alloc, keys, owner, machine)?;
    live(alloc, owner, machine, memory, opened, buffer.as_mut_slice())
}

/// Serves a node that was opened, and leaves it.
#[tactic(auto, using(crate::proofs::Turning::stops_ends, crate::proofs::Turning::leaves))]
fn live<M: Machine>(
    alloc: Global,
    owner: &Owner<'_>,
    machine: &mut M,
    memory: &mut Option<Service>,
    opened: Opened,
    buffer: &mut [u8],
) -> Result<(), Unserved>
    requires reads { Reads (owner_seen owner.now) (M.acts machine.old) opened.whole opened.size opened.service }
    requires empty { memory.old ≡ None }
    requires room { 0 < length buffer.old }
    ensures each { IsRun (owner_seen owner.now) (M.acts machine.new) }
    ensures done { OnOk result (IsRunDone (owner_seen owner.now) (M.acts machine.new)) }
    ensures ended { OnOk result (IsAtEnd (M.coming machine.new)) }
    ensures why { IfErr result (EndsFor (owner_seen owner.now) (M.acts machine.new)) }
    ensures memory { Leaves (owner_seen owner.now) (M.acts machine.new) result memory.new }
{
    let Opened {
        service,
        whole,
        size,
    } = opened;
    let mut service = service;
    let ended = serve_opened(alloc, owner, machine, &mut service, whole, size, buffer);
    remember(memory, service, stays(&ended));
    ended
}

/// Leaves a node where it stays.
fn remember(memory: &mut Option<Service>, service: Service, stays: bool)
    ensures { memory.new ≡ cond stays (Some service) memory.old }
{
    if stays {
        *memory = Some(service);
    }
}

/// Whether the node stays in memory where a process ends so.
fn stays(ended: &Result<(), Unserved>) -> bool
    ensures { result ≡ stays ended.now }
{
    match ended {
        Ok(()) => true,
        Err(Unserved::Io(_)) => true,
        Err(_) => false,
    }
}

/// Has the log of a node that was opened on disk, and serves it until the input ends.
fn serve_opened<M: Machine>(
    alloc: Global,
    owner: &Owner<'_>,
    machine: &mut M,
    service: &mut Service,
    whole: usize,
    size: usize,
    buffer: &mut [u8],
) -> Result<(), Unserved>
    requires reads { Reads (owner_seen owner.now) (M.acts machine.old) whole size service.old }
    requires room { 0 < length buffer.old }
    ensures each { IsRun (owner_seen owner.now) (M.acts machine.new) }
    ensures done { OnOk result (IsRunDone (owner_seen owner.now) (M.acts machine.new)) }
    ensures ended { OnOk result (IsAtEnd (M.coming machine.new)) }
    ensures held { OnOk result (Remembers (owner_seen owner.now) (M.acts machine.new) service.new) }
    ensures why { IfErr result (Stops (owner_seen owner.now) (M.acts machine.new) service.new) }
{
    lay_down(alloc, owner, machine, service, whole, size)?;
    service.clear();
    serve(alloc, owner, machine, service, buffer)
}

/// Serves turns until the input ends.
#[tactic(auto, using(crate::proofs::Turning::turn_serves, crate::proofs::Turning::turn_held))]
fn serve<M: Machine>(
    alloc: Global,
    owner: &Owner<'_>,
    machine: &mut M,
    service: &mut Service,
    buffer: &mut [u8],
) -> Result<(), Unserved>
    requires served { Serves (owner_seen owner.now) (M.acts machine.old) service.old }
    requires deaf { heard (M.acts machine.old) ≡ [] }
    requires quiet { (service.old.records ≡ []) × (service.old.out ≡ []) }
    requires room { 0 < length buffer.old }
    ensures each { IsRun (owner_seen owner.now) (M.acts machine.new) }
    ensures done { OnOk result (IsRunDone (owner_seen owner.now) (M.acts machine.new)) }
    ensures ended { OnOk result (IsAtEnd (M.coming machine.new)) }
    ensures held { OnOk result (Remembers (owner_seen owner.now) (M.acts machine.new) service.new) }
    ensures why { IfErr result (Stops (owner_seen owner.now) (M.acts machine.new) service.new) }
{
    let mut pending = Vec::new(alloc);
    for _ in 0..u64::MAX {
        let count = machine.hear(buffer)?;
        if count == 0 {
            return Ok(());
        }
        serve_heard(alloc, service, &mut pending, &buffer[..count])?;
        keep_records(owner, machine, service)?;
        say(owner, machine, service)?;
    }
    Err(Unserved::TooManyTurns)
}

/// Appends the records of a turn and syncs them, where there are any.
#[tactic(auto, using(crate::proofs::Moments::append_runs, crate::proofs::Moments::sync_runs, crate::proofs::Moments::sync_logs, crate::proofs::Moments::when_done, crate::proofs::Moments::when_failed, crate::proofs::Moments::whatever_failed, crate::proofs::Remembering::append_breaks, crate::proofs::Remembering::sync_breaks))]
fn keep_records<M: Machine>(owner: &Owner<'_>, machine: &mut M, service: &Service) -> io::Result<()>
    requires { Serves (owner_seen owner.now) (M.acts machine.old) service.now }
    ensures each { IsRun (owner_seen owner.now) (M.acts machine.new) }
    ensures heard { heard (M.acts machine.new) ≡ heard (M.acts machine.old) }
    ensures logged { OnOk result
        (Logs (owner_seen owner.now) (M.acts machine.new) service.now) }
    ensures broken { OnErr result (Breaks (owner_seen owner.now) (M.acts machine.new) service.now) }
{
    if service.records().is_empty() {
        return Ok(());
    }
    machine.append(service.records())?;
    machine.sync()
}

/// Says what came of a turn, whose records are on disk.
#[tactic(auto, using(crate::proofs::Moments::say_runs, crate::proofs::Moments::say_serves, crate::proofs::Moments::whatever_failed, crate::proofs::Remembering::say_breaks))]
fn say<M: Machine>(owner: &Owner<'_>, machine: &mut M, service: &mut Service) -> io::Result<()>
    requires { Logs (owner_seen owner.now) (M.acts machine.old) service.old }
    ensures each { IsRun (owner_seen owner.now) (M.acts machine.new) }
    ensures heard { heard (M.acts machine.new) ≡ heard (M.acts machine.old) }
    ensures served { OnOk result
        (Serves (owner_seen owner.now) (M.acts machine.new) service.new) }
    ensures quiet { OnOk result ((service.new.records ≡ []) × (service.new.out ≡ [])) }
    ensures broken { OnErr result (Breaks (owner_seen owner.now) (M.acts machine.new) service.new) }
{
    machine.say(service.written())?;
    service.clear();
    Ok(())
}
