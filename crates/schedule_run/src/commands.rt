//! Making the commands of a run.

ghost use Rattle.std.specs.Prelude.{◌≡◌, ◌<◌, ◌⊎◌, length, slice_get, IfErr, IfSome, OnOk, OnErr};
ghost use Rattle.node_logged.specs.TillSeen.{till_seen};
ghost use Rattle.node_logged.specs.LedgerSeen.{tills_seen};
ghost use Rattle.schedule_run.specs.Output.{Writes, WritesLines};
ghost use Rattle.schedule_run.specs.Told.{AreTold, IsAwaited, IsCutOff, IsSubmitted, IsTold, Tells, AddsTold};

use crate::awaiting::{Awaited, wait_for};
use crate::lines::{put_open, put_outcome, put_refused, put_settled, put_submitted};
use crate::place_count::places_of;
use node_threads::{System, Till};
use program_io::{ProgramFault, Sink, write_output};
use schedule::Command;
use std::alloc::{AllocError, Global};
use std::sync::Wait;
use std::time::Clock;
use world_setup::{Fault, Refusal};

/// Makes the commands in order, each line written before the next command is made.
///
/// # Errors
/// `Write`, where the commands after that line are not made; `OutOfMemory`. What was written is a beginning of the lines of
/// the first commands.
#[tactic(auto, using(crate::proofs::Turns::nothing_written, crate::proofs::CutOff::on_fault, crate::proofs::CutOff::stopped_between))]
pub(crate) fn make_commands<T: Wait + Clock, K: Sink>(
    rt: &T,
    alloc: Global,
    system: &System,
    tills: &mut [Till],
    commands: &[Command],
    sink: &mut K,
) -> Result<(), ProgramFault>
    ensures told { OnOk result (WritesLines K.contents sink.old sink.new
        (λ lines. AreTold commands.now (tills_seen tills.old) lines (tills_seen tills.new))) }
    ensures cut_off { OnErr result (Writes K.contents sink.old sink.new
        (IsCutOff commands.now (tills_seen tills.old))) }
    ensures faults { IfErr result (λ fault. (fault ≡ ProgramFault.Write) ⊎ (fault ≡ ProgramFault.OutOfMemory)) }
    ensures same_reference { K.loan sink.new ≡ K.loan sink.old }
{
    for command in commands {
        let mut told = Vec::new(alloc);
        make_command(&mut told, rt, alloc, system, tills, command)?;
        write_output(sink, told.as_slice())?;
    }
    Ok(())
}

/// Makes one command and appends what came of it.
fn make_command<T: Wait + Clock>(
    told: &mut Vec<u8>,
    rt: &T,
    alloc: Global,
    system: &System,
    tills: &mut [Till],
    command: &Command,
) -> Result<(), AllocError>
    ensures { OnOk result (AddsTold told.old told.new
        (λ lines. IsTold command.now (tills_seen tills.old) lines (tills_seen tills.new))) }
{
    match command {
        Command::Submit { pharmacy, text } => {
            submit(told, rt, system, tills, *pharmacy, text.as_slice())
        }
        Command::Tick { pharmacy } => put_outcome(told, system.tick(rt, *pharmacy)),
        Command::Plan {
            payer,
            product,
            price,
        } => put_outcome(
            told,
            system.change_plan(rt, *payer, product.as_slice(), *price),
        ),
        Command::Restart(node) => put_outcome(told, system.restart(rt, *node)),
        Command::Await { pharmacy, number } => {
            await_answer(told, rt, alloc, system, tills, *pharmacy, *number)
        }
    }
}

/// Submits a request at a pharmacy's till.
fn submit<T: Wait>(
    told: &mut Vec<u8>,
    rt: &T,
    system: &System,
    tills: &mut [Till],
    pharmacy: u16,
    request: &[u8],
) -> Result<(), AllocError>
    ensures { OnOk result (AddsTold told.old told.new
        (λ lines. IsSubmitted pharmacy request.now (tills_seen tills.old) lines (tills_seen tills.new))) }
{
    match place_of(tills, pharmacy) {
        Some(place) => put_submitted(told, system.submit(rt, &mut tills[place], request)),
        None => put_outcome(told, Err(Fault::Refused(Refusal::NoSuchNode))),
    }
}

/// Waits for the answer of a request at a pharmacy.
fn await_answer<T: Wait + Clock>(
    told: &mut Vec<u8>,
    rt: &T,
    alloc: Global,
    system: &System,
    tills: &mut [Till],
    pharmacy: u16,
    number: u64,
) -> Result<(), AllocError>
    ensures { OnOk result (AddsTold told.old told.new
        (λ lines. IsAwaited pharmacy number (tills_seen tills.old) lines (tills_seen tills.new))) }
{
    match place_of(tills, pharmacy) {
        Some(place) => await_at(told, rt, alloc, system, &mut tills[place], pharmacy, number),
        None => put_outcome(told, Err(Fault::Refused(Refusal::NoSuchNode))),
    }
}

/// Waits for the answer of a request at a till of this pharmacy.
#[tactic(auto, using(std::proofs::lemmas::Result::on_ok_weaker, crate::proofs::Looks::answer_told, crate::proofs::Looks::open_told))]
fn await_at<T: Wait + Clock>(
    told: &mut Vec<u8>,
    rt: &T,
    alloc: Global,
    system: &System,
    till: &mut Till,
    pharmacy: u16,
    number: u64,
) -> Result<(), AllocError>
    ensures { OnOk result (AddsTold told.old told.new
        (λ lines. Tells pharmacy number lines (till_seen till.old) (till_seen till.new))) }
{
    match wait_for(rt, system, till, number)? {
        Awaited::Settled(answer) => {
            put_settled(told, alloc, pharmacy, number, answer.as_slice())
        }
        Awaited::Open => put_open(told, pharmacy, number, places_of(till, number)),
        Awaited::NotThisTill => put_refused(told, b"NotThisTill"),
    }
}

/// The place of a pharmacy's till; the tills stand in the order of the pharmacies.
fn place_of(tills: &[Till], pharmacy: u16) -> Option<usize>
    ensures within { IfSome result (λ place. place < length tills.now) }
    ensures of { IfSome result (λ place. IfSome (slice_get tills.now place) (λ till. till.pharmacy ≡ pharmacy)) }
{
    let place = usize::from(pharmacy).checked_sub(1)?;
    let till = tills.get(place)?;
    (till.pharmacy() == pharmacy).then_some(place)
}
