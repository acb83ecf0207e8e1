//! A run from its input to its report.

ghost use Rattle.std.specs.Prelude.{◌≡◌, ◌⊎◌, ◌+◌, ◌≤◌, true, false, [], length, replicate, IfOk, IfErr, OnOk, OnErr};
ghost use Rattle.std.specs.Io.KnownBytes.{Appends};
ghost use Rattle.std.specs.List.{AllByRecursion};
ghost use Rattle.world_report.specs.Words.{lines_text};
ghost use Rattle.schedule.specs.Runs.{run_seen};
ghost use Rattle.node_logged.specs.LedgerSeen.{tills_seen};
ghost use Rattle.schedule_run.specs.Told.{IsEmpty, RunCutOff, RunTold, done_line};
ghost use Rattle.schedule_run.specs.Output.{IsReported, IsStopped, Runs, EndsAs, is_early, is_start, Writes, WritesLines, JudgedLast, nodes_text};
ghost use Rattle.program_io.specs.Stops.{AppendsSome};

use crate::asked::{Asked, asked_of};
use crate::commands::make_commands;
use crate::fault::RunFault;
use crate::lines::put_done;
use node_threads::{Gate, System, Till, Workers};
use payer_book::HashKeys;
use program_io::{
    MOST_CALLS, ProgramFault, ReaderSource, Sink, Source, WriterSink, read_all, write_output,
};
use schedule::{Command, Run};
use std::alloc::{AllocError, Global};
use std::io::{Read, Write};
use std::sync::{Arc, Wait};
use std::thread::Threads;
use std::time::Clock;
use world_core::World;
use world_report::put_nodes;
use world_setup::{LinkFault, Node};

/// A gate that lets every worker pass.
#[derive(Drop)]
struct Open;

impl Gate for Open {
    fn inside(&self, _node: Node) {}
}

/// Starts the nodes of the settings on threads, makes the commands of the schedule, and once all threads have ended writes
/// the lines of all nodes.
///
/// The input is settings in TOML, a line `---`, and one fault of a link or command a line, as `schedule::read_run` says. A
/// fault prints `ok`. A command prints `ok`, or `refused` and the refusal's name; a submission that is taken prints `number`
/// and the number of its entry. `await` prints for each place of the request what was ruled, or that it is open after
/// 10,000 turns. The lines of the nodes are those of a replay's report. The maps of books hash with these
/// keys.
///
/// # Errors
/// `Program` with `Read`, then `Settings`, then `Line` of the first line that spells neither in its place, and then
/// `NoThread`, before anything is written; `Program` with `Write` or `OutOfMemory`; `Finish`. The threads have ended in each
/// case.
pub fn run_schedule_keyed<T, R: Read, W: Write>(
    rt: &T,
    alloc: Global,
    keys: &HashKeys,
    reader: &mut R,
    writer: &mut W,
) -> Result<(), RunFault>
where
    T: Threads + Wait + Clock + Copy + Send + 'static,
    // What the commands were told and the nodes as they ended were written, or the input, a thread, the end or a write is at fault.
    ensures { Runs result (R.remaining reader.old) W.contents writer.old writer.new }
{
    let mut source = ReaderSource::new(reader);
    let mut sink = WriterSink::new(writer);
    run_schedule_over(rt, alloc, keys, &mut source, &mut sink)
}

/// The same over a source and a sink.
///
/// # Errors
/// Those of `run_schedule_keyed`.
#[tactic(auto, using(std::proofs::lemmas::Result::err_from_is_err_and, crate::proofs::Endings::known_is, crate::proofs::CutOff::never_ran, crate::proofs::CutOff::refused_stops, crate::proofs::CutOff::unread_stops))]
pub fn run_schedule_over<T, S: Source, K: Sink>(
    rt: &T,
    alloc: Global,
    keys: &HashKeys,
    source: &mut S,
    sink: &mut K,
) -> Result<(), RunFault>
where
    T: Threads + Wait + Clock + Copy + Send + 'static,
    // What the commands were told and the nodes as they ended were written, or the input, a thread, the end or a write is at fault.
    ensures runs { Runs result (S.remaining source.old) K.contents sink.old sink.new }
    ensures calls { S.calls source.new ≤ S.calls source.old + MOST_CALLS }
    ensures same_reference { K.loan sink.new ≡ K.loan sink.old }
{
    let input = read_all(alloc, source)?;
    let asked = asked_of(alloc, keys, input.as_slice())?;
    run_asked(rt, alloc, asked, sink)
}

/// Starts the nodes, makes the commands, and writes the lines of all nodes.
#[tactic(auto, using(crate::proofs::CutOff::asked_before, crate::proofs::CutOff::on_fault))]
fn run_asked<T, K: Sink>(rt: &T, alloc: Global, asked: Asked, sink: &mut K) -> Result<(), RunFault>
where
    T: Threads + Wait + Clock + Copy + Send + 'static,
    ensures output { OnOk result (Writes K.contents sink.old sink.new
        (IsReported asked.settings (run_seen asked.run))) }
    ensures unwritten { IfErr result (λ fault. is_early fault ≡ true → sink.new ≡ sink.old) }
    ensures started { IfErr result (λ fault. is_start fault ≡ true) }
    ensures stopped { OnErr result (Writes K.contents sink.old sink.new
        (IsStopped asked.settings (run_seen asked.run))) }
    ensures told { JudgedLast result (K.contents sink.old) (K.contents sink.new) (run_seen asked.run) }
    ensures same_reference { K.loan sink.new ≡ K.loan sink.old }
{
    let Asked { settings, run } = asked;
    let pharmacies = settings.settings().pharmacies.len();
    let gate = Arc::new(alloc, Open)?;
    let (system, workers) = System::start(rt, alloc, settings, &gate, run.faults.as_slice())?;
    let world = run_to_end(rt, alloc, system, workers, pharmacies, &run, sink)?;
    write_nodes(alloc, &world, sink)?;
    Ok(())
}

/// Makes the commands, and ends the threads whatever came of that.
#[tactic(auto, using(crate::proofs::CutOff::if_fault))]
fn run_to_end<T, K: Sink>(
    rt: &T,
    alloc: Global,
    system: System,
    workers: Workers,
    pharmacies: usize,
    run: &Run,
    sink: &mut K,
) -> Result<World, RunFault>
where
    T: Threads + Wait + Clock,
    ensures ended { IfOk result (λ world. WritesLines K.contents sink.old sink.new
        (λ lines. EndsAs system (run_seen run.now) lines world)) }
    ensures faults { IfErr result (λ fault. is_early fault ≡ false) }
    ensures cut_off { OnErr result (Writes K.contents sink.old sink.new (RunCutOff (run_seen run.now))) }
    ensures unjudged { JudgedLast result (K.contents sink.old) (K.contents sink.new) (run_seen run.now) }
    ensures same_reference { K.loan sink.new ≡ K.loan sink.old }
{
    let mut tills = Vec::new(alloc);
    let made = serve(rt, alloc, &system, &mut tills, pharmacies, run, sink);
    let finished = system.finish(rt, workers, tills.as_slice());
    made?;
    Ok(finished?.world)
}

/// Opens a till at each pharmacy, tells the faults of links, and makes the commands.
#[tactic(auto, using(crate::proofs::CutOff::on_fault, crate::proofs::CutOff::stopped_before))]
fn serve<T: Wait + Clock, K: Sink>(
    rt: &T,
    alloc: Global,
    system: &System,
    tills: &mut Vec<Till>,
    pharmacies: usize,
    run: &Run,
    sink: &mut K,
) -> Result<(), ProgramFault>
    requires none { tills.now.items ≡ [] }
    ensures told { OnOk result (WritesLines K.contents sink.old sink.new
        (λ lines. RunTold (run_seen run.now) lines (tills_seen tills.new.items))) }
    ensures cut_off { OnErr result (Writes K.contents sink.old sink.new (RunCutOff (run_seen run.now))) }
    ensures faults { IfErr result (λ fault. (fault ≡ ProgramFault.Write) ⊎ (fault ≡ ProgramFault.OutOfMemory)) }
    ensures same_reference { K.loan sink.new ≡ K.loan sink.old }
{
    open_tills(system, tills, pharmacies)?;
    let told = faults_told(alloc, run.faults.as_slice())?;
    write_output(sink, told.as_slice())?;
    make_commands(
        rt,
        alloc,
        system,
        tills.as_mut_slice(),
        run.commands.as_slice(),
        sink,
    )
}

/// Opens a till at each pharmacy, in their order.
fn open_tills(system: &System, tills: &mut Vec<Till>, pharmacies: usize) -> Result<(), AllocError>
    requires none { tills.now.items ≡ [] }
    ensures { AllByRecursion IsEmpty (tills_seen tills.new.items) }
{
    for number in 1..=u16::MAX {
        if tills.len() >= pharmacies {
            return Ok(());
        }
        if let Ok(till) = system.till(number) {
            tills.push(till)?;
        }
    }
    Ok(())
}

/// The lines of the faults of links.
fn faults_told(alloc: Global, faults: &[LinkFault]) -> Result<Vec<u8>, AllocError>
    ensures { IfOk result (λ told. told.items ≡ lines_text (replicate (length faults.now) done_line)) }
{
    let mut told = Vec::new(alloc);
    for _ in faults {
        put_done(&mut told)?;
    }
    Ok(told)
}

/// Writes the lines of all nodes.
fn write_nodes<K: Sink>(alloc: Global, world: &World, sink: &mut K) -> Result<(), ProgramFault>
    ensures all { OnOk result (Appends (K.contents sink.old) (K.contents sink.new) (nodes_text world.now)) }
    ensures front { OnErr result (AppendsSome (K.contents sink.old) (K.contents sink.new) (nodes_text world.now)) }
    ensures faults { IfErr result (λ fault. (fault ≡ ProgramFault.Write) ⊎ (fault ≡ ProgramFault.OutOfMemory)) }
    ensures same_reference { K.loan sink.new ≡ K.loan sink.old }
{
    let mut told = Vec::new(alloc);
    put_nodes(&mut told, alloc, world)?;
    write_output(sink, told.as_slice())
}
