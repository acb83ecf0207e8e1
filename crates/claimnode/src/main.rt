//! The program `claimnode`: one node as a process, with its log on disk. Lines that ask the node stand on standard input,
//! what it says goes to standard output, and each call is on disk before what it sent is said.
#![tactic(auto)]

ghost use Rattle.std.specs.Prelude.{◌≡◌, ◌⊎◌, [], IfErr, OnOk};
ghost use Rattle.std.specs.Option.{option_copied};
ghost use Rattle.std.specs.Io.KnownBytes.{IsAtEnd};
ghost use Rattle.node_process.specs.Ends.{EndsFor};
ghost use Rattle.node_process.specs.Safe.{IsRun, IsRunDone, IsUnopened};
ghost use Rattle.claimnode.specs.Served.{owner_of};

mod checking;
mod file;
mod finding;
mod joining;
mod repair;
mod standard_streams;
mod turning;
mod words;

use crate::checking::check_settings;
use crate::file::{Purpose, take};
use crate::finding::Finding;
use crate::joining::join;
use crate::repair::repair;
use crate::standard_streams::take_standard;
use crate::turning::turn;
use crate::words::{Task, Words, words_of};
use command_line::{End, given_words, read_settings_file};
use log_folder::{OpenedFile, front_of};
use node_process::{Diskless, Host, Machine, Owner, Unserved, serve_all};
use payer_book::HashKeys;
use std::process::ExitCode;

fn main(rt: HostRuntime) -> ExitCode {
    match run(&rt) {
        Ok(()) => ExitCode::SUCCESS,
        Err(end) => end.told(&rt, "claimnode", 1),
    }
}

/// Does with a node what the command line asks for.
fn run(rt: &HostRuntime) -> Result<(), End<Finding>> {
    let _standard = take_standard(rt)?;
    let given = given_words(rt)?;
    let words = words_of(rt.alloc(), given.as_slice())?;
    let text = read_settings_file(rt, words.settings)?;
    match run_node(rt, &words, text.as_slice()) {
        Ok(()) => Ok(()),
        Err(finding) => Err(End::Own(finding)),
    }
}

/// Does with a node under settings what its words ask for.
fn run_node(rt: &HostRuntime, words: &Words<'_>, text: &[u8]) -> Result<(), Finding> {
    check_settings(rt.alloc(), words.node, text)?;
    match words.task() {
        Task::ServeDiskless => {
            let mut host = Diskless::new(rt.stdin(), rt.stdout());
            Ok(serve(rt, words, text, None, &mut host)?)
        }
        Task::Serve(log) => serve_log(rt, words, log, text),
        Task::Repair(log) => repair(rt, words, log, text),
        Task::Turn(log) => turn(rt, words, log, text),
        Task::Join(log, out) => join(rt, words, log, text, out),
    }
}

/// Serves a node from its log.
fn serve_log(rt: &HostRuntime, words: &Words<'_>, log: &str, text: &[u8]) -> Result<(), Finding> {
    let disk = take(rt, log, Purpose::Serve)?;
    let mut file = OpenedFile::new(disk.into_file()?);
    let front = front_of(rt.alloc(), &mut file)?;
    let (input, output) = (rt.stdin(), rt.stdout());
    let mut host = Host::new(rt, log, file.into_file(), front.size, input, output);
    Ok(serve(rt, words, text, front.rest.as_deref(), &mut host)?)
}

/// Serves the node that the command line names, whose log begins with this rest, where it has one, over a system of which nothing
/// was asked yet, until its input ends. The node that it leaves in memory goes.
fn serve<M: Machine>(
    rt: &HostRuntime,
    words: &Words<'_>,
    text: &[u8],
    rest: Option<&[u8]>,
    machine: &mut M,
) -> Result<(), Unserved>
    requires { M.acts machine.old ≡ [] }
    ensures each { IsUnopened (M.acts machine.new)
        ⊎ IsRun (owner_of words.now text.now (option_copied rest.entry)) (M.acts machine.new) }
    ensures done { OnOk result (IsRunDone (owner_of words.now text.now (option_copied rest.entry)) (M.acts machine.new)) }
    ensures ended { OnOk result (IsAtEnd (M.coming machine.new)) }
    ensures why { IfErr result (EndsFor (owner_of words.now text.now (option_copied rest.entry)) (M.acts machine.new)) }
{
    let owner = Owner {
        settings: text,
        node: words.node,
        rest,
        least: words.least,
    };
    let mut memory = None;
    serve_all(rt.alloc(), &hash_keys(rt), &owner, machine, &mut memory)
}

/// What the maps of a payer's book hash with: keys that nobody knows. Where the system has no random bytes to give, the
/// fixed keys serve, since no answer hangs on them.
fn hash_keys(rt: &HostRuntime) -> HashKeys {
    match HashKeys::random(rt) {
        Ok(keys) => keys,
        Err(_) => HashKeys::fixed(),
    }
}
