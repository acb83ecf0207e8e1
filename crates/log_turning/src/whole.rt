//! All logs of a node as one, from what their files have.

ghost use Rattle.std.specs.Prelude.{◌≡◌, ◌↔◌, ◌++◌, ◌∷◌, [], ℕ, List, Option, None, map, IfErr, IfOk, IsTrue, OnOk};
ghost use Rattle.std.specs.Option.{option_copied, option_map};
ghost use Rattle.claim_model.specs.Node as model;
ghost use Rattle.world_setup.specs.Seen.{node_seen};
ghost use Rattle.log_turning.specs.Joined as parted;
ghost use Rattle.log_turning.specs.Joined.{part_seen};
ghost use Rattle.log_turning.specs.Left.{IsUnleft};
ghost use Rattle.log_turning.specs.Unjoined.{IsUnjoined};
ghost use Rattle.log_turning.specs.Whole.{IsNotOne, IsOne, IsUnwhole, IsWhole, bytes_in, first_in, first_part, owner_for, owner_in, owner_of, part_for, parts_in};
ghost use Rattle.log_turning.specs.declared.fault.JoinFault.TheVariants as JoinFault;

use crate::fault::{JoinFault, RestFault};
use crate::files::part_of;
use crate::joining::{Part, join_logs};
use crate::leaving::check_rests;
use kept_logs::read_rest;
use std::alloc::{AllocError, Global};
use std::io;
use thiserror::Error;
use world_setup::Node;

/// The file of a log, with its name.
#[derive(Drop)]
pub struct LogFile {
    /// The name.
    pub name: String,
    /// What the file has.
    pub bytes: Vec<u8>,
}

/// Why the logs of a node are not read as one.
#[derive(Debug, Drop, Error)]
pub enum WholeFault {
    /// Memory was refused.
    #[error("out of memory")]
    OutOfMemory,
    /// The file of this name could not be read.
    #[error("{0}: {1}")]
    File(String, io::Error),
    /// The log in the file of this name does not go on where the one before it ends, or is none.
    #[error("{0}: {1}")]
    Logs(String, JoinFault),
    /// The log in the file of this name begins with another rest than its node left after the one before it.
    #[error("{0}: {1}")]
    Rest(String, RestFault),
}

impl From<AllocError> for WholeFault {
    fn from(_refused: AllocError) -> WholeFault {
        WholeFault::OutOfMemory
    }
}

/// How far back the logs of a node are read.
#[derive(Clone, Copy)]
pub enum Reach {
    /// To the first, which begins with the opening of the node.
    All,
    /// As far as their files are there: the first of them may go on after closed ones.
    There,
}

/// The logs of a node as one, and what it begins with, where it goes on after closed ones.
#[derive(Drop)]
pub struct OneLog {
    /// What it begins with.
    pub rest: Option<Vec<u8>>,
    /// The log.
    pub log: Vec<u8>,
}

/// The logs that these files have, the newest first, as one: all that go on one after another, of the node that the newest names,
/// or the only one. Where they are to reach the first of all, the first of these begins with no rest.
///
/// # Errors
/// `Logs` with the first that is refused, or `Rest`.
pub fn one_log(
    alloc: Global,
    text: &[u8],
    files: Vec<LogFile>,
    reach: Reach,
) -> Result<OneLog, WholeFault>
    ensures one { IfOk result (λ one. IsOne text.now reach (bytes_in files.items) one) }
    ensures refused { IfErr result (λ why. IsNotOne text.now reach (bytes_in files.items) why) }
{
    match owner_for(alloc, files.as_slice(), reach) {
        Ok(Some(node)) => several_as_one(alloc, text, node, files.as_slice(), reach),
        Ok(None) => match only_log(alloc, files, reach) {
            Ok(one) => Ok(one),
            Err(_) => Err(WholeFault::OutOfMemory),
        },
        Err(_) => Err(WholeFault::OutOfMemory),
    }
}

/// The node of several logs: the first of these files names it, where the log in it goes on after closed ones.
fn owner_for(alloc: Global, files: &[LogFile], reach: Reach) -> Result<Option<Node>, AllocError>
    ensures { IfOk result (λ node. option_map node_seen node ≡ owner_for reach (bytes_in files.now)) }
{
    match reach {
        Reach::All => owner_in(alloc, files),
        Reach::There => {
            if files.len() > 1 {
                owner_in(alloc, files)
            } else {
                Ok(None)
            }
        }
    }
}

/// Several logs of a node as one, and what the first begins with.
fn several_as_one(
    alloc: Global,
    text: &[u8],
    node: Node,
    files: &[LogFile],
    reach: Reach,
) -> Result<OneLog, WholeFault>
    ensures rest { IfOk result (λ one. option_map (λ v. v.items) one.rest ≡ (first_part reach (bytes_in files.now)).rest) }
    ensures log { IfOk result (λ one. IsWhole text.now (node_seen node) (first_part reach (bytes_in files.now)).rest
        (parts_in (bytes_in files.now)) one.log.items) }
    ensures refused { IfErr result (λ why. IsUnwhole text.now (node_seen node)
        (first_part reach (bytes_in files.now)).rest (parts_in (bytes_in files.now)) why) }
{
    let begins = first_part(files, reach).rest;
    match join_files(alloc, text, node, begins, files) {
        Ok(log) => match copy_of(alloc, begins) {
            Ok(rest) => Ok(OneLog { rest, log }),
            Err(_) => Err(WholeFault::OutOfMemory),
        },
        Err(fault) => Err(fault),
    }
}

/// The log of the last of these files, which are taken, and what it begins with.
fn only_log(alloc: Global, files: Vec<LogFile>, reach: Reach) -> Result<OneLog, AllocError>
    ensures rest { IfOk result (λ one. option_map (λ v. v.items) one.rest ≡ (first_part reach (bytes_in files.items)).rest) }
    ensures log { IfOk result (λ one. one.log.items ≡ (first_part reach (bytes_in files.items)).log) }
{
    let log = first_bytes(alloc, files);
    match reach {
        Reach::All => Ok(OneLog { rest: None, log }),
        Reach::There => {
            let part = part_of(log.as_slice());
            let rest = copy_of(alloc, part.rest)?;
            let log = Vec::from_slice(alloc, part.log)?;
            Ok(OneLog { rest, log })
        }
    }
}

/// A copy of what a log begins with.
fn copy_of(alloc: Global, rest: Option<&[u8]>) -> Result<Option<Vec<u8>>, AllocError>
    ensures { IfOk result (λ copy. option_map (λ v. v.items) copy ≡ option_copied rest.entry) }
{
    match rest {
        Some(rest) => Ok(Some(Vec::from_slice(alloc, rest)?)),
        None => Ok(None),
    }
}

/// The logs of a node in these files, the newest first, as one log, of which the first begins so.
///
/// # Errors
/// `Logs` with the first that is refused, or `Rest`.
pub fn join_files(
    alloc: Global,
    text: &[u8],
    node: Node,
    begins: Option<&[u8]>,
    files: &[LogFile],
) -> Result<Vec<u8>, WholeFault>
    ensures whole { IfOk result (λ joined.
        IsWhole text.now (node_seen node) (option_copied begins.entry) (parts_in (bytes_in files.now)) joined.items) }
    // The cause is true.
    ensures refused { IfErr result (λ why.
        IsUnwhole text.now (node_seen node) (option_copied begins.entry) (parts_in (bytes_in files.now)) why) }
{
    match parts_of(alloc, files) {
        Ok(parts) => join_parts(alloc, text, node, begins, files, parts.as_slice()),
        Err(_) => Err(WholeFault::OutOfMemory),
    }
}

/// The same of the logs in these files.
fn join_parts(
    alloc: Global,
    text: &[u8],
    node: Node,
    begins: Option<&[u8]>,
    files: &[LogFile],
    parts: &[Part<'_>],
) -> Result<Vec<u8>, WholeFault>
    ensures whole { IfOk result (λ joined.
        IsWhole text.now (node_seen node) (option_copied begins.entry) (map part_seen parts.now) joined.items) }
    ensures refused { IfErr result (λ why.
        IsUnwhole text.now (node_seen node) (option_copied begins.entry) (map part_seen parts.now) why) }
{
    match join_logs(alloc, text, node, begins, parts) {
        Ok(joined) => match check_rests(alloc, text, node, parts) {
            Ok(()) => Ok(joined),
            Err(fault) => Err(rest_fault(alloc, files, fault)),
        },
        Err(fault) => Err(join_fault(alloc, files, fault)),
    }
}

/// Why logs are not joined, with the name of the file.
fn join_fault(alloc: Global, files: &[LogFile], fault: JoinFault) -> WholeFault
    ensures { (text : List ℕ) (node : model.Node) (begins : Option (List ℕ)) (parts : List parted.Part)
        → IsUnjoined text node begins parts fault → IsUnwhole text node begins parts result }
{
    if is_memory(fault) {
        return WholeFault::OutOfMemory;
    }
    match name_of(alloc, files, fault) {
        Ok(name) => WholeFault::Logs(name, fault),
        Err(_) => WholeFault::OutOfMemory,
    }
}

/// Whether memory was refused.
fn is_memory(fault: JoinFault) -> bool
    ensures { IsTrue result ↔ (fault ≡ JoinFault.OutOfMemory) }
{
    matches!(fault, JoinFault::OutOfMemory)
}

/// Why a log begins with another rest than was left, with the name of its file.
fn rest_fault(alloc: Global, files: &[LogFile], fault: RestFault) -> WholeFault
    ensures { (text : List ℕ) (node : model.Node) (begins : Option (List ℕ)) (parts : List parted.Part)
        → IsUnleft text node parts fault → IsUnwhole text node begins parts result }
{
    let RestFault::Other(place) = fault else {
        return WholeFault::OutOfMemory;
    };
    match name_at(alloc, files, place) {
        Ok(name) => WholeFault::Rest(name, RestFault::Other(place)),
        Err(_) => WholeFault::OutOfMemory,
    }
}

/// The logs in files, of which the newest stands first, in the order in which they were made.
fn parts_of<'a>(alloc: Global, files: &'a [LogFile]) -> Result<Vec<Part<'a>>, AllocError>
    ensures { IfOk result (λ parts. map part_seen parts.items ≡ parts_in (bytes_in files.now)) }
{
    let mut parts: Vec<Part<'_>> = Vec::new(alloc);
    for passed in 0..files.len() {
        let file = &files[files.len() - 1 - passed];
        put(&mut parts, part_of(file.bytes.as_slice()))?;
    }
    Ok(parts)
}

/// The first log, in the last of these files.
#[tactic(auto, using(crate::proofs::Older::first_is))]
fn first_part(files: &[LogFile], reach: Reach) -> Part<'_>
    ensures { part_seen result ≡ first_part reach (bytes_in files.now) }
{
    match files {
        [.., file] => part_for(file.bytes.as_slice(), reach),
        [] => part_for(b"", reach),
    }
}

/// The first log in a file; it begins with the opening of its node, where the logs are to reach that.
fn part_for(bytes: &[u8], reach: Reach) -> Part<'_>
    ensures { part_seen result ≡ part_for reach bytes.now }
{
    match reach {
        Reach::All => Part {
            rest: None,
            log: bytes,
        },
        Reach::There => part_of(bytes),
    }
}

/// The node that the first of these files names, where the log in it goes on after closed ones.
fn owner_in(alloc: Global, files: &[LogFile]) -> Result<Option<Node>, AllocError>
    ensures { IfOk result (λ node. option_map node_seen node ≡ owner_in (bytes_in files.now)) }
{
    match files {
        [newest, ..] => owner_of(alloc, part_of(newest.bytes.as_slice()).rest),
        [] => Ok(None),
    }
}

/// Whose rest it is.
fn owner_of(alloc: Global, rest: Option<&[u8]>) -> Result<Option<Node>, AllocError>
    ensures { IfOk result (λ node. option_map node_seen node ≡ owner_of (option_copied rest.entry)) }
{
    let Some(rest) = rest else {
        return Ok(None);
    };
    match read_rest(alloc, rest)? {
        Some(read) => Ok(Some(read.node)),
        None => Ok(None),
    }
}

/// The bytes of the last of these files, which are taken.
#[tactic(auto, using(crate::proofs::Older::last_is))]
fn first_bytes(alloc: Global, files: Vec<LogFile>) -> Vec<u8>
    ensures { result.items ≡ first_in (bytes_in files.items) }
{
    let mut files = files;
    match files.pop() {
        Some(file) => file.bytes,
        None => Vec::new(alloc),
    }
}

/// Puts one more after a list.
pub(crate) fn put<T: Drop>(list: &mut Vec<T>, one: T) -> Result<(), AllocError>
    ensures { OnOk result (list.new.items ≡ list.old.items ++ one ∷ []) }
{
    Ok(list.push(one)?)
}

/// The name of the file that a fault is about; none where it is about the settings.
fn name_of(alloc: Global, files: &[LogFile], fault: JoinFault) -> Result<String, AllocError> {
    let place = match fault {
        JoinFault::Log(place, _) => place,
        JoinFault::OtherNode(place) => place,
        JoinFault::NotNext(place) => place,
        JoinFault::OutOfMemory | JoinFault::Settings => files.len(),
    };
    name_at(alloc, files, place)
}

/// The name of the file of the log at a place among those of a node, from the first; none where there are fewer.
fn name_at(alloc: Global, files: &[LogFile], place: usize) -> Result<String, AllocError> {
    let newest = files.len().saturating_sub(1).checked_sub(place);
    match newest.and_then(|at| files.get(at)) {
        Some(file) => {
            let name = file.name.as_str();
            format!(in alloc; "{name}")
        }
        None => Ok(String::new(alloc)),
    }
}
