//! A log that is closed, so that its node goes on in a new one.

ghost use Rattle.std.specs.Prelude.{◌≡◌, IfErr, IfOk, OnErr, OnOk, true};
ghost use Rattle.world_setup.specs.Seen.{node_seen};
ghost use Rattle.log_folder.specs.Deeds.{IsFollowed, all_done, is_failed, newest};
ghost use Rattle.log_folder.specs.Plans.{IsAnswered, IsBroken, IsClosing, IsUnclosed, OnceRead, closed, closing_plan, exchanged, trimmed};
ghost use Rattle.log_folder.specs.Deaths.{new_file};
ghost use Rattle.log_folder.specs.declared.closing.Closing.TheVariants.{Done};

use crate::cutting::{cut_off, place_in};
use crate::fault::CloseFault;
use crate::folder::Folder;
use log_turning::{Turned, part_of, turn_log, write_file};
use std::alloc::Global;
use std::io;
use world_setup::Node;

/// What came of a log that was to be closed.
#[derive(Clone, Copy, Debug, PartialEq, Eq)]
pub enum Closing {
    /// It is closed, and its node has made this many calls so far.
    Done(u64),
    /// It stays as it is: its file has this many bytes, and fewer than were wanted.
    Small(u64),
}

/// Closes the log of a node, which was taken: the closed one is kept beside under a name of its own, and the one in which the node goes
/// on gets its name. Where the file has fewer bytes than `least`, it stays as it is.
///
/// # Errors
/// `Refused` or `NoRecord`, as `turn_log` says, or the first call of the system that failed: nothing is done after it.
pub fn close_log<F: Folder>(
    alloc: Global,
    text: &[u8],
    node: Node,
    least: u64,
    folder: &mut F,
) -> Result<Closing, CloseFault>
    ensures each { OnceRead (F.deeds folder.old) (F.deeds folder.new) (λ bytes old.
        IsClosing text.now (node_seen node) bytes old (F.deeds folder.new)) }
    ensures refused { IfErr result (λ why. OnceRead (F.deeds folder.old) (F.deeds folder.new) (λ bytes old.
        IsUnclosed why old (F.deeds folder.new))) }
    ensures done { IfOk result (λ closing. OnceRead (F.deeds folder.old) (F.deeds folder.new) (λ bytes old.
        IsAnswered text.now (node_seen node) least bytes closing old (F.deeds folder.new))) }
{
    match folder.read(alloc) {
        Ok(bytes) => close_read(alloc, text, node, least, bytes.as_slice(), folder),
        Err(error) => Err(CloseFault::Io(error)),
    }
}

/// The same, once the file's bytes were read.
fn close_read<F: Folder>(
    alloc: Global,
    text: &[u8],
    node: Node,
    least: u64,
    bytes: &[u8],
    folder: &mut F,
) -> Result<Closing, CloseFault>
    ensures each { IsClosing text.now (node_seen node) bytes.now (F.deeds folder.old) (F.deeds folder.new) }
    ensures refused { IfErr result (λ why. IsUnclosed why (F.deeds folder.old) (F.deeds folder.new)) }
    ensures done { IfOk result (λ closing.
        IsAnswered text.now (node_seen node) least bytes.now closing (F.deeds folder.old) (F.deeds folder.new)) }
{
    let size = bytes.len() as u64;
    if size < least {
        return Ok(Closing::Small(size));
    }
    let part = part_of(bytes);
    match turn_log(alloc, text, node, part.rest, part.log) {
        Ok(turned) => close_turned(alloc, bytes, &turned, folder),
        Err(fault) => Err(CloseFault::from(fault)),
    }
}

/// The same, once it is known how the log ends and the next one begins.
fn close_turned<F: Folder>(
    alloc: Global,
    bytes: &[u8],
    turned: &Turned,
    folder: &mut F,
) -> Result<Closing, CloseFault>
    ensures each { IsFollowed (closing_plan bytes.now turned.now) (F.deeds folder.old) (F.deeds folder.new) }
    ensures refused { IfErr result (λ why. IsUnclosed why (F.deeds folder.old) (F.deeds folder.new)) }
    ensures done { IfOk result (λ closing. (closing ≡ Done turned.now.calls)
        × (F.deeds folder.new ≡ all_done (closing_plan bytes.now turned.now) (F.deeds folder.old))) }
{
    match write_file(alloc, turned.rest.as_slice(), turned.log.as_slice()) {
        Ok(next) => match close(folder, bytes, turned, next.as_slice()) {
            Ok(()) => Ok(Closing::Done(turned.calls)),
            Err(fault) => Err(fault),
        },
        Err(_) => Err(CloseFault::OutOfMemory),
    }
}

/// Closes a log whose file has these bytes: the next file is on disk before anything else is done, and gets the log's name once the
/// closed log has its own.
fn close<F: Folder>(
    folder: &mut F,
    bytes: &[u8],
    turned: &Turned,
    next: &[u8],
) -> Result<(), CloseFault>
    requires { next.now ≡ new_file turned.now }
    ensures each { IsFollowed (closing_plan bytes.now turned.now) (F.deeds folder.old) (F.deeds folder.new) }
    ensures failed { IfErr result (λ why. IsBroken why (F.deeds folder.new)) }
    ensures done { OnOk result (F.deeds folder.new ≡ all_done (closing_plan bytes.now turned.now) (F.deeds folder.old)) }
{
    folder.make_next(next)?;
    trim(folder, bytes, turned)?;
    end(folder, turned)?;
    exchange(folder)?;
    Ok(())
}

/// Cuts off what stands after the whole records of the log, once it is kept beside.
fn trim<F: Folder>(folder: &mut F, bytes: &[u8], turned: &Turned) -> io::Result<()>
    ensures each { IsFollowed (trimmed bytes.now turned.now) (F.deeds folder.old) (F.deeds folder.new) }
    ensures failed { OnErr result (newest is_failed (F.deeds folder.new) ≡ true) }
    ensures done { OnOk result (F.deeds folder.new ≡ all_done (trimmed bytes.now turned.now) (F.deeds folder.old)) }
{
    if turned.kept == part_of(bytes).log.len() {
        return Ok(());
    }
    cut_off(folder, place_in(bytes, turned.kept))
}

/// Appends how the log ends, and has it on disk under a name of its own.
fn end<F: Folder>(folder: &mut F, turned: &Turned) -> Result<(), CloseFault>
    ensures each { IsFollowed (closed turned.now) (F.deeds folder.old) (F.deeds folder.new) }
    ensures failed { IfErr result (λ why. IsBroken why (F.deeds folder.new)) }
    ensures done { OnOk result (F.deeds folder.new ≡ all_done (closed turned.now) (F.deeds folder.old)) }
{
    folder.append(turned.closing.as_slice())?;
    folder.sync()?;
    if let Err(error) = folder.link(turned.calls) {
        return Err(CloseFault::Unlinked(turned.calls, error));
    }
    folder.sync_names()?;
    Ok(())
}

/// Gives the log's name to the next file, on disk too.
fn exchange<F: Folder>(folder: &mut F) -> io::Result<()>
    ensures each { IsFollowed exchanged (F.deeds folder.old) (F.deeds folder.new) }
    ensures failed { OnErr result (newest is_failed (F.deeds folder.new) ≡ true) }
    ensures done { OnOk result (F.deeds folder.new ≡ all_done exchanged (F.deeds folder.old)) }
{
    folder.exchange()?;
    folder.sync_names()
}
