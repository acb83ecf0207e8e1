//! From the file of a log to a node that is served.

ghost use Rattle.std.specs.Prelude.{◌≡◌, [], IfErr, IfOk, OnErr, OnOk};
ghost use Rattle.std.specs.Option.{option_copied};
ghost use Rattle.kept_logs.specs.Rests.{IsRest};
ghost use Rattle.node_service.specs.Serving.{cleared};
ghost use Rattle.node_process.specs.Acts.{heard};
ghost use Rattle.node_process.specs.Ends.{Breaks, EndsFor, Stops, TellsLack};
ghost use Rattle.node_process.specs.Safe.{IsRun, IsUnopened, Serves, Begins, Heads, Reads, Trims, closed_calls, greeting, owner_seen};

use crate::greeting::{greeting, lack};
use crate::machine::Machine;
use crate::unserved::Unserved;
use kept_logs::calls_told;
use node_service::Service;
use payer_book::HashKeys;
use std::alloc::Global;
use std::io;
use world_setup::Node;

/// Whose process it is.
#[derive(Clone, Copy)]
pub struct Owner<'a> {
    /// The text of the settings.
    pub settings: &'a [u8],
    /// The node.
    pub node: Node,
    /// What the log begins with, where it goes on after closed ones.
    pub rest: Option<&'a [u8]>,
    /// How many calls its logs are known to have, the closed ones too: a log with which there are fewer is an older copy, or was
    /// cut, and is not served.
    pub least: u64,
}

/// A node that was opened, how many bytes of its log stay, and how many the log has.
#[derive(Drop)]
pub(crate) struct Opened {
    pub(crate) service: Service,
    pub(crate) whole: usize,
    pub(crate) size: usize,
}

/// Reads the log and opens its node.
pub(crate) fn open<M: Machine>(
    alloc: Global,
    keys: &HashKeys,
    owner: &Owner<'_>,
    machine: &mut M,
) -> Result<Opened, Unserved>
    requires { M.acts machine.old ≡ [] }
    ensures reads { IfOk result (λ o. Reads (owner_seen owner.now) (M.acts machine.new) o.whole o.size o.service) }
    ensures unopened { OnErr result (IsUnopened (M.acts machine.new)) }
    ensures why { IfErr result (EndsFor (owner_seen owner.now) (M.acts machine.new)) }
{
    let bytes = machine.read(alloc)?;
    match Service::open(
        alloc,
        keys,
        owner.settings,
        owner.node,
        owner.rest,
        bytes.as_slice(),
    ) {
        Ok((service, whole)) => match lacking(owner, &service) {
            None => Ok(Opened {
                service,
                whole,
                size: bytes.len(),
            }),
            Some(calls) => Err(Unserved::FewCalls(calls)),
        },
        Err(why) => Err(Unserved::Refused(why)),
    }
}

/// How many calls a node's logs have, where these are fewer than they are known to have.
fn lacking(owner: &Owner<'_>, service: &Service) -> Option<u64>
    requires { IsRest (option_copied owner.now.rest) }
    ensures { TellsLack (closed_calls (owner_seen owner.now)) service.now.calls owner.now.least result }
{
    lack(calls_told(owner.rest), service.calls(), owner.least)
}

/// Has on disk what stays of a log of this many bytes before a word is said: then how many calls it has, and how many were made
/// before it.
#[tactic(auto, using(node_service::proofs::Begun::begins_with_rest))]
pub(crate) fn lay_down<M: Machine>(
    alloc: Global,
    owner: &Owner<'_>,
    machine: &mut M,
    service: &Service,
    whole: usize,
    size: usize,
) -> Result<(), Unserved>
    requires { Reads (owner_seen owner.now) (M.acts machine.old) whole size service.now }
    ensures each { IsRun (owner_seen owner.now) (M.acts machine.new) }
    ensures served { OnOk result
        (Serves (owner_seen owner.now) (M.acts machine.new) (cleared service.now)) }
    ensures deaf { OnOk result (heard (M.acts machine.new) ≡ []) }
    ensures why { IfErr result (Stops (owner_seen owner.now) (M.acts machine.new) service.now) }
{
    let ready = greeting(alloc, calls_told(owner.rest), service.calls())?;
    trim(owner, machine, service, whole, size)?;
    append_head(owner, machine, service, whole)?;
    settle(owner, machine, service, whole)?;
    greet(owner, machine, service, whole, ready.as_slice())?;
    Ok(())
}

/// Cuts off what stands after the whole records of a log of this many bytes.
fn trim<M: Machine>(
    owner: &Owner<'_>,
    machine: &mut M,
    service: &Service,
    whole: usize,
    size: usize,
) -> io::Result<()>
    requires { Reads (owner_seen owner.now) (M.acts machine.old) whole size service.now }
    ensures each { IsRun (owner_seen owner.now) (M.acts machine.new) }
    ensures trimmed { OnOk result
        (Trims (owner_seen owner.now) (M.acts machine.new) whole service.now) }
    ensures broken { OnErr result (Breaks (owner_seen owner.now) (M.acts machine.new) service.now) }
{
    if whole == size {
        return Ok(());
    }
    machine.cut(whole)
}

/// Appends the head of a log that is new.
#[tactic(auto, using(crate::proofs::Moments::when_failed, crate::proofs::Remembering::head_breaks))]
fn append_head<M: Machine>(
    owner: &Owner<'_>,
    machine: &mut M,
    service: &Service,
    whole: usize,
) -> io::Result<()>
    requires { Trims (owner_seen owner.now) (M.acts machine.old) whole service.now }
    ensures each { IsRun (owner_seen owner.now) (M.acts machine.new) }
    ensures headed { OnOk result
        (Heads (owner_seen owner.now) (M.acts machine.new) whole service.now) }
    ensures broken { OnErr result (Breaks (owner_seen owner.now) (M.acts machine.new) service.now) }
{
    if service.records().is_empty() {
        return Ok(());
    }
    machine.append(service.records())
}

/// Has the log on disk: what an earlier process left may be in the system's memory alone.
#[tactic(auto, using(crate::proofs::Moments::when_failed, crate::proofs::Remembering::settle_breaks))]
fn settle<M: Machine>(
    owner: &Owner<'_>,
    machine: &mut M,
    service: &Service,
    whole: usize,
) -> io::Result<()>
    requires { Heads (owner_seen owner.now) (M.acts machine.old) whole service.now }
    ensures each { IsRun (owner_seen owner.now) (M.acts machine.new) }
    ensures begun { OnOk result
        (Begins (owner_seen owner.now) (M.acts machine.new) whole service.now) }
    ensures broken { OnErr result (Breaks (owner_seen owner.now) (M.acts machine.new) service.now) }
{
    machine.sync()
}

/// Says that lines are served, how many calls the log has, and how many were made before it.
fn greet<M: Machine>(
    owner: &Owner<'_>,
    machine: &mut M,
    service: &Service,
    whole: usize,
    ready: &[u8],
) -> io::Result<()>
    requires begun { Begins (owner_seen owner.now) (M.acts machine.old) whole service.now }
    requires ready { ready.now ≡ greeting (closed_calls (owner_seen owner.now)) service.now.calls }
    ensures each { IsRun (owner_seen owner.now) (M.acts machine.new) }
    ensures served { OnOk result
        (Serves (owner_seen owner.now) (M.acts machine.new) (cleared service.now)) }
    ensures deaf { OnOk result (heard (M.acts machine.new) ≡ []) }
    ensures broken { OnErr result (Breaks (owner_seen owner.now) (M.acts machine.new) service.now) }
{
    machine.say(ready)
}
