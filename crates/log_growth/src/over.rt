//! The log of a node, from old settings to new ones.

ghost use Rattle.std.specs.Prelude.{◌≡◌, OnOk, IfOk, IfErr};
ghost use Rattle.world_setup.specs.Seen.{node_seen};
ghost use Rattle.kept_logs.specs.Logs.{log_in};
ghost use Rattle.kept_logs.specs.declared.fault.LogFault.TheVariants.{OtherSettings};
ghost use Rattle.settings_digest.specs.Digests.{AreOf, digest_in, digest_under, under};
ghost use Rattle.log_growth.specs.Over.{Becomes, IsOpen, IsShutFor, Opens, StaysFor};

use crate::moving::moved;
use kept_logs::{LogFault, SettingsDigest, read_log};
use node_service::{Service, ServiceFault};
use payer_book::HashKeys;
use settings_digest::Digests;
use std::alloc::{AllocError, Global};
use thiserror::Error;
use world_setup::Node;

/// What becomes of a log.
#[derive(Drop)]
pub enum Gone {
    /// The log of this node is one of the new settings already.
    Already(Node),
    /// The log of this node goes over, and these are its bytes then: a head of version 2 with the new digest, and the records
    /// with all that was noted of their calls.
    Over(Node, Vec<u8>),
}

/// Why a log does not go over. Want of memory may stand in place of any answer.
#[derive(Clone, Copy, Debug, PartialEq, Eq, Error)]
pub enum OverFault {
    /// Memory was refused.
    #[error("out of memory")]
    OutOfMemory,
    /// The bytes are no log of the old settings, nor of the new ones.
    #[error("{0}")]
    Log(LogFault),
    /// This node would not be served from it under the new settings, for what `Service::open` says. Places are the same in the
    /// log as it is and as it would be.
    #[error("{1}")]
    Refused(Node, ServiceFault),
}

impl From<AllocError> for OverFault {
    ghost use Rattle.log_growth.specs.declared.over.OverFault.TheVariants.{OutOfMemory};

    ghost from_gives = { λ _ e. e ≡ OutOfMemory };

    fn from(_refused: AllocError) -> OverFault {
        OverFault::OutOfMemory
    }
}

/// What becomes of the log that bytes are, under settings of the old digests, where the text spells the new ones, of these
/// digests. It goes over where its node opens from it under the new settings: it makes each call, and sends every byte that the
/// log has as sent.
/// What stands after the last whole record is left behind, as at any start of a node.
///
/// # Errors
/// `Log` where the bytes are a log of neither settings, else `Refused`.
#[tactic(auto, using(settings_digest::proofs::Keeping::under_at))]
pub fn go_over(
    alloc: Global,
    old: &Digests,
    new: &Digests,
    text: &[u8],
    bytes: &[u8],
) -> Result<Gone, OverFault>
    requires { AreOf text.now new.now }
    ensures over { IfOk result (λ gone. Becomes (under old.now bytes.now) text.now bytes.now gone) }
    ensures stays { IfErr result (λ why. StaysFor (under old.now bytes.now) text.now bytes.now why) }
{
    let before = old.under(bytes);
    let own = new.under(bytes);
    go_under(alloc, &before, &own, &new.said, text, bytes)
}

/// The same, where a log of such bytes is one of the old settings under the old digest, and one of the new ones under its own; the
/// new digest is the one that is written.
fn go_under(
    alloc: Global,
    old: &SettingsDigest,
    own: &SettingsDigest,
    new: &SettingsDigest,
    text: &[u8],
    bytes: &[u8],
) -> Result<Gone, OverFault>
    requires own { own.now ≡ digest_under text.now bytes.now }
    requires new { new.now ≡ digest_in text.now }
    ensures over { IfOk result (λ gone. Becomes old.now text.now bytes.now gone) }
    ensures stays { IfErr result (λ why. StaysFor old.now text.now bytes.now why) }
{
    match read_log(alloc, own, bytes) {
        Ok(read) => stay(alloc, text, read.log.node(), bytes),
        Err(LogFault::OutOfMemory) => Err(OverFault::OutOfMemory),
        Err(LogFault::OtherSettings) => go(alloc, old, new, text, bytes),
        Err(fault) => Err(OverFault::Log(fault)),
    }
}

/// A log that is one of the new settings.
fn stay(alloc: Global, text: &[u8], node: Node, bytes: &[u8]) -> Result<Gone, OverFault>
    ensures there { IfOk result (λ gone. IsOpen text.now node bytes.now gone) }
    ensures shut { IfErr result (λ why. IsShutFor text.now (node_seen node) bytes.now why) }
{
    check_opens(alloc, text, node, bytes)?;
    Ok(Gone::Already(node))
}

/// A log that is one of other settings.
#[tactic(auto, using(crate::proofs::Moved::second))]
fn go(
    alloc: Global,
    old: &SettingsDigest,
    new: &SettingsDigest,
    text: &[u8],
    bytes: &[u8],
) -> Result<Gone, OverFault>
    requires digest { new.now ≡ digest_in text.now }
    requires other { log_in (digest_under text.now bytes.now) bytes.now ≡ Err OtherSettings }
    ensures over { IfOk result (λ gone. Becomes old.now text.now bytes.now gone) }
    ensures stays { IfErr result (λ why. StaysFor old.now text.now bytes.now why) }
{
    let (node, written) = match moved(alloc, old, new, bytes) {
        Ok(log) => log,
        Err(LogFault::OutOfMemory) => return Err(OverFault::OutOfMemory),
        Err(fault) => return Err(OverFault::Log(fault)),
    };
    if let Err(why) = check_opens(alloc, text, node, written.as_slice()) {
        return Err(why);
    }
    Ok(Gone::Over(node, written))
}

/// Whether a node is served from these bytes of its log.
fn check_opens(alloc: Global, text: &[u8], node: Node, bytes: &[u8]) -> Result<(), OverFault>
    ensures opens { OnOk result (Opens text.now (node_seen node) bytes.now) }
    ensures shut { IfErr result (λ why. IsShutFor text.now (node_seen node) bytes.now why) }
{
    match Service::open(alloc, &HashKeys::fixed(), text, node, None, bytes) {
        Ok(_) => Ok(()),
        Err(ServiceFault::OutOfMemory) => Err(OverFault::OutOfMemory),
        Err(fault) => Err(OverFault::Refused(node, fault)),
    }
}
