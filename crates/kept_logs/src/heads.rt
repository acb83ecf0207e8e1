//! The heads of logs.

ghost use Rattle.std.specs.Prelude.{◌≡◌, ◌++◌, drop, Ok, Err, IfOk, IfErr, OnOk};
ghost use Rattle.world_setup.specs.Seen.{node_seen};
ghost use Rattle.kept_logs.specs.Frames.{met};
ghost use Rattle.kept_logs.specs.Logs.{owner_text, head_text, expected, head_in};
ghost use Rattle.kept_logs.specs.Fits.{FitsNode};

use crate::digest::SettingsDigest;
use crate::expected_bytes::{Met, meet};
use crate::fault::LogFault;
use crate::nodes::{put_node, take_node};
use crate::sums::check_of;
use codec::take_bytes;
use std::alloc::{AllocError, Global};
use world_setup::Node;

/// The two bytes that begin a log (own).
const NAME: [u8; 2] = *b"PL";

/// How many bytes the owner of a log has: a node and a digest.
const OWNER: u64 = 35;

/// Puts the head of a log.
#[tactic(auto, unfolding(crate::specs::Logs::head_text))]
pub(crate) fn put_head(
    alloc: Global,
    out: &mut Vec<u8>,
    settings: &SettingsDigest,
    node: Node,
) -> Result<(), AllocError>
    ensures text { OnOk result (out.new.items ≡ out.old.items ++ head_text settings.now (node_seen node)) }
    ensures fits { OnOk result (FitsNode (node_seen node)) }
{
    let owner = owner_of(alloc, settings, node)?;
    out.extend_from_slice(&NAME)?;
    out.extend_from_slice(&settings.version_byte())?;
    out.extend_from_slice(&owner)?;
    out.extend_from_slice(&check_of(settings.version(), 0, &owner))
}

/// Whose log it is, and under which settings.
#[tactic(auto, unfolding(crate::specs::Logs::owner_text))]
fn owner_of(alloc: Global, settings: &SettingsDigest, node: Node) -> Result<Vec<u8>, AllocError>
    ensures text { IfOk result (λ owner. owner.items ≡ owner_text (drop 1 settings.now) (node_seen node)) }
    ensures fits { IfOk result (λ _. FitsNode (node_seen node)) }
{
    let mut owner = Vec::new(alloc);
    put_node(&mut owner, node)?;
    owner.extend_from_slice(settings.as_slice())?;
    Ok(owner)
}

/// The node of the log under these settings at the front of bytes, and what follows its head.
///
/// # Errors
/// The first cause in the order of `LogFault`; never want of memory.
#[tactic(auto, unfolding(crate::specs::Logs::head_in))]
pub(crate) fn take_head<'a>(
    settings: &SettingsDigest,
    bytes: &'a [u8],
) -> Result<(Node, &'a [u8]), LogFault>
    ensures ok { IfOk result (λ read. head_in settings.now bytes.now ≡ Ok (node_seen read.0, read.1.now)) }
    ensures fault { IfErr result (λ e. head_in settings.now bytes.now ≡ Err e) }
{
    let named = expect(LogFault::NotALog, &NAME, bytes)?;
    let known = expect(LogFault::Version, &settings.version_byte(), named)?;
    let Some((owner, sum)) = take_bytes(OWNER, known) else {
        return Err(LogFault::Short);
    };
    let wanted = check_of(settings.version(), 0, owner);
    let rest = expect(LogFault::DamagedHead, &wanted, sum)?;
    let Some((node, digest)) = take_node(owner) else {
        return Err(LogFault::NoNode);
    };
    expect(LogFault::OtherSettings, settings.as_slice(), digest)?;
    Ok((node, rest))
}

/// What follows these bytes, which have to stand there.
fn expect<'a>(why: LogFault, wanted: &[u8], bytes: &'a [u8]) -> Result<&'a [u8], LogFault>
    ensures ok { IfOk result (λ rest. expected why (met wanted.now bytes.now) ≡ Ok rest.now) }
    ensures fault { IfErr result (λ e. expected why (met wanted.now bytes.now) ≡ Err e) }
{
    match meet(wanted, bytes) {
        Met::Whole(rest) => Ok(rest),
        Met::Torn => Err(LogFault::Short),
        Met::Differs => Err(why),
    }
}
