//! What a log begins with that goes on after closed ones.

ghost use Rattle.std.specs.Prelude.{◌≡◌, ◌<◌, ◌^◌, length, codes, IfOk, IfSome, IsSome, Some};
ghost use Rattle.std.specs.List.{AllByRecursion};
ghost use Rattle.std.specs.Option.{option_copied, option_map};
ghost use Rattle.world_setup.specs.Seen.{node_seen, settings_seen};
ghost use Rattle.claim_model.specs.Settings.{opening};
ghost use Rattle.claim_model.specs.Nodes.{node_at};
ghost use Rattle.kept_logs.specs.Fits.{FitsNode};
ghost use Rattle.kept_logs.specs.Frames.{met};
ghost use Rattle.kept_logs.specs.Rests.{FitsReference, IsRest, begins, begun_from, behind_met, body_in, calls_before, references_before, references_of, rest_behind, rest_body, rest_in, rest_text, rest_version};
ghost use Rattle.kept_logs.specs.RestSeen.{rest_seen};

use crate::expected_bytes::{Met, meet};
use crate::nodes::{put_node, take_node};
use crate::references::Reference;
use crate::referring::{put_references, take_references};
use crate::sums::check_of;
use crate::version::LogVersion;
use codec::{put_u8, put_u64, take_bytes, take_u8, take_u64};
use node_log::is_same_node;
use node_state::NodeState;
use std::alloc::{AllocError, Global};
use world_setup::{CheckedSettings, Node};

/// The bytes that begin a rest (own).
const NAME: [u8; 2] = *b"PR";

/// The version of a rest without references, and that of one with some (own).
const BARE: u8 = 1;

const REFERRED: u8 = 2;

/// How many bytes a SHA-256 digest has.
const DIGEST: u64 = 32;

/// How many bytes vouch for a record.
const SUM: u64 = 8;

/// What a log begins with that goes on after closed ones (own).
#[derive(Drop)]
pub struct Rest<'a> {
    /// Whose log it is.
    pub node: Node,
    /// How many calls the closed logs have.
    pub calls: u64,
    /// The SHA-256 digest of the last of them, 32 bytes.
    pub closed: &'a [u8],
    /// The references of their submissions, in order.
    pub references: Vec<Reference>,
    /// The record that the node left at rest.
    pub kept: &'a [u8],
}

/// The text of what a log begins with.
#[tactic(auto, unfolding(crate::specs::Rests::rest_text, crate::specs::Rests::rest_head, crate::specs::Rests::fields_codec))]
pub fn write_rest(alloc: Global, rest: &Rest<'_>) -> Result<Vec<u8>, AllocError>
    ensures text { IfOk result (λ text. text.items ≡ rest_text (rest_seen rest.now)) }
    ensures node { IfOk result (λ _. FitsNode (node_seen rest.now.node)) }
    ensures references { IfOk result (λ _. AllByRecursion FitsReference rest.now.references.items) }
    ensures count { IfOk result (λ _. length rest.now.references.items < 2 ^ 64) }
{
    let references = rest.references.as_slice();
    let body = body_of(alloc, references, rest.kept)?;
    let mut text = Vec::new(alloc);
    text.extend_from_slice(&NAME)?;
    put_u8(&mut text, version_of(references))?;
    put_node(&mut text, rest.node)?;
    put_u64(&mut text, rest.calls)?;
    text.extend_from_slice(rest.closed)?;
    text.extend_from_slice(&check_of(LogVersion::Second, rest.calls, body.as_slice()))?;
    text.extend_from_slice(body.as_slice())?;
    Ok(text)
}

/// The version of a rest with these references.
fn version_of(references: &[Reference]) -> u8
    ensures { result ≡ rest_version references.now }
{
    if references.len() == 0 {
        BARE
    } else {
        REFERRED
    }
}

/// The references, if there are any, and the record.
#[tactic(auto, unfolding(crate::specs::Rests::rest_body))]
fn body_of(alloc: Global, references: &[Reference], kept: &[u8]) -> Result<Vec<u8>, AllocError>
    ensures text { IfOk result (λ body. body.items ≡ rest_body references.now kept.now) }
    ensures fits { IfOk result (λ _. AllByRecursion FitsReference references.now) }
    ensures count { length references.now < 2 ^ 64 }
{
    let mut body = Vec::new(alloc);
    if references.len() > 0 {
        put_references(&mut body, references)?;
    }
    body.extend_from_slice(kept)?;
    Ok(body)
}

/// What bytes are as the beginning of a log; `None` where they are none, or are damaged.
///
/// # Errors
/// Memory was refused.
#[tactic(auto, unfolding(crate::specs::Rests::rest_in))]
pub fn read_rest(alloc: Global, bytes: &[u8]) -> Result<Option<Rest<'_>>, AllocError>
    ensures { IfOk result (λ rest. option_map rest_seen rest ≡ rest_in bytes.now) }
{
    let Some(named) = named(bytes) else {
        return Ok(None);
    };
    match take_u8(named) {
        Some((version, rest)) if version == BARE || version == REFERRED => rest_behind(
            alloc, version, rest,
        ),
        _ => Ok(None),
    }
}

/// What follows the name.
fn named(bytes: &[u8]) -> Option<&[u8]>
    ensures { option_map (λ rest. rest.now) result ≡ behind_met (met (codes "PR") bytes.now) }
{
    match meet(&NAME, bytes) {
        Met::Whole(rest) => Some(rest),
        Met::Torn => None,
        Met::Differs => None,
    }
}

/// What stands after the version.
#[tactic(auto, unfolding(crate::specs::Rests::rest_behind, crate::specs::Rests::fields_codec))]
fn rest_behind(alloc: Global, version: u8, bytes: &[u8]) -> Result<Option<Rest<'_>>, AllocError>
    ensures { IfOk result (λ rest. option_map rest_seen rest ≡ rest_behind version bytes.now) }
{
    let Some((node, after)) = take_node(bytes) else {
        return Ok(None);
    };
    let Some((calls, after)) = take_u64(after) else {
        return Ok(None);
    };
    let Some((closed, after)) = take_bytes(DIGEST, after) else {
        return Ok(None);
    };
    let Some((sum, body)) = take_bytes(SUM, after) else {
        return Ok(None);
    };
    if sum != check_of(LogVersion::Second, calls, body).as_slice() {
        return Ok(None);
    }
    let Some((references, kept)) = body_in(alloc, version, body)? else {
        return Ok(None);
    };
    Ok(Some(Rest {
        node,
        calls,
        closed,
        references,
        kept,
    }))
}

/// The references, where this version has some, and the record.
fn body_in(
    alloc: Global,
    version: u8,
    body: &[u8],
) -> Result<Option<(Vec<Reference>, &[u8])>, AllocError>
    ensures { IfOk result (λ o. option_map (λ taken. (taken.0.items, taken.1.now)) o ≡ body_in version body.now) }
{
    if version == REFERRED {
        take_references(alloc, body)
    } else {
        Ok(Some((Vec::new(alloc), body)))
    }
}

/// What a node that a log begins with is, and the references of the calls before the log.
#[derive(Drop)]
pub struct Beginning {
    /// The node.
    pub node: NodeState,
    /// The references of the submissions of closed logs, in order.
    pub references: Vec<Reference>,
}

/// How many calls were made before a log that begins with this rest; 0 where it begins with none, or these bytes are none.
///
/// # Errors
/// Memory was refused.
pub fn calls_before(alloc: Global, rest: Option<&[u8]>) -> Result<u64, AllocError>
    ensures { IfOk result (λ calls. calls ≡ calls_before (option_copied rest.entry)) }
{
    let Some(bytes) = rest else {
        return Ok(0);
    };
    match read_rest(alloc, bytes)? {
        Some(rest) => Ok(rest.calls),
        None => Ok(0),
    }
}

/// How many calls were made before a log that begins with what was read as a rest, or with none. What vouches for a rest is not made
/// again: of bytes that are none any number is told.
pub fn calls_told(rest: Option<&[u8]>) -> u64
    ensures { IsRest (option_copied rest.entry) → result ≡ calls_before (option_copied rest.entry) }
{
    match rest {
        Some(bytes) => calls_at(bytes).unwrap_or(0),
        None => 0,
    }
}

/// The count of calls that stands in a rest.
#[tactic(auto, unfolding(crate::specs::Rests::rest_in, crate::specs::Rests::rest_behind, crate::specs::Rests::fields_codec))]
fn calls_at(bytes: &[u8]) -> Option<u64>
    ensures { IfSome (rest_in bytes.now) (λ r. result ≡ Some r.calls) }
{
    let named = named(bytes)?;
    let (_, behind) = take_u8(named)?;
    let (_, behind) = take_node(behind)?;
    let (calls, _) = take_u64(behind)?;
    Some(calls)
}

/// The node that a log of this name begins with: as the settings open it, or where the log goes on after closed ones, as it was
/// left at rest, and started. `None` exactly where these bytes are no beginning of a log of this node under these settings.
///
/// The node is one of the settings.
///
/// # Errors
/// Memory was refused.
pub fn begins(
    alloc: Global,
    settings: &CheckedSettings,
    node: Node,
    rest: Option<&[u8]>,
) -> Result<Option<Beginning>, AllocError>
    requires { IsSome (node_at (opening (settings_seen settings.now)) (node_seen node)) }
    ensures node { IfOk result (λ found. option_map (λ b. b.node) found
        ≡ begins settings.now (node_seen node) (option_copied rest.entry)) }
    ensures references { IfOk result (λ found. IfSome found (λ b.
        b.references.items ≡ references_before (option_copied rest.entry))) }
{
    match rest {
        None => Ok(Some(Beginning {
            node: NodeState::opening(alloc, settings, node)?,
            references: Vec::new(alloc),
        })),
        Some(bytes) => resumed(alloc, settings, node, read_rest(alloc, bytes)?),
    }
}

/// The node of that name, from its record.
fn resumed(
    alloc: Global,
    settings: &CheckedSettings,
    node: Node,
    rest: Option<Rest<'_>>,
) -> Result<Option<Beginning>, AllocError>
    ensures node { IfOk result (λ found. option_map (λ b. b.node) found
        ≡ begun_from (settings_seen settings.now) (node_seen node) (option_map rest_seen rest.entry)) }
    ensures references { IfOk result (λ found. IfSome found (λ b.
        b.references.items ≡ references_of (option_map rest_seen rest.entry))) }
{
    let Some(rest) = rest else {
        return Ok(None);
    };
    if !is_same_node(rest.node, node) {
        return Ok(None);
    }
    match NodeState::resumed(alloc, settings, node, rest.kept)? {
        Some(node) => Ok(Some(Beginning {
            node,
            references: rest.references,
        })),
        None => Ok(None),
    }
}
