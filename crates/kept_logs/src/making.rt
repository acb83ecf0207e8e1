//! A log that is made by its node as it is read, so that no more of it is kept than the node.

ghost use Rattle.std.specs.Prelude.{◌≡◌, ◌≢◌, ◌++◌, true, Ok, IfOk, OnOk};
ghost use Rattle.claim_model.specs.Bytes.{bytes_with};
ghost use Rattle.world_setup.specs.Seen.{call_seen, node_seen};
ghost use Rattle.node_log.specs.Fits.{TellsMade};
ghost use Rattle.kept_logs.specs.declared.fault.LogFault.TheVariants.{OutOfMemory};
ghost use Rattle.kept_logs.specs.Cuts.{IsLogOf};
ghost use Rattle.kept_logs.specs.Digests.{version_seen};
ghost use Rattle.kept_logs.specs.Logs.{KeptReading, kept_in};
ghost use Rattle.kept_logs.specs.LogSeen.{call_alone};
ghost use Rattle.kept_logs.specs.Making.{AreMadeIf, IsMadeIf};
ghost use Rattle.kept_logs.specs.References.{referred};

use crate::digest::SettingsDigest;
use crate::fault::LogFault;
use crate::heads::take_head;
use crate::laws::log_is_its_text;
use crate::logs::take_record;
use crate::records::Entry;
use crate::references::{Reference, note_reference};
use crate::version::LogVersion;
use bin_routes::Routes;
use node_log::{Record, is_same_node, makes};
use node_state::NodeState;
use std::alloc::{AllocError, Global};
use world_setup::Node;

/// A node that has made its log.
#[derive(Drop)]
pub struct MadeLog {
    /// The node after the calls of the log.
    pub node: NodeState,
    /// How many these are.
    pub calls: u64,
    /// The references of those that are submissions and have one, in order.
    pub references: Vec<Reference>,
    /// How many bytes their records take, with the head. What stands after them is the beginning of a record that is cut
    /// off; a host that goes on cuts its file there first.
    pub whole: usize,
}

/// A node after the calls of records.
#[derive(Drop)]
struct MadeCalls {
    node: NodeState,
    /// How many calls these are.
    calls: u64,
    references: Vec<Reference>,
    /// How many bytes are left after them.
    torn: usize,
}

/// The node of a log under settings of this digest, which makes each call as it is read, from the state that the log begins with.
/// `None` exactly where the bytes are no log of this node, or where it does not make a call, or sends something else: `read_log`
/// and `make_log_from` say why.
///
/// # Errors
/// Memory was refused.
pub fn make_as_read(
    alloc: Global,
    digest: &SettingsDigest,
    routes: &Routes,
    begins: NodeState,
    node: Node,
    bytes: &[u8],
) -> Result<Option<MadeLog>, AllocError>
    // There is a node exactly where the bytes are its log, and it makes each call of it.
    ensures made { IfOk result (λ made.
        IsMadeIf (bytes_with routes.now) begins digest.now (node_seen node) bytes.now made) }
    // What is read is the text of what it is read as, and after it how a record begins.
    ensures found { (read : KeptReading) → kept_in digest.now bytes.now ≡ Ok read → IsLogOf digest.now bytes.now read }
{
    log_is_its_text();
    let _ = digest.as_slice();
    make_parts(alloc, digest, routes, begins, node, bytes)
}

/// Reads the head, and makes the calls after it.
#[tactic(auto, unfolding(crate::specs::Logs::log_in, crate::specs::Logs::kept_in))]
fn make_parts(
    alloc: Global,
    digest: &SettingsDigest,
    routes: &Routes,
    begins: NodeState,
    node: Node,
    bytes: &[u8],
) -> Result<Option<MadeLog>, AllocError>
    ensures { IfOk result (λ made.
        IsMadeIf (bytes_with routes.now) begins digest.now (node_seen node) bytes.now made) }
{
    let Ok((own, records)) = take_head(digest, bytes) else {
        return Ok(None);
    };
    if !is_same_node(own, node) {
        return Ok(None);
    }
    let Some(
        MadeCalls {
            node,
            calls,
            references,
            torn,
        },
    ) = make_calls(
        alloc,
        routes,
        begins,
        digest.version(),
        bytes.len(),
        records,
    )?
    else {
        return Ok(None);
    };
    let whole = bytes.len().saturating_sub(torn);
    Ok(Some(MadeLog {
        node,
        calls,
        references,
        whole,
    }))
}

/// The node after the calls of these records of a log of this version, how many they are, and how many bytes the torn end has.
fn make_calls(
    alloc: Global,
    routes: &Routes,
    opening: NodeState,
    version: LogVersion,
    total: usize,
    bytes: &[u8],
) -> Result<Option<MadeCalls>, AllocError>
    ensures { IfOk result (λ made. AreMadeIf (bytes_with routes.now) opening (version_seen version) total bytes.now made) }
{
    let mut node = opening;
    let mut references = Vec::new(alloc);
    let mut rest = bytes;
    for place in 0..bytes.len() {
        let number = place as u64 + 1;
        let start = total.saturating_sub(rest.len());
        match take_record(alloc, version, number, start, rest) {
            Ok(Some((entry, after))) => {
                if !make_entry(alloc, routes, &mut node, &mut references, entry)? {
                    return Ok(None);
                }
                rest = after;
            }
            Ok(None) => {
                return Ok(Some(MadeCalls {
                    node,
                    calls: place as u64,
                    references,
                    torn: rest.len(),
                }));
            }
            Err(fault) => {
                no_record(fault)?;
                return Ok(None);
            }
        }
    }
    Ok(Some(MadeCalls {
        node,
        calls: bytes.len() as u64,
        references,
        torn: rest.len(),
    }))
}

/// Makes the call that was read, and notes what it is called; whether the node makes it, and sends what was read.
fn make_entry(
    alloc: Global,
    routes: &Routes,
    node: &mut NodeState,
    references: &mut Vec<Reference>,
    read: Entry<'_>,
) -> Result<bool, AllocError>
    ensures made { IfOk result (λ yes. TellsMade yes (bytes_with routes.now) node.old (call_alone read.entry) node.new) }
    ensures noted { IfOk result (λ yes. yes ≡ true → references.new.items
        ≡ references.old.items ++ referred read.entry.stamp.reference.now (call_seen read.entry.call) node.new) }
{
    let name = read.stamp.reference;
    let one = Record::new(read.call, read.sent);
    if !makes(alloc, routes, node, &one)? {
        return Ok(false);
    }
    note_reference(alloc, references, name, one.call(), node)?;
    Ok(true)
}

/// That what stands here is no record, for this fault; want of memory says nothing of that.
fn no_record(fault: LogFault) -> Result<(), AllocError>
    ensures { OnOk result (fault ≢ OutOfMemory) }
{
    match fault {
        LogFault::OutOfMemory => Err(AllocError),
        _ => Ok(()),
    }
}
