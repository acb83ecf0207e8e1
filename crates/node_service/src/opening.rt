//! From the bytes of a log to the node that is served.

ghost use Rattle.std.specs.Prelude.{◌≡◌, ℕ, List, Option, Some, Ok, IfOk, IfErr, IsSome};
ghost use Rattle.std.specs.Option.{option_copied};
ghost use Rattle.std.specs.Arc.{arc_value};
ghost use Rattle.claim_model.specs.Settings.{opening};
ghost use Rattle.claim_model.specs.Nodes.{node_at};
ghost use Rattle.world_setup.specs.Seen.{node_seen, settings_seen};
ghost use Rattle.kept_logs.specs.Digests.{version_seen};
ghost use Rattle.kept_logs.specs.Logs.{log_in};
ghost use Rattle.kept_logs.specs.LogSeen.{reading_seen};
ghost use Rattle.kept_logs.specs.Rests.{begins};
ghost use Rattle.node_service.specs.Opened.{IsBegunAs, IsOpened, IsRead, IsServedAs, IsServedNew, IsSharing, IsUnmade};
ghost use Rattle.node_service.specs.Refused.{IsRefused, IsUnserved};

use crate::fault::ServiceFault;
use crate::references::References;
use crate::service::Service;
use crate::sharing::SharedSettings;
use kept_logs::{
    Beginning, LogFault, LogVersion, MadeLog, ReadLog, Reference, SettingsDigest, begins,
    make_as_read, place_of, read_log, write_log,
};
use node_log::{NodeLog, is_there, make_log_from};
use node_state::NodeState;
use payer_book::HashKeys;
use std::alloc::{AllocError, Global};
use std::sync::Arc;
use world_setup::{CheckedSettings, Node};

impl Service {
    /// The node of this name under the settings that a text spells, from the bytes of its log, and where this goes on after
    /// closed ones, from the rest that it begins with; and how many of the log's bytes stay. What stands after them is a
    /// record that was cut off, or zeros, and goes. Where there is no log yet, or no whole head of one, the head is to be
    /// appended. The node has made each call of the log anew, and sent every byte that the log has as sent. The maps of a
    /// payer's book hash with these keys, on which no answer hangs.
    ///
    /// # Errors
    /// The first that stands: `Settings` where the text spells none, or those that open no world; `NoSuchNode`; `Rest`; `Log`;
    /// `OtherNode`; `NotMade` with the place of the first record that the node does not make. `OutOfMemory` may stand in
    /// place of any answer.
    pub fn open(
        alloc: Global,
        keys: &HashKeys,
        text: &[u8],
        node: Node,
        rest: Option<&[u8]>,
        bytes: &[u8],
    ) -> Result<(Service, usize), ServiceFault>
        ensures opened { IfOk result (λ opened.
            IsOpened text.now (node_seen node) (option_copied rest.entry) bytes.now opened.1 opened.0) }
        ensures refused { IfErr result (λ why.
            IsRefused text.now (node_seen node) (option_copied rest.entry) bytes.now why) }
    {
        let shared = SharedSettings::open(alloc, keys, text)?;
        Service::open_under(alloc, &shared, node, rest, bytes)
    }

    /// The same under settings that were opened before, and that any number of nodes may share: of each text that they may have been
    /// opened from it is what `open` gives.
    ///
    /// # Errors
    /// Those of `open`, but for `Settings`.
    pub fn open_under(
        alloc: Global,
        shared: &Arc<SharedSettings>,
        node: Node,
        rest: Option<&[u8]>,
        bytes: &[u8],
    ) -> Result<(Service, usize), ServiceFault>
        ensures opened { IfOk result (λ opened. (text : List ℕ) → IsSharing text (arc_value shared.now)
            → IsOpened text (node_seen node) (option_copied rest.entry) bytes.now opened.1 opened.0) }
        ensures refused { IfErr result (λ why. (text : List ℕ) → IsSharing text (arc_value shared.now)
            → IsRefused text (node_seen node) (option_copied rest.entry) bytes.now why) }
    {
        let checked = shared.checked();
        if !is_there(checked.settings(), node) {
            return Err(ServiceFault::NoSuchNode);
        }
        let Some(before) = begins(alloc, checked, node, rest)? else {
            return Err(ServiceFault::Rest);
        };
        let digest = shared.digest(rest, bytes);
        let Beginning {
            node: state,
            references,
        } = before;
        match made(alloc, &digest, checked, state, node, bytes)? {
            Some(made) => Ok(served(alloc, shared, node, digest.version(), references, made)?),
            None => unmade(alloc, &digest, shared, node, rest, bytes),
        }
    }
}

/// The node that makes the log which bytes are, as they are read, from what it begins with; `None` where they are none, or it does
/// not make them.
#[tactic(auto, using(crate::proofs::MadeLogs::is_read))]
fn made(
    alloc: Global,
    digest: &SettingsDigest,
    shared: &CheckedSettings,
    before: NodeState,
    node: Node,
    bytes: &[u8],
) -> Result<Option<MadeLog>, AllocError>
    ensures { IfOk result (λ made. (rest : Option (List ℕ)) → begins shared.now (node_seen node) rest ≡ Some before
        → IsRead shared.now rest digest.now (node_seen node) bytes.now made) }
{
    make_as_read(alloc, digest, shared.routes(), before, node, bytes)
}

/// A node that has made its log, of this version, is served; these are the references from before it.
fn served(
    alloc: Global,
    shared: &Arc<SharedSettings>,
    node: Node,
    version: LogVersion,
    before: Vec<Reference>,
    made: MadeLog,
) -> Result<(Service, usize), AllocError>
    ensures { IfOk result (λ s. IsServedAs (arc_value shared.now).settings (node_seen node) (version_seen version)
        before.items made s.1 s.0) }
{
    let mut references = References::new(alloc);
    references.add_all(alloc, before)?;
    references.add_all(alloc, made.references)?;
    let service = Service {
        shared: Arc::try_clone(shared)?,
        name: node,
        version,
        state: made.node,
        calls: made.calls,
        references,
        records: Vec::new(alloc),
        out: Vec::new(alloc),
    };
    Ok((service, made.whole))
}

/// The node of a log that begins, where the bytes end before the head does; else why they are no log that it makes.
fn unmade(
    alloc: Global,
    digest: &SettingsDigest,
    shared: &Arc<SharedSettings>,
    node: Node,
    rest: Option<&[u8]>,
    bytes: &[u8],
) -> Result<(Service, usize), ServiceFault>
    requires there { IsSome (node_at (opening (settings_seen (arc_value shared.now).settings)) (node_seen node)) }
    requires some { IsSome (begins (arc_value shared.now).settings (node_seen node) (option_copied rest)) }
    requires unmade { IsUnmade (arc_value shared.now).settings (node_seen node) (option_copied rest)
        (log_in digest.now bytes.now) }
    ensures new { IfOk result (λ s. IsBegunAs (arc_value shared.now).settings digest.now (node_seen node)
        (option_copied rest.entry) bytes.now s.1 s.0) }
    ensures refused { IfErr result (λ why. IsUnserved digest.now (arc_value shared.now).settings (node_seen node)
        (option_copied rest.entry) bytes.now why) }
{
    match read_log(alloc, digest, bytes) {
        Ok(read) => Err(why_unmade(alloc, digest, shared.checked(), node, rest, bytes, read)?),
        Err(LogFault::Short) => Ok((begun(alloc, digest, shared, node, rest)?, 0)),
        Err(LogFault::OutOfMemory) => Err(ServiceFault::OutOfMemory),
        Err(fault) => Err(ServiceFault::Log(fault)),
    }
}

/// The node of a log that begins: its head is to be appended.
fn begun(
    alloc: Global,
    digest: &SettingsDigest,
    shared: &Arc<SharedSettings>,
    node: Node,
    rest: Option<&[u8]>,
) -> Result<Service, AllocError>
    requires there { IsSome (node_at (opening (settings_seen (arc_value shared.now).settings)) (node_seen node)) }
    requires some { IsSome (begins (arc_value shared.now).settings (node_seen node) (option_copied rest)) }
    ensures { IfOk result (λ s. IsServedNew (arc_value shared.now).settings (node_seen node) digest.now
        (option_copied rest.entry) s) }
{
    let Some(before) = begins(alloc, shared.checked(), node, rest)? else {
        unreachable!()
    };
    let mut references = References::new(alloc);
    references.add_all(alloc, before.references)?;
    let records = write_log(alloc, digest, &NodeLog::new(alloc, node))?;
    Ok(Service {
        shared: Arc::try_clone(shared)?,
        name: node,
        version: digest.version(),
        state: before.node,
        calls: 0,
        references,
        records,
        out: Vec::new(alloc),
    })
}

/// Why a log that was read is none that its node makes.
fn why_unmade(
    alloc: Global,
    digest: &SettingsDigest,
    shared: &CheckedSettings,
    node: Node,
    rest: Option<&[u8]>,
    bytes: &[u8],
    read: ReadLog,
) -> Result<ServiceFault, AllocError>
    requires there { IsSome (node_at (opening (settings_seen shared.now)) (node_seen node)) }
    requires some { IsSome (begins shared.now (node_seen node) (option_copied rest)) }
    requires reads { log_in digest.now bytes.now ≡ Ok (reading_seen read) }
    requires unmade { IsUnmade shared.now (node_seen node) (option_copied rest) (Ok (reading_seen read)) }
    ensures { IfOk result (λ why.
        IsUnserved digest.now shared.now (node_seen node) (option_copied rest.entry) bytes.now why) }
{
    if !read.log.is_of(node) {
        return Ok(ServiceFault::OtherNode);
    }
    let Some(before) = begins(alloc, shared, node, rest)? else {
        unreachable!()
    };
    match make_log_from(alloc, shared.routes(), before.node, &read.log)? {
        Ok(_) => unreachable!(),
        Err(first) => Ok(ServiceFault::NotMade(place_of(digest, bytes, first.place))),
    }
}
