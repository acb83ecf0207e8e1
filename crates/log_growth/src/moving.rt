//! A log under another head.

ghost use Rattle.std.specs.Prelude.{◌≡◌, ◌≢◌, Err, IfOk, IfErr};
ghost use Rattle.world_setup.specs.Seen.{node_seen};
ghost use Rattle.kept_logs.specs.declared.fault.LogFault.TheVariants.{OutOfMemory};
ghost use Rattle.kept_logs.specs.Digests.{version_of};
ghost use Rattle.kept_logs.specs.Logs.{log_in};
ghost use Rattle.log_growth.specs.Over.{IsMoved};

use kept_logs::{
    LogFault, SettingsDigest, append_records, log_is_its_text, log_reads_back, write_log,
};
use node_log::NodeLog;
use std::alloc::Global;
use world_setup::Node;

/// The log under settings of the old digest that bytes are, as one under those of the new digest, with all that was noted of its
/// calls; and whose it is.
///
/// # Errors
/// As of `read_log`, under the old digest.
pub(crate) fn moved(
    alloc: Global,
    old: &SettingsDigest,
    new: &SettingsDigest,
    bytes: &[u8],
) -> Result<(Node, Vec<u8>), LogFault>
    requires { version_of new.now ≡ 2 }
    ensures ok { IfOk result (λ r. IsMoved old.now new.now bytes.now (node_seen r.0) r.1.items) }
    ensures fault { IfErr result (λ e. e ≢ OutOfMemory → log_in old.now bytes.now ≡ Err e) }
{
    log_is_its_text();
    log_reads_back();
    let _ = old.as_slice();
    let _ = new.as_slice();
    let mut records = Vec::new(alloc);
    let read = append_records(alloc, old, bytes, 0, &mut records)?;
    let mut written = write_log(alloc, new, &NodeLog::new(alloc, read.node))?;
    written.extend_from_slice(records.as_slice())?;
    Ok((read.node, written))
}
