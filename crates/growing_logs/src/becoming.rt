//! What becomes of a log.

ghost use Rattle.std.specs.Prelude.{◌≡◌, [], IfOk, IfErr};
ghost use Rattle.settings_digest.specs.Digests.{AreOf, under};
ghost use Rattle.log_growth.specs.declared.over.Gone.TheVariants.{Over};
ghost use Rattle.growing_logs.specs.Becoming.{GoesOverWhole, IsFirst, IsStaying, IsUnlessRerouted, IsWhole, fate_seen};

use bin_routes::RouteKey;
use log_growth::{Gone, Grown, OverFault, go_over, rerouted};
use replaced_files::Fate;
use std::alloc::Global;
use world_setup::Node;

/// Why a log stays. Want of memory may stand in place of any answer.
#[derive(Drop)]
pub enum Stays {
    /// It is a log of neither settings, or its node does not open from it under the new ones.
    Fault(OverFault),
    /// An entry of this node has a rejection for want of a route, which its request has under the new settings.
    Rerouted(Node, u64),
}

/// What becomes of the log that bytes are, where the text spells the new settings: it goes over as `go_over` says, unless an entry of
/// its pharmacy has a rejection for want of a route which its request has now, whichever switch kept no log of it.
///
/// # Errors
/// As of `go_over`, else `Rerouted` with the first such entry.
pub(crate) fn becomes(
    alloc: Global,
    grown: &Grown,
    text: &[u8],
    bytes: &[u8],
) -> Result<Gone, Stays>
    requires { AreOf text.now grown.now.new }
    ensures goes { IfOk result (λ gone. GoesOverWhole (under grown.now.old bytes.now) text.now bytes.now gone) }
    ensures stays { IfErr result (λ why. IsStaying (under grown.now.old bytes.now) text.now bytes.now why) }
{
    match go_over(alloc, &grown.old, &grown.new, text, bytes) {
        Ok(gone) => unless_rerouted(alloc, text, gone),
        Err(fault) => Err(Stays::Fault(fault)),
    }
}

/// What becomes of a log that goes over, or is there, where no entry of its node has a rejection that does not stay.
fn unless_rerouted(alloc: Global, text: &[u8], gone: Gone) -> Result<Gone, Stays>
    ensures goes { IfOk result (λ still. (still ≡ gone) × IsWhole text.now gone) }
    ensures stays { IfErr result (λ why. IsUnlessRerouted text.now gone why) }
{
    match gone {
        Gone::Already(node) => Ok(Gone::Already(node)),
        // Its node opened from these bytes, so it opens again, unless memory is refused.
        Gone::Over(node, written) => match rerouted(alloc, text, node, written.as_slice()) {
            Ok(entries) => unless_first(node, written, entries.as_slice()),
            Err(_) => Err(Stays::Fault(OverFault::OutOfMemory)),
        },
    }
}

/// The same of a node that goes over with these bytes, where these of its entries have such a rejection.
fn unless_first(node: Node, written: Vec<u8>, entries: &[(u64, RouteKey)]) -> Result<Gone, Stays>
    ensures goes { IfOk result (λ gone. (gone ≡ Over node written) × (entries.now ≡ [])) }
    ensures stays { IfErr result (λ why. IsFirst node entries.now why) }
{
    match entries.first() {
        None => Ok(Gone::Over(node, written)),
        Some((entry, _)) => Err(Stays::Rerouted(node, *entry)),
    }
}

/// What is to become of the file of a log that becomes this.
pub(crate) fn fate_of(becomes: Result<Gone, Stays>) -> Fate
    ensures { result ≡ fate_seen becomes }
{
    match becomes {
        Ok(Gone::Over(_, written)) => Fate::Becomes(written),
        Ok(Gone::Already(_)) => Fate::Stands,
        Err(_) => Fate::Stays,
    }
}
