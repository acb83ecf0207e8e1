//! When a row of a payer's book was ruled, by the requests that payers took.

ghost use Rattle.std.specs.Prelude.{◌≡◌, map, reverse, IfErr, IfOk};
ghost use Rattle.std.specs.BTreeMap.{IsFromIterResult, get};
ghost use Rattle.std.specs.Option.{option_flatten};
ghost use Rattle.claim_reports.specs.declared.fault.ReportFault.TheVariants.{OutOfMemory};
ghost use Rattle.claim_reports.specs.declared.ruled.Taken.{Taken};
ghost use Rattle.claim_reports.specs.Ruled.{request_cmp, ruled_at};

use crate::fault::ReportFault;
use std::alloc::{AllocError, Global};
use std::collections::BTreeMap;

/// A request of a pharmacy to a payer.
#[derive(Clone, Copy, PartialEq, Eq, PartialOrd, Ord)]
pub struct Request {
    /// The payer.
    pub payer: u64,
    /// The pharmacy.
    pub pharmacy: u64,
    /// The number of the pharmacy's entry.
    pub number: u64,
}

/// A packet with a request that a payer took.
#[derive(Clone, Copy)]
pub struct Taken {
    /// The request.
    pub request: Request,
    /// When the payer took it, in milliseconds since 1970, where its host said so.
    pub time: Option<u64>,
}

/// When each of some requests was ruled, by the packets that payers took, in their order.
///
/// # Errors
/// Want of memory.
#[tactic(auto, using(crate::proofs::Firsts::times_are))]
pub fn ruled_times(
    alloc: Global,
    taken: &[Taken],
    requests: &[Request],
) -> Result<Vec<Option<u64>>, ReportFault>
    // A payer rules at the first packet with a request: its time is that of the first in the list.
    ensures times { IfOk result (λ times. times.items ≡ map (ruled_at taken.now) requests.now) }
    // It is refused for want of memory alone.
    ensures memory { IfErr result (λ e. e ≡ OutOfMemory) }
{
    let first = first_times(alloc, taken)?;
    Ok(times_of(alloc, &first, requests)?)
}

/// The times that a map has of requests.
fn times_of(
    alloc: Global,
    first: &BTreeMap<Request, Option<u64>>,
    requests: &[Request],
) -> Result<Vec<Option<u64>>, AllocError>
    ensures { IfOk result (λ times. times.items ≡ map (λ r. option_flatten (get request_cmp first.now r)) requests.now) }
{
    requests
        .iter()
        .map(|request| first.get(request).copied().flatten())
        .collect(alloc)
}

/// The time of the first packet of each request.
fn first_times(alloc: Global, taken: &[Taken]) -> Result<BTreeMap<Request, Option<u64>>, AllocError>
    ensures { IfOk result (IsFromIterResult request_cmp (map (λ (t : Taken). (t.request, t.time)) (reverse taken.now))) }
{
    let last_first = taken.iter().rev();
    last_first
        .map(|packet| (packet.request, packet.time))
        .collect(alloc)
}
