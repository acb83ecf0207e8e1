//! From the file of a log to a node in its host's hands.

ghost use Rattle.std.specs.Prelude.{◌≡◌, ◌+◌, ◌-◌, ◌⊎◌, length, IfOk, IfErr};
ghost use Rattle.std.specs.Option.{option_copied};
ghost use Rattle.kept_logs.specs.Rests.{IsRest, calls_before};
ghost use Rattle.node_handle.specs.declared.refusal.Refusal.TheVariants.{OutOfMemory};
ghost use Rattle.node_handle.specs.Calls.{IsNamed, RefusesNode, TellsFault};
ghost use Rattle.node_handle.specs.Hosting.{just_opened};

use crate::hosted::Hosted;
use crate::refusal::{Refusal, refusal_of};
use crate::seed::keys_of;
use kept_logs::{LogFault, calls_told};
use log_turning::part_of;
use node_service::{Service, ServiceFault};
use schedule::node_in;
use std::alloc::Global;

/// The node of this name, in a box; and how many bytes of its log's file stay, or the place there of the record that is faulty.
pub(crate) fn opened(
    alloc: Global,
    settings: &[u8],
    name: &[u8],
    file: &[u8],
    seed: &[u8],
    kept: &mut usize,
) -> Result<Box<Hosted>, Refusal>
    ensures opened { IfOk result (λ o. IsNamed settings.now name.now file.now kept.new o.value) }
    ensures refused { IfErr result (λ why. RefusesNode settings.now name.now file.now why kept.old kept.new) }
{
    let Some(node) = node_in(name) else {
        return Err(Refusal::Name);
    };
    let part = part_of(file);
    let first = before_log(file, part.log);
    match Service::open(alloc, &keys_of(seed), settings, node, part.rest, part.log) {
        Ok((service, stay)) => boxed(alloc, part.rest, service, first, stay, kept),
        Err(fault) => Err(told(fault, first, kept)),
    }
}

/// How many bytes stand in a file before its log.
pub(crate) fn before_log(file: &[u8], log: &[u8]) -> usize
    ensures { result ≡ length file.now - length log.now }
{
    file.len().saturating_sub(log.len())
}

/// A node in a box, whose log begins with this rest, where it begins with one; and how many bytes of the log's file stay, which are this
/// many of the log and those before it.
pub(crate) fn boxed(
    alloc: Global,
    rest: Option<&[u8]>,
    service: Service,
    first: usize,
    stay: usize,
    kept: &mut usize,
) -> Result<Box<Hosted>, Refusal>
    ensures boxed { IfOk result (λ o.
        (IsRest (option_copied rest.entry) → o.value ≡ just_opened (calls_before (option_copied rest.entry)) service)
        × (kept.new ≡ first + stay)) }
    ensures refused { IfErr result (λ why. (why ≡ OutOfMemory) × (kept.new ≡ kept.old)) }
{
    let Some(all) = first.checked_add(stay) else {
        return Err(Refusal::OutOfMemory);
    };
    let Ok(node) = Hosted::of(alloc, calls_told(rest), service) else {
        return Err(Refusal::OutOfMemory);
    };
    match Box::new(alloc, node) {
        Ok(node) => {
            *kept = all;
            Ok(node)
        }
        Err(_) => Err(Refusal::OutOfMemory),
    }
}

/// The refusal of a fault, with the place of the record that it is about, in a file that has this many bytes before its log.
pub(crate) fn told(fault: ServiceFault, first: usize, kept: &mut usize) -> Refusal
    ensures { TellsFault fault first result kept.old kept.new }
{
    match fault {
        ServiceFault::Log(LogFault::Damaged(place)) => told_at(
            Refusal::Damaged,
            first,
            place,
            kept,
        ),
        ServiceFault::Log(LogFault::BadRecord(place)) => told_at(
            Refusal::BadRecord,
            first,
            place,
            kept,
        ),
        ServiceFault::NotMade(place) => told_at(Refusal::BadRecord, first, place, kept),
        other => refusal_of(other),
    }
}

/// A refusal, with a place of the log as one of its file; or want of memory, where no number says it.
fn told_at(why: Refusal, first: usize, place: usize, kept: &mut usize) -> Refusal
    ensures { ((result ≡ why) × (kept.new ≡ first + place)) ⊎ ((result ≡ OutOfMemory) × (kept.new ≡ kept.old)) }
{
    match first.checked_add(place) {
        Some(all) => {
            *kept = all;
            why
        }
        None => Refusal::OutOfMemory,
    }
}
