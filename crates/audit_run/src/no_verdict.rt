//! Why there is no verdict.

ghost use Rattle.std.specs.Prelude.{◌≡◌, Ok, map, string_bytes, IfErr, IfOk};
ghost use Rattle.audit_run.specs.NoVerdict.{IsWhy, IsWhyOf, Names, before_of, is_of_settings, place_of};

use log_audit::{AuditFault, ReferenceFault};
use log_turning::{JoinFault, WholeFault};
use std::alloc::Global;
use thiserror::Error;

/// Why there is no verdict.
#[derive(Debug, Drop, Error)]
pub enum NoVerdict {
    /// There is nothing to be judged.
    #[error("{0}")]
    Fault(AuditFault),
    /// The files of a node's logs are not read as one log.
    #[error("{0}")]
    Files(WholeFault),
    /// The same, for what is wrong with the log of this name.
    #[error("{0}: {1}")]
    Log(String, AuditFault),
    /// A submission before the log of this name has a reference that no node keeps.
    #[error("{0}: before its first call: {1}")]
    Before(String, ReferenceFault),
}

impl NoVerdict {
    /// Whether it is that the settings spell none, of which more can be said.
    pub fn is_of_settings(&self) -> bool
        ensures { result ≡ is_of_settings self.now }
    {
        match self {
            NoVerdict::Fault(AuditFault::Settings) => true,
            _ => false,
        }
    }
}

impl From<WholeFault> for NoVerdict {
    ghost use Rattle.audit_run.specs.NoVerdict.{of_files};

    ghost from_gives = { λ fault why. why ≡ of_files fault };

    fn from(fault: WholeFault) -> NoVerdict {
        match fault {
            WholeFault::Logs(_, JoinFault::Settings) => NoVerdict::Fault(AuditFault::Settings),
            other => NoVerdict::Files(other),
        }
    }
}

/// An answer on logs of these names, or why there is none: what is wrong with the log at a place is told with the name at that place.
/// Want of memory may stand in its place.
///
/// # Errors
/// The answer is a fault.
pub fn answered<T: Drop>(
    alloc: Global,
    names: &[&str],
    answer: Result<T, AuditFault>,
) -> Result<T, NoVerdict>
    ensures same { IfOk result (λ it. answer ≡ Ok it) }
    ensures why { IfErr result (λ why. IsWhyOf (map (λ name. name.now) names.now) answer why) }
{
    match answer {
        Ok(it) => Ok(it),
        Err(fault) => Err(named(alloc, names, fault)),
    }
}

/// Why there is no verdict on logs of these names: what is wrong with the log at a place is told with the name at that place. Want of
/// memory may stand in its place.
fn named(alloc: Global, names: &[&str], fault: AuditFault) -> NoVerdict
    ensures { IsWhy (map (λ name. name.now) names.now) fault result }
{
    let Some(place) = place_of(fault) else {
        return NoVerdict::Fault(fault);
    };
    let Some(name) = names.get(place) else {
        return NoVerdict::Fault(fault);
    };
    match String::from_str(alloc, name) {
        Ok(name) => with_name(name, fault),
        Err(_) => NoVerdict::Fault(AuditFault::OutOfMemory),
    }
}

/// The place of the log that a fault is of, where it is of one.
fn place_of(fault: AuditFault) -> Option<usize>
    ensures { result ≡ place_of fault }
{
    match fault {
        AuditFault::Log { place, .. } => Some(place),
        AuditFault::Reference { place, .. } => Some(place),
        AuditFault::OutOfMemory => None,
        AuditFault::Settings => None,
        AuditFault::World(_) => None,
        AuditFault::NoLine => None,
    }
}

/// A fault of the log of this name.
fn with_name(name: String, fault: AuditFault) -> NoVerdict
    ensures { Names (string_bytes name) fault result }
{
    match before_of(fault) {
        Some(why) => NoVerdict::Before(name, why),
        None => NoVerdict::Log(name, fault),
    }
}

/// What is wrong with a submission before the first call of a log, where it is that.
fn before_of(fault: AuditFault) -> Option<ReferenceFault>
    ensures { result ≡ before_of fault }
{
    match fault {
        AuditFault::Reference {
            call,
            fault: why,
            ..
        } => { if call == 0 { Some(why) } else { None } }
        AuditFault::OutOfMemory => None,
        AuditFault::Settings => None,
        AuditFault::World(_) => None,
        AuditFault::Log { .. } => None,
        AuditFault::NoLine => None,
    }
}
