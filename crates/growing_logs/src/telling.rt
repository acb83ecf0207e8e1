//! What is told of a log.

ghost use Rattle.std.specs.Prelude.{◌≡◌, IfOk};
ghost use Rattle.growing_logs.specs.Telling.{IsTold, IsToldFault, IsToldWhy, gone_text};

use crate::becoming::Stays;
use crate::hints::Hint;
use crate::texts::{refused_text, rerouted_text, said_text, unread_text};
use log_growth::{Gone, OverFault};
use std::alloc::{AllocError, Global};

/// What is told of a log: its node, and what becomes of it or why it stays, with a hint at what in the routes it is for.
pub(crate) fn told(
    alloc: Global,
    becomes: &Result<Gone, Stays>,
    hint: Hint,
) -> Result<Vec<u8>, AllocError>
    ensures { IfOk result (λ text. IsTold becomes.now hint text.items) }
{
    match becomes {
        Ok(gone) => told_gone(alloc, gone),
        Err(why) => told_why(alloc, why, hint),
    }
}

/// What is told of a log that goes over, or is there.
fn told_gone(alloc: Global, gone: &Gone) -> Result<Vec<u8>, AllocError>
    ensures { IfOk result (λ text. text.items ≡ gone_text gone.now) }
{
    match gone {
        Gone::Over(node, _) => said_text(alloc, *node, b" goes over"),
        Gone::Already(node) => said_text(alloc, *node, b" is under the new settings already"),
    }
}

/// What is told of a log that stays.
fn told_why(alloc: Global, why: &Stays, hint: Hint) -> Result<Vec<u8>, AllocError>
    ensures { IfOk result (λ text. IsToldWhy why.now hint text.items) }
{
    match why {
        Stays::Fault(fault) => told_fault(alloc, *fault, hint),
        Stays::Rerouted(node, entry) => rerouted_text(alloc, *node, *entry),
    }
}

/// What is told of a log that is not read, or whose node is not served from it.
fn told_fault(alloc: Global, fault: OverFault, hint: Hint) -> Result<Vec<u8>, AllocError>
    ensures { IfOk result (λ text. IsToldFault fault hint text.items) }
{
    let why = format!(in alloc; "{fault}")?;
    match fault {
        OverFault::Refused(node, _) => refused_text(alloc, node, why.as_bytes(), hint.words()),
        OverFault::OutOfMemory => unread_text(alloc, why.as_bytes()),
        OverFault::Log(_) => unread_text(alloc, why.as_bytes()),
    }
}
