//! What callers call their submissions.

ghost use Rattle.std.specs.Prelude.{◌≡◌, ◌++◌, OnOk};
ghost use Rattle.kept_logs.specs.References.{named, referred};
ghost use Rattle.world_setup.specs.Seen.{call_seen};

use node_state::NodeState;
use octets::Octets;
use std::alloc::{AllocError, Global};
use std::marker::Model;
use world_setup::Call;

/// What a caller calls a submission, and the number that its entry has (own).
#[derive(Drop)]
pub struct Reference {
    name: Octets,
    number: u64,
}

impl Model for Reference {
    ghost use Rattle.kept_logs.specs.References as model;

    ghost Value = { model.Reference };

    ghost view = { λ r. record { name = r.name; number = r.number } };
}

impl Reference {
    /// A reference, and the number that it has.
    pub fn new(name: Octets, number: u64) -> Reference
        ensures { result ≡ record { name = name; number = number } }
    {
        Reference { name, number }
    }

    /// What the caller calls the submission.
    pub fn name(&self) -> &[u8]
        ensures { result.now ≡ self.now.name }
    {
        self.name.as_slice()
    }

    /// The number of its entry.
    pub fn number(&self) -> u64
        ensures { result ≡ self.now.number }
    {
        self.number
    }
}

/// Appends the reference of a call that this node has just made, where the call has a name and is a submission.
///
/// # Errors
/// Memory was refused.
pub fn note_reference(
    alloc: Global,
    references: &mut Vec<Reference>,
    name: &[u8],
    call: &Call,
    next: &NodeState,
) -> Result<(), AllocError>
    ensures { OnOk result (references.new.items
        ≡ references.old.items ++ referred name.now (call_seen call.now) next.now) }
{
    match call {
        Call::Submit(_) => note_submission(alloc, references, name, next),
        Call::Tick => Ok(()),
        Call::Take { .. } => Ok(()),
        Call::Stop => Ok(()),
        Call::Start => Ok(()),
        Call::Plan { .. } => Ok(()),
        Call::Terms { .. } => Ok(()),
        Call::Retry { .. } => Ok(()),
        Call::Cap { .. } => Ok(()),
        Call::Adjudicate { .. } => Ok(()),
    }
}

/// Appends the reference of a submission, where it has a name.
fn note_submission(
    alloc: Global,
    references: &mut Vec<Reference>,
    name: &[u8],
    next: &NodeState,
) -> Result<(), AllocError>
    ensures { OnOk result (references.new.items
        ≡ references.old.items ++ named name.now next.now) }
{
    if name.is_empty() {
        return Ok(());
    }
    let number = next.entries(alloc)? as u64;
    let name = Octets::copy_of(alloc, name)?;
    references.push(Reference::new(name, number))?;
    Ok(())
}
