//! The references of a node's submissions.

ghost use Rattle.std.specs.Prelude.{◌≡◌, ◌++◌, ◌∷◌, [], List, None, OnOk, OnErr};
ghost use Rattle.std.specs.Map.{lookup};
ghost use Rattle.kept_logs.specs.References as model;
ghost use Rattle.kept_logs.specs.References.{referred};
ghost use Rattle.world_setup.specs.Seen.{call_seen};
ghost use Rattle.node_service.specs.Serving.{found_named};
ghost use Rattle.node_service.specs.Numbers.{HasNumbers, is_name};

use indexmap::IndexMap;
use kept_logs::{Reference, note_reference};
use node_state::NodeState;
use std::alloc::{AllocError, Global};
use std::marker::Model;
use world_setup::Call;

/// The references of a node's submissions, in order, and of each the number that it has first.
#[derive(Drop)]
pub(crate) struct References {
    list: Vec<Reference>,
    numbers: IndexMap<Vec<u8>, u64>,
}

impl Model for References {
    ghost use Rattle.std.specs.Prelude.{List};
    ghost use Rattle.kept_logs.specs.References as model;
    ghost use Rattle.node_service.specs.Numbers.{HasNumbers};

    ghost Value = { List model.Reference };

    ghost view = { λ r. r.list.items };

    ghost invariant = { λ r. HasNumbers r.list.items r.numbers.entries };
}

impl References {
    /// No reference yet.
    pub(crate) fn new(alloc: Global) -> References
        ensures { result ≡ [] }
    {
        References {
            list: Vec::new(alloc),
            numbers: IndexMap::new(alloc),
        }
    }

    /// Adds a reference. The number that its name has already stays.
    pub(crate) fn add(&mut self, alloc: Global, one: Reference) -> Result<(), AllocError>
        ensures { OnOk result (self.new ≡ self.old ++ one ∷ []) }
    {
        self.list.reserve(1)?;
        note_number(alloc, &mut self.numbers, &one)?;
        self.list.push_reserved(one);
        Ok(())
    }

    /// Adds references, in order.
    pub(crate) fn add_all(&mut self, alloc: Global, more: Vec<Reference>) -> Result<(), AllocError>
        ensures { OnOk result (self.new ≡ self.old ++ more.items) }
    {
        for one in more {
            self.add(alloc, one)?;
        }
        Ok(())
    }

    /// Adds the reference of a call that this node has just made, where it has a name and is a submission.
    pub(crate) fn note(
        &mut self,
        alloc: Global,
        name: &[u8],
        call: &Call,
        next: &NodeState,
    ) -> Result<(), AllocError>
        ensures { OnOk result (self.new ≡ self.old ++ referred name.now (call_seen call.now) next.now) }
    {
        let mut more = Vec::new(alloc);
        note_reference(alloc, &mut more, name, call, next)?;
        self.add_all(alloc, more)
    }

    /// The number that a name has; none where it has none, or is no name.
    pub(crate) fn number_of(&self, name: &[u8]) -> Option<u64>
        ensures { result ≡ found_named self.now name.now }
    {
        if name.is_empty() {
            return None;
        }
        self.numbers.get(name).copied()
    }

    /// All of them, in order.
    pub(crate) fn into_list(self) -> Vec<Reference>
        ensures { result.items ≡ self }
    {
        let References { list, .. } = self;
        list
    }
}

/// Notes the number of a reference, where its name has none.
fn note_number(
    alloc: Global,
    numbers: &mut IndexMap<Vec<u8>, u64>,
    one: &Reference,
) -> Result<(), AllocError>
    ensures noted { OnOk result ((list : List model.Reference)
        → HasNumbers list numbers.old.entries → HasNumbers (list ++ one.now ∷ []) numbers.new.entries) }
    ensures err { OnErr result (numbers.new.entries ≡ numbers.old.entries) }
{
    match numbers.get(one.name()) {
        Some(_) => Ok(()),
        None => insert_number(alloc, numbers, one),
    }
}

/// Notes the number of a reference whose name has none.
fn insert_number(
    alloc: Global,
    numbers: &mut IndexMap<Vec<u8>, u64>,
    one: &Reference,
) -> Result<(), AllocError>
    requires { lookup (is_name one.now.name) numbers.old.entries ≡ None }
    ensures noted { OnOk result ((list : List model.Reference)
        → HasNumbers list numbers.old.entries → HasNumbers (list ++ one.now ∷ []) numbers.new.entries) }
    ensures err { OnErr result (numbers.new.entries ≡ numbers.old.entries) }
{
    let name = Vec::from_slice(alloc, one.name())?;
    let _ = numbers.insert(name, one.number())?;
    Ok(())
}
