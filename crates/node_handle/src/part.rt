//! The pointer of a node's box, with no type.

ghost use Rattle.std.specs.Prelude.{◌≡◌, IsSome};
ghost use Rattle.std.specs.declared.option.Option.{Option};
ghost use Rattle.std.specs.declared.option.Option.TheVariants.{None, Some};
ghost use Rattle.std.specs.Coded.{coded_option};
ghost use Rattle.node_handle.specs.contracts.hosted.Hosted.{the_row};
ghost use Rattle.node_handle.specs.Erased.{owns};

use crate::hosted::Hosted;
use crate::loose::Loose;
use std::alloc::Global;
use std::marker::Model;
use std::ptr::null_mut;

/// The pointer of a node's box, or null.
#[repr(C)]
pub struct Part {
    at: *mut u8,
    pub ghost node: { Option (the_row).Denot } by { coded_option (the_row).coded },
}

impl Model for Part {
    ghost also_owns = { λ p. owns the_row p.at p.node };
}

impl Part {
    /// No node.
    pub(crate) fn of_nothing() -> Part
        ensures { result.node ≡ None }
    {
        Part { at: null_mut() }
    }

    /// The node of a pointer.
    pub(crate) fn from_loose(loose: Loose<Hosted, Global>) -> Part
        ensures { result.node ≡ Some loose.value }
    {
        let Loose { at, alloc: _ } = loose;
        Part { at: at as *mut u8 }
    }

    /// The pointer with its type again.
    pub(crate) fn into_loose(self, alloc: Global) -> Loose<Hosted, Global>
        requires { IsSome self.node }
        ensures { self.node ≡ Some result.value }
    {
        let Part { at } = self;
        Loose {
            at: at as *mut Hosted,
            alloc,
        }
    }

    /// Lets go of a pointer that is null.
    pub(crate) fn forget(self)
        requires { self.node ≡ None }
    {
        let Part { at: _ } = self;
    }
}

unsafe impl Send for Part {}
