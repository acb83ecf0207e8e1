//! The pointer of the box of settings, with no type: as that of a node's.

ghost use Rattle.std.specs.Prelude.{◌≡◌, IsSome};
ghost use Rattle.std.specs.declared.option.Option.{Option};
ghost use Rattle.std.specs.declared.option.Option.TheVariants.{None, Some};
ghost use Rattle.std.specs.Coded.{coded_option};
ghost use Rattle.node_handle.specs.contracts.hosted_settings.HostedSettings.{the_row};
ghost use Rattle.node_handle.specs.Erased.{owns};

use crate::hosted_settings::HostedSettings;
use crate::loose::Loose;
use std::alloc::Global;
use std::marker::Model;
use std::ptr::null_mut;

/// The pointer of the box of settings, or null.
#[repr(C)]
pub struct SettingsPart {
    at: *mut u8,
    pub ghost settings: { Option (the_row).Denot } by { coded_option (the_row).coded },
}

impl Model for SettingsPart {
    ghost also_owns = { λ p. owns the_row p.at p.settings };
}

impl SettingsPart {
    /// No settings.
    pub(crate) fn of_nothing() -> SettingsPart
        ensures { result.settings ≡ None }
    {
        SettingsPart { at: null_mut() }
    }

    /// The settings of a pointer.
    pub(crate) fn from_loose(loose: Loose<HostedSettings, Global>) -> SettingsPart
        ensures { result.settings ≡ Some loose.value }
    {
        let Loose { at, alloc: _ } = loose;
        SettingsPart { at: at as *mut u8 }
    }

    /// The pointer with its type again.
    pub(crate) fn into_loose(self, alloc: Global) -> Loose<HostedSettings, Global>
        requires { IsSome self.settings }
        ensures { self.settings ≡ Some result.value }
    {
        let SettingsPart { at } = self;
        Loose {
            at: at as *mut HostedSettings,
            alloc,
        }
    }

    /// Lets go of a pointer that is null.
    pub(crate) fn forget(self)
        requires { self.settings ≡ None }
    {
        let SettingsPart { at: _ } = self;
    }
}

unsafe impl Send for SettingsPart {}
