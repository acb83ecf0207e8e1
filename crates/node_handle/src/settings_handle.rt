//! The handle of settings, and nodes that are opened under it.

ghost use Rattle.std.specs.Prelude.{◌≡◌, ℕ, List, IfOk, IfErr, IsSome, is_some};
ghost use Rattle.std.specs.declared.option.Option.TheVariants.{None, Some};
ghost use Rattle.node_service.specs.Opened.{IsSharing};
ghost use Rattle.node_handle.specs.Calls.{IsNamed, Opens, RefusesNode};
ghost use Rattle.node_handle.specs.Sharings.{OpensSettings, OpensUnder, RefusesText};

use crate::handle::NodeHandle;
use crate::hosted::Hosted;
use crate::hosted_settings::HostedSettings;
use crate::loose::Loose;
use crate::opening::{before_log, boxed, told};
use crate::refusal::{Refusal, refusal_of};
use crate::seed::keys_of;
use crate::settings_part::SettingsPart;
use log_turning::part_of;
use node_service::{Service, SharedSettings};
use schedule::node_in;
use std::alloc::Global;
use std::mem::replace;

/// The handle of settings. Its bytes lie where the caller has them; zeros are a handle with none.
#[repr(C)]
pub struct SettingsHandle {
    /// The settings.
    pub part: SettingsPart,
    /// Whether there are any.
    pub held: bool,
    ghost fits: { held ≡ is_some part.settings },
}

impl SettingsHandle {
    /// A handle with no settings.
    pub(crate) fn closed() -> SettingsHandle
        ensures { result.part.settings ≡ None }
    {
        let part = SettingsPart::of_nothing();
        SettingsHandle { part, held: false }
    }

    /// A handle with these settings.
    pub(crate) fn of(settings: Box<HostedSettings>) -> SettingsHandle
        ensures { result.part.settings ≡ Some settings.value }
    {
        let part = SettingsPart::from_loose(Loose::of(settings));
        SettingsHandle { part, held: true }
    }

    /// The settings, taken out.
    pub(crate) fn take(&mut self, alloc: Global) -> Box<HostedSettings>
        requires { IsSome self.old.part.settings }
        ensures closed { self.new.part.settings ≡ None }
        ensures settings { self.old.part.settings ≡ Some result.value }
    {
        let SettingsHandle { part, held: _ } = replace(self, SettingsHandle::closed());
        part.into_loose(alloc).into_box()
    }

    /// Puts settings where there are none.
    pub(crate) fn put(&mut self, settings: Box<HostedSettings>)
        requires { self.old.part.settings ≡ None }
        ensures { self.new.part.settings ≡ Some settings.value }
    {
        let SettingsHandle { part, held: _ } = replace(self, SettingsHandle::of(settings));
        part.forget();
    }

    /// Opens the settings that a text spells. The maps of payers' books hash with keys of this seed, sixteen bytes.
    ///
    /// # Errors
    /// `Open` where the handle has settings already, `Settings` where the text spells none or those that open no world, and
    /// `OutOfMemory`. Then all is as it was.
    pub fn open(&mut self, alloc: Global, text: &[u8], seed: &[u8]) -> Result<(), Refusal>
        ensures { OpensSettings self.old.part.settings text.now result self.new.part.settings }
    {
        if self.held {
            return Err(Refusal::Open);
        }
        match settings_of(alloc, text, seed) {
            Ok(settings) => {
                self.put(settings);
                Ok(())
            }
            Err(why) => Err(why),
        }
    }

    /// Lets go of the settings. Nodes that were opened under them stay as they are.
    pub fn close(&mut self, alloc: Global)
        ensures { self.new.part.settings ≡ None }
    {
        if self.held {
            drop(self.take(alloc));
        }
    }
}

impl NodeHandle {
    /// Opens the node of this name under settings that were opened, from the file of its log.
    ///
    /// # Errors
    /// `Closed` where there are no settings; else those of `open`, but for `Settings`. Then all is as it was.
    pub fn open_under(
        &mut self,
        alloc: Global,
        settings: &mut SettingsHandle,
        name: &[u8],
        file: &[u8],
        kept: &mut usize,
    ) -> Result<(), Refusal>
        ensures settings { settings.new.part.settings ≡ settings.old.part.settings }
        ensures opened { OpensUnder settings.old.part.settings self.old.part.node name.now file.now result
            kept.old kept.new self.new.part.node }
    {
        if !settings.held {
            return Err(Refusal::Closed);
        }
        let shared = settings.take(alloc);
        let opened = self.open_with(alloc, &*shared, name, file, kept);
        settings.put(shared);
        opened
    }

    /// Opens the node of this name under settings, from the file of its log.
    fn open_with(
        &mut self,
        alloc: Global,
        settings: &HostedSettings,
        name: &[u8],
        file: &[u8],
        kept: &mut usize,
    ) -> Result<(), Refusal>
        ensures { (text : List ℕ) → IsSharing text settings.now
            → Opens self.old.part.node text name.now file.now result kept.old kept.new self.new.part.node }
    {
        if self.held {
            return Err(Refusal::Open);
        }
        match opened_under(alloc, settings, name, file, kept) {
            Ok(node) => {
                self.put(node);
                Ok(())
            }
            Err(why) => Err(why),
        }
    }
}

/// The settings that a text spells, in a box.
fn settings_of(alloc: Global, text: &[u8], seed: &[u8]) -> Result<Box<HostedSettings>, Refusal>
    ensures opened { IfOk result (λ o. IsSharing text.now o.value) }
    ensures refused { IfErr result (λ why. RefusesText text.now why) }
{
    match SharedSettings::open(alloc, &keys_of(seed), text) {
        Ok(shared) => match Box::new(alloc, HostedSettings::of(shared)) {
            Ok(settings) => Ok(settings),
            Err(_) => Err(Refusal::OutOfMemory),
        },
        Err(fault) => Err(refusal_of(fault)),
    }
}

/// The node of this name under settings, in a box; and how many bytes of its log's file stay, or the place there of the record that is
/// faulty.
fn opened_under(
    alloc: Global,
    settings: &HostedSettings,
    name: &[u8],
    file: &[u8],
    kept: &mut usize,
) -> Result<Box<Hosted>, Refusal>
    ensures opened { IfOk result (λ o. (text : List ℕ) → IsSharing text settings.now
        → IsNamed text name.now file.now kept.new o.value) }
    ensures refused { IfErr result (λ why. (text : List ℕ) → IsSharing text settings.now
        → RefusesNode text name.now file.now why kept.old kept.new) }
{
    let Some(node) = node_in(name) else {
        return Err(Refusal::Name);
    };
    let part = part_of(file);
    let first = before_log(file, part.log);
    match Service::open_under(alloc, settings.shared(), node, part.rest, part.log) {
        Ok((service, stay)) => boxed(alloc, part.rest, service, first, stay, kept),
        Err(fault) => Err(told(fault, first, kept)),
    }
}
