//! The settings of a world from the text of a TOML document.
//!
//! What table a text means is the promise of the crate `toml`; which settings a table spells, key by key, stands in
//! `specs/`. Every refusal that is not for want of memory is one and the same.
#![tactic(auto)]

mod checked;
mod fault;
mod keys;
mod limits;
mod lists;
mod payers;
mod pharmacies;
mod profile;
mod ranges;
mod routes;
mod settings;
mod values;
mod wanted;
mod why;

pub use checked::read_checked_settings;
pub use fault::{SettingsFault, Untaken};
pub use settings::{read_living_settings, read_settings};
pub use why::{living_settings_fault, settings_fault};
