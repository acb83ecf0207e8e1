//! Settings by the name of their file.

use case_files::CaseFile;
use std::alloc::Global;
use world_settings::read_settings;
use world_setup::{CheckedSettings, WorldSettings};

/// The settings of the file of a name; none where there is no such file, or memory is refused.
pub(crate) fn settings_named(
    alloc: Global,
    files: &[CaseFile],
    name: &[u8],
) -> Option<WorldSettings> {
    for file in files {
        if file.ending() == "toml" && file.stem().as_bytes() == name {
            return read_settings(alloc, file.bytes()).ok();
        }
    }
    None
}

/// The settings of the file of a name, where a world takes them.
pub(crate) fn taken_named(
    alloc: Global,
    files: &[CaseFile],
    name: &[u8],
) -> Option<CheckedSettings> {
    match settings_named(alloc, files, name) {
        Some(settings) => CheckedSettings::new(alloc, settings).ok(),
        None => None,
    }
}
