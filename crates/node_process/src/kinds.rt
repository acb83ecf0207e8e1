//! Kinds of acts, as they are noted.

pub(crate) const FOUND: u64 = 0;

pub(crate) const CUT: u64 = 1;

pub(crate) const APPENDED: u64 = 2;

pub(crate) const SYNCED: u64 = 3;

pub(crate) const SAID: u64 = 4;

pub(crate) const HEARD: u64 = 5;
