//! Logs that are read from files.

ghost use Rattle.std.specs.Prelude.{◌≡◌, [], false, IfOk, string_bytes};
ghost use Rattle.growing_logs.specs.Noting.{found_in, name_in};

use crate::logs::Logs;
use call_notes::Noted;
use log_turning::{OneLog, Reach, WholeFault, read_logs};
use std::alloc::{AllocError, Global};

/// The logs in files of these names, under settings that one of two texts spells.
#[derive(Drop)]
pub struct Reader<'a> {
    rt: &'a HostRuntime,
    names: &'a [&'a str],
    old: &'a [u8],
    new: &'a [u8],
    noted: Noted,
    failed: bool,
}

impl<'a> Reader<'a> {
    /// Of logs of these names, of which none was read yet.
    pub fn new(
        rt: &'a HostRuntime,
        names: &'a [&'a str],
        old: &'a [u8],
        new: &'a [u8],
    ) -> Reader<'a>
        ensures found { found_in result.noted.notes ≡ [] }
        ensures failed { result.failed ≡ false }
    {
        Reader {
            rt,
            names,
            old,
            new,
            noted: Noted::new(),
            failed: false,
        }
    }

    /// The log at a place under the old settings, and where its logs do not go on so, under the new ones.
    fn whole(&self, place: usize) -> Result<Vec<u8>, WholeFault> {
        let read = match self.read_under(self.old, place) {
            Err(WholeFault::Logs(_, _) | WholeFault::Rest(_, _)) => {
                self.read_under(self.new, place)
            }
            read => read,
        };
        Ok(read?.log)
    }

    /// All logs of the node whose log has the name at a place, as one, under the settings that a text spells.
    fn read_under(&self, text: &[u8], place: usize) -> Result<OneLog, WholeFault> {
        read_logs(self.rt, text, name_at(self.names, place), Reach::All)
    }
}

impl<'a> Logs for Reader<'a> {
    ghost found = { λ reader. found_in reader.noted.notes };

    ghost has_failed = { λ reader. reader.failed };

    fn read(&mut self, place: usize) -> Result<Vec<u8>, WholeFault> {
        match self.whole(place) {
            Ok(bytes) => {
                self.noted.note(&[], bytes.as_slice());
                Ok(bytes)
            }
            Err(fault) => {
                self.failed = true;
                Err(fault)
            }
        }
    }
}

/// The name at a place; where there is none, one that no file has.
pub(crate) fn name_at<'a>(names: &[&'a str], place: usize) -> &'a str
    ensures { result.now ≡ name_in names.now place }
{
    match names.get(place) {
        Some(name) => name,
        None => "",
    }
}

/// The same, in memory of its own.
pub fn name_of(alloc: Global, names: &[&str], place: usize) -> Result<String, AllocError>
    ensures { IfOk result (λ name. string_bytes name ≡ name_in names.now place) }
{
    String::from_str(alloc, name_at(names, place))
}
