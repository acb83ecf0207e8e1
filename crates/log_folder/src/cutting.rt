//! What is cut off the file of a log, once it is kept beside it.

ghost use Rattle.std.specs.Prelude.{◌≡◌, OnErr, OnOk, true};
ghost use Rattle.log_folder.specs.Deeds.{IsFollowed, all_done, is_failed, newest};
ghost use Rattle.log_folder.specs.Plans as plan;

use crate::folder::Folder;
use log_turning::part_of;
use std::io;

/// Where in the file of these bytes a place of its log is.
pub(crate) fn place_in(bytes: &[u8], place: usize) -> u64
    ensures { result ≡ plan.place_in bytes.now place }
{
    let after = part_of(bytes).log.len().saturating_sub(place);
    bytes.len().saturating_sub(after) as u64
}

/// Cuts the file after this many bytes; what stands there is kept beside it first.
pub(crate) fn cut_off<F: Folder>(folder: &mut F, place: u64) -> io::Result<()>
    ensures each { IsFollowed (plan.cut_at place) (F.deeds folder.old) (F.deeds folder.new) }
    ensures failed { OnErr result (newest is_failed (F.deeds folder.new) ≡ true) }
    ensures done { OnOk result (F.deeds folder.new ≡ all_done (plan.cut_at place) (F.deeds folder.old)) }
{
    folder.keep_end(place)?;
    folder.cut(place)
}
