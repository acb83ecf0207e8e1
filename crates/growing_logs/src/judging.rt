//! Logs that are judged.

ghost use Rattle.std.specs.Prelude.{◌≡◌, [], IfErr, IfOk};
ghost use Rattle.settings_digest.specs.Digests.{AreOf};
ghost use Rattle.growing_logs.specs.Judging.{AreJudged, IsJudged, IsUnread};

use crate::becoming::{Stays, becomes, fate_of};
use crate::fault::GrowFault;
use crate::hints::hint_of;
use crate::logs::Logs;
use crate::telling::told;
use crate::texts::put_line;
use log_growth::{Grown, OverFault};
use replaced_files::Fate;
use std::alloc::{AllocError, Global};

/// Logs that were judged.
#[derive(Drop)]
pub struct Judged {
    /// What is to become of the file of each.
    pub fates: Vec<Fate>,
    /// What is told of them, a line each.
    pub lines: Vec<u8>,
}

/// Reads the logs of these names, of which none was read, the first first, and judges them, where the texts spell the old settings and
/// the new ones.
///
/// # Errors
/// `Unread`, with the first log that is not read.
pub fn judge_all<L: Logs>(
    alloc: Global,
    grown: &Grown,
    old: &[u8],
    new: &[u8],
    names: &[&str],
    logs: &mut L,
) -> Result<Judged, GrowFault>
    requires old { AreOf old.now grown.now.old }
    requires new { AreOf new.now grown.now.new }
    requires unread { L.found logs.old ≡ [] }
    ensures judged { IfOk result (λ judged.
        AreJudged grown.now old.now new.now names.now (L.found logs.new) judged.fates.items judged.lines.items) }
    ensures unread { IfErr result (λ why. IsUnread why (L.has_failed logs.new)) }
{
    let mut fates = Vec::new(alloc);
    let mut lines = Vec::new(alloc);
    for (place, name) in names.iter().enumerate() {
        let bytes = logs.read(place)?;
        let log = bytes.as_slice();
        let fate = judge(alloc, grown, old, new, name.as_bytes(), log, &mut lines)?;
        fates.push(fate)?;
    }
    Ok(Judged { fates, lines })
}

/// What is to become of the file of a log of this name; and appends what is told of it.
fn judge(
    alloc: Global,
    grown: &Grown,
    old: &[u8],
    new: &[u8],
    name: &[u8],
    bytes: &[u8],
    lines: &mut Vec<u8>,
) -> Result<Fate, AllocError>
    requires old { AreOf old.now grown.now.old }
    requires new { AreOf new.now grown.now.new }
    ensures { IfOk result (λ fate.
        IsJudged grown.now old.now new.now name.now bytes.now fate lines.old.items lines.new.items) }
{
    let becomes = becomes(alloc, grown, new, bytes);
    let hint = hint_of(alloc, &grown.old, old, grown.moves, bytes, &becomes);
    let told = told(alloc, &becomes, hint)?;
    put_line(lines, name, told.as_slice())?;
    match becomes {
        Err(Stays::Fault(OverFault::OutOfMemory)) => Err(AllocError),
        becomes => Ok(fate_of(becomes)),
    }
}
