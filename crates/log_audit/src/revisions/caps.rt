//! The rows of changes of caps.

ghost use Rattle.std.specs.Prelude.{◌≡◌, ◌∷◌, [], map, OnOk};
ghost use Rattle.table_text.specs.Adding.{Adds, AddsRows};
ghost use Rattle.table_text.specs.Rows.{head_text};
ghost use Rattle.table_text.specs.declared.layout.Style.TheVariants.{Csv};
ghost use Rattle.log_audit.specs.Changes.{change_seen, to_seen};
ghost use Rattle.log_audit.specs.Following.{had_after, had_then};
ghost use Rattle.log_audit.specs.Caps.{cap_names, cap_of, cap_row, cap_rows, opening_cap};

use crate::revisions::changes::{Change, To};
use std::alloc::AllocError;
use table_text::{Field, Style, put_head, put_row};
use world_setup::WorldSettings;

/// Appends the names of the columns, of which that of the place is this one.
pub(crate) fn put_cap_names(out: &mut Vec<u8>, name: &[u8]) -> Result<(), AllocError>
    ensures { OnOk result (Adds out.old out.new (head_text (cap_names name.now))) }
{
    put_head(out, &[b"switch", name, b"entries_before", b"entries_after"])
}

/// Appends the row of a change after these, if it is one of a cap.
#[tactic(auto, using(crate::proofs::Changing::nothing_told))]
pub(crate) fn put_cap_change(
    out: &mut Vec<u8>,
    settings: &WorldSettings,
    name: &'static [u8],
    before: &[Change<'_>],
    change: &Change<'_>,
) -> Result<(), AllocError>
    ensures { OnOk result (AddsRows Csv out.old out.new
        (cap_rows settings.now name.now (map change_seen before.now) (change_seen change.now))) }
{
    match cap_of(change.to) {
        Some(after) => {
            let opening = opening_cap(settings, change.number);
            let before = cap_after(change.number, opening, before);
            put_cap(out, name, change, before, after)
        }
        None => Ok(()),
    }
}

/// Appends the row of a change of this cap, where it is known, to that.
#[tactic(auto, unfolding(crate::specs::Caps::cap_row))]
fn put_cap(
    out: &mut Vec<u8>,
    name: &'static [u8],
    change: &Change<'_>,
    before: Option<u64>,
    after: u64,
) -> Result<(), AllocError>
    ensures { OnOk result (AddsRows Csv out.old out.new
        (cap_row name.now change.now.number change.now.place before after ∷ [])) }
{
    let fields = [
        Field::number(b"switch", change.number),
        Field::number(name, change.place),
        Field::number_or_nothing(b"entries_before", before),
        Field::number(b"entries_after", after),
    ];
    put_row(out, Style::Csv, &fields)
}

/// The cap under the settings of a switch, where there is such a switch.
fn opening_cap(settings: &WorldSettings, switch: u64) -> Option<u64>
    ensures { result ≡ opening_cap settings.now switch }
{
    match settings.switches.get((switch as usize).saturating_sub(1)) {
        Some(switch) => Some(u64::from(switch.cap())),
        None => None,
    }
}

/// The cap of a switch that had this before, after some changes.
fn cap_after(switch: u64, cap: Option<u64>, changes: &[Change<'_>]) -> Option<u64>
    ensures { result ≡ had_after cap_of switch cap (map change_seen changes.now) }
{
    let mut then = cap;
    for change in changes {
        then = cap_then(switch, then, change);
    }
    then
}

/// The same after one change.
fn cap_then(switch: u64, cap: Option<u64>, change: &Change<'_>) -> Option<u64>
    ensures { result ≡ had_then cap_of switch cap (change_seen change.now) }
{
    if change.number == switch {
        cap_of(change.to).or(cap)
    } else {
        cap
    }
}

/// The cap of a change, if it is one of a cap.
fn cap_of(to: To<'_>) -> Option<u64>
    ensures { result ≡ cap_of (to_seen to.entry) }
{
    match to {
        To::Price { .. } => None,
        To::Terms(_) => None,
        To::Rule(_) => None,
        To::Cap(cap) => Some(cap),
    }
}
