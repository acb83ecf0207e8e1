//! Cutting journals at rest.

ghost use Rattle.std.specs.Prelude.{◌≡◌, List, true, IfOk, OnOk};
ghost use Rattle.message_parts.specs.AtRest.{
  each_told,
  entry_told,
  flag_told,
  flagged_told,
  has_rule,
  journal_told,
  rule_told,
  ruled_told,
  stray_told,
  switch_count,
  switch_told,
};
ghost use Rattle.message_parts.specs.Added.{Tells, TellsAll};

use crate::cutter::Cutter;
use crate::dissecting::Carried;
use crate::layout::Form;
use crate::marks::Mark;
use crate::numbers::{behind, front_of};
use crate::part::PartKind;
use crate::records::{count_at, cut_mark, cut_marks, cut_text};
use codec::take_u16;
use std::alloc::AllocError;

/// The head of a journal.
static JOURNAL: [(PartKind, usize); 4] = [
    (PartKind::Mark(Mark::Letters), 2),
    (PartKind::Mark(Mark::FormatVersion), 1),
    (PartKind::Mark(Mark::Pharmacy), 2),
    (PartKind::Mark(Mark::Count), 4),
];

/// What a rule of retries begins with.
static RULE: [(PartKind, usize); 3] = [
    (PartKind::Mark(Mark::Again), 4),
    (PartKind::Mark(Mark::Tries), 4),
    (PartKind::Mark(Mark::SwitchCount), 2),
];

/// Cuts a journal: its head, its rule of retries where it has one, and as many entries as the head says and the bytes
/// have.
pub(crate) fn cut_journal(
    cutter: &mut Cutter<'_>,
    carried: &mut Vec<Carried>,
) -> Result<(), AllocError>
    ensures whole { cutter.new.whole ≡ cutter.old.whole }
    ensures told { OnOk result (TellsAll journal_told cutter.old cutter.new carried.old.items carried.new.items) }
{
    let count = count_at(cutter.left(), 5);
    let ruled = has_rule(cutter.left());
    cut_marks(cutter, JOURNAL.as_slice())?;
    cut_ruled(cutter, ruled)?;
    cut_entries(cutter, carried, count)
}

/// Whether a journal has a rule of retries after its head: version 3 has.
fn has_rule(bytes: &[u8]) -> bool
    ensures { result ≡ has_rule bytes.now }
{
    match bytes {
        [_, _, version, ..] => *version == 3,
        _ => false,
    }
}

/// Cuts the rule of a journal, where it has one.
fn cut_ruled(cutter: &mut Cutter<'_>, ruled: bool) -> Result<(), AllocError>
    ensures whole { cutter.new.whole ≡ cutter.old.whole }
    ensures told { OnOk result ((carried : List Carried)
        → Tells (ruled_told ruled) true cutter.old cutter.new carried carried) }
{
    if ruled { cut_rule(cutter) } else { Ok(()) }
}

/// Cuts a rule of retries, as far as the bytes reach.
fn cut_rule(cutter: &mut Cutter<'_>) -> Result<(), AllocError>
    ensures whole { cutter.new.whole ≡ cutter.old.whole }
    ensures told { OnOk result ((carried : List Carried)
        → Tells rule_told true cutter.old cutter.new carried carried) }
{
    let count = switch_count(cutter.left());
    cut_marks(cutter, RULE.as_slice())?;
    cut_switches(cutter, count)
}

/// How many switches a rule names, and 0 where that is cut off.
fn switch_count(bytes: &[u8]) -> u16
    ensures { result ≡ switch_count bytes.now }
{
    match take_u16(behind(bytes, 8)) {
        Some((count, _)) => count,
        None => 0,
    }
}

/// Cuts this many numbers of switches, as far as the bytes have them.
#[tactic(auto, using(crate::proofs::AtRest::each_done, crate::proofs::AtRest::each_end, crate::proofs::AtRest::no_switch))]
fn cut_switches(cutter: &mut Cutter<'_>, count: u16) -> Result<(), AllocError>
    ensures whole { cutter.new.whole ≡ cutter.old.whole }
    ensures told { OnOk result ((carried : List Carried)
        → Tells (each_told switch_told count) true cutter.old cutter.new carried carried) }
{
    for _ in 0..count {
        if cutter.left().is_empty() {
            return Ok(());
        }
        cut_mark(cutter, Mark::Switch, 2)?;
    }
    Ok(())
}

/// Cuts this many entries of a journal, as far as the bytes have them.
#[tactic(auto, using(crate::proofs::AtRest::each_next))]
fn cut_entries(
    cutter: &mut Cutter<'_>,
    carried: &mut Vec<Carried>,
    count: u32,
) -> Result<(), AllocError>
    ensures whole { cutter.new.whole ≡ cutter.old.whole }
    ensures told { OnOk result (TellsAll (each_told entry_told count stray_told) cutter.old cutter.new
        carried.old.items carried.new.items) }
{
    for _ in 0..count {
        let whole = cut_entry(cutter, carried)?;
        if !whole {
            return Ok(());
        }
    }
    Ok(())
}

/// Cuts an entry of a journal, and says whether all of it was there.
fn cut_entry(cutter: &mut Cutter<'_>, carried: &mut Vec<Carried>) -> Result<bool, AllocError>
    ensures whole { cutter.new.whole ≡ cutter.old.whole }
    ensures told { IfOk result (λ whole. Tells entry_told whole cutter.old cutter.new
        carried.old.items carried.new.items) }
{
    cut_mark(cutter, Mark::Number, 8)?;
    let whole = cut_text(cutter, carried, Form::Request)?;
    if !whole {
        return Ok(false);
    }
    cut_flag(cutter, carried)
}

/// Cuts the flag of an entry and what stands after it, and says whether all of it was there.
#[tactic(auto, using(crate::proofs::AtRest::if_ok, crate::proofs::AtRest::flag))]
fn cut_flag(cutter: &mut Cutter<'_>, carried: &mut Vec<Carried>) -> Result<bool, AllocError>
    ensures whole { cutter.new.whole ≡ cutter.old.whole }
    ensures told { IfOk result (λ whole. Tells flag_told whole cutter.old cutter.new
        carried.old.items carried.new.items) }
{
    let flag = front_of(cutter.left(), 1);
    cut_mark(cutter, Mark::AnswerFlag, 1)?;
    cut_flagged(cutter, carried, flag)
}

/// Cuts what stands after this flag, and says whether all of it was there.
fn cut_flagged(
    cutter: &mut Cutter<'_>,
    carried: &mut Vec<Carried>,
    flag: &[u8],
) -> Result<bool, AllocError>
    ensures whole { cutter.new.whole ≡ cutter.old.whole }
    ensures told { IfOk result (λ whole. Tells (flagged_told flag.now) whole cutter.old cutter.new
        carried.old.items carried.new.items) }
{
    match flag {
        [] => Ok(false),
        [first, ..] => {
            if *first == 1 {
                cut_text(cutter, carried, Form::Answer)
            } else {
                Ok(*first == 0)
            }
        }
    }
}
