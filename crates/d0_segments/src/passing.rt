//! Passing over what stands after a header, from left to right.

ghost use Rattle.std.specs.Prelude.{◌≡◌, ◌≤◌, ◌<◌, true, length, IfOk, IfErr, Some, None};
ghost use Rattle.d0_segments.specs.Separators.{begins_with, ends_here, ends_segment};
ghost use Rattle.d0_segments.specs.Faults.{count_groups};
ghost use Rattle.d0_segments.specs.Taking.{fault_in, fault_behind_header};
ghost use Rattle.d0_segments.specs.Passing.{Passes};

use crate::fault::FramingFault;
use crate::reading::{enter_group, enter_segment, expect_start, read_field};
use crate::separator::{FIELD_SEPARATOR, SEGMENT_SEPARATOR};
use crate::tail::Tail;

/// Counts the groups of a body that has no fault.
#[tactic(auto, using(std::proofs::lemmas::Result::err_from_is_err_and, crate::proofs::Taken::behind_header))]
pub fn count_groups(from: Tail<'_>) -> Result<usize, FramingFault>
    ensures count { IfOk result (λ found. found ≡ count_groups from.entry.bytes.now) }
    ensures faultless { IfOk result (λ _. fault_behind_header from.entry ≡ None) }
    ensures starts { IfOk result (λ _. ends_segment from.entry.bytes.now ≡ true) }
    ensures fault { IfErr result (λ e. fault_behind_header from.entry ≡ Some e) }
{
    expect_start(from)?;
    let mut rest = from;
    let mut found = 0;
    while !rest.bytes.is_empty() {
        let (groups, behind) = pass(rest)?;
        found += groups;
        rest = behind;
    }
    Ok(found)
}

/// Passes a field, the start of a segment or that of a group, and tells whether it is a group's.
#[inline(always)]
fn pass(from: Tail<'_>) -> Result<(usize, Tail<'_>), FramingFault>
    requires some { 0 < length from.bytes.now }
    requires ends { ends_here from.bytes.now ≡ true }
    ensures passes { IfOk result (λ x. Passes from.entry x.0 x.1) }
    ensures fault { IfErr result (λ e. fault_in from.entry ≡ Some e) }
{
    match from.bytes {
        [FIELD_SEPARATOR, ..] => pass_field(from),
        [SEGMENT_SEPARATOR, ..] => pass_segment_start(from),
        _ => pass_group_start(from),
    }
}

/// Passes a field.
#[inline(always)]
fn pass_field(from: Tail<'_>) -> Result<(usize, Tail<'_>), FramingFault>
    requires { begins_with 28 from.bytes.now ≡ true }
    ensures passes { IfOk result (λ x. Passes from.entry x.0 x.1) }
    ensures fault { IfErr result (λ e. fault_in from.entry ≡ Some e) }
{
    let (_field, behind) = read_field(from)?;
    Ok((0, behind))
}

/// Passes a segment separator and the identification after it.
#[inline(always)]
#[tactic(auto, using(crate::proofs::Passed::passes_segment))]
fn pass_segment_start(from: Tail<'_>) -> Result<(usize, Tail<'_>), FramingFault>
    requires { begins_with 30 from.bytes.now ≡ true }
    ensures passes { IfOk result (λ x. Passes from.entry x.0 x.1) }
    ensures fault { IfErr result (λ e. fault_in from.entry ≡ Some e) }
{
    let (_first, _second, behind) = enter_segment(from)?;
    Ok((0, behind))
}

/// Passes a group separator.
#[inline(always)]
fn pass_group_start(from: Tail<'_>) -> Result<(usize, Tail<'_>), FramingFault>
    requires { begins_with 29 from.bytes.now ≡ true }
    ensures passes { IfOk result (λ x. Passes from.entry x.0 x.1) }
    ensures fault { IfErr result (λ e. fault_in from.entry ≡ Some e) }
{
    let behind = enter_group(from)?;
    Ok((1, behind))
}
