//! Cutting requests and answers.

ghost use Rattle.std.specs.Prelude.{◌≡◌, ◌≤◌, ◌+◌, ◌-◌, ◌++◌, length, min, IfOk, OnOk};
ghost use Rattle.message_parts.specs.Steps.{header_rows, head_parts, width_of};
ghost use Rattle.message_parts.specs.Added.{next_bytes, AddsBody, AddsTransmission};

use crate::cutter::Cutter;
use crate::layout::{Form, Within, next_step};
use crate::names::FieldName;
use crate::numbers::front_of;
use crate::part::PartKind;
use std::alloc::AllocError;

/// The fields of a request's header with their widths.
static REQUEST: [(PartKind, usize); 9] = [
    (PartKind::Header(FieldName::Bin), 6),
    (PartKind::Header(FieldName::Version), 2),
    (PartKind::Header(FieldName::TransactionCode), 2),
    (PartKind::Header(FieldName::Pcn), 10),
    (PartKind::Header(FieldName::TransactionCount), 1),
    (PartKind::Header(FieldName::ProviderQualifier), 2),
    (PartKind::Header(FieldName::Provider), 15),
    (PartKind::Header(FieldName::DateOfService), 8),
    (PartKind::Header(FieldName::Vendor), 10),
];

/// The fields of a response's header with their widths.
static ANSWER: [(PartKind, usize); 7] = [
    (PartKind::Header(FieldName::Version), 2),
    (PartKind::Header(FieldName::TransactionCode), 2),
    (PartKind::Header(FieldName::TransactionCount), 1),
    (PartKind::Header(FieldName::HeaderStatus), 1),
    (PartKind::Header(FieldName::ProviderQualifier), 2),
    (PartKind::Header(FieldName::Provider), 15),
    (PartKind::Header(FieldName::DateOfService), 8),
];

/// Cuts the next bytes, this many, as a request or an answer.
#[tactic(auto, using(crate::proofs::Bodies::transmission_cut))]
pub(crate) fn cut_transmission(
    cutter: &mut Cutter<'_>,
    form: Form,
    size: usize,
) -> Result<(), AllocError>
    requires { cutter.old.place + size ≤ length cutter.old.whole }
    ensures whole { cutter.new.whole ≡ cutter.old.whole }
    ensures place { OnOk result (cutter.new.place ≡ cutter.old.place + size) }
    ensures parts { OnOk result (AddsTransmission form cutter.old.place (next_bytes cutter.old size)
        cutter.old.parts cutter.new.parts) }
{
    let left = cut_header(cutter, form, size)?;
    cut_body(cutter, form, left)
}

/// Cuts the header of a request or an answer, as far as the bytes reach, and gives how many are left of them.
#[tactic(auto, unfolding(crate::specs::Steps::request_rows, crate::specs::Steps::answer_rows))]
fn cut_header(cutter: &mut Cutter<'_>, form: Form, size: usize) -> Result<usize, AllocError>
    requires { cutter.old.place + size ≤ length cutter.old.whole }
    ensures whole { cutter.new.whole ≡ cutter.old.whole }
    ensures left { IfOk result (λ left. left ≡ size - width_of (header_rows form)) }
    ensures place { IfOk result (λ left. cutter.new.place + left ≡ cutter.old.place + size) }
    ensures parts { OnOk result (cutter.new.parts
        ≡ cutter.old.parts ++ head_parts (header_rows form) cutter.old.place (next_bytes cutter.old size)) }
{
    match form {
        Form::Request => cut_head(cutter, REQUEST.as_slice(), size),
        Form::Answer => cut_head(cutter, ANSWER.as_slice(), size),
    }
}

/// Cuts the fields of a head at their fixed places, as far as the next bytes reach, this many, and gives how many are
/// left of them.
pub(crate) fn cut_head(
    cutter: &mut Cutter<'_>,
    rows: &[(PartKind, usize)],
    size: usize,
) -> Result<usize, AllocError>
    requires { cutter.old.place + size ≤ length cutter.old.whole }
    ensures whole { cutter.new.whole ≡ cutter.old.whole }
    ensures left { IfOk result (λ left. left ≡ size - width_of rows.now) }
    ensures place { IfOk result (λ left. cutter.new.place + left ≡ cutter.old.place + size) }
    ensures parts { OnOk result (cutter.new.parts
        ≡ cutter.old.parts ++ head_parts rows.now cutter.old.place (next_bytes cutter.old size)) }
{
    let mut left = size;
    for (kind, width) in rows {
        let count = (*width).min(left);
        cutter.cut_some(*kind, count)?;
        left -= count;
    }
    Ok(left)
}

/// Cuts what stands after a header.
fn cut_body(cutter: &mut Cutter<'_>, form: Form, size: usize) -> Result<(), AllocError>
    requires { cutter.old.place + size ≤ length cutter.old.whole }
    ensures whole { cutter.new.whole ≡ cutter.old.whole }
    ensures place { OnOk result (cutter.new.place ≡ cutter.old.place + size) }
    ensures parts { OnOk result (AddsBody form cutter.old.place (next_bytes cutter.old size)
        cutter.old.parts cutter.new.parts) }
{
    let mut within = Within {
        shared: true,
        segment: *b"  ",
    };
    let mut left = size;
    while left > 0 {
        let front = front_of(cutter.left(), left);
        let step = next_step(form, within, front);
        cutter.cut(step.kind, step.count)?;
        within = step.within;
        left -= step.count;
    }
    Ok(())
}
