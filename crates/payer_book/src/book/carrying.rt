//! The answer of a row, with what it carries beside the rulings.

ghost use Rattle.std.specs.Prelude.{◌≡◌, length, IfOk};
ghost use Rattle.claim_profile.specs.declared.ruling.HeaderStatus.TheVariants.{Accepted};
ghost use Rattle.claim_profile.specs.Answer.{AreWritable};
ghost use Rattle.carried_fields.specs.Carrying.{carrying_text, kept_text};
ghost use Rattle.payer_book.specs.Kept.{carried_of};

use carried_fields::{carrying_laws, write_carrying};
use claim_profile::{HeaderStatus, Ruling, put_answer};
use d0_header::RequestHeader;
use std::alloc::{AllocError, Global};

/// Writes the answer to a request into a text, in the place of what it has, with what there is of an advice beside the
/// rulings, and tells whether that is anything.
#[tactic(auto, using(crate::proofs::Carried::kept_nothing, crate::proofs::Carried::kept_other, crate::proofs::Carried::no_bytes))]
pub(crate) fn write_into(
    text: &mut Vec<u8>,
    alloc: Global,
    header: &RequestHeader,
    rulings: &[Ruling],
    said: &[u8],
) -> Result<bool, AllocError>
    requires count { length rulings.now ≡ header.now.count }
    requires writable { AreWritable Accepted rulings.now }
    ensures text { IfOk result (λ carries. text.new.items ≡ carrying_text header.now Accepted rulings.now said.now) }
    ensures kept { IfOk result (λ carries. carried_of carries text.new.items
        ≡ kept_text header.now Accepted rulings.now said.now) }
{
    carrying_laws();
    text.clear();
    put_answer(text, header, HeaderStatus::Accepted, rulings)?;
    if said.is_empty() {
        return Ok(false);
    }
    let carried = write_carrying(alloc, header, HeaderStatus::Accepted, rulings, said)?;
    let carries = carried.as_slice() != text.as_slice();
    *text = carried;
    Ok(carries)
}
