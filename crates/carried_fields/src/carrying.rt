//! Writing answers that carry what an advice says beside its rulings.

ghost use Rattle.std.specs.Prelude.{◌≡◌, [], ◌++◌, length, Some, IfOk, OnOk, option_map, if◌then◌else◌};
ghost use Rattle.std.specs.Global.{Vec};
ghost use Rattle.std.specs.Result.{result_ok};
ghost use Rattle.d0_segments.specs.Pieces.{shared_of, groups_of};
ghost use Rattle.d0_segments.specs.Texts.{segments_text};
ghost use Rattle.d0_segments.specs.Framing.{response_kind, transmission_text, transmission_of};
ghost use Rattle.d0_segments.specs.FramedParts.{framed_parts};
ghost use Rattle.claim_profile.specs.Answer.{AreWritable};
ghost use Rattle.claim_profile.specs.Ruling.{advice_of};
ghost use Rattle.carried_fields.specs.Agreeing.{agreed};
ghost use Rattle.carried_fields.specs.Carrying.{carried_parts, have_groups, carried_answer, carrying, carrying_text};

use crate::agreeing::all_agree;
use crate::merging::put_groups;
use crate::segments::put_segments;
use claim_profile::{
    Answer, AnswerFault, HeaderStatus, LONGEST_REQUEST, Ruling, read_advice, write_answer,
};
use d0_header::{RequestHeader, ResponseHeader};
use d0_segments::{Cursor, Framed, check_response};
use std::alloc::{AllocError, Global};

/// Writes the answer to a request, as [`write_answer`] does, with what an advice says beside its rulings: in each place
/// where it rules the same, where each code occurs, its fields that a book does not write itself and its other segments; in
/// front of all groups, where it rules the same in every place, its segments there.
///
/// Where the bytes are no advice or have another number of groups, and where the answer would have more than 32,768 bytes,
/// it is the plain answer.
#[tactic(auto, unfolding(crate::specs::Carrying::carrying_text))]
pub fn write_carrying(
    alloc: Global,
    request: &RequestHeader,
    status: HeaderStatus,
    rulings: &[Ruling],
    said: &[u8],
) -> Result<Vec<u8>, AllocError>
    requires count { length rulings.now ≡ request.now.count }
    requires writable { AreWritable status rulings.now }
    ensures text { IfOk result (λ v. v.items ≡ carrying_text request.now status rulings.now said.now) }
{
    let plain = write_answer(alloc, request, status, rulings)?;
    carry(alloc, plain, rulings, said)
}

/// A plain answer, or that with what an advice says beside its rulings.
fn carry(
    alloc: Global,
    plain: Vec<u8>,
    rulings: &[Ruling],
    said: &[u8],
) -> Result<Vec<u8>, AllocError>
    ensures text { IfOk result (λ v. v.items ≡ carrying plain.items rulings.now said.now) }
{
    match carried_answer(alloc, &plain, rulings, said)? {
        Some(text) if text.len() <= LONGEST_REQUEST => Ok(text),
        _ => Ok(plain),
    }
}

/// The answer that carries, where both are framed, what is said is an advice, and both have a group for each ruling.
fn carried_answer(
    alloc: Global,
    plain: &[u8],
    rulings: &[Ruling],
    said: &[u8],
) -> Result<Option<Vec<u8>>, AllocError>
    ensures text { IfOk result (λ o. option_map (λ v. v.items) o ≡ carried_answer rulings.now
        (transmission_of response_kind plain.now) (transmission_of response_kind said.now) (advice_of said.now)) }
{
    let framed = match check_response(said) {
        Ok(framed) => framed,
        Err(_) => return Ok(None),
    };
    let own = match check_response(plain) {
        Ok(own) => own,
        Err(_) => return Ok(None),
    };
    match advice_in(alloc, said)? {
        Some(advice) if have_groups(rulings, &own, &framed) => {
            let text = carried_text(alloc, rulings, advice.rulings(), &own, &framed)?;
            Ok(Some(text))
        }
        _ => Ok(None),
    }
}

/// Whether both have a group for each ruling.
fn have_groups(
    rulings: &[Ruling],
    own: &Framed<'_, ResponseHeader>,
    said: &Framed<'_, ResponseHeader>,
) -> bool
    ensures { result ≡ have_groups rulings.now (framed_parts own.now) (framed_parts said.now) }
{
    own.group_count() == rulings.len() && said.group_count() == rulings.len()
}

/// What bytes say as an advice.
fn advice_in(alloc: Global, said: &[u8]) -> Result<Option<Answer>, AllocError>
    ensures { IfOk result (λ o. o ≡ result_ok (advice_of said.now)) }
{
    match read_advice(alloc, said) {
        Ok(advice) => Ok(Some(advice)),
        Err(AnswerFault::OutOfMemory) => Err(AllocError),
        Err(_) => Ok(None),
    }
}

/// The text of the answer that carries.
fn carried_text(
    alloc: Global,
    rulings: &[Ruling],
    advised: &[Ruling],
    own: &Framed<'_, ResponseHeader>,
    said: &Framed<'_, ResponseHeader>,
) -> Result<Vec<u8>, AllocError>
    requires rulings { length advised.now ≡ length rulings.now }
    requires own { length (groups_of own.now.body.bytes.now) ≡ length rulings.now }
    requires said { length (groups_of said.now.body.bytes.now) ≡ length rulings.now }
    ensures { IfOk result (λ v. v.items ≡ transmission_text response_kind
        (carried_parts (agreed rulings.now advised.now) (framed_parts own.now) (framed_parts said.now))) }
{
    let mut text = Vec::new(alloc);
    text.extend_from_slice(&own.header().to_bytes())?;
    put_shared(&mut text, all_agree(rulings, advised), said.body())?;
    put_groups(&mut text, rulings, advised, own, said)?;
    Ok(text)
}

/// Appends the segments in front of all groups, where every place agrees.
fn put_shared(text: &mut Vec<u8>, agree: bool, said: Cursor<'_>) -> Result<(), AllocError>
    ensures { OnOk result (text.new.items ≡ text.old.items
        ++ segments_text (if agree then shared_of said.entry.bytes.now else [])) }
{
    if agree {
        return put_segments(text, said);
    }
    Ok(())
}
