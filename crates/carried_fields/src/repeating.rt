//! Writing the text from which an answer carries at places that repeat places of answers that were given before.

ghost use Rattle.std.specs.Prelude.{◌≡◌, ◌∷◌, ◌++◌, Some, IfOk, OnOk, get_or, is_some, map};
ghost use Rattle.std.specs.List.{list_any, list_all};
ghost use Rattle.std.specs.Option.{option_map};
ghost use Rattle.std.specs.Global.{Vec};
ghost use Rattle.d0_segments.specs.Pieces.{shared_of, groups_of};
ghost use Rattle.d0_segments.specs.Texts.{segments_text, group_text, groups_text};
ghost use Rattle.d0_segments.specs.Framing.{response_kind, transmission_text};
ghost use Rattle.d0_segments.specs.FramedParts.{framed_parts};
ghost use Rattle.carried_fields.specs.Repeating.{repeated_seen, group_at_place, or_own, group_of_repeated, repeated_group, repeating_groups, repeats_answer, repeated_answer, shared_of_answer, repeating_shared, repeating_parts, repeating_text};

use crate::segments::put_segments;
use d0_header::ResponseHeader;
use d0_segments::{Cursor, Framed, GROUP_SEPARATOR, check_response};
use std::alloc::{AllocError, Global};

/// A place of an answer that was given before: its bytes, and the place in it, from 1.
#[derive(Clone, Copy)]
pub struct Repeated<'a> {
    pub answer: &'a [u8],
    pub place: usize,
}

/// Writes the text from which an answer carries at places that repeat places of answers that were given before: the header
/// of the plain answer; in each place that repeats one, the group there, else its own; in front of all groups, where every
/// place repeats one of the same answer, the segments that stand there in it.
///
/// Where a place repeats one that is not there, or one of bytes that are no response, it has its own group. Where no place
/// repeats anything, and where the plain bytes are no response, it is empty.
#[tactic(auto, unfolding(crate::specs::Repeating::repeating_text))]
pub fn write_repeating(
    alloc: Global,
    plain: &[u8],
    sources: &[Option<Repeated<'_>>],
) -> Result<Vec<u8>, AllocError>
    ensures text { IfOk result (λ v. v.items ≡ repeating_text plain.now (map (option_map repeated_seen) sources.now)) }
{
    if !repeats_any(sources) {
        return Ok(Vec::new(alloc));
    }
    match check_response(plain) {
        Ok(own) => repeating_answer(alloc, &own, sources),
        Err(_) => Ok(Vec::new(alloc)),
    }
}

/// Whether a place repeats anything.
fn repeats_any(sources: &[Option<Repeated<'_>>]) -> bool
    ensures { result ≡ list_any is_some (map (option_map repeated_seen) sources.now) }
{
    for source in sources {
        if source.is_some() {
            return true;
        }
    }
    false
}

/// The text with what the places of an answer repeat.
fn repeating_answer(
    alloc: Global,
    own: &Framed<'_, ResponseHeader>,
    sources: &[Option<Repeated<'_>>],
) -> Result<Vec<u8>, AllocError>
    ensures { IfOk result (λ v. v.items ≡ transmission_text response_kind
        (repeating_parts (framed_parts own.now) (map (option_map repeated_seen) sources.now))) }
{
    let mut text = Vec::new(alloc);
    text.extend_from_slice(&own.header().to_bytes())?;
    put_shared(&mut text, sources)?;
    put_groups(&mut text, own, sources)?;
    Ok(text)
}

/// Appends the segments in front of all groups, where every place repeats one of one answer.
fn put_shared(text: &mut Vec<u8>, sources: &[Option<Repeated<'_>>]) -> Result<(), AllocError>
    ensures { OnOk result (text.new.items ≡ text.old.items
        ++ segments_text (repeating_shared (map (option_map repeated_seen) sources.now))) }
{
    match repeated_answer(sources) {
        Some(answer) => put_shared_of(text, answer),
        None => Ok(()),
    }
}

/// The answer of which every place repeats one, where there is a place.
fn repeated_answer<'a>(sources: &[Option<Repeated<'a>>]) -> Option<&'a [u8]>
    ensures { option_map (λ answer. answer.now) result ≡ repeated_answer (map (option_map repeated_seen) sources.now) }
{
    match sources {
        [] => None,
        [first, others @ ..] => answer_of_all(*first, others),
    }
}

/// The answer of which a place and every other one repeat one.
fn answer_of_all<'a>(
    first: Option<Repeated<'a>>,
    others: &[Option<Repeated<'a>>],
) -> Option<&'a [u8]>
    ensures { option_map (λ answer. answer.now) result
        ≡ repeated_answer (option_map repeated_seen first.entry ∷ map (option_map repeated_seen) others.now) }
{
    match first {
        Some(repeated) if all_repeat(repeated.answer, others) => Some(repeated.answer),
        _ => None,
    }
}

/// Whether every place repeats one of this answer.
fn all_repeat(answer: &[u8], sources: &[Option<Repeated<'_>>]) -> bool
    ensures { result ≡ list_all (repeats_answer answer.now) (map (option_map repeated_seen) sources.now) }
{
    for source in sources {
        if !repeats_answer(answer, *source) {
            return false;
        }
    }
    true
}

/// Whether a place repeats one of this answer.
fn repeats_answer(answer: &[u8], source: Option<Repeated<'_>>) -> bool
    ensures { result ≡ repeats_answer answer.now (option_map repeated_seen source.entry) }
{
    match source {
        Some(repeated) => repeated.answer == answer,
        None => false,
    }
}

/// Appends the segments in front of all groups of an answer, where it is a response.
fn put_shared_of(text: &mut Vec<u8>, answer: &[u8]) -> Result<(), AllocError>
    ensures { OnOk result (text.new.items ≡ text.old.items ++ segments_text (shared_of_answer (Some answer.now))) }
{
    match check_response(answer) {
        Ok(framed) => put_segments(text, framed.body()),
        Err(_) => Ok(()),
    }
}

/// Appends the groups of an answer, in each place that repeats one the group there.
fn put_groups(
    text: &mut Vec<u8>,
    own: &Framed<'_, ResponseHeader>,
    sources: &[Option<Repeated<'_>>],
) -> Result<(), AllocError>
    ensures { OnOk result (text.new.items ≡ text.old.items ++ groups_text
        (repeating_groups (groups_of own.now.body.bytes.now) (map (option_map repeated_seen) sources.now))) }
{
    for place in 0..own.group_count() {
        put_group(text, own.group(place), source_at(sources, place))?;
    }
    Ok(())
}

/// What the place after this many others repeats.
fn source_at<'a>(sources: &[Option<Repeated<'a>>], others: usize) -> Option<Repeated<'a>>
    ensures { option_map repeated_seen result ≡ get_or (map (option_map repeated_seen) sources.now) others None }
{
    match sources.get(others) {
        Some(source) => *source,
        None => None,
    }
}

/// Appends the group that a place repeats, else its own.
fn put_group(
    text: &mut Vec<u8>,
    own: Cursor<'_>,
    source: Option<Repeated<'_>>,
) -> Result<(), AllocError>
    ensures { OnOk result (text.new.items ≡ text.old.items ++ group_text
        (repeated_group (shared_of own.entry.bytes.now) (option_map repeated_seen source.entry))) }
{
    text.push(GROUP_SEPARATOR)?;
    match source {
        Some(repeated) => put_repeated(text, own, repeated),
        None => put_segments(text, own),
    }
}

/// Appends the segments of the group at a place of an answer, else of the own group.
fn put_repeated(
    text: &mut Vec<u8>,
    own: Cursor<'_>,
    repeated: Repeated<'_>,
) -> Result<(), AllocError>
    ensures { OnOk result (text.new.items ≡ text.old.items ++ segments_text
        (or_own (shared_of own.entry.bytes.now) (group_of_repeated (repeated_seen repeated.entry)))) }
{
    match check_response(repeated.answer) {
        Ok(framed) => put_segments(text, group_or_own(own, &framed, repeated.place)),
        Err(_) => put_segments(text, own),
    }
}

/// The group at a place of an answer, from 1, else the own group.
fn group_or_own<'a>(
    own: Cursor<'a>,
    framed: &Framed<'a, ResponseHeader>,
    place: usize,
) -> Cursor<'a>
    ensures { shared_of result.bytes.now
        ≡ or_own (shared_of own.entry.bytes.now) (group_at_place (groups_of framed.now.body.bytes.now) place) }
{
    if place == 0 || place > framed.group_count() {
        return own;
    }
    framed.group(place - 1)
}
