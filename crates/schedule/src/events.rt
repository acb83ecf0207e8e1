//! The event that a line spells.

ghost use Rattle.std.specs.Prelude.{◌≡◌, IfOk};
ghost use Rattle.schedule.specs.Events.{adjudication, cap_change, cap_in, event_of, event_with, line_event, living_event_of, living_event_with, plain_event, rule_change, submission, terms_change};

use crate::nodes::{node_in, pharmacy_in, switch_in};
use crate::plans::{cents_in, plan_change, terms_change};
use crate::rules::rule_change;
use claim_model::Limits;
use input_text::{PrintedFault, read_decimal, split_word, unprint};
use octets::Octets;
use std::alloc::{AllocError, Global};
use switch_node::SwitchSettings;
use world_setup::Event;

/// The most digits of a packet's number (own).
const MOST_DIGITS: usize = 18;

/// The event that a line spells; `None` where it spells none.
#[tactic(auto, unfolding(crate::specs::Events::event_of))]
pub fn event_of(alloc: Global, line: &[u8]) -> Result<Option<Event>, AllocError>
    ensures { IfOk result (λ event. event ≡ event_of line.now) }
{
    match split_word(line) {
        Some((word, rest)) => event_with(alloc, word, rest),
        None => Ok(None),
    }
}

/// The event that a line spells for programs that live: an adjudication or a change of terms, of a rule of retries or of
/// a cap too.
#[tactic(auto, unfolding(crate::specs::Events::living_event_of))]
pub fn living_event_of(alloc: Global, line: &[u8]) -> Result<Option<Event>, AllocError>
    ensures { IfOk result (λ event. event ≡ living_event_of line.now) }
{
    match split_word(line) {
        Some((word, rest)) => living_event_with(alloc, word, rest),
        None => Ok(None),
    }
}

/// The event that a line spells for programs that live or do not.
pub(crate) fn line_event(
    alloc: Global,
    living: bool,
    line: &[u8],
) -> Result<Option<Event>, AllocError>
    ensures { IfOk result (λ event. event ≡ line_event living line.now) }
{
    if living {
        return living_event_of(alloc, line);
    }
    event_of(alloc, line)
}

/// The event of a word and what stands after it, for programs that live.
fn living_event_with(alloc: Global, word: &[u8], rest: &[u8]) -> Result<Option<Event>, AllocError>
    ensures { IfOk result (λ event. event ≡ living_event_with word.now rest.now) }
{
    if word == b"adjudicate".as_slice() {
        return adjudication(alloc, rest);
    }
    if word == b"terms".as_slice() {
        return Ok(terms_change(rest));
    }
    if word == b"retry".as_slice() {
        return rule_change(alloc, rest);
    }
    if word == b"cap".as_slice() {
        return Ok(cap_change(rest));
    }
    event_with(alloc, word, rest)
}

/// The change of a cap, by a switch and its cap.
#[tactic(auto, unfolding(crate::specs::Events::cap_change))]
fn cap_change(rest: &[u8]) -> Option<Event>
    ensures { result ≡ cap_change rest.now }
{
    let (node, word) = split_word(rest)?;
    let switch = switch_in(node)?;
    let entries = cap_in(word)?;
    Some(Event::Cap { switch, entries })
}

/// The cap of a switch that a word spells in 1 to 10 digits, 1 to 16,777,216; none of any other word.
pub fn cap_in(word: &[u8]) -> Option<u32>
    ensures { result ≡ cap_in word.now }
{
    let cap = cents_in(word)?;
    let settings = SwitchSettings::within(Limits::widest(), cap).ok()?;
    Some(settings.cap())
}

/// The adjudication of a packet and an advice in printed bytes, which may be empty.
#[tactic(auto, unfolding(crate::specs::Events::adjudication))]
fn adjudication(alloc: Global, rest: &[u8]) -> Result<Option<Event>, AllocError>
    ensures { IfOk result (λ event. event ≡ adjudication rest.now) }
{
    let Some((number, text)) = split_word(rest) else {
        return Ok(None);
    };
    let Some(packet) = read_decimal(number, MOST_DIGITS) else {
        return Ok(None);
    };
    match unprint(alloc, text) {
        Ok(advice) => Ok(Some(Event::Adjudicate {
            packet,
            advice: Octets::from_vec(advice),
        })),
        Err(PrintedFault::BadByte(_)) => Ok(None),
        Err(PrintedFault::OutOfMemory) => Err(AllocError),
    }
}

/// The event of a word and what stands after it.
pub(crate) fn event_with(
    alloc: Global,
    word: &[u8],
    rest: &[u8],
) -> Result<Option<Event>, AllocError>
    ensures { IfOk result (λ event. event ≡ event_with word.now rest.now) }
{
    if word == b"submit".as_slice() {
        return submission(alloc, rest);
    }
    if word == b"plan".as_slice() {
        return plan_change(alloc, rest);
    }
    Ok(plain_event(word, rest))
}

/// The submission of a pharmacy and a request in printed bytes, which may be empty.
#[tactic(auto, unfolding(crate::specs::Events::submission))]
fn submission(alloc: Global, rest: &[u8]) -> Result<Option<Event>, AllocError>
    ensures { IfOk result (λ event. event ≡ submission rest.now) }
{
    let Some((node, text)) = split_word(rest) else {
        return Ok(None);
    };
    let Some(pharmacy) = pharmacy_in(node) else {
        return Ok(None);
    };
    match unprint(alloc, text) {
        Ok(text) => Ok(Some(Event::Submit {
            pharmacy,
            text: Octets::from_vec(text),
        })),
        Err(PrintedFault::BadByte(_)) => Ok(None),
        Err(PrintedFault::OutOfMemory) => Err(AllocError),
    }
}

/// The events that have no text.
#[tactic(auto, unfolding(crate::specs::Events::plain_event))]
fn plain_event(word: &[u8], rest: &[u8]) -> Option<Event>
    ensures { result ≡ plain_event word.now rest.now }
{
    if word == b"tick".as_slice() {
        let pharmacy = pharmacy_in(rest)?;
        return Some(Event::Tick { pharmacy });
    }
    if word == b"deliver".as_slice() {
        let packet = read_decimal(rest, MOST_DIGITS)?;
        return Some(Event::Deliver { packet });
    }
    if word == b"stop".as_slice() {
        return Some(Event::Stop(node_in(rest)?));
    }
    if word == b"start".as_slice() {
        return Some(Event::Start(node_in(rest)?));
    }
    None
}
