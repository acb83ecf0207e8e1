//! The words beside rows: what the event is, why it was refused, what it changed.

use crate::Mark;
use crate::labels::put_advice;
use crate::lettering::{put_cap, put_change, put_event, put_rule, put_terms};
use crate::plan::Plan;
use crate::rows::event_of;
use input_text::put_decimal;
use std::alloc::{AllocError, Global};
use world_setup::{Event, Fault};

/// The event whose row a mark begins, and why it was refused.
pub(crate) fn begun_by(mark: &Mark) -> Option<(u64, Option<Fault>)> {
    match *mark {
        Mark::Sent { .. } => None,
        Mark::Refused { event, fault } => Some((event, Some(fault))),
        _ => Some((mark.event(), None)),
    }
}

/// What stands at the left of an event's row: its number, the event in the words of a schedule, and why it was refused
/// where no node of the picture did.
pub(crate) fn caption_of(
    plan: &Plan<'_>,
    event: u64,
    refused: Option<Fault>,
) -> Result<Vec<u8>, AllocError> {
    let mut caption = Vec::new(plan.alloc);
    put_decimal(&mut caption, event)?;
    caption.extend_from_slice(b" ")?;
    if let Some(event) = event_of(plan.events, event) {
        put_event(&mut caption, event)?;
        put_advice_of(&mut caption, plan.alloc, event)?;
    }
    if let Some(fault) = refused {
        if plan.refusal_at(event, fault).is_none() {
            caption.extend_from_slice(b" refused: ")?;
            caption.extend_from_slice(fault.name().as_bytes())?;
        }
    }
    Ok(caption)
}

/// Appends what the advice of an adjudication says; nothing of another event.
fn put_advice_of(caption: &mut Vec<u8>, alloc: Global, event: &Event) -> Result<(), AllocError> {
    match event {
        Event::Adjudicate { advice, .. } => put_advice(caption, alloc, advice.as_slice()),
        _ => Ok(()),
    }
}

/// What stands at the node that refused an event.
pub(crate) fn refusal_of(alloc: Global, fault: Fault) -> Result<Vec<u8>, AllocError> {
    let mut words = Vec::new(alloc);
    words.extend_from_slice(b"refused: ")?;
    words.extend_from_slice(fault.name().as_bytes())?;
    Ok(words)
}

/// The note of a change of a plan, of a rule of retries, or of a cap.
pub(crate) fn note_of(alloc: Global, events: &[Event], event: u64) -> Result<Vec<u8>, AllocError> {
    let mut note = Vec::new(alloc);
    if let Some(event) = event_of(events, event) {
        put_note(&mut note, event)?;
    }
    Ok(note)
}

/// Appends what a change of a plan, of a rule of retries or of a cap says; nothing of another event.
fn put_note(note: &mut Vec<u8>, event: &Event) -> Result<(), AllocError> {
    match event {
        Event::Plan { product, price, .. } => put_change(note, product.as_slice(), *price),
        Event::Terms { fee, copay, .. } => put_terms(note, *fee, *copay),
        Event::Retry {
            nodes,
            again,
            tries,
            ..
        } => put_rule(note, nodes.as_slice(), *again, *tries),
        Event::Cap { entries, .. } => put_cap(note, *entries),
        _ => Ok(()),
    }
}
