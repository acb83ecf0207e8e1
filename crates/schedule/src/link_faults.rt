//! The fault of a link that a line of `run` spells.

ghost use Rattle.std.specs.Prelude.{◌≡◌, ◌<◌, ◌∷◌, [], length, position, IfOk, IfSome, IfNone};
ghost use Rattle.schedule.specs.Faults.{action_in, actions_in, comma_parts, fault_of, is_comma, link_fault};

use crate::nodes::node_in;
use input_text::split_word;
use std::alloc::{AllocError, Global};
use world_setup::{Action, Actions, LinkFault};

/// The fault that a line spells; `None` where it spells none.
#[tactic(auto, unfolding(crate::specs::Faults::fault_of))]
pub(crate) fn fault_of(alloc: Global, line: &[u8]) -> Result<Option<LinkFault>, AllocError>
    ensures { IfOk result (λ fault. fault ≡ fault_of line.now) }
{
    match split_word(line) {
        Some((word, rest)) if word == b"fault".as_slice() => link_fault(alloc, rest),
        _ => Ok(None),
    }
}

/// The link from one node to another, and its actions.
#[tactic(auto, unfolding(crate::specs::Faults::link_fault))]
fn link_fault(alloc: Global, rest: &[u8]) -> Result<Option<LinkFault>, AllocError>
    ensures { IfOk result (λ fault. fault ≡ link_fault rest.now) }
{
    let Some((word, rest)) = split_word(rest) else {
        return Ok(None);
    };
    let Some(from) = node_in(word) else {
        return Ok(None);
    };
    let Some((word, rest)) = split_word(rest) else {
        return Ok(None);
    };
    let Some(to) = node_in(word) else {
        return Ok(None);
    };
    match actions_in(alloc, rest)? {
        Some(actions) => Ok(Some(LinkFault { from, to, actions })),
        None => Ok(None),
    }
}

/// The actions that a text names, joined by commas.
fn actions_in(alloc: Global, text: &[u8]) -> Result<Option<Actions>, AllocError>
    ensures { IfOk result (λ actions. actions ≡ actions_in text.now) }
{
    let mut actions = Actions::new(alloc);
    let mut rest = text;
    while let Some((word, more)) = split_comma(rest) {
        let Some(action) = action_in(word) else {
            return Ok(None);
        };
        actions.push(action)?;
        rest = more;
    }
    let Some(action) = action_in(rest) else {
        return Ok(None);
    };
    actions.push(action)?;
    Ok(Some(actions))
}

/// The action that a word names.
fn action_in(word: &[u8]) -> Option<Action>
    ensures { result ≡ action_in word.now }
{
    if word == b"deliver".as_slice() {
        return Some(Action::Deliver);
    }
    if word == b"lose".as_slice() {
        return Some(Action::Lose);
    }
    if word == b"twice".as_slice() {
        return Some(Action::Twice);
    }
    if word == b"hold".as_slice() {
        return Some(Action::Hold);
    }
    None
}

/// What stands before the first comma and what stands after it; `None` where there is no comma.
pub(crate) fn split_comma(text: &[u8]) -> Option<(&[u8], &[u8])>
    ensures parts { IfSome result (λ parts. comma_parts text.now ≡ parts.0.now ∷ comma_parts parts.1.now) }
    ensures shorter { IfSome result (λ parts. length parts.1.now < length text.now) }
    ensures whole { IfNone result (comma_parts text.now ≡ text.now ∷ []) }
{
    match comma_in(text) {
        Some(comma) => Some((&text[..comma], &text[comma + 1..])),
        None => None,
    }
}

/// The place of the first comma.
fn comma_in(text: &[u8]) -> Option<usize>
    ensures first { result ≡ position is_comma text.now }
    ensures bound { IfSome result (λ place. place < length text.now) }
{
    text.iter().position(|byte| *byte == b',')
}
