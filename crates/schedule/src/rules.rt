//! Changes of rules of retries.

ghost use Rattle.std.specs.Prelude.{◌≡◌, IfOk};
ghost use Rattle.std.specs.Option.{option_map};
ghost use Rattle.schedule.specs.Events.{rule_change};
ghost use Rattle.schedule.specs.Faults.{comma_parts};
ghost use Rattle.schedule.specs.Switches.{named_switches, switch_numbers, switches_in};

use crate::link_faults::split_comma;
use crate::nodes::{pharmacy_in, switch_in};
use crate::plans::cents_in;
use input_text::split_word;
use octets::Octets;
use pharmacy_journal::switch_bytes;
use std::alloc::{AllocError, Global};
use world_setup::Event;

/// The most switches of a rule (own).
const MOST_SWITCHES: usize = 4096;

/// The change of a pharmacy, switches and the two numbers of a rule of retries.
#[tactic(auto, unfolding(crate::specs::Events::rule_change))]
pub(crate) fn rule_change(alloc: Global, rest: &[u8]) -> Result<Option<Event>, AllocError>
    ensures { IfOk result (λ event. event ≡ rule_change rest.now) }
{
    let Some((node, rest)) = split_word(rest) else {
        return Ok(None);
    };
    let Some(pharmacy) = pharmacy_in(node) else {
        return Ok(None);
    };
    let Some((switches, rest)) = split_word(rest) else {
        return Ok(None);
    };
    let Some(nodes) = switches_in(alloc, switches)? else {
        return Ok(None);
    };
    let Some((first, second)) = split_word(rest) else {
        return Ok(None);
    };
    let Some(again) = cents_in(first) else {
        return Ok(None);
    };
    match cents_in(second) {
        Some(tries) => Ok(Some(Event::Retry {
            pharmacy,
            nodes,
            again,
            tries,
        })),
        None => Ok(None),
    }
}

/// The numbers of the switches that a word names, two bytes each, the higher first: `sw1,sw3`, 1 to 4,096 names with commas
/// between them; none of any other word.
///
/// # Errors
/// Memory was refused.
pub fn switches_in(alloc: Global, word: &[u8]) -> Result<Option<Octets>, AllocError>
    ensures { IfOk result (λ nodes. nodes ≡ switches_in word.now) }
{
    match switch_numbers(alloc, word)? {
        Some(numbers) => {
            let nodes = switch_bytes(alloc, numbers.as_slice())?;
            Ok(Some(Octets::from_vec(nodes)))
        }
        None => Ok(None),
    }
}

/// The numbers of the switches that a word names: 4,096 at most.
fn switch_numbers(alloc: Global, word: &[u8]) -> Result<Option<Vec<u16>>, AllocError>
    ensures { IfOk result (λ numbers. option_map (λ n. n.items) numbers ≡ switch_numbers word.now) }
{
    match named_switches(alloc, word)? {
        Some(numbers) if numbers.len() <= MOST_SWITCHES => Ok(Some(numbers)),
        _ => Ok(None),
    }
}

/// The numbers of the switches whose names a word joins by commas.
fn named_switches(alloc: Global, word: &[u8]) -> Result<Option<Vec<u16>>, AllocError>
    ensures { IfOk result
        (λ numbers. option_map (λ n. n.items) numbers ≡ named_switches (comma_parts word.now)) }
{
    let mut numbers = Vec::new(alloc);
    let mut rest = word;
    while let Some((name, more)) = split_comma(rest) {
        let Some(number) = switch_in(name) else {
            return Ok(None);
        };
        numbers.push(number)?;
        rest = more;
    }
    let Some(number) = switch_in(rest) else {
        return Ok(None);
    };
    numbers.push(number)?;
    Ok(Some(numbers))
}
