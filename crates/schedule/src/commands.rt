//! The command that a line of `run` spells.

ghost use Rattle.std.specs.Prelude.{◌≡◌, IfOk};
ghost use Rattle.std.specs.Option.{option_map};
ghost use Rattle.schedule.specs.declared.commands.Command.TheVariants.{Restart};
ghost use Rattle.schedule.specs.Commands.{as_command, awaited, command_of, command_with};
ghost use Rattle.schedule.specs.Nodes.{node_in};

use crate::events::event_with;
use crate::nodes::{node_in, pharmacy_in};
use input_text::{read_decimal, split_word};
use octets::Octets;
use std::alloc::{AllocError, Global};
use world_setup::{Event, Node};

/// The most digits of a request's number (own).
const MOST_DIGITS: usize = 18;

/// A command to nodes on threads (own).
#[derive(Drop, PartialEq, Eq)]
pub enum Command {
    /// A pharmacy submits a request.
    Submit {
        /// The pharmacy's number.
        pharmacy: u16,
        /// The request's bytes.
        text: Octets,
    },
    /// One tick of a pharmacy's time.
    Tick {
        /// The pharmacy's number.
        pharmacy: u16,
    },
    /// A payer changes its plan.
    Plan {
        /// The payer's number.
        payer: u16,
        /// The product.
        product: Octets,
        /// Its price in ten-thousandths of a dollar a unit, or `None` to take it off the plan.
        price: Option<u32>,
    },
    /// A node stops and starts again.
    Restart(Node),
    /// The answer of a pharmacy's request is waited for.
    Await {
        /// The pharmacy's number.
        pharmacy: u16,
        /// The request's number.
        number: u64,
    },
}

/// The command that a line spells; `None` where it spells none.
#[tactic(auto, unfolding(crate::specs::Commands::command_of))]
pub(crate) fn command_of(alloc: Global, line: &[u8]) -> Result<Option<Command>, AllocError>
    ensures { IfOk result (λ command. command ≡ command_of line.now) }
{
    match split_word(line) {
        Some((word, rest)) => command_with(alloc, word, rest),
        None => Ok(None),
    }
}

/// The command of a word and what stands after it.
fn command_with(alloc: Global, word: &[u8], rest: &[u8]) -> Result<Option<Command>, AllocError>
    ensures { IfOk result (λ command. command ≡ command_with word.now rest.now) }
{
    if word == b"restart".as_slice() {
        return Ok(restart(rest));
    }
    if word == b"await".as_slice() {
        return Ok(awaited(rest));
    }
    match event_with(alloc, word, rest)? {
        Some(event) => Ok(as_command(event)),
        None => Ok(None),
    }
}

/// The restart of a node.
fn restart(word: &[u8]) -> Option<Command>
    ensures { result ≡ option_map Restart (node_in word.now) }
{
    match node_in(word) {
        Some(node) => Some(Command::Restart(node)),
        None => None,
    }
}

/// The wait for a pharmacy's request.
#[tactic(auto, unfolding(crate::specs::Commands::awaited))]
fn awaited(rest: &[u8]) -> Option<Command>
    ensures { result ≡ awaited rest.now }
{
    let (word, digits) = split_word(rest)?;
    let pharmacy = pharmacy_in(word)?;
    let number = read_decimal(digits, MOST_DIGITS)?;
    Some(Command::Await { pharmacy, number })
}

/// The command that an event is, if it is one.
fn as_command(event: Event) -> Option<Command>
    ensures { result ≡ as_command event }
{
    match event {
        Event::Submit { pharmacy, text } => Some(Command::Submit { pharmacy, text }),
        Event::Tick { pharmacy } => Some(Command::Tick { pharmacy }),
        Event::Plan {
            payer,
            product,
            price,
        } => Some(Command::Plan {
            payer,
            product,
            price,
        }),
        Event::Deliver { .. }
        | Event::Stop(_)
        | Event::Start(_)
        | Event::Terms { .. }
        | Event::Retry { .. }
        | Event::Cap { .. }
        | Event::Adjudicate { .. } => None,
    }
}
