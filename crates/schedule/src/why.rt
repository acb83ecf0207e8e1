//! What is wrong in a line, for people.

ghost use Rattle.std.specs.Prelude.{◌≡◌, is_none, is_some, IfOk};
ghost use Rattle.schedule.specs.Commands.{command_of};
ghost use Rattle.schedule.specs.Events.{event_of, living_event_of};

use crate::commands::command_of;
use crate::events::{event_of, living_event_of};
use crate::link_faults::fault_of;
use crate::nodes::{node_in, payer_in, pharmacy_in, switch_in};
use crate::plans::{cents_in, product_in};
use crate::rules::switches_in;
use input_text::{PrintedFault, read_decimal, split_word, unprint};
use std::alloc::{AllocError, Global};
use thiserror::Error;

/// The most digits of a packet's number (own).
const MOST_DIGITS: usize = 18;

/// What is wrong in a line that spells nothing, or nothing in its place: the first thing from the left. The text says
/// what is wanted.
#[derive(Clone, Copy, Debug, PartialEq, Eq, Error)]
pub enum LineFault {
    /// The first word is none of a replay's.
    #[error("a line is submit ph1 TEXT, tick ph1, deliver 3, stop sw1, start sw1 or plan pr1 PRODUCT PRICE, with one space between words")]
    EventWord,
    /// The first word is none of a replay's for programs that live.
    #[error("a line is submit ph1 TEXT, tick ph1, deliver 3, adjudicate 3 ADVICE, stop sw1, start sw1, plan pr1 PRODUCT PRICE, terms pr1 FEE COPAY, retry ph1 SWITCHES AGAIN TRIES or cap sw1 ENTRIES, with one space between words")]
    LivingEventWord,
    /// The first word is none of a run's.
    #[error("a line is submit ph1 TEXT, tick ph1, plan pr1 PRODUCT PRICE, restart sw1 or await ph1 3, with one space between words, and before all of these fault ph1 sw1 ACTIONS")]
    CommandWord,
    /// There is no pharmacy where one has to be.
    #[error("a pharmacy is wanted: ph and 1 to 5 digits")]
    Pharmacy,
    /// There is no payer where one has to be.
    #[error("a payer is wanted: pr and 1 to 5 digits")]
    Payer,
    /// There is no node where one has to be.
    #[error("a node is wanted: ph, sw or pr and 1 to 5 digits")]
    Node,
    /// There is no number where one has to be.
    #[error("a number is wanted: 1 to 18 digits")]
    Number,
    /// There is no request.
    #[error("behind the pharmacy one space and a request are wanted")]
    Request,
    /// A byte of a request, counted from 1, is not printed text.
    #[error("byte {0} of the request is not printed text: bytes below 0x20 and above 0x7E, and the separators, are written with a backslash")]
    Printed(usize),
    /// There is no advice.
    #[error("behind the packet's number one space and an advice are wanted")]
    Advice,
    /// A byte of an advice, counted from 1, is not printed text.
    #[error("byte {0} of the advice is not printed text: bytes below 0x20 and above 0x7E, and the separators, are written with a backslash")]
    PrintedAdvice(usize),
    /// There is no product.
    #[error("a product is wanted: one or more printed bytes without a space")]
    Product,
    /// There is no price.
    #[error("a price is wanted: 1 to 18 digits, at most 4294967295, or none")]
    Price,
    /// There is no fee.
    #[error("a fee is wanted: 1 to 10 digits, at most 4294967295")]
    Fee,
    /// There is no copay.
    #[error("a copay is wanted: 1 to 10 digits, at most 4294967295")]
    Copay,
    /// There are no switches.
    #[error("switches are wanted: 1 to 4096 names, each sw and 1 to 5 digits, joined by commas")]
    Switches,
    /// There is no number of ticks after which a pharmacy sends again.
    #[error("a number of ticks is wanted: 1 to 10 digits, at most 4294967295")]
    Again,
    /// There is no number of tries at one switch.
    #[error("a number of tries is wanted: 1 to 10 digits, at most 4294967295")]
    Tries,
    /// There is no switch.
    #[error("a switch is wanted: sw and 1 to 5 digits")]
    Switch,
    /// There is no cap of a switch.
    #[error("a cap is wanted: 1 to 10 digits, 1 to 16777216")]
    Cap,
    /// There are no actions.
    #[error("actions are wanted: deliver, lose, twice and hold, joined by commas")]
    Actions,
    /// A fault of a link stands after a command.
    #[error("faults of links stand before all commands")]
    Order,
}

/// What is wrong in a line of a replay; `None` exactly where it spells an event.
pub fn event_fault(alloc: Global, line: &[u8]) -> Result<Option<LineFault>, AllocError>
    ensures { IfOk result (λ fault. is_none fault ≡ is_some (event_of line.now)) }
{
    match event_of(alloc, line)? {
        Some(_) => Ok(None),
        None => Ok(Some(event_cause(alloc, line)?)),
    }
}

/// What is wrong in a line of a replay for programs that live; `None` exactly where it spells an event.
pub fn living_event_fault(alloc: Global, line: &[u8]) -> Result<Option<LineFault>, AllocError>
    ensures { IfOk result (λ fault. is_none fault ≡ is_some (living_event_of line.now)) }
{
    match living_event_of(alloc, line)? {
        Some(_) => Ok(None),
        None => Ok(Some(living_cause(alloc, line)?)),
    }
}

/// What is wrong in a line of a run; `None` exactly where it spells a command. A fault of a link is wrong here by its
/// place alone.
pub fn command_fault(alloc: Global, line: &[u8]) -> Result<Option<LineFault>, AllocError>
    ensures { IfOk result (λ fault. is_none fault ≡ is_some (command_of line.now)) }
{
    match command_of(alloc, line)? {
        Some(_) => Ok(None),
        None => Ok(Some(command_cause(alloc, line)?)),
    }
}

/// What is wrong in a line that spells no event.
fn event_cause(alloc: Global, line: &[u8]) -> Result<LineFault, AllocError> {
    let Some((word, rest)) = split_word(line) else {
        return Ok(LineFault::EventWord);
    };
    match word {
        b"submit" => request_cause(alloc, rest),
        b"plan" => plan_cause(alloc, rest),
        b"tick" => Ok(LineFault::Pharmacy),
        b"deliver" => Ok(LineFault::Number),
        b"stop" | b"start" => Ok(LineFault::Node),
        _ => Ok(LineFault::EventWord),
    }
}

/// What is wrong in a line that spells no event for programs that live.
fn living_cause(alloc: Global, line: &[u8]) -> Result<LineFault, AllocError> {
    if let Some((word, rest)) = split_word(line) {
        if word == b"adjudicate".as_slice() {
            return advice_cause(alloc, rest);
        }
        if word == b"terms".as_slice() {
            return Ok(terms_cause(rest));
        }
        if word == b"retry".as_slice() {
            return rule_cause(alloc, rest);
        }
        if word == b"cap".as_slice() {
            return Ok(cap_cause(rest));
        }
    }
    match event_cause(alloc, line)? {
        LineFault::EventWord => Ok(LineFault::LivingEventWord),
        fault => Ok(fault),
    }
}

/// What is wrong after `adjudicate`.
fn advice_cause(alloc: Global, rest: &[u8]) -> Result<LineFault, AllocError> {
    let Some((number, text)) = split_word(rest) else {
        return Ok(match read_decimal(rest, MOST_DIGITS) {
            Some(_) => LineFault::Advice,
            None => LineFault::Number,
        });
    };
    if read_decimal(number, MOST_DIGITS).is_none() {
        return Ok(LineFault::Number);
    }
    match unprint(alloc, text) {
        Ok(_) => Ok(LineFault::Advice),
        Err(PrintedFault::BadByte(place)) => Ok(LineFault::PrintedAdvice(place.saturating_add(1))),
        Err(PrintedFault::OutOfMemory) => Err(AllocError),
    }
}

/// What is wrong in a line that spells no command.
fn command_cause(alloc: Global, line: &[u8]) -> Result<LineFault, AllocError> {
    if fault_of(alloc, line)?.is_some() {
        return Ok(LineFault::Order);
    }
    let Some((word, rest)) = split_word(line) else {
        return Ok(LineFault::CommandWord);
    };
    match word {
        b"submit" => request_cause(alloc, rest),
        b"plan" => plan_cause(alloc, rest),
        b"tick" => Ok(LineFault::Pharmacy),
        b"restart" => Ok(LineFault::Node),
        b"await" => Ok(await_cause(rest)),
        b"fault" => Ok(link_cause(rest)),
        _ => Ok(LineFault::CommandWord),
    }
}

/// What is wrong after `submit`.
fn request_cause(alloc: Global, rest: &[u8]) -> Result<LineFault, AllocError> {
    let Some((node, text)) = split_word(rest) else {
        return Ok(match pharmacy_in(rest) {
            Some(_) => LineFault::Request,
            None => LineFault::Pharmacy,
        });
    };
    if pharmacy_in(node).is_none() {
        return Ok(LineFault::Pharmacy);
    }
    match unprint(alloc, text) {
        Ok(_) => Ok(LineFault::Request),
        Err(PrintedFault::BadByte(place)) => Ok(LineFault::Printed(place.saturating_add(1))),
        Err(PrintedFault::OutOfMemory) => Err(AllocError),
    }
}

/// What is wrong after `plan`.
fn plan_cause(alloc: Global, rest: &[u8]) -> Result<LineFault, AllocError> {
    let Some((node, rest)) = split_word(rest) else {
        return Ok(match payer_in(rest) {
            Some(_) => LineFault::Product,
            None => LineFault::Payer,
        });
    };
    if payer_in(node).is_none() {
        return Ok(LineFault::Payer);
    }
    let Some((product, _)) = split_word(rest) else {
        return Ok(LineFault::Price);
    };
    match product_in(alloc, product)? {
        Some(_) => Ok(LineFault::Price),
        None => Ok(LineFault::Product),
    }
}

/// What is wrong after `terms`.
fn terms_cause(rest: &[u8]) -> LineFault {
    let Some((node, rest)) = split_word(rest) else {
        return match payer_in(rest) {
            Some(_) => LineFault::Fee,
            None => LineFault::Payer,
        };
    };
    if payer_in(node).is_none() {
        return LineFault::Payer;
    }
    let fee = match split_word(rest) {
        Some((fee, _)) => fee,
        None => rest,
    };
    match cents_in(fee) {
        Some(_) => LineFault::Copay,
        None => LineFault::Fee,
    }
}

/// What is wrong after `retry`.
fn rule_cause(alloc: Global, rest: &[u8]) -> Result<LineFault, AllocError> {
    let Some((node, rest)) = split_word(rest) else {
        return Ok(match pharmacy_in(rest) {
            Some(_) => LineFault::Switches,
            None => LineFault::Pharmacy,
        });
    };
    if pharmacy_in(node).is_none() {
        return Ok(LineFault::Pharmacy);
    }
    let Some((switches, numbers)) = split_word(rest) else {
        return Ok(match switches_in(alloc, rest)? {
            Some(_) => LineFault::Again,
            None => LineFault::Switches,
        });
    };
    match switches_in(alloc, switches)? {
        Some(_) => Ok(numbers_cause(numbers)),
        None => Ok(LineFault::Switches),
    }
}

/// What is wrong after `cap`.
fn cap_cause(rest: &[u8]) -> LineFault {
    let node = match split_word(rest) {
        Some((node, _)) => node,
        None => rest,
    };
    match switch_in(node) {
        Some(_) => LineFault::Cap,
        None => LineFault::Switch,
    }
}

/// What is wrong in the two numbers of a rule of retries.
fn numbers_cause(numbers: &[u8]) -> LineFault {
    let again = match split_word(numbers) {
        Some((again, _)) => again,
        None => numbers,
    };
    match cents_in(again) {
        Some(_) => LineFault::Tries,
        None => LineFault::Again,
    }
}

/// What is wrong after `await`.
fn await_cause(rest: &[u8]) -> LineFault {
    let node = match split_word(rest) {
        Some((node, _)) => node,
        None => rest,
    };
    match pharmacy_in(node) {
        Some(_) => LineFault::Number,
        None => LineFault::Pharmacy,
    }
}

/// What is wrong after `fault`.
fn link_cause(rest: &[u8]) -> LineFault {
    let Some((from, rest)) = split_word(rest) else {
        return LineFault::Node;
    };
    if node_in(from).is_none() {
        return LineFault::Node;
    }
    let to = match split_word(rest) {
        Some((to, _)) => to,
        None => rest,
    };
    match node_in(to) {
        Some(_) => LineFault::Actions,
        None => LineFault::Node,
    }
}
