//! Changes of plans.

ghost use Rattle.std.specs.Prelude.{◌≡◌, IfOk};
ghost use Rattle.schedule.specs.Events.{cents_in, plan_change, price_in, price_of, product_in, terms_change};

use crate::nodes::payer_in;
use input_text::{PrintedFault, read_decimal, split_word, unprint};
use octets::Octets;
use std::alloc::{AllocError, Global};
use world_setup::Event;

/// The most digits of a price (own).
const MOST_DIGITS: usize = 18;
/// The most digits of a fee and of a copay (own).
const MOST_CENTS_DIGITS: usize = 10;
/// The largest number of 32 bits.
const LARGEST: u64 = 4_294_967_295;

/// The change of a payer, a product and a price.
#[tactic(auto, unfolding(crate::specs::Events::plan_change))]
pub(crate) fn plan_change(alloc: Global, rest: &[u8]) -> Result<Option<Event>, AllocError>
    ensures { IfOk result (λ event. event ≡ plan_change rest.now) }
{
    let Some((node, rest)) = split_word(rest) else {
        return Ok(None);
    };
    let Some(payer) = payer_in(node) else {
        return Ok(None);
    };
    let Some((product, price)) = split_word(rest) else {
        return Ok(None);
    };
    let Some(product) = product_in(alloc, product)? else {
        return Ok(None);
    };
    match price_in(price) {
        Some(price) => Ok(Some(Event::Plan {
            payer,
            product,
            price,
        })),
        None => Ok(None),
    }
}

/// The change of a payer, a fee and a copay.
#[tactic(auto, unfolding(crate::specs::Events::terms_change))]
pub(crate) fn terms_change(rest: &[u8]) -> Option<Event>
    ensures { result ≡ terms_change rest.now }
{
    let (node, amounts) = split_word(rest)?;
    let payer = payer_in(node)?;
    let (first, second) = split_word(amounts)?;
    let fee = cents_in(first)?;
    let copay = cents_in(second)?;
    Some(Event::Terms { payer, fee, copay })
}

/// The cents that a word of a line spells.
pub(crate) fn cents_in(word: &[u8]) -> Option<u32>
    ensures { result ≡ cents_in word.now }
{
    let number = read_decimal(word, MOST_CENTS_DIGITS)?;
    price_of(number)
}

/// The product that a word of a line spells: printed bytes, at least one.
///
/// # Errors
/// Memory was refused.
pub fn product_in(alloc: Global, word: &[u8]) -> Result<Option<Octets>, AllocError>
    ensures { IfOk result (λ product. product ≡ product_in word.now) }
{
    if word.is_empty() {
        return Ok(None);
    }
    match unprint(alloc, word) {
        Ok(product) => Ok(Some(Octets::from_vec(product))),
        Err(PrintedFault::BadByte(_)) => Ok(None),
        Err(PrintedFault::OutOfMemory) => Err(AllocError),
    }
}

/// The price that a word of a line spells, in ten-thousandths of a dollar a unit; the inner `None`, spelled `none`, takes the
/// product off the plan.
pub fn price_in(word: &[u8]) -> Option<Option<u32>>
    ensures { result ≡ price_in word.now }
{
    if word == b"none".as_slice() {
        return Some(None);
    }
    let number = read_decimal(word, MOST_DIGITS)?;
    match price_of(number) {
        Some(price) => Some(Some(price)),
        None => None,
    }
}

/// A number that fits.
fn price_of(number: u64) -> Option<u32>
    ensures { result ≡ price_of number }
{
    if number > LARGEST {
        return None;
    }
    Some(number as u32)
}
