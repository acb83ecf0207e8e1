//! The names of nodes: read in schedules and in lines of nodes, and written there and in pictures.

ghost use Rattle.std.specs.Prelude.{◌≡◌, ◌++◌, OnOk};
ghost use Rattle.std.specs.Option.{option_map};
ghost use Rattle.world_setup.specs.Seen.{node_seen};
ghost use Rattle.schedule.specs.Nodes.{behind, known_number, node_in, node_number, node_text, numbered, payer_in, pharmacy_in, switch_in};

use input_text::{put_decimal, read_decimal};
use std::alloc::AllocError;
use world_setup::Node;

/// The most digits of a node's number (own).
const MOST_DIGITS: usize = 5;
/// The largest number that a node can have.
const LAST_NODE: u64 = 65_535;

/// The node that a word names: two letters and 1 to 5 digits (own), as `ph1`, `sw1`, `pr1`. A number over 65,535 is read as 0, which is
/// nobody's.
#[tactic(auto, unfolding(crate::specs::Nodes::node_in))]
pub fn node_in(word: &[u8]) -> Option<Node>
    ensures { result ≡ node_in word.now }
{
    if let Some(number) = pharmacy_in(word) {
        return Some(Node::Pharmacy(number));
    }
    if let Some(number) = switch_in(word) {
        return Some(Node::Switch(number));
    }
    match payer_in(word) {
        Some(number) => Some(Node::Payer(number)),
        None => None,
    }
}

/// Appends the name of a node.
///
/// # Errors
/// Where memory is refused. A part of the name may have been appended then.
pub fn put_node(out: &mut Vec<u8>, node: Node) -> Result<(), AllocError>
    ensures { OnOk result (out.new.items ≡ out.old.items ++ node_text (node_seen node)) }
{
    let (letters, number) = match node {
        Node::Pharmacy(number) => (b"ph", number),
        Node::Switch(number) => (b"sw", number),
        Node::Payer(number) => (b"pr", number),
    };
    out.extend_from_slice(letters)?;
    put_decimal(out, u64::from(number))
}

/// The number of the pharmacy that a word names.
pub(crate) fn pharmacy_in(word: &[u8]) -> Option<u16>
    ensures { result ≡ pharmacy_in word.now }
{
    numbered(b"ph", word)
}

/// The number of the switch that a word names.
pub(crate) fn switch_in(word: &[u8]) -> Option<u16>
    ensures { result ≡ switch_in word.now }
{
    numbered(b"sw", word)
}

/// The number of the payer that a word names.
pub(crate) fn payer_in(word: &[u8]) -> Option<u16>
    ensures { result ≡ payer_in word.now }
{
    numbered(b"pr", word)
}

/// The number after these letters.
fn numbered(letters: &[u8], word: &[u8]) -> Option<u16>
    ensures { result ≡ numbered letters.now word.now }
{
    match behind(letters, word) {
        Some(digits) => node_number(digits),
        None => None,
    }
}

/// What stands after these letters, where a word begins with them.
fn behind<'a>(letters: &[u8], word: &'a [u8]) -> Option<&'a [u8]>
    ensures { option_map (λ rest. rest.now) result ≡ behind letters.now word.now }
{
    word.strip_prefix(letters)
}

/// The number that digits spell. One that no node can have is read as 0, which is nobody's.
fn node_number(digits: &[u8]) -> Option<u16>
    ensures { result ≡ node_number digits.now }
{
    match read_decimal(digits, MOST_DIGITS) {
        Some(number) => Some(known_number(number)),
        None => None,
    }
}

/// A number that fits, or 0.
fn known_number(number: u64) -> u16
    ensures { result ≡ known_number number }
{
    if number > LAST_NODE {
        return 0;
    }
    number as u16
}
