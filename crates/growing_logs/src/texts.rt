//! Texts about a log and its node.

ghost use Rattle.std.specs.Prelude.{◌≡◌, ◌++◌, IfOk, OnOk, decimal};
ghost use Rattle.growing_logs.specs.Texts.{line_text, node_words, refused_text, rerouted_text, said_text, unread_text};

use input_text::put_decimal;
use std::alloc::{AllocError, Global};
use world_setup::Node;

/// Appends the line of what is told of a log of this name.
pub(crate) fn put_line(lines: &mut Vec<u8>, name: &[u8], told: &[u8]) -> Result<(), AllocError>
    ensures { OnOk result (lines.new.items ≡ lines.old.items ++ line_text name.now told.now) }
{
    lines.extend_from_slice(name)?;
    lines.extend_from_slice(b": ")?;
    lines.extend_from_slice(told)?;
    lines.extend_from_slice(b"\n")?;
    Ok(())
}

/// A node, of which these words are true.
pub(crate) fn said_text(alloc: Global, node: Node, words: &[u8]) -> Result<Vec<u8>, AllocError>
    ensures { IfOk result (λ text. text.items ≡ said_text node words.now) }
{
    let mut text = Vec::new(alloc);
    put_said(&mut text, node, words)?;
    Ok(text)
}

/// That a node does not go over, why, and a hint.
pub(crate) fn refused_text(
    alloc: Global,
    node: Node,
    why: &[u8],
    hint: &[u8],
) -> Result<Vec<u8>, AllocError>
    ensures { IfOk result (λ text. text.items ≡ refused_text node why.now hint.now) }
{
    let mut text = Vec::new(alloc);
    put_said(&mut text, node, b" does not go over: ")?;
    text.extend_from_slice(why)?;
    text.extend_from_slice(hint)?;
    Ok(text)
}

/// That a node does not go over for the rejection of this entry.
pub(crate) fn rerouted_text(alloc: Global, node: Node, entry: u64) -> Result<Vec<u8>, AllocError>
    ensures { IfOk result (λ text. text.items ≡ rerouted_text node entry) }
{
    let mut text = Vec::new(alloc);
    put_said(&mut text, node, b" does not go over: entry ")?;
    put_decimal(&mut text, entry)?;
    text.extend_from_slice(b" was rejected for want of a route, and its request has one now")?;
    Ok(text)
}

/// That a log does not go over, and why.
#[tactic(auto, unfolding(crate::specs::Texts::unread_text))]
pub(crate) fn unread_text(alloc: Global, why: &[u8]) -> Result<Vec<u8>, AllocError>
    ensures { IfOk result (λ text. text.items ≡ unread_text why.now) }
{
    let mut text = Vec::new(alloc);
    text.extend_from_slice(b"does not go over: ")?;
    text.extend_from_slice(why)?;
    Ok(text)
}

/// Appends a node, of which these words are true.
#[tactic(auto, unfolding(crate::specs::Texts::said_text))]
fn put_said(out: &mut Vec<u8>, node: Node, words: &[u8]) -> Result<(), AllocError>
    ensures { OnOk result (out.new.items ≡ out.old.items ++ said_text node words.now) }
{
    put_node(out, node)?;
    out.extend_from_slice(words)?;
    Ok(())
}

/// Appends a node by its kind and its number.
#[tactic(auto, unfolding(crate::specs::Texts::node_words))]
fn put_node(out: &mut Vec<u8>, node: Node) -> Result<(), AllocError>
    ensures { OnOk result (out.new.items ≡ out.old.items ++ node_words node) }
{
    match node {
        Node::Pharmacy(number) => put_numbered(out, b"pharmacy ", number),
        Node::Switch(number) => put_numbered(out, b"switch ", number),
        Node::Payer(number) => put_numbered(out, b"payer ", number),
    }
}

/// Appends a word and a number.
fn put_numbered(out: &mut Vec<u8>, word: &[u8], number: u16) -> Result<(), AllocError>
    ensures { OnOk result (out.new.items ≡ out.old.items ++ (word.now ++ decimal number)) }
{
    out.extend_from_slice(word)?;
    put_decimal(out, u64::from(number))?;
    Ok(())
}
