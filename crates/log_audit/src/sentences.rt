//! Lines that people read, as lists of pieces.

ghost use Rattle.std.specs.Prelude.{◌≡◌, map, OnOk};
ghost use Rattle.world_setup.specs.Seen.{node_seen};
ghost use Rattle.table_text.specs.Adding.{Adds};
ghost use Rattle.log_audit.specs.Sentences.{node_word, node_text, piece_text, sentence, told_line};
ghost use Rattle.log_audit.specs.SentencesSeen.{piece_seen};
ghost use Rattle.log_audit.specs.declared.sentences.Manner.TheVariants.{Line, Member};

use crate::tables::kinds::number_of;
use input_text::put_decimal;
use std::alloc::AllocError;
use table_text::put_json_text;
use world_setup::Node;

/// A piece of a line.
#[derive(Clone, Copy)]
pub(crate) enum Piece<'a> {
    /// Words, as they stand.
    Words(&'a [u8]),
    /// A number, in decimal.
    Number(u64),
    /// A node, by its kind and its number.
    Named(Node),
}

/// How lines stand one after another.
#[derive(Clone, Copy, PartialEq, Eq)]
pub(crate) enum Manner {
    /// With a newline after each.
    Line,
    /// As texts of a list of JSON, each on a line of its own and with a comma after it. `put_list` makes a list of them.
    Member,
}

/// Appends a line.
pub(crate) fn put_told(out: &mut Vec<u8>, manner: Manner, line: &[u8]) -> Result<(), AllocError>
    ensures { OnOk result (Adds out.old out.new (told_line manner line.now)) }
{
    match manner {
        Manner::Line => put_ended(out, line),
        Manner::Member => put_member(out, line),
    }
}

/// Appends a line and a newline.
#[tactic(auto, unfolding(crate::specs::Sentences::told_line))]
fn put_ended(out: &mut Vec<u8>, line: &[u8]) -> Result<(), AllocError>
    ensures { OnOk result (Adds out.old out.new (told_line Line line.now)) }
{
    out.extend_from_slice(line)?;
    out.extend_from_slice(b"\n")
}

/// Appends a line as a text of JSON.
#[tactic(auto, unfolding(crate::specs::Sentences::told_line))]
fn put_member(out: &mut Vec<u8>, line: &[u8]) -> Result<(), AllocError>
    ensures { OnOk result (Adds out.old out.new (told_line Member line.now)) }
{
    out.extend_from_slice(b"\n")?;
    put_json_text(out, line)?;
    out.extend_from_slice(b",")
}

/// Appends pieces, one after another.
pub(crate) fn put_pieces(out: &mut Vec<u8>, pieces: &[Piece<'_>]) -> Result<(), AllocError>
    ensures { OnOk result (Adds out.old out.new (sentence (map piece_seen pieces.now))) }
{
    for piece in pieces {
        put_piece(out, *piece)?;
    }
    Ok(())
}

/// Appends a piece.
fn put_piece(out: &mut Vec<u8>, piece: Piece<'_>) -> Result<(), AllocError>
    ensures { OnOk result (Adds out.old out.new (piece_text (piece_seen piece.entry))) }
{
    match piece {
        Piece::Words(words) => out.extend_from_slice(words),
        Piece::Number(number) => put_decimal(out, number),
        Piece::Named(node) => put_node(out, node),
    }
}

/// Appends a node by its kind and its number.
fn put_node(out: &mut Vec<u8>, node: Node) -> Result<(), AllocError>
    ensures { OnOk result (Adds out.old out.new (node_text (node_seen node))) }
{
    out.extend_from_slice(node_word(node))?;
    put_decimal(out, number_of(node))
}

/// The word before the number of a node.
fn node_word(node: Node) -> &'static [u8]
    ensures { result.now ≡ node_word (node_seen node) }
{
    match node {
        Node::Pharmacy(_) => b"pharmacy ",
        Node::Switch(_) => b"switch ",
        Node::Payer(_) => b"payer ",
    }
}
