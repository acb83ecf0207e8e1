//! The words for kinds of requests and of nodes.

ghost use Rattle.std.specs.Prelude.{◌≡◌};
ghost use Rattle.claim_profile.specs.Readable.{readable_header};
ghost use Rattle.world_setup.specs.Seen.{node_seen};
ghost use Rattle.table_text.specs.Seen.{field_seen};
ghost use Rattle.log_audit.specs.Kinds.{kind_word, kind_in, date_in, letters_of, number_of, node_member};

use claim_profile::{TransactionCode, code_of};
use payer_book::Row;
use table_text::Field;
use world_setup::Node;

/// What a request of this code (103-A3) is: a billing or a reversal. Of another code, which no entry and no row has, it
/// is nothing.
pub(crate) fn kind_word(code: [u8; 2]) -> &'static [u8]
    ensures { result.now ≡ kind_word code }
{
    match TransactionCode::read(code) {
        Some(TransactionCode::Billing) => b"billing",
        Some(TransactionCode::Reversal) => b"reversal",
        None => b"",
    }
}

/// What the request of a row is.
pub(crate) fn kind_of(row: &Row) -> &'static [u8]
    ensures { result.now ≡ kind_in (readable_header row.now.request) }
{
    let _readable = row.answer();
    kind_word(code_of(row.request()))
}

/// The date of service (401-D1) of a row's request.
pub(crate) fn date_of(row: &Row) -> [u8; 8]
    ensures { result ≡ date_in (readable_header row.now.request) }
{
    let _readable = row.answer();
    claim_profile::date_of(row.request())
}

/// A node by its letters and its number, as schedules name it.
pub(crate) fn node_field<'a>(name: &'static [u8], node: Node) -> Field<'a>
    ensures { field_seen result ≡ node_member name.now (node_seen node) }
{
    Field::named(name, letters_of(node), number_of(node))
}

/// The letters that stand before the number of a node.
fn letters_of(node: Node) -> &'static [u8]
    ensures { result.now ≡ letters_of (node_seen node) }
{
    match node {
        Node::Pharmacy(_) => b"ph",
        Node::Switch(_) => b"sw",
        Node::Payer(_) => b"pr",
    }
}

/// The number of a node.
pub(crate) fn number_of(node: Node) -> u64
    ensures { result ≡ number_of (node_seen node) }
{
    match node {
        Node::Pharmacy(number) | Node::Switch(number) | Node::Payer(number) => u64::from(number),
    }
}
