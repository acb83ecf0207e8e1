//! A node that is started from the record that it left at rest.

ghost use Rattle.std.specs.Prelude.{◌≡◌, ◌≤◌, length, map, true, IfOk};
ghost use Rattle.std.specs.List.{list_all};
ghost use Rattle.std.specs.Result.{result_ok};
ghost use Rattle.claim_model.specs.Limits.{most_payers};
ghost use Rattle.claim_model.specs.Numbered.{numbered};
ghost use Rattle.world_setup.specs.Seen.{node_seen, settings_seen, payer_seen};
ghost use Rattle.kept_records.specs.Books.{book_in};
ghost use Rattle.node_state.specs.Nodes.{has_node};
ghost use Rattle.node_state.specs.Resting.{resumed, resumed_payer, resumed_pharmacy, resumed_switch};

use crate::numbered::of_number;
use crate::payer::PayerNode;
use crate::pharmacy::PharmacyNode;
use crate::state::NodeState;
use crate::switch::SwitchNode;
use bin_routes::PayerNo;
use kept_records::{RecordFault, read_book_keyed, read_journal};
use payer_book::Book;
use pharmacy_journal::PharmacySettings;
use std::alloc::{AllocError, Global};
use switch_node::{SwitchSettings, read_cap};
use world_setup::{CheckedSettings, Node, PayerSettings};

impl NodeState {
    /// The node of that name as these settings start it from its record, so up. `None` exactly where the settings have no such
    /// node, or the bytes are no record of it.
    ///
    /// # Errors
    /// Memory was refused.
    pub fn resumed(
        alloc: Global,
        settings: &CheckedSettings,
        node: Node,
        kept: &[u8],
    ) -> Result<Option<NodeState>, AllocError>
        ensures { IfOk result (λ n. n ≡ resumed (settings_seen settings.now) (node_seen node) kept.now) }
    {
        let settings = settings.settings();
        match node {
            Node::Pharmacy(number) => {
                pharmacy_resumed(alloc, settings.pharmacies.as_slice(), number, kept)
            }
            Node::Switch(number) => Ok(switch_resumed(
                alloc,
                settings.switches.as_slice(),
                number,
                kept,
            )),
            Node::Payer(number) => payer_resumed(alloc, settings.payers.as_slice(), number, kept),
        }
    }
}

/// The pharmacy of a number, started from the record of its journal.
fn pharmacy_resumed(
    alloc: Global,
    pharmacies: &[PharmacySettings],
    number: u16,
    kept: &[u8],
) -> Result<Option<NodeState>, AllocError>
    requires { list_all has_node pharmacies.now ≡ true }
    ensures { IfOk result (λ n. n ≡ resumed_pharmacy number kept.now (numbered pharmacies.now number)) }
{
    let Some(settings) = of_number(pharmacies, number) else {
        return Ok(None);
    };
    match read_journal(alloc, kept, number, settings.copy()?) {
        Ok(journal) => match journal.start() {
            Ok(pharmacy) => Ok(Some(NodeState::pharmacy(PharmacyNode::running(pharmacy)))),
            Err(_) => Err(AllocError),
        },
        Err(RecordFault::OutOfMemory) => Err(AllocError),
        Err(_) => Ok(None),
    }
}

/// The switch of a number, started from its record: with its settings, or with a cap that is another than theirs.
fn switch_resumed(
    alloc: Global,
    switches: &[SwitchSettings],
    number: u16,
    kept: &[u8],
) -> Option<NodeState>
    ensures { result ≡ resumed_switch kept.now (numbered switches.now number) }
{
    let settings = of_number(switches, number)?;
    if kept.is_empty() {
        return Some(NodeState::switch(SwitchNode::new(alloc, *settings)));
    }
    let own = read_cap(kept)?;
    if own.cap() == settings.cap() {
        return None;
    }
    Some(NodeState::switch(SwitchNode::new(alloc, own)))
}

/// The payer of a number, started from the record of its book.
fn payer_resumed(
    alloc: Global,
    payers: &[PayerSettings],
    number: u16,
    kept: &[u8],
) -> Result<Option<NodeState>, AllocError>
    requires { length payers.now ≤ most_payers }
    ensures { IfOk result (λ n. n ≡ resumed_payer number kept.now (numbered (map payer_seen payers.now) number)) }
{
    let Some(settings) = of_number(payers, number) else {
        return Ok(None);
    };
    let Some(payer) = PayerNo::new(number) else {
        unreachable!()
    };
    match book_in(alloc, kept, payer, settings)? {
        Some(book) => Ok(Some(NodeState::payer(PayerNode::running(book)))),
        None => Ok(None),
    }
}

/// The book that bytes are the record of, at work.
fn book_in(
    alloc: Global,
    kept: &[u8],
    payer: PayerNo,
    settings: &PayerSettings,
) -> Result<Option<Book>, AllocError>
    ensures { IfOk result (λ o. o ≡ result_ok (book_in payer settings.now.book kept.now)) }
{
    match read_book_keyed(alloc, kept, payer, settings.book, &settings.keys) {
        Ok(book) => match book.start() {
            Ok(book) => Ok(Some(book)),
            Err(_) => Err(AllocError),
        },
        Err(RecordFault::OutOfMemory) => Err(AllocError),
        Err(_) => Ok(None),
    }
}
