//! What is read of a world, of nodes up and at rest alike. Of a node that is not there nothing is told.

ghost use Rattle.std.specs.Prelude.{◌≡◌, map, IfOk};
ghost use Rattle.std.specs.Option.{option_copied};
ghost use Rattle.claim_model.specs.Node.{Pharmacy, Switch, Payer};
ghost use Rattle.claim_model.specs.Held.{journal_at, book_at, held};
ghost use Rattle.world_setup.specs.Seen.{node_seen, packet_seen};
ghost use Rattle.world_core.specs.Parts.{context_of};
ghost use Rattle.world_core.specs.Reading.{is_up_at, paid_at, payment_at, journal_told, table_told, rows_told};

use crate::row_view::{RowView, views_of};
use crate::world::World;
use claim_profile::Auth;
use envelope::TxnId;
use node_state::{BookReading, JournalReading};
use octets::Octets;
use payer_book::PaymentView;
use pharmacy_journal::{CountedPayment, EntryView};
use std::alloc::{AllocError, Global};
use switch_node::InFlight;
use world_setup::{Node, Packet};

impl World {
    /// All packets that were ever sent. The first has the number 1.
    pub fn packets(&self) -> &[Packet]
        ensures { map packet_seen result.now ≡ self.now.world.packets }
    {
        self.parts.packets()
    }

    /// Whether a node is up.
    pub fn up(&self, node: Node) -> bool
        ensures { result ≡ is_up_at self.now.world (node_seen node) }
    {
        match node {
            Node::Pharmacy(number) => match self.parts.nodes().pharmacy(number) {
                Some(node) => node.is_up(),
                None => false,
            },
            Node::Switch(number) => match self.parts.nodes().switch(number) {
                Some(node) => node.is_up(),
                None => false,
            },
            Node::Payer(number) => match self.parts.nodes().payer(number) {
                Some(node) => node.is_up(),
                None => false,
            },
        }
    }

    /// A copy of the answer that a node holds for a number: a pharmacy in its journal, for its own numbers only, a
    /// switch in its table, a payer in its book.
    pub fn held(&self, node: Node, id: TxnId) -> Result<Option<Octets>, AllocError>
        ensures { IfOk result (λ found. found ≡ held (context_of self.now) self.now.world (node_seen node) id) }
    {
        match node {
            Node::Pharmacy(number) => self.held_by_pharmacy(number, id),
            Node::Switch(number) => self.held_by_switch(number, id),
            Node::Payer(number) => self.held_by_payer(number, id),
        }
    }

    /// The payments that a pharmacy counts, in order of the numbers and places that named them first.
    pub fn paid(&self, pharmacy: u16) -> Result<Vec<CountedPayment>, AllocError>
        ensures { IfOk result (λ paid. paid.items ≡ paid_at (context_of self.now) self.now.world pharmacy) }
    {
        match self.journal_of(pharmacy)? {
            Some(journal) => journal.paid(),
            None => Ok(Vec::new(self.allocator())),
        }
    }

    /// The payment of an authorization in a payer's book.
    pub fn payment(&self, payer: u16, auth: Auth) -> Result<Option<PaymentView>, AllocError>
        ensures { IfOk result (λ found. found ≡ payment_at (context_of self.now) self.now.world payer auth) }
    {
        match self.book_of(payer)? {
            Some(reading) => Ok(reading.book().payment(auth)),
            None => Ok(None),
        }
    }

    /// The entries of a pharmacy's journal, in order of their numbers.
    pub fn journal(&self, pharmacy: u16) -> Result<Vec<EntryView>, AllocError>
        ensures { IfOk result (λ views. views.items ≡ journal_told self.now.world pharmacy) }
    {
        match self.journal_of(pharmacy)? {
            Some(journal) => journal.list(),
            None => Ok(Vec::new(self.allocator())),
        }
    }

    /// The numbers in a switch's table and whether each has its answer, oldest first.
    pub fn table(&self, switch: u16) -> Result<Vec<InFlight>, AllocError>
        ensures { IfOk result (λ views. views.items ≡ table_told self.now.world switch) }
    {
        match self.parts.nodes().switch(switch) {
            Some(node) => node.list(self.allocator()),
            None => Ok(Vec::new(self.allocator())),
        }
    }

    /// The rows of a payer's book, oldest first.
    pub fn rows(&self, payer: u16) -> Result<Vec<RowView>, AllocError>
        ensures { IfOk result (λ views. views.items ≡ rows_told self.now.world payer) }
    {
        match self.book_of(payer)? {
            Some(reading) => views_of(self.allocator(), reading.book().rows()),
            None => Ok(Vec::new(self.allocator())),
        }
    }

    /// A pharmacy's journal to be read: as it stands, or at rest read once from its record.
    pub fn journal_of(&self, pharmacy: u16) -> Result<Option<JournalReading<'_>>, AllocError>
        ensures { IfOk result (λ found. found ≡ journal_at self.now.world pharmacy) }
    {
        match self.parts.nodes().pharmacy(pharmacy) {
            Some(node) => Ok(Some(node.journal(self.allocator())?)),
            None => Ok(None),
        }
    }

    /// A payer's book to be read, with its rows, payments and answers: as it stands, or at rest read once from its
    /// record.
    pub fn book_of(&self, payer: u16) -> Result<Option<BookReading<'_>>, AllocError>
        ensures { IfOk result (λ found. found ≡ book_at self.now.world payer) }
    {
        match self.parts.nodes().payer(payer) {
            Some(node) => Ok(Some(node.book(self.allocator())?)),
            None => Ok(None),
        }
    }

    /// What a pharmacy's journal holds for a number.
    fn held_by_pharmacy(&self, number: u16, id: TxnId) -> Result<Option<Octets>, AllocError>
        ensures { IfOk result (λ found. found ≡ held (context_of self.now) self.now.world (Pharmacy number) id) }
    {
        if number != id.pharmacy() {
            return Ok(None);
        }
        match self.journal_of(number)? {
            Some(journal) => copied(self.allocator(), journal.held(id.number())),
            None => Ok(None),
        }
    }

    /// What a switch's table holds for a number.
    fn held_by_switch(&self, number: u16, id: TxnId) -> Result<Option<Octets>, AllocError>
        ensures { IfOk result (λ found. found ≡ held (context_of self.now) self.now.world (Switch number) id) }
    {
        match self.parts.nodes().switch(number) {
            Some(node) => copied(self.allocator(), node.held(id)),
            None => Ok(None),
        }
    }

    /// What a payer's book holds for a number.
    fn held_by_payer(&self, number: u16, id: TxnId) -> Result<Option<Octets>, AllocError>
        ensures { IfOk result (λ found. found ≡ held (context_of self.now) self.now.world (Payer number) id) }
    {
        match self.book_of(number)? {
            Some(reading) => copied(self.allocator(), reading.book().held(id)),
            None => Ok(None),
        }
    }

    /// Where the world takes its memory.
    fn allocator(&self) -> Global {
        self.parts.allocator()
    }
}

/// A copy of bytes, where there are any.
fn copied(alloc: Global, bytes: Option<&[u8]>) -> Result<Option<Octets>, AllocError>
    ensures { IfOk result (λ copy. copy ≡ option_copied bytes.entry) }
{
    match bytes {
        Some(bytes) => Ok(Some(Octets::copy_of(alloc, bytes)?)),
        None => Ok(None),
    }
}
