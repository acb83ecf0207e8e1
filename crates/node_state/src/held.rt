//! The answers that pharmacies and payers hold, up or at rest.

ghost use Rattle.std.specs.Prelude.{◌≡◌, IfOk};
ghost use Rattle.std.specs.Option.{option_copied};
ghost use Rattle.bin_routes.specs.Table.{RouteMaps};
ghost use Rattle.claim_model.specs.Bytes.{bytes_with};
ghost use Rattle.claim_model.specs.Held.{journal_in, book_in};
ghost use Rattle.node_state.specs.Nodes.{request_in, held_in_journal, held_in_book};

use crate::payer::PayerNode;
use crate::pharmacy::PharmacyNode;
use envelope::TxnId;
use octets::Octets;
use std::alloc::{AllocError, Global};

impl PharmacyNode {
    /// A copy of the answer that its journal holds for an id, of its own ids only. At rest the record is read.
    pub fn held(&self, alloc: Global, id: TxnId) -> Result<Option<Octets>, AllocError>
        ensures { IfOk result (λ held. held ≡ held_in_journal id (journal_in self.now)) }
    {
        let journal = self.journal(alloc)?;
        if journal.number() == id.pharmacy() {
            copied(alloc, journal.held(id.number()))
        } else {
            Ok(None)
        }
    }

    /// A copy of the request of a number, from 1. At rest the record is read.
    pub fn request(&self, alloc: Global, number: u64) -> Result<Option<Octets>, AllocError>
        ensures { IfOk result (λ request. request ≡ request_in (journal_in self.now) number) }
    {
        let journal = self.journal(alloc)?;
        copied(alloc, journal.request(number))
    }
}

impl PayerNode {
    /// A copy of the answer that its book holds for an id. At rest the record is read.
    pub fn held(&self, alloc: Global, id: TxnId) -> Result<Option<Octets>, AllocError>
        ensures { (routes : RouteMaps) → IfOk result (λ h. h ≡ held_in_book (bytes_with routes) id (book_in self.now)) }
    {
        let reading = self.book(alloc)?;
        copied(alloc, reading.book().held(id))
    }
}

/// A copy of bytes, where there are any.
pub(crate) fn copied(alloc: Global, bytes: Option<&[u8]>) -> Result<Option<Octets>, AllocError>
    ensures { IfOk result (λ copy. copy ≡ option_copied bytes.entry) }
{
    match bytes {
        Some(bytes) => Ok(Some(Octets::copy_of(alloc, bytes)?)),
        None => Ok(None),
    }
}
