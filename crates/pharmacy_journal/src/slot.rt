//! Entries of a journal, open or settled.

ghost use Rattle.std.specs.Prelude.{◌≡◌, IsSome};
ghost use Rattle.claim_profile.specs.Readable.{readable_header};
ghost use Rattle.pharmacy_journal.specs.Entries.{kept_of};

use crate::transaction::{OpenTxn, SettledTxn};

/// An entry.
#[derive(Drop)]
pub(crate) enum Slot {
    Waiting(OpenTxn),
    Settled(SettledTxn),
}

impl Slot {
    /// The request's bytes.
    pub(crate) fn request(&self) -> &[u8]
        ensures value { result.now ≡ (kept_of self.now).request }
        ensures readable { IsSome (readable_header result.now) }
    {
        match self {
            Slot::Waiting(txn) => txn.request(),
            Slot::Settled(txn) => txn.request(),
        }
    }
}
