//! What a run left, as tables: the payments of all books, the entries of all journals, the rows of all books, and every
//! packet that was sent.

pub(crate) mod claims;
pub(crate) mod columns;
pub(crate) mod counted;
pub(crate) mod counting;
pub(crate) mod entries;
pub(crate) mod kinds;
pub(crate) mod laws;
pub(crate) mod packets;
pub(crate) mod payments;
pub(crate) mod rows;
pub(crate) mod senders;
pub(crate) mod table;
