//! Nodes by name.

/// A node by its kind and its number, from 1 (own). The number 0 is of nobody.
#[derive(Clone, Copy, Debug, PartialEq, Eq, Hash)]
pub enum Node {
    /// A pharmacy, which submits requests and keeps a journal of them.
    Pharmacy(u16),
    /// A switch, which forwards requests and sends answers back.
    Switch(u16),
    /// A payer, the processor that keeps a book of the answers that it gave.
    Payer(u16),
}
