//! What goes through an inbox by one pass.

use crate::inbox::mail::Mail;
use std::collections::LinkedList;

/// What a pass has put and what it has taken, each in order. No value of it is made: it stands in contracts alone.
pub struct Traffic {
    /// What the pass has put.
    pub put: LinkedList<Mail>,
    /// What the pass has taken.
    pub taken: LinkedList<Mail>,
}
