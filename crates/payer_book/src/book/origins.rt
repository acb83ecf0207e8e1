//! Where the payments of a book were ruled, for answers that repeat what an earlier one carried.

ghost use Rattle.std.specs.Prelude.{◌≡◌, ◌+◌, ◌≤◌, ◌++◌, length, vec_len, vec_capacity};
ghost use Rattle.payer_book.specs.Origins.{origins_by};

use crate::ruling::changes::Change;
use envelope::TxnId;

/// Where a payment was ruled: the id of its request, and its place there, from 1.
#[derive(Clone, Copy)]
pub(crate) struct Origin {
    pub(crate) id: TxnId,
    pub(crate) place: usize,
}

/// Adds where the payments among the changes of the request of an id are ruled, in room that was made before.
pub(crate) fn enter_origins(origins: &mut Vec<Origin>, id: TxnId, changes: &[Change])
    requires room { vec_len origins.old + length changes.now ≤ vec_capacity origins.old }
    ensures { origins.new.items ≡ origins.old.items ++ origins_by id 1 changes.now }
{
    for index in 0..changes.len() {
        if changes[index].pays() {
            origins.push_reserved(Origin {
                id,
                place: index + 1,
            });
        }
    }
}
