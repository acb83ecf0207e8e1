//! Making what a request changes among the payments.

ghost use Rattle.std.specs.Prelude.{◌≡◌, ◌+◌, ◌≤◌, length};
ghost use Rattle.payer_book.specs.Changes.{payments_with, payments_after, IsPossible, ArePossible};

use crate::book::payments::Payments;
use crate::ruling::changes::Change;
use envelope::TxnId;

impl Payments {
    /// Makes the changes of the request of that id, in order. There is room for them, and each can be made.
    pub(crate) fn enter(&mut self, id: TxnId, changes: &[Change])
        requires room { length changes.now ≤ self.old.room }
        requires possible { ArePossible self.old.payer self.old.first id self.old.payments changes.now }
        ensures same { (self.new.payer ≡ self.old.payer) × (self.new.first ≡ self.old.first) }
        ensures payments { self.new.payments ≡ payments_after id self.old.payments changes.now }
    {
        if let Some((first, later)) = changes.split_first() {
            self.enter_one(id, first);
            self.enter(id, later);
        }
    }

    /// Makes a change of the request of that id.
    fn enter_one(&mut self, id: TxnId, change: &Change)
        requires room { 1 ≤ self.old.room }
        requires possible { IsPossible self.old.payer self.old.first self.old.payments change.now }
        ensures same { (self.new.payer ≡ self.old.payer) × (self.new.first ≡ self.old.first) }
        ensures payments { self.new.payments ≡ payments_with id self.old.payments change.now }
        ensures room { self.old.room ≤ self.new.room + 1 }
    {
        match change {
            Change::Pays(payment) => self.push(payment.copy()),
            Change::Reverses(auth) => self.reverse(*auth, id),
            Change::Keeps => {}
        }
    }
}
