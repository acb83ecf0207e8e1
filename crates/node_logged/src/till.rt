//! The till of a caller at a pharmacy.

ghost use Rattle.std.specs.Prelude.{◌≡◌, [], OnOk, OnErr};
ghost use Rattle.std.specs.Option.{option_copied};
ghost use Rattle.node_logged.specs.Tills.{has_receipt, answer_heard, with_receipt, with_answer};
ghost use Rattle.node_logged.specs.Ledgers.{receipts_of};
ghost use Rattle.node_logged.specs.TillSeen.{till_seen, HasRoom};

use indexmap::IndexMap;
use indexmap::map::Slice;
use octets::Octets;
use std::alloc::{AllocError, Global};

mod receipt;

pub use receipt::Receipt;

/// One caller's receipts at one pharmacy, in the order of its submissions, and the answers that it heard (own). A caller
/// has as many tills as it wants, and a pharmacy those of many callers.
#[derive(Drop)]
pub struct Till {
    pharmacy: u16,
    receipts: Vec<Receipt>,
    /// The answers by number, in the order in which they were heard.
    heard: IndexMap<u64, Octets>,
}

impl Till {
    /// A till of this pharmacy, with no receipt and nothing heard. The tills of a running system come from `System::till`;
    /// this one is for who judges logs that were recorded elsewhere.
    pub fn new(alloc: Global, pharmacy: u16) -> Till
        ensures { till_seen result ≡ record { pharmacy = pharmacy; receipts = []; heard = [] } }
    {
        Till {
            pharmacy,
            receipts: Vec::new(alloc),
            heard: IndexMap::new(alloc),
        }
    }

    /// Makes room for one receipt, so that adding it cannot fail after a step. Of what the till has nothing changes.
    pub fn reserve(&mut self) -> Result<(), AllocError>
        ensures same { till_seen self.new ≡ till_seen self.old }
        ensures room { OnOk result (HasRoom self.new) }
    {
        self.receipts.reserve(1)
    }

    /// Adds a receipt, in room that was made before.
    pub fn add(&mut self, number: u64, request: Octets)
        requires { HasRoom self.old }
        ensures { till_seen self.new ≡ with_receipt number request (till_seen self.old) }
    {
        self.receipts.push_reserved(Receipt::new(number, request));
    }

    /// The pharmacy's number.
    pub fn pharmacy(&self) -> u16
        ensures { result ≡ self.now.pharmacy }
    {
        self.pharmacy
    }

    /// The receipts, in the order of the submissions.
    pub fn receipts(&self) -> &[Receipt]
        ensures { result.now ≡ (till_seen self.now).receipts }
    {
        self.receipts.as_slice()
    }

    /// The receipts, of a till of this pharmacy; none of another till.
    pub(crate) fn receipts_of(&self, pharmacy: u16) -> &[Receipt]
        ensures { result.now ≡ receipts_of pharmacy (till_seen self.now) }
    {
        if self.pharmacy == pharmacy {
            self.receipts.as_slice()
        } else {
            &[]
        }
    }

    /// The answers that were heard, each with its number, in the order in which they were heard.
    pub(crate) fn heard(&self) -> Slice<'_, u64, Octets>
        ensures { result ≡ (till_seen self.now).heard }
    {
        self.heard.as_slice()
    }

    /// Whether there is a receipt with this number.
    ///
    /// The numbers of one journal rise, so a search by halves finds those that are there; only for a number that is not
    /// found so are all receipts looked at.
    pub fn has(&self, number: u64) -> bool
        ensures { result ≡ has_receipt number (till_seen self.now) }
    {
        let receipts = self.receipts.as_slice();
        let place = receipts.partition_point(|receipt| receipt.number() < number);
        if place < receipts.len() && receipts[place].number() == number {
            return true;
        }
        receipts.iter().any(|receipt| receipt.number() == number)
    }

    /// The answer that was heard for this number.
    pub fn answer(&self, number: u64) -> Option<&[u8]>
        ensures { option_copied result ≡ answer_heard number (till_seen self.now) }
    {
        match self.heard.get(&number) {
            Some(answer) => Some(answer.as_slice()),
            None => None,
        }
    }

    /// Keeps the answer that was heard for a number. What was heard first stays.
    ///
    /// # Errors
    /// Memory was refused. The till is then as it was.
    pub fn hear(&mut self, number: u64, answer: Octets) -> Result<(), AllocError>
        ensures heard { OnOk result (till_seen self.new ≡ with_answer number answer (till_seen self.old)) }
        ensures refused { OnErr result (till_seen self.new ≡ till_seen self.old) }
    {
        if self.heard.contains_key(&number) {
            return Ok(());
        }
        drop(self.heard.insert(number, answer)?);
        Ok(())
    }
}
