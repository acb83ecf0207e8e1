//! A node in its host's hands: what it tells waits for what the host says to be on disk.

ghost use Rattle.std.specs.Prelude.{◌≡◌, ◌+◌, ◌<◌, ℕ, ◌^◌, ◌++◌, List, [], ◌∷◌, length, true, false, OnOk, IfOk, IfErr};
ghost use Rattle.node_service.specs.Serving.{Serving, after_line};
ghost use Rattle.node_handle.specs.declared.refusal.Refusal.TheVariants.{Unsynced};
ghost use Rattle.node_handle.specs.Calls.{ClearsWords, KeepsBytes};
ghost use Rattle.node_handle.specs.Hosting.{Hosting, bytes_kept, is_settled, just_opened, line_served, may_write, recording, words_cleared};
ghost use Rattle.node_handle.specs.InOrder.{AreInOrder, all_of, on_disk};
ghost use Rattle.node_handle.specs.Waiting.{told};

use crate::refusal::Refusal;
use crate::waiting::{WaitingWords, shed};
use node_service::Service;
use std::alloc::{AllocError, Global};
use std::marker::Model;

/// A node, and what its host has said to be on disk. Nothing but an answer that a payer gave can be told of a node that was just
/// opened, or of a call, until its host has said so of all bytes that stand before it and of its own.
#[derive(Drop)]
pub struct Hosted {
    /// What it has in its lists of records and of words is the last line's, and stands below as well.
    service: Service,
    /// How many calls closed logs have, after which its own goes on.
    closed: u64,
    /// The records that the host has not said to be on disk.
    records: Vec<u8>,
    /// How many bytes of records came before those.
    kept: usize,
    /// Whether the host has said that what the node was opened from is on disk.
    synced: bool,
    /// What is to be written, each behind its records, counted from the first that ever were.
    words: WaitingWords,
}

impl Model for Hosted {
    ghost use Rattle.std.specs.Prelude.{◌+◌, ◌<◌, ◌^◌, length};
    ghost use Rattle.node_handle.specs.Hosting.{Hosting, recording};
    ghost use Rattle.node_handle.specs.Waiting.{all_lowered};

    ghost Value = { Hosting };

    ghost view = { λ h. record {
      closed = h.closed;
      serving = recording h.service h.records.items;
      synced = h.synced;
      words = all_lowered h.kept h.words;
    } };

    ghost invariant = { λ h. (h.kept + length h.records.items < 2 ^ 64) × (h.closed + h.service.calls < 2 ^ 64) };
}

impl Hosted {
    /// A node that was just opened, whose closed logs have this many calls. Its host has said nothing yet.
    ///
    /// # Errors
    /// Memory was refused, or no number says how many calls there were.
    pub(crate) fn of(alloc: Global, closed: u64, service: Service) -> Result<Hosted, AllocError>
        ensures { IfOk result (λ h. h ≡ just_opened closed service) }
    {
        if closed.checked_add(service.calls()).is_none() {
            return Err(AllocError);
        }
        let records = Vec::from_slice(alloc, service.records())?;
        Ok(Hosted {
            service,
            closed,
            records,
            kept: 0,
            synced: false,
            words: WaitingWords::new(alloc),
        })
    }

    /// Does what a line asks of the node.
    ///
    /// # Errors
    /// Memory was refused. The node may have made the call and has no record of it.
    pub(crate) fn serve(&mut self, alloc: Global, line: &[u8]) -> Result<(), AllocError>
        ensures { OnOk result (self.new ≡ line_served self.old line.now) }
    {
        self.service.clear();
        match add_line(
            alloc,
            &mut self.service,
            &mut self.records,
            &mut self.words,
            self.kept,
            self.closed,
            line,
        ) {
            Ok(()) => Ok(()),
            Err(refused) => {
                // Nobody knows what the node has by now.
                self.records.clear();
                self.kept = 0;
                self.closed = u64::MAX - self.service.calls();
                self.synced = false;
                Err(refused)
            }
        }
    }

    /// Notes that this many bytes of the records are on disk, and what stands in the file before them.
    ///
    /// # Errors
    /// `TooMany` where the records are fewer. Then nothing changes.
    pub(crate) fn keep(&mut self, size: usize) -> Result<(), Refusal>
        ensures { KeepsBytes self.old size result self.new }
    {
        if size > self.records.len() {
            return Err(Refusal::TooMany);
        }
        shed(&mut self.records, size);
        self.kept += size;
        self.synced = true;
        Ok(())
    }

    /// Forgets what may be written.
    ///
    /// # Errors
    /// `Unsynced` where nothing may be. Then nothing changes.
    pub(crate) fn clear(&mut self) -> Result<(), Refusal>
        ensures { ClearsWords self.old result self.new }
    {
        if !self.may_write() {
            return Err(Refusal::Unsynced);
        }
        self.words.clear(self.kept);
        Ok(())
    }

    /// Whether all that the node can tell of is on disk, as its host has said.
    pub(crate) fn is_settled(&self) -> bool
        ensures { result ≡ is_settled self.now }
    {
        self.synced && self.records.is_empty()
    }

    /// Whether there is nothing for which words could wait, or some wait for nothing any more.
    fn may_write(&self) -> bool
        ensures { result ≡ may_write self.now }
    {
        if !self.synced {
            return false;
        }
        if self.records.is_empty() {
            return true;
        }
        self.words.told(self.kept).len() > 0
    }

    /// What is to be appended to the log, and synced: the records that the host has not said to be on disk.
    pub(crate) fn records(&self) -> &[u8]
        ensures { result.now ≡ self.now.serving.records }
    {
        self.records.as_slice()
    }

    /// What may be written: the words of the calls, from the first on, whose records are on disk.
    ///
    /// # Errors
    /// `Unsynced` where nothing may be.
    pub(crate) fn written(&self) -> Result<&[u8], Refusal>
        ensures told { IfOk result (λ words. (may_write self.now ≡ true) × (words.now ≡ told self.now.words)) }
        ensures refused { IfErr result (λ why. (why ≡ Unsynced) × (may_write self.now ≡ false)) }
    {
        if self.may_write() {
            Ok(self.words.told(self.kept))
        } else {
            Err(Refusal::Unsynced)
        }
    }

    /// How many calls it has made, those of closed logs among them: where all is on disk.
    ///
    /// # Errors
    /// `Unsynced` where it is not.
    pub(crate) fn calls(&self) -> Result<u64, Refusal>
        ensures told { IfOk result (λ calls. (is_settled self.now ≡ true)
            × (calls ≡ self.now.closed + self.now.serving.calls)) }
        ensures refused { IfErr result (λ why. (why ≡ Unsynced) × (is_settled self.now ≡ false)) }
    {
        if self.is_settled() {
            Ok(self.closed + self.service.calls())
        } else {
            Err(Refusal::Unsynced)
        }
    }

    /// The node, to be read for what is told before it is on disk.
    pub(crate) fn unsettled(&self) -> &Service
        ensures { self.now.serving ≡ recording result.now self.now.serving.records }
    {
        &self.service
    }

    /// The node, to be read: where all is on disk.
    ///
    /// # Errors
    /// `Unsynced` where it is not.
    pub(crate) fn settled(&self) -> Result<&Service, Refusal>
        ensures settled { IfOk result (λ s. (is_settled self.now ≡ true) × (self.now.serving ≡ recording s.now [])) }
        ensures refused { IfErr result (λ why. (why ≡ Unsynced) × (is_settled self.now ≡ false)) }
    {
        if self.is_settled() {
            Ok(&self.service)
        } else {
            Err(Refusal::Unsynced)
        }
    }
}

/// Does what a line asks of a node that has nothing to append and nothing to write, and adds both to what its host has of it.
///
/// # Errors
/// Memory was refused, or no number says how many bytes of records, or calls, there were.
fn add_line(
    alloc: Global,
    service: &mut Service,
    records: &mut Vec<u8>,
    words: &mut WaitingWords,
    kept: usize,
    closed: u64,
    line: &[u8],
) -> Result<(), AllocError>
    ensures served { OnOk result (service.new ≡ after_line service.old line.now) }
    ensures records { OnOk result (records.new.items ≡ records.old.items ++ service.new.records) }
    ensures words { OnOk result (words.new
        ≡ words.old ++ record { mark = kept + length records.new.items; text = service.new.out } ∷ []) }
    ensures fits { OnOk result (kept + length records.new.items < 2 ^ 64) }
    ensures counted { OnOk result (closed + service.new.calls < 2 ^ 64) }
{
    service.serve(alloc, line)?;
    if closed.checked_add(service.calls()).is_none() {
        return Err(AllocError);
    }
    records.extend_from_slice(service.records())?;
    let Some(upto) = kept.checked_add(records.len()) else {
        return Err(AllocError);
    };
    words.add(upto, service.written())
}

/// Words wait in the order of their calls, so those that are told are those of exactly the calls whose records are on disk, and
/// where all is, they are all.
#[tactic(auto, using(crate::proofs::InOrder::opened_in_order, crate::proofs::InOrder::served_in_order, crate::proofs::InOrder::kept_in_order, crate::proofs::InOrder::cleared_in_order, crate::proofs::InOrder::on_disk_is_told, crate::proofs::InOrder::settled_tells_all))]
pub fn words_wait_for_records()
    ensures opened { (closed : ℕ) (s : Serving) → AreInOrder (just_opened closed s) }
    ensures served { (h : Hosting) (line : List ℕ) → AreInOrder h → AreInOrder (line_served h line) }
    ensures kept { (h : Hosting) (size : ℕ) → AreInOrder h → AreInOrder (bytes_kept size h) }
    ensures cleared { (h : Hosting) → AreInOrder h → AreInOrder (words_cleared h) }
    ensures told { (h : Hosting) → AreInOrder h → told h.words ≡ on_disk h.words }
    ensures all { (h : Hosting) → AreInOrder h → length h.serving.records ≡ 0 → told h.words ≡ all_of h.words }
{}
