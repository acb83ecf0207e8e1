//! The handle of a node.

ghost use Rattle.std.specs.Prelude.{◌≡◌, drop, IsSome, is_some};
ghost use Rattle.std.specs.declared.option.Option.TheVariants.{None, Some};
ghost use Rattle.node_handle.specs.Calls.{Opens, Serves, Caps, Clears, Counts, CopiesRecords, CopiesRecordsAfter, CopiesWritten, Keeps};

use crate::hosted::Hosted;
use crate::loose::Loose;
use crate::opening::opened;
use crate::part::Part;
use crate::reading::copy_out;
use crate::refusal::Refusal;
use std::alloc::Global;
use std::mem::replace;

/// The handle of a node. Its bytes lie where the caller has them; zeros are a handle with no node.
#[repr(C)]
pub struct NodeHandle {
    /// The node.
    pub part: Part,
    /// Whether there is one.
    pub held: bool,
    ghost fits: { held ≡ is_some part.node },
}

impl NodeHandle {
    /// A handle with no node.
    pub(crate) fn closed() -> NodeHandle
        ensures { result.part.node ≡ None }
    {
        let part = Part::of_nothing();
        NodeHandle { part, held: false }
    }

    /// A handle with this node.
    pub(crate) fn of(node: Box<Hosted>) -> NodeHandle
        ensures { result.part.node ≡ Some node.value }
    {
        let part = Part::from_loose(Loose::of(node));
        NodeHandle { part, held: true }
    }

    /// The node, taken out.
    pub(crate) fn take(&mut self, alloc: Global) -> Box<Hosted>
        requires { IsSome self.old.part.node }
        ensures closed { self.new.part.node ≡ None }
        ensures node { self.old.part.node ≡ Some result.value }
    {
        let NodeHandle { part, held: _ } = replace(self, NodeHandle::closed());
        part.into_loose(alloc).into_box()
    }

    /// Opens the node of this name, from the file of its log, which may go on after closed ones; and says how many bytes of the file
    /// stay. The maps of a payer's book hash with keys of this seed, sixteen bytes.
    ///
    /// # Errors
    /// `Open` where the handle has a node already, and what refuses the node. Then all is as it was.
    pub fn open(
        &mut self,
        alloc: Global,
        settings: &[u8],
        name: &[u8],
        file: &[u8],
        seed: &[u8],
        kept: &mut usize,
    ) -> Result<(), Refusal>
        ensures { Opens self.old.part.node settings.now name.now file.now result kept.old kept.new self.new.part.node }
    {
        if self.held {
            return Err(Refusal::Open);
        }
        match opened(alloc, settings, name, file, seed, kept) {
            Ok(node) => {
                self.put(node);
                Ok(())
            }
            Err(why) => Err(why),
        }
    }

    /// Puts a node where there is none.
    pub(crate) fn put(&mut self, node: Box<Hosted>)
        requires { self.old.part.node ≡ None }
        ensures { self.new.part.node ≡ Some node.value }
    {
        let NodeHandle { part, held: _ } = replace(self, NodeHandle::of(node));
        part.forget();
    }

    /// Does what a line asks of the node.
    ///
    /// # Errors
    /// `Closed` where there is no node. `OutOfMemory` closes the handle: the node may have made the call with no record.
    pub fn serve(&mut self, alloc: Global, line: &[u8]) -> Result<(), Refusal>
        ensures { Serves self.old.part.node line.now result self.new.part.node }
    {
        if !self.held {
            return Err(Refusal::Closed);
        }
        let mut node = self.take(alloc);
        match node.serve(alloc, line) {
            Ok(()) => {
                self.put(node);
                Ok(())
            }
            Err(_) => Err(Refusal::OutOfMemory),
        }
    }

    /// Lets the node go.
    pub fn close(&mut self, alloc: Global)
        ensures { self.new.part.node ≡ None }
    {
        if self.held {
            drop(self.take(alloc));
        }
    }

    /// Notes that this many bytes of the records are on disk, the first of what `records` copies, and all that stands in the
    /// log's file before them.
    ///
    /// # Errors
    /// `Closed` where there is no node, `TooMany` where the records are fewer. Then nothing changes.
    pub fn keep(&mut self, alloc: Global, size: usize) -> Result<(), Refusal>
        ensures { Keeps self.old.part.node size result self.new.part.node }
    {
        if !self.held {
            return Err(Refusal::Closed);
        }
        let mut node = self.take(alloc);
        let kept = node.keep(size);
        self.put(node);
        kept
    }

    /// Forgets what may be written, which is what `written` copies.
    ///
    /// # Errors
    /// `Closed` where there is no node, `Unsynced` where nothing may be written. Then nothing changes.
    pub fn clear(&mut self, alloc: Global) -> Result<(), Refusal>
        ensures { Clears self.old.part.node result self.new.part.node }
    {
        if !self.held {
            return Err(Refusal::Closed);
        }
        let mut node = self.take(alloc);
        let cleared = node.clear();
        self.put(node);
        cleared
    }

    /// How many calls the node's log has, and the closed ones before it.
    ///
    /// # Errors
    /// `Closed` where there is no node, `Unsynced` where not all is on disk. Then nothing changes.
    pub fn calls(&mut self, alloc: Global, calls: &mut u64) -> Result<(), Refusal>
        ensures kept { self.new.part.node ≡ self.old.part.node }
        ensures calls { Counts self.old.part.node result calls.old calls.new }
    {
        if !self.held {
            return Err(Refusal::Closed);
        }
        let node = self.take(alloc);
        let told = tell_calls(&*node, calls);
        self.put(node);
        told
    }

    /// The most entries of a pharmacy's journal, slots of a switch's table, or rows of a payer's book, as the settings say.
    ///
    /// # Errors
    /// `Closed` where there is no node, `Unsynced` where not all is on disk. Then nothing changes.
    pub fn most(&mut self, alloc: Global, most: &mut u64) -> Result<(), Refusal>
        ensures kept { self.new.part.node ≡ self.old.part.node }
        ensures most { Caps self.old.part.node result most.old most.new }
    {
        if !self.held {
            return Err(Refusal::Closed);
        }
        let node = self.take(alloc);
        let told = tell_most(&*node, most);
        self.put(node);
        told
    }

    /// Copies what is to be appended to the log: what the host has not said to be on disk.
    ///
    /// # Errors
    /// `Closed` where there is no node, `ShortBuffer`. Then the buffer is as it was.
    pub fn records(
        &mut self,
        alloc: Global,
        buffer: &mut [u8],
        size: &mut usize,
    ) -> Result<(), Refusal>
        ensures kept { self.new.part.node ≡ self.old.part.node }
        ensures copied { CopiesRecords self.old.part.node result buffer.old buffer.new size.old size.new }
    {
        if !self.held {
            return Err(Refusal::Closed);
        }
        let node = self.take(alloc);
        let copied = copy_out(node.records(), buffer, size);
        self.put(node);
        copied
    }

    /// Copies what comes after so many bytes of that: a host that has appended them, and does not know yet whether they are on
    /// disk, appends these meanwhile.
    ///
    /// # Errors
    /// `Closed` where there is no node, `ShortBuffer`. Then the buffer is as it was.
    pub fn records_after(
        &mut self,
        alloc: Global,
        passed: usize,
        buffer: &mut [u8],
        size: &mut usize,
    ) -> Result<(), Refusal>
        ensures kept { self.new.part.node ≡ self.old.part.node }
        ensures copied { CopiesRecordsAfter passed self.old.part.node result buffer.old buffer.new size.old size.new }
    {
        if !self.held {
            return Err(Refusal::Closed);
        }
        let node = self.take(alloc);
        let copied = copy_out(after(node.records(), passed), buffer, size);
        self.put(node);
        copied
    }

    /// Copies what may be written: the words of the calls, from the first on, of which the host has said that all records are
    /// on disk, and those of the calls before them; of no other call.
    ///
    /// # Errors
    /// `Closed` where there is no node; `Unsynced` where what the node was opened from is not known to be on disk, or where there
    /// are records that are not, and each call waits for some; `ShortBuffer`. Then the buffer is as it was.
    pub fn written(
        &mut self,
        alloc: Global,
        buffer: &mut [u8],
        size: &mut usize,
    ) -> Result<(), Refusal>
        ensures kept { self.new.part.node ≡ self.old.part.node }
        ensures copied { CopiesWritten self.old.part.node result buffer.old buffer.new size.old size.new }
    {
        if !self.held {
            return Err(Refusal::Closed);
        }
        let node = self.take(alloc);
        let copied = give_written(&*node, buffer, size);
        self.put(node);
        copied
    }
}

/// Tells how many calls a node's logs have, where all is on disk.
fn tell_calls(node: &Hosted, calls: &mut u64) -> Result<(), Refusal>
    ensures { Counts (Some node.now) result calls.old calls.new }
{
    match node.calls() {
        Ok(all) => {
            *calls = all;
            Ok(())
        }
        Err(why) => Err(why),
    }
}

/// Tells the most entries, slots or rows that a node may have, where all is on disk.
fn tell_most(node: &Hosted, most: &mut u64) -> Result<(), Refusal>
    ensures { Caps (Some node.now) result most.old most.new }
{
    match node.settled() {
        Ok(service) => {
            *most = u64::from(service.most());
            Ok(())
        }
        Err(why) => Err(why),
    }
}

/// Copies what a node may write.
fn give_written(node: &Hosted, buffer: &mut [u8], size: &mut usize) -> Result<(), Refusal>
    ensures { CopiesWritten (Some node.now) result buffer.old buffer.new size.old size.new }
{
    match node.written() {
        Ok(words) => copy_out(words, buffer, size),
        Err(why) => Err(why),
    }
}

/// The bytes after so many of them.
fn after(bytes: &[u8], passed: usize) -> &[u8]
    ensures { result.now ≡ drop passed bytes.now }
{
    match bytes.get(passed..) {
        Some(more) => more,
        None => &[],
    }
}
