//! What is asked of the folder of a log.

ghost use Rattle.std.specs.Prelude.{◌≡◌, ◌∷◌, is_ok, IfOk, OnErr};
ghost use Rattle.log_folder.specs.Deeds.{Failed, Marked, Opened, Locked, Named, Found, MadeNext, KeptEnd, Cut, Append, Sync, Linked, SyncNames, Exchanged};

use std::alloc::Global;
use std::io;

/// The folder of one log: its file, the files beside it, and their names. Whatever a call answers, it is noted as a deed.
pub trait Folder {
    ghost use Rattle.std.specs.Prelude.{List};
    ghost use Rattle.log_folder.specs.Deeds.{Deed};

    /// What was asked of it so far, the newest first.
    ghost deeds: { Self → List Deed };

    /// Whether the mark of a sync that failed stands beside the log.
    fn is_marked(&mut self) -> io::Result<bool>
        ensures seen { IfOk result (λ stands. deeds self.new ≡ Marked stands ∷ deeds self.old) }
        ensures failed { OnErr result (deeds self.new ≡ Failed ∷ deeds self.old) };

    /// Opens the file of the log, to read and to append.
    fn open(&mut self) -> io::Result<()>
        ensures { deeds self.new ≡ Opened (is_ok result) ∷ deeds self.old };

    /// The same, and makes it where it is not there.
    fn open_or_make(&mut self) -> io::Result<()>
        ensures { deeds self.new ≡ Opened (is_ok result) ∷ deeds self.old };

    /// Locks the file for this process; `false` where another has it.
    fn lock(&mut self) -> io::Result<bool>
        ensures got { IfOk result (λ got. deeds self.new ≡ Locked got ∷ deeds self.old) }
        ensures failed { OnErr result (deeds self.new ≡ Failed ∷ deeds self.old) };

    /// Whether the log's name is still that of the file that was opened.
    fn has_name(&mut self) -> io::Result<bool>
        ensures seen { IfOk result (λ still. deeds self.new ≡ Named still ∷ deeds self.old) }
        ensures failed { OnErr result (deeds self.new ≡ Failed ∷ deeds self.old) };

    /// All bytes of the file.
    fn read(&mut self, alloc: Global) -> io::Result<Vec<u8>>
        ensures found { IfOk result (λ bytes. deeds self.new ≡ Found bytes.items ∷ deeds self.old) }
        ensures failed { OnErr result (deeds self.new ≡ Failed ∷ deeds self.old) };

    /// Makes a file of these bytes beside the log, which is to be the next one, and has it on disk.
    fn make_next(&mut self, bytes: &[u8]) -> io::Result<()>
        ensures { deeds self.new ≡ MadeNext bytes.now (is_ok result) ∷ deeds self.old };

    /// Keeps what stands in the file after this many bytes in a new file beside it, which is on disk with its name then.
    fn keep_end(&mut self, size: u64) -> io::Result<()>
        ensures { deeds self.new ≡ KeptEnd size (is_ok result) ∷ deeds self.old };

    /// Cuts the file after this many bytes.
    fn cut(&mut self, size: u64) -> io::Result<()>
        ensures { deeds self.new ≡ Cut size (is_ok result) ∷ deeds self.old };

    /// Appends bytes to the file.
    fn append(&mut self, bytes: &[u8]) -> io::Result<()>
        ensures { deeds self.new ≡ Append bytes.now (is_ok result) ∷ deeds self.old };

    /// Has the file on disk as it is. Where that fails, a mark stays beside it.
    fn sync(&mut self) -> io::Result<()>
        ensures { deeds self.new ≡ Sync (is_ok result) ∷ deeds self.old };

    /// Gives the file a second name, that of a log that was closed with this many calls.
    fn link(&mut self, calls: u64) -> io::Result<()>
        ensures { deeds self.new ≡ Linked calls (is_ok result) ∷ deeds self.old };

    /// Has the names of the folder on disk as they are. Where that fails, a mark stays beside the log.
    fn sync_names(&mut self) -> io::Result<()>
        ensures { deeds self.new ≡ SyncNames (is_ok result) ∷ deeds self.old };

    /// Gives the log's name to the next file.
    fn exchange(&mut self) -> io::Result<()>
        ensures { deeds self.new ≡ Exchanged (is_ok result) ∷ deeds self.old };
}
