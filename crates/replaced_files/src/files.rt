//! What is asked of files.

ghost use Rattle.std.specs.Prelude.{◌≡◌, ◌∷◌, is_ok, IfOk, OnErr};
ghost use Rattle.replaced_files.specs.Deeds.{Failed, Taken, Copied, Exchanged, SyncedNames};

use std::io;

/// Files by their places in a list of names, the files beside them, and their folders. Whatever a call answers, it is noted as a deed.
pub trait Files {
    ghost use Rattle.std.specs.Prelude.{List};
    ghost use Rattle.replaced_files.specs.Deeds.{Deed};

    /// What was asked of them so far, the newest first.
    ghost deeds: { Self → List Deed };

    /// Opens the file at a place, and locks it for this process; `false` where another has it.
    fn take(&mut self, place: usize) -> io::Result<bool>
        ensures got { IfOk result (λ got. deeds self.new ≡ Taken place got ∷ deeds self.old) }
        ensures failed { OnErr result (deeds self.new ≡ Failed place ∷ deeds self.old) };

    /// Makes a file of these bytes beside the one at a place, for whom that is, and has it on disk.
    fn copy(&mut self, place: usize, bytes: &[u8]) -> io::Result<()>
        ensures { deeds self.new ≡ Copied place bytes.now (is_ok result) ∷ deeds self.old };

    /// Gives the name of the file at a place to the file that was made beside it.
    fn exchange(&mut self, place: usize) -> io::Result<()>
        ensures { deeds self.new ≡ Exchanged place (is_ok result) ∷ deeds self.old };

    /// Has the names of the folder of the file at a place on disk as they are.
    fn sync_names(&mut self, place: usize) -> io::Result<()>
        ensures { deeds self.new ≡ SyncedNames place (is_ok result) ∷ deeds self.old };
}
