//! What the process of a node asks of the system.

ghost use Rattle.std.specs.Prelude.{◌≡◌, ◌≤◌, ◌<◌, ◌∷◌, length, take, is_ok, IfOk, OnErr};
ghost use Rattle.std.specs.Io.KnownBytes.{IsAtEnd};
ghost use Rattle.node_process.specs.Acts.{Found, Unread, Cut, Append, Sync, Say, Hear, Unheard};

use std::alloc::Global;
use std::io;

/// The system: the log in its file, an input and an output. Whatever a call answers, it is noted as an act.
pub trait Machine {
    ghost use Rattle.std.specs.Prelude.{ℕ, List, Option};
    ghost use Rattle.node_process.specs.Acts.{Act};

    /// What was asked of it so far, the newest first.
    ghost acts: { Self → List Act };

    /// What is still to come of its input, where that is known.
    ghost coming: { Self → Option (List ℕ) };

    /// All bytes of the log.
    fn read(&mut self, alloc: Global) -> io::Result<Vec<u8>>
        ensures found { IfOk result (λ bytes. acts self.new ≡ Found bytes.items ∷ acts self.old) }
        ensures failed { OnErr result (acts self.new ≡ Unread ∷ acts self.old) };

    /// Cuts the log off after this many bytes.
    fn cut(&mut self, size: usize) -> io::Result<()>
        ensures { acts self.new ≡ Cut size (is_ok result) ∷ acts self.old };

    /// Appends bytes to the log.
    fn append(&mut self, bytes: &[u8]) -> io::Result<()>
        ensures { acts self.new ≡ Append bytes.now (is_ok result) ∷ acts self.old };

    /// Has the log on disk as it is.
    fn sync(&mut self) -> io::Result<()>
        ensures { acts self.new ≡ Sync (is_ok result) ∷ acts self.old };

    /// Writes bytes to the output.
    fn say(&mut self, bytes: &[u8]) -> io::Result<()>
        ensures { acts self.new ≡ Say bytes.now (is_ok result) ∷ acts self.old };

    /// Reads some bytes of the input, for which there has to be room; none where it has ended.
    fn hear(&mut self, buffer: &mut [u8]) -> io::Result<usize>
        requires { 0 < length buffer.old }
        ensures bound { IfOk result (λ count. count ≤ length buffer.old) }
        ensures heard { IfOk result (λ count. acts self.new ≡ Hear (take count buffer.new) ∷ acts self.old) }
        ensures ended { IfOk result (λ count. count ≡ 0 → IsAtEnd (coming self.new)) }
        ensures failed { OnErr result (acts self.new ≡ Unheard ∷ acts self.old) };
}
