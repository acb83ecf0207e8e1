//! Logs that are read.

ghost use Rattle.std.specs.Prelude.{◌≡◌, ◌∷◌, IfOk, IsTrue, OnErr, OnOk};

use log_turning::WholeFault;

/// Logs by their places in a list of names. What was read of them is noted.
pub trait Logs {
    ghost use Rattle.std.specs.Prelude.{Bool, List, ℕ};

    /// What was read so far, the newest first.
    ghost found: { Self → List (List ℕ) };

    /// Whether a log could not be read.
    ghost has_failed: { Self → Bool };

    /// The log at a place; where it goes on after closed ones, all of them as one.
    ///
    /// # Errors
    /// A file could not be read, or the logs do not go on one after another.
    fn read(&mut self, place: usize) -> Result<Vec<u8>, WholeFault>
        ensures read { IfOk result (λ bytes. found self.new ≡ bytes.items ∷ found self.old) }
        ensures works { OnOk result (has_failed self.new ≡ has_failed self.old) }
        ensures kept { OnErr result (found self.new ≡ found self.old) }
        ensures fails { OnErr result (IsTrue (has_failed self.new)) };
}
