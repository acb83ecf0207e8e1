//! What is told of tables.

ghost use Rattle.std.specs.Prelude.{◌≡◌, true};

/// What is told of tables, as CSV, and whether that is good.
#[derive(Drop)]
pub struct Reported {
    /// The table.
    pub text: Vec<u8>,
    /// Of what has two sides, whether nothing differs but what may still be on its way; else true.
    pub good: bool,
}

impl Reported {
    /// A table that has no sides.
    pub(crate) fn plain(text: Vec<u8>) -> Reported
        ensures text { result.text ≡ text }
        ensures good { result.good ≡ true }
    {
        Reported { text, good: true }
    }
}
