//! Numbers, texts and lists, put after what is written already; numbers have their high byte first (own).

ghost use Rattle.std.specs.Prelude.{◌≡◌, ◌++◌, OnOk};
ghost use Rattle.std.specs.List.{AllByRecursion, flat_map};
ghost use Rattle.kept_logs.specs.Fields.{text_of};
ghost use Rattle.settings_digest.specs.Said.{number_text, list_text};
ghost use Rattle.settings_digest.specs.Fits.{FitsNumber, FitsText, FitsList};

use codec::put_u64;
use std::alloc::AllocError;

/// What settings say of one thing.
pub(crate) trait Say {
    ghost use Rattle.std.specs.Prelude.{ℕ, List};

    /// The text.
    ghost text: { Self → List ℕ };

    /// That its numbers are numbers of a machine.
    ghost Fits: { Self → Type 0 };

    /// Puts the text.
    fn say(&self, out: &mut Vec<u8>) -> Result<(), AllocError>
        ensures text { OnOk result (out.new.items ≡ out.old.items ++ text self.now) }
        ensures fits { OnOk result (Fits self.now) };
}

impl Say for u16 {
    ghost text = { λ number. number_text number };

    ghost Fits = { λ number. FitsNumber number };

    fn say(&self, out: &mut Vec<u8>) -> Result<(), AllocError> {
        put_number(out, u64::from(*self))
    }
}

/// Puts a number.
#[tactic(auto, unfolding(crate::specs::Said::number_text))]
pub(crate) fn put_number(out: &mut Vec<u8>, number: u64) -> Result<(), AllocError>
    ensures text { OnOk result (out.new.items ≡ out.old.items ++ number_text number) }
    ensures fits { FitsNumber number }
{
    put_u64(out, number)
}

/// Puts a text after its length.
#[tactic(auto, unfolding(kept_logs::specs::Fields::text_of))]
pub(crate) fn put_text(out: &mut Vec<u8>, text: &[u8]) -> Result<(), AllocError>
    ensures text { OnOk result (out.new.items ≡ out.old.items ++ text_of text.now) }
    ensures fits { FitsText text.now }
{
    put_u64(out, text.len() as u64)?;
    out.extend_from_slice(text)
}

/// Puts a list after its length.
#[tactic(auto, unfolding(crate::specs::Said::list_text))]
pub(crate) fn put_list<T: Say>(out: &mut Vec<u8>, items: &[T]) -> Result<(), AllocError>
    ensures text { OnOk result (out.new.items ≡ out.old.items ++ list_text T.text items.now) }
    ensures fits { OnOk result (FitsList T.Fits items.now) }
{
    put_number(out, items.len() as u64)?;
    put_items(out, items)
}

/// Puts the items of a list, one after the other.
fn put_items<T: Say>(out: &mut Vec<u8>, items: &[T]) -> Result<(), AllocError>
    ensures text { OnOk result (out.new.items ≡ out.old.items ++ flat_map T.text items.now) }
    ensures fits { OnOk result (AllByRecursion T.Fits items.now) }
{
    for item in items {
        item.say(out)?;
    }
    Ok(())
}
