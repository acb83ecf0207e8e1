//! What a payer's own system says to a request.

ghost use Rattle.std.specs.Prelude.{◌≡◌};
ghost use Rattle.std.specs.Option.{option_copied};
ghost use Rattle.claim_model.specs.Book.{unadvised};
ghost use Rattle.claim_model.specs.Laws.{AdvisesWell};
ghost use Rattle.payer_book.specs.Advices.{advice_seen, given};

use claim_profile::Ruling;

/// The rulings of an advice, and the bytes in which they stand.
#[derive(Clone, Copy)]
pub(crate) struct Advice<'a> {
    pub(crate) rulings: &'a [Ruling],
    pub(crate) text: &'a [u8],
}

impl Advice<'_> {
    /// No advice.
    pub(crate) fn none() -> Advice<'static>
        ensures value { advice_seen result ≡ unadvised }
        ensures well { AdvisesWell (advice_seen result).rulings }
    {
        Advice {
            rulings: &[],
            text: &[],
        }
    }
}

impl<'a> Advice<'a> {
    /// Its bytes, where it has any.
    pub(crate) fn given(self) -> Option<&'a [u8]>
        ensures { option_copied result ≡ given self.entry.text.now }
    {
        if self.text.is_empty() {
            None
        } else {
            Some(self.text)
        }
    }
}
