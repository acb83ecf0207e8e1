//! Why a transaction is rejected, as it is told.

ghost use Rattle.std.specs.Prelude.{◌≡◌, [], ◌∷◌};
ghost use Rattle.message_parts.specs.Causes.{code_for};
ghost use Rattle.message_words.specs.Facts.{fact_seen, given_row};
ghost use Rattle.message_parts.specs.Found.{found_seen};
ghost use Rattle.message_words.specs.RequestWords.{beyond, rejected, told_said};
ghost use Rattle.message_words.specs.Sayings.{Finds};

use crate::facts::Fact;
use crate::finding_page::FindingPage;
use crate::sentences::{REJECTED_NOTHING, REJECTED_ONE, REJECTED_SEVERAL, Sentence};
use message_parts::{FieldName, Found, code_for};

/// A cause as it is told, but for what stands in its field: what is wanted there, and whether an answer tells it.
#[derive(Clone, Copy)]
pub(crate) struct CauseTold {
    pub(crate) field: FieldName,
    pub(crate) wanted: &'static str,
    pub(crate) is_told: bool,
}

impl FindingPage {
    /// Writes a cause as it is told, where this was found.
    pub(crate) fn cause_told(&mut self, transaction: u64, told: CauseTold, found: Found<'_>)
        ensures { Finds (told_said transaction (code_for told.field) told.field (found_seen found.entry) told.wanted.now
            told.is_told ∷ []) self.old self.new }
    {
        match found {
            Found::Nothing => self.rejected(REJECTED_NOTHING, transaction, told, b""),
            Found::One(value) => self.rejected(REJECTED_ONE, transaction, told, value),
            Found::Several => self.rejected(REJECTED_SEVERAL, transaction, told, b""),
        }
    }

    /// Writes a cause of this value in this sentence.
    fn rejected(&mut self, sentence: Sentence, transaction: u64, told: CauseTold, value: &[u8])
        ensures { Finds (rejected (given_row sentence.entry) transaction (code_for told.field) told.field value.now
            told.wanted.now told.is_told ∷ []) self.old self.new }
    {
        let code = code_for(told.field);
        let named = told.field.named();
        self.tell(
            sentence,
            &[
                Fact::Number(transaction),
                Fact::Printed(code.text()),
                Fact::Words(code.name().as_bytes()),
                Fact::Words(named.number.as_bytes()),
                Fact::Words(named.key.as_bytes()),
                Fact::Words(named.name.as_bytes()),
                Fact::Printed(value),
                Fact::Words(told.wanted.as_bytes()),
                beyond(told.is_told),
            ],
        );
    }
}

/// That no answer tells the cause, where none does.
fn beyond(is_told: bool) -> Fact<'static>
    ensures { fact_seen result ≡ beyond is_told }
{
    if is_told {
        Fact::Either(b"", b"")
    } else {
        Fact::Either(
            b",\"told\":\"beyond the first five\"",
            b"; not among the five that an answer tells",
        )
    }
}
