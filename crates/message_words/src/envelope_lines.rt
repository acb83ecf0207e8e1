//! What a message is as an envelope, as it is told.

ghost use Rattle.std.specs.Prelude.{◌≡◌, [], ◌∷◌};
ghost use Rattle.message_words.specs.Facts.{Number, given_row, says_of};
ghost use Rattle.message_words.specs.FaultWords.{carries_said, envelope_said, envelope_told, no_envelope, no_envelope_said, told_seen};
ghost use Rattle.message_words.specs.Sayings.{Finds};

use crate::facts::Fact;
use crate::fault_lines::Told;
use crate::finding_page::FindingPage;
use crate::sentences::{CARRIES_ANSWER, CARRIES_REQUEST, NO_ENVELOPE, OTHER_LENGTH, Sentence};
use envelope::{Envelope, EnvelopeFault, Kind, TxnId};

impl FindingPage {
    /// Writes what an envelope is, or why the message is none.
    #[tactic(auto, unfolding(crate::specs::FaultWords::envelope_said), using(crate::proofs::Envelopes::anywhere))]
    pub(crate) fn envelope(&mut self, bytes: &[u8])
        ensures { Finds (envelope_said bytes.now ∷ []) self.old self.new }
    {
        match Envelope::read(bytes) {
            Ok(envelope) => self.opened(envelope.kind(), envelope.id()),
            Err(fault) => self.envelope_fault(fault),
        }
    }

    /// Writes what an envelope carries.
    fn opened(&mut self, kind: Kind, id: TxnId)
        ensures { Finds (carries_said kind id ∷ []) self.old self.new }
    {
        match kind {
            Kind::Request => self.carries(CARRIES_REQUEST, id),
            Kind::Answer => self.carries(CARRIES_ANSWER, id),
        }
    }

    /// Writes the transaction of an envelope.
    fn carries(&mut self, sentence: Sentence, id: TxnId)
        ensures { Finds (says_of (given_row sentence.entry) (Number id.number ∷ Number id.pharmacy ∷ []) ∷ [])
            self.old self.new }
    {
        self.tell(
            sentence,
            &[
                Fact::Number(id.number()),
                Fact::Number(u64::from(id.pharmacy())),
            ],
        );
    }

    /// Writes why a message is no envelope.
    fn envelope_fault(&mut self, fault: EnvelopeFault)
        ensures { Finds (no_envelope_said fault ∷ []) self.old self.new }
    {
        match fault {
            EnvelopeFault::Length { said, found } => self.tell(
                OTHER_LENGTH,
                &[Fact::Number(u64::from(said)), Fact::Number(found as u64)],
            ),
            _ => self.no_envelope(envelope_told(fault)),
        }
    }

    /// Writes a fault of an envelope.
    fn no_envelope(&mut self, told: Told)
        ensures { Finds (no_envelope (told_seen told) ∷ []) self.old self.new }
    {
        self.tell(
            NO_ENVELOPE,
            &[
                Fact::Words(told.name.as_bytes()),
                Fact::Words(told.words.as_bytes()),
            ],
        );
    }
}

/// A fault of an envelope.
fn envelope_told(fault: EnvelopeFault) -> Told
    ensures { told_seen result ≡ envelope_told fault }
{
    match fault {
        EnvelopeFault::Short => Told::of("Short", "it is shorter than the 18 bytes of a head"),
        EnvelopeFault::NotEnvelope => Told::of("NotEnvelope", "it does not begin with PS"),
        EnvelopeFault::Version => Told::of("Version", "its version is not 1"),
        EnvelopeFault::Kind => Told::of("Kind", "its kind is neither 1 nor 2"),
        EnvelopeFault::ZeroNumber => {
            Told::of("ZeroNumber", "its pharmacy or its number is zero")
        }
        EnvelopeFault::Length { said: _, found: _ } | EnvelopeFault::TooLong => {
            Told::of("TooLong", "it carries more than 32,768 bytes")
        }
    }
}
