//! What the answer to a duplicate repeats of the answer to the payment before it.

ghost use Rattle.std.specs.Prelude.{◌≡◌, true, length, map, slice_get, IfOk};
ghost use Rattle.std.specs.Option.{option_map};
ghost use Rattle.claim_profile.specs.declared.ruling.HeaderStatus.TheVariants.{Accepted};
ghost use Rattle.claim_profile.specs.Answer.{AreWritable, answer_text};
ghost use Rattle.carried_fields.specs.Repeating.{repeated_seen, repeating_text};
ghost use Rattle.claim_model.specs.Payments.{payment_of};
ghost use Rattle.claim_model.specs.Rows.{ruled_rows};
ghost use Rattle.claim_model.specs.Book.{carries_more, answered_at, repeated_by};
ghost use Rattle.payer_book.specs.Books.{reading};
ghost use Rattle.payer_book.specs.Origins.{origin_of, repeated_in};

use crate::book::Book;
use crate::book::origins::Origin;
use carried_fields::{Repeated, write_repeating};
use claim_profile::{Auth, HeaderStatus, Ruling, write_answer};
use d0_header::RequestHeader;
use std::alloc::{AllocError, Global};

impl Book {
    /// The text of which the answer to a request of this header carries where there is no advice: that answer, in which the
    /// groups of duplicates are those of the answers to their payments. Nothing where there is no duplicate of a row's payment.
    pub(crate) fn repeating(
        &self,
        alloc: Global,
        header: &RequestHeader,
        rulings: &[Ruling],
    ) -> Result<Vec<u8>, AllocError>
        requires carries { carries_more self.now.settings ≡ true }
        requires count { length rulings.now ≡ header.now.count }
        requires writable { AreWritable Accepted rulings.now }
        ensures { IfOk result (λ v. v.items
            ≡ repeating_text (answer_text header.now Accepted rulings.now) (repeated_in self.now rulings.now)) }
    {
        let plain = write_answer(alloc, header, HeaderStatus::Accepted, rulings)?;
        let places = self.all_repeated(alloc, rulings)?;
        write_repeating(alloc, plain.as_slice(), places.as_slice())
    }

    /// What each ruling repeats.
    fn all_repeated<'a>(
        &'a self,
        alloc: Global,
        rulings: &[Ruling],
    ) -> Result<Vec<Option<Repeated<'a>>>, AllocError>
        requires carries { carries_more self.now.settings ≡ true }
        ensures { IfOk result (λ places. map (option_map repeated_seen) places.items ≡ repeated_in self.now rulings.now) }
    {
        let mut places = Vec::new(alloc);
        for ruling in rulings {
            places.push(self.repeated(ruling))?;
        }
        Ok(places)
    }

    /// What a ruling repeats: of a duplicate the place of its payment's answer.
    fn repeated(&self, ruling: &Ruling) -> Option<Repeated<'_>>
        requires carries { carries_more self.now.settings ≡ true }
        ensures { option_map repeated_seen result ≡ repeated_by reading self.now.rows ruling.now }
    {
        match *ruling {
            Ruling::Duplicate {
                auth,
                prescription: _,
                amounts: _,
            } => self.answered_at(auth),
            Ruling::Paid { .. } | Ruling::Reversed { .. } | Ruling::Rejected { .. } => None,
        }
    }

    /// Where the payment of an authorization was answered.
    fn answered_at(&self, auth: Auth) -> Option<Repeated<'_>>
        requires carries { carries_more self.now.settings ≡ true }
        ensures { option_map repeated_seen result
            ≡ answered_at reading self.now.rows (payment_of auth (ruled_rows reading self.now.rows)) }
    {
        let origin = self.origin(auth)?;
        let row = self.row_for(origin.id)?;
        Some(Repeated {
            answer: row.answer(),
            place: origin.place,
        })
    }

    /// Where the payment of an authorization was ruled.
    fn origin(&self, auth: Auth) -> Option<Origin>
        requires carries { carries_more self.now.settings ≡ true }
        ensures { result ≡ option_map origin_of (payment_of auth (ruled_rows reading self.now.rows)) }
    {
        // The payments are a ledger.
        let _payments = self.payments.len();
        match self.payments.place_of(auth) {
            Some(place) => origin_at(&self.origins, place),
            None => None,
        }
    }
}

/// Where the payment at a place was ruled.
fn origin_at(origins: &[Origin], place: usize) -> Option<Origin>
    ensures { result ≡ slice_get origins.now place }
{
    origins.get(place).copied()
}
