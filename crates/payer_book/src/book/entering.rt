//! Entering a new request: its row, and what the row changes among the payments.

ghost use Rattle.std.specs.Prelude.{◌≡◌, ◌<◌, cond, true, List, [], length, OnOk, OnErr, IfOk, Some, None};
ghost use Rattle.std.specs.List.{list_all};
ghost use Rattle.std.specs.Option.{option_copied};
ghost use Rattle.d0_segments.specs.Framing.{request_kind, transmission_of};
ghost use Rattle.d0_segments.specs.FramedParts.{framed_parts};
ghost use Rattle.claim_profile.specs.Readable.{readable_header};
ghost use Rattle.claim_profile.specs.declared.ruling.HeaderStatus.TheVariants.{Accepted};
ghost use Rattle.claim_profile.specs.Answer.{AreWritable, answer_text};
ghost use Rattle.carried_fields.specs.Repeating.{repeating_text};
ghost use Rattle.claim_model.specs.Book.{serial_fits, row_of, has_verdicts, carries_more};
ghost use Rattle.claim_model.specs.Bytes.{bytes_with};
ghost use Rattle.claim_model.specs.Words.{Advice, Ruling};
ghost use Rattle.bin_routes.specs.Table.{routes_of};
ghost use Rattle.payer_book.specs.Faults.{LacksSerial};
ghost use Rattle.payer_book.specs.Drafts.{pricing, pricing_of, Suits};
ghost use Rattle.payer_book.specs.Added.{with_row};
ghost use Rattle.payer_book.specs.MadeBooks.{ArePrices};
ghost use Rattle.payer_book.specs.Origins.{repeated_in, given_or};
ghost use Rattle.payer_book.specs.Entries.{IsEntry, rulings_by, row_by};

use crate::book::Book;
use crate::book::carrying::write_into;
use crate::book::origins::enter_origins;
use crate::book::row::Row;
use crate::ruling::changes::Change;
use crate::ruling::drafting::{Draft, rule_all};
use crate::ruling::pricing::Prices;
use carried_fields::carrying_laws;
use claim_model::{Fault, bytes_keep_laws, orders_of_requests};
use claim_profile::Ruling;
use d0_header::RequestHeader;
use d0_segments::Framed;
use envelope::TxnId;
use overpunch::number_in_range;
use std::alloc::{AllocError, Global};
use std::mem::replace;

impl Book {
    /// The row that a request gets at these prices, with all that takes memory but its places in the book; the draft then has
    /// what the row changes. Its answer carries what there is of a text, and where none is given duplicates repeat what the
    /// answers to their payments carried.
    pub(crate) fn prepare(
        &self,
        alloc: Global,
        draft: &mut Draft,
        id: TxnId,
        framed: &Framed<'_, RequestHeader>,
        request: &[u8],
        prices: Prices<'_>,
        said: Option<&[u8]>,
    ) -> Result<Row, Fault>
        requires parts { transmission_of request_kind request.now ≡ Some (framed_parts framed.now) }
        requires readable { readable_header request.now ≡ Some framed.now.header }
        requires prices { ArePrices (pricing prices) }
        requires suits { Suits (pricing prices) self.now.settings }
        ensures made { IfOk result (λ row. IsEntry self.now row draft.new.changes.items
            × (row ≡ row_by (pricing prices.entry) self.now id request.now (option_copied said.entry))) }
        ensures advised { OnOk result ((advice : Advice) → pricing prices.entry ≡ pricing_of self.now advice
            → draft.new.advised ≡ has_verdicts (bytes_with (routes_of [])) self.now advice id request.now) }
        ensures fault { LacksSerial
            (list_all serial_fits (rulings_by (pricing prices.entry) self.now id request.now)) result }
    {
        orders_of_requests();
        bytes_keep_laws();
        carrying_laws();
        rule_all(draft, &self.payments, prices, framed)?;
        let header = framed.header();
        let rulings = draft.rulings.as_slice();
        let repeated = self.repeating_unless(alloc, said, header, rulings)?;
        let heard = self.heard(said, repeated.as_slice());
        let text = &mut draft.answer;
        let carries = write_into(text, alloc, header, rulings, heard)?;
        Ok(Row::copy_of(alloc, id, request, rulings, text.as_slice(), carries)?)
    }

    /// What is repeated, where no text is given and the answers of this book carry anything.
    fn repeating_unless(
        &self,
        alloc: Global,
        said: Option<&[u8]>,
        header: &RequestHeader,
        rulings: &[Ruling],
    ) -> Result<Vec<u8>, AllocError>
        requires count { length rulings.now ≡ header.now.count }
        requires writable { AreWritable Accepted rulings.now }
        ensures { IfOk result (λ v. carries_more self.now.settings ≡ true → option_copied said.entry ≡ None → v.items
            ≡ repeating_text (answer_text header.now Accepted rulings.now) (repeated_in self.now rulings.now)) }
    {
        if said.is_none() && self.settings.carries_more() {
            self.repeating(alloc, header, rulings)
        } else {
            Ok(Vec::new(alloc))
        }
    }

    /// A text that is given, else the one that is repeated, as far as the answers of this book carry anything.
    fn heard<'a>(&self, said: Option<&'a [u8]>, repeated: &'a [u8]) -> &'a [u8]
        ensures { result.now ≡ cond (carries_more self.now.settings) (given_or (option_copied said.entry) repeated.now) [] }
    {
        if self.settings.carries_more() {
            said.unwrap_or(repeated)
        } else {
            &[]
        }
    }

    /// Takes memory for this many more rows and payments at once. Answers that make them then move nothing of what the book
    /// has. Where memory is refused the book may have room for some.
    pub fn reserve(&mut self, rows: usize, payments: usize) -> Result<(), AllocError>
        ensures { self.new ≡ self.old }
    {
        let origins = if self.settings.carries_more() {
            payments
        } else {
            0
        };
        self.payments.reserve(payments)?;
        self.origins.reserve(origins)?;
        self.rows.reserve(rows)
    }

    /// Adds the row and makes its changes.
    pub(crate) fn enter(&mut self, row: Row, changes: &[Change]) -> Result<(), AllocError>
        requires possible { IsEntry self.old row changes.now }
        requires room { length self.old.rows < self.old.settings.cap }
        requires fresh { row_of row.id self.old.rows ≡ None }
        ensures book { OnOk result (self.new ≡ with_row self.old row) }
        ensures err { OnErr result (self.new ≡ self.old) }
    {
        number_in_range();
        let id = row.id();
        let noted = self.noted(changes);
        self.payments.reserve(changes.len())?;
        self.origins.reserve(noted.len())?;
        self.rows.push(row)?;
        self.payments.enter(id, changes);
        enter_origins(&mut self.origins, id, noted);
        Ok(())
    }

    /// The changes, where it is kept where payments were ruled.
    fn noted<'a>(&self, changes: &'a [Change]) -> &'a [Change]
        ensures { result.now ≡ cond (carries_more self.now.settings) changes.now [] }
    {
        if self.settings.carries_more() {
            changes
        } else {
            &[]
        }
    }

    /// The lists of the last request, to be filled by this one.
    pub(crate) fn lend_draft(&mut self, alloc: Global) -> Draft
        ensures { self.new ≡ self.old }
    {
        replace(&mut self.draft, Draft::new(alloc))
    }

    /// Keeps the lists for the next request.
    pub(crate) fn keep_draft(&mut self, draft: Draft)
        ensures { self.new ≡ self.old }
    {
        self.draft = draft;
    }
}
