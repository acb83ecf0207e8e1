//! The book, and what is read from it.

pub(crate) mod adding;
pub(crate) mod advice;
pub(crate) mod answering;
pub(crate) mod carrying;
pub(crate) mod changing;
pub(crate) mod deciding;
pub(crate) mod entering;
pub(crate) mod held_rulings;
pub(crate) mod hint;
pub(crate) mod origins;
pub(crate) mod payment;
pub(crate) mod payments;
pub(crate) mod place_map;
pub(crate) mod placing;
pub(crate) mod posting;
pub(crate) mod repeating;
pub(crate) mod rest;
pub(crate) mod row;
pub(crate) mod rows;
pub(crate) mod texts;

ghost use Rattle.std.specs.Prelude.{◌≡◌, ◌<◌, ◌≤◌, [], map, length, slice_get, Some, Ok, OnOk, OnErr, IfErr};
ghost use Rattle.std.specs.Option.{option_copied, option_and_then};
ghost use Rattle.bin_routes.specs.Table.{RouteMaps};
ghost use Rattle.plan_rules.specs.Terms.{RefusedFor, SetPrice, SetTerms, changed};
ghost use Rattle.claim_model.specs.Bytes.{bytes_with};
ghost use Rattle.claim_model.specs.Book.{row_of};
ghost use Rattle.claim_model.specs.Held.{row_answer};
ghost use Rattle.payer_book.specs.Views.{payment_in, view_of};
ghost use Rattle.payer_book.specs.Added.{kept_row, added_all, without_rows};
ghost use Rattle.payer_book.specs.RowPlaces.{IsPlaceOf};

use crate::book::origins::Origin;
use crate::book::payment::Payment;
use crate::book::payments::Payments;
use crate::book::row::Row;
use crate::book::rows::Rows;
use crate::keys::HashKeys;
use crate::ruling::drafting::Draft;
use crate::settings::BookSettings;
use bin_routes::PayerNo;
use claim_profile::{Amounts, Auth, Fill};
use envelope::TxnId;
use plan_rules::{Plan, PlanFault};
use std::alloc::Global;
use std::marker::Model;

/// The book of one processor: its number, its settings, its plan and every request that it decided.
#[derive(Drop)]
pub struct Book {
    pub(crate) payer: PayerNo,
    pub(crate) settings: BookSettings,
    pub(crate) plan: Plan,
    pub(crate) rows: Rows,
    pub(crate) payments: Payments,
    /// Where each payment was ruled, in their order; nothing where the answers carry nothing.
    pub(crate) origins: Vec<Origin>,
    /// Lists that one request after another is ruled in. No contract sees them.
    pub(crate) draft: Draft,
}

impl Model for Book {
    ghost use Rattle.claim_model.specs.Rows.{Book as BookParts};
    ghost use Rattle.payer_book.specs.Books.{IsBook};
    ghost use Rattle.payer_book.specs.MadeBooks.{IsMade};
    ghost use Rattle.std.specs.Prelude.{◌≡◌};
    ghost use Rattle.payer_book.specs.Origins.{origins_of};

    ghost Value = { BookParts };

    ghost view = { λ b. record { payer = b.payer; settings = b.settings; plan = b.plan; rows = b.rows } };

    ghost invariant = { λ b. IsBook b.payer b.settings.serial b.rows b.payments
        × IsMade b.payer b.settings b.rows b.payments × (b.origins.items ≡ origins_of b.settings b.rows) };
}

/// The answer to a request, and whether the book had it already.
#[derive(Drop)]
pub struct Reply {
    /// The answer's bytes, with header status `A` (501-F1).
    pub bytes: Vec<u8>,
    /// True where the number was known with the same request.
    pub kept: bool,
}

/// What is known of a payment.
#[derive(Clone, Copy, PartialEq, Eq)]
pub struct PaymentView {
    /// What was paid for.
    pub fill: Fill,
    /// What was paid.
    pub amounts: Amounts,
    /// The request that reversed it; None where it stands.
    pub reversed_by: Option<TxnId>,
}

impl Book {
    /// An empty book, with memory from `alloc`. Nothing is taken before the first row. Its maps hash with keys that are the
    /// same in every program.
    pub fn new(alloc: Global, payer: PayerNo, settings: BookSettings, plan: Plan) -> Book
        ensures { result ≡ record { payer = payer; settings = settings; plan = plan; rows = [] } }
    {
        Book::keyed(alloc, payer, settings, plan, &HashKeys::fixed())
    }

    /// The same, and its maps hash with these keys.
    pub fn keyed(
        alloc: Global,
        payer: PayerNo,
        settings: BookSettings,
        plan: Plan,
        keys: &HashKeys,
    ) -> Book
        ensures { result ≡ record { payer = payer; settings = settings; plan = plan; rows = [] } }
    {
        let _number = payer.get();
        Book {
            payer,
            settings,
            plan,
            rows: Rows::new(alloc, keys),
            payments: Payments::new(alloc, payer, settings.serial(), keys),
            origins: Vec::new(alloc),
            draft: Draft::new(alloc),
        }
    }

    /// The payer whose book it is.
    pub fn payer(&self) -> PayerNo
        ensures { result ≡ self.now.payer }
    {
        self.payer
    }

    /// What the book was opened with.
    pub fn settings(&self) -> BookSettings
        ensures { result ≡ self.now.settings }
    {
        self.settings
    }

    /// The plan in force.
    pub fn plan(&self) -> &Plan
        ensures { result.now ≡ self.now.plan }
    {
        &self.plan
    }

    /// The allocator that the book was opened with.
    pub fn allocator(&self) -> Global {
        self.rows.allocator()
    }

    /// The keys that its maps hash with.
    pub fn keys(&self) -> HashKeys {
        self.rows.keys()
    }

    /// The decided requests, oldest first.
    pub fn rows(&self) -> &[Row]
        ensures value { result.now ≡ self.now.rows }
        ensures in_limit { length self.now.rows ≤ self.now.settings.cap }
        // The book is what adding its rows one by one to an empty book makes.
        ensures made { added_all (Some (without_rows self.now)) (map kept_row self.now.rows) ≡ Some self.now }
    {
        self.rows.as_slice()
    }

    /// The decided request at a place, from 0.
    pub fn row(&self, place: usize) -> Option<&Row>
        ensures { option_copied result ≡ slice_get self.now.rows place }
    {
        self.rows.as_slice().get(place)
    }

    /// Sets the price of a product, in ten-thousandths of a dollar a unit, or with `None` takes the product off the plan.
    /// Decided requests keep their answers.
    ///
    /// # Errors
    /// Those of `Plan::set`; `None` never refuses.
    pub fn change_plan(&mut self, product: &[u8], price: Option<u32>) -> Result<(), PlanFault>
        ensures rest { (self.new.payer ≡ self.old.payer) × (self.new.settings ≡ self.old.settings)
            × (self.new.rows ≡ self.old.rows) }
        ensures ok { OnOk result (changed self.old.plan (SetPrice product.now price) ≡ Ok self.new.plan) }
        ensures err { OnErr result (self.new ≡ self.old) }
        ensures cause { IfErr result (λ fault. RefusedFor fault (changed self.old.plan (SetPrice product.now price))) }
    {
        match price {
            Some(price) => self.plan.set(product, price),
            None => {
                self.plan.clear(product);
                Ok(())
            }
        }
    }

    /// Sets the fee and the copay, in cents. Decided requests keep their answers.
    ///
    /// # Errors
    /// Those of `Plan::set_terms`.
    pub fn change_terms(&mut self, fee: u32, copay: u32) -> Result<(), PlanFault>
        ensures rest { (self.new.payer ≡ self.old.payer) × (self.new.settings ≡ self.old.settings)
            × (self.new.rows ≡ self.old.rows) }
        ensures ok { OnOk result (changed self.old.plan (SetTerms fee copay) ≡ Ok self.new.plan) }
        ensures err { OnErr result (self.new ≡ self.old) }
        ensures cause { IfErr result (λ fault. RefusedFor fault (changed self.old.plan (SetTerms fee copay))) }
    {
        self.plan.set_terms(fee, copay)
    }

    /// The bytes of the answer to the request of that id.
    pub fn held(&self, id: TxnId) -> Option<&[u8]>
        ensures { (routes : RouteMaps)
            → option_copied result ≡ option_and_then (row_answer (bytes_with routes)) (row_of id self.now.rows) }
    {
        match self.row_for(id) {
            Some(row) => Some(row.answer()),
            None => None,
        }
    }

    /// The place of the row of an id.
    pub(crate) fn place_of(&self, id: TxnId) -> Option<usize>
        ensures { IsPlaceOf id self.now.rows result }
    {
        self.rows.place_of(id)
    }

    /// The row at a place.
    pub(crate) fn row_at(&self, place: usize) -> &Row
        requires { place < length self.now.rows }
        ensures { slice_get self.now.rows place ≡ Some result.now }
    {
        self.rows.at(place)
    }

    /// The row of an id.
    pub(crate) fn row_for(&self, id: TxnId) -> Option<&Row>
        ensures { option_copied result ≡ row_of id self.now.rows }
    {
        self.rows.find(id)
    }

    /// The payment of that authorization.
    #[tactic(auto, using(crate::proofs::Told::payment_told))]
    pub fn payment(&self, auth: Auth) -> Option<PaymentView>
        ensures { (routes : RouteMaps) → result ≡ payment_in (bytes_with routes) self.now auth }
    {
        match self.payments.find(auth) {
            Some(payment) => Some(view_of(payment)),
            None => None,
        }
    }
}

/// What is known of a payment.
fn view_of(payment: &Payment) -> PaymentView
    ensures { result ≡ view_of payment.now }
{
    match payment {
        Payment::Standing(payment) => PaymentView {
            fill: payment.claim().fill,
            amounts: payment.amounts(),
            reversed_by: None,
        },
        Payment::Reversed(payment) => PaymentView {
            fill: payment.claim().fill,
            amounts: payment.amounts(),
            reversed_by: Some(payment.by()),
        },
    }
}
