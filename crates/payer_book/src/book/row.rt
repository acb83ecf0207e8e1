//! One decided request.

ghost use Rattle.std.specs.Prelude.{◌≡◌, ◌≤◌, length, Some, IsSome, IfOk};
ghost use Rattle.bin_routes.specs.Table.{RouteMaps};
ghost use Rattle.d0_header.specs.Request.{request_of};
ghost use Rattle.claim_profile.specs.Readable.{readable_header};
ghost use Rattle.claim_model.specs.Bytes.{bytes_with};
ghost use Rattle.claim_model.specs.Readable.{route_key};
ghost use Rattle.claim_model.specs.Book.{row_text};
ghost use Rattle.claim_model.specs.Held.{row_answer};
ghost use Rattle.envelope.specs.Envelope.{longest_payload};
ghost use Rattle.payer_book.specs.Kept.{IsAnswered, carried_of};
ghost use Rattle.payer_book.specs.Added.{kept_answer};

use crate::book::held_rulings::HeldRulings;
use crate::book::texts::Texts;
use bin_routes::RouteKey;
use claim_profile::{Ruling, bin_of, pcn_of, provider_of, qualifier_of};
use envelope::TxnId;
use std::alloc::{AllocError, Global};
use std::marker::Model;

/// One decided request: its id, its bytes, the ruling of each place and the answer's bytes.
#[derive(Drop)]
pub struct Row {
    id: TxnId,
    texts: Texts,
    rulings: HeldRulings,
    /// Whether the answer carries anything beside the rulings.
    carries: bool,
}

impl Model for Row {
    ghost use Rattle.claim_model.specs.Rows.{Row as RowParts};
    ghost use Rattle.payer_book.specs.Kept.{IsAnswered, carried_of};

    ghost Value = { RowParts };

    ghost view = { λ r. record {
      id = r.id;
      request = r.texts.request;
      rulings = r.rulings;
      carried = carried_of r.carries r.texts.answer;
    } };

    ghost invariant = { λ r. IsAnswered r.texts.request r.rulings (carried_of r.carries r.texts.answer) r.texts.answer };
}

impl Row {
    /// The row of a readable request with these rulings, and its answer, of which it is known whether it carries anything:
    /// copies of them.
    pub(crate) fn copy_of(
        alloc: Global,
        id: TxnId,
        request: &[u8],
        rulings: &[Ruling],
        answer: &[u8],
        carries: bool,
    ) -> Result<Row, AllocError>
        requires { IsAnswered request.now rulings.now (carried_of carries answer.now) answer.now }
        ensures { IfOk result (λ row. row ≡ record {
          id = id;
          request = request.now;
          rulings = rulings.now;
          carried = carried_of carries answer.now;
        }) }
    {
        let texts = Texts::copy_of(alloc, request, answer)?;
        let rulings = HeldRulings::copy_of(alloc, rulings)?;
        Ok(Row {
            id,
            texts,
            rulings,
            carries,
        })
    }

    /// The pharmacy and number that the request came under.
    pub fn id(&self) -> TxnId
        ensures { result ≡ self.now.id }
    {
        self.id
    }

    /// What a route may look at in the request. It is readable, so the fields stand at their places.
    pub(crate) fn route_key(&self) -> RouteKey
        ensures readable { readable_header self.now.request ≡ Some (request_of self.now.request) }
        ensures key { result ≡ route_key (request_of self.now.request) }
    {
        let _answered = self.answer();
        let request = self.texts.request();
        RouteKey {
            bin: bin_of(request),
            pcn: pcn_of(request),
            qualifier: qualifier_of(request),
            provider: provider_of(request),
        }
    }

    /// The request's bytes.
    pub fn request(&self) -> &[u8]
        ensures { result.now ≡ self.now.request }
    {
        self.texts.request()
    }

    /// The ruling of each place, in the order of the request's groups.
    pub fn rulings(&self) -> &[Ruling]
        ensures { result.now ≡ self.now.rulings }
    {
        self.rulings.as_slice()
    }

    /// The answer's bytes: header status `A` (501-F1), one group for each ruling, and what the answer carries.
    #[tactic(auto, using(crate::proofs::Readings::kept_text))]
    pub fn answer(&self) -> &[u8]
        ensures kept { IsAnswered self.now.request self.now.rulings self.now.carried result.now }
        ensures short { length result.now ≤ longest_payload }
        ensures value { (routes : RouteMaps) → Some result.now ≡ row_answer (bytes_with routes) self.now }
        ensures row { (routes : RouteMaps) → Some result.now ≡ row_text (bytes_with routes) self.now }
        ensures text { result.now ≡ kept_answer self.now }
    {
        self.texts.answer()
    }
}
