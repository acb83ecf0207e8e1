//! What holds of all causes and of all parts.

ghost use Rattle.std.specs.Prelude.{◌≡◌, ◌<◌, ℕ, List, [], slice_index, take, Ok, Err, None};
ghost use Rattle.std.specs.List.{AllByRecursion};
ghost use Rattle.d0_header.specs.Request.{Request};
ghost use Rattle.d0_segments.specs.Parts.{SegmentParts};
ghost use Rattle.d0_segments.specs.Framing.{framing_fault, request_kind, response_kind};
ghost use Rattle.claim_profile.specs.declared.order.Order.{Order};
ghost use Rattle.claim_profile.specs.declared.reject.Code.{Code};
ghost use Rattle.claim_profile.specs.declared.order_reading.OrderFault.TheVariants.{Rejected};
ghost use Rattle.claim_profile.specs.Order.{order_of};
ghost use Rattle.claim_model.specs.Journal.{JournalAtRest, PharmacySettings};
ghost use Rattle.claim_model.specs.Rows.{Book, BookSettings};
ghost use Rattle.kept_records.specs.Books.{book_in};
ghost use Rattle.kept_records.specs.Journals.{journal_in};
ghost use Rattle.message_parts.specs.AtRest.{record_told};
ghost use Rattle.message_parts.specs.Causes.{causes_of, codes_told};
ghost use Rattle.message_parts.specs.declared.layout.Form.TheVariants.{Request as Asked, Answer as Answered};
ghost use Rattle.message_parts.specs.Parts.{PartSeen};
ghost use Rattle.message_parts.specs.Standing.{Stands};
ghost use Rattle.message_parts.specs.Steps.{AreTransmission};

/// A transaction has no cause exactly where it reads as an order, and the codes with which one is rejected are the
/// first five of its causes.
#[tactic(auto, using(crate::proofs::CauseLaws::reads, crate::proofs::CauseLaws::only, crate::proofs::CauseLaws::first_five))]
pub fn cause_laws()
    ensures reads { (h : Request) (shared group : List SegmentParts) (order : Order)
        → order_of h shared group ≡ Ok order → causes_of h shared group ≡ [] }
    ensures only { (h : Request) (shared group : List SegmentParts)
        → causes_of h shared group ≡ [] → (order : Order) × (order_of h shared group ≡ Ok order) }
    ensures first_five { (h : Request) (shared group : List SegmentParts) (codes : List Code)
        → order_of h shared group ≡ Err (Rejected codes) → codes ≡ take 5 (codes_told (causes_of h shared group)) }
{}

/// In a request or an answer that is framed as the standard has it, no part stands where none should.
pub fn part_laws()
    ensures request { (place : ℕ) (bytes : List ℕ) (parts : List PartSeen)
        → framing_fault request_kind bytes ≡ None → AreTransmission Asked place bytes parts
        → AllByRecursion Stands parts }
    ensures answer { (place : ℕ) (bytes : List ℕ) (parts : List PartSeen)
        → framing_fault response_kind bytes ≡ None → AreTransmission Answered place bytes parts
        → AllByRecursion Stands parts }
{}

/// In a journal or a book that reads well no part stands where none should, nor in the requests and answers in it.
#[tactic(auto, using(crate::proofs::RecordLaws::journal_stands, crate::proofs::RecordLaws::book_stands))]
pub fn record_laws()
    ensures journal { (number : ℕ) (settings : PharmacySettings) (bytes : List ℕ) (j : JournalAtRest)
        → journal_in number settings bytes ≡ Ok j → AllByRecursion Stands (record_told 0 bytes).parts }
    ensures book { (payer : ℕ) (settings : BookSettings) (bytes : List ℕ) (b : Book)
        → ((i : ℕ) → slice_index bytes i < 256) → book_in payer settings bytes ≡ Ok b
        → AllByRecursion Stands (record_told 0 bytes).parts }
{}
