//! What holds of every transmission text, for the proofs of the crates above.

ghost use Rattle.std.specs.Prelude.{◌≡◌, ◌↔◌, ℕ, List, None, Some};
ghost use Rattle.d0_header.specs.Request.{Request};
ghost use Rattle.d0_header.specs.Response.{Response};
ghost use Rattle.d0_segments.specs.declared.fault.FramingFault.{FramingFault};
ghost use Rattle.d0_segments.specs.Parts.{TransmissionParts};
ghost use Rattle.d0_segments.specs.Faults.{first_fault};
ghost use Rattle.d0_segments.specs.Least.{IsLeast, StandsIn};
ghost use Rattle.d0_segments.specs.Framing.{request_kind, response_kind, IsRequestFramed, IsResponseFramed, transmission_text, transmission_of};

use d0_header::{request_text_laws, response_text_laws};

/// What is written is read again, and no two requests have one text.
pub fn request_laws()
    ensures again { (t : TransmissionParts Request) → IsRequestFramed t
        → transmission_of request_kind (transmission_text request_kind t) ≡ Some t }
    ensures one_text { (t u : TransmissionParts Request) → IsRequestFramed t → IsRequestFramed u
        → transmission_text request_kind t ≡ transmission_text request_kind u → t ≡ u }
{
    request_text_laws();
}

/// What is written is read again, and no two responses have one text.
pub fn response_laws()
    ensures again { (t : TransmissionParts Response) → IsResponseFramed t
        → transmission_of response_kind (transmission_text response_kind t) ≡ Some t }
    ensures one_text { (t u : TransmissionParts Response) → IsResponseFramed t → IsResponseFramed u
        → transmission_text response_kind t ≡ transmission_text response_kind u → t ≡ u }
{
    response_text_laws();
}

/// The fault that a search from left to right finds is the one with the least place of all rows of
/// the fault table that stand anywhere in the text, and where it finds none, none stands.
#[tactic(auto, using(crate::proofs::Leasts::none_stands))]
pub fn first_fault_laws()
    ensures least { (front offset : ℕ) (text : List ℕ) (fault : FramingFault)
        → first_fault front offset text ≡ Some fault ↔ IsLeast front offset text fault }
    ensures none { (front offset : ℕ) (text : List ℕ) → first_fault front offset text ≡ None
        → (k : ℕ) (fault : FramingFault) → StandsIn front offset text k fault → ⊥ }
{}
