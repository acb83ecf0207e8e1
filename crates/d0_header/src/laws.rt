//! What is true of every header text, for the proofs of the crates above.

ghost use Rattle.std.specs.Prelude.{◌≡◌, ℕ, List, ◌++◌, length, drop, None, IsTrue};
ghost use Rattle.d0_header.specs.Field.{is_plain};
ghost use Rattle.d0_header.specs.Request.{Request, IsRequest, request_text, request_of, request_fault};
ghost use Rattle.d0_header.specs.Response.{Response, IsResponse, response_text, response_of, response_fault, answer_to};

/// The text of a request header has 56 bytes, without a fault, and whatever follows it, its fields are cut
/// from it again. Bytes without a fault begin with the text of the fields that are cut from them.
#[tactic(auto, using(crate::proofs::RequestLemmas::length_is, crate::proofs::RequestLemmas::none_again, crate::proofs::RequestLemmas::same_again))]
pub fn request_text_laws()
    ensures width { (h : Request) → IsRequest h → length (request_text h) ≡ 56 }
    ensures passes { (h : Request) (rest : List ℕ) → IsRequest h → request_fault (request_text h ++ rest) ≡ None }
    ensures again { (h : Request) (rest : List ℕ) → IsRequest h → request_of (request_text h ++ rest) ≡ h }
    ensures found { (bytes : List ℕ) → request_fault bytes ≡ None
        → IsRequest (request_of bytes) × (bytes ≡ request_text (request_of bytes) ++ drop 56 bytes) }
{}

/// The text of a response header has 31 bytes, without a fault, and whatever follows it, its fields are cut
/// from it again. Bytes without a fault begin with the text of the fields that are cut from them.
#[tactic(auto, using(crate::proofs::ResponseLemmas::length_is, crate::proofs::ResponseLemmas::none_again, crate::proofs::ResponseLemmas::same_again))]
pub fn response_text_laws()
    ensures width { (h : Response) → IsResponse h → length (response_text h) ≡ 31 }
    ensures passes { (h : Response) (rest : List ℕ) → IsResponse h → response_fault (response_text h ++ rest) ≡ None }
    ensures again { (h : Response) (rest : List ℕ) → IsResponse h → response_of (response_text h ++ rest) ≡ h }
    ensures found { (bytes : List ℕ) → response_fault bytes ≡ None
        → IsResponse (response_of bytes) × (bytes ≡ response_text (response_of bytes) ++ drop 31 bytes) }
    // What answers a sound request header is a sound response header.
    ensures answers { (h : Request) (status : ℕ) → IsRequest h → IsTrue (is_plain status)
        → IsResponse (answer_to h status) }
{}
